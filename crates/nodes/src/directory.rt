use digest::Digest;

pub mod kind;

// What follows the name of a directory.
#[derive(Clone, Copy)]
pub struct DirectoryNode {
    pub digest: Digest,
}
