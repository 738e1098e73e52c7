use digest::Digest;

pub mod kind;

// What follows the name of a file. `executable` is a fact of its own, and does not say whether the digest is there.
#[derive(Clone, Copy)]
pub struct FileNode {
    pub digest: Digest,
    pub executable: bool,
}
