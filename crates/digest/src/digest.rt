ghost use Rattle.std.specs.Prelude.{◌^◌, ◌<◌};

use hash::Hash;

// Names a byte string by its hash and its length.
#[derive(Clone, Copy, Eq)]
pub struct Digest {
    pub hash: Hash,
    pub size: u64,
    ghost bounded: { size < 2 ^ 63 },
}
