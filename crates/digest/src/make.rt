ghost use Rattle.std.specs.Prelude.{◌≡◌};
ghost use Rattle.digest.specs.Digests.{named, digest_of};
ghost use Rattle.digest.specs.Faults.{reported};

use crate::digest::Digest;
use crate::fault::DigestFault;
use hash::Hash;
use sha256::sha256;

// No `TryFrom`: one takes a text and the other a blob, both of them bytes, and it would not tell the two apart.
impl Digest {
    // The digest with the hash that a text spells, and with a size.
    pub fn from_text(text: &[u8], size: i64) -> Result<Digest, DigestFault>
        ensures { reported result ≡ named text.now size }
    {
        let hash = Hash::from_text(text)?;
        let size = u64::try_from(size).map_err(|_| DigestFault::Size)?;
        Ok(Digest { hash, size })
    }

    // The digest of a byte string.
    pub fn of(bytes: &[u8]) -> Result<Digest, DigestFault>
        ensures { reported result ≡ digest_of bytes.now }
    {
        let hash = sha256(bytes)?;
        Ok(Digest {
            hash,
            size: bytes.len() as u64,
        })
    }
}
