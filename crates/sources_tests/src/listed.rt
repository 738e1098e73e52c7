ghost use Rattle.digest.specs.Digests.{value_of};
ghost use Rattle.sources_tests.specs.Listed.{listed, listed_sized};

use digest::Digest;
use sources::{Source, SourceFault};

// Three bytes that are listed under a digest, theirs or not.
#[derive(Drop)]
pub struct Listed {
    pub under: Digest,
    pub bytes: [u8; 3],
}

impl Source for Listed {
    ghost meaning = { λ s. listed (value_of s.under) s.bytes };

    ghost sized = { λ s. listed_sized (value_of s.under) s.bytes };

    fn fetch(&mut self, digest: &Digest, buffer: &mut [u8]) -> Result<(), SourceFault> {
        if digest.size > buffer.len() as u64 {
            return Err(SourceFault::NoRoom);
        }
        if self.under != *digest {
            return Err(SourceFault::Missing);
        }
        if digest.size != 3 {
            return Err(SourceFault::Missing);
        }
        buffer[..3].copy_from_slice(&self.bytes);
        Ok(())
    }
}
