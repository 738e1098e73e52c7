ghost use Rattle.std.specs.Prelude.{◌≡◌, ℕ, List, length};
ghost use Rattle.digest.specs.Digests.{Value, value_of};
ghost use Rattle.sources.specs.Fetching.{reported, fetched, after};
ghost use Rattle.sources.specs.Held.{Held, Bytes};

use crate::fault::SourceFault;
use digest::Digest;

// Where blobs come from.
pub trait Source {
    // What it means for each digest.
    ghost meaning: { Self → Value → Held };

    // Bytes are as many as the digest's size.
    ghost sized: { (s : Self) (d : Value) (bs : List ℕ) → meaning s d ≡ Bytes bs → length bs ≡ d.size };

    // Puts the blob with a digest at the buffer's front.
    fn fetch(&mut self, digest: &Digest, buffer: &mut [u8]) -> Result<(), SourceFault>
        ensures answer { reported result ≡ fetched (meaning self.old (value_of digest.now)) digest.now.size buffer.old }
        ensures buffer { buffer.new ≡ after (meaning self.old (value_of digest.now)) digest.now.size buffer.old }
        ensures kept { meaning self.new ≡ meaning self.old };
}
