ghost use Rattle.std.specs.Prelude.{◌≡◌};
ghost use Rattle.digest.specs.Digests.{value_of};
ghost use Rattle.sources.specs.Sizes.{verified_sized};
ghost use Rattle.sources.specs.Verified.{has, verified, BytesHaveTheDigestAskedFor, TrueBytesAreKept};

use crate::fault::SourceFault;
use crate::source::Source;
use digest::Digest;

// Hands out the blobs of another source that have the digest asked for, and no others.
#[derive(Drop)]
pub struct Verifying<S> {
    source: S,
}

// Whether bytes have a digest.
fn has_digest(bytes: &[u8], digest: &Digest) -> bool
    ensures { result ≡ has bytes.now (value_of digest.now) }
{
    Digest::of(bytes).is_ok_and(|other| other == *digest)
}

impl<S: Source> Verifying<S> {
    // A verifying source made of another.
    pub fn new(source: S) -> Verifying<S>
        ensures made { result.source ≡ source }
        ensures asked { BytesHaveTheDigestAskedFor }
        ensures kept { TrueBytesAreKept }
    {
        Verifying { source }
    }
}

impl<S: Source> Source for Verifying<S> {
    ghost meaning = { λ v d. verified d (S.Source.meaning v.source d) };

    ghost sized = { λ v d. verified_sized d (S.Source.meaning v.source d) (S.Source.sized v.source d) };

    fn fetch(&mut self, digest: &Digest, buffer: &mut [u8]) -> Result<(), SourceFault> {
        self.source.fetch(digest, buffer)?;
        let blob = &mut buffer[..digest.size as usize];
        if has_digest(blob, digest) {
            return Ok(());
        }
        blob.fill(0);
        Err(SourceFault::Damaged)
    }
}
