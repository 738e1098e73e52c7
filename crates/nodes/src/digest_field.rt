ghost use Rattle.std.specs.Prelude.{◌≡◌, ℕ, ◌≤◌, ◌++◌, length};
ghost use Rattle.digest.specs.Digests.{value_of};
ghost use Rattle.wire.specs.Fields.{field_bytes};
ghost use Rattle.wire.specs.Writing.{told, ending, after};
ghost use Rattle.nodes.specs.Digests.{digest_bytes};
ghost use Rattle.nodes.specs.Kinds.{SoundDigest};

use crate::ending::{last_number_length, write_last_number};
use digest::Digest;
use wire::{
    WriteFault, end_of, field_length, number_length, write_bytes, write_field, write_number,
};

// How many bytes the message of a digest takes.
fn digest_length(digest: &Digest) -> usize
    ensures value { result ≡ length (digest_bytes (value_of digest.now)) }
    ensures short { result ≤ 86 }
{
    field_length(&digest.hash.to_text()) + last_number_length(digest.size)
}

// How many bytes a field with the message of a digest takes, whatever its tag.
pub fn digest_field_length(digest: &Digest) -> usize
    ensures value { (tag : ℕ) → result ≡ length (field_bytes tag (digest_bytes (value_of digest.now))) }
    ensures short { result ≤ 97 }
{
    let long = digest_length(digest);
    1 + number_length(long as u64) + long
}

// Writes such a field and further bytes from a place of the buffer on, and answers the place behind them.
pub fn write_digest_field(
    buffer: &mut [u8],
    start: usize,
    tag: u8,
    digest: &Digest,
    more: &[u8],
) -> Result<usize, WriteFault>
    ensures answer { told result ≡ ending buffer.old start (field_bytes tag (digest_bytes (value_of digest.now)) ++ more.now) }
    ensures buffer { buffer.new ≡ after buffer.old start (field_bytes tag (digest_bytes (value_of digest.now)) ++ more.now) }
{
    end_of(buffer, start, digest_field_length(digest) + more.len())?;
    buffer[start] = tag;
    let hash_at = write_number(buffer, start + 1, digest_length(digest) as u64)?;
    let size_at = write_field(buffer, hash_at, 0x0A, &digest.hash.to_text())?;
    let more_at = write_last_number(buffer, size_at, 0x10, digest.size)?;
    write_bytes(buffer, more_at, more)
}

// Every digest can be written: by their types, its words have 32 bits and its size is below 2^63.
pub fn digest_is_sound(digest: Digest)
    ensures { SoundDigest (value_of digest) }
{}
