ghost use Rattle.std.specs.Prelude.{◌≡◌, drop};
ghost use Rattle.nodes.specs.Digests.{digest_at, reported_digest};

use crate::ending::read_last_number;
use digest::Digest;
use hash::Hash;
use wire::{ReadCase, ReadFault, Span, read_field};

// 2^63 - 1, the largest size.
const MAX_SIZE: u64 = 9_223_372_036_854_775_807;

// The Digest message from a place to the message's end.
pub fn read_digest(message: &[u8], start: usize) -> Result<Digest, ReadFault>
    ensures { reported_digest result ≡ digest_at start (drop start message.now) }
{
    let Span { start: first, end } = read_field(message, start, 0x0A)?;
    let Ok(hash) = Hash::from_text(&message[first..end]) else {
        return Err(ReadFault {
            case: ReadCase::HashText,
            place: first,
        });
    };
    let size = read_last_number(message, end, 0x10, MAX_SIZE)?;
    Ok(Digest { hash, size })
}
