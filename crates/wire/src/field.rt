ghost use Rattle.std.specs.Prelude.{◌≡◌, drop, IfOk};
ghost use Rattle.wire.specs.Fields.{Inside, field_at, spanned};
ghost use Rattle.wire.specs.Refusals.{reported};

use crate::fault::{ReadCase, ReadFault};
use crate::number::read_number;

// Where a part of a message begins and ends. A `Range` is not `Copy`.
#[derive(Clone, Copy, Debug, PartialEq, Eq)]
pub struct Span {
    pub start: usize,
    pub end: usize,
}

// The field whose tag stands at a place of a message: where its text is.
// `message` and `start` are no cursor: contracts speak of places, and callers hold places that they go back to.
pub fn read_field(message: &[u8], start: usize, tag: u8) -> Result<Span, ReadFault>
    ensures value { reported result ≡ spanned (field_at tag start (drop start message.now)) }
    ensures within { IfOk result (Inside start message.now) }
{
    if message.get(start) != Some(&tag) {
        return Err(ReadFault {
            case: ReadCase::Tag,
            place: start,
        });
    }
    let (length, taken) = read_number(message, start + 1)?;
    let first = start + 1 + taken;
    let length = length as usize;
    if message.len() - first < length {
        return Err(ReadFault {
            case: ReadCase::Number,
            place: start + 1,
        });
    }
    Ok(Span {
        start: first,
        end: first + length,
    })
}
