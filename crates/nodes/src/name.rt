ghost use Rattle.std.specs.Prelude.{◌≡◌, drop, IfOk};
ghost use Rattle.wire.specs.Fields.{Inside, spanned};
ghost use Rattle.wire.specs.Refusals.{reported};
ghost use Rattle.nodes.specs.Names.{name_at};

use texts::{is_name, is_text};
use wire::{ReadCase, ReadFault, Span, read_field};

// The name of the node whose message begins at a place: where its text is.
pub fn read_name(message: &[u8], start: usize) -> Result<Span, ReadFault>
    ensures value { reported result ≡ spanned (name_at start (drop start message.now)) }
    ensures within { IfOk result (Inside start message.now) }
{
    let name = read_field(message, start, 0x0A)?;
    let Span { start: first, end } = name;
    let text = &message[first..end];
    if !is_text(text) {
        return Err(ReadFault {
            case: ReadCase::Utf8,
            place: first,
        });
    }
    if !is_name(text) {
        return Err(ReadFault {
            case: ReadCase::Name,
            place: first,
        });
    }
    Ok(name)
}
