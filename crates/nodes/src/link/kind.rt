ghost use Rattle.std.specs.Prelude.{◌≡◌, ℕ, List};
ghost use Rattle.wire.specs.Refusals.{reported};
ghost use Rattle.nodes.specs.Kinds.{link_reads, link_finds, link_places, link_writes, link_value, SoundLink, target_at, part};
ghost use Rattle.nodes.specs.Laws.{link_accepts, link_returns, link_kept};

use super::LinkNode;
use crate::ending::read_end;
use crate::kind::NodeKind;
use texts::{is_target, is_text};
use wire::{
    ReadCase, ReadFault, Span, WriteFault, field_length, number_length, read_field, write_field,
};

impl NodeKind for LinkNode {
    ghost code = { 0x1A };

    ghost Rest = { List ℕ };

    ghost rest_in = { link_value };

    ghost reads = { link_reads };

    ghost finds = { link_finds };

    ghost writes = { link_writes };

    ghost Sound = { SoundLink };

    ghost Places = { link_places };

    ghost accepts = { link_accepts };

    ghost returns = { link_returns };

    ghost kept = { link_kept };

    fn tag() -> u8 {
        0x1A
    }

    fn read_rest(message: &[u8], start: usize) -> Result<LinkNode, ReadFault> {
        let target = read_field(message, start, 0x12)?;
        let Span { start: first, end } = target;
        judge_target(&message[first..end], first)?;
        read_end(message, end)?;
        Ok(LinkNode { target })
    }

    fn find_rest(message: &[u8], start: usize) -> Result<LinkNode, ReadFault> {
        Ok(LinkNode {
            target: read_field(message, start, 0x12)?,
        })
    }

    fn judge_rest(&self, text: &[u8], start: u32) -> Result<(), ReadFault> {
        let target = part_of(text, self.target);
        let place = start as usize + 1 + number_length(target.len() as u64);
        judge_target(target, place)
    }

    fn write_rest(
        &self,
        text: &[u8],
        buffer: &mut [u8],
        start: usize,
    ) -> Result<usize, WriteFault> {
        write_field(buffer, start, 0x12, part_of(text, self.target))
    }

    fn rest_length(&self, text: &[u8]) -> usize {
        field_length(part_of(text, self.target))
    }
}

// Sees that a target that stands at a place is text and keeps its rule. `read_name` has the same two steps: their rules and numbers would stand at each call as parameters.
fn judge_target(target: &[u8], place: usize) -> Result<(), ReadFault>
    ensures { reported result ≡ target_at place target.now }
{
    if !is_text(target) {
        return Err(ReadFault {
            case: ReadCase::Utf8,
            place,
        });
    }
    if !is_target(target) {
        return Err(ReadFault {
            case: ReadCase::Target,
            place,
        });
    }
    Ok(())
}

// The part of a text between two places, as far as the text goes. Spans that a reader has answered are sliced and not cut: they lie inside.
pub fn part_of(text: &[u8], span: Span) -> &[u8]
    ensures { result.now ≡ part text.now span }
{
    let Span { start, end } = span;
    let end = end.min(text.len());
    if start < end { &text[start..end] } else { &[] }
}
