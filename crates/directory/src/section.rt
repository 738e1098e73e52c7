ghost use Rattle.std.specs.Prelude.{◌≡◌, ◌<◌, drop, IfOk};
ghost use Rattle.wire.specs.Refusals.{reported};
ghost use Rattle.nodes.specs.Kinds.{part};
ghost use Rattle.directory.specs.Sections.{section_at};
ghost use Rattle.directory.specs.Steps.{PassedTo, met_in, extent_of, extent, Sorted, ends, earlier_names};

use crate::part::Sections;
use crate::progress::Progress;
use crate::region::Earlier;
use nodes::{NodeKind, read_name};
use texts::precedes;
use wire::{ReadCase, ReadFault, Span, read_field};

// A section that was read: where its last name is, and where it ends.
#[derive(Clone, Copy)]
pub struct SectionEnd {
    pub last: Span,
    pub end: usize,
}

// Reads one node more, of the kind `K`, whose name must stand above the last and be in no earlier section.
fn read_node<K: NodeKind + Drop>(bytes: &[u8], progress: Progress) -> Result<Progress, ReadFault>
    ensures value { extent_of result ≡ extent K.NodeKind.code K.NodeKind.reads (met_in bytes.now progress.earlier) (part bytes.now progress.last) progress.at (drop progress.at bytes.now) }
    ensures passed { IfOk result (λ p. PassedTo bytes.now (part bytes.now p.last) progress.earlier p.earlier) }
    ensures onward { IfOk result (λ p. progress.at < p.at) }
{
    let Progress { at, last, earlier } = progress;
    let Span { start, end } = read_field(bytes, at, K::tag())?;
    let message = &bytes[..end];
    let name = read_name(message, start)?;
    let text = &bytes[name.start..name.end];
    if !precedes(&bytes[last.start..last.end], text) {
        return Err(ReadFault {
            case: ReadCase::Order,
            place: name.start,
        });
    }
    let Some(earlier) = earlier.pass(bytes, text) else {
        return Err(ReadFault {
            case: ReadCase::Repeated,
            place: name.start,
        });
    };
    K::read_rest(message, name.end)?;
    Ok(Progress {
        at: end,
        last: name,
        earlier,
    })
}

// The section of nodes of the kind `K` from a place on, behind sections whose names ascend.
pub fn read_section<K: NodeKind + Drop>(
    bytes: &[u8],
    start: usize,
    before: Sections,
) -> Result<SectionEnd, ReadFault>
    requires { Sorted bytes.now before }
    ensures { reported result ≡ ends (section_at K.NodeKind.code K.NodeKind.reads (earlier_names bytes.now before) start (drop start bytes.now)) }
{
    let files = before.files_span();
    let directories = before.directories_span();
    let mut progress = Progress {
        at: start,
        last: Span { start, end: start },
        earlier: Earlier { files, directories },
    };
    let tag = K::tag();
    // No index: each node ends where the next begins.
    while bytes.get(progress.at) == Some(&tag) {
        progress = read_node::<K>(bytes, progress)?;
    }
    Ok(SectionEnd {
        last: progress.last,
        end: progress.at,
    })
}
