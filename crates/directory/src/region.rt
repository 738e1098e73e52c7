ghost use Rattle.std.specs.Prelude.{◌≡◌, ◌<◌, ◌≤◌, length, drop, is_none, IfSome};
ghost use Rattle.std.specs.Option.{option_map};
ghost use Rattle.std.specs.Result.{result_ok};
ghost use Rattle.directory.specs.Regions.{front_in, front_of, names_in, past, met};
ghost use Rattle.directory.specs.Steps.{PassedTo, met_in};

use texts::precedes;
use wire::{Span, read_field};

// The node of any kind at a place of a message: its name, and where it ends.
fn node_front(message: &[u8], at: usize) -> Option<(&[u8], usize)>
    ensures value { option_map (front_in message.now) result ≡ result_ok (front_of (drop at message.now)) }
    ensures onward { IfSome result (λ n. at < n.1) }
    ensures within { IfSome result (λ n. n.1 ≤ length message.now) }
{
    let tag = *message.get(at)?;
    let node = read_field(message, at, tag).ok()?;
    let name = read_field(&message[..node.end], node.start, 0x0A).ok()?;
    Some((&message[name.start..name.end], node.end))
}

// What is left of a region of nodes once those are passed whose names stand before a name, or nothing where the next has this name.
// The order is `precedes`, which is promised, and no `cmp` of std. `at` is no index: each node ends where the next begins.
// `message` and `name` are no struct: a name that is sought may lie elsewhere.
fn pass(message: &[u8], region: Span, name: &[u8]) -> Option<Span>
    ensures left { IfSome result (λ r. names_in message.now r ≡ past name.now (names_in message.now region)) }
    ensures met { is_none result ≡ met name.now (names_in message.now region) }
{
    let end = region.end.min(message.len());
    let nodes = &message[..end];
    let mut at = region.start;
    while let Some((other, behind)) = node_front(nodes, at) {
        if !precedes(other, name) {
            if name == other {
                return None;
            }
            break;
        }
        at = behind;
    }
    Some(Span { start: at, end })
}

// Whether a name is one of those in a region of nodes whose names ascend.
pub fn has_name(message: &[u8], region: Span, name: &[u8]) -> bool
    ensures { result ≡ met name.now (names_in message.now region) }
{
    pass(message, region, name).is_none()
}

// Where the names of earlier sections are that have not been passed.
#[derive(Clone, Copy)]
pub struct Earlier {
    pub files: Span,
    pub directories: Span,
}

impl Earlier {
    // What is left once the names before a name are passed, or nothing where one of the sections has this name.
    pub fn pass(self, message: &[u8], name: &[u8]) -> Option<Earlier>
        ensures left { IfSome result (PassedTo message.now name.now self) }
        ensures met { is_none result ≡ met_in message.now self name.now }
    {
        Some(Earlier {
            files: pass(message, self.files, name)?,
            directories: pass(message, self.directories, name)?,
        })
    }
}
