ghost use Rattle.std.specs.Prelude.{◌≤◌};

use crate::region::Earlier;
use wire::Span;

// How far a section was read: the place, the last name before it, and the names of earlier sections that do not stand before that.
#[derive(Clone, Copy)]
pub struct Progress {
    pub at: usize,
    pub last: Span,
    pub earlier: Earlier,
    ghost ordered: { last.start ≤ last.end },
    ghost behind: { last.end ≤ at },
}
