ghost use Rattle.std.specs.Prelude.{◌≤◌};

// How many bytes are written, and how long the buffer was at the start.
#[derive(Clone, Copy)]
pub struct Mark {
    pub used: usize,
    pub long: usize,
    ghost within: { used ≤ long },
    ghost small: { long ≤ 16777216 },
}
