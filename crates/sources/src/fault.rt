ghost use Rattle.std.specs.Prelude.{◌≡◌};
ghost use Rattle.sources.specs.Fetching.{number as number_of};

// Why no blob is fetched.
#[derive(Clone, Copy, Debug, PartialEq, Eq)]
pub enum SourceFault {
    // Its size exceeds the buffer.
    NoRoom = 8,
    // The source holds nothing under the digest.
    Missing = 10,
    // The source's blob is spoiled.
    Damaged = 11,
}

impl SourceFault {
    // The refusal's number.
    pub fn number(self) -> u8
        ensures { result ≡ number_of self }
    {
        self as u8
    }
}
