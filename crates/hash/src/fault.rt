ghost use Rattle.std.specs.Prelude.{◌≡◌};
ghost use Rattle.hash.specs.Faults.{number as number_of};

// Why a text is refused.
#[derive(Clone, Copy, Debug, PartialEq, Eq)]
pub enum HashTextFault {
    // It is not 64 of the characters 0-9 and a-f.
    NotHashText = 2,
}

impl HashTextFault {
    // The refusal's number.
    pub fn number(self) -> u8
        ensures { result ≡ number_of self }
    {
        self as u8
    }
}
