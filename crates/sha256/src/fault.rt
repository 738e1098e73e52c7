ghost use Rattle.std.specs.Prelude.{◌≡◌};
ghost use Rattle.sha256.specs.Faults.{number as number_of};

// Why a byte string is not hashed.
#[derive(Clone, Copy, Debug, PartialEq, Eq)]
pub enum Sha256Fault {
    // It has more than 16,777,216 bytes.
    TooLong = 5,
}

impl Sha256Fault {
    // The refusal's number.
    pub fn number(self) -> u8
        ensures { result ≡ number_of self }
    {
        self as u8
    }
}
