ghost use Rattle.std.specs.Prelude.{◌≡◌};
ghost use Rattle.digest.specs.Faults.{number as number_of};
ghost use Rattle.digest.specs.declared.fault.DigestFault.TheVariants.{HashText, Length};

use hash::HashTextFault;
use sha256::Sha256Fault;

// Why no digest is made.
#[derive(Clone, Copy, Debug, PartialEq, Eq)]
pub enum DigestFault {
    // The text is no hash text.
    HashText(HashTextFault),
    // The size is negative.
    Size,
    // The byte string is too long to hash.
    Length(Sha256Fault),
}

impl DigestFault {
    // The refusal's number. A match, since the faults below have numbers of their own.
    pub fn number(self) -> u8
        ensures { result ≡ number_of self }
    {
        match self {
            DigestFault::HashText(fault) => fault.number(),
            DigestFault::Size => 3,
            DigestFault::Length(fault) => fault.number(),
        }
    }
}

impl From<HashTextFault> for DigestFault {
    ghost from_gives = { λ f r. r ≡ HashText f };

    fn from(fault: HashTextFault) -> DigestFault {
        DigestFault::HashText(fault)
    }
}

impl From<Sha256Fault> for DigestFault {
    ghost from_gives = { λ f r. r ≡ Length f };

    fn from(fault: Sha256Fault) -> DigestFault {
        DigestFault::Length(fault)
    }
}
