ghost use Rattle.std.specs.Prelude.{◌≡◌};
ghost use Rattle.wire.specs.Refusals.{number as number_of};
ghost use Rattle.wire.specs.Writing.{write_number};

// Why bytes are refused.
#[derive(Clone, Copy, Debug, PartialEq, Eq)]
pub enum ReadCase {
    // There are more than 16,777,216.
    Length = 5,
    // A number is not shortest, exceeds nine bytes or is cut off, or a length passes the end of its message.
    Number = 12,
    // A tag may not stand there, a required field is missing, or a value is written that may not be.
    Tag = 13,
    // A hash is no hash text.
    HashText = 14,
    // A text is not UTF-8.
    Utf8 = 15,
    // A name breaks its rule.
    Name = 16,
    // A name is not above the one before it.
    Order = 17,
    // A name appeared in an earlier section.
    Repeated = 18,
    // A target breaks its rule.
    Target = 19,
}

// Why bytes are refused, and the byte where.
#[derive(Clone, Copy, Debug, PartialEq, Eq)]
pub struct ReadFault {
    pub case: ReadCase,
    pub place: usize,
}

impl ReadCase {
    // The refusal's number.
    pub fn number(self) -> u8
        ensures { result ≡ number_of self }
    {
        self as u8
    }
}

// Why bytes are not written.
#[derive(Clone, Copy, Debug, PartialEq, Eq)]
pub enum WriteFault {
    // They do not fit the buffer.
    NoRoom = 8,
}

impl WriteFault {
    // The refusal's number.
    pub fn number(self) -> u8
        ensures { result ≡ write_number self }
    {
        self as u8
    }
}
