ghost use Rattle.std.specs.Prelude.{◌≡◌};
ghost use Rattle.writer.specs.Faults.{writer_refusal};
ghost use Rattle.writer.specs.declared.fault.WriterFault.TheVariants.{Read, Write};

use wire::{ReadCase, ReadFault, WriteFault};

// Why the writer refuses.
#[derive(Clone, Copy)]
pub enum WriterFault {
    // The buffer has more than 16,777,216 bytes or another length than at the start, or reading refuses the bytes so far or the node.
    Read(ReadFault),
    // The node does not fit the buffer.
    Write(WriteFault),
}

// A buffer's length is refused as a Directory's would be.
pub const LENGTH: WriterFault = WriterFault::Read(ReadFault {
    case: ReadCase::Length,
    place: 0,
});

impl WriterFault {
    // The refusal's number. A match, since the faults below have numbers of their own.
    pub fn number(self) -> u8
        ensures { result ≡ (writer_refusal self).number }
    {
        match self {
            WriterFault::Read(fault) => fault.case.number(),
            WriterFault::Write(fault) => fault.number(),
        }
    }

    // The byte at which it refuses, counted as if the node had been added. Room has no place: the rules say 0.
    pub fn place(self) -> usize
        ensures { result ≡ (writer_refusal self).place }
    {
        match self {
            WriterFault::Read(fault) => fault.place,
            WriterFault::Write(_) => 0,
        }
    }
}

impl From<ReadFault> for WriterFault {
    ghost from_gives = { λ f r. r ≡ Read f };

    fn from(read: ReadFault) -> WriterFault {
        WriterFault::Read(read)
    }
}

impl From<WriteFault> for WriterFault {
    ghost from_gives = { λ f r. r ≡ Write f };

    fn from(write: WriteFault) -> WriterFault {
        WriterFault::Write(write)
    }
}
