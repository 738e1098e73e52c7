ghost use Rattle.std.specs.Prelude.{◌≡◌, ℕ, ◌≤◌, length, drop, IfOk};
ghost use Rattle.wire.specs.Refusals.{reported};
ghost use Rattle.wire.specs.Writing.{told, ending, after};
ghost use Rattle.nodes.specs.Endings.{ended, last_number, last_bytes};

use wire::{
    ReadCase, ReadFault, WriteFault, end_of, number_length, read_number, write_bytes, write_number,
};

// Sees that a message ends at a place.
pub fn read_end(message: &[u8], at: usize) -> Result<(), ReadFault>
    ensures { reported result ≡ ended tt at (drop at message.now) }
{
    if at < message.len() {
        return Err(ReadFault {
            case: ReadCase::Tag,
            place: at,
        });
    }
    Ok(())
}

// The last field of a message, a number from 1 to `most` under a tag, or 0 where the message ends: in the format that is the number's value, and no `None`.
pub fn read_last_number(message: &[u8], start: usize, tag: u8, most: u64) -> Result<u64, ReadFault>
    ensures value { reported result ≡ last_number tag most start (drop start message.now) }
    ensures bound { IfOk result (λ n. n ≤ most) }
{
    let Some(first) = message.get(start) else {
        return Ok(0);
    };
    if *first != tag {
        return Err(ReadFault {
            case: ReadCase::Tag,
            place: start,
        });
    }
    let (number, taken) = read_number(message, start + 1)?;
    if number < 1 || number > most {
        return Err(ReadFault {
            case: ReadCase::Tag,
            place: start + 1,
        });
    }
    read_end(message, start + 1 + taken)?;
    Ok(number)
}

// How many bytes such a field takes, whatever its tag.
pub fn last_number_length(number: u64) -> usize
    ensures value { (tag : ℕ) → result ≡ length (last_bytes tag number) }
    ensures short { result ≤ 11 }
{
    if number == 0 {
        return 0;
    }
    1 + number_length(number)
}

// Writes such a field, nothing for 0, from a place of the buffer on, and answers the place behind it.
pub fn write_last_number(
    buffer: &mut [u8],
    start: usize,
    tag: u8,
    number: u64,
) -> Result<usize, WriteFault>
    ensures answer { told result ≡ ending buffer.old start (last_bytes tag number) }
    ensures buffer { buffer.new ≡ after buffer.old start (last_bytes tag number) }
{
    if number == 0 {
        return write_bytes(buffer, start, &[]);
    }
    end_of(buffer, start, last_number_length(number))?;
    buffer[start] = tag;
    write_number(buffer, start + 1, number)
}
