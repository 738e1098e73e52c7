ghost use Rattle.std.specs.Prelude.{◌≡◌, ◌+◌, ◌≤◌, length, drop, IfOk};
ghost use Rattle.wire.specs.Numbers.{front, number_at, NumberIsReadBack, FormIsTheOnlyOne};
ghost use Rattle.wire.specs.Refusals.{reported};

use crate::fault::{ReadCase, ReadFault};

// The number at a place of a message: its value and how many bytes it took.
pub fn read_number(message: &[u8], start: usize) -> Result<(u64, usize), ReadFault>
    ensures value { reported result ≡ number_at start (drop start message.now) }
    ensures within { IfOk result (λ x. start + x.1 ≤ length message.now) }
{
    message
        .get(start..)
        .and_then(number_in_front)
        .ok_or(ReadFault {
            case: ReadCase::Number,
            place: start,
        })
}

// The number at the front, and how many bytes it took.
fn number_in_front(bytes: &[u8]) -> Option<(u64, usize)>
    ensures { result ≡ front bytes.now }
{
    let mut value = 0;
    // By a range, so that the compiler counts the turns: an iterator over the first nine bytes takes 1.4 to 1.6 times the instructions.
    for i in 0..9 {
        let byte = *bytes.get(i)?;
        value |= u64::from(byte & 0x7F) << (7 * i);
        if byte < 0x80 {
            return if byte == 0 && i > 0 {
                None
            } else {
                Some((value, i + 1))
            };
        }
    }
    None
}

// Each number below 2^63 has one form, which is read back. It does nothing; its contract is what is proved.
pub fn numbers_have_one_form()
    ensures read_back { NumberIsReadBack }
    ensures one_form { FormIsTheOnlyOne }
{}
