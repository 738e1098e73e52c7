ghost use Rattle.std.specs.Prelude.{length, ℕ, ◌+◌, ◌≡◌, ◌≤◌};
ghost use Rattle.wire.specs.Fields.{field_bytes};
ghost use Rattle.wire.specs.Numbers.{form};
ghost use Rattle.wire.specs.Writing.{after, behind, ending, told};

use crate::fault::WriteFault;

// The place behind so many bytes from a place of the buffer on, where there is room for them.
pub fn end_of(buffer: &[u8], start: usize, len: usize) -> Result<usize, WriteFault>
    ensures { told result ≡ behind buffer.now start len }
{
    match start.checked_add(len) {
        Some(end) if end <= buffer.len() => Ok(end),
        _ => Err(WriteFault::NoRoom),
    }
}

// Writes bytes from a place of the buffer on, and answers the place behind them.
// `buffer` and `start` are no cursor: the buffer is lent at each call, and callers hold the places.
pub fn write_bytes(buffer: &mut [u8], start: usize, bytes: &[u8]) -> Result<usize, WriteFault>
    ensures answer { told result ≡ ending buffer.old start bytes.now }
    ensures buffer { buffer.new ≡ after buffer.old start bytes.now }
{
    let end = end_of(buffer, start, bytes.len())?;
    buffer[start..end].copy_from_slice(bytes);
    Ok(end)
}

// How many bytes a number takes, of seven bits each.
pub fn number_length(value: u64) -> usize
    ensures value { result ≡ length (form value) }
    ensures short { result ≤ 10 }
{
    value.max(1).ilog2() as usize / 7 + 1
}

// Fills a part that is as long as a number's form with that form.
fn fill_number(part: &mut [u8], value: u64)
    requires { length part.old ≡ length (form value) }
    ensures { part.new ≡ form value }
{
    let mut rest = value;
    for byte in part.iter_mut() {
        *byte = if rest < 0x80 {
            rest as u8
        } else {
            (rest & 0x7F) as u8 | 0x80
        };
        rest >>= 7;
    }
}

// Writes a number from a place of the buffer on, and answers the place behind it.
pub fn write_number(buffer: &mut [u8], start: usize, value: u64) -> Result<usize, WriteFault>
    ensures answer { told result ≡ ending buffer.old start (form value) }
    ensures buffer { buffer.new ≡ after buffer.old start (form value) }
{
    let end = end_of(buffer, start, number_length(value))?;
    fill_number(&mut buffer[start..end], value);
    Ok(end)
}

// How many bytes a field takes, whatever its tag.
pub fn field_length(text: &[u8]) -> usize
    ensures value { (tag : ℕ) → result ≡ length (field_bytes tag text.now) }
    ensures short { result ≤ length text.now + 11 }
{
    1 + number_length(text.len() as u64) + text.len()
}

// Writes a field from a place of the buffer on, and answers the place behind it. Its head, a tag and a number, is two lines here and in `nodes`, and a function for it would be no plainer.
pub fn write_field(
    buffer: &mut [u8],
    start: usize,
    tag: u8,
    text: &[u8],
) -> Result<usize, WriteFault>
    ensures answer { told result ≡ ending buffer.old start (field_bytes tag text.now) }
    ensures buffer { buffer.new ≡ after buffer.old start (field_bytes tag text.now) }
{
    let taken = field_length(text);
    end_of(buffer, start, taken)?;
    buffer[start] = tag;
    let behind = write_number(buffer, start + 1, text.len() as u64)?;
    write_bytes(buffer, behind, text)
}
