ghost use Rattle.std.specs.Prelude.{slice_index, ◌%◌, ◌*◌, ◌+◌, ◌<◌, ◌≡◌};
ghost use Rattle.hash.specs.Faults.{reported};
ghost use Rattle.hash.specs.Text.{TextIsReadBack, TextIsTheOnlyOne, every_hex, hash_of, hex_digit, hex_pair, hex_value, is_hex, text_of};

use crate::fault::HashTextFault;
use crate::hash::Hash;
use std::array;

impl Hash {
    // The hash that a text spells.
    pub fn from_text(text: &[u8]) -> Result<Hash, HashTextFault>
        ensures answer { reported result ≡ hash_of text.now }
        ensures texts { TextIsTheOnlyOne }
    {
        if text.len() != 64 || !every_hex(text) {
            return Err(HashTextFault::NotHashText);
        }
        let (pairs, _) = text.as_chunks::<2>();
        Ok(Hash::from_bytes(&array::from_fn(|i| hex_byte(pairs[i]))))
    }

    // The text of this hash.
    pub fn to_text(&self) -> [u8; 64]
        ensures value { result ≡ text_of self.now.words }
        ensures texts { TextIsReadBack }
    {
        let bytes = self.to_bytes();
        let mut text = [0; 64];
        // `map(hex_pair)` and `as_flattened` take four times as long.
        for (i, byte) in bytes.iter().enumerate() {
            text[2 * i..2 * i + 2].copy_from_slice(&hex_pair(*byte));
        }
        text
    }
}

// The character of a number below 16. The kit's `hex` writes the same: it would still have to be proved to write this text.
fn hex_digit(n: u8) -> u8
    requires { n < 16 }
    ensures { result ≡ hex_digit n }
{
    if n < 10 { b'0' + n } else { b'a' + (n - 10) }
}

// The two characters of a byte.
fn hex_pair(b: u8) -> [u8; 2]
    ensures { result ≡ hex_pair b }
{
    [hex_digit(b / 16), hex_digit(b % 16)]
}

// Whether a character is one of 0-9 and a-f.
fn is_hex(c: u8) -> bool
    ensures { result ≡ is_hex c }
{
    matches!(c, b'0'..=b'9' | b'a'..=b'f')
}

// Whether every character is one of these. `all` would end early, which keeps the compiler from taking many at once.
fn every_hex(text: &[u8]) -> bool
    ensures { result ≡ every_hex text.now }
{
    text.iter().fold(true, |every, c| every & is_hex(*c))
}

// The number of such a character. It tests nothing, since `every_hex` is asked first: a test of each takes four times as long.
fn hex_value(c: u8) -> u8
    ensures { result ≡ hex_value c }
{
    if c <= b'9' {
        c.saturating_sub(b'0')
    } else {
        c.saturating_sub(b'a') + 10
    }
}

// The byte that two characters of hexadecimal spell.
fn hex_byte(pair: [u8; 2]) -> u8
    ensures { result ≡ (hex_value (slice_index pair 0) * 16 + hex_value (slice_index pair 1)) % 256 }
{
    let [high, low] = pair;
    hex_value(high)
        .wrapping_mul(16)
        .wrapping_add(hex_value(low))
}
