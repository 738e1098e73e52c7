ghost use Rattle.std.specs.Prelude.{slice_index_or, ◌≡◌};
ghost use Rattle.texts.specs.Utf8.{TextsAreUtf8, char_width, is_text, range};

// Whether the byte at an index is one that may stand behind the second byte of a character.
fn is_tail(text: &[u8], i: usize) -> bool
    ensures { result ≡ range 0x80 0xBF (slice_index_or text.now i 0xFF) }
{
    matches!(text.get(i), Some(0x80..=0xBF))
}

// How many bytes the character at the front takes, if there is one.
// A match, and no `from_utf8` of std in `is_text`: the nine rows are a rule of the project, and each is turned by an edit.
fn char_width(text: &[u8]) -> Option<usize>
    ensures { result ≡ char_width text.now }
{
    match (text.first()?, text.get(1)) {
        (0x00..=0x7F, _) => Some(1),
        (0xC2..=0xDF, Some(0x80..=0xBF)) => Some(2),
        (0xE0, Some(0xA0..=0xBF)) if is_tail(text, 2) => Some(3),
        (0xE1..=0xEC, Some(0x80..=0xBF)) if is_tail(text, 2) => Some(3),
        (0xED, Some(0x80..=0x9F)) if is_tail(text, 2) => Some(3),
        (0xEE..=0xEF, Some(0x80..=0xBF)) if is_tail(text, 2) => Some(3),
        (0xF0, Some(0x90..=0xBF)) if is_tail(text, 2) && is_tail(text, 3) => Some(4),
        (0xF1..=0xF3, Some(0x80..=0xBF)) if is_tail(text, 2) && is_tail(text, 3) => Some(4),
        (0xF4, Some(0x80..=0x8F)) if is_tail(text, 2) && is_tail(text, 3) => Some(4),
        _ => None,
    }
}

// Whether bytes are text in UTF-8.
pub fn is_text(text: &[u8]) -> bool
    ensures { result ≡ is_text text.now }
{
    if text.is_ascii() {
        return true;
    }
    let mut rest = text;
    while let Some(width) = char_width(rest) {
        rest = &rest[width..];
    }
    rest.is_empty()
}

// The bytes that are text are those of UTF-8. It does nothing; its contract is what is proved.
pub fn texts_are_utf8()
    ensures { TextsAreUtf8 }
{}
