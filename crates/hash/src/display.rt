ghost use Rattle.std.specs.Prelude.{Some};
ghost use Rattle.hash.specs.Text.{text_of};

use crate::hash::Hash;
use std::{fmt, str};

// A hash prints as its text.
impl fmt::Display for Hash {
    ghost output = { λ h. Some (text_of h.words) };

    fn fmt<W: fmt::Write>(&self, f: &mut fmt::Formatter<W>) -> fmt::Result {
        let text = self.to_text();
        let text = str::from_utf8(&text).map_err(|_| fmt::Error)?;
        f.write_str(text)
    }
}
