ghost use Rattle.std.specs.Prelude.{Some};
ghost use Rattle.digest.specs.Digests.{value_of, printed};

use crate::digest::Digest;
use std::fmt;

// A digest prints as the text of its hash, a space and its size.
impl fmt::Display for Digest {
    ghost output = { λ d. Some (printed (value_of d)) };

    fn fmt<W: fmt::Write>(&self, f: &mut fmt::Formatter<W>) -> fmt::Result {
        write!(f, "{} {}", self.hash, self.size)
    }
}
