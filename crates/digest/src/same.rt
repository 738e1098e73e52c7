ghost use Rattle.std.specs.Prelude.{◌≡◌, ◌&&◌, nat_eq};
ghost use Rattle.std.specs.Bool.{Decides};
ghost use Rattle.std.specs.Cmp.Lexicographic.{pointwise};
ghost use Rattle.std.specs.Cmp.Rules.{comparing};
ghost use Rattle.std.proofs.Common.{rules};

use crate::digest::Digest;

// Digests are equal when their hashes and their sizes are. By hand: a derive's `==` has no clause `decides`.
impl PartialEq for Digest {
    ghost eq = { λ a b. nat_eq a.size b.size && pointwise nat_eq a.hash.words b.hash.words };

    ghost laws = { Prim.search (comparing, rules) };

    fn eq(&self, other: &Digest) -> bool
        ensures equals { result ≡ (nat_eq self.now.size other.now.size && pointwise nat_eq self.now.hash.words other.now.hash.words) }
        ensures decides { Decides result (self.now ≡ other.now) }
    {
        self.size == other.size && self.hash == other.hash
    }
}
