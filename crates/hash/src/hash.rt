ghost use Rattle.std.specs.Prelude.{nat_eq, ◌≡◌};
ghost use Rattle.std.specs.Bool.{Decides};
ghost use Rattle.std.specs.Cmp.Lexicographic.{pointwise};
ghost use Rattle.hash.specs.Bytes.{bytes_of, words_of};
ghost use Rattle.std.specs.Cmp.Rules.{comparing};
ghost use Rattle.std.proofs.Common.{rules};

use std::array;

// The 32 bytes of a hash as eight words, the most significant byte of each first.
#[derive(Clone, Copy, Debug, Eq)]
pub struct Hash {
    pub words: [u32; 8],
}

// `from_bytes` and `from_text` are no `From` and no `TryFrom`: both take bytes, and these would not tell the two apart.
impl Hash {
    // The hash of 32 bytes.
    pub fn from_bytes(bytes: &[u8; 32]) -> Hash
        ensures { result.words ≡ words_of bytes.now }
    {
        let (words, _) = bytes.as_chunks::<4>();
        Hash {
            words: array::from_fn(|i| u32::from_be_bytes(words[i])),
        }
    }

    // The 32 bytes of this hash.
    pub fn to_bytes(&self) -> [u8; 32]
        ensures { result ≡ bytes_of self.now.words }
    {
        let mut bytes = [0; 32];
        bytes.copy_from_slice(self.words.map(u32::to_be_bytes).as_flattened());
        bytes
    }
}

// By hand: a derive's `==` has no clause `decides`.
impl PartialEq for Hash {
    ghost eq = { λ a b. pointwise nat_eq a.words b.words };

    ghost laws = { Prim.search (comparing, rules) };

    fn eq(&self, other: &Hash) -> bool
        ensures equals { result ≡ pointwise nat_eq self.now.words other.now.words }
        ensures decides { Decides result (self.now ≡ other.now) }
    {
        self.words == other.words
    }
}
