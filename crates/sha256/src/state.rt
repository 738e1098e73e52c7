ghost use Rattle.std.specs.Prelude.{◌≡◌};
ghost use Rattle.sha256.specs.Sha256.{H₀, round as round_of, sum, words as words_of};

use crate::functions::*;
use hash::Hash;

// A hash value, or the working variables of the rounds, by the standard's names and so no array.
#[derive(Clone, Copy)]
pub struct State {
    pub a: u32,
    pub b: u32,
    pub c: u32,
    pub d: u32,
    pub e: u32,
    pub f: u32,
    pub g: u32,
    pub h: u32,
}

impl State {
    // The first hash value.
    pub fn first() -> State
        ensures { result ≡ H₀ }
    {
        State {
            a: 0x6a09e667,
            b: 0xbb67ae85,
            c: 0x3c6ef372,
            d: 0xa54ff53a,
            e: 0x510e527f,
            f: 0x9b05688c,
            g: 0x1f83d9ab,
            h: 0x5be0cd19,
        }
    }

    // The working variables after one round more, with its constant and its word of the schedule.
    pub fn round(self, k: u32, w: u32) -> State
        ensures { result ≡ round_of self k w }
    {
        let t1 = self
            .h
            .wrapping_add(big_sigma1(self.e))
            .wrapping_add(choose(self.e, self.f, self.g))
            .wrapping_add(k)
            .wrapping_add(w);
        let t2 = big_sigma0(self.a).wrapping_add(majority(self.a, self.b, self.c));
        State {
            a: t1.wrapping_add(t2),
            b: self.a,
            c: self.b,
            d: self.c,
            e: self.d.wrapping_add(t1),
            f: self.e,
            g: self.f,
            h: self.g,
        }
    }

    // The sums, word by word.
    pub fn plus(self, other: State) -> State
        ensures { result ≡ sum self other }
    {
        State {
            a: self.a.wrapping_add(other.a),
            b: self.b.wrapping_add(other.b),
            c: self.c.wrapping_add(other.c),
            d: self.d.wrapping_add(other.d),
            e: self.e.wrapping_add(other.e),
            f: self.f.wrapping_add(other.f),
            g: self.g.wrapping_add(other.g),
            h: self.h.wrapping_add(other.h),
        }
    }
}

impl From<State> for Hash {
    ghost from_gives = { λ s h. h.words ≡ words_of s };

    fn from(state: State) -> Hash {
        let State {
            a,
            b,
            c,
            d,
            e,
            f,
            g,
            h,
        } = state;
        Hash {
            words: [a, b, c, d, e, f, g, h],
        }
    }
}
