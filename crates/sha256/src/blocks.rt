ghost use Rattle.std.specs.Prelude.{◌≡◌, ℕ, ◌<◌, fold, map};
ghost use Rattle.sha256.specs.Lanes.{Reads};
ghost use Rattle.sha256.specs.Sha256.{rounds, sum, compressed};

use crate::constants::ROUND_CONSTANTS;
use crate::lanes::{next_row, word_row};
use crate::schedule::schedule;
use crate::state::State;
use std::simd::prelude::*;

impl State {
    // The hash value after blocks more.
    pub fn absorb(self, blocks: &[[u8; 64]]) -> State
        ensures { result ≡ fold compressed self blocks.now }
    {
        let (fours, others) = blocks.as_chunks::<4>();
        let mut s = self;
        for four in fours {
            s = s.absorb_four(four);
        }
        for block in others {
            s = s.compress(block);
        }
        s
    }

    // The hash value after one block more.
    fn compress(self, block: &[u8; 64]) -> State
        ensures { result ≡ compressed self block.now }
    {
        self.mix(&schedule(block), |w| *w)
    }

    // The hash value after four blocks more. The rounds of the first go with the schedules of all.
    // Four in a turn: one in a turn takes 4 % longer, and whole schedules first 29 %. Two loops: one that tests t takes 2 % longer.
    fn absorb_four(self, blocks: &[[u8; 64]; 4]) -> State
        ensures { result ≡ fold compressed self blocks.now }
    {
        let mut w = [u32x4::splat(0); 64];
        let mut s = self;
        for i in 0..4 {
            for j in 0..4 {
                let t = 4 * i + j;
                let row = word_row(blocks, t);
                w[t] = row;
                s = s.round(ROUND_CONSTANTS[t], row.to_array()[0]);
            }
        }
        for i in 4..16 {
            for j in 0..4 {
                let t = 4 * i + j;
                let row = next_row(&w, t);
                w[t] = row;
                s = s.round(ROUND_CONSTANTS[t], row.to_array()[0]);
            }
        }
        s = self.plus(s);
        // A lane is chosen by its number: copied into an array of its own first, it takes 8 % longer.
        for lane in 1..4 {
            s = s.mix(&w, |row| row.as_array()[lane]);
        }
        s
    }

    // The hash value after one block more, by rows of which each holds a word of its schedule.
    // Eight rounds in a turn: one in a turn takes 29 % longer.
    fn mix<T, F: Fn(&T) -> u32>(self, rows: &[T; 64], word: F) -> State
        requires { F.IsAlwaysCallable word }
        ensures { (h : T → ℕ) → Reads F.Fn word h → result ≡ sum self (rounds self (map h rows.now) 64) }
    {
        let (constants, _) = ROUND_CONSTANTS.as_chunks::<8>();
        let (rows, _) = rows.as_chunks::<8>();
        let mut s = self;
        for (constants, rows) in constants.iter().zip(rows) {
            for (k, row) in constants.iter().zip(rows) {
                s = s.round(*k, word(row));
            }
        }
        self.plus(s)
    }
}
