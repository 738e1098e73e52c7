// The message schedule of a block.
ghost use Rattle.std.specs.Prelude.{◌≡◌, ◌<◌, ◌≤◌};
ghost use Rattle.hash.specs.Bytes.{word};
ghost use Rattle.sha256.specs.Sha256.{next, schedule};

use crate::functions::{small_sigma0, small_sigma1};

// The 64 words of a block's schedule, by the standard's index t: the first are the block's, and each other is made from words before it.
pub fn schedule(block: &[u8; 64]) -> [u32; 64]
    ensures { result ≡ schedule block.now 64 }
{
    let mut w = [0u32; 64];
    for t in 0..16 {
        w[t] = block_word(block, t);
    }
    for t in 16..64 {
        w[t] = next_word(&w, t);
    }
    w
}

// The i-th word of a block, most significant byte first.
pub fn block_word(block: &[u8; 64], i: usize) -> u32
    requires { i < 16 }
    ensures { result ≡ word block.now i }
{
    let (words, _) = block.as_chunks::<4>();
    u32::from_be_bytes(words[i])
}

// The word t of the schedule, from the words before it.
fn next_word(w: &[u32; 64], t: usize) -> u32
    requires low { 16 ≤ t }
    requires high { t < 64 }
    ensures { result ≡ next w.now t }
{
    small_sigma1(w[t - 2])
        .wrapping_add(w[t - 7])
        .wrapping_add(small_sigma0(w[t - 15]))
        .wrapping_add(w[t - 16])
}
