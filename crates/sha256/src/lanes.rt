// The schedules of four blocks at once: row t of a table holds word t of each, a lane for each block.
ghost use Rattle.std.specs.Prelude.{◌≡◌, ◌<◌, ◌≤◌, map};
ghost use Rattle.sha256.specs.Lanes.{word_row, next_row};
ghost use Rattle.sha256.specs.Sha256.{rotr, σ₀, σ₁};

use crate::schedule::block_word;
use std::simd::prelude::*;

// Each lane rotated to the right.
fn row_rotr(x: u32x4, n: u32) -> u32x4
    requires low { 1 ≤ n }
    requires high { n < 32 }
    ensures { result ≡ map (rotr n) x }
{
    (x >> u32x4::splat(n)) | (x << u32x4::splat(32 - n))
}

// The σ of rows. As const parameters their numbers would stand here all the same, and a trait over rows and words would be longer.
fn row_sigma0(x: u32x4) -> u32x4
    ensures { result ≡ map σ₀ x }
{
    row_rotr(x, 7) ^ row_rotr(x, 18) ^ (x >> u32x4::splat(3))
}

fn row_sigma1(x: u32x4) -> u32x4
    ensures { result ≡ map σ₁ x }
{
    row_rotr(x, 17) ^ row_rotr(x, 19) ^ (x >> u32x4::splat(10))
}

// The words t of four blocks.
pub fn word_row(blocks: &[[u8; 64]; 4], t: usize) -> u32x4
    requires { t < 16 }
    ensures { result ≡ word_row blocks.now t }
{
    u32x4::from_array(blocks.each_ref().map(|block| block_word(block, t)))
}

// The words t of their schedules, from the rows before.
pub fn next_row(w: &[u32x4; 64], t: usize) -> u32x4
    requires low { 16 ≤ t }
    requires high { t < 64 }
    ensures { result ≡ next_row w.now t }
{
    row_sigma1(w[t - 2]) + w[t - 7] + row_sigma0(w[t - 15]) + w[t - 16]
}
