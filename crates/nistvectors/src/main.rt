// Runs NIST's byte-oriented test vectors of SHA-256: short and long messages, and the Monte Carlo test.
#![tactic(auto)]

use anyhow::{Context, ensure};
use hash::Hash;
use hex::FromHex;
use sha256::sha256;
use std::alloc::Global;
use std::{fmt, fs};

// How many vectors were run, and how many came out right.
#[derive(Default, Drop)]
struct Tally {
    right: u32,
    run: u32,
}

impl Tally {
    fn note(&mut self, right: bool) {
        self.run = self.run.saturating_add(1);
        self.right = self.right.saturating_add(u32::from(right));
    }
}

impl fmt::Display for Tally {
    fn fmt<W: fmt::Write>(&self, f: &mut fmt::Formatter<W>) -> fmt::Result {
        write!(f, "{} of {} right", self.right, self.run)
    }
}

fn main(rt: HostRuntime) -> anyhow::Result<()> {
    run(&rt)
}

fn run(rt: &HostRuntime) -> anyhow::Result<()> {
    for name in ["SHA256ShortMsg.rsp", "SHA256LongMsg.rsp"] {
        let text = fs::read_to_string(rt, name)?;
        let tally = messages(rt.alloc(), &text)?;
        println!(rt; "{name}: {tally}")?;
    }
    let name = "SHA256Monte.rsp";
    let text = fs::read_to_string(rt, name)?;
    let tally = monte_carlo(&text)?;
    println!(rt; "{name}: {tally}")?;
    Ok(())
}

// A file of messages: `Len = ` in bits, `Msg = ` in hexadecimal, `MD = ` the hash.
fn messages(heap: Global, text: &str) -> anyhow::Result<Tally> {
    let mut tally = Tally::default();
    let mut bits = 0;
    let mut message = Vec::new(heap);
    for line in text.lines() {
        if let Some(len) = line.strip_prefix("Len = ") {
            bits = len.parse::<usize>()?;
        } else if let Some(msg) = line.strip_prefix("Msg = ") {
            message = bytes_of(heap, msg, bits / 8)?;
        } else if let Some(md) = line.strip_prefix("MD = ") {
            let right = is_hash(&message, bits, md)?;
            tally.note(right);
        }
    }
    Ok(tally)
}

fn is_hash(message: &[u8], bits: usize, md: &str) -> anyhow::Result<bool> {
    let expected = hash_of(md)?;
    // A fault has a number and no text, so the text is given here and below.
    let hash = sha256(message)
        .ok()
        .context("a message of the file is too long")?;
    Ok(message.len() == bits / 8 && hash == expected)
}

// The Monte Carlo test: from a seed, each hash is that of the three before it, a thousand times for a result.
fn monte_carlo(text: &str) -> anyhow::Result<Tally> {
    let mut tally = Tally::default();
    let mut seed = Hash { words: [0; 8] };
    for line in text.lines() {
        if let Some(hash) = line.strip_prefix("Seed = ") {
            seed = hash_of(hash)?;
        } else if let Some(md) = line.strip_prefix("MD = ") {
            seed = thousand(seed)?;
            let expected = hash_of(md)?;
            tally.note(seed == expected);
        }
    }
    Ok(tally)
}

fn thousand(seed: Hash) -> anyhow::Result<Hash> {
    let mut before = [seed; 3];
    for _ in 0..1000 {
        let [_, second, third] = before;
        before = [second, third, of_three(&before)?];
    }
    Ok(before[2])
}

fn of_three(hashes: &[Hash; 3]) -> anyhow::Result<Hash> {
    let message = hashes.map(|hash| hash.to_bytes());
    sha256(message.as_flattened())
        .ok()
        .context("96 bytes are too long")
}

fn hash_of(text: &str) -> anyhow::Result<Hash> {
    Hash::from_text(text.as_bytes())
        .ok()
        .context("a hash of the file is no hash text")
}

// The first `count` bytes of a message in hexadecimal.
fn bytes_of(heap: Global, text: &str, count: usize) -> anyhow::Result<Vec<u8>> {
    let refusal = "a message of the file is not hexadecimal";
    let (pairs, odd) = text.as_bytes().as_chunks::<2>();
    // A push for each byte: with memory taken at once, in the message's own size, some files need more in all.
    let mut bytes = Vec::new(heap);
    for pair in pairs {
        let [byte] = <[u8; 1]>::from_hex(pair).ok().context(refusal)?;
        if bytes.len() < count {
            bytes.push(byte)?;
        }
    }
    ensure!(odd.iter().all(u8::is_ascii_hexdigit), refusal);
    Ok(bytes)
}
