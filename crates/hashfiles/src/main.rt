// Prints the hash and the name of each file that its arguments name, as sha256sum does. The benchmark times it.
#![tactic(auto)]

ghost use Rattle.std.specs.Prelude.{◌≤◌, length, IfOk};

use anyhow::Context;
use sha256::sha256;
use std::fs::File;
use std::io::Read;
use std::{env, io};

// One byte more than can be hashed, so that a longer file is seen to be too long.
const ROOM: usize = 16_777_217;

// Reads a file to the buffer's front, as much as there is room for, and answers how much that was.
// std's `read_to_end` takes 4 % more time in all, since it writes zeros before each read.
fn fill(file: &mut File, buffer: &mut [u8]) -> io::Result<usize>
    ensures { IfOk result (λ n. n ≤ length buffer.new) }
{
    let mut n = 0;
    loop {
        match file.read(&mut buffer[n..])? {
            0 => return Ok(n),
            more => n += more,
        }
    }
}

fn run(rt: &HostRuntime) -> anyhow::Result<()> {
    let mut buffer = vec![in rt.alloc(); 0u8; ROOM]?;
    for name in env::args(rt)?.skip(1) {
        let mut file = File::open(rt, &name)?;
        let n = fill(&mut file, &mut buffer)?;
        // A fault has a number and no text, so the text is given here.
        let hash = sha256(&buffer[..n])
            .ok()
            .context("a file has more than 16777216 bytes")?;
        println!(rt; "{hash}  {name}")?;
    }
    Ok(())
}

fn main(rt: HostRuntime) -> anyhow::Result<()> {
    run(&rt)
}
