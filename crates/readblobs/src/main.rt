// Reads the Directories in the files that its arguments name, and prints where their directories and links begin, or the number and the place of the refusal.
// Those in data/ were encoded by protoc 3.21.12, as by `protoc --encode=Directory directory.proto < kinds.txt > kinds.bin`, and what is expected of them was worked out by hand.
#![tactic(auto)]

use directory::{Sections, read_directory};
use std::{env, fs};

fn run(rt: &HostRuntime) -> anyhow::Result<()> {
    for name in env::args(rt)?.skip(1) {
        let bytes = fs::read(rt, name.as_str())?;
        match read_directory(bytes.as_slice()) {
            Ok(Sections { directories, links }) => {
                println!(rt; "{name} accepted {directories} {links}")?;
            }
            Err(fault) => {
                let number = fault.case.number();
                let place = fault.place;
                println!(rt; "{name} refused {number} {place}")?;
            }
        }
    }
    Ok(())
}

fn main(rt: HostRuntime) -> anyhow::Result<()> {
    run(&rt)
}
