// Prints the digest of the blob on standard input: the text of its hash, a space, its size in decimal.
#![tactic(auto)]

use anyhow::anyhow;
use digest::Digest;
use std::io::Read;
use std::process::ExitCode;

// One byte more than a blob may have, so that a longer input is seen to be too long.
const MOST: u64 = 16_777_217;

fn run(rt: &HostRuntime) -> anyhow::Result<()> {
    let mut blob = Vec::new(rt.alloc());
    rt.stdin().take(MOST).read_to_end(&mut blob)?;
    let digest = Digest::of(blob.as_slice()).map_err(|_| anyhow!(
        "refused 5: the input has more than 16777216 bytes"
    ))?;
    println!(rt; "{digest}")?;
    Ok(())
}

fn main(rt: HostRuntime) -> ExitCode {
    if let Err(reason) = run(&rt) {
        // Where standard error takes nothing, the status alone tells.
        let _ = eprintln!(rt; "blobdigest: {reason}");
        return ExitCode::FAILURE;
    }
    ExitCode::SUCCESS
}
