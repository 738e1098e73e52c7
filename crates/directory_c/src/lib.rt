// The Directory reader for a caller in C or C++. The benchmark calls it.
#![tactic(auto)]

ghost use Rattle.std.specs.Prelude.{◌≡◌, MatchResult};
ghost use Rattle.directory.specs.Directories.{directory_of};

use directory::read_directory;

// The number that bytes are refused with, and 0 where they are a canonical Directory.
// A number and no Result: C has none.
#[unsafe(no_mangle)]
pub extern "C" fn directory_refusal(bytes: &[u8]) -> u8
    ensures { MatchResult (directory_of bytes.now) (λ _. result ≡ 0) (λ e. result ≡ e.number) }
{
    match read_directory(bytes) {
        Ok(_) => 0,
        Err(fault) => fault.case.number(),
    }
}
