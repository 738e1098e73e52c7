ghost use Rattle.std.specs.Prelude.{◌≡◌};
ghost use Rattle.sha256.specs.Faults.{reported, hashed};
ghost use Rattle.sha256.specs.Laws.{Examples, FewestZeros, WholeBlocks, Hashes, ConstantsAreRoots};

use crate::fault::Sha256Fault;
use crate::padding::last_blocks;
use crate::state::State;
use hash::Hash;

const MAX_LEN: usize = 16_777_216;

// The hash of a message. The message is read where it lies; only its end is copied, to be padded.
pub fn sha256(message: &[u8]) -> Result<Hash, Sha256Fault>
    ensures { reported result ≡ hashed message.now }
{
    let n = message.len();
    if n > MAX_LEN {
        return Err(Sha256Fault::TooLong);
    }
    let (whole, rest) = message.as_chunks::<64>();
    let end = last_blocks(rest, n);
    let (last, _) = end.as_slice().as_chunks::<64>();
    let state = State::first().absorb(whole).absorb(last);
    Ok(state.into())
}

// What the definitions themselves give. It does nothing; its contract is what is proved.
pub fn definitions_stand()
    ensures examples { Examples }
    ensures fewest_zeros { FewestZeros }
    ensures whole_blocks { WholeBlocks }
    ensures hashes { Hashes }
    ensures constants { ConstantsAreRoots }
{}
