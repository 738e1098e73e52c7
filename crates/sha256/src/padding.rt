ghost use Rattle.std.specs.Prelude.{◌≡◌, ◌%◌, ◌≤◌, ◌++◌, length};
ghost use Rattle.sha256.specs.Sha256.{padding};

use crate::constants::padding_mark;
use arrayvec::ArrayVec;

// The one or two blocks that end a padded message of `total` bytes, of which `rest` stand behind its whole blocks.
pub fn last_blocks(rest: &[u8], total: usize) -> ArrayVec<u8, 128>
    requires rest { length rest.now ≡ total % 64 }
    requires total { total ≤ 16777216 }
    ensures { result.items ≡ rest.now ++ padding total }
{
    let mark = padding_mark((119 - rest.len()) % 64);
    let bits = (8 * total as u64).to_be_bytes();
    let mut blocks = ArrayVec::new();
    blocks.try_extend_from_slice(rest).unwrap();
    blocks.try_extend_from_slice(mark).unwrap();
    blocks.try_extend_from_slice(&bits).unwrap();
    blocks
}
