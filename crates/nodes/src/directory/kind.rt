ghost use Rattle.digest.specs.Digests.{Value};
ghost use Rattle.nodes.specs.Kinds.{directory_reads, directory_writes, directory_value, SoundDigest};
ghost use Rattle.nodes.specs.Laws.{directory_accepts, directory_returns};

use super::DirectoryNode;
use crate::digest_field::{digest_field_length, digest_is_sound, write_digest_field};
use crate::digest_message::read_digest;
use crate::ending::read_end;
use crate::kind::NodeKind;
use wire::{ReadFault, Span, WriteFault, read_field};

impl NodeKind for DirectoryNode {
    ghost code = { 0x12 };

    ghost Rest = { Value };

    ghost rest_in = { directory_value };

    ghost reads = { directory_reads };

    ghost finds = { directory_reads };

    ghost writes = { directory_writes };

    ghost Sound = { SoundDigest };

    ghost Places = { λ p bs n. Unit {0} };

    ghost accepts = { directory_accepts };

    ghost returns = { directory_returns };

    ghost kept = { λ p bs x e. e };

    fn tag() -> u8 {
        0x12
    }

    fn read_rest(message: &[u8], start: usize) -> Result<DirectoryNode, ReadFault> {
        let Span { start: first, end } = read_field(message, start, 0x12)?;
        let digest = read_digest(&message[0..end], first)?;
        read_end(message, end)?;
        Ok(DirectoryNode { digest })
    }

    fn find_rest(message: &[u8], start: usize) -> Result<DirectoryNode, ReadFault> {
        DirectoryNode::read_rest(message, start)
    }

    fn judge_rest(&self, _text: &[u8], _start: u32) -> Result<(), ReadFault> {
        digest_is_sound(self.digest);
        Ok(())
    }

    fn write_rest(
        &self,
        _text: &[u8],
        buffer: &mut [u8],
        start: usize,
    ) -> Result<usize, WriteFault> {
        write_digest_field(buffer, start, 0x12, &self.digest, &[])
    }

    fn rest_length(&self, _text: &[u8]) -> usize {
        digest_field_length(&self.digest)
    }
}
