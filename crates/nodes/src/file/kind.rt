ghost use Rattle.std.specs.Prelude.{◌≡◌, [], ◌∷◌, if◌then◌else◌};
ghost use Rattle.nodes.specs.Kinds.{file_reads, file_writes, file_value, SoundFile, FileValue};
ghost use Rattle.nodes.specs.Laws.{file_accepts, file_returns};

use super::FileNode;
use crate::digest_field::{digest_field_length, digest_is_sound, write_digest_field};
use crate::digest_message::read_digest;
use crate::ending::read_last_number;
use crate::kind::NodeKind;
use wire::{ReadFault, Span, WriteFault, read_field};

impl NodeKind for FileNode {
    ghost code = { 0x0A };

    ghost Rest = { FileValue };

    ghost rest_in = { file_value };

    ghost reads = { file_reads };

    ghost finds = { file_reads };

    ghost writes = { file_writes };

    ghost Sound = { SoundFile };

    ghost Places = { λ p bs n. Unit {0} };

    ghost accepts = { file_accepts };

    ghost returns = { file_returns };

    ghost kept = { λ p bs x e. e };

    fn tag() -> u8 {
        0x0A
    }

    fn read_rest(message: &[u8], start: usize) -> Result<FileNode, ReadFault> {
        let Span { start: first, end } = read_field(message, start, 0x12)?;
        // As a directory reads it: a function for both lines would have to answer the end too.
        let digest = read_digest(&message[0..end], first)?;
        let mark = read_last_number(message, end, 0x20, 1)?;
        Ok(FileNode {
            digest,
            executable: mark == 1,
        })
    }

    fn find_rest(message: &[u8], start: usize) -> Result<FileNode, ReadFault> {
        FileNode::read_rest(message, start)
    }

    fn judge_rest(&self, _text: &[u8], _start: u32) -> Result<(), ReadFault> {
        digest_is_sound(self.digest);
        Ok(())
    }

    fn write_rest(
        &self,
        _text: &[u8],
        buffer: &mut [u8],
        start: usize,
    ) -> Result<usize, WriteFault> {
        write_digest_field(buffer, start, 0x12, &self.digest, mark(self.executable))
    }

    fn rest_length(&self, _text: &[u8]) -> usize {
        digest_field_length(&self.digest) + mark(self.executable).len()
    }
}

// What marks an executable file.
fn mark(executable: bool) -> &'static [u8]
    ensures { result.now ≡ (if executable then 0x20 ∷ 0x01 ∷ [] else []) }
{
    if executable { &[0x20, 0x01] } else { &[] }
}
