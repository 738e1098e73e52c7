ghost use Rattle.std.specs.Prelude.{◌≡◌, ◌≤◌, ◌++◌, length};
ghost use Rattle.wire.specs.Refusals.{reported};
ghost use Rattle.nodes.specs.Kinds.{part as text_at};
ghost use Rattle.nodes.specs.Nodes.{message_of, bytes_of};
ghost use Rattle.nodes.specs.Values.{verdict};
ghost use Rattle.directory.specs.Sections.{node_at};
ghost use Rattle.writer.specs.Growing.{inside};
ghost use Rattle.writer.specs.Judging.{met_before, name_said};

use directory::{Part, SoFar, has_name};
use nodes::{NewNode, NodeKind, part_of};
use texts::{is_name, is_text, precedes};
use wire::{ReadCase, ReadFault, field_length, number_length};

// The bytes so far, which a node is to stand behind, and what was read of them.
#[derive(Clone, Copy)]
pub struct SoFarIn<'a> {
    pub bytes: &'a [u8],
    pub part: Part,
    pub so_far: SoFar,
}

impl SoFarIn<'_> {
    // Whether an earlier section has a name.
    fn is_taken(&self, name: &[u8]) -> bool
        ensures { result ≡ met_before self.now.bytes.now self.now.part self.now.so_far.sections name.now }
    {
        let files = self.so_far.sections.files_span();
        let directories = self.so_far.sections.directories_span();
        // Each part has sections of its own before it.
        match self.part {
            Part::Files => false,
            Part::Directories => has_name(self.bytes, files, name),
            Part::Links => {
                has_name(self.bytes, files, name) || has_name(self.bytes, directories, name)
            }
        }
    }

    // What a reader would say of a name behind them, if it stood at a place.
    fn judge_name(&self, name: &[u8], place: usize) -> Result<(), ReadFault>
        ensures { reported result ≡ name_said (met_before self.now.bytes.now self.now.part self.now.so_far.sections) (text_at self.now.bytes.now self.now.so_far.last) place name.now }
    {
        let case = if !is_text(name) {
            ReadCase::Utf8
        } else if !is_name(name) {
            ReadCase::Name
        } else if !precedes(part_of(self.bytes, self.so_far.last), name) {
            ReadCase::Order
        } else if self.is_taken(name) {
            ReadCase::Repeated
        } else {
            return Ok(());
        };
        Err(ReadFault { case, place })
    }

    // What a reader would say of a node behind them.
    pub fn judge_node<K: NodeKind>(&self, node: &NewNode<K>) -> Result<(), ReadFault>
        requires { length (self.now.bytes.now ++ bytes_of K.NodeKind.code K.NodeKind.writes K.NodeKind.rest_in node.now) ≤ 16777216 }
        ensures { reported result ≡ verdict (node_at K.NodeKind.code K.NodeKind.reads (met_before self.now.bytes.now self.now.part self.now.so_far.sections) (text_at self.now.bytes.now self.now.so_far.last) (inside (length self.now.bytes.now) (message_of K.NodeKind.writes K.NodeKind.rest_in node.now)) (message_of K.NodeKind.writes K.NodeKind.rest_in node.now)) }
    {
        let NewNode { name, rest, text } = node;
        let body = field_length(name) + rest.rest_length(text);
        let start = self.bytes.len() + 1 + number_length(body as u64);
        let place = start + 1 + number_length(name.len() as u64);
        self.judge_name(name, place)?;
        rest.judge_rest(text, (place + name.len()) as u32)
    }
}
