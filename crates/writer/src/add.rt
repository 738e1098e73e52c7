ghost use Rattle.std.specs.Prelude.{◌≡◌};
ghost use Rattle.nodes.specs.Kinds.{link_writes};
ghost use Rattle.nodes.specs.Nodes.{node_bytes, bytes_of};
ghost use Rattle.directory.specs.declared.part.Part.TheVariants.{Links as LinksPart};
ghost use Rattle.writer.specs.Faults.{answer};
ghost use Rattle.writer.specs.Growing.{Grows};
ghost use Rattle.writer.specs.Marks.{marked_in, checked};
ghost use Rattle.writer.specs.States.{adding};

use crate::fault::{LENGTH, WriterFault};
use crate::judge::SoFarIn;
use crate::mark::Mark;
use directory::{Part, SoFar, read_part};
use nodes::{LinkNode, NewNode, NodeKind};
use wire::{Span, WriteFault};

impl Mark {
    // Reads the bytes so far, in a buffer that must be as long as at the start.
    pub fn check(&self, buffer: &[u8], part: Part) -> Result<SoFar, WriterFault>
        ensures { answer result ≡ checked (marked_in part self.now) buffer.now }
    {
        if buffer.len() != self.long {
            return Err(LENGTH);
        }
        Ok(read_part(&buffer[..self.used], part)?)
    }

    // Writes a node of a part's own kind behind the bytes so far.
    pub fn add<K: NodeKind>(
        &mut self,
        buffer: &mut [u8],
        part: Part,
        node: &NewNode<K>,
    ) -> Result<(), WriterFault>
        requires { Grows part K.NodeKind.code K.NodeKind.reads }
        ensures answer { answer result ≡ (adding (marked_in part self.old) buffer.old (bytes_of K.NodeKind.code K.NodeKind.writes K.NodeKind.rest_in node.now)).answer }
        ensures state { marked_in part self.new ≡ (adding (marked_in part self.old) buffer.old (bytes_of K.NodeKind.code K.NodeKind.writes K.NodeKind.rest_in node.now)).state }
        ensures buffer { buffer.new ≡ (adding (marked_in part self.old) buffer.old (bytes_of K.NodeKind.code K.NodeKind.writes K.NodeKind.rest_in node.now)).buffer }
    {
        let so_far = self.check(buffer, part)?;
        let used = self.used;
        if !node.fits(buffer, used) {
            return Err(WriterFault::Write(WriteFault::NoRoom));
        }
        let place = SoFarIn {
            bytes: &buffer[..used],
            part,
            so_far,
        };
        place.judge_node(node)?;
        self.used = node.write(buffer, used)?;
        Ok(())
    }

    // Writes a link.
    pub fn add_link(
        &mut self,
        buffer: &mut [u8],
        name: &[u8],
        target: &[u8],
    ) -> Result<(), WriterFault>
        ensures answer { answer result ≡ (adding (marked_in LinksPart self.old) buffer.old (node_bytes 0x1A name.now (link_writes target.now))).answer }
        ensures state { marked_in LinksPart self.new ≡ (adding (marked_in LinksPart self.old) buffer.old (node_bytes 0x1A name.now (link_writes target.now))).state }
        ensures buffer { buffer.new ≡ (adding (marked_in LinksPart self.old) buffer.old (node_bytes 0x1A name.now (link_writes target.now))).buffer }
    {
        let rest = LinkNode {
            target: Span {
                start: 0,
                end: target.len(),
            },
        };
        let node = NewNode {
            name,
            rest: &rest,
            text: target,
        };
        self.add(buffer, Part::Links, &node)
    }
}
