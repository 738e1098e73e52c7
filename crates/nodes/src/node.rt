ghost use Rattle.std.specs.Prelude.{◌≡◌, ◌-◌, ◌^◌, length, min};
ghost use Rattle.wire.specs.Writing.{told, ending, after, has_room};
ghost use Rattle.nodes.specs.Nodes.{message_of, bytes_of, node_bytes};

use crate::kind::NodeKind;
use wire::{WriteFault, end_of, field_length, number_length, write_field, write_number};

// A node that is to be written: its name, and what follows it, whose texts lie in `text`.
#[derive_where(Clone, Copy)]
pub struct NewNode<'a, K> {
    pub name: &'a [u8],
    pub rest: &'a K,
    pub text: &'a [u8],
}

impl<'a, K: NodeKind> NewNode<'a, K> {
    // How many bytes its message takes, or the most that can be told.
    fn message_length(&self) -> usize
        ensures { result ≡ min (length (message_of K.NodeKind.writes K.NodeKind.rest_in self.now)) (2 ^ 64 - 1) }
    {
        field_length(self.name).saturating_add(self.rest.rest_length(self.text))
    }

    // Whether it fits the buffer from a place on. A bool, since a writer that asks has other faults to tell first.
    pub fn fits(&self, buffer: &[u8], start: usize) -> bool
        ensures { result ≡ has_room buffer.now start (bytes_of K.NodeKind.code K.NodeKind.writes K.NodeKind.rest_in self.now) }
    {
        let long = self.message_length();
        let head = 1 + number_length(long as u64);
        end_of(buffer, start, long.saturating_add(head)).is_ok()
    }

    // Writes it from a place of the buffer on, and answers the place behind it.
    pub fn write(&self, buffer: &mut [u8], start: usize) -> Result<usize, WriteFault>
        ensures answer { told result ≡ ending buffer.old start (bytes_of K.NodeKind.code K.NodeKind.writes K.NodeKind.rest_in self.now) }
        ensures buffer { buffer.new ≡ after buffer.old start (bytes_of K.NodeKind.code K.NodeKind.writes K.NodeKind.rest_in self.now) }
    {
        if !self.fits(buffer, start) {
            return Err(WriteFault::NoRoom);
        }
        buffer[start] = K::tag();
        let name_at = write_number(buffer, start + 1, self.message_length() as u64)?;
        let rest_at = write_field(buffer, name_at, 0x0A, self.name)?;
        self.rest.write_rest(self.text, buffer, rest_at)
    }
}

// Whether a node, told by its parts, fits the buffer from a place on.
pub fn node_has_room<K: NodeKind>(
    name: &[u8],
    rest: &K,
    text: &[u8],
    buffer: &[u8],
    start: usize,
) -> bool
    ensures { result ≡ has_room buffer.now start (node_bytes K.NodeKind.code name.now (K.NodeKind.writes (K.NodeKind.rest_in text.now rest.now))) }
{
    NewNode { name, rest, text }.fits(buffer, start)
}

// Writes a node, told by its parts, from a place of the buffer on, and answers the place behind it.
pub fn write_node<K: NodeKind>(
    name: &[u8],
    rest: &K,
    text: &[u8],
    buffer: &mut [u8],
    start: usize,
) -> Result<usize, WriteFault>
    ensures answer { told result ≡ ending buffer.old start (node_bytes K.NodeKind.code name.now (K.NodeKind.writes (K.NodeKind.rest_in text.now rest.now))) }
    ensures buffer { buffer.new ≡ after buffer.old start (node_bytes K.NodeKind.code name.now (K.NodeKind.writes (K.NodeKind.rest_in text.now rest.now))) }
{
    NewNode { name, rest, text }.write(buffer, start)
}
