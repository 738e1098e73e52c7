ghost use Rattle.std.specs.Prelude.{◌≡◌, take, drop, IfOk};
ghost use Rattle.directory.specs.Items.{Item, found_in, found_as, found_at, found_of, TargetPlace, NodesReadAreFound};
ghost use Rattle.directory.specs.Sections.{Node};

use nodes::{DirectoryNode, FileNode, LinkNode, NodeKind};
use wire::{ReadCase, ReadFault, Span, read_field};

// What a node is, and what follows its name.
#[derive(Clone, Copy)]
pub enum Kind {
    File(FileNode),
    Directory(DirectoryNode),
    Link(LinkNode),
}

// A node by its places: where its name is, what it is, and where it ends, which is where the next node begins.
#[derive(Clone, Copy)]
pub struct FoundNode<K = Kind> {
    pub name: Span,
    pub kind: K,
    pub end: usize,
}

impl<K> FoundNode<K> {
    // The same node, with another value for what it is.
    fn map<T, F: FnOnce(K) -> T>(self, f: F) -> FoundNode<T>
        requires { F.IsAlwaysCallable f }
        ensures name { result.name ≡ self.name }
        ensures kind { F.post f self.kind result.kind }
        ensures end { result.end ≡ self.end }
    {
        FoundNode {
            name: self.name,
            kind: f(self.kind),
            end: self.end,
        }
    }
}

// The node of the kind `K` at a place, by its fields alone.
fn find_as<K: NodeKind>(bytes: &[u8], place: usize) -> Result<FoundNode<K>, ReadFault>
    ensures value { (item : Node K.NodeKind.Rest → Item) → found_of K.NodeKind.rest_in item bytes.now result ≡ found_as K.NodeKind.code K.NodeKind.finds item place (drop place bytes.now) }
    ensures places { IfOk result (λ n. K.NodeKind.Places n.name.end (drop n.name.end (take n.end bytes.now)) n.kind) }
{
    let Span { start, end } = read_field(bytes, place, K::tag())?;
    let message = &bytes[..end];
    let name = read_field(message, start, 0x0A)?;
    let kind = K::find_rest(message, name.end)?;
    Ok(FoundNode { name, kind, end })
}

// The node at a place of a Directory that was read, by its fields alone: texts are not judged again, and nothing is copied.
#[tactic(auto, using(crate::proofs::Through::nodes_read_are_found))]
pub fn find_node(bytes: &[u8], place: usize) -> Result<FoundNode, ReadFault>
    ensures value { found_in bytes.now result ≡ found_at place (drop place bytes.now) }
    ensures places { IfOk result (TargetPlace bytes.now) }
    ensures listed { NodesReadAreFound }
{
    // Each tag stands beside its kind, as in the format.
    match bytes.get(place) {
        Some(0x0A) => find_as::<FileNode>(bytes, place).map(|node| node.map(Kind::File)),
        Some(0x12) => find_as::<DirectoryNode>(bytes, place).map(|node| node.map(Kind::Directory)),
        Some(0x1A) => find_as::<LinkNode>(bytes, place).map(|node| node.map(Kind::Link)),
        _ => Err(ReadFault {
            case: ReadCase::Tag,
            place,
        }),
    }
}
