// The three kinds of node of a Directory.
// As in `wire`, a message or a buffer and its `start` are no cursor.
#![tactic(auto)]

mod digest_field;
mod digest_message;
mod directory;
mod ending;
mod file;
mod kind;
mod link;
mod name;
mod node;

pub use directory::DirectoryNode;
pub use file::FileNode;
pub use kind::NodeKind;
pub use link::LinkNode;
pub use link::kind::part_of;
pub use name::read_name;
pub use node::{NewNode, node_has_room, write_node};
