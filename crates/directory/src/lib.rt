// Directories: a reader that accepts the canonical ones alone.
#![tactic(auto)]

mod find;
mod part;
mod progress;
mod reader;
mod region;
mod section;

pub use find::{FoundNode, Kind, find_node};
pub use part::{Part, Sections, SoFar};
pub use reader::{read_directory, read_part};
pub use region::has_name;
