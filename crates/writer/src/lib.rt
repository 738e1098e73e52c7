// The writer of Directories, in three parts: files, directories and links.
#![tactic(auto)]

mod add;
mod fault;
mod judge;
mod mark;
mod states;

pub use fault::WriterFault;
pub use states::{Directories, Files, Links};
