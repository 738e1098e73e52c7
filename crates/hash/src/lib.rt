// A hash: 32 bytes, held as eight words, and its text of 64 characters.
#![tactic(auto)]

mod display;
mod fault;
mod hash;
mod text;

pub use fault::HashTextFault;
pub use hash::Hash;
