// Text in UTF-8, the rules of names and targets, and the order of names.
#![tactic(auto)]

mod names;
mod order;
mod utf8;

pub use names::{is_name, is_target};
pub use order::precedes;
pub use utf8::{is_text, texts_are_utf8};
