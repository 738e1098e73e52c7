// The wire forms that every message is made of: numbers and fields.
#![tactic(auto)]

mod fault;
mod field;
mod number;
mod write;

pub use fault::{ReadCase, ReadFault, WriteFault};
pub use field::{Span, read_field};
pub use number::{numbers_have_one_form, read_number};
pub use write::{end_of, field_length, number_length, write_bytes, write_field, write_number};
