// Blobs behind one interface, and the source that verifies any other.
#![tactic(auto)]

mod fault;
mod source;
mod verifying;

pub use fault::SourceFault;
pub use source::Source;
pub use verifying::Verifying;
