// A digest: a hash and a size from 0 to 2^63 - 1.
#![tactic(auto)]

mod digest;
mod display;
mod fault;
mod make;
mod same;

pub use digest::Digest;
pub use fault::DigestFault;
