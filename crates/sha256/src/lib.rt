// SHA-256 (FIPS 180-4) of a byte string of up to 16,777,216 bytes.
#![tactic(auto)]

mod blocks;
mod constants;
mod fault;
mod functions;
mod lanes;
mod message;
mod padding;
mod schedule;
mod state;

pub use fault::Sha256Fault;
pub use message::{definitions_stand, sha256};
