//! SHA-256 (FIPS 180-4) of eight messages at once, a lane of vectors for each.
#![tactic(auto)]

mod block;
mod constants;
mod message;
mod sha256;

pub use block::LANES;
pub use sha256::digests;
