//! The growing file of a take.
#![tactic(auto)]

mod buffer;
mod change;
mod condition;
mod growing;
mod laws;
mod writes;

pub use bw_store::{Created, FuseStore, MemoryStore, StoreFault, TakeStore};
pub use growing::GrowingFile;
pub use laws::examples_of_calls;
