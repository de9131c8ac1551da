//! Stores of takes: contents by name, in memory or with fuses.
#![tactic(auto)]

mod call_counter;
mod fuse;
mod memory;
mod store;

pub use call_counter::CallCounter;
pub use fuse::{FuseStore, blow};
pub use memory::{MemoryStore, overwrite};
pub use store::{Created, StoreFault, TakeStore};
