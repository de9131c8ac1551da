//! Readers and writers of bytes, with a count of their failures.
#![tactic(auto)]

mod memory;
mod seek;
mod sink;
mod source;
mod std_io;

pub use memory::{MemorySink, MemorySource};
pub use seek::SeekSource;
pub use sink::{Sink, write_all};
pub use source::{IoFailed, Source};
pub use std_io::StdIo;
