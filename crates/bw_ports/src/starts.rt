//! Why no server is started.
use std::io;
use thiserror::Error;

/// Why no server was started.
///
/// It has no number, and no clause describes its text.
#[derive(Debug, Drop, Error)]
pub enum StartRefusal {
    /// What is in the folder can't be served this way: a line for each file that is the reason,
    /// each ended by a line feed.
    #[error("the folder can't be served so")]
    Unfit(Vec<u8>),
    /// Another server runs over the folder.
    #[error("another server runs here")]
    Running,
    /// The folder can't be used.
    #[error("the folder can't be used")]
    Unusable(io::Error),
    /// A file of the folder can't be read or written.
    #[error("the folder can't be read or written")]
    Device,
    /// Memory was refused.
    #[error("out of memory")]
    Memory,
}
