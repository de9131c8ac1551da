//! A recording that is to be sent.
use bw_model::Name;

/// A recording that is to be sent.
#[derive(Debug, Drop)]
pub struct QueuedRecording {
    /// The name of its take.
    pub name: Name,
    /// The path of its file.
    pub path: String,
}
