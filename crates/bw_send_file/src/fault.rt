//! Why a file gives no more requests.
use bw_inspect::InspectFault;
use bw_plan::RecordingFault;
use std::io;

/// Why a file gives no more of its requests.
#[derive(Drop)]
pub enum FeedFault {
    /// A read of it failed.
    Unread(InspectFault),
    /// The system can't report its length and its time of change.
    Unstamped(io::Error),
    /// It has changed: it ends too early, or its length or its time of change is another one.
    Changed,
    /// It isn't a recording: this fault came only when its requests were given.
    Refused(RecordingFault),
    /// The next request doesn't fit in a message.
    Unsendable,
    /// Memory was refused.
    Memory,
}
