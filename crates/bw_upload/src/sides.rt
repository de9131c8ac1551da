//! The types of what a sender works over.
use bw_ports::{Dial, Pause};
use bw_stream::Sink;

/// The types of what a sender sends over, and where it reports.
pub trait SendingSides {
    /// Waits between links.
    type Pause: Pause;

    /// Makes links.
    type Dial: Dial;

    /// Takes what is printed.
    type Output: Sink;

    /// Takes lines on faults.
    type Diagnostics: Sink;
}
