//! Observers of an upload.
use bw_sender::{SendFault, Sender, Stop};

/// Why a link isn't used any more.
#[derive(Clone, Copy, Debug, PartialEq, Eq)]
pub enum LinkEnd {
    /// The server has ended it.
    Ended,
    /// It broke off.
    Broken(SendFault),
    /// A reply came after which it isn't used.
    Stopped(Stop),
    /// A request was refused.
    Refused,
    /// All is settled and stored.
    Done,
}

/// A change of the link.
#[derive(Clone, Copy, Debug, PartialEq, Eq)]
pub enum LinkEvent {
    /// So many milliseconds pass before the next link is made.
    Waits(u32),
    /// No link could be made.
    Missed,
    /// A link was made.
    Made,
    /// It isn't used any more.
    Left(LinkEnd),
}

/// Observes an upload. No clause says what it does with the reports; it changes nothing of what is
/// sent. It keeps failures of its own work, which can be asked for afterwards.
pub trait Observer {
    /// The link changed; `sender` is as it is then.
    ///
    /// # Not specified
    /// What it does.
    fn link(&mut self, event: LinkEvent, sender: &Sender);

    /// A turn over the link is over; `sender` is as it is then. It may have no more settled numbers
    /// than before.
    ///
    /// # Not specified
    /// What it does.
    fn settled(&mut self, sender: &Sender);
}

/// An observer that does nothing.
#[derive(Drop)]
pub struct NoObserver;

impl Observer for NoObserver {
    fn link(&mut self, _event: LinkEvent, _sender: &Sender) {}

    fn settled(&mut self, _sender: &Sender) {}
}
