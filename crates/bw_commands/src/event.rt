//! What may happen in a rehearsal.
use bw_model::Request;

/// What may happen in a rehearsal. Places count from 0 on; one that isn't there changes nothing.
#[derive(Debug, Drop)]
pub enum Event {
    /// A request is offered to the sender.
    Offer(Request),
    /// The sender's request at this place among those without a verdict is sent.
    Send(usize),
    /// The message at this place among those that were sent reaches the server.
    Deliver(usize),
    /// The reply at this place among those that were written reaches the sender.
    Bring(usize),
    /// The server is asked for the next number of the sender's name.
    Ask,
}
