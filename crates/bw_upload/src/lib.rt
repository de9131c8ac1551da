//! Requests sent to a server: those of an input in rounds, until all are settled (the command `send`);
//! and a recording of any length over links that are kept, with a sliding window of sixteen requests
//! over each, and a new link after a pause where one breaks. Sockets are in a crate above, which
//! implements `Dial`.
//! Not stated: that what a link took arrives; that a watcher gets each round, and an observer each
//! report; when memory is refused.
#![tactic(auto)]

pub mod backoff;
mod dispatch;
mod feed;
mod links;
mod observer;
mod offering;
mod outcome;
mod requests;
mod rounds;
mod sending;
mod sides;
mod supply;
mod text;
mod turn;
mod visit;
mod watch;

pub use feed::{Feed, Given};
pub use links::{PatientSender, upload};
pub use observer::{LinkEnd, LinkEvent, NoObserver, Observer};
pub use outcome::{Outcome, Uploaded};
pub use sending::{RoundSender, send_run};
pub use sides::SendingSides;
pub use text::text_of_sender;
pub use watch::Progress;
