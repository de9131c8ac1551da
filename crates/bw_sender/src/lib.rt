//! A recorder's sender: what is sent again, what counts as stored, and its exchanges with a server.
//! Not stated: that written bytes are passed on.
#![tactic(auto)]

mod counting;
mod heard;
mod hearing;
mod offer;
mod refusals;
mod send_fault;
mod sender;
mod sending;
mod stop;
mod talk;
mod window;

pub use heard::Heard;
pub use hearing::hear_replies;
pub use offer::OfferError;
pub use send_fault::SendFault;
pub use sender::Sender;
pub use sending::{send_batch, send_exchange};
pub use stop::Stop;
pub use talk::{Listened, Talk};
