//! The machine of an exchange: from the bytes of a recorder, through whoever answers its frames, to
//! the bytes of its replies. What a server keeps of each name is in a crate above, which
//! implements the trait `Turns`.
//! Not stated: that written bytes are passed on; in how many reads a last piece came.
#![tactic(auto)]

mod end_text;
mod exchange;
pub mod laws;
mod link_stats;
mod outgoing;
mod serving;
mod step;
mod turns;

pub use end_text::end_name;
pub use exchange::{Exchange, FeedError};
pub use link_stats::{KnownName, LinkStats, Metered};
pub use serving::{ExchangeEnd, MESSAGE_PIECE, MOST_READS, serve_exchange};
pub use step::StreamEnd;
pub use turns::{NotKept, Turns};
