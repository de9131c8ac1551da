//! How an upload ends.
use bw_model::Verdict;
use bw_sender::{OfferError, Sender};

/// How an upload ended.
#[derive(Drop)]
pub enum Outcome<X> {
    /// The feed has ended, and each of its requests was offered, and is stored.
    Done,
    /// This number has this verdict, which isn't Stored, and all below it are stored.
    Refused(u32, Verdict),
    /// Another body was admitted under this number.
    Conflict(u32),
    /// The server has lost the take: this number is 16 or more past the least one that has no
    /// verdict there.
    TooFar(u32),
    /// The feed gave a request that can't follow those before it: one before OPEN or after CLOSE, or
    /// more than 16,777,216.
    NotOffered(OfferError),
    /// As many links in a row as the caller allows settled nothing.
    Fruitless,
    /// The feed failed.
    Feed(X),
    /// Memory was refused.
    Memory,
    /// 2^64 - 1 links, or 2^64 - 1 questions to the feed, were not enough.
    Limit,
}

/// An upload that has ended.
#[derive(Drop)]
pub struct Uploaded<X> {
    /// The sender: what is settled and stored, and the refused numbers.
    pub sender: Sender,
    /// How it ended.
    pub outcome: Outcome<X>,
}
