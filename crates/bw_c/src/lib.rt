//! The recorder's half for programs in C: heads of frames, replies, and what counts as stored.
//!
//! It has no input or output and no heap: all that it keeps is a struct in the caller's memory. c/bwi.h says
//! what each call asks of its caller.
#![tactic(auto)]

mod counting;
mod first_reply;
mod head;
pub mod heads;
pub mod hearing;
pub mod sender;
