//! The commands of `bwingest` that need no network: what each reads, prints and reports, and how it
//! ends; with the simulation of a rehearsal, in which loss and reordering are played event by event
//! between a real sender and a real server. The words of the command line are read above, in the
//! program.
//! Not stated: which reply a fuse delays; whether and why store calls fail in a rehearsal; what an
//! error leaves of one, which is dropped.
#![tactic(auto)]

mod event;
mod event_line;
mod events;
mod inspection;
mod rehearsal;
pub mod rehearsal_laws;
mod rehearsing;
pub mod replay;
mod replay_store;
mod simulation;
mod text;
mod world_text;

pub use event::Event;
pub use event_line::{event_in, following, index};
pub use inspection::{inspect_file, inspect_run};
pub use rehearsal::text_of_rehearsal;
pub use rehearsing::{World, rehearse};
pub use simulation::{append, message_in, offer_copy};
pub use text::put_file;
pub use world_text::{put_counts, put_progress_of};
