//! What the program `bwingest` does: its command line, and what each command is given of the outside.
//! Not stated: which text help and usage print; what the watcher and the log of links do.
#![tactic(auto)]

mod behavior;
mod conversions;
mod folders;
mod inspections;
mod left_out;
mod outside;
mod program;
mod receipts;
mod recordings;
mod remote;
mod samples;
mod sender_of;
mod several;
mod sources;
mod tasks;
mod uploads;

pub use behavior::Behavior;
pub use outside::{Environment, Outside, ProgressObservers};
pub use program::start;
