//! A server whose table is a cache of its folder: it knows more names than its table has places for.
//! Not stated: which name leaves a full table; when memory is refused; that the system's disk is
//! honest.
#![tactic(auto)]

mod delay;
mod finding;
mod keeping;
pub mod laws;
mod left_out;
mod on_disks;
mod recovering;
mod recovery;
pub mod recovery_laws;
mod restoring;
mod room;
mod uses;
mod visiting;

pub use delay::Delay;
pub use keeping::KeptServer;
pub use recovery::{RecoverFault, Recovered, recover};
