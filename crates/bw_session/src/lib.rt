//! Sessions: what a server keeps of each name; and a server's whole run over memory.
//! Not stated: contents over a store that isn't honest.
#![tactic(auto)]

mod admission;
mod body;
mod borrowing;
mod counting;
mod drains;
mod execution;
mod ingest;
mod keeping;
mod kept_take;
pub mod laws;
mod ledger;
mod lending;
mod listing;
mod numbering;
mod replying;
mod resuming;
mod server;
mod server_stores;
mod server_turns;
mod serving;
mod session;
mod settling;
mod table;
mod window;
mod writing;

pub use ingest::{Run, RunFault, ingest_run};
pub use kept_take::KeptTake;
pub use lending::StoresVisitor;
pub use server::Server;
pub use table::HasTable;
