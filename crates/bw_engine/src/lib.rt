//! Exchanges over any reader and writer, and whole runs over memory: the calls of a server and of a
//! sender under one name. Nothing stands here; each call is in the crate of its side.
#![tactic(auto)]

pub use bw_exchange::{ExchangeEnd, serve_exchange};
pub use bw_sender::{Listened, SendFault, Stop, Talk, hear_replies, send_batch, send_exchange};
pub use bw_session::{Run, RunFault, ingest_run, laws};
