//! Many exchanges at once over one server, a quantum of each in turn. Links never wait; sockets are
//! in a crate above, which implements `Link`.
//! Not stated: links whose bytes aren't known, such as sockets; that the peer learns of an end.
#![tactic(auto)]

mod connection;
mod connections;
mod hashing;
pub mod laws;

pub use connection::ConnectionEnd;
pub use connections::{BeginError, Closed, Connections};
