//! Where a server's exchanges come from: a link for each.
ghost use Rattle.std.specs.Prelude.{◌≡◌, ℕ, Result};
ghost use Rattle.bw_stream.specs.Moves.{failures_after};
ghost use Rattle.bw_ports.specs.declared.peers.Peer.{Peer};
ghost use Rattle.bw_ports.specs.declared.peers.AcceptFault.{AcceptFault};

use crate::dial::Duplex;
use bw_stream::{Sink, Source};
use std::net::SocketAddr;
use thiserror::Error;

/// No link was made.
///
/// It has no number, and no clause describes its text.
#[derive(Clone, Copy, Debug, PartialEq, Eq, Error)]
pub enum AcceptFault {
    /// A peer went away before it was accepted; others may come.
    #[error("a connection can't be accepted")]
    Gone,
    /// No more peers are accepted: the server's files can't be reached any longer.
    #[error("the server can't go on")]
    Closed,
}

/// A peer that was accepted.
#[derive(Drop)]
pub struct Peer<R, W> {
    /// Its address.
    pub address: SocketAddr,
    /// What it says, and what is said to it.
    pub link: Duplex<R, W>,
}

/// Accepts peers, and counts its failures.
pub trait Peers {
    /// Reads what a peer says.
    type Reader: Source + Drop;

    /// Takes what is said to a peer.
    type Writer: Sink + Drop;

    /// How many calls failed; the count stays at 2^64 - 1.
    ghost failures: { Self → ℕ };

    /// What a call may return, and the state after it. A run of exchanges is stated by this
    /// relation, so that each goes over the link of the peer that was accepted for it.
    ghost accepts: { Self → Result (Peer Self.Reader Self.Writer) AcceptFault → Self → Type 0 };

    /// Waits for the next peer, and makes a link to it.
    ///
    /// # Errors
    /// Why there is none.
    ///
    /// # Not specified
    /// - When `Gone` and when `Closed` is returned.
    /// - The state of the peers afterwards, except for their count of failures.
    fn accept(&mut self) -> Result<Peer<Self::Reader, Self::Writer>, AcceptFault>
        ensures received { accepts self.old result self.new }
        ensures count { failures self.new ≡ failures_after result (failures self.old) };
}
