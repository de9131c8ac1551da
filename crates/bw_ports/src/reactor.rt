//! Accepts many peers, and says which of their links are ready.
ghost use Rattle.std.specs.Prelude.{◌≡◌, ◌++◌, ◌+◌, ℕ, List, IfOk, OnOk, None, Err, []};
ghost use Rattle.bw_stream.specs.Moves.{failures_after, one_more};
ghost use Rattle.bw_ports.specs.Reactors.{closes_after, those};
ghost use Rattle.bw_ports.specs.declared.reactor.Ready.{Ready};
ghost use Rattle.bw_ports.specs.Reactors.{Admission, admitted_by};

use crate::link::Link;
use std::net::SocketAddr;
use thiserror::Error;

/// A link that is ready.
#[derive(Clone, Copy, Debug, PartialEq, Eq)]
pub struct Ready {
    /// The place under which it was accepted.
    pub place: usize,
    /// There may be bytes to read, or the peer has gone.
    pub readable: bool,
    /// There may be room to write, or the peer has gone.
    pub writable: bool,
}

/// A peer that was accepted.
#[derive(Drop)]
pub struct Accepted<L> {
    /// Its address.
    pub address: SocketAddr,
    /// What it says, and what is said to it.
    pub link: L,
}

/// Waiting is no longer possible.
///
/// It has no number, and no clause describes its text.
#[derive(Clone, Copy, Debug, PartialEq, Eq, Drop, Error)]
#[error("the server can't wait")]
pub struct WaitFault;

/// Why no peer was accepted.
///
/// It has no number, and no clause describes its text.
#[derive(Clone, Copy, Debug, PartialEq, Eq, Error)]
pub enum TryAcceptFault {
    /// Nobody waits.
    #[error("nobody waits")]
    Nobody,
    /// A peer went away, or couldn't be accepted, for lack of file descriptors say; others may
    /// come.
    #[error("a connection can't be accepted")]
    Gone,
    /// No more peers are accepted: the server's files can't be reached any longer.
    #[error("the server can't go on")]
    Closed,
}

/// Accepts many peers. No clause says who comes, nor when a link is ready.
pub trait Reactor {
    /// A link to a peer.
    type Link: Link + Drop;

    /// How often it failed: waiting was impossible, or no more peers were accepted. The count stays
    /// at 2^64 - 1.
    ghost failures: { Self → ℕ };

    /// How many waits there were; the count stays at 2^64 - 1.
    ghost waits: { Self → ℕ };

    /// The time that was reported last, in milliseconds.
    ghost time: { Self → ℕ };

    /// The longest time of the last wait, in milliseconds.
    ghost patience: { Self → ℕ };

    /// These may be all links that it has reported since the last wait.
    ghost reported: { Self → List Ready → Type 0 };

    /// It may have reported each link that was ready at the last wait.
    ghost all_reported: { Self → Type 0 };

    /// `accept` may have been called this often since the last wait.
    ghost tried: { Self → ℕ → Type 0 };

    /// There may be nobody who waits to be accepted.
    ghost nobody: { Self → Type 0 };

    /// These may be all links that it gave so far, in order, each after the place that it was given
    /// for.
    ghost admitted: { Self → List (Admission Self.Link) → Type 0 };

    /// Waits until a peer comes or a link is ready, at most `most` milliseconds.
    ///
    /// # Errors
    /// `WaitFault` if that isn't possible any longer.
    ///
    /// # Not specified
    /// When a wait ends or fails, whether someone came, and whether a link is ready.
    fn wait(&mut self, most: u64) -> Result<(), WaitFault>
        ensures count { failures self.new ≡ failures_after result (failures self.old) }
        ensures waits { OnOk result (waits self.new ≡ one_more (waits self.old)) }
        ensures patience { patience self.new ≡ most }
        ensures reported { OnOk result (reported self.new []) }
        ensures tried { OnOk result (tried self.new 0) }
        ensures admitted { (xs : List (Admission Self.Link)) → admitted self.old xs →
            admitted self.new xs };

    /// The next of the links that were ready at the last wait, if there is one.
    ///
    /// # Not specified
    /// Which link is ready.
    fn next_ready(&mut self) -> Option<Ready>
        ensures failures { failures self.new ≡ failures self.old }
        ensures waits { waits self.new ≡ waits self.old }
        ensures patience { patience self.new ≡ patience self.old }
        ensures reported { (rs : List Ready) → reported self.old rs → reported self.new (rs ++ those result) }
        ensures none { result ≡ None → all_reported self.new }
        ensures tried { (n : ℕ) → tried self.old n → tried self.new n }
        ensures admitted { (xs : List (Admission Self.Link)) → admitted self.old xs →
            admitted self.new xs };

    /// Accepts the next peer, under a place by which its link is named from now on.
    ///
    /// # Errors
    /// Why there is none.
    ///
    /// # Not specified
    /// - Who comes, and when: only that a new link gave and took nothing, and that the address is
    ///   one that the link reports.
    /// - When which error is returned.
    fn accept(&mut self, place: usize) -> Result<Accepted<Self::Link>, TryAcceptFault>
        ensures given { IfOk result (λ accepted. Self.Link.given accepted.link []) }
        ensures taken { IfOk result (λ accepted. Self.Link.taken accepted.link []) }
        ensures peer { IfOk result (λ accepted. Self.Link.calls_from accepted.link accepted.address) }
        ensures count { failures self.new ≡ closes_after result (failures self.old) }
        ensures waits { waits self.new ≡ waits self.old }
        ensures time { time self.new ≡ time self.old }
        ensures patience { patience self.new ≡ patience self.old }
        ensures reported { (rs : List Ready) → reported self.old rs → reported self.new rs }
        ensures all_reported { all_reported self.old → all_reported self.new }
        ensures tried { (n : ℕ) → tried self.old n → tried self.new (n + 1) }
        ensures nobody { result ≡ Err TryAcceptFault.Nobody → nobody self.new }
        ensures admitted { (xs : List (Admission Self.Link)) → admitted self.old xs →
            admitted self.new (xs ++ admitted_by place result) };

    /// The time, in milliseconds since some start. If it can't be read, the last one.
    ///
    /// # Not specified
    /// What time it is.
    fn now(&mut self) -> u64
        ensures time { result ≡ time self.new }
        ensures failures { failures self.new ≡ failures self.old }
        ensures waits { waits self.new ≡ waits self.old }
        ensures patience { patience self.new ≡ patience self.old }
        ensures reported { (rs : List Ready) → reported self.old rs → reported self.new rs }
        ensures all_reported { all_reported self.old → all_reported self.new }
        ensures tried { (n : ℕ) → tried self.old n → tried self.new n }
        ensures admitted { (xs : List (Admission Self.Link)) → admitted self.old xs →
            admitted self.new xs };
}
