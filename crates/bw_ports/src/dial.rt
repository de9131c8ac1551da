//! Where a recorder's exchanges go: a link for each.
ghost use Rattle.std.specs.Prelude.{◌≡◌, ℕ, List, Option, Result, IfOk, OnErr};
ghost use Rattle.bw_stream.specs.Moves.{failures_after};
ghost use Rattle.bw_ports.specs.NextLinks.{GivesNext};
ghost use Rattle.bw_ports.specs.declared.dial.DialFault.{DialFault};
ghost use Rattle.bw_ports.specs.declared.dial.Duplex.{Duplex};

use bw_stream::{Sink, Source};
use thiserror::Error;

/// No link could be made.
///
/// It has no number, and no clause describes its text.
#[derive(Debug, Drop, Error)]
#[error("the connection can't be made")]
pub struct DialFault;

/// A link to a server: two values over one stream.
#[derive(Drop)]
pub struct Duplex<R, W> {
    /// What the server says.
    pub reader: R,
    /// What is said to it. Bytes are sent as they are written: nothing flushes them.
    pub writer: W,
}

/// Something that makes links, one after another.
///
/// It may say beforehand what its links give, as one over recorded replies does. A socket says
/// nothing.
pub trait Dial {
    /// Reads what the server says.
    type Reader: Source + Drop;

    /// Takes what is said to the server.
    type Writer: Sink + Drop;

    /// What each of the next links gives, in their order, if that is known.
    ghost links: { Self → Option (List (List ℕ)) };

    /// How many calls failed; the count stays at 2^64 - 1.
    ghost failures: { Self → ℕ };

    /// What a call may return, and the state after it. Rounds are stated by this relation, so that
    /// each exchange goes over the link that was made for it.
    ghost dials: { Self → Result (Duplex Self.Reader Self.Writer) DialFault → Self → Type 0 };

    /// Makes the next link.
    ///
    /// # Errors
    /// `DialFault` if none could be made: that link is still the next one.
    ///
    /// # Not specified
    /// When no link can be made, and why.
    fn dial(&mut self) -> Result<Duplex<Self::Reader, Self::Writer>, DialFault>
        ensures received { dials self.old result self.new }
        ensures count { failures self.new ≡ failures_after result (failures self.old) }
        ensures ok { IfOk result (λ link.
            GivesNext (links self.old) (Self.Reader.left link.reader) (links self.new)) }
        ensures err { OnErr result (links self.new ≡ links self.old) };
}
