//! What a server of many recorders asks of the system besides its folder's store: a reactor.
ghost use Rattle.std.specs.Prelude.{◌≡◌, ℕ, List, Result};
ghost use Rattle.std.specs.declared.io.Error.{Error as IoError};
ghost use Rattle.std.specs.declared.net.socket_addr.SocketAddr.{SocketAddr};
ghost use Rattle.bw_stream.specs.Moves.{failures_after};

use crate::reactor::Reactor;
use std::io;
use std::net::SocketAddr;

/// Opens the reactor of a server of many recorders, and counts failures.
pub trait ListenerSetup {
    /// Accepts peers at an address, many at once.
    type Reactor: Reactor + Drop;

    /// How many calls failed; the count stays at 2^64 - 1.
    ghost failures: { Self → ℕ };

    /// What a call of `reactor` for this address, folder and number of places may return, and the
    /// state after it.
    ghost opens: { Self → SocketAddr → List ℕ → ℕ → Result Self.Reactor IoError → Self → Type 0 };

    /// A reactor for those who connect to this address from now on, to a server over the folder, at
    /// this many places.
    ///
    /// # Errors
    /// Why nobody can connect.
    ///
    /// # Not specified
    /// - When it fails, and the kind of the error.
    /// - The state of `self` afterwards, except for its count of failures.
    fn reactor(
        &mut self,
        address: SocketAddr,
        folder: &str,
        places: usize,
    ) -> io::Result<Self::Reactor>
        ensures received { opens self.old address folder.now places result self.new }
        ensures count { failures self.new ≡ failures_after result (failures self.old) };
}
