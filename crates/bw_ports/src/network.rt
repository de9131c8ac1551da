//! What `serve` and `send` ask of the system: a folder's store, peers, and links to a server.
ghost use Rattle.std.specs.Prelude.{◌≡◌, ℕ, List, Result, Option};
ghost use Rattle.std.specs.declared.io.Error.{Error as IoError};
ghost use Rattle.std.specs.declared.net.socket_addr.SocketAddr.{SocketAddr};
ghost use Rattle.bw_stream.specs.Moves.{failures_after};
ghost use Rattle.bw_ports.specs.declared.starts.StartRefusal.{StartRefusal};

use crate::dial::Dial;
use crate::peers::Peers;
use crate::starts::StartRefusal;
use bw_store::TakeStore;
use std::io;
use std::net::SocketAddr;

/// Where a server listens and a recorder connects; counts failures.
pub trait Network {
    /// Keeps the files of a folder.
    type Store: TakeStore;

    /// Accepts peers at an address.
    type Peers: Peers + Drop;

    /// Makes links to a server.
    type Dial: Dial + Drop;

    /// How many calls failed; the count stays at 2^64 - 1.
    ghost failures: { Self → ℕ };

    /// What a call of `store` for this folder may return, and the state after it.
    ghost stores: { Self → List ℕ → Result Self.Store StartRefusal → Self → Type 0 };

    /// What a call of `listen` for this address, folder and timeout may return, and the state after
    /// it.
    ghost listens: { Self → SocketAddr → List ℕ → Option ℕ → Result Self.Peers IoError → Self
        → Type 0 };

    /// What a call of `dial` for this address and timeout gives.
    ghost calls: { Self → SocketAddr → Option ℕ → Self.Dial → Type 0 };

    /// The store of the folder's files, for a server without journals.
    ///
    /// # Errors
    /// Why no server can use the folder; one reason is that an earlier server kept journals there.
    ///
    /// # Not specified
    /// - When it fails, and why.
    /// - The state of the network afterwards, except for its count of failures.
    fn store(&mut self, folder: &str) -> Result<Self::Store, StartRefusal>
        ensures received { stores self.old folder.now result self.new }
        ensures count { failures self.new ≡ failures_after result (failures self.old) };

    /// The peers that connect to this address from now on, to a server over the folder. It waits
    /// for each of their bytes no longer than `timeout` seconds, if given.
    ///
    /// # Errors
    /// Why nobody can connect.
    ///
    /// # Not specified
    /// - When it fails, and the kind of the error.
    /// - The state of the network afterwards, except for its count of failures.
    fn listen(
        &mut self,
        address: SocketAddr,
        folder: &str,
        timeout: Option<u32>,
    ) -> io::Result<Self::Peers>
        ensures received { listens self.old address folder.now timeout result self.new }
        ensures count { failures self.new ≡ failures_after result (failures self.old) };

    /// Makes links to the server at this address, and waits no longer than `timeout` seconds, if
    /// given.
    ///
    /// # Not specified
    /// Anything beyond what each network says of itself.
    fn dial(&self, address: SocketAddr, timeout: Option<u32>) -> Self::Dial
        ensures received { calls self.now address timeout result };
}
