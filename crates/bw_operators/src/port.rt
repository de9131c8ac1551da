//! What the status of a server asks of the system.
ghost use Rattle.std.specs.Prelude.{◌≡◌, ℕ, Bool, List, Option, Result, IfOk, IfSome, []};
ghost use Rattle.std.specs.declared.io.Error.{Error as IoError};
ghost use Rattle.std.specs.declared.net.socket_addr.SocketAddr.{SocketAddr};
ghost use Rattle.bw_status.specs.declared.snapshot.LeftOutName.{LeftOutName as NameLeftOut};
ghost use Rattle.bw_stream.specs.Moves.{failures_after};

use bw_ports::Link;
use bw_status::LeftOutName;
use std::alloc::{AllocError, Global};
use std::io;
use std::net::SocketAddr;

/// Where operators connect, and what else the system says. No call waits, and no clause says who
/// connects.
pub trait StatusPort {
    /// An operator's link.
    type Link: Link + Drop;

    /// The time that was reported last, in milliseconds since the start.
    ghost time: { Self → ℕ };

    /// When it was started, in seconds since 1970.
    ghost started: { Self → ℕ };

    /// This may have been reported: whether the server's folder can be used.
    ghost usable: { Self → Bool → Type 0 };

    /// This may have been reported: whether takes can begin in the store and its journal.
    ghost beginning: { Self → Bool → Type 0 };

    /// This may have been reported: how many lines were left out.
    ghost dropped: { Self → ℕ → Type 0 };

    /// This may have been reported: how many bytes of memory the process uses, if that is known.
    ghost used: { Self → Option ℕ → Type 0 };

    /// This may have been reported: which names are left out.
    ghost omitted: { Self → List NameLeftOut → Type 0 };

    /// The next operator who waits to be accepted, if there is one.
    ///
    /// # Not specified
    /// Who connects, and when: only that a new link gave and took nothing.
    fn accept(&mut self) -> Option<Self::Link>
        ensures given { IfSome result (λ link. Self.Link.given link []) }
        ensures taken { IfSome result (λ link. Self.Link.taken link []) }
        ensures time { time self.new ≡ time self.old }
        ensures started { started self.new ≡ started self.old };

    /// Makes the next wait of the server end at once.
    ///
    /// # Not specified
    /// That it does.
    fn wake(&mut self)
        ensures time { time self.new ≡ time self.old }
        ensures started { started self.new ≡ started self.old };

    /// The time, in milliseconds since the start. If it can't be read, the last one.
    ///
    /// # Not specified
    /// What time it is.
    fn now(&mut self) -> u64
        ensures time { result ≡ time self.new }
        ensures started { started self.new ≡ started self.old };

    /// When it was started, in seconds since 1970; 0 if that couldn't be read.
    fn since(&self) -> u64
        ensures { result ≡ started self.now };

    /// Whether the server's folder can be used.
    ///
    /// # Not specified
    /// When it can.
    fn has_folder(&mut self) -> bool
        ensures usable { usable self.new result }
        ensures time { time self.new ≡ time self.old }
        ensures started { started self.new ≡ started self.old };

    /// Whether the last call of the store or its journal to begin a take succeeded; true before the first.
    ///
    /// # Not specified
    /// Whether it did.
    fn begins(&mut self) -> bool
        ensures beginning { beginning self.new result }
        ensures time { time self.new ≡ time self.old }
        ensures started { started self.new ≡ started self.old };

    /// How many lines of the server were left out, since they couldn't be written at once.
    ///
    /// # Not specified
    /// How many these are.
    fn lines_dropped(&mut self) -> u64
        ensures dropped { dropped self.new result }
        ensures time { time self.new ≡ time self.old }
        ensures started { started self.new ≡ started self.old };

    /// The names that the server leaves out, in the order in which they were found.
    ///
    /// # Errors
    /// `AllocError` if memory was refused.
    ///
    /// # Not specified
    /// Which names these are, and when memory is refused.
    fn left_out(&mut self, alloc: Global) -> Result<Vec<LeftOutName>, AllocError>
        ensures omitted { IfOk result (λ names. omitted self.new names.items) }
        ensures time { time self.new ≡ time self.old }
        ensures started { started self.new ≡ started self.old };

    /// How much memory the process uses, in bytes, if that is known.
    ///
    /// # Not specified
    /// How much it is, and when it is known.
    fn memory(&mut self) -> Option<u64>
        ensures used { used self.new result }
        ensures time { time self.new ≡ time self.old }
        ensures started { started self.new ≡ started self.old };
}

/// Opens a port for operators beside a reactor, and counts failures.
pub trait StatusSetup<B> {
    /// Where operators connect.
    type Port: StatusPort + Drop;

    /// How many calls failed; the count stays at 2^64 - 1.
    ghost failures: { Self → ℕ };

    /// What a call for this reactor, address and folder may return, and the state after it.
    ghost shows: { Self → B → SocketAddr → List ℕ → Result Self.Port IoError → Self → Type 0 };

    /// A port at this address beside this reactor, of a server over a folder.
    ///
    /// # Errors
    /// Why nobody can connect.
    ///
    /// # Not specified
    /// - When it fails, and the kind of the error.
    /// - The state of `self` afterwards, except for its count of failures.
    fn status_port(
        &mut self,
        reactor: &B,
        address: SocketAddr,
        folder: &str,
    ) -> io::Result<Self::Port>
        ensures received { shows self.old reactor.now address folder.now result self.new }
        ensures count { failures self.new ≡ failures_after result (failures self.old) };
}
