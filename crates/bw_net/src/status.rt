//! Where operators connect over TCP, beside a reactor.
ghost use Rattle.std.specs.Prelude.{◌≡◌, IfOk, ⊤};

use crate::folder::has_folder;
use crate::lines::LineCell;
use crate::reactor::{STATUS, TcpReactor};
use crate::socket::Socket;
use bw_operators::StatusPort;
use bw_status::LeftOutName;
use mio::net::{TcpListener, TcpStream};
use mio::{Interest, Registry, Waker};
use std::alloc::{AllocError, Global};
use std::net::SocketAddr;
use std::time::{Instant, SystemTime, UNIX_EPOCH};
use std::{fs, io};

/// A page of memory, in bytes.
const PAGE: u64 = 4_096;

/// Accepts operators at an address. What happens at its sockets ends a wait of the reactor, and no
/// call of it waits for a peer.
#[derive(Drop)]
pub struct TcpStatusPort<'a> {
    rt: &'a HostRuntime,
    lines: &'a LineCell,
    /// Where it listens.
    address: SocketAddr,
    folder: String,
    listener: TcpListener,
    registry: Registry,
    waker: Waker,
    start: Instant,
    /// The time at the last look at the clock that succeeded, in milliseconds since the start.
    now: u64,
    /// When it was started, in seconds since 1970; 0 if that can't be read.
    since: u64,
}

impl<'a> TcpStatusPort<'a> {
    ghost use Rattle.bw_net.specs.SeenLinks.{port_address, port_folder, port_time};

    /// Listens at an address for operators of a server over this folder. What happens there ends a
    /// wait of this reactor.
    ///
    /// # Errors
    /// Why the system refuses; `OutOfMemory` if memory was refused.
    ///
    /// # Not specified
    /// - When it fails, and the kind of the error.
    /// - That its runtime is the one that was given, and that it listens at the address.
    /// - Who is accepted, what time it is, and when it was started.
    pub fn listen(
        rt: &'a HostRuntime,
        lines: &'a LineCell,
        reactor: &TcpReactor<'_>,
        address: SocketAddr,
        folder: &str,
    ) -> io::Result<TcpStatusPort<'a>>
        ensures address { IfOk result (λ port. port_address port ≡ address) }
        ensures folder { IfOk result (λ port. port_folder port ≡ folder.now) }
        ensures time { IfOk result (λ port. port_time port ≡ 0) }
    {
        let registry = reactor.registry()?;
        let mut listener = TcpListener::bind(rt, address)?;
        registry.register(&mut listener, STATUS, Interest::READABLE)?;
        let waker = Waker::new(&registry, STATUS)?;
        Ok(TcpStatusPort {
            rt,
            lines,
            address,
            folder: String::from_str(rt.alloc(), folder)?,
            listener,
            registry,
            waker,
            start: Instant::now(rt)?,
            now: 0,
            since: seconds_now(rt),
        })
    }

    /// The link over an operator's stream.
    fn link_over(&self, mut stream: TcpStream) -> io::Result<Socket> {
        stream.set_nodelay(true)?;
        let both = Interest::READABLE | Interest::WRITABLE;
        self.registry.register(&mut stream, STATUS, both)?;
        Ok(Socket::new(stream))
    }
}

impl StatusPort for TcpStatusPort<'_> {
    ghost use Rattle.bw_net.specs.SeenLinks.{port_time, port_since};

    type Link = Socket;

    ghost time = { port_time };

    ghost started = { port_since };

    ghost usable = { λ _ _. ⊤ };

    ghost dropped = { λ _ _. ⊤ };

    ghost used = { λ _ _. ⊤ };

    ghost omitted = { λ _ _. ⊤ };

    ghost beginning = { λ _ _. ⊤ };

    fn accept(&mut self) -> Option<Socket> {
        match self.listener.accept() {
            Ok((stream, _address)) => self.link_over(stream).ok(),
            Err(error) => {
                self.lines.note(self.rt, &error);
                None
            }
        }
    }

    fn wake(&mut self) {
        let _failed = self.waker.wake();
    }

    fn now(&mut self) -> u64 {
        if let Ok(passed) = self.start.elapsed(self.rt) {
            self.now = u64::try_from(passed.as_millis()).unwrap_or(u64::MAX);
        }
        self.now
    }

    fn since(&self) -> u64 {
        self.since
    }

    fn has_folder(&mut self) -> bool {
        has_folder(self.rt, self.folder.as_str())
    }

    fn begins(&mut self) -> bool {
        self.lines.begins()
    }

    fn lines_dropped(&mut self) -> u64 {
        self.lines.left_out()
    }

    fn left_out(&mut self, alloc: Global) -> Result<Vec<LeftOutName>, AllocError> {
        self.lines.names_left_out(alloc)
    }

    fn memory(&mut self) -> Option<u64> {
        let text = fs::read_to_string(self.rt, "/proc/self/statm").ok()?;
        let pages = text.as_str().split(' ').nth(1)?;
        let pages = pages.parse::<u64>().ok()?;
        pages.checked_mul(PAGE)
    }
}

/// The time in seconds since 1970; 0 if it can't be read.
fn seconds_now(rt: &HostRuntime) -> u64 {
    let Ok(now) = SystemTime::now(rt) else {
        return 0;
    };
    match now.duration_since(UNIX_EPOCH) {
        Ok(passed) => passed.as_secs(),
        Err(_) => 0,
    }
}
