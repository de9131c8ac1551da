//! Accepts many recorders over TCP, and says which of their sockets are ready.
ghost use Rattle.std.specs.Prelude.{◌≡◌, ◌||◌, ◌+◌, IfOk, ⊤};
ghost use Rattle.mio.specs.Event.{event_token, is_error, is_readable, is_read_closed};
ghost use Rattle.mio.specs.Event.{is_writable, is_write_closed};

use crate::folder::has_folder;
use crate::lines::LineCell;
use crate::socket::Socket;
use bw_operators::begun_line;
use bw_ports::{Accepted, Reactor, Ready, TryAcceptFault, WaitFault};
use mio::event::Event;
use mio::net::{TcpListener, TcpStream};
use mio::{Events, Interest, Poll, Registry, Token};
use std::io::{self, ErrorKind};
use std::net::SocketAddr;
use std::time::{Duration, Instant};

/// The token of the listener; those of the links are their places.
const LISTENER: Token = Token(usize::MAX);

/// The token of all that belongs to the status, which only ends a wait.
pub(crate) const STATUS: Token = Token(usize::MAX - 1);

/// Accepts those who connect to an address, as long as the server's folder exists.
#[derive(Drop)]
pub struct TcpReactor<'a> {
    rt: &'a HostRuntime,
    lines: &'a LineCell,
    /// Where it listens.
    address: SocketAddr,
    folder: String,
    listener: TcpListener,
    poll: Poll,
    /// What was ready at the last wait, with room for each place and the listener.
    events: Events,
    /// How many of these were looked at.
    seen: usize,
    start: Instant,
    /// The time at the last look at the clock that succeeded, in milliseconds since the start.
    now: u64,
    /// The longest time of the last wait, in milliseconds.
    patience: u64,
    failures: u64,
    waits: u64,
}

impl<'a> TcpReactor<'a> {
    ghost use Rattle.bw_net.specs.SeenLinks.{reactor_address, reactor_folder, reactor_room};
    ghost use Rattle.bw_net.specs.SeenLinks.{reactor_failures, reactor_waits};

    /// Listens at an address for those who connect to a server over this folder, with `places`
    /// places. That no handle is left for one of them is said on standard error, once.
    ///
    /// # Errors
    /// Why the system refuses; `OutOfMemory` if memory was refused. The folder's text isn't given
    /// back.
    ///
    /// # Not specified
    /// - When it fails, and the kind of the error.
    /// - That its runtime is the one that was given.
    /// - When a wait ends, who is accepted, when `Gone`, `Nobody` and `Closed` are returned, and
    ///   what time it is.
    pub fn listen(
        rt: &'a HostRuntime,
        lines: &'a LineCell,
        address: SocketAddr,
        folder: String,
        places: usize,
    ) -> io::Result<TcpReactor<'a>>
        ensures address { IfOk result (λ reactor. reactor_address reactor ≡ address) }
        ensures folder { IfOk result (λ reactor. reactor_folder reactor ≡ folder) }
        ensures room { IfOk result (λ reactor. reactor_room reactor ≡ places + 1) }
        ensures failures { IfOk result (λ reactor. reactor_failures reactor ≡ 0) }
        ensures waits { IfOk result (λ reactor. reactor_waits reactor ≡ 0) }
    {
        let Some(room) = places.checked_add(1) else {
            return Err(io::Error::from(ErrorKind::OutOfMemory));
        };
        let events = Events::with_capacity(rt.alloc(), room)?;
        let (poll, listener) = listening(rt, address)?;
        Ok(TcpReactor {
            rt,
            lines,
            address,
            folder,
            listener,
            poll,
            events,
            seen: 0,
            start: Instant::now(rt)?,
            now: 0,
            patience: 0,
            failures: 0,
            waits: 0,
        })
    }
}

/// A listener at an address, and what reports those who connect to it.
fn listening(rt: &HostRuntime, address: SocketAddr) -> io::Result<(Poll, TcpListener)> {
    let poll = Poll::new(rt)?;
    let mut listener = TcpListener::bind(rt, address)?;
    poll.registry()
        .register(&mut listener, LISTENER, Interest::READABLE)?;
    Ok((poll, listener))
}

impl Reactor for TcpReactor<'_> {
    ghost use Rattle.bw_net.specs.SeenLinks.{reactor_failures, reactor_waits, reactor_time};
    ghost use Rattle.bw_net.specs.SeenLinks.{reactor_patience};

    type Link = Socket;

    ghost failures = { reactor_failures };

    ghost waits = { reactor_waits };

    ghost time = { reactor_time };

    ghost patience = { reactor_patience };

    ghost reported = { λ _ _. ⊤ };

    ghost all_reported = { λ _. ⊤ };

    ghost tried = { λ _ _. ⊤ };

    ghost nobody = { λ _. ⊤ };

    ghost admitted = { λ _ _. ⊤ };

    fn wait(&mut self, most: u64) -> Result<(), WaitFault> {
        self.seen = 0;
        self.patience = most;
        let longest = Duration::from_millis(most);
        match self.poll.poll(&mut self.events, Some(longest)) {
            // A signal ends a wait, not the server.
            Err(error) if error.kind() != ErrorKind::Interrupted => {
                self.failures = self.failures.saturating_add(1);
                Err(WaitFault)
            }
            _ => {
                self.waits = self.waits.saturating_add(1);
                Ok(())
            }
        }
    }

    fn next_ready(&mut self) -> Option<Ready> {
        for event in self.events.iter().skip(self.seen) {
            self.seen = self.seen.saturating_add(1);
            if event.token() != LISTENER && event.token() != STATUS {
                return Some(ready_of(event));
            }
        }
        None
    }

    fn accept(&mut self, place: usize) -> Result<Accepted<Socket>, TryAcceptFault> {
        let accepted = self.listener.accept();
        if is_nobody(&accepted) {
            return Err(TryAcceptFault::Nobody);
        }
        // A peer that comes when the folder is gone isn't served: its requests wait for another
        // server.
        if !has_folder(self.rt, self.folder.as_str()) {
            self.failures = self.failures.saturating_add(1);
            return Err(TryAcceptFault::Closed);
        }
        let (stream, address) = match accepted {
            Ok(accepted) => accepted,
            Err(error) => {
                self.lines.note(self.rt, &error);
                return Err(TryAcceptFault::Gone);
            }
        };
        let Ok(link) = self.link_at(place, stream) else {
            return Err(TryAcceptFault::Gone);
        };
        if self.lines.logs() {
            let line = begun_line(self.rt.alloc(), address);
            self.lines.note_event(self.rt, line);
        }
        Ok(Accepted { address, link })
    }

    fn now(&mut self) -> u64 {
        if let Ok(passed) = self.start.elapsed(self.rt) {
            self.now = u64::try_from(passed.as_millis()).unwrap_or(u64::MAX);
        }
        self.now
    }
}

impl TcpReactor<'_> {
    /// A registry for more sockets whose events end its waits.
    pub(crate) fn registry(&self) -> io::Result<Registry> {
        self.poll.registry().try_clone()
    }

    /// The link over a stream that is reported under this place. A batch's last bytes are sent at
    /// once.
    fn link_at(&self, place: usize, mut stream: TcpStream) -> io::Result<Socket> {
        stream.set_nodelay(true)?;
        let both = Interest::READABLE | Interest::WRITABLE;
        self.poll
            .registry()
            .register(&mut stream, Token(place), both)?;
        Ok(Socket::new(stream))
    }
}

/// Whether nobody waits to be accepted.
fn is_nobody(accepted: &io::Result<(TcpStream, SocketAddr)>) -> bool {
    let Err(error) = accepted else {
        return false;
    };
    matches!(error.kind(), ErrorKind::WouldBlock | ErrorKind::Interrupted)
}

/// The link that an event reports; one that has failed or ended is ready both ways, so that it is
/// read to its end.
fn ready_of(event: &Event) -> Ready
    ensures place { result.place ≡ (event_token event.now).0 }
    ensures readable { result.readable ≡ is_readable event.now || (is_error event.now
        || is_read_closed event.now || is_write_closed event.now) }
    ensures writable { result.writable ≡ is_writable event.now || (is_error event.now
        || is_read_closed event.now || is_write_closed event.now) }
{
    let is_over = event.is_error() || event.is_read_closed() || event.is_write_closed();
    Ready {
        place: event.token().0,
        readable: event.is_readable() || is_over,
        writable: event.is_writable() || is_over,
    }
}
