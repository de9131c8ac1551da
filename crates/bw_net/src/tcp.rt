//! Links over TCP: to a server, and of its peers.
ghost use Rattle.std.specs.Prelude.{◌≡◌, IfOk, None};

use crate::counting::counted;
use crate::folder::has_folder;
use crate::link_stream::{LinkStream, connect};
use crate::noted_files::NotedFiles;
use crate::noted_stream::{NotedStream, noted};
use crate::pause::SpoolPause;
use crate::spool::SpoolCell;
use crate::stopwatch::ClockStopwatch;
use bw_console::CauseCell;
use bw_operators::begun_line;
use bw_ports::{AcceptFault, Dial, DialFault, Duplex, PacedSink, Peer, Peers};
use bw_stream::StdIo;
use std::fs::Files;
use std::io;
use std::io::{Read, Write};
use std::net::{Net, OpenListener, OpenStream, SocketAddr, TcpListener};
use std::time::Duration;

/// Opens links to a server. It says nothing of what they give, since no clause of std says what
/// comes over a socket.
#[derive(Drop)]
pub struct TcpDial<'a> {
    rt: &'a HostRuntime,
    /// The spool, if there is one, is filled while a call waits.
    spool: &'a SpoolCell,
    /// Gets the reason why a call failed.
    causes: &'a CauseCell,
    address: SocketAddr,
    /// How long a call may wait, if there is a limit.
    timeout: Option<Duration>,
    /// How many bytes a second go over a link at most, if there is a limit.
    rate: Option<u32>,
    failures: u64,
}

impl<'a> TcpDial<'a> {
    ghost use Rattle.bw_net.specs.SeenLinks.{dial_address, dial_timeout, dial_rate, dial_failures};

    /// Opens links to this address, over each of which so many bytes a second go at most, if a rate
    /// is given; it has not failed yet. The cell gets the reason why one can't be made, or breaks
    /// off.
    ///
    /// # Not specified
    /// - That its runtime is the one that was given, and what the cell gets.
    /// - That its links go to the address, and what they give.
    pub fn new(
        rt: &'a HostRuntime,
        spool: &'a SpoolCell,
        causes: &'a CauseCell,
        address: SocketAddr,
        timeout: Option<Duration>,
        rate: Option<u32>,
    ) -> TcpDial<'a>
        ensures failures { dial_failures result ≡ 0 }
        ensures address { dial_address result ≡ address }
        ensures timeout { dial_timeout result ≡ timeout }
        ensures rate { dial_rate result ≡ rate }
    {
        TcpDial {
            rt,
            spool,
            causes,
            address,
            timeout,
            rate,
            failures: 0,
        }
    }
}

/// A stream to a server, whose failures are noted.
type ServerStream<'a> = StdIo<NotedStream<'a, LinkStream<'a>>>;

/// Writes to a server, no faster than the rate that is asked for, if there is one.
type PacedStream<'a> = PacedSink<ServerStream<'a>, SpoolPause<'a>, ClockStopwatch<&'a HostRuntime>>;

impl<'a> Dial for TcpDial<'a> {
    ghost use Rattle.bw_net.specs.SeenLinks.{dial_address, dial_timeout, dial_rate, dial_failures};

    type Reader = ServerStream<'a>;

    type Writer = PacedStream<'a>;

    ghost links = { λ d. None };

    ghost failures = { dial_failures };

    ghost dials = { λ d result d'. (dial_address d' ≡ dial_address d)
        × (dial_timeout d' ≡ dial_timeout d)
        × (dial_rate d' ≡ dial_rate d) };

    fn dial(&mut self) -> Result<Duplex<ServerStream<'a>, PacedStream<'a>>, DialFault> {
        let causes = self.causes;
        match noted(
            connect(self.rt, self.spool, self.address, self.timeout),
            causes,
        ) {
            Ok((reader, writer)) => {
                causes.note(None);
                let reader = StdIo::new(NotedStream {
                    stream: reader,
                    causes,
                });
                let writer = StdIo::new(NotedStream {
                    stream: writer,
                    causes,
                });
                let pause = SpoolPause::new(self.rt, self.spool);
                let stopwatch = ClockStopwatch::new(self.rt);
                let writer = PacedSink::new(writer, self.rate, pause, stopwatch);
                Ok(Duplex { reader, writer })
            }
            Err(_) => {
                self.failures = self.failures.saturating_add(1);
                Err(DialFault)
            }
        }
    }
}

/// A link over a stream: two handles of one socket. A batch's last bytes are sent at once.
fn link_over<S: Read + Write + OpenStream + Drop>(
    stream: S,
    timeout: Option<Duration>,
) -> io::Result<Duplex<StdIo<S>, StdIo<S>>> {
    stream.set_nodelay(true)?;
    stream.set_read_timeout(timeout)?;
    stream.set_write_timeout(timeout)?;
    let reader = StdIo::new(stream.try_clone()?);
    let writer = StdIo::new(stream);
    Ok(Duplex { reader, writer })
}

/// Accepts peers at an address, as long as the server's folder exists.
#[derive(Drop)]
pub struct TcpPeers<'a, R, L: Drop> {
    rt: &'a R,
    /// Where it listens.
    address: SocketAddr,
    listener: L,
    folder: String,
    timeout: Option<Duration>,
    /// Says which links begin.
    notes: NotedFiles<'a>,
    failures: u64,
}

impl<'a, R: Net> TcpPeers<'a, R, R::Listener> {
    ghost use Rattle.bw_net.specs.SeenLinks.{peers_address, peers_folder, peers_timeout};
    ghost use Rattle.bw_net.specs.SeenLinks.{peers_failures};

    /// Listens at an address for those who connect to a server over this folder. With a log it is said
    /// whose link begins.
    ///
    /// # Errors
    /// Why the system refuses. The folder's text isn't given back.
    ///
    /// # Not specified
    /// - When it fails, and the kind of the error.
    /// - That its runtime is the one that was given.
    /// - Of `accept`, when `Gone` and when `Closed` is returned.
    pub fn listen(
        rt: &'a R,
        notes: NotedFiles<'a>,
        address: SocketAddr,
        folder: String,
        timeout: Option<Duration>,
    ) -> io::Result<TcpPeers<'a, R, R::Listener>>
        ensures failures { IfOk result (λ peers. peers_failures peers ≡ 0) }
        ensures address { IfOk result (λ peers. peers_address peers ≡ address) }
        ensures folder { IfOk result (λ peers. peers_folder peers ≡ folder) }
        ensures timeout { IfOk result (λ peers. peers_timeout peers ≡ timeout) }
    {
        Ok(TcpPeers {
            rt,
            address,
            listener: TcpListener::bind(rt, address)?,
            folder,
            timeout,
            notes,
            failures: 0,
        })
    }
}

impl<R: Net + Files> Peers for TcpPeers<'_, R, R::Listener> {
    ghost use Rattle.bw_net.specs.SeenLinks.{peers_address, peers_folder, peers_timeout};
    ghost use Rattle.bw_net.specs.SeenLinks.{peers_failures};

    type Reader = StdIo<R::Stream>;

    type Writer = StdIo<R::Stream>;

    ghost failures = { peers_failures };

    ghost accepts = { λ p result p'. (peers_address p' ≡ peers_address p)
        × (peers_folder p' ≡ peers_folder p)
        × (peers_timeout p' ≡ peers_timeout p) };

    fn accept(&mut self) -> Result<Peer<StdIo<R::Stream>, StdIo<R::Stream>>, AcceptFault> {
        counted(self.next_peer(), &mut self.failures)
    }
}

impl<R: Net + Files> TcpPeers<'_, R, R::Listener> {
    /// The next peer. A peer that comes when the folder is gone isn't served: its requests wait for
    /// another server.
    fn next_peer(&self) -> Result<Peer<StdIo<R::Stream>, StdIo<R::Stream>>, AcceptFault> {
        let accepted = self.listener.accept();
        if !has_folder(self.rt, self.folder.as_str()) {
            return Err(AcceptFault::Closed);
        }
        let Ok((stream, address)) = accepted else {
            return Err(AcceptFault::Gone);
        };
        let link = link_over(stream, self.timeout).map_err(|_| AcceptFault::Gone)?;
        if self.notes.logs() {
            self.notes
                .note_event(begun_line(self.notes.alloc(), address));
        }
        Ok(Peer { address, link })
    }
}
