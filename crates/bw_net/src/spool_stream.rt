//! A stream to a server during whose waits the spool is filled.
use crate::spool::SpoolCell;
use mio::net::TcpStream;
use std::io::{self, ErrorKind, Read, Write};
use std::net::SocketAddr;
use std::os::fd::OwnedFd;
use std::time::Duration;

/// The seconds that a call waits where no limit is given: some 23 days, since a poll takes at most
/// 2^31 - 1 milliseconds.
const FOR_GOOD: u64 = 2_000_000;

/// A stream whose calls wait as those of a blocking one do, and fill the spool while they wait.
#[derive(Drop)]
pub struct SpoolStream<'a> {
    rt: &'a HostRuntime,
    spool: &'a SpoolCell,
    stream: TcpStream,
    most: Duration,
}

impl<'a> SpoolStream<'a> {
    /// Connects to an address.
    ///
    /// # Errors
    /// `TimedOut` if that takes longer than `timeout`; else why the system refuses.
    pub(crate) fn connect(
        rt: &'a HostRuntime,
        spool: &'a SpoolCell,
        address: SocketAddr,
        timeout: Option<Duration>,
    ) -> io::Result<SpoolStream<'a>> {
        let most = timeout.unwrap_or(Duration::from_secs(FOR_GOOD));
        let mut stream = TcpStream::connect(rt, address)?;
        finish_connecting(rt, spool, &mut stream, most)?;
        Ok(SpoolStream {
            rt,
            spool,
            stream,
            most,
        })
    }

    /// Two handles of the stream.
    pub(crate) fn into_two(self) -> io::Result<(SpoolStream<'a>, SpoolStream<'a>)> {
        let SpoolStream {
            rt,
            spool,
            stream,
            most,
        } = self;
        let one = OwnedFd::from(stream);
        let other = one.try_clone()?;
        let first = SpoolStream {
            rt,
            spool,
            stream: TcpStream::from(one),
            most,
        };
        let second = SpoolStream {
            rt,
            spool,
            stream: TcpStream::from(other),
            most,
        };
        Ok((first, second))
    }

    /// Waits until the stream is ready.
    fn wait(&self) -> io::Result<()> {
        if self.spool.wait(self.rt, self.most, true)? {
            return Ok(());
        }
        Err(io::Error::from(ErrorKind::TimedOut))
    }
}

/// Waits until a stream is connected, and has a batch's last bytes be sent at once.
fn finish_connecting(
    rt: &HostRuntime,
    spool: &SpoolCell,
    stream: &mut TcpStream,
    most: Duration,
) -> io::Result<()> {
    spool.watch_link(stream)?;
    if !spool.wait(rt, most, true)? {
        return Err(io::Error::from(ErrorKind::TimedOut));
    }
    if let Some(error) = stream.take_error()? {
        return Err(error);
    }
    let _peer = stream.peer_addr()?;
    stream.set_nodelay(true)
}

impl Read for SpoolStream<'_> {
    fn read(&mut self, buf: &mut [u8]) -> io::Result<usize> {
        for _try in 0..u64::MAX {
            match self.stream.read(buf) {
                Err(error) if error.kind() == ErrorKind::WouldBlock => self.wait()?,
                done => return done,
            }
        }
        Err(io::Error::from(ErrorKind::TimedOut))
    }
}

impl Write for SpoolStream<'_> {
    fn write(&mut self, buf: &[u8]) -> io::Result<usize> {
        for _try in 0..u64::MAX {
            match self.stream.write(buf) {
                Err(error) if error.kind() == ErrorKind::WouldBlock => self.wait()?,
                done => return done,
            }
        }
        Err(io::Error::from(ErrorKind::TimedOut))
    }

    fn flush(&mut self) -> io::Result<()> {
        Ok(())
    }
}
