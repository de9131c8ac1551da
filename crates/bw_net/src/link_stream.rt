//! A stream to a server, with or without a spool.
use crate::spool::SpoolCell;
use crate::spool_stream::SpoolStream;
use std::io::{self, Read, Write};
use std::net::{SocketAddr, TcpStream};
use std::time::Duration;

/// A stream to a server. No clause says which bytes it gives and takes.
#[derive(Drop)]
pub enum LinkStream<'a> {
    /// Its calls wait, and nothing else is done meanwhile.
    Plain(TcpStream),
    /// The spool is filled while its calls wait.
    Spooled(SpoolStream<'a>),
}

/// Two handles of a stream to a server, each call of which waits no longer than `timeout`. A batch's
/// last bytes are sent at once.
pub(crate) fn connect<'a>(
    rt: &'a HostRuntime,
    spool: &'a SpoolCell,
    address: SocketAddr,
    timeout: Option<Duration>,
) -> io::Result<(LinkStream<'a>, LinkStream<'a>)> {
    if spool.is_open() {
        return connect_spooled(rt, spool, address, timeout);
    }
    let stream = match timeout {
        Some(most) => TcpStream::connect_timeout(rt, &address, most)?,
        None => TcpStream::connect(rt, address)?,
    };
    limit_waits(&stream, timeout)?;
    let other = stream.try_clone()?;
    Ok((LinkStream::Plain(stream), LinkStream::Plain(other)))
}

/// The same, where the spool is filled meanwhile.
fn connect_spooled<'a>(
    rt: &'a HostRuntime,
    spool: &'a SpoolCell,
    address: SocketAddr,
    timeout: Option<Duration>,
) -> io::Result<(LinkStream<'a>, LinkStream<'a>)> {
    let stream = SpoolStream::connect(rt, spool, address, timeout)?;
    let (one, other) = stream.into_two()?;
    Ok((LinkStream::Spooled(one), LinkStream::Spooled(other)))
}

/// Has each call of a stream wait no longer than `timeout`, and a batch's last bytes be sent at once.
fn limit_waits(stream: &TcpStream, timeout: Option<Duration>) -> io::Result<()> {
    stream.set_nodelay(true)?;
    stream.set_read_timeout(timeout)?;
    stream.set_write_timeout(timeout)
}

impl Read for LinkStream<'_> {
    fn read(&mut self, buf: &mut [u8]) -> io::Result<usize> {
        match self {
            LinkStream::Plain(stream) => stream.read(buf),
            LinkStream::Spooled(stream) => stream.read(buf),
        }
    }
}

impl Write for LinkStream<'_> {
    fn write(&mut self, buf: &[u8]) -> io::Result<usize> {
        match self {
            LinkStream::Plain(stream) => stream.write(buf),
            LinkStream::Spooled(stream) => stream.write(buf),
        }
    }

    fn flush(&mut self) -> io::Result<()> {
        Ok(())
    }
}
