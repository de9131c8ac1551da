//! A link over a socket, no call of which waits.
ghost use Rattle.std.specs.Prelude.{⊤};

use bw_ports::{Link, Received, Sent};
use mio::net::TcpStream;
use std::io::{ErrorKind, Read, Write};
use std::net::Shutdown;

/// How often a call that is interrupted by signals is made. A socket's readiness is reported only
/// once, so the call can't wait for another report.
const MOST_TRIES: u32 = 16;

/// The most bytes that are read at once: eight of the longest frames, half of what a sender may have on
/// the way, so that the other half comes while these are hashed.
const MOST_READ: usize = 262_480;

/// The link over a recorder's stream. No clause says which bytes it gives and takes.
///
/// Only this is proved: it reports no more bytes than there is room for, no more than it was given,
/// and never 0 as a count of bytes.
#[derive(Drop)]
pub struct Socket {
    stream: TcpStream,
}

impl Socket {
    /// The link over this stream.
    pub(crate) fn new(stream: TcpStream) -> Socket {
        Socket { stream }
    }
}

impl Link for Socket {
    ghost given = { λ _ _. ⊤ };

    ghost taken = { λ _ _. ⊤ };

    ghost ended = { λ _. ⊤ };

    ghost broken = { λ _. ⊤ };

    ghost dry = { λ _. ⊤ };

    ghost full = { λ _. ⊤ };

    ghost finished = { λ _. ⊤ };

    ghost calls_from = { λ _ _. ⊤ };

    fn receive(&mut self, buffer: &mut [u8]) -> Received {
        if buffer.is_empty() {
            return Received::Nothing;
        }
        for _try in 0..MOST_TRIES {
            let most = buffer.len().min(MOST_READ);
            match self.stream.read(&mut buffer[..most]) {
                Ok(0) => return Received::Ended,
                Ok(count) => return Received::Bytes(count),
                Err(error) => match error.kind() {
                    ErrorKind::Interrupted => {}
                    ErrorKind::WouldBlock => return Received::Nothing,
                    _ => return Received::Failed,
                },
            }
        }
        Received::Failed
    }

    fn send(&mut self, bytes: &[u8]) -> Sent {
        if bytes.is_empty() {
            return Sent::Nothing;
        }
        for _try in 0..MOST_TRIES {
            match self.stream.write(bytes) {
                Ok(0) => return Sent::Failed,
                Ok(count) => return Sent::Bytes(count),
                Err(error) => match error.kind() {
                    ErrorKind::Interrupted => {}
                    ErrorKind::WouldBlock => return Sent::Nothing,
                    _ => return Sent::Failed,
                },
            }
        }
        Sent::Failed
    }

    fn shut(&mut self) {
        let _gone = self.stream.shutdown(Shutdown::Write);
    }
}
