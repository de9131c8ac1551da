//! Standard input, no read of which waits.
ghost use Rattle.std.specs.Prelude.{⊤};

use crate::meaning::received;
use bw_ports::{Link, Received, Sent};
use mio::unix::SourceFd;
use mio::{Events, Interest, Poll, Token};
use std::io::{self, ErrorKind, Read, Stdin};
use std::os::fd::RawFd;
use std::time::Duration;

/// The descriptor of standard input.
const INPUT: RawFd = 0;

/// The token of standard input.
pub(crate) const INPUT_TOKEN: Token = Token(0);

/// Standard input as a link that nothing is sent over. Its descriptor stays as it is, since it may be
/// that of other processes too: it is read once each time the system reports that there is something.
/// No clause says what it gives.
#[derive(Drop)]
pub struct InputLink {
    stdin: Stdin,
    /// Reports whether there are bytes; None of a file, which is always read at once.
    poll: Option<Poll>,
    events: Events,
}

impl InputLink {
    /// The standard input of this runtime's process.
    ///
    /// # Errors
    /// If it isn't open, or the system fails.
    pub(crate) fn new(rt: &HostRuntime) -> io::Result<InputLink> {
        let poll = Poll::new(rt)?;
        let is_told = watch_input(&poll)?;
        Ok(InputLink {
            stdin: rt.stdin(),
            poll: if is_told { Some(poll) } else { None },
            events: Events::with_capacity(rt.alloc(), 1)?,
        })
    }

    /// Whether there is something to read, or the end.
    fn is_ready(&mut self) -> bool {
        let Some(poll) = &mut self.poll else {
            return true;
        };
        if watch_again(poll).is_err() {
            return true;
        }
        if poll.poll(&mut self.events, Some(Duration::ZERO)).is_err() {
            return false;
        }
        self.events.iter().next().is_some()
    }
}

/// Has a poll report standard input, if it can: it can't if that is a file.
pub(crate) fn watch_input(poll: &Poll) -> io::Result<bool> {
    let registered = poll
        .registry()
        .register(&mut SourceFd(&INPUT), INPUT_TOKEN, Interest::READABLE);
    match registered {
        Ok(()) => Ok(true),
        Err(error) if error.kind() == ErrorKind::PermissionDenied => Ok(false),
        Err(error) => Err(error),
    }
}

/// Has a poll report standard input again, also where nothing has changed.
pub(crate) fn watch_again(poll: &Poll) -> io::Result<()> {
    poll.registry()
        .reregister(&mut SourceFd(&INPUT), INPUT_TOKEN, Interest::READABLE)
}

impl Link for InputLink {
    ghost given = { λ _ _. ⊤ };

    ghost taken = { λ _ _. ⊤ };

    ghost ended = { λ _. ⊤ };

    ghost broken = { λ _. ⊤ };

    ghost dry = { λ _. ⊤ };

    ghost full = { λ _. ⊤ };

    ghost finished = { λ _. ⊤ };

    ghost calls_from = { λ _ _. ⊤ };

    fn receive(&mut self, buffer: &mut [u8]) -> Received {
        if buffer.is_empty() || !self.is_ready() {
            return Received::Nothing;
        }
        received(self.stdin.read(buffer))
    }

    fn send(&mut self, _bytes: &[u8]) -> Sent {
        Sent::Failed
    }

    fn shut(&mut self) {}
}
