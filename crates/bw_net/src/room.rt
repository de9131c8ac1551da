//! Which descriptors have room for a line.
use mio::unix::SourceFd;
use mio::{Events, Interest, Poll, Token};
use std::io::{self, ErrorKind};
use std::os::fd::RawFd;
use std::time::Duration;

/// Reports which descriptors have room. They stay as they are, since they may be those of other
/// processes too.
#[derive(Drop)]
pub(crate) struct Room {
    poll: Poll,
    /// Of standard output and standard error.
    events: Events,
}

impl Room {
    pub(crate) fn new(rt: &HostRuntime) -> io::Result<Room> {
        Ok(Room {
            poll: Poll::new(rt)?,
            events: Events::with_capacity(rt.alloc(), 2)?,
        })
    }

    /// Whether a descriptor has room. One that can't be asked, as a file, always has.
    pub(crate) fn is_at(&mut self, fd: RawFd) -> bool {
        let token = Token(fd.unsigned_abs() as usize);
        if self.watch(fd, token).is_err() {
            return true;
        }
        if self
            .poll
            .poll(&mut self.events, Some(Duration::ZERO))
            .is_err()
        {
            return true;
        }
        for event in self.events.iter() {
            if event.token() == token {
                return true;
            }
        }
        false
    }

    /// Has a descriptor reported, also where nothing has changed.
    fn watch(&self, fd: RawFd, token: Token) -> io::Result<()> {
        let registry = self.poll.registry();
        match registry.reregister(&mut SourceFd(&fd), token, Interest::WRITABLE) {
            Err(error) if error.kind() == ErrorKind::NotFound => {
                registry.register(&mut SourceFd(&fd), token, Interest::WRITABLE)
            }
            again => again,
        }
    }
}
