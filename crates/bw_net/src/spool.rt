//! The spool of standard input, and waits during which it is filled.
use crate::input::{INPUT_TOKEN, InputLink, watch_again, watch_input};
use crate::marks::MarkCell;
use crate::spool_file::SpoolFile;
use bw_ports::{Drawn, Spool, SpoolState};
use mio::net::TcpStream;
use mio::{Events, Interest, Poll, Token};
use std::cell::RefCell;
use std::fs::File;
use std::io::{self, ErrorKind};
use std::thread;
use std::time::{Duration, Instant};

/// The token of a link.
const LINK: Token = Token(1);

/// How many pieces are drawn before something else is looked at: an input that is faster than the
/// link doesn't hold it up.
const PIECES: u32 = 16;

/// The milliseconds for which input is waited for before it is looked at whether that has ended.
const BETWEEN_LOOKS: u64 = 100;

/// The spool of the process, if it has one. All parts of a sender that wait share it, and fill it
/// while they do: so no writer into standard input waits for the link.
///
/// No clause says what it holds. That its file has what came, in order, is proved of `bw_ports::Spool`
/// over every link and every file.
#[derive(Drop)]
pub struct SpoolCell {
    spooling: RefCell<Option<Spooling>>,
    /// Lines for markers are looked for during waits, if there are any.
    pub(crate) marks: MarkCell,
}

impl SpoolCell {
    /// No spool yet.
    pub fn new() -> SpoolCell {
        SpoolCell {
            spooling: RefCell::new(None),
            marks: MarkCell::new(),
        }
    }

    /// Begins to append standard input to the file at a path, which is made if it isn't there.
    ///
    /// # Errors
    /// If the system failed, or there is a spool already.
    pub(crate) fn begin(&self, rt: &HostRuntime, path: &str) -> io::Result<()> {
        let spooling = Spooling::new(rt, path)?;
        match self.spooling.try_replace(Some(spooling)) {
            Ok(None) => Ok(()),
            _ => Err(io::Error::from(ErrorKind::AlreadyExists)),
        }
    }

    /// Appends some of what has come. Returns whether more comes; None without a spool.
    pub(crate) fn draw(&self) -> Option<SpoolState> {
        let Ok(mut guard) = self.spooling.try_borrow_mut() else {
            return None;
        };
        let Some(spooling) = guard.as_mut() else {
            return None;
        };
        spooling.draw();
        Some(spooling.spool.state())
    }

    /// Whether there is a spool into which something was to be drawn already.
    pub(crate) fn is_drawn(&self) -> bool {
        let Ok(guard) = self.spooling.try_borrow() else {
            return false;
        };
        match guard.as_ref() {
            Some(spooling) => spooling.is_drawn,
            None => false,
        }
    }

    /// Appends all that comes until no more does. Returns whether the spool has all of it.
    pub(crate) fn drain(&self, rt: &HostRuntime) -> bool {
        for _wait in 0..u64::MAX {
            match self.draw() {
                Some(SpoolState::Open) => {
                    self.wait_or_sleep(rt, Duration::from_millis(BETWEEN_LOOKS));
                }
                Some(SpoolState::Ended) => return true,
                Some(SpoolState::Failed) | None => return false,
            }
        }
        false
    }

    /// Waits so long, and appends what comes meanwhile, if there is a spool and more may come.
    pub(crate) fn wait_or_sleep(&self, rt: &HostRuntime, span: Duration) {
        if self.is_open() && self.wait(rt, span, false).is_ok() {
            return;
        }
        let piece = Duration::from_millis(BETWEEN_LOOKS);
        let mut left = span;
        for _look in 0..u64::MAX {
            if !self.marks.look() || left <= piece {
                break;
            }
            thread::sleep(rt, piece);
            left = left.saturating_sub(piece);
        }
        thread::sleep(rt, left);
    }

    /// Whether there is a spool, and more may come.
    pub(crate) fn is_open(&self) -> bool {
        let Ok(guard) = self.spooling.try_borrow() else {
            return false;
        };
        match guard.as_ref() {
            Some(spooling) => spooling.spool.state() == SpoolState::Open,
            None => false,
        }
    }

    /// Has waits end when this link is ready.
    ///
    /// # Errors
    /// If the system failed, or there is no spool.
    pub(crate) fn watch_link(&self, stream: &mut TcpStream) -> io::Result<()> {
        let Ok(guard) = self.spooling.try_borrow() else {
            return Err(io::Error::from(ErrorKind::Unsupported));
        };
        let Some(spooling) = guard.as_ref() else {
            return Err(io::Error::from(ErrorKind::Unsupported));
        };
        let both = Interest::READABLE | Interest::WRITABLE;
        spooling.poll.registry().register(stream, LINK, both)
    }

    /// Waits so long, or until the link is ready if that is asked for, and appends what comes
    /// meanwhile. Returns whether the link is ready.
    ///
    /// # Errors
    /// If the system failed, or there is no spool.
    pub(crate) fn wait(
        &self,
        rt: &HostRuntime,
        most: Duration,
        for_link: bool,
    ) -> io::Result<bool> {
        let start = Instant::now(rt)?;
        let piece = Duration::from_millis(BETWEEN_LOOKS);
        for _look in 0..u64::MAX {
            let left = most.saturating_sub(start.elapsed(rt)?);
            if !self.marks.look() || left <= piece {
                return self.wait_so_long(rt, left, for_link);
            }
            if self.wait_so_long(rt, piece, for_link)? {
                return Ok(true);
            }
        }
        Ok(false)
    }

    /// The same without a look for lines.
    ///
    /// # Errors
    /// If the system failed, or there is no spool.
    fn wait_so_long(&self, rt: &HostRuntime, most: Duration, for_link: bool) -> io::Result<bool> {
        let Ok(mut guard) = self.spooling.try_borrow_mut() else {
            return Err(io::Error::from(ErrorKind::Unsupported));
        };
        match guard.as_mut() {
            Some(spooling) => spooling.wait(rt, most, for_link),
            None => Err(io::Error::from(ErrorKind::Unsupported)),
        }
    }
}

/// Standard input, and the file at a path that it is appended to.
fn input_spool(rt: &HostRuntime, path: &str) -> io::Result<Spool<InputLink, SpoolFile<File>>> {
    let spool = Spool::new(rt.alloc(), InputLink::new(rt)?, SpoolFile::open(rt, path)?)?;
    Ok(spool)
}

/// A spool, and what its waits look at.
#[derive(Drop)]
struct Spooling {
    spool: Spool<InputLink, SpoolFile<File>>,
    poll: Poll,
    /// Room for the input and a link.
    events: Events,
    /// Whether the poll reports the input; it doesn't if that is a file.
    is_told: bool,
    /// Something was to be drawn already.
    is_drawn: bool,
}

impl Spooling {
    fn new(rt: &HostRuntime, path: &str) -> io::Result<Spooling> {
        let poll = Poll::new(rt)?;
        let is_told = watch_input(&poll)?;
        let spool = input_spool(rt, path)?;
        Ok(Spooling {
            spool,
            poll,
            events: Events::with_capacity(rt.alloc(), 2)?,
            is_told,
            is_drawn: false,
        })
    }

    /// Appends some of what has come. Returns whether there may be more now.
    fn draw(&mut self) -> bool {
        self.is_drawn = true;
        for _piece in 0..PIECES {
            if self.spool.draw() != Drawn::Bytes {
                return false;
            }
        }
        true
    }

    fn wait(&mut self, rt: &HostRuntime, most: Duration, for_link: bool) -> io::Result<bool> {
        let start = Instant::now(rt)?;
        for _wake in 0..u64::MAX {
            let left = most.saturating_sub(start.elapsed(rt)?);
            if self.wait_once(left)? && for_link {
                return Ok(true);
            }
            if left.is_zero() {
                return Ok(false);
            }
        }
        Ok(false)
    }

    /// Appends what has come, and waits until more comes or the link is ready. Returns whether that
    /// is.
    fn wait_once(&mut self, most: Duration) -> io::Result<bool> {
        let has_more = self.draw();
        if self.is_told && self.spool.state() == SpoolState::Open {
            watch_again(&self.poll)?;
        }
        let longest = if has_more { Duration::ZERO } else { most };
        self.poll.poll(&mut self.events, Some(longest))?;
        for event in self.events.iter() {
            if event.token() != INPUT_TOKEN {
                return Ok(true);
            }
        }
        Ok(false)
    }
}
