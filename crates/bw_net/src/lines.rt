//! The lines of a server: none of them waits for its reader.
ghost use Rattle.std.specs.Prelude.{◌≡◌, IfOk, string_bytes};
ghost use Rattle.bw_net.specs.SeenLinks.{is_short_of_handles, left_out_text};

use crate::faults::{FaultNotes, fault_line, is_fault};
use crate::left_out::LeftOutNotes;
use crate::room::Room;
use crate::stamping::write_logged;
use bw_operators::LogForm;
use bw_status::LeftOutName;
use bw_stream::{IoFailed, Sink, StdIo, write_all};
use std::alloc::{AllocError, Global};
use std::cell::{Cell, RefCell};
use std::io::{self, ErrorKind, Write};
use std::net::SocketAddr;
use std::os::fd::RawFd;

/// The descriptor of standard error.
const FAULTS: RawFd = 2;

/// What is said of a take of which a sync failed: the system may have dropped what it had of it, and
/// a new process reads what the system has.
const FAILED_SYNC: &str =
    "a sync of it or its journal failed; mount its file system anew, or restart the machine";

/// The error of a call that finds no handle left to the process.
const EMFILE: i32 = 24;

/// The same, to the system.
const ENFILE: i32 = 23;

/// Whether the lines of the process wait for their reader.
#[derive(Clone, Copy, Debug, PartialEq, Eq)]
enum LinePhase {
    /// They do: no server listens.
    Waiting,
    /// They do until the first of a server is written: what it listens at.
    Opening,
    /// They don't: a server works.
    Serving,
}

/// What the writers of the process's lines share. Once its server has said what it listens at, a line
/// that can't be written at once is left out, and counted: recorders don't wait for those who read
/// lines. The lines of all other commands wait, as the first ones of a server do.
///
/// No clause says what it holds.
#[derive(Drop)]
pub struct LineCell {
    phase: Cell<LinePhase>,
    /// How many lines were left out; it stays at 2^64 - 1.
    left_out: Cell<u64>,
    /// How many of standard output were since it was last said how many.
    unsaid_output: Cell<u64>,
    /// How many of standard error.
    unsaid_faults: Cell<u64>,
    /// Whether it was said that no handle is left.
    is_told: Cell<bool>,
    /// Reports which descriptors have room, once a server listens.
    room: RefCell<Option<Room>>,
    /// Which calls of the server's store failed.
    faults: FaultNotes,
    /// Which names the server leaves out.
    names: LeftOutNotes,
    /// Whether the last call of its store to begin a take failed.
    fails_to_begin: Cell<bool>,
    /// In which form what happens is reported, if it is: each line on standard error has its time then.
    log: Cell<Option<LogForm>>,
    /// The peer whose message was turned away last, and its name.
    refused: RefCell<Option<(SocketAddr, String)>>,
}

impl LineCell {
    /// Lines that wait.
    pub fn new() -> LineCell {
        LineCell {
            phase: Cell::new(LinePhase::Waiting),
            left_out: Cell::new(0),
            unsaid_output: Cell::new(0),
            unsaid_faults: Cell::new(0),
            is_told: Cell::new(false),
            room: RefCell::new(None),
            faults: FaultNotes::new(),
            names: LeftOutNotes::new(),
            fails_to_begin: Cell::new(false),
            log: Cell::new(None),
            refused: RefCell::new(None),
        }
    }

    /// A server is to listen: after the next line none waits. What failed before isn't said any more.
    ///
    /// # Errors
    /// If the system refuses what reports room.
    ///
    /// # Not specified
    /// When it does, and that lines are left out from then on.
    pub fn open(&self, rt: &HostRuntime) -> io::Result<()> {
        let _unsaid = self.faults.take();
        let room = Room::new(rt)?;
        if self.room.try_replace(Some(room)).is_err() {
            return Err(io::Error::from(ErrorKind::AlreadyExists));
        }
        self.phase.set(LinePhase::Opening);
        Ok(())
    }

    /// Chooses whether what happens from now on is reported, and in which form each line on standard error
    /// has its time.
    ///
    /// # Not specified
    /// Anything: it has no contract.
    pub fn log_events(&self, form: Option<LogForm>) {
        self.log.set(form);
    }

    /// Whether what happens is said.
    ///
    /// # Not specified
    /// Whether it is.
    pub(crate) fn logs(&self) -> bool {
        self.log.get().is_some()
    }

    /// Notes that a peer's message under this name was turned away. Returns whether the last one that was
    /// came from elsewhere, or under another name; so many in a row are said once.
    ///
    /// # Not specified
    /// Anything: it has no contract.
    pub(crate) fn note_refused(&self, alloc: Global, peer: SocketAddr, name: &str) -> bool {
        let is_same = match self.refused.try_borrow() {
            Ok(last) => is_refused_there(&last, peer, name),
            Err(_) => false,
        };
        if is_same {
            return false;
        }
        let copy = String::from_str(alloc, name).ok();
        let _ = self.refused.try_replace(copy.map(|name| (peer, name)));
        true
    }

    /// Says what happens in a line on standard error, if that is asked for. If memory was refused for the
    /// line, or it can't be written at once, it is left out and counted.
    ///
    /// # Not specified
    /// Anything: it has no contract.
    pub(crate) fn note_event(&self, rt: &HostRuntime, line: Result<Vec<u8>, AllocError>) {
        if !self.logs() {
            return;
        }
        let is_ready = self.say_left_out(rt, FAULTS, &mut StdIo::new(rt.stderr()));
        match line {
            Ok(line) if is_ready && self.has_room(FAULTS) => self.say(rt, &line),
            _ => self.leave_out(FAULTS),
        }
    }

    /// Writes a line on standard error, with its time if that is asked for.
    fn say(&self, rt: &HostRuntime, line: &[u8]) {
        let mut faults = StdIo::new(rt.stderr());
        let _ = self.write_line(rt, FAULTS, &mut faults, line);
    }

    /// Prints on standard error which call of a start failed first, if one did and no server listens.
    ///
    /// # Not specified
    /// Anything: it has no contract.
    pub fn report_start(&self, rt: &HostRuntime) {
        if let Some(line) = self.faults.take() {
            self.say(rt, line.as_bytes());
        }
    }

    /// A call of the store failed. Before a server listens the first one is kept; after that it is a line
    /// on standard error, once a minute at most.
    pub(crate) fn note_fault(&self, rt: &HostRuntime, path: &str, error: &io::Error) {
        if !is_fault(error.kind()) {
            return;
        }
        if self.phase.get() == LinePhase::Waiting {
            self.faults.keep(rt.alloc(), path, error);
            return;
        }
        if !self.faults.may_print(rt) || !self.has_room(FAULTS) {
            return;
        }
        if let Ok(line) = fault_line(rt.alloc(), path, error) {
            self.faults.printed(rt);
            self.say(rt, line.as_bytes());
        }
    }

    /// Says on standard error why a name of a folder is left out, and keeps it for operators. If the line
    /// can't be written at once, it is left out and counted.
    ///
    /// # Not specified
    /// Anything: it has no contract.
    pub(crate) fn note_fault_of_name(
        &self,
        rt: &HostRuntime,
        folder: &str,
        name: &str,
        cause: &str,
    ) {
        self.names.note(rt.alloc(), name, cause);
        if !self.has_room(FAULTS) {
            self.count_left_out();
            return;
        }
        let line = format!(in rt.alloc(); "{folder}/{name}.journal: {cause}, left out\n");
        if let Ok(line) = line {
            self.say(rt, line.as_bytes());
        }
    }

    /// Says on standard error that a sync failed of the take's file at a path, or of its journal. If
    /// the line can't be written at once, it is left out and counted.
    ///
    /// # Not specified
    /// Anything: it has no contract.
    pub(crate) fn note_failed_sync(&self, rt: &HostRuntime, path: &str) {
        if !self.has_room(FAULTS) {
            self.count_left_out();
            return;
        }
        if let Ok(line) = format!(in rt.alloc(); "{path}: {FAILED_SYNC}\n") {
            self.say(rt, line.as_bytes());
        }
    }

    /// A call to begin a take succeeded, or failed.
    ///
    /// # Not specified
    /// Anything: it has no contract.
    pub(crate) fn note_beginning(&self, fails: bool) {
        self.fails_to_begin.set(fails);
    }

    /// Whether the last call to begin a take succeeded; true before the first.
    ///
    /// # Not specified
    /// Whether it did.
    pub(crate) fn begins(&self) -> bool {
        !self.fails_to_begin.get()
    }

    /// A name is served.
    ///
    /// # Not specified
    /// Anything: it has no contract.
    pub(crate) fn note_served(&self, name: &str) {
        self.names.forget(name);
    }

    /// The names that are left out.
    ///
    /// # Errors
    /// `AllocError` if memory was refused.
    ///
    /// # Not specified
    /// Which names these are, and when memory is refused.
    pub(crate) fn names_left_out(&self, alloc: Global) -> Result<Vec<LeftOutName>, AllocError> {
        self.names.list(alloc)
    }

    /// How many lines were left out.
    ///
    /// # Not specified
    /// How many these are.
    pub(crate) fn left_out(&self) -> u64 {
        self.left_out.get()
    }

    /// Says once, on standard error, that nobody more can connect, if this is why.
    ///
    /// # Not specified
    /// Anything: it has no contract.
    pub(crate) fn note(&self, rt: &HostRuntime, error: &io::Error) {
        if !is_short_of_handles(error.raw_os_error()) || self.is_told.get() {
            return;
        }
        if !self.has_room(FAULTS) {
            return;
        }
        if let Ok(line) = format!(in rt.alloc(); "nobody more can connect: {error}\n") {
            self.is_told.set(true);
            self.say(rt, line.as_bytes());
        }
    }

    /// A line was written.
    pub(crate) fn wrote(&self) {
        if self.phase.get() == LinePhase::Opening {
            self.phase.set(LinePhase::Serving);
        }
    }

    /// Whether no line waits any more.
    pub(crate) fn is_serving(&self) -> bool {
        self.phase.get() == LinePhase::Serving
    }

    /// Counts a line of a descriptor that is left out, and of which it is to be said.
    pub(crate) fn leave_out(&self, fd: RawFd) {
        let unsaid = self.unsaid(fd);
        unsaid.set(unsaid.get().saturating_add(1));
        self.count_left_out();
    }

    /// Counts a line that is left out.
    fn count_left_out(&self) {
        self.left_out.set(self.left_out.get().saturating_add(1));
    }

    /// How many lines of a descriptor were left out since it was last said how many.
    fn unsaid(&self, fd: RawFd) -> &Cell<u64> {
        if fd == FAULTS {
            &self.unsaid_faults
        } else {
            &self.unsaid_output
        }
    }

    /// In which form the lines of a descriptor have their time, if they have it.
    pub(crate) fn form_of(&self, fd: RawFd) -> Option<LogForm> {
        if fd == FAULTS { self.log.get() } else { None }
    }

    /// Writes a line of a descriptor, with its time if that is asked for.
    fn write_line<W: Sink>(
        &self,
        rt: &HostRuntime,
        fd: RawFd,
        writer: &mut W,
        line: &[u8],
    ) -> Result<(), IoFailed> {
        match self.form_of(fd) {
            Some(form) => write_logged(rt, form, writer, line),
            None => write_all(writer, line),
        }
    }

    /// Says how many lines of a descriptor were left out, if any were and there is room. Whether it is
    /// said of all of them.
    pub(crate) fn say_left_out<W: Write>(
        &self,
        rt: &HostRuntime,
        fd: RawFd,
        writer: &mut StdIo<W>,
    ) -> bool {
        let count = self.unsaid(fd).get();
        if count == 0 {
            return true;
        }
        if !self.has_room(fd) {
            return false;
        }
        let Ok(line) = left_out_line(rt.alloc(), count) else {
            return false;
        };
        if self.write_line(rt, fd, writer, line.as_bytes()).is_err() {
            return false;
        }
        self.unsaid(fd).set(0);
        true
    }

    /// Whether a piece can be written at once.
    pub(crate) fn has_room(&self, fd: RawFd) -> bool {
        let Ok(mut guard) = self.room.try_borrow_mut() else {
            return true;
        };
        match guard.as_mut() {
            Some(room) => room.is_at(fd),
            None => true,
        }
    }
}

/// Whether a call failed since no handle was left.
fn is_short_of_handles(code: Option<i32>) -> bool
    ensures { result ≡ is_short_of_handles code }
{
    match code {
        Some(code) => code == EMFILE || code == ENFILE,
        None => false,
    }
}

/// The line that says how many were left out.
fn left_out_line(alloc: Global, count: u64) -> Result<String, AllocError>
    ensures { IfOk result (λ line. string_bytes line ≡ left_out_text count) }
{
    format!(in alloc; "left out {count} lines\n")
}

/// Whether this peer's message under this name was the last that was turned away.
fn is_refused_there(last: &Option<(SocketAddr, String)>, peer: SocketAddr, name: &str) -> bool {
    match last {
        Some((address, refused)) => *address == peer && refused.as_str() == name,
        None => false,
    }
}
