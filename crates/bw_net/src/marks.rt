//! The markers of this process's recording, and the files that they are kept in.
ghost use Rattle.std.specs.Prelude.{None};

use crate::counting::counted;
use crate::kinds::kind_of;
use crate::recordings::HostRecordings;
use crate::spool::SpoolCell;
use bw_live::{CuePoint, MarkFiles, MarkKeeper, MarkPlace, Marker, Marking};
use bw_ports::FileKind;
use bw_stream::StdIo;
use std::cell::RefCell;
use std::fs::{self, File, OpenOptions};
use std::io::{self, ErrorKind, Read, Stderr, Write};

/// What places the markers of the process's recording, if any are placed. All parts of a sender that
/// wait share it, and look for lines while they do: so a marker's place doesn't depend on the link.
///
/// No clause says what it holds. What lines become is proved of `bw_live::MarkKeeper` over all files.
#[derive(Drop)]
pub(crate) struct MarkCell {
    keeper: RefCell<Option<MarkKeeper<HostMarkFiles, StdIo<Stderr>>>>,
}

impl MarkCell {
    /// No markers are placed yet.
    pub(crate) fn new() -> MarkCell {
        MarkCell {
            keeper: RefCell::new(None),
        }
    }

    /// Begins to place markers.
    ///
    /// # Errors
    /// If the system failed, another recording's markers are kept, or some are placed already.
    fn begin(&self, rt: &HostRuntime, place: &MarkPlace<'_>) -> io::Result<()> {
        let files = HostMarkFiles { rt: *rt };
        let keeper = MarkKeeper::new(rt.alloc(), files, StdIo::new(rt.stderr()), place)?;
        match self.keeper.try_replace(Some(keeper)) {
            Ok(None) => Ok(()),
            _ => Err(io::Error::from(ErrorKind::AlreadyExists)),
        }
    }

    /// Places the markers of new lines; a failed look is reported once. Returns whether any are placed.
    pub(crate) fn look(&self) -> bool {
        let Ok(mut guard) = self.keeper.try_borrow_mut() else {
            return false;
        };
        let Some(keeper) = guard.as_mut() else {
            return false;
        };
        if let Err(error) = keeper.look() {
            keeper.report(&error);
        }
        true
    }

    /// All markers; no more are placed.
    ///
    /// # Errors
    /// If the system failed.
    fn end(&self) -> io::Result<Vec<CuePoint>> {
        let Ok(mut guard) = self.keeper.try_borrow_mut() else {
            return Err(io::Error::from(ErrorKind::Unsupported));
        };
        match guard.as_mut() {
            Some(keeper) => keeper.end(),
            None => Err(io::Error::from(ErrorKind::Unsupported)),
        }
    }
}

/// Places the markers of the process's recording.
#[derive(Drop)]
pub struct HostMarker<'a> {
    spool: &'a SpoolCell,
}

impl Marker for HostMarker<'_> {
    ghost points = { λ m. None };

    fn look(&mut self) {
        let _any = self.spool.marks.look();
    }

    fn end(&mut self) -> io::Result<Vec<CuePoint>> {
        self.spool.marks.end()
    }
}

impl<'a> Marking for HostRecordings<'a> {
    type Marker = HostMarker<'a>;

    ghost points_at = { λ s recording marks. None };

    fn marker(&mut self, place: &MarkPlace<'_>) -> io::Result<HostMarker<'a>> {
        let begun = self.spool.marks.begin(self.rt, place);
        counted(begun, &mut self.failures)?;
        Ok(HostMarker { spool: self.spool })
    }
}

/// The files of markers on this machine. It reports no bytes, since no clause of std says what a file
/// holds.
#[derive(Drop)]
struct HostMarkFiles {
    rt: HostRuntime,
}

impl MarkFiles for HostMarkFiles {
    ghost bytes_at = { λ s path. None };

    fn read(&mut self, path: &str, most: usize) -> io::Result<Vec<u8>> {
        read_file(&self.rt, path, most)
    }

    fn len(&mut self, path: &str) -> io::Result<u64> {
        Ok(fs::metadata(&self.rt, path)?.len())
    }

    fn append(&mut self, path: &str, bytes: &[u8]) -> io::Result<()> {
        let mut file = at_the_end().open(&self.rt, path)?;
        file.write_all(bytes)?;
        file.sync_data()
    }
}

/// How the file of places is opened: made if it isn't there, and written at its end.
fn at_the_end() -> OpenOptions {
    let mut options = OpenOptions::new();
    options.append(true).create(true);
    options
}

/// The first bytes of the file at a path; none where there is no file. A pipe isn't waited for.
fn read_file(rt: &HostRuntime, path: &str, most: usize) -> io::Result<Vec<u8>> {
    let mut bytes = Vec::new(rt.alloc());
    match fs::metadata(rt, path) {
        Ok(found) if kind_of(&found) == FileKind::Pipe => {
            return Err(io::Error::new(ErrorKind::InvalidInput, "the file of marks is a pipe"));
        }
        Ok(_) => {}
        Err(error) if error.kind() == ErrorKind::NotFound => return Ok(bytes),
        Err(error) => return Err(error),
    }
    File::open(rt, path)?
        .take(most as u64)
        .read_to_end(&mut bytes)?;
    Ok(bytes)
}
