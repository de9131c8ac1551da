//! A file that another program is still writing.
ghost use Rattle.std.specs.Prelude.{◌≡◌, IfOk, false};

use crate::counting::counted;
use crate::kinds::kind_of;
use crate::meaning::ended;
use crate::spool::SpoolCell;
use bw_ports::{FileKind, Followed, SpoolState};
use bw_stream::IoFailed;
use std::fs::{self, File};
use std::io::{self, ErrorKind, Read, Seek, SeekFrom};
use std::thread;
use std::time::Duration;

/// How often a file that isn't there yet is looked for again: a recorder that is started at the
/// same time makes it a moment later.
const LOOKS: u32 = 50;

/// The milliseconds between two such looks.
const BETWEEN_LOOKS: u64 = 100;

/// What says that all of a file is written.
#[derive(Drop)]
enum Ending<'a> {
    /// A file at this path.
    Path(String),
    /// The end of standard input, which goes into this spool.
    Input(&'a SpoolCell),
    /// A file at this path, if there is one: each look waits a moment.
    Waiting(Option<String>),
}

/// A file that another program writes until a file is at a path, or that standard input is
/// appended to until its end. What is to come is what its reader has, where that reports it: of a
/// file no clause of std does.
#[derive(Drop)]
pub struct FollowedFile<'a, R> {
    rt: &'a HostRuntime,
    file: R,
    ending: Ending<'a>,
    has_ended: bool,
    failures: u64,
}

impl<'a> FollowedFile<'a, File> {
    /// The file at a path, after its first `skip` bytes. One that isn't there yet is waited for, up
    /// to five seconds, unless the recording has ended.
    pub(crate) fn open(
        rt: &'a HostRuntime,
        path: &str,
        skip: u64,
        until: &str,
    ) -> io::Result<FollowedFile<'a, File>>
        ensures { IfOk result (λ file. (file.has_ended ≡ false) × (file.failures ≡ 0)) }
    {
        let until = String::from_str(rt.alloc(), until)?;
        let mut file = open_once_made(rt, path, Some(until.as_str()))?;
        file.seek(SeekFrom::Start(skip))?;
        Ok(FollowedFile {
            rt,
            file,
            ending: Ending::Path(until),
            has_ended: false,
            failures: 0,
        })
    }

    /// The file at a path, at its start, until its header is read. Each look whether the recording has
    /// ended waits a moment. A file that isn't there yet is waited for as `open` does.
    pub(crate) fn header(
        rt: &'a HostRuntime,
        path: &str,
        until: Option<&str>,
    ) -> io::Result<FollowedFile<'a, File>>
        ensures { IfOk result (λ file. (file.has_ended ≡ false) × (file.failures ≡ 0)) }
    {
        let file = open_once_made(rt, path, until)?;
        let until = match until {
            Some(until) => Some(String::from_str(rt.alloc(), until)?),
            None => None,
        };
        Ok(FollowedFile {
            rt,
            file,
            ending: Ending::Waiting(until),
            has_ended: false,
            failures: 0,
        })
    }

    /// The file at a path, after its first `skip` bytes, to which standard input is appended from
    /// now on. It is made if it isn't there.
    pub(crate) fn spool(
        rt: &'a HostRuntime,
        path: &str,
        skip: u64,
        spool: &'a SpoolCell,
    ) -> io::Result<FollowedFile<'a, File>>
        ensures { IfOk result (λ file. (file.has_ended ≡ false) × (file.failures ≡ 0)) }
    {
        spool.begin(rt, path)?;
        let mut file = File::open(rt, path)?;
        file.seek(SeekFrom::Start(skip))?;
        Ok(FollowedFile {
            rt,
            file,
            ending: Ending::Input(spool),
            has_ended: false,
            failures: 0,
        })
    }
}

impl<R> FollowedFile<'_, R> {
    /// Whether all is written, as far as that is known now.
    fn looks_ended(&self) -> io::Result<bool> {
        match &self.ending {
            Ending::Path(until) => fs::exists(self.rt, until.as_str()),
            Ending::Input(spool) => Ok(spool.draw() == Some(SpoolState::Ended)),
            Ending::Waiting(until) => {
                thread::sleep(self.rt, Duration::from_millis(BETWEEN_LOOKS));
                match until {
                    Some(until) => fs::exists(self.rt, until.as_str()),
                    None => Ok(false),
                }
            }
        }
    }

    /// Whether what is still to come is lost, since the spool failed.
    fn is_broken(&self) -> bool {
        match &self.ending {
            Ending::Path(_until) => false,
            Ending::Input(spool) => spool.draw() == Some(SpoolState::Failed),
            Ending::Waiting(_until) => false,
        }
    }
}

/// Opens the file at a path, once it is there.
fn open_once_made(rt: &HostRuntime, path: &str, until: Option<&str>) -> io::Result<File> {
    for _look in 0..LOOKS {
        match open_file(rt, path) {
            Ok(file) => return Ok(file),
            Err(error) => {
                if error.kind() != ErrorKind::NotFound || is_made(rt, until)? {
                    return Err(error);
                }
            }
        }
        thread::sleep(rt, Duration::from_millis(BETWEEN_LOOKS));
    }
    open_file(rt, path)
}

/// Whether a file is at a path, if there is one.
fn is_made(rt: &HostRuntime, path: Option<&str>) -> io::Result<bool> {
    match path {
        Some(path) => fs::exists(rt, path),
        None => Ok(false),
    }
}

/// The file at a path. A pipe, which may have been made meanwhile, isn't waited for.
fn open_file(rt: &HostRuntime, path: &str) -> io::Result<File> {
    match kind_of(&fs::metadata(rt, path)?) {
        FileKind::Pipe => Err(io::Error::new(ErrorKind::InvalidInput, "it is a pipe")),
        _ => File::open(rt, path),
    }
}

impl<R: Read> Followed for FollowedFile<'_, R> {
    ghost use Rattle.bw_net.specs.SeenFiles.{followed_failures, followed_has_ended, followed_reader};

    ghost to_come = { λ f. R.remaining (followed_reader f) };

    ghost is_complete = { followed_has_ended };

    ghost failures = { followed_failures };

    fn has_ended(&mut self) -> io::Result<bool> {
        let ended = ended(self.has_ended, self.looks_ended());
        if let Ok(is_known) = &ended {
            self.has_ended = *is_known;
        }
        counted(ended, &mut self.failures)
    }

    fn read_more(&mut self, buf: &mut [u8]) -> Result<usize, IoFailed> {
        let room = buf.len();
        let Ok(count) = self.file.read(buf) else {
            self.failures = self.failures.saturating_add(1);
            return Err(IoFailed);
        };
        if count == 0 && room > 0 && self.is_broken() {
            self.failures = self.failures.saturating_add(1);
            return Err(IoFailed);
        }
        Ok(count)
    }
}
