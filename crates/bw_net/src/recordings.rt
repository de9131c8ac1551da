//! The files of recordings, by the calls of std.
ghost use Rattle.std.specs.Prelude.{◌≡◌, ◌+◌, ◌*◌, ◌-◌, ◌^◌, min, None};

use crate::counting::counted;
use crate::followed::FollowedFile;
use crate::followed_wave::FollowedWave;
use crate::growing::GrowingInput;
use crate::host::open_source;
use crate::kinds::kind_of;
use crate::spool::SpoolCell;
use crate::states::HostStates;
use crate::stopwatch::ClockStopwatch;
use bw_live::GrowingFiles;
use bw_ports::{FileKind, FileKinds, FileStamp, RecordingFiles, Stamped, StateKeeping};
use bw_stream::SeekSource;
use std::alloc::AllocError;
use std::fs::{self, File};
use std::io;
use std::os::unix::fs::MetadataExt;

/// The files of recordings on this machine. It reports neither their bytes nor their stamps, since
/// no clause of std says what they are.
#[derive(Drop)]
pub struct HostRecordings<'a> {
    pub(crate) rt: &'a HostRuntime,
    /// Takes standard input where that is followed.
    pub(crate) spool: &'a SpoolCell,
    pub(crate) failures: u64,
}

impl<'a> HostRecordings<'a> {
    ghost use Rattle.bw_net.specs.SeenFiles.{recordings_failures};

    /// The files of this runtime's system, which has not failed yet. Standard input goes into this
    /// spool, where it is followed.
    ///
    /// # Not specified
    /// What the files hold, and when they were changed: no clause of std says it.
    pub fn new(rt: &'a HostRuntime, spool: &'a SpoolCell) -> HostRecordings<'a>
        ensures { recordings_failures result ≡ 0 }
    {
        HostRecordings {
            rt,
            spool,
            failures: 0,
        }
    }
}

impl<'a> RecordingFiles for HostRecordings<'a> {
    ghost use Rattle.bw_net.specs.SeenFiles.{recordings_failures};

    type File = SeekSource<File>;

    type Growing = GrowingInput<'a>;

    type Stamped = StampedFile<'a>;

    ghost file_at = { λ s path. None };

    ghost stamp_at = { λ s path. None };

    ghost failures = { recordings_failures };

    fn open(&mut self, path: &str) -> io::Result<SeekSource<File>> {
        counted(open_source(self.rt, path), &mut self.failures)
    }

    fn follow(
        &mut self,
        path: &str,
        skip: u64,
        until: Option<&str>,
    ) -> io::Result<GrowingInput<'a>> {
        let followed = match until {
            Some(until) => FollowedFile::open(self.rt, path, skip, until),
            None => FollowedFile::spool(self.rt, path, skip, self.spool),
        };
        match counted(followed, &mut self.failures) {
            Ok(file) => Ok(GrowingInput::Bytes(file)),
            Err(error) => Err(error),
        }
    }

    fn stamp(&mut self, path: &str) -> io::Result<FileStamp> {
        counted(stamp_of(self.rt, path), &mut self.failures)
    }

    fn stamped(&mut self, path: &str) -> Result<StampedFile<'a>, AllocError> {
        let path = String::from_str(self.rt.alloc(), path)?;
        Ok(StampedFile {
            rt: self.rt,
            path,
            failures: 0,
        })
    }
}

impl<'a> GrowingFiles for HostRecordings<'a> {
    fn follow_header(&mut self, path: &str, until: Option<&str>) -> io::Result<GrowingInput<'a>> {
        let followed = FollowedFile::header(self.rt, path, until);
        match counted(followed, &mut self.failures) {
            Ok(file) => Ok(GrowingInput::Bytes(file)),
            Err(error) => Err(error),
        }
    }

    fn follow_data(
        &mut self,
        path: &str,
        place: u64,
        until: Option<&str>,
    ) -> io::Result<GrowingInput<'a>> {
        let followed = FollowedWave::open(self.rt, path, place, until);
        match counted(followed, &mut self.failures) {
            Ok(file) => Ok(GrowingInput::Wave(file)),
            Err(error) => Err(error),
        }
    }
}

/// It reports no kinds beforehand, since no clause of std says what is at a path.
impl FileKinds for HostRecordings<'_> {
    ghost kinds = { λ s path kind. Unit {0} };

    fn kind_at(&self, path: &str) -> FileKind {
        match fs::metadata(self.rt, path) {
            Ok(found) => kind_of(&found),
            Err(_) => FileKind::Unknown,
        }
    }
}

impl<'a> StateKeeping for HostRecordings<'a> {
    type States = HostStates<'a>;

    type Watch = ClockStopwatch<&'a HostRuntime>;

    ghost kept_at = { λ s path. None };

    fn states(&self) -> HostStates<'a> {
        HostStates::new(self.rt)
    }

    fn stopwatch(&self) -> ClockStopwatch<&'a HostRuntime> {
        ClockStopwatch::new(self.rt)
    }
}

/// A file of this machine that is looked at again. It reports no stamp beforehand, since no clause
/// of std says when a file was changed.
#[derive(Drop)]
pub struct StampedFile<'a> {
    rt: &'a HostRuntime,
    path: String,
    failures: u64,
}

impl Stamped for StampedFile<'_> {
    ghost use Rattle.bw_net.specs.SeenFiles.{stamped_failures};

    ghost stamp_of = { λ s. None };

    ghost failures = { stamped_failures };

    fn stamp(&mut self) -> io::Result<FileStamp> {
        counted(stamp_of(self.rt, self.path.as_str()), &mut self.failures)
    }
}

/// The stamp of the file at a path. A pipe and a device have a length of 0.
fn stamp_of(rt: &HostRuntime, path: &str) -> io::Result<FileStamp> {
    let found = fs::metadata(rt, path)?;
    Ok(FileStamp {
        len: found.len(),
        changed: changed_at(found.mtime(), found.mtime_nsec()),
    })
}

/// A time of so many seconds since the start of 1970 (UTC) and nanoseconds after these, in
/// nanoseconds; 0 for a time before: that is no fault.
fn changed_at(seconds: i64, nanos: i64) -> u64 {
    match (u64::try_from(seconds), u64::try_from(nanos)) {
        (Ok(seconds), Ok(nanos)) => nanos_after(seconds, nanos),
        _ => 0,
    }
}

/// So many seconds and nanoseconds, in nanoseconds; 2^64 - 1 if they are more.
fn nanos_after(seconds: u64, nanos: u64) -> u64
    ensures { result ≡ min (min (seconds * 1_000_000_000) (2 ^ 64 - 1) + nanos) (2 ^ 64 - 1) }
{
    seconds.saturating_mul(1_000_000_000).saturating_add(nanos)
}
