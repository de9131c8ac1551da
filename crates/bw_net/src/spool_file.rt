//! The file of a spool, by the calls of std.
ghost use Rattle.std.specs.Prelude.{◌≡◌, true};
ghost use Rattle.std.specs.Io.{WritesAtMost};
ghost use Rattle.std.specs.Io.KnownBytes.{WriteAppends};

use bw_stream::{IoFailed, Sink, StdIo, write_all};
use std::alloc::Global;
use std::fs::{File, OpenOptions};
use std::io::{self, Stderr, Write};

/// A file that is appended to, or another writer of std. Why it fails is reported in a line on
/// standard error, since the reader of the file learns only that it fails. It holds what the writer
/// says of itself, which is nothing of a file.
#[derive(Drop)]
pub struct SpoolFile<W> {
    alloc: Global,
    file: W,
    faults: StdIo<Stderr>,
    failures: u64,
}

impl SpoolFile<File> {
    /// The file at a path, which is made if it isn't there.
    pub(crate) fn open(rt: &HostRuntime, path: &str) -> io::Result<SpoolFile<File>> {
        let file = OpenOptions::new().append(true).create(true).open(rt, path)?;
        Ok(SpoolFile {
            alloc: rt.alloc(),
            file,
            faults: StdIo::new(rt.stderr()),
            failures: 0,
        })
    }
}

impl<W: Write> SpoolFile<W> {
    /// Writes with one call of the writer, and reports why it fails.
    fn write_once(&mut self, bytes: &[u8]) -> io::Result<usize>
        ensures within { WritesAtMost result bytes.now }
        ensures bytes { WriteAppends (W.contents self.old.file) (W.contents self.new.file) result bytes.now }
        ensures kept { self.new.failures ≡ self.old.failures }
    {
        let written = self.file.write(bytes);
        if let Err(error) = &written {
            report(self.alloc, &mut self.faults, error);
        }
        written
    }
}

/// A line that says why the spool can't be written.
fn report(alloc: Global, faults: &mut StdIo<Stderr>, error: &io::Error) {
    if let Ok(line) = format!(in alloc; "send: the spool can't be written: {error}\n") {
        let _gone = write_all(faults, line.as_bytes());
    }
}

impl<W: Write> Sink for SpoolFile<W> {
    ghost use Rattle.bw_net.specs.SeenFiles.{spool_failures, spool_writer};

    ghost written = { λ f. W.contents (spool_writer f) };

    ghost failures = { spool_failures };

    ghost is_flushed = { λ f. true };

    fn write(&mut self, bytes: &[u8]) -> Result<usize, IoFailed> {
        match self.write_once(bytes) {
            Ok(count) if count > 0 || bytes.is_empty() => Ok(count),
            _ => {
                self.failures = self.failures.saturating_add(1);
                Err(IoFailed)
            }
        }
    }

    fn flush(&mut self) -> Result<(), IoFailed> {
        Ok(())
    }
}
