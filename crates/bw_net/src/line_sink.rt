//! Writers of a server's lines, which don't wait for their reader.
ghost use Rattle.std.specs.Prelude.{◌≡◌, ◌<◌, ◌≤◌, length, None, IfOk};

use crate::counting::counted;
use crate::lines::LineCell;
use crate::stamping::{STAMP, write_logged};
use bw_operators::LogForm;
use bw_stream::{IoFailed, Sink, StdIo};
use std::io::Write;
use std::os::fd::{AsRawFd, RawFd};

/// The most bytes of a write: a pipe that is reported ready has room for as many.
const PIECE: usize = 4_096;

/// Standard output or standard error, for lines. Where these don't wait any more, one that can't be
/// written at once is left out, which is a failure of this writer; before the next one that can, it
/// says how many were. With a log each line on standard error has its time.
///
/// It doesn't report what is written, since no clause of std says what a reader gets.
#[derive(Drop)]
pub struct LineSink<'a, W> {
    rt: HostRuntime,
    lines: &'a LineCell,
    inner: StdIo<W>,
    fd: RawFd,
    /// Whether the next byte begins a line.
    is_fresh: bool,
    failures: u64,
}

impl<'a, W: Write + AsRawFd + Drop> LineSink<'a, W> {
    ghost use Rattle.bw_net.specs.SeenLinks.{lines_failures};

    /// This writer, which has not failed yet.
    ///
    /// # Not specified
    /// What it writes, and when.
    pub fn new(rt: HostRuntime, lines: &'a LineCell, writer: W) -> LineSink<'a, W>
        ensures { lines_failures result ≡ 0 }
    {
        let fd = writer.as_raw_fd();
        LineSink {
            rt,
            lines,
            inner: StdIo::new(writer),
            fd,
            is_fresh: true,
            failures: 0,
        }
    }

    /// Writes a piece, at once if lines don't wait any more.
    fn write_piece(&mut self, bytes: &[u8]) -> Result<usize, IoFailed>
        ensures within { IfOk result (λ n. n ≤ length bytes.now) }
        ensures some { IfOk result (λ n. 0 < length bytes.now → 0 < n) }
        ensures failures { self.new.failures ≡ self.old.failures }
    {
        if !self.lines.is_serving() {
            return self.write_part(bytes);
        }
        let (lines, fd) = (self.lines, self.fd);
        if !lines.say_left_out(&self.rt, fd, &mut self.inner) || !lines.has_room(fd) {
            lines.leave_out(fd);
            return Err(IoFailed);
        }
        let most = bytes.len().min(PIECE - STAMP);
        self.write_part(&bytes[..most])
    }

    /// Writes a part of a line; with a log, its time before the first part, or as objects of JSON.
    fn write_part(&mut self, bytes: &[u8]) -> Result<usize, IoFailed>
        ensures within { IfOk result (λ n. n ≤ length bytes.now) }
        ensures some { IfOk result (λ n. 0 < length bytes.now → 0 < n) }
        ensures failures { self.new.failures ≡ self.old.failures }
    {
        let Some(form) = self.lines.form_of(self.fd) else {
            return self.inner.write(bytes);
        };
        let part = &bytes[..line_end(bytes)];
        let count = if self.is_fresh || form == LogForm::Json {
            write_logged(&self.rt, form, &mut self.inner, part)?;
            part.len()
        } else {
            self.inner.write(part)?
        };
        self.is_fresh = bytes[..count].ends_with(b"\n");
        Ok(count)
    }
}

impl<W: Write + AsRawFd + Drop> Sink for LineSink<'_, W> {
    ghost use Rattle.bw_net.specs.SeenLinks.{lines_failures, lines_flushed};

    ghost written = { λ _. None };

    ghost failures = { lines_failures };

    ghost is_flushed = { lines_flushed };

    fn write(&mut self, bytes: &[u8]) -> Result<usize, IoFailed> {
        let given = self.write_piece(bytes);
        // what comes after a failure is another line
        self.is_fresh |= given.is_err();
        counted(given, &mut self.failures)
    }

    fn flush(&mut self) -> Result<(), IoFailed> {
        self.lines.wrote();
        let given = self.inner.flush();
        counted(given, &mut self.failures)
    }
}

/// How many bytes there are to the end of the first line, with its line feed.
fn line_end(bytes: &[u8]) -> usize
    ensures within { result ≤ length bytes.now }
    ensures some { 0 < length bytes.now → 0 < result }
{
    let before = bytes.iter().take_while(|byte| **byte != b'\n').count();
    (before + 1).min(bytes.len())
}
