//! A stream whose failed calls are noted.
ghost use Rattle.std.specs.Prelude.{◌≡◌};

use bw_console::{CauseCell, cause_of};
use std::io::{self, Read, Write};

/// A stream to a server that notes why a call of it failed. No clause says which bytes it gives and
/// takes, nor what is noted.
#[derive(Drop)]
pub struct NotedStream<'a, S> {
    pub(crate) stream: S,
    pub(crate) causes: &'a CauseCell,
}

/// What a call gave. If it failed, why is noted.
pub(crate) fn noted<T>(given: io::Result<T>, causes: &CauseCell) -> io::Result<T>
    ensures { result ≡ given }
{
    if let Err(error) = &given {
        causes.note(Some(cause_of(error.kind())));
    }
    given
}

impl<S: Read> Read for NotedStream<'_, S> {
    fn read(&mut self, buf: &mut [u8]) -> io::Result<usize> {
        noted(self.stream.read(buf), self.causes)
    }
}

impl<S: Write> Write for NotedStream<'_, S> {
    fn write(&mut self, buf: &[u8]) -> io::Result<usize> {
        noted(self.stream.write(buf), self.causes)
    }

    fn flush(&mut self) -> io::Result<()> {
        self.stream.flush()
    }
}
