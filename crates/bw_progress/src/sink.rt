//! A writer beside the line of an upload.
use crate::screen::ProgressLine;
use bw_stream::{IoFailed, Sink};

/// A writer that clears a line before each write, so that what it writes is alone on its line. What
/// is written is what its own writer gets.
#[derive(Drop)]
pub struct ClearingSink<W, L> {
    /// Takes the bytes.
    pub inner: W,
    /// Is cleared.
    pub line: L,
}

impl<W: Sink, L: ProgressLine> Sink for ClearingSink<W, L> {
    ghost written = { λ s. W.written s.inner };

    ghost failures = { λ s. W.failures s.inner };

    ghost is_flushed = { λ s. W.is_flushed s.inner };

    fn write(&mut self, bytes: &[u8]) -> Result<usize, IoFailed> {
        self.line.clear();
        self.inner.write(bytes)
    }

    fn flush(&mut self) -> Result<(), IoFailed> {
        self.inner.flush()
    }
}
