//! A reader of a file's sections.
ghost use Rattle.std.specs.Prelude.{◌≡◌, Some};
ghost use Rattle.bw_stream.specs.Readers.{Of};
ghost use Rattle.bw_repair.specs.SectionBytes.{assembled};

use crate::left_out::section::Section;
use crate::left_out::sections::Sections;
use bw_stream::{IoFailed, Source};

/// Reads what sections of a file are one after the other.
#[derive(Drop)]
pub(crate) struct SectionReader<'a, R> {
    sections: Sections<'a, R>,
    /// How many bytes were read; the count stays at 2^64 - 1.
    moved: u64,
    /// How many calls there were; the count stays at 2^64 - 1.
    calls: u64,
    /// How many calls failed; the count stays at 2^64 - 1.
    failures: u64,
}

impl<'a, R: Source> SectionReader<'a, R> {
    /// These sections of a file whose reader is at its start.
    pub(crate) fn new(inner: R, sections: &'a [Section]) -> SectionReader<'a, R>
        ensures { Of (R.left inner) (λ b.
            ⟦<SectionReader<'a, R> as Source>⟧.left result ≡ Some (assembled sections.now b)) }
    {
        SectionReader {
            sections: Sections::new(inner, sections),
            moved: 0,
            calls: 0,
            failures: 0,
        }
    }
}

impl<R: Source> Source for SectionReader<'_, R> {
    ghost use Rattle.bw_repair.specs.SectionBytes.{calls_of, section_failures, moved_of, reader_of, to_come};

    ghost left = { λ s. to_come s (R.left (reader_of s)) };

    ghost moved = { moved_of };

    ghost calls = { calls_of };

    ghost failures = { section_failures };

    fn read(&mut self, buf: &mut [u8]) -> Result<usize, IoFailed> {
        self.calls = self.calls.saturating_add(1);
        let Ok(count) = self.sections.read(buf) else {
            self.failures = self.failures.saturating_add(1);
            return Err(IoFailed);
        };
        self.moved = self.moved.saturating_add(count as u64);
        Ok(count)
    }
}
