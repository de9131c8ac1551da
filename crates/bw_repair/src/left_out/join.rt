//! The chunks of one file are joined to a take.
ghost use Rattle.std.specs.Prelude.{◌≡◌};
ghost use Rattle.bw_console.specs.Prints.{failures_if};
ghost use Rattle.bw_stream.specs.Readers.{Of};
ghost use Rattle.bw_repair.specs.JoinFaults.{AreJoined, EndsJoin, is_each_opened};

use crate::left_out::printing::{PrintFault, print_both};
use crate::left_out::reading::read_report;
use crate::left_out::section::Section;
use crate::left_out::section_reader::SectionReader;
use crate::left_out::take::join_sections;
use crate::{ConvertError, ConvertFault};
use bw_ports::RecordingFiles;
use bw_stream::Sink;
use std::alloc::Global;
use std::io;

/// Why the take isn't printed with the chunks.
#[derive(Drop)]
pub(crate) enum JoinError {
    /// The system can't open the take.
    TakeUnopened(io::Error),
    /// The system can't open the file with the chunks.
    LeftUnopened(io::Error),
    /// A file has this fault, or the chunks don't fit: nothing is printed.
    Refused(ConvertFault),
    /// A read failed, after so many bytes of a file.
    Stopped(u64),
    /// The writer failed.
    Unwritable,
}

/// Prints the take at a path, and after its own chunks those of the file at `left` that no take
/// carries. Each file is opened twice.
///
/// # Errors
/// `JoinError`.
pub(crate) fn join<F: RecordingFiles, W: Sink>(
    alloc: Global,
    files: &mut F,
    take: &str,
    left: &str,
    out: &mut W,
) -> Result<(), JoinError>
    ensures ends { EndsJoin W.Sink (F.file_at files.old take.now) (F.file_at files.old left.now) result
        out.old out.new }
    ensures count { F.failures files.new ≡ failures_if (is_each_opened result) (F.failures files.old) }
{
    let take_report = match read_report(alloc, files, take) {
        Ok(report) => report,
        Err(ConvertError::Unopened(error)) => return Err(JoinError::TakeUnopened(error)),
        Err(ConvertError::Refused(fault)) => return Err(JoinError::Refused(fault)),
    };
    let left_report = match read_report(alloc, files, left) {
        Ok(report) => report,
        Err(ConvertError::Unopened(error)) => return Err(JoinError::LeftUnopened(error)),
        Err(ConvertError::Refused(fault)) => return Err(JoinError::Refused(fault)),
    };
    match join_sections(alloc, &take_report, &left_report) {
        Ok(sections) => print_files(
            files,
            take,
            left,
            sections.take.as_slice(),
            sections.left.as_slice(),
            out,
        ),
        Err(fault) => Err(JoinError::Refused(fault)),
    }
}

/// Prints these sections of the file at a path, and then those of the one at `left`.
///
/// # Errors
/// `JoinError`, but for Refused.
fn print_files<F: RecordingFiles, W: Sink>(
    files: &mut F,
    take: &str,
    left: &str,
    first: &[Section],
    second: &[Section],
    out: &mut W,
) -> Result<(), JoinError>
    requires { Of (F.file_at files.old take.now) (λ t. Of (F.file_at files.old left.now) (λ l.
        AreJoined first.now second.now t l)) }
    ensures ends { EndsJoin W.Sink (F.file_at files.old take.now) (F.file_at files.old left.now) result
        out.old out.new }
    ensures count { F.failures files.new ≡ failures_if (is_each_opened result) (F.failures files.old) }
{
    let take_file = match files.open(take) {
        Ok(file) => file,
        Err(error) => return Err(JoinError::TakeUnopened(error)),
    };
    let left_file = match files.open(left) {
        Ok(file) => file,
        Err(error) => return Err(JoinError::LeftUnopened(error)),
    };
    let mut take_reader = SectionReader::new(take_file, first);
    let mut left_reader = SectionReader::new(left_file, second);
    match print_both(&mut take_reader, &mut left_reader, out) {
        Ok(()) => Ok(()),
        Err(PrintFault::Unread(place)) => Err(JoinError::Stopped(place)),
        Err(PrintFault::Unwritable) => Err(JoinError::Unwritable),
    }
}
