//! Files one after another, each with its entry.
ghost use Rattle.std.specs.Prelude.{◌≡◌, Bool, None, true, false, map, nat_lt, string_bytes};
ghost use Rattle.bw_inspect.specs.Faults.{bytes_fault};
ghost use Rattle.bw_stream.specs.Readers.{Of};
ghost use Rattle.bw_report.specs.FileFindings.{HasReportAndDigest, IsGivenOf};
ghost use Rattle.bw_report.specs.FileLooks.{AreInspected, IsFoundByLook, IsLookAt, IsLookIn, Look};
ghost use Rattle.bw_report.specs.FileLooks.{files_there, shows_contents};

use crate::digest::report_digest;
use crate::entry::{Style, Wanted, print_entry};
use crate::exits::worse;
use crate::found::Found;
use bw_console::print::give_up;
use bw_console::{Exit, report_unopened};
use bw_contents::read_contents;
use bw_inspect::{InspectFault, InspectKind, Report, inspect};
use bw_ports::{FileStamp, RecordingFiles};
use bw_stream::Sink;
use std::alloc::Global;

/// Reports what is in the files at these paths, in their order: an entry for each. A file that has
/// a fault, or can't be opened, has an entry too, and the next one is looked at; why a file can't
/// be opened is a line on `faults`.
///
/// It ends as the file does whose status is the highest: `Done`, `Refused` for a fault, `Device` if
/// a file can't be opened or read, `Memory` if memory was refused. If an entry can't be made or
/// printed, no later file is looked at, and a line on `faults` says why. A failure to write to
/// `faults` is ignored.
///
/// # Not specified
/// - When memory is refused, and when the system fails.
/// - Over `HostRecordings`, which bytes the reports are of.
/// - Whether the readers, which are dropped, counted failed reads.
pub fn inspect_files<F: RecordingFiles, W: Sink, E: Sink>(
    alloc: Global,
    files: &mut F,
    paths: &[String],
    wanted: Wanted,
    out: &mut W,
    faults: &mut E,
) -> Exit
    ensures { AreInspected W.Sink E.Sink (files_there (F.file_at files.old) (F.stamp_at files.old))
        (map string_bytes paths.now) wanted
        result (F.failures files.old) (F.failures files.new) out.old out.new faults.old faults.new }
{
    let mut worst = Exit::Done;
    for path in paths {
        let found = look(alloc, files, path.as_str(), wanted, faults);
        worst = worse(worst, found.exit());
        match print_entry(alloc, wanted, path.as_str(), &found, out) {
            Ok(()) => {}
            Err(fault) => return worse(worst, give_up(faults, &fault)),
        }
    }
    worst
}

/// Looks at the file at a path as it is wanted, and reports why it can't be opened. In plain lines
/// nothing is said of its chunks' contents.
fn look<F: RecordingFiles, E: Sink>(
    alloc: Global,
    files: &mut F,
    path: &str,
    wanted: Wanted,
    faults: &mut E,
) -> Found
    ensures files { F.file_at files.new ≡ F.file_at files.old }
    ensures stamps { F.stamp_at files.new ≡ F.stamp_at files.old }
    ensures found { IsFoundByLook E.Sink
        (IsLookAt (files_there (F.file_at files.old) (F.stamp_at files.old)) wanted) path.now result
        (F.failures files.old) (F.failures files.new) faults.old faults.new }
{
    let found = look_over(alloc, files, path, wanted.digest, faults);
    if !shows_contents(wanted.style) {
        return found;
    }
    match found {
        Found::Read {
            report,
            digest,
            contents: _unread,
        } => look_inside(alloc, files, path, report, digest, faults),
        Found::Faulty(fault) => Found::Faulty(fault),
        Found::Unopened(exit) => Found::Unopened(exit),
    }
}

/// Looks at the file at a path, and reports why it can't be opened.
pub(crate) fn look_over<F: RecordingFiles, E: Sink>(
    alloc: Global,
    files: &mut F,
    path: &str,
    digest: bool,
    faults: &mut E,
) -> Found
    ensures files { F.file_at files.new ≡ F.file_at files.old }
    ensures stamps { F.stamp_at files.new ≡ F.stamp_at files.old }
    ensures found { IsFoundByLook E.Sink (IsLookIn (F.file_at files.old) digest false) path.now result
        (F.failures files.old) (F.failures files.new) faults.old faults.new }
{
    match files.open(path) {
        Ok(mut file) => match inspect(alloc, &mut file) {
            Ok(report) => {
                if digest {
                    look_again(alloc, files, path, report, faults)
                } else {
                    Found::Read {
                        report,
                        digest: None,
                        contents: None,
                    }
                }
            }
            Err(fault) => Found::Faulty(fault),
        },
        Err(error) => Found::Unopened(report_unopened(alloc, path, &error, faults)),
    }
}

/// Looks at the samples of the file at a path that has this report.
fn look_again<F: RecordingFiles, E: Sink>(
    alloc: Global,
    files: &mut F,
    path: &str,
    report: Report,
    faults: &mut E,
) -> Found
    ensures files { F.file_at files.new ≡ F.file_at files.old }
    ensures stamps { F.stamp_at files.new ≡ F.stamp_at files.old }
    ensures found { Of (F.file_at files.old path.now) (λ b. IsGivenOf b report) →
        IsFoundByLook E.Sink (IsLookIn (F.file_at files.old) true false) path.now result
        (F.failures files.old) (F.failures files.new) faults.old faults.new }
{
    match files.open(path) {
        Ok(mut file) => match report_digest(&mut file, &report) {
            Ok(digest) => Found::Read {
                report,
                digest: Some(digest),
                contents: None,
            },
            Err(fault) => Found::Faulty(fault),
        },
        Err(error) => Found::Unopened(report_unopened(alloc, path, &error, faults)),
    }
}

/// Looks into the chunks of the file at a path that has this report and digest, unless it has no
/// length, as a pipe, whose bytes are gone.
fn look_inside<F: RecordingFiles, E: Sink>(
    alloc: Global,
    files: &mut F,
    path: &str,
    report: Report,
    digest: Option<[u8; 32]>,
    faults: &mut E,
) -> Found
    ensures files { F.file_at files.new ≡ F.file_at files.old }
    ensures stamps { F.stamp_at files.new ≡ F.stamp_at files.old }
    ensures found { (wanted : Wanted) → shows_contents wanted.style ≡ true →
        Of (F.file_at files.old path.now) (λ b. HasReportAndDigest b wanted.digest report digest) →
        IsFoundByLook E.Sink
        (IsLookAt (files_there (F.file_at files.old) (F.stamp_at files.old)) wanted) path.now result
        (F.failures files.old) (F.failures files.new) faults.old faults.new }
{
    match files.stamp(path) {
        Ok(stamp) => {
            if has_length(stamp) {
                look_within(alloc, files, path, report, digest, faults)
            } else {
                Found::Read {
                    report,
                    digest,
                    contents: None,
                }
            }
        }
        Err(error) => Found::Unopened(report_unopened(alloc, path, &error, faults)),
    }
}

/// Looks into the chunks of the file at a path that has this report and digest.
fn look_within<F: RecordingFiles, E: Sink>(
    alloc: Global,
    files: &mut F,
    path: &str,
    report: Report,
    digest: Option<[u8; 32]>,
    faults: &mut E,
) -> Found
    ensures files { F.file_at files.new ≡ F.file_at files.old }
    ensures stamps { F.stamp_at files.new ≡ F.stamp_at files.old }
    ensures found { (asked : Bool) →
        Of (F.file_at files.old path.now) (λ b. HasReportAndDigest b asked report digest) →
        IsFoundByLook E.Sink (IsLookIn (F.file_at files.old) asked true) path.now result
        (F.failures files.old) (F.failures files.new) faults.old faults.new }
{
    match files.open(path) {
        Ok(mut file) => match read_contents(alloc, &mut file, report.chunks.as_slice()) {
            Ok(contents) => Found::Read {
                report,
                digest,
                contents: Some(contents),
            },
            Err(fault) => Found::Faulty(unread(fault)),
        },
        Err(error) => Found::Unopened(report_unopened(alloc, path, &error, faults)),
    }
}

/// Whether a file has a length, unlike a pipe.
fn has_length(stamp: FileStamp) -> bool
    ensures { result ≡ nat_lt 0 stamp.len }
{
    stamp.len > 0
}

/// Whether what chunks say is printed.
fn shows_contents(style: Style) -> bool
    ensures { result ≡ shows_contents style }
{
    match style {
        Style::Plain => false,
        Style::Human => true,
        Style::Json => true,
    }
}

/// The fault of chunks that weren't read: Memory or Read, also if the file isn't as it was.
fn unread(fault: InspectFault) -> InspectFault
    ensures { bytes_fault result ≡ None }
{
    match fault.kind {
        InspectKind::Memory => fault,
        _ => InspectFault {
            kind: InspectKind::Read,
            offset: fault.offset,
        },
    }
}
