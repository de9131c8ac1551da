//! The receipt of a recording whose take is stored.
ghost use Rattle.std.specs.Prelude.{◌≡◌, ◌⊎◌, ℕ, List, IfOk, IfErr, string_bytes, true};
ghost use Rattle.std.specs.IoError.{error_kind};
ghost use Rattle.bw_console.specs.FailedOpenings.{ReportsFailure};
ghost use Rattle.bw_console.specs.Outcomes.{IsOutOfMemory, Outcome};
ghost use Rattle.bw_console.specs.Prints.{IsPrint};
ghost use Rattle.bw_stream.specs.Readers.{Of};
ghost use Rattle.bw_report.specs.FileFindings.{HasReportAndDigest};
ghost use Rattle.bw_report.specs.Receipts.{BeginsReceipts, IsLeftOut, IsLineOfRecording, PutsReceipt};
ghost use Rattle.bw_report.specs.Receipts.{IsUnreadRecording, receipt_line_of, receipt_with};
ghost use Rattle.bw_report.specs.Receipts.{unread_recording_text, unwritten_receipt_text};

use crate::files::look_over;
use crate::found::Found;
use crate::parts::whole_frames;
use bw_console::print::{give_up, print_diagnostic, print_text};
use bw_console::{Exit, Fault, report_failure, report_unopened};
use bw_inspect::{InspectKind, Report};
use bw_model::Name;
use bw_ports::{ReceiptFiles, RecordingFiles};
use bw_stream::Sink;
use bw_take_files::{Receipt, receipt_json, receipt_line};
use std::alloc::{AllocError, Global};
use std::io;

/// What a receipt is made of, and where it goes.
#[derive(Drop)]
pub struct ReceiptJob<'a> {
    /// The name that the recording is stored under.
    pub name: &'a Name,
    /// The recording's path.
    pub source: &'a str,
    /// The server's address.
    pub address: &'a str,
    /// The path of the file that the receipt is added to, as reports have it.
    pub to: &'a str,
    /// Whether it is a line of JSON, or of words.
    pub json: bool,
}

impl ReceiptJob<'_> {
    /// The line of the receipt of a recording with this report and this SHA-256 of its samples.
    ///
    /// # Errors
    /// `AllocError` if memory was refused.
    ///
    /// # Not specified
    /// When memory is refused.
    pub fn line(
        &self,
        alloc: Global,
        report: &Report,
        digest: [u8; 32],
    ) -> Result<Vec<u8>, AllocError>
        ensures { IfOk result (λ line. line.items
            ≡ receipt_line_of self.now (receipt_with self.now.name.now report.now digest)) }
    {
        let receipt = receipt_under(self.name, report, digest);
        if self.json {
            receipt_json(alloc, &receipt, self.address, self.source)
        } else {
            receipt_line(alloc, &receipt, self.address, self.source)
        }
    }
}

/// The receipt of a recording under a name, which has this report and this SHA-256 of its samples.
pub(crate) fn receipt_under(name: &Name, report: &Report, digest: [u8; 32]) -> Receipt
    ensures { result ≡ receipt_with name.now report.now digest }
{
    Receipt {
        name: name.copy(),
        frames: whole_frames(report.data_size, report.fmt.align),
        digest,
    }
}

/// Opens the file of receipts at a path, so that one that can't be written is known before anything is
/// sent. `-` is standard output, which is no file.
///
/// # Errors
/// How the command ends, after `PATH can't be opened: REASON` was reported: `Device`, or `Memory` if
/// memory was refused, even for this line, which is `out of memory` then.
///
/// # Not specified
/// When the system fails, and the reason in the line.
pub fn begin_receipts<R: ReceiptFiles, E: Sink>(
    alloc: Global,
    receipts: &mut R,
    to: &str,
    faults: &mut E,
) -> Result<Option<R::File>, Exit>
    ensures { BeginsReceipts R.ReceiptFiles E.Sink to.now result receipts.old receipts.new
        faults.old faults.new }
{
    if to == "-" {
        return Ok(None);
    }
    match receipts.begin(to) {
        Ok(file) => Ok(Some(file)),
        Err(error) => Err(report_unopened(alloc, to, &error, faults)),
    }
}

/// Puts the receipt of a recording: reads its file again, and appends a line of the name, the frames
/// and the SHA-256 of the samples, the address and the path to a file, or prints it where there is none.
///
/// `Done` if the line is there, whole. `Device` if the recording can't be opened or read, has a fault,
/// or the line can't be written, of which a part may be there then; `Memory` if memory was refused.
/// Why there is no receipt is a line on `faults`; a failure to write to `faults` is ignored.
///
/// # Not specified
/// - When memory is refused, when the system fails, and the reason in its line.
/// - Of a file whose bytes aren't reported, which bytes the receipt is of.
/// - Whether the readers, which are dropped, counted failed reads.
pub fn put_receipt<F: RecordingFiles, R: ReceiptFiles, W: Sink, E: Sink>(
    alloc: Global,
    job: &ReceiptJob<'_>,
    files: &mut F,
    receipts: &mut R,
    opened: Option<R::File>,
    out: &mut W,
    faults: &mut E,
) -> Exit
    ensures files { F.file_at files.new ≡ F.file_at files.old }
    // Without a report of the file's bytes and their digest nothing is printed or appended.
    ensures puts { PutsReceipt R.ReceiptFiles W.Sink E.Sink (F.file_at files.old job.now.source.now)
        job.now opened result (F.failures files.old) (F.failures files.new) receipts.old receipts.new
        out.old out.new faults.old faults.new }
{
    let line = match recording_line(alloc, job, files, faults) {
        Ok(line) => line,
        Err(exit) => return exit,
    };
    let Some(mut file) = opened else {
        return print_text(line.as_slice(), out, faults);
    };
    match receipts.append(&mut file, line.as_slice()) {
        Ok(()) => Exit::Done,
        Err(error) => report_unwritten(alloc, job.to, &error, faults),
    }
}

/// The line of the job's recording, whose file is read again.
///
/// # Errors
/// How the command ends, after it was reported why there is no receipt.
fn recording_line<F: RecordingFiles, E: Sink>(
    alloc: Global,
    job: &ReceiptJob<'_>,
    files: &mut F,
    faults: &mut E,
) -> Result<Vec<u8>, Exit>
    ensures files { F.file_at files.new ≡ F.file_at files.old }
    ensures ok { IfOk result (λ line. Of (F.file_at files.old job.now.source.now) (λ b.
        IsLineOfRecording job.now b line.items) × (F.failures files.new ≡ F.failures files.old)
        × (faults.new ≡ faults.old)) }
    ensures err { IfErr result (λ exit. IsLeftOut E.Sink job.now.source.now exit
        (F.failures files.old) (F.failures files.new) faults.old faults.new) }
{
    match look_over(alloc, files, job.source, true, faults) {
        Found::Read {
            report,
            digest,
            contents: _unread,
        } => found_line(alloc, job, &report, digest, faults),
        Found::Faulty(fault) => Err(refuse(alloc, job.source, fault.kind, faults)),
        Found::Unopened(exit) => Err(exit),
    }
}

/// The line of the job's recording, which has this report and digest.
///
/// # Errors
/// How the command ends, after it was reported why there is no receipt.
fn found_line<E: Sink>(
    alloc: Global,
    job: &ReceiptJob<'_>,
    report: &Report,
    digest: Option<[u8; 32]>,
    faults: &mut E,
) -> Result<Vec<u8>, Exit>
    ensures ok { IfOk result (λ line. ((b : List ℕ) → HasReportAndDigest b true report.now digest →
        IsLineOfRecording job.now b line.items) × (faults.new ≡ faults.old)) }
    ensures err { IfErr result (λ exit. (n : ℕ) →
        IsLeftOut E.Sink job.now.source.now exit n n faults.old faults.new) }
{
    let Some(digest) = digest else {
        return Err(refuse(alloc, job.source, InspectKind::Read, faults));
    };
    match job.line(alloc, report, digest) {
        Ok(line) => Ok(line),
        Err(_) => Err(give_up(faults, &Fault::Memory)),
    }
}

/// Reports why a file can't be written: `NAME can't be written: REASON`. Returns `Memory` if memory
/// was refused, even for this line, which is `out of memory` then; otherwise `Device`.
fn report_unwritten<E: Sink>(alloc: Global, path: &str, error: &io::Error, faults: &mut E) -> Exit
    ensures { (did : Outcome) × (did.exit ≡ result)
        × (ReportsFailure (unwritten_receipt_text path.now) (error_kind error.now) did ⊎ IsOutOfMemory did)
        × IsPrint E.Sink did.faults faults.old faults.new }
{
    report_failure(unwritten_line(alloc, path, error), error, faults)
}

fn unwritten_line(alloc: Global, path: &str, error: &io::Error) -> Result<String, AllocError>
    ensures { IfOk result (λ line. (reason : List ℕ) ×
        (string_bytes line ≡ unwritten_receipt_text path.now reason)) }
{
    let reason = format!(in alloc; "{error}")?;
    line_with(alloc, path, reason.as_str())
}

fn line_with(alloc: Global, path: &str, reason: &str) -> Result<String, AllocError>
    ensures { IfOk result (λ line. string_bytes line ≡ unwritten_receipt_text path.now reason.now) }
{
    format!(in alloc; "{path} can't be written: {reason}\n")
}

/// Reports a recording of which no receipt can be made, for a fault of this kind. Returns `Memory` if
/// memory was refused, and `Device` otherwise.
fn refuse<E: Sink>(alloc: Global, path: &str, kind: InspectKind, faults: &mut E) -> Exit
    ensures { (did : Outcome) × (did.exit ≡ result) × (IsUnreadRecording path.now did ⊎ IsOutOfMemory did)
        × IsPrint E.Sink did.faults faults.old faults.new }
{
    match kind {
        InspectKind::Memory => give_up(faults, &Fault::Memory),
        _ => report_unread(alloc, path, faults),
    }
}

/// Reports a file that can't be read: `NAME can't be read`, or `out of memory` if memory was refused.
fn report_unread<E: Sink>(alloc: Global, path: &str, faults: &mut E) -> Exit
    ensures { (did : Outcome) × (did.exit ≡ result) × (IsUnreadRecording path.now did ⊎ IsOutOfMemory did)
        × IsPrint E.Sink did.faults faults.old faults.new }
{
    let Ok(line) = unread_line(alloc, path) else {
        return give_up(faults, &Fault::Memory);
    };
    print_diagnostic(faults, line.as_str().as_bytes());
    Exit::Device
}

fn unread_line(alloc: Global, path: &str) -> Result<String, AllocError>
    ensures { IfOk result (λ line. string_bytes line ≡ unread_recording_text path.now) }
{
    format!(in alloc; "{path} can't be read\n")
}
