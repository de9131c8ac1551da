//! The command `pack`: the requests of a file's recording, as lines of hex.
ghost use Rattle.std.specs.Prelude.{◌≡◌, ◌≤◌, ℕ, List, Result, length, map, string_bytes, OnOk, IfErr};
ghost use Rattle.bw_console.specs.Prints.{IsPrint, Print, failures_if, IsOf};
ghost use Rattle.bw_plan.specs.Progress.{remaining};
ghost use Rattle.bw_recorder.specs.Packs.{FinishesPrint};
ghost use Rattle.bw_recorder.specs.Packs.{IsOpenReport, has_unwritable as is_writer_failed};
ghost use Rattle.bw_recorder.specs.Packs.{HasPacked, IsPack, IsPrintOfPack, IsReportedText, Packing};
ghost use Rattle.bw_recorder.specs.Packs.{IsOptionsReport, ReportsPack, exit_of_pack, pack_exit, pack_line};
ghost use Rattle.bw_recorder.specs.Puts.{fault_going_on, GivesNextOf, GivesRequests, HasPut, HasText};
ghost use Rattle.bw_recorder.specs.Puts.{PutsNoLine, Stands, count_given};
ghost use Rattle.bw_recorder.specs.RequestLines.{request_hex};
ghost use Rattle.bw_model.specs.Requests.{meaning};
ghost use Rattle.bw_model.specs.Take.{Request};
ghost use Rattle.bw_console.specs.Text.{as_line};
ghost use Rattle.bw_recorder.specs.declared.packing.PackFault.{PackFault};

use crate::fault::{OpenFault, OptionsFault, changed, exit_on, line_of, unread};
use crate::job::RecordingFile;
use crate::opening::{Opened, open_recording};
use crate::request_line::line_of_request;
use crate::settings::read_options;
use bw_console::print::{give_up, print_diagnostic};
use bw_console::{Exit, Fault, report_unopened};
use bw_inspect::{InspectFault, InspectKind};
use bw_model::RequestRef;
use bw_ports::RecordingFiles;
use bw_stream::{Sink, Source, write_all};
use std::alloc::Global;

/// A sender has numbers for 16,777,216 requests; after them the plan is at its end.
const QUESTIONS: u32 = 16_777_217;

/// Why not all requests of a recording are printed.
#[derive(Drop)]
pub(crate) enum PackFault {
    /// A read of the file failed.
    Unread(InspectFault),
    /// The file has changed since it was opened.
    Altered,
    /// One of the requests doesn't fit in a message, or a sender has too few numbers for them.
    Unsendable,
    /// The writer failed.
    Unwritable,
    Memory,
}

/// Prints the requests of the recording in a file, each as a line of hex: its kind byte and its
/// payload, as `send` reads them. What the recording loses of the file is reported first.
///
/// `Refused` for a fault of the file or of the recording; `Usage` if a setting can't be read;
/// `Device` if the file can't be opened, or a read or a write failed; `Memory` if memory was
/// refused. A failure to write to `faults` is ignored.
///
/// # Not specified
/// - When memory is refused.
/// - When the system fails, and the reason in its line.
/// - Of a file whose bytes aren't reported, which bytes the requests are of.
/// - Whether a reader, which is dropped, counted a failed read, and the place in its line.
pub fn pack<F: RecordingFiles, W: Sink, E: Sink>(
    alloc: Global,
    files: &mut F,
    file: &RecordingFile<'_>,
    out: &mut W,
    faults: &mut E,
) -> Exit
    // A failed read or write leaves a prefix of the lines of the plan's requests.
    ensures { (did : Packing) × (did.exit ≡ result)
        × IsPack (F.file_at files.old file.now.path.now) file.now.path.now
        (map string_bytes file.now.settings.now) file.now.strict file.now.frames did
        × (F.failures files.new ≡ failures_if did.is_system_well (F.failures files.old))
        × HasPacked W.Sink E.Sink did out.old out.new faults.old faults.new }
{
    let options = match read_options(alloc, file) {
        Ok(options) => options,
        Err(fault) => return refuse_options(fault, faults),
    };
    match open_recording(alloc, files, file.path, &options) {
        Ok(mut opened) => {
            warn(opened.warnings.as_slice(), faults);
            print_opened(alloc, &mut opened, out, faults)
        }
        Err(fault) => report_open_fault(alloc, "pack", file.path, &fault, faults),
    }
}

/// Reports why what is set can't be used. Returns how the command ends.
pub fn refuse_options<E: Sink>(fault: OptionsFault, faults: &mut E) -> Exit
    ensures { (print : Print) × IsOptionsReport fault result print
        × IsPrint E.Sink print faults.old faults.new }
{
    match fault {
        OptionsFault::NotASetting(text) => refuse_settings(text.as_slice(), faults),
        OptionsFault::Memory => give_up(faults, &Fault::Memory),
    }
}

/// Reports by this text that another spells no setting. Returns how the command ends.
fn refuse_settings<E: Sink>(text: &[u8], faults: &mut E) -> Exit
    ensures exit { result ≡ Exit.Usage }
    ensures line { (print : Print) × IsOf text.now print
        × IsPrint E.Sink print faults.old faults.new }
{
    print_diagnostic(faults, text);
    Exit::Usage
}

/// Reports what a recording loses of its file, if it loses anything.
pub fn warn<E: Sink>(text: &[u8], faults: &mut E)
    ensures { (print : Print) × IsReportedText text.now print
        × IsPrint E.Sink print faults.old faults.new }
{
    if !text.is_empty() {
        print_diagnostic(faults, text);
    }
}

/// Reports why a file isn't opened. Returns how the command of this name, of at most 8 bytes, ends.
pub fn report_open_fault<E: Sink>(
    alloc: Global,
    command: &str,
    path: &str,
    fault: &OpenFault,
    faults: &mut E,
) -> Exit
    requires { length command.now ≤ 8 }
    ensures { (print : Print) × IsOpenReport command.now path.now fault.now result print
        × IsPrint E.Sink print faults.old faults.new }
{
    match fault {
        OpenFault::Unopened(error) => report_unopened(alloc, path, error, faults),
        OpenFault::Refused(fault) => {
            print_diagnostic(faults, line_of(command, fault).as_str().as_bytes());
            exit_on(fault.kind)
        }
        OpenFault::Lossy(text) => {
            print_diagnostic(faults, text.as_slice());
            Exit::Refused
        }
        OpenFault::Changed => {
            print_diagnostic(faults, changed(command).as_str().as_bytes());
            Exit::Refused
        }
    }
}

/// Prints the requests of an opened recording, and reports why if not all of them are printed.
fn print_opened<R: Source, W: Sink, E: Sink>(
    alloc: Global,
    opened: &mut Opened<R>,
    out: &mut W,
    faults: &mut E,
) -> Exit
    ensures { (outcome : Result (Unit {0}) PackFault) × (result ≡ pack_exit outcome)
        × (given : List Request) × (printed : Print) × (reported : Print)
        × ((b : List ℕ) → Stands b opened.old.plan (R.left opened.old.reader) →
        GivesRequests (remaining opened.old.plan b) given outcome)
        × IsPrintOfPack given outcome printed × ReportsPack outcome reported
        × IsPrint W.Sink printed out.old out.new
        × IsPrint E.Sink reported faults.old faults.new }
{
    match print_requests(alloc, opened, out) {
        Ok(()) => Exit::Done,
        Err(fault) => report_pack_fault(&fault, faults),
    }
}

/// Prints the requests of an opened recording, and flushes the writer.
///
/// # Errors
/// Why not all of them are printed: the first ones are.
fn print_requests<R: Source, W: Sink>(
    alloc: Global,
    opened: &mut Opened<R>,
    out: &mut W,
) -> Result<(), PackFault>
    ensures { (given : List Request) × (print : Print)
        × ((b : List ℕ) → Stands b opened.old.plan (R.left opened.old.reader) →
        GivesRequests (remaining opened.old.plan b) given result)
        × IsPrintOfPack given result print × IsPrint W.Sink print out.old out.new }
{
    let put = put_requests(alloc, opened, out);
    finish(put, out)
}

/// Flushes the writer, unless it has failed. Returns how the printing ends that ended so before.
///
/// # Errors
/// Why not all of it is printed.
fn finish<W: Sink>(put: Result<(), PackFault>, out: &mut W) -> Result<(), PackFault>
    ensures { (given : List Request) (before : W) → HasPut W.Sink given put before out.old →
        FinishesPrint W.Sink given put result before out.new }
{
    if has_unwritable(&put) {
        return put;
    }
    let Ok(()) = out.flush() else {
        return Err(PackFault::Unwritable);
    };
    put
}

/// Whether the writer has failed.
fn has_unwritable(put: &Result<(), PackFault>) -> bool
    ensures { result ≡ is_writer_failed put.now }
{
    match put {
        Ok(()) => false,
        Err(PackFault::Unread(_)) => false,
        Err(PackFault::Altered) => false,
        Err(PackFault::Unsendable) => false,
        Err(PackFault::Unwritable) => true,
        Err(PackFault::Memory) => false,
    }
}

/// Writes the line of each request of an opened recording.
///
/// # Errors
/// Why not all of them are written: the first ones are.
fn put_requests<R: Source, W: Sink>(
    alloc: Global,
    opened: &mut Opened<R>,
    out: &mut W,
) -> Result<(), PackFault>
    ensures { (given : List Request) × HasPut W.Sink given result out.old out.new
        × ((b : List ℕ) → Stands b opened.old.plan (R.left opened.old.reader) →
        GivesRequests (remaining opened.old.plan b) given result) }
{
    for _request in 0..QUESTIONS {
        if put_next(alloc, opened, out)? {
            return Ok(());
        }
    }
    Err(PackFault::Unsendable)
}

/// Writes the line of the next request of an opened recording, and goes on after it. Returns
/// whether there was none.
///
/// # Errors
/// Why it isn't written, or the recording doesn't go on after it.
fn put_next<R: Source, W: Sink>(
    alloc: Global,
    opened: &mut Opened<R>,
    out: &mut W,
) -> Result<bool, PackFault>
    ensures { (given : List Request) × HasPut W.Sink given result out.old out.new
        × count_given result given
        × ((b : List ℕ) → Stands b opened.old.plan (R.left opened.old.reader) →
        GivesNextOf b (remaining opened.old.plan b) given result opened.new.plan
        (R.left opened.new.reader)) }
{
    let Some(request) = opened.plan.request() else {
        return Ok(true);
    };
    put_line(alloc, &request, out)?;
    match opened.plan.advance(&mut opened.reader) {
        Ok(()) => Ok(false),
        Err(fault) => Err(read_on(fault)),
    }
}

/// Writes the line of a request.
///
/// # Errors
/// Unsendable, Unwritable, Memory.
fn put_line<W: Sink>(alloc: Global, request: &RequestRef<'_>, out: &mut W) -> Result<(), PackFault>
    ensures ok { OnOk result
        (HasText W.Sink (as_line (request_hex (meaning request.now))) out.old out.new) }
    ensures err { IfErr result (λ f. PutsNoLine W.Sink (meaning request.now) f out.old out.new) }
{
    if !request.fits() {
        return Err(PackFault::Unsendable);
    }
    let Ok(line) = line_of_request(alloc, request) else {
        return Err(PackFault::Memory);
    };
    match write_all(out, line.as_slice()) {
        Ok(()) => Ok(()),
        Err(_) => Err(PackFault::Unwritable),
    }
}

/// Why a recording doesn't go on, where its plan has this fault.
fn read_on(fault: InspectFault) -> PackFault
    ensures { result ≡ fault_going_on fault }
{
    match fault.kind {
        InspectKind::Read => PackFault::Unread(fault),
        InspectKind::Memory => PackFault::Memory,
        _ => PackFault::Altered,
    }
}

/// Reports why not all requests are printed. Returns how the command ends.
fn report_pack_fault<E: Sink>(fault: &PackFault, faults: &mut E) -> Exit
    ensures exit { result ≡ exit_of_pack fault.now }
    ensures line { (print : Print) × IsOf (pack_line fault.now) print
        × IsPrint E.Sink print faults.old faults.new }
{
    match fault {
        PackFault::Unread(fault) => {
            let line = line_of("pack", &unread(*fault));
            print_diagnostic(faults, line.as_str().as_bytes());
            Exit::Device
        }
        PackFault::Altered => {
            print_diagnostic(faults, changed("pack").as_str().as_bytes());
            Exit::Refused
        }
        PackFault::Unsendable => {
            print_diagnostic(faults, b"pack: TooLong\n");
            Exit::Refused
        }
        PackFault::Unwritable => give_up(faults, &Fault::Unwritable),
        PackFault::Memory => give_up(faults, &Fault::Memory),
    }
}
