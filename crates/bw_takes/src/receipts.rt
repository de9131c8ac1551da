//! The command `takes --verify`: the takes of a folder are compared with a file of receipts.
ghost use Rattle.std.specs.Prelude.{◌≡◌, ◌⊎◌, IfOk, string_bytes};
ghost use Rattle.bw_console.specs.Outcomes.{Outcome, HasWritten, IsOutOfMemory};
ghost use Rattle.bw_console.specs.Prints.{IsPrint};
ghost use Rattle.bw_disk.specs.DiskSteps.{StaysWhole};
ghost use Rattle.bw_takes.specs.ReceiptChecks.{IsReceiptCheck, IsVerifying, ReportsBadReceipt};
ghost use Rattle.bw_takes.specs.ReceiptChecks.{bad_receipt_text};
ghost use Rattle.bw_takes.specs.ReceiptReads.{IsPathRead, IsTextRead};

use crate::printing::{print_report, report_unread};
use crate::verifying::verify_takes;
use bw_console::print::{give_up, print_diagnostic};
use bw_console::{Exit, Fault};
use bw_disk::{ReadFault, Volume, read_file};
use bw_stream::Sink;
use bw_take_files::{Receipt, ReceiptFault, read_receipts};
use std::alloc::{AllocError, Global};

/// Why a file of receipts isn't read.
#[derive(Clone, Copy)]
pub(crate) enum ReceiptsFault {
    /// Nothing is at its path, or it can't be read.
    Unread,
    /// The line of this number, counted from 1, is the first that is no receipt and not empty.
    Line(u64),
    /// Memory was refused.
    Memory,
}

/// Compares the takes of a folder with the receipts of a file: prints a line for each that isn't
/// closed with the samples of its receipt, in the order of the receipts, and last how many are.
/// Nothing is locked, and nothing changed.
///
/// `Done` if all are; `Refused` if one isn't, or a line of the file is no receipt, which is a line on
/// `faults` and nothing else; `Device` if a file of a take can't be read, which is a line on `faults`
/// after the lines of the others, or the folder or the file of receipts can't, which is a line on
/// `faults` and nothing else, or if the lines can't be written; `Memory` if memory was refused.
///
/// # Not specified
/// - When memory is refused.
/// - When a disk that isn't honest fails, and what is reported over it.
pub fn show_verified<D: Volume, W: Sink, E: Sink>(
    alloc: Global,
    disk: &mut D,
    folder: &str,
    path: &str,
    out: &mut W,
    faults: &mut E,
) -> Exit
    ensures { (did : Outcome) × (did.exit ≡ result)
        × IsVerifying (D.honest disk.old) folder.now path.now (D.contents disk.old)
        (D.failures disk.old) (D.failures disk.new) did
        × StaysWhole D.Disk disk.old disk.new
        × HasWritten W.Sink E.Sink did out.old out.new faults.old faults.new }
{
    match receipts_at(alloc, disk, path) {
        Ok(receipts) => print_verified(alloc, disk, folder, &receipts, out, faults),
        Err(ReceiptsFault::Unread) => report_unread(alloc, path, faults),
        Err(ReceiptsFault::Line(number)) => report_bad_receipt(alloc, path, number, faults),
        Err(ReceiptsFault::Memory) => give_up(faults, &Fault::Memory),
    }
}

/// The same by these receipts.
fn print_verified<D: Volume, W: Sink, E: Sink>(
    alloc: Global,
    disk: &mut D,
    folder: &str,
    receipts: &[Receipt],
    out: &mut W,
    faults: &mut E,
) -> Exit
    ensures { (did : Outcome) × (did.exit ≡ result)
        × IsReceiptCheck receipts.now (D.honest disk.old) folder.now (D.contents disk.old)
        (D.failures disk.old) (D.failures disk.new) did
        × StaysWhole D.Disk disk.old disk.new
        × HasWritten W.Sink E.Sink did out.old out.new faults.old faults.new }
{
    match verify_takes(alloc, disk, folder, receipts) {
        Ok(report) => print_report(&report, out, faults),
        Err(ReadFault::Disk) => report_unread(alloc, folder, faults),
        Err(ReadFault::Memory) => give_up(faults, &Fault::Memory),
    }
}

/// The receipts of the file at a path.
fn receipts_at<D: Volume>(
    alloc: Global,
    disk: &mut D,
    path: &str,
) -> Result<Vec<Receipt>, ReceiptsFault>
    ensures disk { StaysWhole D.Disk disk.old disk.new }
    ensures read { IsPathRead (D.honest disk.old) (D.contents disk.old path.now)
        (D.failures disk.old) (D.failures disk.new) result }
{
    match read_file(disk, alloc, path) {
        Ok(Some(text)) => receipts_of(alloc, &text),
        Ok(None) => Err(ReceiptsFault::Unread),
        Err(ReadFault::Disk) => Err(ReceiptsFault::Unread),
        Err(ReadFault::Memory) => Err(ReceiptsFault::Memory),
    }
}

/// The receipts that a text says.
fn receipts_of(alloc: Global, text: &[u8]) -> Result<Vec<Receipt>, ReceiptsFault>
    ensures { IsTextRead text.now result }
{
    match read_receipts(alloc, text) {
        Ok(receipts) => Ok(receipts),
        Err(ReceiptFault::Line(number)) => Err(ReceiptsFault::Line(number)),
        Err(ReceiptFault::Memory) => Err(ReceiptsFault::Memory),
    }
}

/// Reports that a line of a file is no receipt.
fn report_bad_receipt<E: Sink>(alloc: Global, path: &str, number: u64, faults: &mut E) -> Exit
    ensures { (did : Outcome) × (did.exit ≡ result)
        × (ReportsBadReceipt path.now number did ⊎ IsOutOfMemory did)
        × IsPrint E.Sink did.faults faults.old faults.new }
{
    let Ok(line) = bad_receipt_line(alloc, path, number) else {
        return give_up(faults, &Fault::Memory);
    };
    print_diagnostic(faults, line.as_str().as_bytes());
    Exit::Refused
}

/// The line of a file's line that is no receipt.
fn bad_receipt_line(alloc: Global, path: &str, number: u64) -> Result<String, AllocError>
    ensures { IfOk result (λ line. string_bytes line ≡ bad_receipt_text path.now number) }
{
    let line = format!(in alloc; "{path} line {number}: not a receipt\n")?;
    Ok(line)
}
