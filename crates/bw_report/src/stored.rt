//! Whether the receipt of a recording is there already.
ghost use Rattle.std.specs.Prelude.{◌≡◌, ◌≢◌, All, IfOk, MatchBool, MatchOption};
ghost use Rattle.std.specs.List.{Any};
ghost use Rattle.bw_stream.specs.Readers.{Of};
ghost use Rattle.bw_report.specs.FileFindings.{IsGivenOf};
ghost use Rattle.bw_report.specs.StoredRecordings.{HasReceipt, IsReceiptIn, IsFileUnread};

use crate::digest::report_digest;
use crate::receipt::receipt_under;
use bw_inspect::{InspectKind, Report, inspect};
use bw_model::Name;
use bw_ports::RecordingFiles;
use bw_take_files::Receipt;
use std::alloc::{AllocError, Global};

/// Whether the receipt of the recording at a path is among these: that of its name, its frames and the
/// SHA-256 of its samples. Its file is read only if one of these is of its name; it has no receipt if the
/// file can't be opened or read, or has a fault.
///
/// # Errors
/// `AllocError` if memory was refused.
///
/// # Not specified
/// - When memory is refused, and when the system fails.
/// - Of a file whose bytes aren't reported, which bytes the receipt is of, and why it isn't read.
pub fn has_receipt<F: RecordingFiles>(
    alloc: Global,
    files: &mut F,
    receipts: &[Receipt],
    name: &Name,
    path: &str,
) -> Result<bool, AllocError>
    ensures files { F.file_at files.new ≡ F.file_at files.old }
    // It is denied of bytes without a fault only if a reader of them failed, or no receipt is theirs.
    ensures has { IfOk result (λ has. HasReceipt F.File.Source (F.file_at files.old path.now) receipts.now
        name.now has (F.failures files.old) (F.failures files.new)) }
{
    if !is_named(receipts, name) {
        return Ok(false);
    }
    match receipt_of(alloc, files, name, path)? {
        Some(receipt) => Ok(is_among(receipts, &receipt)),
        None => Ok(false),
    }
}

/// Whether one of these receipts is of this name.
fn is_named(receipts: &[Receipt], name: &Name) -> bool
    ensures { MatchBool result (Any (λ kept. kept.name ≡ name.now) receipts.now)
        (All (λ kept. kept.name ≢ name.now) receipts.now) }
{
    for kept in receipts {
        if kept.name == *name {
            return true;
        }
    }
    false
}

/// Whether this receipt is one of these.
fn is_among(receipts: &[Receipt], receipt: &Receipt) -> bool
    ensures { MatchBool result (Any (λ kept. kept ≡ receipt.now) receipts.now)
        (All (λ kept. kept ≢ receipt.now) receipts.now) }
{
    for kept in receipts {
        if kept == receipt {
            return true;
        }
    }
    false
}

/// The receipt of the recording at a path, whose file is read; None if it can't be opened or read, or has
/// a fault.
fn receipt_of<F: RecordingFiles>(
    alloc: Global,
    files: &mut F,
    name: &Name,
    path: &str,
) -> Result<Option<Receipt>, AllocError>
    ensures files { F.file_at files.new ≡ F.file_at files.old }
    ensures receipt { IfOk result (λ found. MatchOption found
        (IsFileUnread F.File.Source (F.file_at files.old path.now) (F.failures files.old)
        (F.failures files.new))
        (λ receipt. Of (F.file_at files.old path.now) (λ b. IsReceiptIn name.now b receipt)
        × (F.failures files.new ≡ F.failures files.old))) }
{
    let Ok(mut file) = files.open(path) else {
        return Ok(None);
    };
    match inspect(alloc, &mut file) {
        Ok(report) => Ok(hashed(files, name, path, &report)),
        Err(fault) => match fault.kind {
            InspectKind::Memory => Err(AllocError),
            _ => Ok(None),
        },
    }
}

/// The receipt of the recording at a path with this report, whose samples are read; None if they can't be.
fn hashed<F: RecordingFiles>(
    files: &mut F,
    name: &Name,
    path: &str,
    report: &Report,
) -> Option<Receipt>
    ensures files { F.file_at files.new ≡ F.file_at files.old }
    ensures receipt { Of (F.file_at files.old path.now) (λ b. IsGivenOf b report.now) →
        MatchOption result
        (IsFileUnread F.File.Source (F.file_at files.old path.now) (F.failures files.old)
        (F.failures files.new))
        (λ receipt. Of (F.file_at files.old path.now) (λ b. IsReceiptIn name.now b receipt)
        × (F.failures files.new ≡ F.failures files.old)) }
{
    let Ok(mut file) = files.open(path) else {
        return None;
    };
    match report_digest(&mut file, report) {
        Ok(digest) => Some(receipt_under(name, report, digest)),
        Err(_) => None,
    }
}
