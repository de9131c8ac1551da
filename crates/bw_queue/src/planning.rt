//! The recordings that a sender of several sends, by what it is asked for.
ghost use Rattle.std.specs.Prelude.{◌≡◌, ⊤, List, MatchResult, ℕ, map, option_map, string_bytes};
ghost use Rattle.bw_disk.specs.DiskSteps.{StaysWhole};
ghost use Rattle.bw_queue.specs.KeptReceipts.{HasBadLine, SaysAllBut, ended_lines};
ghost use Rattle.bw_queue.specs.QueueFaults.{FaultSays, no_receipt_text, unreadable_text};
ghost use Rattle.bw_queue.specs.QueueSides.{CountsUnreadPaths, disk_reads, queue_side};
ghost use Rattle.bw_queue.specs.Queues.{AreNamedBy, GivesReceipts, GivesText, IsMissing, IsQueue};
ghost use Rattle.bw_queue.specs.Queues.{SaysBadReceipt};
ghost use Rattle.bw_queue.specs.Queues.{SaysRefused, SaysUnnamed, SaysUnread, SaysUnreadable, given_path};
ghost use Rattle.bw_queue.specs.Queues.{names_path};

use crate::fault::{QueueFault, bad_naming, not_a_receipt, unreadable};
use crate::kept_receipts::kept_receipts;
use crate::listing::find_recordings;
use crate::naming::{name_recordings, refuse_alike};
use crate::namings::{bad_line, lines_of};
use crate::recording::QueuedRecording;
use crate::request::{Queue, QueueRequest};
use bw_disk::{ReadFault, Volume, read_file};
use bw_ports::FileKinds;
use bw_take_files::{Receipt, ReceiptFault};
use std::alloc::Global;

/// The recordings that a sender is asked for, each with its name, and the receipts that are there already.
///
/// # Errors
/// `Refused` if a line of the file of names or of that of receipts is none, a folder has no recordings, or
/// a recording has no name, or that of another; `Unread` if a file or a folder can't be read, or the file
/// of names isn't there; `Memory` if memory was refused.
///
/// # Not specified
/// - When memory is refused.
/// - When a disk that isn't honest fails, and what it reports.
pub fn plan_queue<F: FileKinds, D: Volume>(
    alloc: Global,
    request: &QueueRequest<'_>,
    files: &F,
    disk: &mut D,
) -> Result<Queue, QueueFault>
    ensures counts { CountsUnreadPaths (IsMissing (disk_reads D.Disk disk.old)
        (given_path request.now.names)) (D.failures disk.old) (D.failures disk.new) result }
    ensures disk { StaysWhole D.Disk disk.old disk.new }
    ensures plans { MatchResult result
        (IsQueue (queue_side F.FileKinds files.now D.Disk disk.old) request.now)
        (FaultSays (SaysRefused (queue_side F.FileKinds files.now D.Disk disk.old) request.now)
        (SaysUnread (queue_side F.FileKinds files.now D.Disk disk.old) request.now)) }
{
    let text = match names_text(alloc, disk, request.names) {
        Ok(text) => text,
        Err(fault) => return Err(fault),
    };
    let receipts = match receipts_at(alloc, disk, request.receipts) {
        Ok(receipts) => receipts,
        Err(fault) => return Err(fault),
    };
    let paths = match find_recordings(alloc, files, disk, request.paths) {
        Ok(paths) => paths,
        Err(fault) => return Err(fault),
    };
    match name_all(alloc, request.names, &text, &paths) {
        Ok(recordings) => Ok(Queue {
            recordings,
            receipts,
        }),
        Err(fault) => Err(fault),
    }
}

/// The text of the file of names, which is empty without one.
///
/// # Errors
/// `Unread` if it isn't there or can't be read; `Memory`.
fn names_text<D: Volume>(
    alloc: Global,
    disk: &mut D,
    names: Option<&str>,
) -> Result<Vec<u8>, QueueFault>
    ensures counts { CountsUnreadPaths (IsMissing (disk_reads D.Disk disk.old) (given_path names.entry))
        (D.failures disk.old) (D.failures disk.new) result }
    ensures disk { StaysWhole D.Disk disk.old disk.new }
    ensures text { MatchResult result
        (λ text. GivesText (disk_reads D.Disk disk.old) (given_path names.entry) text.items)
        (FaultSays (λ line. ⊥) (SaysUnreadable (given_path names.entry))) }
{
    let Some(path) = names else {
        return Ok(Vec::new(alloc));
    };
    match text_at(alloc, disk, path) {
        Ok(Some(text)) => Ok(text),
        Ok(None) => Err(unreadable(alloc, path)),
        Err(fault) => Err(fault),
    }
}

/// The receipts of the file that receipts are added to, if one is there.
///
/// # Errors
/// `Refused` with the line of a line that is no receipt; `Unread` if it can't be read; `Memory`.
fn receipts_at<D: Volume>(
    alloc: Global,
    disk: &mut D,
    path: Option<&str>,
) -> Result<Vec<Receipt>, QueueFault>
    ensures counts { CountsUnreadPaths ⊥ (D.failures disk.old) (D.failures disk.new) result }
    ensures disk { StaysWhole D.Disk disk.old disk.new }
    ensures receipts { MatchResult result
        (λ receipts. GivesReceipts (disk_reads D.Disk disk.old) (given_path path.entry) receipts.items)
        (FaultSays (SaysBadReceipt (disk_reads D.Disk disk.old) (given_path path.entry))
        (SaysUnreadable (given_path path.entry))) }
{
    let Some(path) = path else {
        return Ok(Vec::new(alloc));
    };
    match text_at(alloc, disk, path) {
        Ok(Some(text)) => receipts_of(alloc, path, &text),
        Ok(None) => Ok(Vec::new(alloc)),
        Err(fault) => Err(fault),
    }
}

/// The receipts of the text of the file at a path.
fn receipts_of(alloc: Global, path: &str, text: &[u8]) -> Result<Vec<Receipt>, QueueFault>
    ensures { MatchResult result (λ receipts. SaysAllBut text.now receipts.items) (FaultSays
        (λ line. (number : ℕ) × HasBadLine (ended_lines text.now) number
        × (line ≡ no_receipt_text path.now number))
        (λ line. ⊥)) }
{
    match kept_receipts(alloc, text) {
        Ok(receipts) => Ok(receipts),
        Err(ReceiptFault::Line(number)) => Err(not_a_receipt(alloc, path, number)),
        Err(ReceiptFault::Memory) => Err(QueueFault::Memory),
    }
}

/// The bytes of the file at a path, or None if there is none.
fn text_at<D: Volume>(
    alloc: Global,
    disk: &mut D,
    path: &str,
) -> Result<Option<Vec<u8>>, QueueFault>
    ensures counts { CountsUnreadPaths ⊥ (D.failures disk.old) (D.failures disk.new) result }
    ensures disk { StaysWhole D.Disk disk.old disk.new }
    ensures text { MatchResult result
        (λ found. disk_reads D.Disk disk.old path.now (option_map (λ text. text.items) found))
        (FaultSays (λ line. ⊥) (λ line. line ≡ unreadable_text path.now)) }
{
    match read_file(disk, alloc, path) {
        Ok(found) => Ok(found),
        Err(ReadFault::Disk) => Err(unreadable(alloc, path)),
        Err(ReadFault::Memory) => Err(QueueFault::Memory),
    }
}

/// The recordings at these paths, named by the text of the file of names at a path, each with a name of its
/// own.
///
/// # Errors
/// `Refused` with the line of the first line of the text that isn't good, of a path without a name, or of
/// two that have one name; `Memory`.
fn name_all(
    alloc: Global,
    names: Option<&str>,
    text: &[u8],
    paths: &[String],
) -> Result<Vec<QueuedRecording>, QueueFault>
    ensures { MatchResult result
        (λ recordings. AreNamedBy text.now (map string_bytes paths.now) recordings.items)
        (FaultSays (SaysUnnamed (names_path (given_path names.entry)) text.now (map string_bytes paths.now))
        (λ line. ⊥)) }
{
    let lines = lines_of(alloc, text)?;
    if let Some(number) = bad_line(&lines) {
        return Err(bad_naming(alloc, path_or_empty(names), number));
    }
    let recordings = match name_recordings(alloc, &lines, paths) {
        Ok(recordings) => recordings,
        Err(fault) => return Err(fault),
    };
    match refuse_alike(alloc, &recordings) {
        Ok(()) => Ok(recordings),
        Err(fault) => Err(fault),
    }
}

/// The path of the file of names, or nothing without one.
fn path_or_empty(names: Option<&str>) -> &str
    ensures { result.now ≡ names_path (given_path names.entry) }
{
    match names {
        Some(path) => path,
        None => "",
    }
}
