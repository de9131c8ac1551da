//! A file of receipts, whose last line may be cut: its writer was stopped, or the disk was full.
ghost use Rattle.std.specs.Prelude.{◌≡◌, MatchResult};
ghost use Rattle.bw_queue.specs.KeptReceipts.{HasBadLine, IsBadText, SaysAllBut, ended_lines as lines_ended};

use crate::places::last_place;
use bw_take_files::{Receipt, ReceiptFault, read_receipts};
use std::alloc::Global;

/// The receipts that a text says, whose last line may be cut: it is left out if no line feed ends it and
/// it is no receipt.
///
/// # Errors
/// `Line` at the first line that is no receipt, and neither empty nor cut; `Memory` if memory was refused.
pub(crate) fn kept_receipts(alloc: Global, text: &[u8]) -> Result<Vec<Receipt>, ReceiptFault>
    ensures { MatchResult result (λ receipts. SaysAllBut text.now receipts.items) (IsBadText text.now) }
{
    match read_receipts(alloc, text) {
        Err(ReceiptFault::Line(_)) => read_receipts(alloc, ended_lines(text)),
        Err(ReceiptFault::Memory) => Err(ReceiptFault::Memory),
        Ok(receipts) => Ok(receipts),
    }
}

/// The lines of a text that a line feed ends.
fn ended_lines(text: &[u8]) -> &[u8]
    ensures { result.now ≡ lines_ended text.now }
{
    match last_place(text, b'\n') {
        Some(place) => &text[..place + 1],
        None => &text[..0],
    }
}
