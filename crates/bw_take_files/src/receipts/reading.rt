//! A file of receipts is read.
ghost use Rattle.std.specs.Prelude.{◌≡◌, ◌++◌, IfOk, MatchBool, MatchResult, Option, map, option_to_list};
ghost use Rattle.bw_take_files.specs.ReceiptFiles.{IsReceiptFault, SayReceipts, SaysReceipt, receipt_lines};
ghost use Rattle.bw_take_files.specs.declared.receipts.receipt.Receipt.{Receipt as Said};

use crate::receipts::line::receipt_in_line;
use crate::receipts::receipt::{Receipt, ReceiptFault};
use std::alloc::{AllocError, Global};

/// The receipts that a text says, in the order of its lines. An empty line is left out.
///
/// # Errors
/// `Line` at the first line that is no receipt, and not empty; `Memory` if memory was refused.
///
/// # Not specified
/// When memory is refused.
pub fn read_receipts(alloc: Global, text: &[u8]) -> Result<Vec<Receipt>, ReceiptFault>
    ensures { MatchResult result (λ receipts. SayReceipts (receipt_lines text.now) receipts.items)
        (IsReceiptFault (receipt_lines text.now)) }
{
    let lines = lines_of(alloc, text)?;
    let mut receipts = Vec::new(alloc);
    let mut number = 0u64;
    for line in &lines {
        number += 1;
        if !put_receipt(alloc, line, &mut receipts)? {
            return Err(ReceiptFault::Line(number));
        }
    }
    Ok(receipts)
}

/// Appends the receipt that a line is, if it isn't empty. Returns whether it is one or empty.
fn put_receipt(alloc: Global, line: &[u8], receipts: &mut Vec<Receipt>) -> Result<bool, AllocError>
    ensures { IfOk result (λ good. MatchBool good
        ((said : Option Said) × SaysReceipt line.now said
        × (receipts.new.items ≡ receipts.old.items ++ option_to_list said))
        ((said : Option Said) → ¬ SaysReceipt line.now said)) }
{
    if line.is_empty() {
        return Ok(true);
    }
    let Some(receipt) = receipt_in_line(alloc, line)? else {
        return Ok(false);
    };
    receipts.push(receipt)?;
    Ok(true)
}

/// The lines of a text.
fn lines_of(alloc: Global, text: &[u8]) -> Result<Vec<&[u8]>, AllocError>
    ensures { IfOk result (λ found. map (λ x. x.now) found.items ≡ receipt_lines text.now) }
{
    text.split(|c| *c == b'\n').collect(alloc)
}
