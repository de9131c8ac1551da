//! A line of a file of receipts.
ghost use Rattle.std.specs.Prelude.{IfOk, MatchOption};
ghost use Rattle.bw_take_files.specs.Receipts.{IsReceiptLine};
ghost use Rattle.bw_take_files.specs.declared.receipts.receipt.Receipt.{Receipt as Said};

use crate::receipts::object::receipt_in_json;
use crate::receipts::receipt::Receipt;
use crate::receipts::words::receipt_in_words;
use std::alloc::{AllocError, Global};

/// The receipt that a line is, of words or of JSON.
pub(crate) fn receipt_in_line(alloc: Global, line: &[u8]) -> Result<Option<Receipt>, AllocError>
    ensures { IfOk result (λ found. MatchOption found ((r : Said) → ¬ IsReceiptLine line.now r)
        (IsReceiptLine line.now)) }
{
    let Ok(text) = std::str::from_utf8(line) else {
        return Ok(None);
    };
    match receipt_in_words(text) {
        Some(receipt) => Ok(Some(receipt)),
        None => receipt_in_json(alloc, text),
    }
}
