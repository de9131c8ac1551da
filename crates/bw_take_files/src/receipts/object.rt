//! Receipts in JSON (RFC 8259).
ghost use Rattle.std.specs.Prelude.{◌≡◌, IfOk, MatchOption, option_map};
ghost use Rattle.serde_json.specs.View.{view};
ghost use Rattle.bw_take_files.specs.Receipts.{IsReceiptData, IsReceiptObject, count_member, text_member};
ghost use Rattle.bw_take_files.specs.declared.receipts.receipt.Receipt.{Receipt as Said};

use crate::receipts::cutting::receipt_of;
use crate::receipts::receipt::Receipt;
use serde_json::Value;
use serde_json::error::Category;
use std::alloc::{AllocError, Global};

/// The receipt that a line of JSON is: an object with the members of a receipt, and maybe others.
pub(crate) fn receipt_in_json(alloc: Global, line: &str) -> Result<Option<Receipt>, AllocError>
    ensures { IfOk result (λ found. MatchOption found ((r : Said) → ¬ IsReceiptObject line.now r)
        (IsReceiptObject line.now)) }
{
    match Value::from_str(alloc, line) {
        Ok(value) => Ok(receipt_in_value(&value)),
        Err(e) if e.classify() == Category::Memory => Err(AllocError),
        Err(_) => Ok(None),
    }
}

/// The receipt that an object is.
fn receipt_in_value(value: &Value) -> Option<Receipt>
    ensures { MatchOption result ((r : Said) → ¬ IsReceiptData (view value.now) r)
        (IsReceiptData (view value.now)) }
{
    let name = text_in(value, "name")?;
    let frames = count_in(value, "frames")?;
    let digits = text_in(value, "sha256")?;
    receipt_of(name, frames, digits)
}

/// The text that a member is, if it is one.
fn text_in<'a>(value: &'a Value, key: &str) -> Option<&'a str>
    ensures { option_map (λ text. text.now) result ≡ text_member key.now (view value.now) }
{
    value.get(key)?.as_str()
}

/// The whole number that a member is, if it is one of 64 bits.
fn count_in(value: &Value, key: &str) -> Option<u64>
    ensures { result ≡ count_member key.now (view value.now) }
{
    value.get(key)?.as_u64()
}
