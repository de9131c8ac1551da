//! Receipts in words.
ghost use Rattle.std.specs.Prelude.{◌≡◌, ℕ, List, MatchOption, Some};
ghost use Rattle.bw_take_files.specs.Receipts.{HasReceiptWords, IsReceiptText, cut_word as word_cut};
ghost use Rattle.bw_take_files.specs.declared.receipts.receipt.Receipt.{Receipt as Said};

use crate::receipts::cutting::{count_of, cut_at_equals, cut_word, receipt_of};
use crate::receipts::receipt::Receipt;

/// The receipt that a line of words is: `receipt NAME FRAMES sha256=DIGITS ADDRESS SOURCE`.
pub(crate) fn receipt_in_words(line: &str) -> Option<Receipt>
    ensures { MatchOption result ((r : Said) → ¬ IsReceiptText line.now r)
        (IsReceiptText line.now) }
{
    let Some((name, count, digits)) = words_of(line) else {
        return None;
    };
    let Some(frames) = count_of(count) else {
        return None;
    };
    receipt_of(name, frames, digits)
}

/// The words for the name, the frames and the digest.
fn words_of(line: &str) -> Option<(&str, &str, &str)>
    ensures { MatchOption result
        ((name count digits : List ℕ) → ¬ HasReceiptWords line.now name count digits)
        (λ words. HasReceiptWords line.now words.0.now words.1.now words.2.now) }
{
    let rest = after_label(line, "receipt")?;
    let (name, after_name) = cut_word(rest)?;
    let (count, after_count) = cut_word(after_name)?;
    let (label, after_label) = cut_at_equals(after_count)?;
    if label != "sha256" {
        return None;
    }
    let (digits, after_digits) = cut_word(after_label)?;
    let (_address, _source) = cut_word(after_digits)?;
    Some((name, count, digits))
}

/// What follows this word and a blank, if a text begins so.
fn after_label<'a>(text: &'a str, label: &str) -> Option<&'a str>
    ensures { MatchOption result ((rest : List ℕ) → ¬ (word_cut text.now ≡ Some (label.now, rest)))
        (λ rest. word_cut text.now ≡ Some (label.now, rest.now)) }
{
    let (word, rest) = cut_word(text)?;
    if word == label { Some(rest) } else { None }
}
