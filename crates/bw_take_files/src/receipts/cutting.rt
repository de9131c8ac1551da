//! The words of a text, and what they say of a take.
ghost use Rattle.std.specs.Prelude.{◌≡◌, ℕ, MatchOption, option_map};
ghost use Rattle.std.specs.Result.{result_ok};
ghost use Rattle.hex.specs.Hex.{decode_sized};
ghost use Rattle.bw_take_files.specs.Receipts.{SaysCount, SaysTake, parts_at, cut_word};
ghost use Rattle.bw_take_files.specs.declared.receipts.receipt.Receipt.{Receipt as Said};

use crate::receipts::receipt::Receipt;
use bw_model::Name;

/// The first word of a text, and what follows the blank after it.
pub(crate) fn cut_word(text: &str) -> Option<(&str, &str)>
    ensures { option_map (λ parts. (parts.0.now, parts.1.now)) result ≡ cut_word text.now }
{
    text.split_once(' ')
}

/// What comes before the first `=` of a text, and after it.
pub(crate) fn cut_at_equals(text: &str) -> Option<(&str, &str)>
    ensures { option_map (λ parts. (parts.0.now, parts.1.now)) result ≡ parts_at 61 text.now }
{
    text.split_once('=')
}

/// The number of 64 bits that decimal digits are.
pub(crate) fn count_of(digits: &str) -> Option<u64>
    ensures { MatchOption result ((count : ℕ) → ¬ SaysCount digits.now count)
        (SaysCount digits.now) }
{
    // `parse` accepts a leading plus.
    if digits.as_bytes().first() == Some(&b'+') {
        return None;
    }
    digits.parse().ok()
}

/// The receipt of a take of this name, if it is one, whose samples have the digest that these digits
/// spell, if they do.
pub(crate) fn receipt_of(name: &str, frames: u64, digits: &str) -> Option<Receipt>
    ensures { MatchOption result ((r : Said) → ¬ SaysTake name.now frames digits.now r)
        (SaysTake name.now frames digits.now) }
{
    let name = Name::new(name.as_bytes())?;
    let digest = digest_of(digits)?;
    Some(Receipt {
        name,
        frames,
        digest,
    })
}

/// The 32 bytes that these digits spell.
fn digest_of(digits: &str) -> Option<[u8; 32]>
    ensures { result ≡ result_ok (decode_sized digits.now 32) }
{
    let mut digest = [0; 32];
    match hex::decode_to_slice(digits, &mut digest) {
        Ok(()) => Some(digest),
        Err(_) => None,
    }
}
