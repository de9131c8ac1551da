//! Whether texts may stay as they are.
ghost use Rattle.std.specs.Prelude.{◌≡◌, ◌&&◌, is_none, option_map};
ghost use Rattle.std.specs.List.{list_all};
ghost use Rattle.bw_model.specs.Take.{field_fault, is_history_byte as is_byte_of_history};
ghost use Rattle.bw_inspect.specs.Reports.{bext_by};
ghost use Rattle.bw_plan.specs.CleanedContents.{text_cleaned_of, are_texts_kept, is_history_kept};
ghost use Rattle.bw_plan.specs.Recordings.{bext_texts};

use crate::cleaning::text_before_zero;
use bw_inspect::BextChunk;
use bw_layout::{Bext, RawBext};
use bw_model::LONGEST_HISTORY;

/// Whether nothing of a `bext` chunk and its coding history has to be cleaned.
pub(crate) fn is_bext_kept(bext: &Option<BextChunk>, history: &[u8]) -> bool
    ensures { result ≡ (are_texts_kept 1 (bext_texts (option_map bext_by bext.now))
        && is_history_kept history.now) }
{
    are_chunk_texts_kept(bext) && is_history(history)
}

fn are_chunk_texts_kept(bext: &Option<BextChunk>) -> bool
    ensures { result ≡ are_texts_kept 1 (bext_texts (option_map bext_by bext.now)) }
{
    match bext {
        Some(chunk) => are_texts(&chunk.fields),
        None => true,
    }
}

fn are_texts(bext: &RawBext) -> bool
    ensures { result ≡ are_texts_kept 1 bext.now.0.texts }
{
    can_set(1, text_before_zero(&bext.description))
        && can_set(2, text_before_zero(&bext.originator))
        && can_set(3, text_before_zero(&bext.originator_reference))
        && can_set(4, text_before_zero(&bext.origination_date))
        && can_set(5, text_before_zero(&bext.origination_time))
}

/// Whether a field takes a value.
pub(crate) fn can_set(tag: u8, value: &[u8]) -> bool
    ensures { result ≡ is_none (field_fault tag value.now) }
{
    Bext::new().set(tag, value).is_ok()
}

pub(crate) fn is_history(bytes: &[u8]) -> bool
    ensures { result ≡ is_history_kept bytes.now }
{
    let text = text_before_zero(bytes);
    text.len() <= LONGEST_HISTORY && has_history_bytes(text)
}

pub(crate) fn has_history_bytes(text: &[u8]) -> bool
    ensures { result ≡ list_all is_byte_of_history text.now }
{
    text.iter().all(|c| is_history_byte(*c))
}

/// Carriage return, line feed, or printable.
pub(crate) fn is_history_byte(c: u8) -> bool
    ensures { result ≡ is_byte_of_history c }
{
    c == b'\r' || c == b'\n' || (32..=126).contains(&c)
}
