//! What of a file would be cleaned, where nothing may be.
ghost use Rattle.std.specs.Prelude.{◌≡◌, option_map, slice_index_or};
ghost use Rattle.std.specs.List.{prefix_len};
ghost use Rattle.bw_model.specs.Take.{is_printable as is_byte_of_text, is_history_byte as is_byte_of_history};
ghost use Rattle.bw_inspect.specs.Reports.{bext_by};
ghost use Rattle.bw_plan.specs.Recordings.{bext_texts};
ghost use Rattle.bw_plan.specs.UncleanParts.{unclean_texts, unclean_text as unclean_text_of};
ghost use Rattle.bw_plan.specs.UncleanParts.{unclean_history as unclean_history_of};

use crate::cleaning::text_before_zero;
use crate::kept::{can_set, is_history_byte};
use bw_inspect::BextChunk;
use bw_layout::RawBext;
use bw_model::LONGEST_HISTORY;

/// What would be cleaned first.
#[derive(Clone, Copy, Debug, PartialEq, Eq, Hash)]
pub enum UncleanPart {
    /// A byte of the field of `bext` with this tag, by its place in the field.
    Byte { tag: u8, offset: usize, byte: u8 },
    /// The date or the time with this tag has another form.
    Form { tag: u8 },
    /// A byte of the coding history, by its place.
    HistoryByte { offset: usize, byte: u8 },
    /// The coding history is longer than 4,096 bytes.
    LongHistory,
    /// Cue points.
    Cues,
}

/// What would be cleaned first of a `bext` chunk and its coding history, if anything would.
pub(crate) fn unclean_bext(bext: &Option<BextChunk>, history: &[u8]) -> UncleanPart
    ensures { result ≡ unclean_texts (unclean_history_of history.now) 1
        (bext_texts (option_map bext_by bext.now)) }
{
    match bext {
        Some(chunk) => unclean_fields(&chunk.fields, unclean_history(history)),
        None => unclean_history(history),
    }
}

/// The first text that may not stay as it is, or else this other part.
fn unclean_fields(bext: &RawBext, other: UncleanPart) -> UncleanPart
    ensures { result ≡ unclean_texts other 1 bext.now.0.texts }
{
    if !can_set(1, text_before_zero(&bext.description)) {
        unclean_text(1, text_before_zero(&bext.description))
    } else if !can_set(2, text_before_zero(&bext.originator)) {
        unclean_text(2, text_before_zero(&bext.originator))
    } else if !can_set(3, text_before_zero(&bext.originator_reference)) {
        unclean_text(3, text_before_zero(&bext.originator_reference))
    } else if !can_set(4, text_before_zero(&bext.origination_date)) {
        unclean_text(4, text_before_zero(&bext.origination_date))
    } else if !can_set(5, text_before_zero(&bext.origination_time)) {
        unclean_text(5, text_before_zero(&bext.origination_time))
    } else {
        other
    }
}

/// What would be cleaned of a text that the field with this tag doesn't take.
fn unclean_text(tag: u8, text: &[u8]) -> UncleanPart
    ensures { result ≡ unclean_text_of tag text.now }
{
    if tag >= 4 {
        return UncleanPart::Form { tag };
    }
    let offset = printable_len(text);
    UncleanPart::Byte {
        tag,
        offset,
        byte: byte_at(text, offset),
    }
}

/// What would be cleaned of a coding history that isn't kept as it is.
fn unclean_history(history: &[u8]) -> UncleanPart
    ensures { result ≡ unclean_history_of history.now }
{
    let text = text_before_zero(history);
    if text.len() > LONGEST_HISTORY {
        return UncleanPart::LongHistory;
    }
    let offset = history_len(text);
    UncleanPart::HistoryByte {
        offset,
        byte: byte_at(text, offset),
    }
}

/// How many bytes come before the first that isn't printable.
fn printable_len(text: &[u8]) -> usize
    ensures { result ≡ prefix_len is_byte_of_text text.now }
{
    text.iter().take_while(|c| (32..=126).contains(*c)).count()
}

/// How many bytes come before the first that a coding history may not have.
fn history_len(text: &[u8]) -> usize
    ensures { result ≡ prefix_len is_byte_of_history text.now }
{
    text.iter().take_while(|c| is_history_byte(**c)).count()
}

/// The byte at a place; 0 after the last.
fn byte_at(text: &[u8], offset: usize) -> u8
    ensures { result ≡ slice_index_or text.now offset 0 }
{
    match text.get(offset) {
        Some(byte) => *byte,
        None => 0,
    }
}
