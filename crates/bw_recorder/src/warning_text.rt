//! The lines of what a recording loses of its file.
ghost use Rattle.std.specs.Prelude.{◌≡◌, ◌+◌, ◌≤◌, ◌++◌, [], map, length, IfOk, OnOk};
ghost use Rattle.bw_console.specs.Text.{as_line};
ghost use Rattle.bw_model.specs.Report.{id_byte};
ghost use Rattle.bw_plan.specs.ReportedWarnings.{warning_meanings, warning_meaning};
ghost use Rattle.bw_plan.specs.Warnings.{CuesLeftOut, ChunkLeftOut};
ghost use Rattle.bw_recorder.specs.WarningTexts.{cleaning_text, key_of, warning_line, warning_lines};

use crate::quoted::put_quoted;
use bw_inspect::ListedChunk;
use bw_layout::ChunkId;
use bw_plan::Warning;
use itoa::Buffer;
use std::alloc::{AllocError, Global};

/// A line for each warning.
///
/// # Errors
/// `AllocError` where memory was refused.
pub(crate) fn warning_text(alloc: Global, warnings: &[Warning]) -> Result<Vec<u8>, AllocError>
    ensures { IfOk result (λ v. v.items ≡ warning_lines (warning_meanings warnings.now)) }
{
    let mut text = Vec::new(alloc);
    for (_i, warning) in warnings.iter().enumerate() {
        put_warning(alloc, &mut text, warning)?;
    }
    Ok(text)
}

/// Appends the line of a warning.
///
/// # Errors
/// `AllocError` where memory was refused.
fn put_warning(alloc: Global, text: &mut Vec<u8>, warning: &Warning) -> Result<(), AllocError>
    ensures { OnOk result (text.new.items
        ≡ text.old.items ++ warning_line (warning_meaning warning.now)) }
{
    match warning {
        Warning::FieldCleaned { tag, before, after } => {
            put_cleaned(alloc, text, key(*tag), before.as_slice(), after.as_slice())
        }
        Warning::FieldLeftOut { tag } => put_words(text, b"left out: ", key(*tag).as_bytes()),
        Warning::HistoryCleaned { before, after } => {
            put_cleaned(alloc, text, "history", before.as_slice(), after.as_slice())
        }
        Warning::CuesLeftOut { count } => put_count(text, *count as u64),
        Warning::MaskLeftOut => put_words(text, b"left out: channel mask", b""),
        Warning::ChunkLeftOut { chunk } => put_chunk(text, *chunk),
    }
}

/// Appends the line of a text, under this key, that became another one.
///
/// # Errors
/// `AllocError` where memory was refused.
fn put_cleaned(
    alloc: Global,
    text: &mut Vec<u8>,
    key: &str,
    before: &[u8],
    after: &[u8],
) -> Result<(), AllocError>
    ensures { OnOk result (text.new.items
        ≡ text.old.items ++ as_line (cleaning_text key.now before.now after.now)) }
{
    text.extend_from_slice(b"cleaned: ")?;
    text.extend_from_slice(key.as_bytes())?;
    text.extend_from_slice(b" ")?;
    put_quoted(alloc, text, before)?;
    text.extend_from_slice(b" -> ")?;
    put_quoted(alloc, text, after)?;
    text.extend_from_slice(b"\n")
}

fn put_words(text: &mut Vec<u8>, first: &[u8], second: &[u8]) -> Result<(), AllocError>
    ensures { OnOk result (text.new.items ≡ text.old.items ++ as_line (first.now ++ second.now)) }
{
    text.extend_from_slice(first)?;
    text.extend_from_slice(second)?;
    text.extend_from_slice(b"\n")
}

fn put_count(text: &mut Vec<u8>, count: u64) -> Result<(), AllocError>
    ensures { OnOk result (text.new.items
        ≡ text.old.items ++ warning_line (CuesLeftOut count)) }
{
    let mut digits = Buffer::new();
    put_words(
        text,
        b"left out: cue points ",
        digits.format(count).as_bytes(),
    )
}

fn put_chunk(text: &mut Vec<u8>, chunk: ListedChunk) -> Result<(), AllocError>
    ensures { OnOk result (text.new.items
        ≡ text.old.items ++ warning_line (ChunkLeftOut chunk)) }
{
    let mut digits = Buffer::new();
    let id = printed(chunk.id);
    text.extend_from_slice(b"left out: ")?;
    text.extend_from_slice(&id)?;
    put_words(text, b" ", digits.format(chunk.size).as_bytes())
}

/// A chunk's id, with a full stop for each byte that isn't visible.
fn printed(id: ChunkId) -> [u8; 4]
    ensures { result ≡ map id_byte id }
{
    id.0.map(|byte| { if byte.is_ascii_graphic() { byte } else { b'.' } })
}

/// The key of the text field of `bext` with this tag.
pub(crate) fn key(tag: u8) -> &'static str
    ensures value { result.now ≡ key_of tag }
    ensures short { length result.now ≤ 11 }
{
    match tag {
        1 => "description",
        2 => "originator",
        3 => "reference",
        4 => "date",
        _ => "clock",
    }
}
