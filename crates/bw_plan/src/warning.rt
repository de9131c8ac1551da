//! What a recording loses of its file.
ghost use Rattle.std.specs.Prelude.{◌≡◌, ◌==◌, ◌&&◌, not, nat_le, length, option_map, fold, IfOk, OnOk};
ghost use Rattle.bw_model.specs.Bytes.{u32_at};
ghost use Rattle.bw_inspect.specs.Reports.{bext_by};
ghost use Rattle.bw_plan.specs.Notes.{notes_by};
ghost use Rattle.bw_plan.specs.Recordings.{bext_texts, extensible};
ghost use Rattle.bw_plan.specs.Warnings.{history_warned, warned, loss, field_warned, texts_warned, chunk_warned};
ghost use Rattle.bw_plan.specs.Warnings.{carried_text as text_carried};
ghost use Rattle.bw_plan.specs.Warnings.{is_carried as is_carried_id, is_other_form as has_other_form};
ghost use Rattle.bw_plan.specs.Warnings.{content_warnings, warnings_of};
ghost use Rattle.bw_plan.specs.ReportedWarnings.{warning_meanings, warning_meaning};

use crate::cleaning::{clean_digits, clean_history, clean_text, is_like, text_before_zero, to_vec};
use crate::format::EXTENSIBLE;
use crate::kept::{can_set, is_history};
use crate::outline::Outline;
use bw_inspect::{BextChunk, ListedChunk, Report};
use bw_layout::{ChunkId, RawBext, read_u32};
use std::alloc::{AllocError, Global};

/// What a recording loses of its file.
#[derive(Debug, Drop)]
pub enum Warning {
    /// The text of the field with this tag became another one: what it was, and what is carried.
    FieldCleaned {
        tag: u8,
        before: Vec<u8>,
        after: Vec<u8>,
    },
    /// The field with this tag is left out: a date or a time of another form.
    FieldLeftOut {
        tag: u8,
    },
    /// The coding history became another one: what it was, as far as it is read, and what is
    /// carried.
    HistoryCleaned {
        before: Vec<u8>,
        after: Vec<u8>,
    },
    /// So many cue points are left out.
    CuesLeftOut {
        count: usize,
    },
    /// The channel mask of an extensible format is left out; one of 0 says nothing.
    MaskLeftOut,
    /// A chunk that isn't carried.
    ChunkLeftOut {
        chunk: ListedChunk,
    },
}

/// What a recording with this outline loses of the file with this report, this extension of its
/// format and this coding history, as they are there: first the texts of `bext` by tag, last the
/// chunks. A setting in place of a text or of the history doesn't change the warnings.
///
/// # Errors
/// `AllocError` where memory was refused.
pub fn warnings(
    alloc: Global,
    report: &Report,
    extension: &[u8],
    history: &[u8],
    outline: &Outline,
) -> Result<Vec<Warning>, AllocError>
    ensures { IfOk result (λ v. warning_meanings v.items
        ≡ warnings_of (notes_by report.now extension.now history.now) outline.now) }
{
    let mut out = content_losses(alloc, report, extension, history, outline)?;
    warn_of_chunks(&mut out, report.chunks.as_slice())?;
    Ok(out)
}

/// The warnings of what isn't a chunk.
///
/// # Errors
/// `AllocError` where memory was refused.
fn content_losses(
    alloc: Global,
    report: &Report,
    extension: &[u8],
    history: &[u8],
    outline: &Outline,
) -> Result<Vec<Warning>, AllocError>
    ensures { IfOk result (λ v. warning_meanings v.items
        ≡ content_warnings (notes_by report.now extension.now history.now) outline.now) }
{
    let mut out = Vec::new(alloc);
    warn_of_bext(alloc, &mut out, &report.bext)?;
    warn_of_history(alloc, &mut out, history)?;
    let count = report
        .cues
        .as_slice()
        .len()
        .saturating_sub(outline.markers().len());
    warn_if(&mut out, count > 0, Warning::CuesLeftOut { count })?;
    warn_if(
        &mut out,
        has_mask(report.fmt.tag, extension),
        Warning::MaskLeftOut,
    )?;
    Ok(out)
}

fn warn_of_history(alloc: Global, out: &mut Vec<Warning>, bytes: &[u8]) -> Result<(), AllocError>
    ensures { OnOk result (warning_meanings out.new.items
        ≡ history_warned (warning_meanings out.old.items) bytes.now) }
{
    if is_history(bytes) {
        return Ok(());
    }
    let before = to_vec(alloc, text_before_zero(bytes))?;
    let after = clean_history(alloc, bytes)?;
    out.push(Warning::HistoryCleaned { before, after })?;
    Ok(())
}

/// Whether an extensible format says which speakers its channels are for.
fn has_mask(tag: u16, extension: &[u8]) -> bool
    ensures { result ≡ ((tag == extensible)
        && (nat_le 8 (length extension.now) && not (u32_at extension.now 4 == 0))) }
{
    tag == EXTENSIBLE && extension.len() >= 8 && read_u32(extension, 4) != 0
}

/// Puts a warning after the others, where the test holds.
///
/// # Errors
/// `AllocError` where memory was refused.
fn warn_if(out: &mut Vec<Warning>, holds: bool, warning: Warning) -> Result<(), AllocError>
    ensures { OnOk result (warning_meanings out.new.items
        ≡ warned (warning_meanings out.old.items) holds (warning_meaning warning)) }
{
    if !holds {
        return Ok(());
    }
    out.push(warning)?;
    Ok(())
}

fn warn_of_bext(
    alloc: Global,
    out: &mut Vec<Warning>,
    bext: &Option<BextChunk>,
) -> Result<(), AllocError>
    ensures { OnOk result (warning_meanings out.new.items
        ≡ texts_warned (warning_meanings out.old.items) 1
        (bext_texts (option_map bext_by bext.now))) }
{
    match bext {
        Some(chunk) => warn_of_texts(alloc, out, &chunk.fields),
        None => Ok(()),
    }
}

fn warn_of_texts(alloc: Global, out: &mut Vec<Warning>, bext: &RawBext) -> Result<(), AllocError>
    ensures { OnOk result (warning_meanings out.new.items
        ≡ texts_warned (warning_meanings out.old.items) 1 bext.now.0.texts) }
{
    warn_of_field(alloc, out, 1, &bext.description)?;
    warn_of_field(alloc, out, 2, &bext.originator)?;
    warn_of_field(alloc, out, 3, &bext.originator_reference)?;
    warn_of_field(alloc, out, 4, &bext.origination_date)?;
    warn_of_field(alloc, out, 5, &bext.origination_time)
}

fn warn_of_field(
    alloc: Global,
    out: &mut Vec<Warning>,
    tag: u8,
    bytes: &[u8],
) -> Result<(), AllocError>
    ensures { OnOk result (warning_meanings out.new.items
        ≡ field_warned (warning_meanings out.old.items) tag bytes.now) }
{
    if can_set(tag, text_before_zero(bytes)) {
        return Ok(());
    }
    let warning = loss_of(alloc, tag, bytes)?;
    out.push(warning)?;
    Ok(())
}

/// The warning of a field whose text may not stay as it is.
///
/// # Errors
/// `AllocError` where memory was refused.
fn loss_of(alloc: Global, tag: u8, bytes: &[u8]) -> Result<Warning, AllocError>
    ensures { IfOk result (λ w. warning_meaning w ≡ loss tag bytes.now) }
{
    let text = text_before_zero(bytes);
    if is_other_form(tag, text) {
        return Ok(Warning::FieldLeftOut { tag });
    }
    let before = to_vec(alloc, text)?;
    let after = carried_text(alloc, tag, bytes)?;
    Ok(Warning::FieldCleaned { tag, before, after })
}

/// The text that is carried for that of a field's bytes.
///
/// # Errors
/// `AllocError` where memory was refused.
fn carried_text(alloc: Global, tag: u8, bytes: &[u8]) -> Result<Vec<u8>, AllocError>
    ensures { IfOk result (λ v. v.items ≡ text_carried tag bytes.now) }
{
    if tag == 4 {
        clean_digits(alloc, b"dddd-dd-dd", bytes)
    } else if tag == 5 {
        clean_digits(alloc, b"dd:dd:dd", bytes)
    } else {
        clean_text(alloc, bytes)
    }
}

/// Whether a text is a date or a time of another form.
fn is_other_form(tag: u8, text: &[u8]) -> bool
    ensures { result ≡ has_other_form tag text.now }
{
    (tag == 4 && !is_like(b"dddd-dd-dd", text)) || (tag == 5 && !is_like(b"dd:dd:dd", text))
}

fn warn_of_chunks(out: &mut Vec<Warning>, chunks: &[ListedChunk]) -> Result<(), AllocError>
    ensures { OnOk result (warning_meanings out.new.items
        ≡ fold chunk_warned (warning_meanings out.old.items) chunks.now) }
{
    for (_i, chunk) in chunks.iter().enumerate() {
        warn_if(
            out,
            !is_carried(chunk.id),
            Warning::ChunkLeftOut { chunk: *chunk },
        )?;
    }
    Ok(())
}

/// Whether a chunk with this id is carried, or holds only sizes, or nothing: any other is left out.
pub fn is_carried(id: ChunkId) -> bool
    ensures { result ≡ is_carried_id id }
{
    id.0 == *b"fmt "
        || id.0 == *b"bext"
        || id.0 == *b"data"
        || id.0 == *b"cue "
        || id.0 == *b"ds64"
        || id.0 == *b"JUNK"
}
