//! A report for people: times, sizes and levels with their units, a line each.
ghost use Rattle.std.specs.Prelude.{◌≡◌, ◌++◌, ◌∷◌, ◌==◌, not, codes, flat_map, map, option_map};
ghost use Rattle.std.specs.Prelude.{take_while, unwrap_or, [], OnOk};
ghost use Rattle.bw_model.specs.Report.{frames_of, id_byte};
ghost use Rattle.bw_console.specs.Text.{as_line};
ghost use Rattle.bw_inspect.specs.Reports.{bext_by, reported_by};
ghost use Rattle.bw_report.specs.HumanTexts.{human_bext, channels_text, human_chunk, dated_lines};
ghost use Rattle.bw_report.specs.HumanTexts.{human_form, human_format, head_lines, human_text};
ghost use Rattle.bw_report.specs.HumanTexts.{level_line, level_lines, loudest_lines, mark_lines};
ghost use Rattle.bw_report.specs.HumanTexts.{marker_line, named_lines, range_lines, rest_lines};
ghost use Rattle.bw_report.specs.HumanTexts.{samples_lines, shown_line, sound_lines, tag_text};
ghost use Rattle.bw_report.specs.HumanTexts.{time_line, true_peak_line};
ghost use Rattle.bw_report.specs.UnitTexts.{size_text, time_text};

use crate::parts::whole_frames;
use crate::shown::put_shown;
use crate::time::milliseconds;
use crate::units::{put_count, put_level, put_number, put_size, put_time};
use crate::value::text_before_zero;
use bw_inspect::{BextChunk, Chunks, Cues, ListedChunk, Report};
use bw_layout::{ChunkId, Loudness, RawBext, RawCue, RawFmt};
use std::alloc::{AllocError, Global};

/// Appends a report's lines.
pub(crate) fn put_report(
    alloc: Global,
    text: &mut Vec<u8>,
    report: &Report,
) -> Result<(), AllocError>
    ensures { OnOk result (text.new.items ≡ text.old.items ++ human_text (reported_by report.now)) }
{
    put_sound(text, report)?;
    put_rest(alloc, text, report)?;
    Ok(())
}

/// Appends what is known beside the samples.
fn put_rest(alloc: Global, text: &mut Vec<u8>, report: &Report) -> Result<(), AllocError>
    ensures { OnOk result (text.new.items ≡ text.old.items ++ rest_lines (reported_by report.now)) }
{
    put_bext(alloc, text, &report.bext, report.fmt.rate)?;
    put_marks(text, report)?;
    Ok(())
}

/// Appends the form, and what its samples are.
fn put_sound(text: &mut Vec<u8>, report: &Report) -> Result<(), AllocError>
    ensures { OnOk result (text.new.items
        ≡ text.old.items ++ sound_lines (reported_by report.now)) }
{
    put_head(text, report)?;
    put_samples(text, report.data_size, &report.fmt)?;
    Ok(())
}

fn put_head(text: &mut Vec<u8>, report: &Report) -> Result<(), AllocError>
    ensures { OnOk result (text.new.items ≡ text.old.items ++ head_lines (reported_by report.now)) }
{
    put_form(text, &report.form, report.size)?;
    put_format(text, &report.fmt)?;
    Ok(())
}

/// Appends the markers and the chunks.
fn put_marks(text: &mut Vec<u8>, report: &Report) -> Result<(), AllocError>
    ensures { OnOk result (text.new.items ≡ text.old.items ++ mark_lines (reported_by report.now)) }
{
    put_markers(text, &report.cues, report.fmt.rate)?;
    put_chunks(text, &report.chunks)?;
    Ok(())
}

fn put_form(text: &mut Vec<u8>, id: &ChunkId, size: u64) -> Result<(), AllocError>
    ensures { OnOk result (text.new.items ≡ text.old.items ++ human_form id.now size) }
{
    text.extend_from_slice(b"form ")?;
    text.extend_from_slice(&id.0)?;
    end_with_size(text, size)
}

/// Appends a space and a size, and ends the line.
fn end_with_size(text: &mut Vec<u8>, size: u64) -> Result<(), AllocError>
    ensures { OnOk result (text.new.items
        ≡ text.old.items ++ as_line (codes " " ++ size_text size)) }
{
    text.extend_from_slice(b" ")?;
    put_size(text, size)?;
    text.extend_from_slice(b"\n")
}

/// Appends the line of the samples' format.
fn put_format(text: &mut Vec<u8>, fmt: &RawFmt) -> Result<(), AllocError>
    ensures { OnOk result (text.new.items ≡ text.old.items ++ human_format fmt.now) }
{
    text.extend_from_slice(b"format ")?;
    put_tag(text, fmt.tag)?;
    text.extend_from_slice(b" ")?;
    put_count(text, fmt.rate.into(), " Hz ")?;
    put_count(text, fmt.bits.into(), " bits ")?;
    put_channels(text, fmt.channels)?;
    text.extend_from_slice(b"\n")
}

/// Appends the name of a format tag (RIFF WAVE), or its number.
fn put_tag(text: &mut Vec<u8>, tag: u16) -> Result<(), AllocError>
    ensures { OnOk result (text.new.items ≡ text.old.items ++ tag_text tag) }
{
    if tag == 1 {
        text.extend_from_slice(b"PCM")
    } else if tag == 3 {
        text.extend_from_slice(b"float")
    } else if tag == 0xfffe {
        text.extend_from_slice(b"extensible")
    } else {
        text.extend_from_slice(b"tag ")?;
        put_number(text, tag.into())
    }
}

fn put_channels(text: &mut Vec<u8>, channels: u16) -> Result<(), AllocError>
    ensures { OnOk result (text.new.items ≡ text.old.items ++ channels_text channels) }
{
    if channels == 1 {
        text.extend_from_slice(b"1 channel")
    } else {
        put_count(text, channels.into(), " channels")
    }
}

/// Appends how long the samples last, and how many they are.
fn put_samples(text: &mut Vec<u8>, size: u64, fmt: &RawFmt) -> Result<(), AllocError>
    ensures { OnOk result (text.new.items ≡ text.old.items ++ samples_lines size fmt.now) }
{
    let frames = whole_frames(size, fmt.align);
    put_time_line(text, "duration", milliseconds(frames, fmt.rate))?;
    text.extend_from_slice(b"samples ")?;
    put_size(text, size)?;
    text.extend_from_slice(b" ")?;
    put_count(text, frames, " frames\n")
}

fn put_time_line(text: &mut Vec<u8>, name: &str, ms: Option<u64>) -> Result<(), AllocError>
    ensures { OnOk result (text.new.items ≡ text.old.items ++ time_line name.now ms) }
{
    text.extend_from_slice(name.as_bytes())?;
    end_with_time(text, ms)
}

/// Appends a space and a time, and ends the line.
fn end_with_time(text: &mut Vec<u8>, ms: Option<u64>) -> Result<(), AllocError>
    ensures { OnOk result (text.new.items
        ≡ text.old.items ++ as_line (codes " " ++ time_text ms)) }
{
    text.extend_from_slice(b" ")?;
    put_time(text, ms)?;
    text.extend_from_slice(b"\n")
}

/// Appends the lines of a `bext` chunk, if there is one, with the time of day at this rate.
fn put_bext(
    alloc: Global,
    text: &mut Vec<u8>,
    bext: &Option<BextChunk>,
    rate: u32,
) -> Result<(), AllocError>
    ensures { OnOk result (text.new.items
        ≡ text.old.items ++ human_bext rate (option_map bext_by bext.now)) }
{
    match bext {
        Some(chunk) => {
            put_named(alloc, text, &chunk.fields)?;
            put_dated(alloc, text, &chunk.fields, rate)?;
            put_loudness(text, &chunk.fields.loudness)
        }
        None => Ok(()),
    }
}

/// Appends the lines of what was recorded, and by whom.
fn put_named(alloc: Global, text: &mut Vec<u8>, fields: &RawBext) -> Result<(), AllocError>
    ensures { OnOk result (text.new.items ≡ text.old.items ++ named_lines fields.now.0) }
{
    put_text(alloc, text, "description", &fields.description)?;
    put_text(alloc, text, "originator", &fields.originator)?;
    put_text(alloc, text, "reference", &fields.originator_reference)?;
    Ok(())
}

/// Appends the lines of when it was recorded.
fn put_dated(
    alloc: Global,
    text: &mut Vec<u8>,
    fields: &RawBext,
    rate: u32,
) -> Result<(), AllocError>
    ensures { OnOk result (text.new.items ≡ text.old.items ++ dated_lines rate fields.now.0) }
{
    put_text(alloc, text, "date", &fields.origination_date)?;
    put_text(alloc, text, "clock", &fields.origination_time)?;
    put_time_line(
        text,
        "time of day",
        milliseconds(fields.time_reference, rate),
    )?;
    Ok(())
}

/// Appends the line of a field's bytes before its first zero byte, if there are any.
fn put_text(alloc: Global, text: &mut Vec<u8>, name: &str, field: &[u8]) -> Result<(), AllocError>
    ensures { OnOk result (text.new.items
        ≡ text.old.items ++ shown_line name.now (take_while (λ c. not (c == 0)) field.now)) }
{
    let bytes = text_before_zero(field);
    if bytes.is_empty() {
        return Ok(());
    }
    text.extend_from_slice(name.as_bytes())?;
    text.extend_from_slice(b" ")?;
    put_shown(alloc, text, bytes)?;
    text.extend_from_slice(b"\n")
}

/// Appends the lines of the five levels, if the version has them.
fn put_loudness(text: &mut Vec<u8>, loudness: &Option<Loudness>) -> Result<(), AllocError>
    ensures { OnOk result (text.new.items
        ≡ text.old.items ++ level_lines (unwrap_or loudness.now [])) }
{
    match loudness {
        Some(levels) => put_levels(text, levels),
        None => Ok(()),
    }
}

fn put_levels(text: &mut Vec<u8>, levels: &Loudness) -> Result<(), AllocError>
    ensures { OnOk result (text.new.items ≡ text.old.items ++ level_lines levels.now) }
{
    put_level_lines(
        text,
        levels.value,
        levels.range,
        levels.max_true_peak,
        levels.max_momentary,
        levels.max_short_term,
    )
}

fn put_level_lines(
    text: &mut Vec<u8>,
    value: u16,
    range: u16,
    peak: u16,
    momentary: u16,
    short: u16,
) -> Result<(), AllocError>
    ensures { OnOk result (text.new.items
        ≡ text.old.items ++ level_lines (value ∷ range ∷ peak ∷ momentary ∷ short ∷ [])) }
{
    put_ranges(text, value, range)?;
    put_true_peak(text, peak)?;
    put_loudest(text, momentary, short)
}

fn put_ranges(text: &mut Vec<u8>, value: u16, range: u16) -> Result<(), AllocError>
    ensures { OnOk result (text.new.items ≡ text.old.items ++ range_lines value range) }
{
    put_level_line(text, "loudness", value, "LUFS")?;
    put_level_line(text, "loudness range", range, "LU")?;
    Ok(())
}

fn put_true_peak(text: &mut Vec<u8>, peak: u16) -> Result<(), AllocError>
    ensures { OnOk result (text.new.items ≡ text.old.items ++ true_peak_line peak) }
{
    put_level_line(text, "true peak", peak, "dBTP")
}

fn put_loudest(text: &mut Vec<u8>, momentary: u16, short: u16) -> Result<(), AllocError>
    ensures { OnOk result (text.new.items ≡ text.old.items ++ loudest_lines momentary short) }
{
    put_level_line(text, "momentary", momentary, "LUFS")?;
    put_level_line(text, "short-term", short, "LUFS")?;
    Ok(())
}

fn put_level_line(text: &mut Vec<u8>, name: &str, level: u16, unit: &str) -> Result<(), AllocError>
    ensures { OnOk result (text.new.items ≡ text.old.items ++ level_line name.now unit.now level) }
{
    text.extend_from_slice(name.as_bytes())?;
    text.extend_from_slice(b" ")?;
    put_level(text, level, unit)?;
    text.extend_from_slice(b"\n")
}

/// Appends a line for each cue point: its identifier, and its time at this rate.
fn put_markers(text: &mut Vec<u8>, cues: &Cues, rate: u32) -> Result<(), AllocError>
    ensures { OnOk result (text.new.items
        ≡ text.old.items ++ flat_map (marker_line rate) cues.now) }
{
    for cue in cues.as_slice() {
        put_marker(text, cue, rate)?;
    }
    Ok(())
}

fn put_marker(text: &mut Vec<u8>, cue: &RawCue, rate: u32) -> Result<(), AllocError>
    ensures { OnOk result (text.new.items ≡ text.old.items ++ marker_line rate cue.now) }
{
    text.extend_from_slice(b"marker ")?;
    put_number(text, cue.id.into())?;
    end_with_time(text, milliseconds(cue.offset.into(), rate))
}

/// Appends a line for each chunk: its identifier and its size.
fn put_chunks(text: &mut Vec<u8>, chunks: &Chunks) -> Result<(), AllocError>
    ensures { OnOk result (text.new.items ≡ text.old.items ++ flat_map human_chunk chunks.now) }
{
    for chunk in chunks.as_slice() {
        put_chunk(text, chunk)?;
    }
    Ok(())
}

fn put_chunk(text: &mut Vec<u8>, chunk: &ListedChunk) -> Result<(), AllocError>
    ensures { OnOk result (text.new.items ≡ text.old.items ++ human_chunk chunk.now) }
{
    text.extend_from_slice(b"chunk ")?;
    text.extend_from_slice(&visible(&chunk.id.0))?;
    end_with_size(text, chunk.size)
}

/// An identifier, with a full stop for each byte that isn't visible.
pub(crate) fn visible(id: &[u8; 4]) -> [u8; 4]
    ensures { result ≡ map id_byte id.now }
{
    id.map(|byte| if byte.is_ascii_graphic() { byte } else { b'.' })
}
