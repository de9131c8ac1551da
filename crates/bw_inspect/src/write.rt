//! A report as text.
ghost use Rattle.std.specs.Prelude.{◌≡◌, codes, flat_map, Some, OnOk, OnErr};
ghost use Rattle.bw_stream.specs.Moves.{failures_after, Writes, Begins};
ghost use Rattle.bw_model.specs.Report.{chunk_line, cue_line, report_text};
ghost use Rattle.bw_inspect.specs.Lines.{lines_of_bext, lines_of_texts, lines_of_loudness};
ghost use Rattle.bw_inspect.specs.Reports.{reported_by};

use crate::line::Line;
use crate::report::{BextChunk, Chunks, Cues, Report};
use crate::text::{
    make_bext_line, make_chunk_line, make_cue_line, make_data_line, make_fmt_line, make_form_line,
    make_loudness_line, make_text_line, make_umid_line,
};
use bw_layout::{Loudness, RawBext};
use bw_stream::{IoFailed, Sink, write_all};
use std::error::Error;
use std::fmt;

/// The writer failed: a prefix of the text was written.
#[derive(Clone, Copy, Debug, PartialEq, Eq)]
pub struct WriteFailed;

impl fmt::Display for WriteFailed {
    ghost output = { λ _. Some (codes "the report can't be written") };

    /// Writes `the report can't be written`.
    fn fmt<W: fmt::Write>(&self, f: &mut fmt::Formatter<W>) -> fmt::Result {
        f.write_str("the report can't be written")
    }
}

impl Error for WriteFailed {}

impl From<IoFailed> for WriteFailed {
    /// The only value.
    fn from(_: IoFailed) -> WriteFailed {
        WriteFailed
    }
}

/// Writes a report, one line for each thing that it holds. A line is built without allocating
/// memory.
///
/// # Errors
/// `WriteFailed` if the writer failed: a prefix of the text was written.
///
/// # Not specified
/// Whether the writer holds bytes back.
pub fn write_report<W: Sink>(report: &Report, writer: &mut W) -> Result<(), WriteFailed>
    ensures count { W.failures writer.new ≡ failures_after result (W.failures writer.old) }
    // The text is the definition's.
    ensures ok { OnOk result
        (Writes (W.written writer.old) (report_text (reported_by report.now)) (W.written writer.new)) }
    ensures err { OnErr result
        (Begins (W.written writer.old) (report_text (reported_by report.now)) (W.written writer.new)) }
{
    write_line(&make_form_line(&report.form, report.size), writer)?;
    write_chunks(&report.chunks, writer)?;
    write_line(&make_fmt_line(&report.fmt), writer)?;
    write_line(
        &make_data_line(report.data_at, report.data_size, &report.fmt),
        writer,
    )?;
    write_bext(&report.bext, writer)?;
    write_cues(&report.cues, writer)?;
    Ok(())
}

/// Writes a line for each chunk.
fn write_chunks<W: Sink>(chunks: &Chunks, writer: &mut W) -> Result<(), WriteFailed>
    ensures count { W.failures writer.new ≡ failures_after result (W.failures writer.old) }
    ensures ok { OnOk result
        (Writes (W.written writer.old) (flat_map chunk_line chunks.now) (W.written writer.new)) }
    ensures err { OnErr result
        (Begins (W.written writer.old) (flat_map chunk_line chunks.now) (W.written writer.new)) }
{
    for chunk in chunks.as_slice() {
        write_line(&make_chunk_line(chunk), writer)?;
    }
    Ok(())
}

/// Writes a line for each cue point.
fn write_cues<W: Sink>(cues: &Cues, writer: &mut W) -> Result<(), WriteFailed>
    ensures count { W.failures writer.new ≡ failures_after result (W.failures writer.old) }
    ensures ok { OnOk result
        (Writes (W.written writer.old) (flat_map cue_line cues.now) (W.written writer.new)) }
    ensures err { OnErr result
        (Begins (W.written writer.old) (flat_map cue_line cues.now) (W.written writer.new)) }
{
    for cue in cues.as_slice() {
        write_line(&make_cue_line(cue), writer)?;
    }
    Ok(())
}

/// Writes the lines of a `bext` chunk, if there is one.
fn write_bext<W: Sink>(bext: &Option<BextChunk>, writer: &mut W) -> Result<(), WriteFailed>
    ensures count { W.failures writer.new ≡ failures_after result (W.failures writer.old) }
    ensures ok { OnOk result
        (Writes (W.written writer.old) (lines_of_bext bext.now) (W.written writer.new)) }
    ensures err { OnErr result
        (Begins (W.written writer.old) (lines_of_bext bext.now) (W.written writer.new)) }
{
    match bext {
        None => Ok(()),
        Some(chunk) => write_bext_chunk(chunk, writer),
    }
}

fn write_bext_chunk<W: Sink>(chunk: &BextChunk, writer: &mut W) -> Result<(), WriteFailed>
    ensures count { W.failures writer.new ≡ failures_after result (W.failures writer.old) }
    ensures ok { OnOk result
        (Writes (W.written writer.old) (lines_of_bext (Some chunk.now)) (W.written writer.new)) }
    ensures err { OnErr result
        (Begins (W.written writer.old) (lines_of_bext (Some chunk.now)) (W.written writer.new)) }
{
    let fields = &chunk.fields;
    let numbers = make_bext_line(fields.version, fields.time_reference, chunk.history_len);
    write_line(&numbers, writer)?;
    write_texts(fields, writer)?;
    write_line(&make_umid_line(&fields.umid), writer)?;
    write_loudness(&fields.loudness, writer)?;
    Ok(())
}

/// Writes a line for each text of a `bext` chunk.
fn write_texts<W: Sink>(fields: &RawBext, writer: &mut W) -> Result<(), WriteFailed>
    ensures count { W.failures writer.new ≡ failures_after result (W.failures writer.old) }
    ensures ok { OnOk result
        (Writes (W.written writer.old) (lines_of_texts fields.now) (W.written writer.new)) }
    ensures err { OnErr result
        (Begins (W.written writer.old) (lines_of_texts fields.now) (W.written writer.new)) }
{
    write_line(&make_text_line("description", &fields.description), writer)?;
    write_line(&make_text_line("originator", &fields.originator), writer)?;
    write_line(
        &make_text_line("reference", &fields.originator_reference),
        writer,
    )?;
    write_line(&make_text_line("date", &fields.origination_date), writer)?;
    write_line(&make_text_line("clock", &fields.origination_time), writer)?;
    Ok(())
}

/// Writes the line of the loudness, if the version has it.
fn write_loudness<W: Sink>(loudness: &Option<Loudness>, writer: &mut W) -> Result<(), WriteFailed>
    ensures count { W.failures writer.new ≡ failures_after result (W.failures writer.old) }
    ensures ok { OnOk result
        (Writes (W.written writer.old) (lines_of_loudness loudness.now) (W.written writer.new)) }
    ensures err { OnErr result
        (Begins (W.written writer.old) (lines_of_loudness loudness.now) (W.written writer.new)) }
{
    match loudness {
        None => Ok(()),
        Some(levels) => write_line(&make_loudness_line(levels), writer),
    }
}

/// Writes a line.
fn write_line<W: Sink>(line: &Line, writer: &mut W) -> Result<(), WriteFailed>
    ensures count { W.failures writer.new ≡ failures_after result (W.failures writer.old) }
    ensures ok { OnOk result (Writes (W.written writer.old) line.now (W.written writer.new)) }
    ensures err { OnErr result (Begins (W.written writer.old) line.now (W.written writer.new)) }
{
    write_all(writer, line.as_slice())?;
    Ok(())
}
