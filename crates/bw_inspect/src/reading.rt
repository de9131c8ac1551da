//! Reading a whole file.
ghost use Rattle.std.specs.Prelude.{◌≡◌, ℕ, ◌+◌, ◌^◌, ◌≤◌, List, IsTrue, None, IfOk, IfErr, false};
ghost use Rattle.bw_model.specs.Limits.{largest};
ghost use Rattle.bw_model.specs.Bytes.{first_that_holds};
ghost use Rattle.bw_model.specs.Reading.{end_faults};
ghost use Rattle.bw_inspect.specs.ReaderCalls.{Consumes, longest_end};
ghost use Rattle.bw_inspect.specs.Faults.{bytes_fault, is_of_bytes};
ghost use Rattle.bw_inspect.specs.OtherFormats.{NamesFormat};
ghost use Rattle.bw_stream.specs.Readers.{Of};
ghost use Rattle.bw_inspect.specs.Known.{facts_of, facts_in};
ghost use Rattle.bw_inspect.specs.Walks.{IsSmall, form_by, seen_by};
ghost use Rattle.bw_inspect.specs.Readings.{HasReading, IsBounded, IsReported, OnFacts, Refuses};
ghost use Rattle.bw_inspect.specs.Readings.{GivesReport};

use crate::fault::{InspectFault, InspectKind, fault_at};
use crate::other::OtherFormat;
use crate::outer::read_outer;
use crate::report::{Chunks, Cues, Report};
use crate::walk::{Form, Known, Walk, next_chunk};
use bw_stream::Source;
use std::alloc::Global;

/// Reads a file once and forward, and reports what it holds. Content that isn't reported is skipped
/// and not kept.
///
/// It lists at most 4,096 chunks and 65,536 cue points.
///
/// # Errors
/// The first fault of the file, at its place; Read, only if the reader failed in this call, at
/// the offset of the next byte that was wanted; Memory, at the place of the chunk that needed it.
///
/// # Not specified
/// - When memory is refused.
/// - If the reader doesn't report its bytes, that the report is of what it gave.
pub fn inspect<R: Source>(alloc: Global, reader: &mut R) -> Result<Report, InspectFault>
    // At most 2^62 + 8 bytes are read or skipped; Read comes exactly where the reader failed.
    ensures consumed { Consumes R.Source longest_end result reader.old reader.new }
    // For a report no byte after the form is read.
    ensures within { IfOk result (λ r. R.moved reader.new ≤ R.moved reader.old + (8 + r.size)) }
    // The report is that of the bytes' reading, every field.
    ensures ok { IfOk result (λ r. Of (R.left reader.old) (λ b. GivesReport b r (R.left reader.new))) }
    // The first fault, at its place; no stated size is reserved before its bytes are there.
    ensures err { IfErr result (λ f. Of (R.left reader.old) (λ b.
        Refuses b f (R.left reader.new))) }
    ensures bounded { IfOk result (λ r. IsBounded r) }
    // Bytes with a reading have no fault, but for a failed read and memory.
    ensures only { IfErr result (λ f. Of (R.left reader.old) (λ b.
        HasReading b → is_of_bytes f.kind ≡ false)) }
{
    let mut other = None;
    inspect_recognizing(alloc, reader, &mut other)
}

/// The same as `inspect`. `other` becomes the format that the first 12 bytes name, if that is none
/// that is read.
///
/// # Errors
/// Those of `inspect`.
///
/// # Not specified
/// What `inspect` doesn't specify; and what `other` becomes if the reader failed.
pub fn inspect_recognizing<R: Source>(
    alloc: Global,
    reader: &mut R,
    other: &mut Option<OtherFormat>,
) -> Result<Report, InspectFault>
    ensures consumed { Consumes R.Source longest_end result reader.old reader.new }
    ensures within { IfOk result (λ r. R.moved reader.new ≤ R.moved reader.old + (8 + r.size)) }
    ensures ok { IfOk result (λ r. Of (R.left reader.old) (λ b. GivesReport b r (R.left reader.new))) }
    ensures err { IfErr result (λ f. Of (R.left reader.old) (λ b.
        Refuses b f (R.left reader.new))) }
    ensures bounded { IfOk result (λ r. IsBounded r) }
    ensures only { IfErr result (λ f. Of (R.left reader.old) (λ b.
        HasReading b → is_of_bytes f.kind ≡ false)) }
    ensures other { NamesFormat result (R.left reader.old) other.new }
{
    let (form, mut walk) = read_outer(alloc, reader, other)?;
    while next_chunk(alloc, reader, &form, &mut walk)? {}
    finish(alloc, form, walk)
}

/// The report of a walk that reached the form's end.
///
/// # Errors
/// NoFmt, NoData.
fn finish(alloc: Global, form: Form, walk: Walk) -> Result<Report, InspectFault>
    requires { form.size ≤ largest }
    ensures ok { IfOk result (λ r. OnFacts walk (λ b.
        IsReported b (form_by form) (seen_by walk) r)) }
    ensures size { IfOk result (λ r. r.size ≡ form.size) }
    ensures bounded { IfOk result (λ r. IsSmall walk → IsBounded r) }
    ensures kind { IfErr result (λ f. IsTrue (is_of_bytes f.kind)) }
    ensures err { IfErr result (λ f. OnFacts walk (λ b.
        bytes_fault f ≡ first_that_holds (end_faults (8 + form.size) (seen_by walk)))) }
{
    let end = 8 + form.size;
    let Walk {
        place: _,
        chunks,
        known,
    } = walk;
    let Known {
        fmt,
        samples,
        bext,
        cues,
    } = known;
    let Some(fmt) = fmt else {
        return Err(fault_at(InspectKind::NoFmt, end));
    };
    let Some(samples) = samples else {
        return Err(fault_at(InspectKind::NoData, end));
    };
    Ok(Report {
        form: form.id,
        size: form.size,
        chunks: Chunks::new(chunks),
        fmt,
        data_at: samples.at,
        data_size: samples.size,
        bext,
        cues: cues.unwrap_or(Cues::new(Vec::new(alloc))),
    })
}
