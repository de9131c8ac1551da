//! The parts of a report as JSON.
ghost use Rattle.std.specs.Prelude.{◌≡◌, IfOk, OnOk, map};
ghost use Rattle.bw_model.specs.Report.{frames_of};
ghost use Rattle.serde_json.specs.Data.{array};
ghost use Rattle.serde_json.specs.View.{items_of, members_view, view};
ghost use Rattle.bw_report.specs.Objects.{chunk_data, cue_data, fmt_data, samples_data, with_cue_point};
ghost use Rattle.bw_report.specs.Objects.{with_listed_chunk, with_fmt_chunk, with_samples_place};

use crate::time::milliseconds;
use crate::value::{hex_value, number_value, text_value};
use bw_inspect::{Chunks, Cues, ListedChunk};
use bw_layout::{RawCue, RawFmt};
use serde_json::{Map, Value, put};
use std::alloc::{AllocError, Global};

/// The chunks, in their order.
pub(crate) fn chunks_value(alloc: Global, chunks: &Chunks) -> Result<Value, AllocError>
    ensures { IfOk result (λ v. view v ≡ array (items_of (map chunk_data chunks.now))) }
{
    let mut values = Vec::new(alloc);
    for chunk in chunks.as_slice() {
        values.push(chunk_value(alloc, chunk)?)?;
    }
    Ok(Value::Array(values))
}

fn chunk_value(alloc: Global, chunk: &ListedChunk) -> Result<Value, AllocError>
    ensures { IfOk result (λ v. view v ≡ chunk_data chunk.now) }
{
    let mut members = Map::new(alloc);
    put_chunk(alloc, &mut members, chunk)?;
    Ok(Value::Object(members))
}

fn put_chunk(
    alloc: Global,
    members: &mut Map<String, Value>,
    chunk: &ListedChunk,
) -> Result<(), AllocError>
    ensures { OnOk result (members_view members.new.entries
        ≡ with_listed_chunk chunk.now (members_view members.old.entries)) }
{
    put(members, alloc, "size", Value::from(chunk.size))?;
    put(members, alloc, "id_hex", hex_value(alloc, &chunk.id.0)?)?;
    put(members, alloc, "id", text_value(alloc, &chunk.id.0)?)?;
    put(members, alloc, "at", Value::from(chunk.place))
}

/// The cue points, in their order, and their times at this rate.
pub(crate) fn cues_value(alloc: Global, cues: &Cues, rate: u32) -> Result<Value, AllocError>
    ensures { IfOk result (λ v. view v ≡ array (items_of (map (cue_data rate) cues.now))) }
{
    let mut values = Vec::new(alloc);
    for cue in cues.as_slice() {
        values.push(cue_value(alloc, cue, rate)?)?;
    }
    Ok(Value::Array(values))
}

fn cue_value(alloc: Global, cue: &RawCue, rate: u32) -> Result<Value, AllocError>
    ensures { IfOk result (λ v. view v ≡ cue_data rate cue.now) }
{
    let mut members = Map::new(alloc);
    put_cue(alloc, &mut members, cue, rate)?;
    Ok(Value::Object(members))
}

fn put_cue(
    alloc: Global,
    members: &mut Map<String, Value>,
    cue: &RawCue,
    rate: u32,
) -> Result<(), AllocError>
    ensures { OnOk result (members_view members.new.entries
        ≡ with_cue_point rate cue.now (members_view members.old.entries)) }
{
    put(members, alloc, "position", Value::from(cue.position))?;
    put(members, alloc, "offset", Value::from(cue.offset))?;
    let ms = milliseconds(cue.offset.into(), rate);
    put(members, alloc, "ms", number_value(ms))?;
    put(members, alloc, "id", Value::from(cue.id))
}

/// The `fmt ` chunk.
pub(crate) fn fmt_value(alloc: Global, fmt: &RawFmt) -> Result<Value, AllocError>
    ensures { IfOk result (λ v. view v ≡ fmt_data fmt.now) }
{
    let mut members = Map::new(alloc);
    put_fmt(alloc, &mut members, fmt)?;
    Ok(Value::Object(members))
}

fn put_fmt(alloc: Global, members: &mut Map<String, Value>, fmt: &RawFmt) -> Result<(), AllocError>
    ensures { OnOk result (members_view members.new.entries
        ≡ with_fmt_chunk fmt.now (members_view members.old.entries)) }
{
    put(members, alloc, "tag", Value::from(fmt.tag))?;
    put(members, alloc, "rate", Value::from(fmt.rate))?;
    put(members, alloc, "channels", Value::from(fmt.channels))?;
    put(members, alloc, "bytes", Value::from(fmt.bytes_per_second))?;
    put(members, alloc, "bits", Value::from(fmt.bits))?;
    put(members, alloc, "align", Value::from(fmt.align))
}

/// The samples: where they begin, their bytes, whole frames and milliseconds.
pub(crate) fn samples_value(
    alloc: Global,
    place: u64,
    size: u64,
    fmt: &RawFmt,
) -> Result<Value, AllocError>
    ensures { IfOk result (λ v. view v ≡ samples_data place size fmt.now) }
{
    let mut members = Map::new(alloc);
    put_place(alloc, &mut members, place, size, fmt)?;
    Ok(Value::Object(members))
}

fn put_place(
    alloc: Global,
    members: &mut Map<String, Value>,
    place: u64,
    size: u64,
    fmt: &RawFmt,
) -> Result<(), AllocError>
    ensures { OnOk result (members_view members.new.entries
        ≡ with_samples_place place size fmt.now (members_view members.old.entries)) }
{
    let frames = whole_frames(size, fmt.align);
    let ms = milliseconds(frames, fmt.rate);
    put(members, alloc, "ms", number_value(ms))?;
    put(members, alloc, "frames", Value::from(frames))?;
    put(members, alloc, "bytes", Value::from(size))?;
    put(members, alloc, "at", Value::from(place))
}

/// How many whole frames this many bytes are; 0 if a frame has no bytes.
pub(crate) fn whole_frames(size: u64, align: u16) -> u64
    ensures { result ≡ frames_of size align }
{
    size.checked_div(align.into()).unwrap_or(0)
}
