//! A `bext` chunk as JSON.
ghost use Rattle.std.specs.Prelude.{◌≡◌, IfOk, OnOk, option_map, unwrap_or, []};
ghost use Rattle.serde_json.specs.View.{members_view, view};
ghost use Rattle.bw_inspect.specs.Reports.{bext_by};
ghost use Rattle.bw_report.specs.Objects.{bext_data, bext_or_null, loudness_data};
ghost use Rattle.bw_report.specs.Objects.{with_other_levels, with_others, with_texts, with_times};

use crate::time::milliseconds;
use crate::value::{hex_value, level_value, number_value, put_text};
use bw_inspect::BextChunk;
use bw_layout::{Loudness, RawBext};
use serde_json::{Map, Value, put};
use std::alloc::{AllocError, Global};

/// The `bext` chunk, with the time of day at this rate, or null.
pub(crate) fn bext_value(
    alloc: Global,
    bext: &Option<BextChunk>,
    rate: u32,
) -> Result<Value, AllocError>
    ensures { IfOk result (λ v. view v ≡ bext_or_null rate (option_map bext_by bext.now)) }
{
    match bext {
        Some(chunk) => chunk_value(alloc, chunk, rate),
        None => Ok(Value::Null),
    }
}

fn chunk_value(alloc: Global, chunk: &BextChunk, rate: u32) -> Result<Value, AllocError>
    ensures { IfOk result (λ v. view v ≡ bext_data rate (bext_by chunk.now)) }
{
    let mut members = Map::new(alloc);
    put_texts(alloc, &mut members, &chunk.fields)?;
    put_times(alloc, &mut members, &chunk.fields, rate)?;
    put_others(alloc, &mut members, chunk)?;
    Ok(Value::Object(members))
}

/// Puts the time reference into an object, in samples and as a time of day at this rate.
fn put_times(
    alloc: Global,
    members: &mut Map<String, Value>,
    fields: &RawBext,
    rate: u32,
) -> Result<(), AllocError>
    ensures { OnOk result (members_view members.new.entries
        ≡ with_times rate fields.now.0 (members_view members.old.entries)) }
{
    put(members, alloc, "time", Value::from(fields.time_reference))?;
    let time_of_day = number_value(milliseconds(fields.time_reference, rate));
    put(members, alloc, "time_of_day", time_of_day)
}

/// Puts what is neither text nor time into an object.
fn put_others(
    alloc: Global,
    members: &mut Map<String, Value>,
    chunk: &BextChunk,
) -> Result<(), AllocError>
    ensures { OnOk result (members_view members.new.entries
        ≡ with_others (bext_by chunk.now) (members_view members.old.entries)) }
{
    let fields = &chunk.fields;
    put(members, alloc, "history", Value::from(chunk.history_len))?;
    put(
        members,
        alloc,
        "loudness",
        loudness_value(alloc, &fields.loudness)?,
    )?;
    put(members, alloc, "umid", hex_value(alloc, &fields.umid)?)?;
    put(members, alloc, "version", Value::from(fields.version))?;
    Ok(())
}

/// Puts the five texts into an object.
fn put_texts(
    alloc: Global,
    members: &mut Map<String, Value>,
    fields: &RawBext,
) -> Result<(), AllocError>
    ensures { OnOk result (members_view members.new.entries
        ≡ with_texts fields.now.0 (members_view members.old.entries)) }
{
    put_text(
        alloc,
        members,
        "description",
        "description_hex",
        &fields.description,
    )?;
    put_text(
        alloc,
        members,
        "originator",
        "originator_hex",
        &fields.originator,
    )?;
    put_text(
        alloc,
        members,
        "reference",
        "reference_hex",
        &fields.originator_reference,
    )?;
    put_text(alloc, members, "date", "date_hex", &fields.origination_date)?;
    put_text(
        alloc,
        members,
        "clock",
        "clock_hex",
        &fields.origination_time,
    )?;
    Ok(())
}

/// The five levels, or null.
fn loudness_value(alloc: Global, loudness: &Option<Loudness>) -> Result<Value, AllocError>
    ensures { IfOk result (λ v. view v ≡ loudness_data (unwrap_or loudness.now [])) }
{
    match loudness {
        Some(levels) => levels_value(alloc, levels),
        None => Ok(Value::Null),
    }
}

fn levels_value(alloc: Global, levels: &Loudness) -> Result<Value, AllocError>
    ensures { IfOk result (λ v. view v ≡ loudness_data levels.now) }
{
    let mut members = Map::new(alloc);
    put(&mut members, alloc, "value", level_value(levels.value))?;
    put_other_levels(alloc, &mut members, levels)?;
    Ok(Value::Object(members))
}

/// Puts the levels but the loudness itself into an object.
fn put_other_levels(
    alloc: Global,
    members: &mut Map<String, Value>,
    levels: &Loudness,
) -> Result<(), AllocError>
    ensures { OnOk result (members_view members.new.entries
        ≡ with_other_levels levels.now (members_view members.old.entries)) }
{
    put(members, alloc, "short", level_value(levels.max_short_term))?;
    put(members, alloc, "range", level_value(levels.range))?;
    put(members, alloc, "peak", level_value(levels.max_true_peak))?;
    let momentary = level_value(levels.max_momentary);
    put(members, alloc, "momentary", momentary)
}
