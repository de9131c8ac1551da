//! What is found at a path, as JSON.
ghost use Rattle.std.specs.Prelude.{◌≡◌, IfOk, OnOk, Some, string_bytes};
ghost use Rattle.serde_json.specs.Read.{read};
ghost use Rattle.serde_json.specs.View.{members_view, view};
ghost use Rattle.serde_json.specs.Written.{compact_text};
ghost use Rattle.bw_inspect.specs.Reports.{reported_by};
ghost use Rattle.bw_report.specs.Objects.{fault_data, report_data, with_fault, without_format};
ghost use Rattle.bw_report.specs.Objects.{with_contents, without_parts};
ghost use Rattle.bw_report.specs.Objects.{with_form_and_format, with_placed_parts, with_placed_samples};
ghost use Rattle.bw_report.specs.Objects.{with_whole_file};
ghost use Rattle.bw_report.specs.Values.{hex_or_null};
ghost use Rattle.bw_report.specs.Entries.{found_data};

use crate::bext::bext_value;
use crate::contents::contents_value;
use crate::found::Found;
use crate::parts::{chunks_value, cues_value, fmt_value, samples_value};
use crate::value::{hex_value, number_value, text_value};
use bw_contents::Contents;
use bw_inspect::Report;
use serde_json::{Map, Value, put};
use std::alloc::{AllocError, Global};

/// The object of what is found under a name, as text without a line's end.
///
/// # Errors
/// `AllocError` if memory was refused.
///
/// # Not specified
/// When memory is refused.
pub fn json_line(alloc: Global, name: &str, found: &Found) -> Result<String, AllocError>
    // Each value of the report is in the object, compact, with the keys in order.
    ensures text { IfOk result (λ t.
        string_bytes t ≡ compact_text (found_data name.now found.now)) }
    // It is read back as this object (RFC 8259).
    ensures reads_back { IfOk result (λ t.
        read (string_bytes t) ≡ Some (found_data name.now found.now)) }
{
    let value = found_value(alloc, name, found)?;
    value.to_string(alloc)
}

fn found_value(alloc: Global, name: &str, found: &Found) -> Result<Value, AllocError>
    ensures { IfOk result (λ v. view v ≡ found_data name.now found.now) }
{
    match found {
        Found::Read {
            report,
            digest,
            contents,
        } => report_value(alloc, name, report, digest, contents),
        Found::Faulty(fault) => { fault_value(alloc, name, fault.kind.name(), Some(fault.offset)) }
        Found::Unopened(_) => fault_value(alloc, name, "Open", None),
    }
}

fn report_value(
    alloc: Global,
    name: &str,
    report: &Report,
    digest: &Option<[u8; 32]>,
    contents: &Option<Contents>,
) -> Result<Value, AllocError>
    ensures { IfOk result (λ v. view v
        ≡ report_data name.now digest.now contents.now (reported_by report.now)) }
{
    let mut members = Map::new(alloc);
    put_whole(alloc, &mut members, report, digest)?;
    put_format(alloc, &mut members, report)?;
    put_samples(alloc, &mut members, name, report)?;
    put_parts(alloc, &mut members, report)?;
    put_contents(alloc, &mut members, contents)?;
    Ok(Value::Object(members))
}

/// Puts what the chunks say into an object.
fn put_contents(
    alloc: Global,
    members: &mut Map<String, Value>,
    contents: &Option<Contents>,
) -> Result<(), AllocError>
    ensures { OnOk result (members_view members.new.entries
        ≡ with_contents contents.now (members_view members.old.entries)) }
{
    let value = contents_value(alloc, contents)?;
    put(members, alloc, "contents", value)
}

/// Puts what is said of the whole file into an object.
fn put_whole(
    alloc: Global,
    members: &mut Map<String, Value>,
    report: &Report,
    digest: &Option<[u8; 32]>,
) -> Result<(), AllocError>
    ensures { OnOk result (members_view members.new.entries
        ≡ with_whole_file digest.now (reported_by report.now) (members_view members.old.entries)) }
{
    put(members, alloc, "size", Value::from(report.size))?;
    put(members, alloc, "sha256", digest_value(alloc, digest)?)?;
    put(members, alloc, "ok", Value::Bool(true))
}

/// Puts the form and the format into an object.
fn put_format(
    alloc: Global,
    members: &mut Map<String, Value>,
    report: &Report,
) -> Result<(), AllocError>
    ensures { OnOk result (members_view members.new.entries
        ≡ with_form_and_format (reported_by report.now) (members_view members.old.entries)) }
{
    put(
        members,
        alloc,
        "form_hex",
        hex_value(alloc, &report.form.0)?,
    )?;
    put(members, alloc, "form", text_value(alloc, &report.form.0)?)?;
    put(members, alloc, "fmt", fmt_value(alloc, &report.fmt)?)
}

/// Puts the name and the samples into an object.
fn put_samples(
    alloc: Global,
    members: &mut Map<String, Value>,
    name: &str,
    report: &Report,
) -> Result<(), AllocError>
    ensures { OnOk result (members_view members.new.entries
        ≡ with_placed_samples name.now (reported_by report.now) (members_view members.old.entries)) }
{
    put(members, alloc, "file", Value::try_from_str(alloc, name)?)?;
    put(members, alloc, "fault", Value::Null)?;
    let samples = samples_value(alloc, report.data_at, report.data_size, &report.fmt)?;
    put(members, alloc, "data", samples)
}

/// Puts the cue points, the chunks and `bext` into an object.
fn put_parts(
    alloc: Global,
    members: &mut Map<String, Value>,
    report: &Report,
) -> Result<(), AllocError>
    ensures { OnOk result (members_view members.new.entries
        ≡ with_placed_parts (reported_by report.now) (members_view members.old.entries)) }
{
    let rate = report.fmt.rate;
    put(
        members,
        alloc,
        "cues",
        cues_value(alloc, &report.cues, rate)?,
    )?;
    put(
        members,
        alloc,
        "chunks",
        chunks_value(alloc, &report.chunks)?,
    )?;
    put(
        members,
        alloc,
        "bext",
        bext_value(alloc, &report.bext, rate)?,
    )?;
    put(members, alloc, "at", Value::Null)
}

/// A digest as hex digits, or null.
fn digest_value(alloc: Global, digest: &Option<[u8; 32]>) -> Result<Value, AllocError>
    ensures { IfOk result (λ v. view v ≡ hex_or_null digest.now) }
{
    match digest {
        Some(digest) => hex_value(alloc, digest),
        None => Ok(Value::Null),
    }
}

fn fault_value(
    alloc: Global,
    name: &str,
    fault: &str,
    place: Option<u64>,
) -> Result<Value, AllocError>
    ensures { IfOk result (λ v. view v ≡ fault_data name.now fault.now place) }
{
    let mut members = Map::new(alloc);
    put_no_format(alloc, &mut members)?;
    put_no_parts(alloc, &mut members)?;
    put_fault(alloc, &mut members, name, fault, place)?;
    Ok(Value::Object(members))
}

/// Puts null for what is said of the whole file, its form and its format into an object.
fn put_no_format(alloc: Global, members: &mut Map<String, Value>) -> Result<(), AllocError>
    ensures { OnOk result (members_view members.new.entries
        ≡ without_format (members_view members.old.entries)) }
{
    put(members, alloc, "size", Value::Null)?;
    put(members, alloc, "sha256", Value::Null)?;
    put(members, alloc, "form_hex", Value::Null)?;
    put(members, alloc, "form", Value::Null)?;
    put(members, alloc, "fmt", Value::Null)
}

/// Puts null for the samples and the chunks into an object.
fn put_no_parts(alloc: Global, members: &mut Map<String, Value>) -> Result<(), AllocError>
    ensures { OnOk result (members_view members.new.entries
        ≡ without_parts (members_view members.old.entries)) }
{
    put(members, alloc, "data", Value::Null)?;
    put(members, alloc, "cues", Value::Null)?;
    put(members, alloc, "contents", Value::Null)?;
    put(members, alloc, "chunks", Value::Null)?;
    put(members, alloc, "bext", Value::Null)
}

/// Puts the name, and the fault with its place, into an object.
fn put_fault(
    alloc: Global,
    members: &mut Map<String, Value>,
    name: &str,
    fault: &str,
    place: Option<u64>,
) -> Result<(), AllocError>
    ensures { OnOk result (members_view members.new.entries
        ≡ with_fault name.now fault.now place (members_view members.old.entries)) }
{
    put(members, alloc, "ok", Value::Bool(false))?;
    put(members, alloc, "file", Value::try_from_str(alloc, name)?)?;
    put(members, alloc, "fault", Value::try_from_str(alloc, fault)?)?;
    put(members, alloc, "at", number_value(place))
}
