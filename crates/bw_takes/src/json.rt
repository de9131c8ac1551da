//! A take as JSON (RFC 8259).
ghost use Rattle.std.specs.Prelude.{◌≡◌, ◌≤◌, IfOk, OnOk, Some, string_bytes};
ghost use Rattle.serde_json.specs.Read.{read};
ghost use Rattle.serde_json.specs.View.{members_view, view};
ghost use Rattle.serde_json.specs.Written.{compact_text};
ghost use Rattle.bw_journal.specs.Rows.{row_count};
ghost use Rattle.bw_takes.specs.TakeObjects.{duration_data, faulty_object, take_number_or_null};
ghost use Rattle.bw_takes.specs.TakeObjects.{opened_object, digest_added, still_object, summary_data};
ghost use Rattle.bw_takes.specs.TakeObjects.{summary_with_digest, with_digest as members_with};
ghost use Rattle.bw_takes.specs.TakeReports.{finding_summary};
ghost use Rattle.bw_takes.specs.TakeSummaries.{story_summary};

use crate::finding::TakeFinding;
use crate::hashing::SampleDigest;
use crate::line::{cause_word, state_word};
use bw_journal::Replayed;
use bw_model::Name;
use serde_json::{Map, Value, json, put};
use std::alloc::{AllocError, Global};

/// The object of a take of which this is found, with the digest of its samples as far as it is asked
/// for, as text without a line's end.
///
/// # Errors
/// `AllocError` if memory was refused.
///
/// # Not specified
/// When memory is refused.
pub fn take_json(
    alloc: Global,
    name: &Name,
    finding: &TakeFinding,
    digest: SampleDigest,
) -> Result<String, AllocError>
    ensures text { IfOk result (λ t. string_bytes t
        ≡ compact_text (summary_with_digest name.now (finding_summary finding.now) digest)) }
    // It is read back as the same object.
    ensures reads_back { IfOk result (λ t. read (string_bytes t)
        ≡ Some (summary_with_digest name.now (finding_summary finding.now) digest)) }
{
    let Ok(name) = std::str::from_utf8(name.as_bytes()) else {
        return Err(AllocError);
    };
    named_json(alloc, name, finding, digest)
}

fn named_json(
    alloc: Global,
    name: &str,
    finding: &TakeFinding,
    digest: SampleDigest,
) -> Result<String, AllocError>
    ensures text { IfOk result (λ t. string_bytes t
        ≡ compact_text (summary_with_digest name.now (finding_summary finding.now) digest)) }
    ensures reads_back { IfOk result (λ t. read (string_bytes t)
        ≡ Some (summary_with_digest name.now (finding_summary finding.now) digest)) }
{
    let value = take_value(alloc, name, finding, digest)?;
    value.to_string(alloc)
}

fn take_value(
    alloc: Global,
    name: &str,
    finding: &TakeFinding,
    digest: SampleDigest,
) -> Result<Value, AllocError>
    ensures { IfOk result (λ v. view v
        ≡ summary_with_digest name.now (finding_summary finding.now) digest) }
{
    let value = finding_value(alloc, name, finding)?;
    with_digest(alloc, value, digest)
}

/// An object with the digest of a take's samples, as far as it is asked for.
fn with_digest(alloc: Global, value: Value, digest: SampleDigest) -> Result<Value, AllocError>
    ensures { IfOk result (λ v. view v ≡ digest_added digest (view value)) }
{
    match value {
        Value::Object(mut members) => {
            put_digest(alloc, &mut members, digest)?;
            Ok(Value::Object(members))
        }
        other => Ok(other),
    }
}

/// Puts the digest of a take's samples into an object, as far as it is asked for.
fn put_digest(
    alloc: Global,
    members: &mut Map<String, Value>,
    digest: SampleDigest,
) -> Result<(), AllocError>
    ensures { OnOk result (members_view members.new.entries
        ≡ members_with digest (members_view members.old.entries)) }
{
    match digest {
        SampleDigest::Unasked => Ok(()),
        SampleDigest::Missing => put(members, alloc, "sha256", Value::Null),
        SampleDigest::Known(digest) => {
            let digits = hex::encode(alloc, digest)?;
            put(members, alloc, "sha256", Value::String(digits))
        }
    }
}

fn finding_value(alloc: Global, name: &str, finding: &TakeFinding) -> Result<Value, AllocError>
    ensures { IfOk result (λ v. view v ≡ summary_data name.now (finding_summary finding.now)) }
{
    match finding {
        TakeFinding::Stood => still_value(alloc, name, "stood", 0),
        TakeFinding::Unbegun => still_value(alloc, name, "unopened", 0),
        TakeFinding::Refused(fault) => faulty_value(alloc, name, cause_word(fault), None),
        TakeFinding::Begun(replayed) => begun_value(alloc, name, replayed),
        TakeFinding::Changed(number) => {
            faulty_value(alloc, name, "ChangedBlock", Some(u64::from(*number)))
        }
    }
}

/// A take whose journal is begun.
fn begun_value(alloc: Global, name: &str, replayed: &Replayed) -> Result<Value, AllocError>
    ensures { IfOk result (λ v. view v ≡ summary_data name.now
        (story_summary replayed.now.state.parts (row_count replayed.now.table.items))) }
{
    let state = &replayed.state;
    let next = (replayed.table.len() / 33) as u64;
    if state.is_taken() {
        return still_value(alloc, name, "stood", next);
    }
    match state.format() {
        Some(format) => opened_value(
            alloc,
            name,
            state_word(state.is_closed()),
            state.frames(),
            format.rate(),
            next,
        ),
        None => still_value(alloc, name, "unopened", next),
    }
}

/// A take without samples of the server's.
fn still_value(alloc: Global, name: &str, state: &str, next: u64) -> Result<Value, AllocError>
    ensures { IfOk result (λ v. view v ≡ still_object name.now state.now next) }
{
    json!(in alloc; {
        "block": null,
        "fault": null,
        "frames": null,
        "ms": null,
        "name": name,
        "next": next,
        "ok": true,
        "rate": null,
        "state": state
    })
}

/// A take with so many frames at a rate.
fn opened_value(
    alloc: Global,
    name: &str,
    state: &str,
    frames: u64,
    rate: u32,
    next: u64,
) -> Result<Value, AllocError>
    requires { 1 ≤ rate }
    ensures { IfOk result (λ v. view v ≡ opened_object name.now state.now frames rate next) }
{
    let ms = duration_value(frames, rate);
    json!(in alloc; {
        "block": null,
        "fault": null,
        "frames": frames,
        "ms": ms,
        "name": name,
        "next": next,
        "ok": true,
        "rate": rate,
        "state": state
    })
}

/// A take with which this is wrong.
fn faulty_value(
    alloc: Global,
    name: &str,
    cause: &str,
    number: Option<u64>,
) -> Result<Value, AllocError>
    ensures { IfOk result (λ v. view v ≡ faulty_object name.now cause.now number) }
{
    let block = number_value(number);
    json!(in alloc; {
        "block": block,
        "fault": cause,
        "frames": null,
        "ms": null,
        "name": name,
        "next": null,
        "ok": false,
        "rate": null,
        "state": null
    })
}

/// How long so many frames at a rate last, in whole milliseconds; null where the number needs more
/// than 64 bits.
fn duration_value(frames: u64, rate: u32) -> Value
    requires { 1 ≤ rate }
    ensures { view result ≡ duration_data frames rate }
{
    match u64::try_from(u128::from(frames) * 1000 / u128::from(rate)) {
        Ok(ms) => Value::from(ms),
        Err(_) => Value::Null,
    }
}

/// A number, or null.
fn number_value(number: Option<u64>) -> Value
    ensures { view result ≡ take_number_or_null number }
{
    match number {
        Some(number) => Value::from(number),
        None => Value::Null,
    }
}
