//! What a server is doing, as JSON (RFC 8259).
ghost use Rattle.std.specs.Prelude.{◌≡◌, IfOk, OnOk, Some, map, string_bytes};
ghost use Rattle.serde_json.specs.Data.{array};
ghost use Rattle.serde_json.specs.Read.{read};
ghost use Rattle.serde_json.specs.View.{items_of, members_view, view};
ghost use Rattle.serde_json.specs.Written.{compact_text};
ghost use Rattle.bw_status.specs.Objects.{count_data, left_out_data, snapshot_data, take_data};
ghost use Rattle.bw_status.specs.Objects.{kinds_data, left_outs_data};
ghost use Rattle.bw_status.specs.Objects.{with_lists, with_server, with_links};

use crate::json_take::{number_value, take_value};
use crate::snapshot::{Count, LeftOutName, Snapshot, TakeStatus, health_text};
use serde_json::{Map, ToValue, Value, json, put};
use std::alloc::{AllocError, Global};

/// What a server is doing, as the text of an object.
pub(crate) fn snapshot_json(alloc: Global, snapshot: &Snapshot) -> Result<String, AllocError>
    ensures text { IfOk result (λ t. string_bytes t ≡ compact_text (snapshot_data snapshot.now)) }
    ensures reads_back { IfOk result (λ t. read (string_bytes t)
        ≡ Some (snapshot_data snapshot.now)) }
{
    let value = snapshot_value(alloc, snapshot)?;
    value.to_string(alloc)
}

fn snapshot_value(alloc: Global, snapshot: &Snapshot) -> Result<Value, AllocError>
    ensures { IfOk result (λ v. view v ≡ snapshot_data snapshot.now) }
{
    let mut members = Map::new(alloc);
    put_lists(alloc, &mut members, snapshot)?;
    put_server(alloc, &mut members, snapshot)?;
    put_links(alloc, &mut members, snapshot)?;
    Ok(Value::Object(members))
}

/// Puts the members that are lists into an object.
fn put_lists(
    alloc: Global,
    members: &mut Map<String, Value>,
    snapshot: &Snapshot,
) -> Result<(), AllocError>
    ensures { OnOk result (members_view members.new.entries
        ≡ with_lists snapshot.now (members_view members.old.entries)) }
{
    put(
        members,
        alloc,
        "verdicts",
        counts_value(alloc, snapshot.verdicts.as_slice())?,
    )?;
    put(
        members,
        alloc,
        "takes",
        takes_value(alloc, snapshot.takes.as_slice())?,
    )?;
    put(
        members,
        alloc,
        "notices",
        counts_value(alloc, snapshot.notices.as_slice())?,
    )?;
    put(
        members,
        alloc,
        "messages",
        counts_value(alloc, snapshot.messages.as_slice())?,
    )?;
    put(
        members,
        alloc,
        "left_out",
        left_outs_value(alloc, snapshot.left_out.as_slice())?,
    )
}

/// Puts how the server is, and for how long it has been running, into an object.
fn put_server(
    alloc: Global,
    members: &mut Map<String, Value>,
    snapshot: &Snapshot,
) -> Result<(), AllocError>
    ensures { OnOk result (members_view members.new.entries
        ≡ with_server snapshot.now (members_view members.old.entries)) }
{
    put(members, alloc, "uptime_ms", Value::from(snapshot.uptime_ms))?;
    put(members, alloc, "since", Value::from(snapshot.since))?;
    put(members, alloc, "memory", number_value(snapshot.memory))?;
    put(
        members,
        alloc,
        "lines_dropped",
        Value::from(snapshot.lines_dropped),
    )?;
    put(
        members,
        alloc,
        "health",
        health_text(snapshot.health).to_value(alloc)?,
    )
}

/// Puts the counts of connections, of takes that were resumed, of bytes, and of what was turned away
/// into an object.
fn put_links(
    alloc: Global,
    members: &mut Map<String, Value>,
    snapshot: &Snapshot,
) -> Result<(), AllocError>
    ensures { OnOk result (members_view members.new.entries
        ≡ with_links snapshot.now (members_view members.old.entries)) }
{
    put(
        members,
        alloc,
        "turned_away",
        Value::from(snapshot.turned_away),
    )?;
    put(members, alloc, "resumed", Value::from(snapshot.resumed))?;
    put(members, alloc, "places", Value::from(snapshot.places))?;
    put(
        members,
        alloc,
        "ended_by",
        kinds_value(alloc, snapshot.ended_by.as_slice())?,
    )?;
    put(members, alloc, "ended", Value::from(snapshot.ended))?;
    put(
        members,
        alloc,
        "connections",
        Value::from(snapshot.connections),
    )?;
    put(members, alloc, "bytes", Value::from(snapshot.bytes))
}

/// The takes, in their order.
fn takes_value(alloc: Global, takes: &[TakeStatus]) -> Result<Value, AllocError>
    ensures { IfOk result (λ v. view v ≡ array (items_of (map take_data takes.now))) }
{
    let mut values = Vec::new(alloc);
    for take in takes {
        values.push(take_value(alloc, take)?)?;
    }
    Ok(Value::Array(values))
}

/// The names that are left out, in their order.
fn left_outs_value(alloc: Global, names: &[LeftOutName]) -> Result<Value, AllocError>
    ensures { IfOk result (λ v. view v ≡ left_outs_data names.now) }
{
    let mut values = Vec::new(alloc);
    for name in names {
        values.push(left_out_value(alloc, name)?)?;
    }
    Ok(Value::Array(values))
}

fn left_out_value(alloc: Global, name: &LeftOutName) -> Result<Value, AllocError>
    ensures { IfOk result (λ v. view v ≡ left_out_data name.now) }
{
    json!(in alloc; {"cause": name.cause.as_str(), "name": name.name.as_str()})
}

/// The counts, in their order.
fn counts_value(alloc: Global, counts: &[Count]) -> Result<Value, AllocError>
    ensures { IfOk result (λ v. view v ≡ array (items_of (map count_data counts.now))) }
{
    let mut values = Vec::new(alloc);
    for count in counts {
        values.push(count_value(alloc, count)?)?;
    }
    Ok(Value::Array(values))
}

/// The counts as an object, with a member for each kind.
fn kinds_value(alloc: Global, counts: &[Count]) -> Result<Value, AllocError>
    ensures { IfOk result (λ v. view v ≡ kinds_data counts.now) }
{
    let mut members = Map::new(alloc);
    for count in counts {
        put(&mut members, alloc, count.kind, Value::from(count.count))?;
    }
    Ok(Value::Object(members))
}

fn count_value(alloc: Global, count: &Count) -> Result<Value, AllocError>
    ensures { IfOk result (λ v. view v ≡ count_data count.now) }
{
    json!(in alloc; {"count": count.count, "kind": count.kind})
}
