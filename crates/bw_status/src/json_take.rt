//! A take as JSON (RFC 8259).
ghost use Rattle.std.specs.Prelude.{◌≡◌, IfOk, OnOk};
ghost use Rattle.serde_json.specs.View.{members_view, view};
ghost use Rattle.bw_status.specs.declared.snapshot.SoundFormat.{SoundFormat};
ghost use Rattle.bw_status.specs.Objects.{format_number, unsigned_or_null, peer_data, take_data};
ghost use Rattle.bw_status.specs.Objects.{with_take_words, with_take_counts, with_take_times};
ghost use Rattle.bw_status.specs.Objects.{with_sound_format};

use crate::row::address_text;
use crate::snapshot::{SoundFormat, TakeStatus, take_state_word};
use serde_json::{Map, ToValue, Value, put};
use std::alloc::{AllocError, Global};
use std::net::SocketAddr;

/// A take as an object.
#[tactic(auto, unfolding(crate::specs::Objects::take_data))]
pub(crate) fn take_value(alloc: Global, take: &TakeStatus) -> Result<Value, AllocError>
    ensures { IfOk result (λ v. view v ≡ take_data take.now) }
{
    let mut members = Map::new(alloc);
    put_words(alloc, &mut members, take)?;
    put_counts(alloc, &mut members, take)?;
    put_times(alloc, &mut members, take)?;
    put_format(alloc, &mut members, &take.format)?;
    Ok(Value::Object(members))
}

/// Puts a take's name, state and peer into an object.
fn put_words(
    alloc: Global,
    members: &mut Map<String, Value>,
    take: &TakeStatus,
) -> Result<(), AllocError>
    ensures { OnOk result (members_view members.new.entries
        ≡ with_take_words take.now (members_view members.old.entries)) }
{
    put(
        members,
        alloc,
        "state",
        take_state_word(take.state).to_value(alloc)?,
    )?;
    put(members, alloc, "peer", peer_value(alloc, &take.peer)?)?;
    put(members, alloc, "name", take.name.as_str().to_value(alloc)?)
}

/// Puts a take's counts into an object.
fn put_counts(
    alloc: Global,
    members: &mut Map<String, Value>,
    take: &TakeStatus,
) -> Result<(), AllocError>
    ensures { OnOk result (members_view members.new.entries
        ≡ with_take_counts take.now (members_view members.old.entries)) }
{
    put(members, alloc, "refused", Value::from(take.refused))?;
    put(members, alloc, "next", Value::from(take.next))?;
    put(members, alloc, "held", Value::from(take.held))?;
    put(members, alloc, "delayed", Value::from(take.delayed))
}

/// Puts how long a take is, and how long ago it grew, into an object.
fn put_times(
    alloc: Global,
    members: &mut Map<String, Value>,
    take: &TakeStatus,
) -> Result<(), AllocError>
    ensures { OnOk result (members_view members.new.entries
        ≡ with_take_times take.now (members_view members.old.entries)) }
{
    put(members, alloc, "quiet_ms", number_value(take.quiet_ms))?;
    put(members, alloc, "ms", number_value(take.ms))?;
    put(members, alloc, "frames", number_value(take.frames))
}

/// Puts a format into an object.
fn put_format(
    alloc: Global,
    members: &mut Map<String, Value>,
    format: &Option<SoundFormat>,
) -> Result<(), AllocError>
    ensures { OnOk result (members_view members.new.entries
        ≡ with_sound_format format.now (members_view members.old.entries)) }
{
    put(members, alloc, "rate", rate_value(format))?;
    put(members, alloc, "channels", channels_value(format))?;
    put(members, alloc, "bits", bits_value(format))
}

/// The bits per sample, or null.
fn bits_value(format: &Option<SoundFormat>) -> Value
    ensures { view result ≡ format_number (λ (f : SoundFormat). f.bits) format.now }
{
    match format {
        Some(format) => Value::from(format.bits),
        None => Value::Null,
    }
}

/// The samples per frame, or null.
fn channels_value(format: &Option<SoundFormat>) -> Value
    ensures { view result ≡ format_number (λ (f : SoundFormat). f.channels) format.now }
{
    match format {
        Some(format) => Value::from(format.channels),
        None => Value::Null,
    }
}

/// The frames per second, or null.
fn rate_value(format: &Option<SoundFormat>) -> Value
    ensures { view result ≡ format_number (λ (f : SoundFormat). f.rate) format.now }
{
    match format {
        Some(format) => Value::from(format.rate),
        None => Value::Null,
    }
}

/// An address, or null.
fn peer_value(alloc: Global, peer: &Option<SocketAddr>) -> Result<Value, AllocError>
    ensures { IfOk result (λ v. view v ≡ peer_data peer.now) }
{
    if peer.is_none() {
        return Ok(Value::Null);
    }
    Ok(Value::String(address_text(alloc, peer)?))
}

/// A number, or null.
pub(crate) fn number_value(number: Option<u64>) -> Value
    ensures { view result ≡ unsigned_or_null number }
{
    match number {
        Some(number) => Value::from(number),
        None => Value::Null,
    }
}
