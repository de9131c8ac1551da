//! Metrics in Prometheus' text format, version 0.0.4.
ghost use Rattle.std.specs.Prelude.{◌≡◌, ◌++◌, OnOk};
ghost use Rattle.std.specs.List.{count_by};
ghost use Rattle.bw_status.specs.Metrics.{connection_metrics, ended_metric, in_state, left_out_metric};
ghost use Rattle.bw_status.specs.Metrics.{memory_metric, message_metric, metrics};
ghost use Rattle.bw_status.specs.Metrics.{notice_metric, process_metrics, reply_metrics};
ghost use Rattle.bw_status.specs.Metrics.{state_line, state_rank};
ghost use Rattle.bw_status.specs.Metrics.{take_metrics, turned_away_metric, verdict_metric};

use crate::metric::{put_family, put_head, put_line, put_metric};
use crate::snapshot::{ShownState, Snapshot, TakeStatus, take_state_word};
use std::alloc::AllocError;

/// Appends the metrics.
#[tactic(auto, using(std::proofs::lemmas::List::append_assoc))]
pub(crate) fn put_metrics(out: &mut Vec<u8>, snapshot: &Snapshot) -> Result<(), AllocError>
    ensures { OnOk result (out.new.items ≡ out.old.items ++ metrics snapshot.now) }
{
    put_takes(out, snapshot)?;
    put_connections(out, snapshot)?;
    put_replies(out, snapshot)?;
    put_process(out, snapshot)
}

/// Appends how many takes there are.
#[tactic(auto, using(std::proofs::lemmas::List::append_assoc))]
fn put_takes(out: &mut Vec<u8>, snapshot: &Snapshot) -> Result<(), AllocError>
    ensures { OnOk result (out.new.items ≡ out.old.items ++ take_metrics snapshot.now) }
{
    put_head(out, "bwingest_takes", "Takes by state.", "gauge")?;
    put_state(out, snapshot, ShownState::Unopened)?;
    put_state(out, snapshot, ShownState::Open)?;
    put_state(out, snapshot, ShownState::Closed)?;
    put_state(out, snapshot, ShownState::Stood)?;
    put_metric(
        out,
        "bwingest_takes_resumed",
        "Takes resumed at the start.",
        "gauge",
        snapshot.resumed,
    )?;
    put_left_out(out, snapshot)
}

/// Appends how many names are left out.
fn put_left_out(out: &mut Vec<u8>, snapshot: &Snapshot) -> Result<(), AllocError>
    ensures { OnOk result (out.new.items ≡ out.old.items ++ left_out_metric snapshot.now) }
{
    put_metric(
        out,
        "bwingest_takes_left_out",
        "Names left out, since something is wrong with their journals or files.",
        "gauge",
        snapshot.left_out.len() as u64,
    )
}

/// Appends how many connections there are and were.
#[tactic(auto, using(std::proofs::lemmas::List::append_assoc))]
fn put_connections(out: &mut Vec<u8>, snapshot: &Snapshot) -> Result<(), AllocError>
    ensures { OnOk result (out.new.items ≡ out.old.items ++ connection_metrics snapshot.now) }
{
    put_metric(
        out,
        "bwingest_connections",
        "Connections of recorders.",
        "gauge",
        snapshot.connections,
    )?;
    put_metric(
        out,
        "bwingest_connection_places",
        "Connections there may be.",
        "gauge",
        snapshot.places,
    )?;
    put_ended(out, snapshot)
}

/// Appends how many connections ended, by cause.
fn put_ended(out: &mut Vec<u8>, snapshot: &Snapshot) -> Result<(), AllocError>
    ensures { OnOk result (out.new.items ≡ out.old.items ++ ended_metric snapshot.now) }
{
    let name = "bwingest_connections_ended_total";
    let help = "Connections that ended, by cause.";
    put_family(out, name, help, "cause", snapshot.ended_by.as_slice())
}

/// Appends what came and what was replied.
#[tactic(auto, using(std::proofs::lemmas::List::append_assoc))]
fn put_replies(out: &mut Vec<u8>, snapshot: &Snapshot) -> Result<(), AllocError>
    ensures { OnOk result (out.new.items ≡ out.old.items ++ reply_metrics snapshot.now) }
{
    put_metric(
        out,
        "bwingest_message_bytes_total",
        "Bytes of messages.",
        "counter",
        snapshot.bytes,
    )?;
    put_messages(out, snapshot)?;
    put_verdicts(out, snapshot)?;
    put_notices(out, snapshot)?;
    put_turned_away(out, snapshot)
}

/// Appends how many messages and asks came.
fn put_messages(out: &mut Vec<u8>, snapshot: &Snapshot) -> Result<(), AllocError>
    ensures { OnOk result (out.new.items ≡ out.old.items ++ message_metric snapshot.now) }
{
    let (name, help) = ("bwingest_messages_total", "Messages and asks by kind.");
    put_family(out, name, help, "kind", snapshot.messages.as_slice())
}

/// Appends how many verdicts were sent.
fn put_verdicts(out: &mut Vec<u8>, snapshot: &Snapshot) -> Result<(), AllocError>
    ensures { OnOk result (out.new.items ≡ out.old.items ++ verdict_metric snapshot.now) }
{
    let (name, help) = ("bwingest_verdicts_total", "Verdicts sent.");
    put_family(out, name, help, "verdict", snapshot.verdicts.as_slice())
}

/// Appends how many notices were sent.
fn put_notices(out: &mut Vec<u8>, snapshot: &Snapshot) -> Result<(), AllocError>
    ensures { OnOk result (out.new.items ≡ out.old.items ++ notice_metric snapshot.now) }
{
    let (name, help) = ("bwingest_notices_total", "Notices sent.");
    put_family(out, name, help, "notice", snapshot.notices.as_slice())
}

/// Appends how many messages and asks were turned away.
fn put_turned_away(out: &mut Vec<u8>, snapshot: &Snapshot) -> Result<(), AllocError>
    ensures { OnOk result (out.new.items ≡ out.old.items ++ turned_away_metric snapshot.now) }
{
    put_metric(
        out,
        "bwingest_turned_away_total",
        "Messages and asks whose names aren't taken from their peers.",
        "counter",
        snapshot.turned_away,
    )
}

/// Appends what is reported of the process.
#[tactic(auto, using(std::proofs::lemmas::List::append_assoc))]
fn put_process(out: &mut Vec<u8>, snapshot: &Snapshot) -> Result<(), AllocError>
    ensures { OnOk result (out.new.items ≡ out.old.items ++ process_metrics snapshot.now) }
{
    put_metric(
        out,
        "process_start_time_seconds",
        "When the process began.",
        "gauge",
        snapshot.since,
    )?;
    put_metric(
        out,
        "bwingest_lines_dropped_total",
        "Lines left out, since they couldn't be written at once.",
        "counter",
        snapshot.lines_dropped,
    )?;
    put_memory(out, snapshot.memory)
}

/// Appends how much memory the process uses, if that is known.
fn put_memory(out: &mut Vec<u8>, memory: Option<u64>) -> Result<(), AllocError>
    ensures { OnOk result (out.new.items ≡ out.old.items ++ memory_metric memory) }
{
    let Some(bytes) = memory else {
        return out.extend_from_slice(b"");
    };
    put_metric(
        out,
        "process_resident_memory_bytes",
        "Memory in use.",
        "gauge",
        bytes,
    )
}

/// Appends how many takes are in a state.
#[tactic(auto, unfolding(crate::specs::Metrics::state_line))]
fn put_state(out: &mut Vec<u8>, snapshot: &Snapshot, state: ShownState) -> Result<(), AllocError>
    ensures { OnOk result (out.new.items
        ≡ out.old.items ++ state_line snapshot.now.takes.items state) }
{
    let count = count_in(snapshot.takes.as_slice(), state);
    put_line(
        out,
        "bwingest_takes",
        "state",
        take_state_word(state),
        count,
    )
}

/// How many takes are in a state.
fn count_in(takes: &[TakeStatus], state: ShownState) -> u64
    ensures { result ≡ count_by (in_state state) takes.now }
{
    let mut count = 0;
    for take in takes {
        if is_in(take, state) {
            count += 1;
        }
    }
    count
}

/// Whether a take is in a state.
fn is_in(take: &TakeStatus, state: ShownState) -> bool
    ensures { result ≡ in_state state take.now }
{
    state_rank(take.state) == state_rank(state)
}

/// A number for each state.
fn state_rank(state: ShownState) -> u8
    ensures { result ≡ state_rank state }
{
    match state {
        ShownState::Unopened => 0,
        ShownState::Open => 1,
        ShownState::Closed => 2,
        ShownState::Stood => 3,
    }
}
