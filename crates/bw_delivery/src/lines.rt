//! Lines as the events of servers that stop and start.
ghost use Rattle.std.specs.Prelude.{◌≡◌, ◌==◌, ℕ, IfOk, MatchOption};
ghost use Rattle.std.specs.List.{starts_with};
ghost use Rattle.bw_delivery.specs.declared.event.StopEvent.{StopEvent as SaidEvent};
ghost use Rattle.bw_delivery.specs.ServerLines.{IsIndexAfter, SaysServerEvent, SaysStopEvent};
ghost use Rattle.bw_delivery.specs.ServerLines.{is_of_server as is_server_line};

use crate::{Lives, StopEvent};
use bw_commands::{event_in, following, index};
use std::alloc::{AllocError, Global};

/// The event that a line says, if it says one: those of a rehearsal, and `stop`, `start`,
/// `start store K`, `start journal K`, `start counting store K` or `start counting journal K`.
///
/// # Errors
/// `AllocError` if memory was refused.
pub(crate) fn stop_event_in(alloc: Global, line: &[u8]) -> Result<Option<StopEvent>, AllocError>
    ensures { IfOk result (λ found. MatchOption found
        ((e : SaidEvent) → ¬ SaysStopEvent line.now e) (λ event. SaysStopEvent line.now event)) }
{
    if let Some(event) = server_event_in(line) {
        return Ok(Some(event));
    }
    let Some(event) = event_in(alloc, line)? else {
        return Ok(None);
    };
    Ok(Some(StopEvent::Happens(event)))
}

/// The event of a server that a line says, if it says one.
fn server_event_in(line: &[u8]) -> Option<StopEvent>
    ensures { MatchOption result ((e : SaidEvent) → ¬ SaysServerEvent line.now e)
        (λ event. SaysServerEvent line.now event) }
{
    if line == b"stop".as_slice() {
        return Some(StopEvent::Stop);
    }
    if line == b"start".as_slice() {
        return Some(StopEvent::Start(lives(u64::MAX, u64::MAX)));
    }
    if let Some(call) = index_after(b"start store ", line) {
        return Some(StopEvent::Start(lives(call as u64, u64::MAX)));
    }
    if let Some(call) = index_after(b"start journal ", line) {
        return Some(StopEvent::Start(lives(u64::MAX, call as u64)));
    }
    if let Some(call) = index_after(b"start counting store ", line) {
        return Some(StopEvent::StartCounting(lives(call as u64, u64::MAX)));
    }
    if let Some(call) = index_after(b"start counting journal ", line) {
        return Some(StopEvent::StartCounting(lives(u64::MAX, call as u64)));
    }
    None
}

/// Disks that die in these calls, of which nothing is done.
fn lives(takes: u64, notes: u64) -> Lives
    ensures takes { result.takes ≡ takes }
    ensures notes { result.notes ≡ notes }
    ensures reached { result.reached ≡ 0 }
{
    Lives {
        takes,
        notes,
        reached: 0,
    }
}

/// The index after a word, if the line is that word and an index.
fn index_after(word: &[u8], line: &[u8]) -> Option<usize>
    ensures { MatchOption result ((k : ℕ) → ¬ IsIndexAfter word.now line.now k)
        (λ k. IsIndexAfter word.now line.now k) }
{
    let Some(text) = following(word, line) else {
        return None;
    };
    index(text)
}

/// Whether a line begins with `start` or `stop`.
pub(crate) fn is_of_server(line: &[u8]) -> bool
    ensures { result ≡ is_server_line line.now }
{
    line.starts_with(b"start") || line.starts_with(b"stop")
}
