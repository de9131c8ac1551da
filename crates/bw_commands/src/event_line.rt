//! Lines as the events of a rehearsal.
ghost use Rattle.std.specs.Prelude.{◌≡◌, ◌≢◌, ◌++◌, ℕ, List, IfOk, OnErr, MatchOption};
ghost use Rattle.std.specs.Option.{SomeIff};
ghost use Rattle.bw_model.specs.World.{Event as ReportedEvent};
ghost use Rattle.bw_commands.specs.RehearsedWorlds.{event_meaning};
ghost use Rattle.bw_commands.specs.SaidEvents.{SaysEvent, IsIndexText, MayOffer, index_written};

use crate::event::Event;
use bw_model::Request;
use bw_wire::request_from_hex;
use std::alloc::{AllocError, Global};

/// The event that a line says, if it says one: `offer HEX`, with the kind byte and the payload of a
/// request, `send I`, `deliver K`, `bring K` or `ask`.
///
/// # Errors
/// `AllocError` if memory was refused: only a line of `offer ` and an even number of digits needs
/// memory.
///
/// # Not specified
/// For an even number of digits: when memory is refused, and that it is refused only if they spell
/// a request.
pub fn event_in(alloc: Global, line: &[u8]) -> Result<Option<Event>, AllocError>
    ensures ok { IfOk result (λ found. MatchOption found ((e : ReportedEvent) → ¬ SaysEvent line.now e)
        (λ event. SaysEvent line.now (event_meaning event))) }
    ensures err { OnErr result (MayOffer line.now) }
{
    if line == b"ask".as_slice() {
        return Ok(Some(Event::Ask));
    }
    if let Some(text) = following(b"offer ", line) {
        let Some(request) = request_from_hex(alloc, text)? else {
            return Ok(None);
        };
        return Ok(Some(Event::Offer(request)));
    }
    if let Some(text) = following(b"send ", line) {
        let Some(place) = index(text) else {
            return Ok(None);
        };
        return Ok(Some(Event::Send(place)));
    }
    if let Some(text) = following(b"deliver ", line) {
        let Some(place) = index(text) else {
            return Ok(None);
        };
        return Ok(Some(Event::Deliver(place)));
    }
    if let Some(text) = following(b"bring ", line) {
        let Some(place) = index(text) else {
            return Ok(None);
        };
        return Ok(Some(Event::Bring(place)));
    }
    Ok(None)
}

/// The rest of a line after a word, if it begins with it.
pub fn following<'a>(word: &[u8], line: &'a [u8]) -> Option<&'a [u8]>
    ensures { MatchOption result ((rest : List ℕ) → line.now ≢ word.now ++ rest)
        (λ rest. line.now ≡ word.now ++ rest.now) }
{
    line.strip_prefix(word)
}

/// The number that one to ten decimal digits write, below 2^32.
pub fn index(text: &[u8]) -> Option<usize>
    ensures { SomeIff result (IsIndexText text.now) (index_written text.now) }
{
    match str::from_utf8(text) {
        Ok(digits) => number(digits),
        Err(_) => None,
    }
}

fn number(text: &str) -> Option<usize>
    ensures { SomeIff result (IsIndexText text.now) (index_written text.now) }
{
    // `parse` would accept a leading plus.
    if text.len() > 10 || text.as_bytes().first() == Some(&b'+') {
        return None;
    }
    let number: u32 = text.parse().ok()?;
    Some(number as usize)
}
