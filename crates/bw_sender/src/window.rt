//! The offered requests that aren't settled.
ghost use Rattle.std.specs.Prelude.{◌≡◌, ◌<◌, ◌≤◌, ◌+◌, ◌++◌, [], ◌∷◌, length, drop, slice_get};
ghost use Rattle.std.specs.Prelude.{IfOk, IfSome, option_map, option_copied};
ghost use Rattle.std.specs.List.{list_any};
ghost use Rattle.bw_model.specs.Wire.{Second, last_number};
ghost use Rattle.bw_model.specs.World.{is_open as is_opening_request};
ghost use Rattle.bw_model.specs.World.{is_close as is_closing_request};
ghost use Rattle.bw_model.specs.VerdictMeanings.{verdict_meaning};
ghost use Rattle.bw_sender.specs.Entries.{unjudged, judged, is_judged_at, closes};
ghost use Rattle.bw_sender.specs.Entries.{pending_entries, pending_at};
ghost use Rattle.bw_sender.specs.Offers.{sender_entry, lent_pending};

use bw_model::{Request, RequestRef, Verdict};
use circular_buffer::HeapCircularBuffer;
use std::alloc::{AllocError, Global};
use std::marker::Model;

/// How many requests may be offered from the first without a verdict on.
pub(crate) const SLOTS: usize = 16;

/// An offered request, with its verdict if that came.
#[derive(Drop)]
pub(crate) struct Offered {
    pub(crate) request: Request,
    pub(crate) verdict: Option<Verdict>,
}

/// The offered requests from the first without a verdict on (a sliding window of sixteen).
#[derive(Drop)]
pub(crate) struct Window {
    slots: HeapCircularBuffer<Offered>,
}

impl Model for Window {
    ghost use Rattle.std.specs.Prelude.{◌≡◌, ◌≤◌, List, length, map};
    ghost use Rattle.bw_sender.specs.Entries.{SenderEntry};
    ghost use Rattle.bw_sender.specs.Offers.{sender_entry};

    ghost Value = { List SenderEntry };

    ghost view = { λ w. map sender_entry w.slots.items };

    ghost invariant = { λ w. (length w.slots.items ≤ 16) × (w.slots.capacity ≡ 16) };
}

impl Window {
    /// A window to which nothing was offered.
    ///
    /// # Errors
    /// `AllocError` if memory for the slots was refused.
    pub(crate) fn new(alloc: Global) -> Result<Window, AllocError>
        ensures { IfOk result (λ w. w ≡ []) }
    {
        let slots = HeapCircularBuffer::with_capacity(alloc, SLOTS)?;
        Ok(Window { slots })
    }

    /// How many requests are in it.
    pub(crate) fn len(&self) -> usize
        ensures value { result ≡ length self.now }
        ensures few { result ≤ 16 }
    {
        self.slots.len()
    }

    /// An offered request, counted from the first.
    pub(crate) fn get(&self, slot: usize) -> Option<&Offered>
        ensures value { option_map sender_entry (option_copied result) ≡ slice_get self.now slot }
    {
        self.slots.get(slot)
    }

    /// Whether the request of a slot has its verdict.
    pub(crate) fn is_judged(&self, slot: usize) -> bool
        requires { slot < length self.now }
        ensures { result ≡ is_judged_at self.now slot }
    {
        match self.get(slot) {
            Some(offered) => offered.verdict.is_some(),
            None => false,
        }
    }

    /// Adds a request after the others; there is a slot for it.
    pub(crate) fn push(&mut self, request: Request)
        requires { length self.old < 16 }
        ensures { self.new ≡ self.old ++ unjudged request ∷ [] }
    {
        self.slots.push_back(Offered {
            request,
            verdict: None,
        });
    }

    /// Notes the verdict of a request.
    pub(crate) fn judge(&mut self, slot: usize, verdict: Verdict)
        requires { slot < length self.old }
        ensures judged { self.new ≡ judged self.old slot (verdict_meaning verdict) }
        ensures len { length self.new ≡ length self.old }
    {
        let place = self.slots.get_mut(slot).unwrap();
        place.verdict = Some(verdict);
    }

    /// Removes the first request.
    pub(crate) fn pop(&mut self)
        ensures { self.new ≡ drop 1 self.old }
    {
        self.slots.pop_front();
    }

    /// Whether one of them is a CLOSE that has no verdict yet, or is stored.
    pub(crate) fn has_closed(&self) -> bool
        ensures { result ≡ list_any closes self.now }
    {
        for slot in 0..self.slots.len() {
            if let Some(offered) = self.get(slot) {
                if offered.closes() {
                    return true;
                }
            }
        }
        false
    }

    /// The request at a place among those without a verdict, with its number; `first` is the number
    /// of the window's first request.
    pub(crate) fn pending(&self, first: u32, place: usize) -> Option<(u32, &Request)>
        requires { first ≤ last_number Second + 1 }
        ensures value { option_map lent_pending result ≡
            slice_get (pending_entries first self.now) place }
        ensures range { IfSome result (λ p. p.0 < first + length self.now) }
    {
        let mut left = place;
        for slot in 0..self.slots.len() {
            if let Some(request) = self.request_pending(slot) {
                if left == 0 {
                    return Some((first + slot as u32, request));
                }
                left -= 1;
            }
        }
        None
    }

    /// The request of a slot, if it has no verdict.
    fn request_pending(&self, slot: usize) -> Option<&Request>
        ensures { option_copied result ≡ pending_at self.now slot }
    {
        match self.get(slot) {
            Some(
                Offered {
                    request,
                    verdict: None,
                },
            ) => Some(request),
            _ => None,
        }
    }
}

impl Offered {
    /// Whether it is a CLOSE that has no verdict yet, or is stored.
    pub(crate) fn closes(&self) -> bool
        ensures { result ≡ closes (sender_entry self.now) }
    {
        if !is_close(&self.request) {
            return false;
        }
        match self.verdict {
            None => true,
            Some(verdict) => verdict.is_stored(),
        }
    }
}

/// Whether it is a CLOSE.
pub(crate) fn is_close(request: &Request) -> bool
    ensures { result ≡ is_closing_request request.now }
{
    match request.as_ref() {
        RequestRef::CloseTake { frames: _frames } => true,
        _ => false,
    }
}

/// Whether it is an OPEN.
pub(crate) fn is_open(request: &Request) -> bool
    ensures { result ≡ is_opening_request request.now }
{
    match request.as_ref() {
        RequestRef::OpenTake {
            rate: _rate,
            channels: _channels,
            bits: _bits,
            history: _history,
        } => true,
        _ => false,
    }
}
