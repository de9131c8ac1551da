//! The messages that may still be admitted under a name.
ghost use Rattle.std.specs.Prelude.{◌≡◌, ◌<◌, ◌≤◌, ◌++◌, [], ◌∷◌, length, drop, replicate};
ghost use Rattle.std.specs.Prelude.{slice_set, Some, None, IfOk, option_copied};
ghost use Rattle.bw_model.specs.Bytes.{at};
ghost use Rattle.bw_session.specs.Windows.{count_held};

use crate::body::HeldBody;
use circular_buffer::HeapCircularBuffer;
use std::alloc::{AllocError, Global};
use std::marker::Model;

/// How many numbers may be admitted ahead of the last verdict.
pub(crate) const SLOTS: usize = 16;

/// The bodies of the next sixteen numbers, as far as they have come (a sliding window).
///
/// Slot 0 is that of the least number without a verdict.
#[derive(Drop)]
pub(crate) struct Window {
    slots: HeapCircularBuffer<Option<HeldBody>>,
}

impl Model for Window {
    ghost use Rattle.std.specs.Prelude.{◌≡◌, List, Option, ℕ, length};

    ghost Value = { List (Option (List ℕ)) };

    ghost view = { λ w. w.slots.items };

    ghost invariant = { λ w. (length w.slots.items ≡ 16) × (w.slots.capacity ≡ 16) };
}

impl Window {
    /// An empty window.
    ///
    /// # Errors
    /// `AllocError` if the slots were refused.
    pub(crate) fn new(alloc: Global) -> Result<Window, AllocError>
        ensures { IfOk result (λ w. w ≡ replicate 16 None) }
    {
        let mut slots = HeapCircularBuffer::with_capacity(alloc, SLOTS)?;
        for _slot in 0..SLOTS {
            slots.push_back(None);
        }
        Ok(Window { slots })
    }

    /// How many slots there are.
    pub(crate) fn len(&self) -> usize
        ensures value { result ≡ 16 }
        ensures slots { length self.now ≡ 16 }
    {
        self.slots.len()
    }

    /// The body in a slot.
    pub(crate) fn get(&self, slot: usize) -> Option<&HeldBody>
        ensures value { option_copied result ≡ at self.now slot }
        ensures slots { length self.now ≡ 16 }
    {
        match self.slots.get(slot) {
            Some(Some(body)) => Some(body),
            _ => None,
        }
    }

    /// Puts a body into a slot.
    pub(crate) fn put(&mut self, slot: usize, body: HeldBody)
        requires { slot < 16 }
        ensures { self.new ≡ slice_set self.old slot (Some body) }
    {
        let place = self.slots.get_mut(slot).unwrap();
        *place = Some(body);
    }

    /// Drops the first slot, and adds an empty one after the others.
    pub(crate) fn advance(&mut self)
        ensures { self.new ≡ drop 1 self.old ++ None ∷ [] }
    {
        self.slots.pop_front();
        self.slots.push_back(None);
    }

    /// How many bodies are held.
    pub(crate) fn count(&self) -> usize
        ensures value { result ≡ count_held self.now }
        ensures range { result ≤ 16 }
    {
        let mut count = 0;
        for slot in 0..self.slots.len() {
            if self.get(slot).is_some() {
                count += 1;
            }
        }
        count
    }
}
