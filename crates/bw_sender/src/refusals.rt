//! The settled requests that aren't stored.
ghost use Rattle.std.specs.Prelude.{◌≡◌, ◌≤◌, ◌<◌, ◌+◌, ◌++◌, ◌∷◌, [], length, map, OnOk, OnErr};
ghost use Rattle.std.specs.Prelude.{◌⊎◌, IsOk};
ghost use Rattle.bw_model.specs.VerdictMeanings.{verdict_meaning};
ghost use Rattle.bw_sender.specs.RefusedNumbers.{refusal_of, most_room};

use crate::window::SLOTS;
use bw_model::Verdict;
use std::alloc::{AllocError, Global};
use std::marker::Model;

/// The settled numbers whose requests aren't stored, with their verdicts, in their order.
#[derive(Drop)]
pub(crate) struct Refusals {
    entries: Vec<(u32, Verdict)>,
}

impl Model for Refusals {
    ghost use Rattle.std.specs.Prelude.{◌-◌, vec_capacity, length, map};
    ghost use Rattle.bw_sender.specs.RefusedNumbers.{Refused, refusal_of};

    ghost Value = { Refused };

    ghost view = { λ r. record {
      numbers = map refusal_of r.entries.items;
      room = vec_capacity r.entries - length r.entries.items;
    } };
}

impl Refusals {
    /// None yet.
    pub(crate) fn new(alloc: Global) -> Refusals
        ensures numbers { result.numbers ≡ [] }
        ensures room { result.room ≡ 0 }
    {
        Refusals {
            entries: Vec::new(alloc),
        }
    }

    /// Makes room for this many more. When it grows, there is room for at least sixteen, and for as
    /// many as are there, so that they are not copied over and over.
    ///
    /// # Errors
    /// `AllocError` if the growth was refused.
    pub(crate) fn reserve(&mut self, count: usize) -> Result<(), AllocError>
        ensures numbers { self.new.numbers ≡ self.old.numbers }
        ensures ok { OnOk result (count ≤ self.new.room) }
        ensures most { self.new.room ≤ most_room self.old count }
        ensures err { OnErr result (self.new ≡ self.old) }
        ensures enough { count ≤ self.old.room → IsOk result }
        ensures full { OnErr result (self.old.room < count) }
        ensures grows { OnOk result ((self.new ≡ self.old)
            ⊎ (length self.old.numbers ≤ self.new.room)) }
    {
        if count <= self.entries.capacity() - self.entries.len() {
            return Ok(());
        }
        let room = self.entries.len().max(SLOTS);
        self.entries.reserve_exact(room.max(count))
    }

    /// Adds a number after the others; there is room for it.
    pub(crate) fn push(&mut self, number: u32, verdict: Verdict)
        requires { 1 ≤ self.old.room }
        ensures numbers { self.new.numbers ≡
            self.old.numbers ++ (number, verdict_meaning verdict) ∷ [] }
        ensures room { self.new.room + 1 ≡ self.old.room }
    {
        self.entries.push_reserved((number, verdict));
    }

    /// All of them.
    pub(crate) fn as_slice(&self) -> &[(u32, Verdict)]
        ensures { map refusal_of result.now ≡ self.now.numbers }
    {
        self.entries.as_slice()
    }
}
