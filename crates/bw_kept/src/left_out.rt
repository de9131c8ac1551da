//! Names that are left out, each to be reported once.
ghost use Rattle.std.specs.Prelude.{◌≡◌, ◌≤◌, [], ◌∷◌, IfOk, MatchOption, vec_capacity, vec_len};
ghost use Rattle.bw_kept.specs.LeftOutNames.{is_waiting, with_left_out};

use crate::uses::Uses;
use bw_model::Name;
use bw_recovery::NameFault;
use std::alloc::{AllocError, Global};

/// How many may wait for their report.
const MOST_WAITING: usize = 256;

/// Names that are left out, with what is wrong with each: those that wait to be reported, the first
/// one first, and the last ones that were reported.
#[derive(Drop)]
pub(crate) struct LeftOut {
    waiting: Vec<(Name, NameFault)>,
    reported: Uses,
    ghost capacity: { 256 ≤ vec_capacity waiting },
    ghost most: { vec_len waiting ≤ 256 },
}

impl LeftOut {
    /// None.
    ///
    /// # Errors
    /// `AllocError` if memory was refused.
    pub(crate) fn new(alloc: Global) -> Result<LeftOut, AllocError>
        ensures { IfOk result (λ l. l.waiting.items ≡ []) }
    {
        let waiting = Vec::with_capacity(alloc, MOST_WAITING)?;
        let reported = Uses::of(Vec::new(alloc))?;
        Ok(LeftOut { waiting, reported })
    }

    /// Notes that a name is left out, unless it waits already, or was reported.
    pub(crate) fn note(&mut self, name: &Name, fault: NameFault)
        ensures { self.new.waiting.items ≡ with_left_out self.old.reported.names.items name.now
            fault self.old.waiting.items }
    {
        let known = self.is_waiting(name) || self.reported.contains(name);
        if !known && self.waiting.len() < MOST_WAITING {
            let _added = self.waiting.push((name.copy(), fault));
        }
    }

    /// Whether a name waits to be reported.
    fn is_waiting(&self, name: &Name) -> bool
        ensures { result ≡ is_waiting name.now self.now.waiting.items }
    {
        self.waiting.iter().any(|waiting| waiting.0 == *name)
    }

    /// Takes the first one that waits. It counts as reported then.
    pub(crate) fn take_next(&mut self) -> Option<(Name, NameFault)>
        ensures { MatchOption result ((self.new ≡ self.old) × (self.old.waiting.items ≡ []))
            (λ next. self.old.waiting.items ≡ next ∷ self.new.waiting.items) }
    {
        if self.waiting.is_empty() {
            return None;
        }
        let next = self.waiting.remove(0);
        self.reported.touch(&next.0);
        Some(next)
    }
}
