//! A journal that knows what it is to be given, for servers to note in.
ghost use Rattle.std.specs.Prelude.{None, false};

use crate::tests::entries::JOURNAL;
use bw_journal::Journal;
use bw_model::Name;
use bw_store::{CallCounter, StoreFault};

/// A journal of one name. It takes the bytes of `JOURNAL` after its header, each once and in their
/// order, and fails if it is given others.
#[derive(Drop)]
pub(crate) struct Expecting {
    /// How many bytes of it are noted; none before it is begun.
    noted: usize,
    call_counter: CallCounter,
}

impl Expecting {
    /// A journal in which so many bytes are noted.
    pub(crate) fn new(noted: usize) -> Expecting {
        Expecting {
            noted,
            call_counter: CallCounter::new(),
        }
    }
}

impl Journal for Expecting {
    ghost notes = { λ _ _. None };

    ghost header = { λ _ _. record { limit = 0; existed = false } };

    ghost failures = { λ j. j.call_counter.failures };

    ghost honest = { λ _. false };

    fn begin(&mut self, _name: &Name) -> Result<(), StoreFault> {
        self.call_counter.count(false);
        if self.noted == 0 {
            self.noted = 47;
        }
        Ok(())
    }

    fn note(&mut self, _name: &Name, offset: u64, bytes: &[u8]) -> Result<(), StoreFault> {
        let is_expected = offset == self.noted as u64
            && match JOURNAL.get(self.noted..) {
                Some(rest) => self.noted != 0 && rest.starts_with(bytes),
                None => false,
            };
        self.call_counter.count(!is_expected);
        if !is_expected {
            return Err(StoreFault);
        }
        self.noted = self.noted.saturating_add(bytes.len());
        Ok(())
    }
}
