//! How many calls a store got, and how many failed.
ghost use Rattle.std.specs.Prelude.{◌≡◌, true};
ghost use Rattle.bw_store.specs.Stores.{Counts};

/// The counts of a store: of its calls, and of those that failed. Both stay at their last value.
#[derive(Drop)]
pub struct CallCounter {
    pub calls: u64,
    pub failures: u64,
}

impl CallCounter {
    /// No call yet.
    pub fn new() -> CallCounter
        ensures { result ≡ record { calls = 0; failures = 0 } }
    {
        CallCounter {
            calls: 0,
            failures: 0,
        }
    }

    /// How many calls there were; the count stays at 2^64 - 1.
    pub fn calls(&self) -> u64
        ensures { result ≡ self.now.calls }
    {
        self.calls
    }

    /// Counts a call, and its failure; both counts stay at 2^64 - 1.
    pub fn count(&mut self, fails: bool)
        ensures calls { Counts self.old.calls self.new.calls true }
        ensures failures { Counts self.old.failures self.new.failures fails }
    {
        self.calls = self.calls.saturating_add(1);
        if fails {
            self.failures = self.failures.saturating_add(1);
        }
    }
}
