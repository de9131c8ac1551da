//! Journals by name, next to a store of takes.
ghost use Rattle.std.specs.Prelude.{◌≡◌, ℕ, List, [], Bool, Option, None, false, IsOk, IsTrue, OnOk};
ghost use Rattle.std.specs.Prelude.{OnErr, is_err};
ghost use Rattle.bw_model.specs.Counts.{Counts};
ghost use Rattle.bw_store.specs.Stores.{KeepsOthers};
ghost use Rattle.bw_journal.specs.JournalHeaders.{Header};
ghost use Rattle.bw_journal.specs.Notes.{BeginsNotes, BeginsInPart, Notes, NotesInPart};
ghost use Rattle.bw_journal.specs.Notes.{KeepsHeaders, KeepsCommitted};

use bw_model::Name;
use bw_store::StoreFault;

/// Bytes by name that begin with a header and grow at their end.
///
/// The clauses on notes and headers speak of an honest journal: one that keeps what it reported as
/// successful.
pub trait Journal: Drop {
    /// What is noted under each name.
    ghost notes: { Self → List ℕ → Option (List ℕ) };

    /// What a name's journal begins with. No argument passes it: the journal knows its limit, and
    /// whether a file of the name existed.
    ghost header: { Self → List ℕ → Header };

    /// How many calls failed; the count stays at 2^64 - 1.
    ghost failures: { Self → ℕ };

    /// Whether the journal does what the clauses on notes and headers say.
    ghost honest: { Self → Bool };

    /// The path of the folder that the journals are kept in, which no call changes; empty where an
    /// implementation doesn't define it.
    ghost folder: { Self → List ℕ } = { λ _. [] };

    /// How many bytes of each name's notes a stop leaves at least; 0 where an implementation doesn't
    /// define it, which says nothing.
    ghost committed: { Self → List ℕ → ℕ } = { λ _ _. 0 };

    /// Writes the header of a name's journal, unless it is there whole.
    ///
    /// Bytes that are no prefix of the header are never written over.
    ///
    /// # Errors
    /// `StoreFault` if the journal failed: a prefix of the header may be there then, and the
    /// same call may be tried again.
    ///
    /// # Not specified
    /// - When the journal fails.
    /// - Whether it succeeds if other bytes are there: in an honest journal it can't, and the error
    ///   can't be distinguished from a failure.
    fn begin(&mut self, name: &Name) -> Result<(), StoreFault>
        ensures failures { Counts (failures self.old) (failures self.new) (is_err result) }
        ensures honest { honest self.new ≡ honest self.old }
        ensures folder { folder self.new ≡ folder self.old }
        ensures headers { IsTrue (honest self.old) →
            KeepsHeaders (header self.old) (header self.new) }
        ensures committed { IsTrue (honest self.old) →
            KeepsCommitted (committed self.old) (committed self.new) }
        ensures begun { IsTrue (honest self.old) → OnOk result
            (BeginsNotes name.now (header self.old name.now)
            (notes self.old name.now) (notes self.new name.now)) }
        ensures failed { IsTrue (honest self.old) → OnErr result (BeginsInPart name.now
            (header self.old name.now) (notes self.old name.now) (notes self.new name.now)) }
        ensures others { IsTrue (honest self.old) →
            KeepsOthers (notes self.old) (notes self.new) name.now };

    /// Notes bytes under a name after its first `offset` ones, in place of what a call that failed
    /// may have left there: a prefix of the same bytes.
    ///
    /// # Errors
    /// `StoreFault` if the journal failed: a prefix of the bytes may be there then, and the
    /// same call may be tried again.
    ///
    /// # Not specified
    /// - When the journal fails.
    /// - What is there afterwards if the first `offset` bytes weren't there, or other bytes
    ///   followed them.
    fn note(&mut self, name: &Name, offset: u64, bytes: &[u8]) -> Result<(), StoreFault>
        ensures failures { Counts (failures self.old) (failures self.new) (is_err result) }
        ensures honest { honest self.new ≡ honest self.old }
        ensures folder { folder self.new ≡ folder self.old }
        ensures headers { IsTrue (honest self.old) →
            KeepsHeaders (header self.old) (header self.new) }
        ensures committed { IsTrue (honest self.old) →
            KeepsCommitted (committed self.old) (committed self.new) }
        ensures noted { IsTrue (honest self.old) → OnOk result
            (Notes offset bytes.now (notes self.old name.now) (notes self.new name.now)) }
        ensures failed { IsTrue (honest self.old) → OnErr result
            (NotesInPart offset bytes.now (notes self.old name.now) (notes self.new name.now)) }
        ensures others { IsTrue (honest self.old) →
            KeepsOthers (notes self.old) (notes self.new) name.now };
}

/// No journal: what is noted is dropped, and no call fails.
#[derive(Drop)]
pub struct NoJournal;

impl Journal for NoJournal {
    ghost notes = { λ _ _. None };

    ghost header = { λ _ _. record { limit = 0; existed = false } };

    ghost failures = { λ _. 0 };

    ghost honest = { λ _. false };

    /// Does nothing.
    fn begin(&mut self, _name: &Name) -> Result<(), StoreFault>
        ensures ok { IsOk result }
        ensures unchanged { self.new ≡ self.old }
    {
        Ok(())
    }

    /// Does nothing.
    fn note(&mut self, _name: &Name, _offset: u64, _bytes: &[u8]) -> Result<(), StoreFault>
        ensures ok { IsOk result }
        ensures unchanged { self.new ≡ self.old }
    {
        Ok(())
    }
}
