//! A journal in memory that fails chosen calls.
ghost use Rattle.std.specs.Prelude.{None, ◌≡◌, ◌<◌, ◌==◌, List, not, true, IsTrue, OnOk, OnErr};
ghost use Rattle.std.specs.Prelude.{is_err};
ghost use Rattle.std.specs.Prelude.{filter};
ghost use Rattle.bw_model.specs.Counts.{Counts, last_count};
ghost use Rattle.bw_store.specs.Fuses.{has_fuse, Blows, first_half};
ghost use Rattle.bw_store.specs.Memory.{content_under as content_of};
ghost use Rattle.bw_store.specs.Stores.{KeepsOthers};
ghost use Rattle.bw_journal.specs.MemoryHeaders.{header_for};
ghost use Rattle.bw_journal.specs.Notes.{BeginsNotes, KeepsHeaders, NotesOver, NotesInPart};
ghost use Rattle.bw_journal.specs.MemoryJournals.{failures_in_memory};

use crate::journal::Journal;
use crate::memory::{MemoryJournal, count};
use bw_model::Name;
use bw_store::{StoreFault, blow};

/// A journal with fuses: the calls of chosen numbers, counted from 0, fail, each once.
///
/// A `note` that fails at a fuse notes the first half of its bytes, rounded down; a `begin`
/// nothing.
#[derive(Drop)]
pub struct FuseJournal {
    inner: MemoryJournal,
    fuses: Vec<u64>,
    calls: u64,
    failures: u64,
}

impl FuseJournal {
    ghost use Rattle.bw_journal.specs.FusedJournals.{fused_journal, journal_fuses, fused_calls};
    ghost use Rattle.bw_journal.specs.FusedJournals.{fused_failures};

    /// A journal whose calls of these numbers fail.
    pub fn new(inner: MemoryJournal, fuses: Vec<u64>) -> FuseJournal
        ensures inner { fused_journal result ≡ inner }
        ensures fuses { journal_fuses result ≡ fuses.items }
        ensures calls { fused_calls result ≡ 0 }
        ensures failures { fused_failures result ≡ 0 }
    {
        FuseJournal {
            inner,
            fuses,
            calls: 0,
            failures: 0,
        }
    }

    /// How many calls there were, failed ones included.
    pub fn calls(&self) -> u64
        ensures { result ≡ fused_calls self.now }
    {
        self.calls
    }

    /// The inner journal.
    pub fn inner(&self) -> &MemoryJournal
        ensures { result.now ≡ fused_journal self.now }
    {
        &self.inner
    }

    /// The inner journal, by value.
    pub fn into_inner(self) -> MemoryJournal
        ensures { result ≡ fused_journal self }
    {
        let FuseJournal {
            inner,
            fuses: _,
            calls: _,
            failures: _,
        } = self;
        inner
    }
}

impl Journal for FuseJournal {
    ghost use Rattle.bw_journal.specs.FusedJournals.{fused_journal, fused_notes, fused_header};
    ghost use Rattle.bw_journal.specs.FusedJournals.{journal_fuses, fused_calls, fused_failures};

    ghost notes = { fused_notes };

    ghost header = { fused_header };

    ghost failures = { fused_failures };

    ghost honest = { λ _. true };

    /// Begins the inner journal, unless a fuse has the call's number.
    ///
    /// # Errors
    /// `StoreFault` at a fuse, which is spent; else if the inner journal counted a failure: the
    /// notes are as they were.
    ///
    /// # Not specified
    /// - Which calls fail once the inner journal's count of failures is 2^64 - 1.
    /// - That a call at a fuse leaves that count as it was.
    /// - Without a fuse, that the failure that the inner journal counted is one of its `begin`.
    fn begin(&mut self, name: &Name) -> Result<(), StoreFault>
        ensures failures { Counts (fused_failures self.old) (fused_failures self.new)
            (is_err result) }
        ensures calls { Counts (fused_calls self.old) (fused_calls self.new) true }
        ensures headers { KeepsHeaders (fused_header self.old) (fused_header self.new) }
        ensures begun { OnOk result (BeginsNotes name.now (fused_header self.old name.now)
            (fused_notes self.old name.now) (fused_notes self.new name.now)) }
        ensures failed { OnErr result (fused_notes self.new name.now
            ≡ fused_notes self.old name.now) }
        ensures others { KeepsOthers (fused_notes self.old) (fused_notes self.new) name.now }
        ensures blows { Blows (has_fuse (journal_fuses self.old) (fused_calls self.old))
            (is_err result)
            (failures_in_memory (fused_journal self.old))
            (failures_in_memory (fused_journal self.new)) }
        ensures spent { journal_fuses self.new
            ≡ filter (λ f. not (f == fused_calls self.old)) (journal_fuses self.old) }
    {
        let answer = if blow(&mut self.fuses, self.calls) {
            Err(StoreFault)
        } else {
            self.inner.begin(name)
        };
        count(&mut self.calls, true);
        count(&mut self.failures, answer.is_err());
        answer
    }

    /// Notes the bytes in the inner journal, unless a fuse has the call's number: then only their
    /// first half, rounded down.
    ///
    /// # Errors
    /// `StoreFault` at a fuse, which is spent; else if the inner call failed.
    ///
    /// # Not specified
    /// - Which calls fail once the inner journal's count of failures is 2^64 - 1.
    /// - What an error leaves if other bytes followed the first `offset` ones.
    /// - At a fuse, whether the inner journal took the half: only its count of failures shows it.
    fn note(&mut self, name: &Name, offset: u64, bytes: &[u8]) -> Result<(), StoreFault>
        ensures failures { Counts (fused_failures self.old) (fused_failures self.new)
            (is_err result) }
        ensures calls { Counts (fused_calls self.old) (fused_calls self.new) true }
        ensures headers { KeepsHeaders (fused_header self.old) (fused_header self.new) }
        ensures over { OnOk result (NotesOver offset bytes.now
            (fused_notes self.old name.now) (fused_notes self.new name.now)) }
        ensures failed { OnErr result (NotesInPart offset bytes.now
            (fused_notes self.old name.now) (fused_notes self.new name.now)) }
        ensures others { KeepsOthers (fused_notes self.old) (fused_notes self.new) name.now }
        ensures blows { Blows (has_fuse (journal_fuses self.old) (fused_calls self.old))
            (is_err result)
            (failures_in_memory (fused_journal self.old))
            (failures_in_memory (fused_journal self.new)) }
        ensures half { IsTrue (has_fuse (journal_fuses self.old) (fused_calls self.old)) →
            failures_in_memory (fused_journal self.old) < last_count →
            failures_in_memory (fused_journal self.new)
            ≡ failures_in_memory (fused_journal self.old) →
            NotesOver offset (first_half bytes.now) (fused_notes self.old name.now)
            (fused_notes self.new name.now) }
        ensures spent { journal_fuses self.new
            ≡ filter (λ f. not (f == fused_calls self.old)) (journal_fuses self.old) }
    {
        let answer = if blow(&mut self.fuses, self.calls) {
            note_half(&mut self.inner, name, offset, bytes);
            Err(StoreFault)
        } else {
            note_all(&mut self.inner, name, offset, bytes)
        };
        count(&mut self.calls, true);
        count(&mut self.failures, answer.is_err());
        answer
    }
}

/// Notes the bytes.
#[tactic(auto, using(crate::proofs::Starts::notes_cut))]
fn note_all(
    journal: &mut MemoryJournal,
    name: &Name,
    offset: u64,
    bytes: &[u8],
) -> Result<(), StoreFault>
    ensures failures { Counts journal.old.failures journal.new.failures (is_err result) }
    ensures headers { KeepsHeaders (header_for journal.old) (header_for journal.new) }
    ensures over { OnOk result (NotesOver offset bytes.now
        (content_of journal.old.notes name.now) (content_of journal.new.notes name.now)) }
    ensures failed { OnErr result (NotesInPart offset bytes.now
        (content_of journal.old.notes name.now) (content_of journal.new.notes name.now)) }
    ensures others { KeepsOthers
        (content_of journal.old.notes) (content_of journal.new.notes) name.now }
{
    journal.note(name, offset, bytes)
}

/// Notes the first half of the bytes, whether or not the journal takes it.
fn note_half(journal: &mut MemoryJournal, name: &Name, offset: u64, bytes: &[u8])
    ensures headers { KeepsHeaders (header_for journal.old) (header_for journal.new) }
    ensures part { NotesInPart offset bytes.now
        (content_of journal.old.notes name.now) (content_of journal.new.notes name.now) }
    ensures half { journal.old.failures < last_count → journal.new.failures ≡ journal.old.failures →
        NotesOver offset (first_half bytes.now)
        (content_of journal.old.notes name.now) (content_of journal.new.notes name.now) }
    ensures others { KeepsOthers
        (content_of journal.old.notes) (content_of journal.new.notes) name.now }
{
    let _ = journal.note(name, offset, &bytes[..bytes.len() / 2]);
}
