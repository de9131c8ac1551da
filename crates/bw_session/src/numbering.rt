//! Doing the next number of a name: in the file, then in the journal, then in what is kept.
ghost use Rattle.std.specs.Prelude.{◌≡◌, ◌+◌, ◌≤◌, ◌||◌};
ghost use Rattle.std.specs.Prelude.{vec_capacity, length, IsTrue, IfOk, OnOk, OnErr, is_err};
ghost use Rattle.std.specs.Prelude.{false, Bool};
ghost use Rattle.bw_model.specs.Wire.{is_request, Second, last_number};
ghost use Rattle.bw_model.specs.Requests.{meaning};
ghost use Rattle.bw_model.specs.VerdictMeanings.{verdict_meaning};
ghost use Rattle.bw_journal.specs.Entries.{longest_entry};
ghost use Rattle.bw_journal.specs.Notes.{BeginsNotes, BeginsInPart, Notes, NotesInPart};
ghost use Rattle.bw_store.specs.StoreSteps.{WasAsked, WasAskedFirst};
ghost use Rattle.bw_session.specs.NextNumbers.{KeepsJournal, IsMeasured, DoesNext};
ghost use Rattle.bw_session.specs.Executions.{AsksJudged};
ghost use Rattle.bw_session.specs.NextNumbers.{is_written as was_written, noted_of};

use crate::execution::carry_out;
use crate::ledger::Ledger;
use crate::settling::settle;
use bw_file::GrowingFile;
use bw_journal::{Journal, put_entry};
use bw_model::{Name, RequestRef, Verdict};
use bw_store::{StoreFault, TakeStore};
use bw_take::TakeState;
use std::alloc::Global;

/// What a server keeps of the numbers that are done under a name.
#[derive(Drop)]
pub(crate) struct Progress {
    pub(crate) name: Name,
    pub(crate) growing: GrowingFile,
    pub(crate) state: TakeState,
    pub(crate) ledger: Ledger,
    /// How many bytes of the name's journal are its header and whole entries.
    pub(crate) noted: u64,
    ghost same_name: { growing.name ≡ name },
    ghost measured: { IsMeasured state.parts (length ledger.outcomes) noted },
}

/// A store, its journal, and room for one entry.
#[derive(Drop)]
pub(crate) struct Stores<S: TakeStore, J: Journal> {
    pub(crate) alloc: Global,
    pub(crate) store: S,
    pub(crate) journal: J,
    pub(crate) entry: Vec<u8>,
    ghost room: { longest_entry ≤ vec_capacity entry },
}

impl<S: TakeStore, J: Journal> Stores<S, J> {
    /// Notes a done number under a name at an offset of its journal, and returns the length of the
    /// entry in bytes.
    ///
    /// # Errors
    /// `StoreFault` if the journal failed: the same call may be tried again.
    fn note(
        &mut self,
        name: &Name,
        offset: u64,
        verdict: Verdict,
        digest: &[u8; 32],
        request: &RequestRef<'_>,
    ) -> Result<u64, StoreFault>
        requires { IsTrue (is_request (meaning request.now)) }
        ensures store { self.new.store ≡ self.old.store }
        ensures journal { KeepsJournal J.Journal (is_err result) name.now
            self.old.journal self.new.journal }
        ensures value { IfOk result (λ n.
            n ≡ length (noted_of (verdict_meaning verdict) digest.now (meaning request.now))) }
        ensures range { IfOk result (λ n. n ≤ longest_entry) }
        ensures noted { IsTrue (J.honest self.old.journal) → OnOk result (Notes offset
            (noted_of (verdict_meaning verdict) digest.now (meaning request.now))
            (J.notes self.old.journal name.now) (J.notes self.new.journal name.now)) }
        ensures failed { IsTrue (J.honest self.old.journal) → OnErr result (NotesInPart offset
            (noted_of (verdict_meaning verdict) digest.now (meaning request.now))
            (J.notes self.old.journal name.now) (J.notes self.new.journal name.now)) }
    {
        self.entry.clear();
        put_entry(self.alloc, &mut self.entry, verdict, digest, request).unwrap();
        self.journal.note(name, offset, &self.entry)?;
        Ok(self.entry.len() as u64)
    }
}

/// Begins a name's journal before its first number.
///
/// # Errors
/// `StoreFault` if the journal failed: the same call may be tried again.
fn begin_notes<J: Journal>(journal: &mut J, name: &Name, done: usize) -> Result<(), StoreFault>
    ensures journal { KeepsJournal J.Journal (is_err result) name.now journal.old journal.new }
    ensures begun { done ≡ 0 → IsTrue (J.honest journal.old) →
        OnOk result (BeginsNotes name.now (J.header journal.old name.now)
        (J.notes journal.old name.now) (J.notes journal.new name.now)) }
    ensures failed { IsTrue (J.honest journal.old) →
        OnErr result (BeginsInPart name.now (J.header journal.old name.now)
        (J.notes journal.old name.now) (J.notes journal.new name.now)) }
    ensures first { OnErr result (done ≡ 0) }
    ensures later { 1 ≤ done → journal.new ≡ journal.old }
{
    if done == 0 {
        journal.begin(name)?;
    }
    Ok(())
}

/// Whether a request with this verdict was written to the file.
fn is_written(verdict: Verdict, request: &RequestRef<'_>) -> bool
    ensures { result ≡ was_written (verdict_meaning verdict) (meaning request.now) }
{
    match request {
        RequestRef::Mark { .. } => false,
        RequestRef::OpenTake { .. }
        | RequestRef::Block { .. }
        | RequestRef::SetField { .. }
        | RequestRef::CloseTake { .. } => verdict.is_stored(),
    }
}

/// Marks the file as ahead of the done numbers, if a request that isn't noted was written to it:
/// another try of the request notes it alone.
fn mark_written(growing: &mut GrowingFile, verdict: Verdict, request: &RequestRef<'_>)
    ensures { growing.new ≡ record growing.old {
      dirty = was_written (verdict_meaning verdict) (meaning request.now) || growing.old.dirty;
      ahead = was_written (verdict_meaning verdict) (meaning request.now) || growing.old.ahead;
    } }
{
    if is_written(verdict, request) {
        growing.mark_ahead();
    }
}

impl Progress {
    ghost use Rattle.bw_session.specs.Promises.{KeepsStores};
    ghost use Rattle.bw_session.specs.NumberPromises.{MayTry, KeepsPlaces, KeepsNumber, LeavesNumber};
    ghost use Rattle.bw_session.specs.NumberPromises.{ForNext, NotesNext};
    ghost use Rattle.bw_session.specs.WriteOrders.{OrdersNext};

    /// Does the next number: its request is carried out in the file, then noted in the journal,
    /// then kept in memory. If only its note failed before, the file has the request: it is noted
    /// alone, and no call of the store is made.
    ///
    /// # Errors
    /// `StoreFault` if the store or the journal failed: the number isn't done, and the same request
    /// may be tried again.
    pub(crate) fn number_done<S: TakeStore, J: Journal>(
        &mut self,
        stores: &mut Stores<S, J>,
        request: &RequestRef<'_>,
        digest: &[u8; 32],
    ) -> Result<Verdict, StoreFault>
        requires fits { IsTrue (is_request (meaning request.now)) }
        requires number { length self.old.ledger.outcomes ≤ last_number Second }
        requires room { 1 ≤ self.old.state.room }
        requires place { 1 ≤ self.old.ledger.room }
        requires dirty { MayTry self.old (meaning request.now) }
        ensures both { KeepsStores S.TakeStore J.Journal (is_err result) self.old.name
            stores.old stores.new }
        ensures calls { S.calls stores.new.store ≤ S.calls stores.old.store + 4 }
        ensures asked { (tried : Bool) × AsksJudged S.TakeStore result self.old.growing
            self.old.state.parts (meaning request.now) self.new.growing.made tried
            stores.old.store stores.new.store }
        ensures places { KeepsPlaces self.old self.new }
        ensures kept { IfOk result (λ v. KeepsNumber self.old (meaning request.now) digest.now
            (verdict_meaning v) self.new) }
        ensures left { OnErr result (LeavesNumber S.TakeStore J.Journal
            self.old stores.old (meaning request.now) self.new stores.new) }
        ensures done { ForNext S.TakeStore J.Journal self.old (meaning request.now) digest.now
            stores.old (λ first log. DoesNext result first log self.new.state.parts
            self.new.ledger.outcomes (meaning request.now) self.new.growing
            (S.contents stores.new.store self.old.name)) }
        ensures noted { NotesNext S.TakeStore J.Journal result
            self.old stores.old (meaning request.now) digest.now self.new stores.new }
        ensures ordered { OrdersNext S.TakeStore J.Journal result
            self.old stores.old (meaning request.now) digest.now self.new stores.new }
    {
        begin_notes(&mut stores.journal, &self.name, self.ledger.len())?;
        let verdict = carry_out(
            &mut stores.store,
            &mut self.growing,
            &mut self.state,
            request,
        )?;
        // Called for its clause on widths: by it the file with the request is between the old and
        // the new one.
        let _bext = self.state.bext();
        let Ok(len) = stores.note(&self.name, self.noted, verdict, digest, request) else {
            mark_written(&mut self.growing, verdict, request);
            return Err(StoreFault);
        };
        settle(&mut self.state, &mut self.ledger, request, digest, verdict);
        self.noted += len;
        Ok(verdict)
    }
}
