//! The file of a take, which grows with it.
ghost use Rattle.std.specs.Prelude.{◌≡◌, ◌≤◌, ◌+◌, ◌^◌, ◌*◌, ℕ, List, [], Some, IsSome, IsTrue};
ghost use Rattle.std.specs.Prelude.{IsFalse, IfOk, OnOk, OnErr, is_err, length, true, false};
ghost use Rattle.bw_model.specs.Limits.{largest};
ghost use Rattle.bw_model.specs.Take.{Take, Stored, Open, Block, SetField, Close, judge, parts};
ghost use Rattle.bw_model.specs.Take.{frames, with_field};
ghost use Rattle.bw_model.specs.Wire.{is_request};
ghost use Rattle.bw_store.specs.StoreSteps.{Shared, WasAsked, WasAskedFirst};
ghost use Rattle.bw_file.specs.Plans.{name_plan, begin_plan, append_plan, retouch_plan, close_plan};
ghost use Rattle.bw_file.specs.GrowingFiles.{Growing, Stores, SetsOneField, BeginsFile, AsksForName, IsFresh};
ghost use Rattle.bw_file.specs.GrowingFiles.{is_new, clean_file};

use crate::buffer::Buffer;
use crate::condition::Condition;
use crate::writes::{
    put_closed_header, put_cues, put_grown_header, put_header, put_retouched_header, put_samples,
};
use bw_layout::{Bext, Fmt, Heading, Limit};
use bw_model::Name;
use bw_store::{Created, StoreFault, TakeStore};
use bw_take::TakeState;
use std::alloc::{AllocError, Global};
use std::marker::Model;

/// The file of one take, which is whole after each call that succeeds.
///
/// After a call that failed the file is dirty, and the same call may be tried again: it writes the
/// whole header then, instead of only what changed in it. While its owner can't count the request
/// that the last call stored, the file is ahead of the take. The memory in which a header is built
/// is allocated at the start.
#[derive(Drop)]
pub struct GrowingFile {
    name: Name,
    limit: Limit,
    made: bool,
    condition: Condition,
    buffer: Buffer,
}

impl Model for GrowingFile {
    ghost use Rattle.bw_file.specs.Conditions.{is_dirty, is_ahead};
    ghost use Rattle.bw_file.specs.GrowingFiles.{Growing};

    ghost Value = { Growing };

    ghost view = { λ f. record {
      name = f.name;
      limit = f.limit;
      made = f.made;
      dirty = is_dirty f.condition;
      ahead = is_ahead f.condition;
    } };
}

impl GrowingFile {
    /// The file of a take that isn't opened: nothing is in a store yet.
    ///
    /// # Errors
    /// `AllocError` if memory was refused.
    ///
    /// # Not specified
    /// When memory is refused.
    pub fn new(alloc: Global, name: Name, limit: Limit) -> Result<GrowingFile, AllocError>
        ensures { IfOk result (λ f. f ≡ clean_file name limit false) }
    {
        GrowingFile::clean(alloc, name, limit, false)
    }

    /// The file of a take that is open and whole in a store, as a server finds it when it resumes
    /// from a journal.
    ///
    /// # Errors
    /// `AllocError` if memory was refused.
    ///
    /// # Not specified
    /// When memory is refused.
    pub fn resume(alloc: Global, name: Name, limit: Limit) -> Result<GrowingFile, AllocError>
        ensures { IfOk result (λ f. f ≡ clean_file name limit true) }
    {
        GrowingFile::clean(alloc, name, limit, true)
    }

    /// A file that is as its take is, under a name that was made or not.
    fn clean(alloc: Global, name: Name, limit: Limit, made: bool) -> Result<GrowingFile, AllocError>
        ensures { IfOk result (λ f. f ≡ clean_file name limit made) }
    {
        Ok(GrowingFile {
            name,
            limit,
            made,
            condition: Condition::Clean,
            buffer: Buffer::new(alloc)?,
        })
    }

    /// Whether the next call writes the whole header: the last one failed, or the file is ahead.
    pub fn is_dirty(&self) -> bool
        ensures { result ≡ self.now.dirty }
    {
        !self.condition.is_clean()
    }

    /// Whether the file has a request that its take is still without.
    pub fn is_ahead(&self) -> bool
        ensures value { result ≡ self.now.ahead }
        ensures dirty { IsTrue result → IsTrue self.now.dirty }
    {
        self.condition.is_ahead()
    }

    /// Marks the whole file as ahead of its take: its last call stored a request that its owner
    /// can't count yet, for example because the journal failed after it.
    pub fn mark_ahead(&mut self)
        ensures { self.new ≡ record self.old { dirty = true; ahead = true } }
    {
        self.condition = Condition::Ahead;
    }

    /// Marks the file as whole, and no longer ahead of its take.
    pub fn mark_clean(&mut self)
        ensures { self.new ≡ record self.old { dirty = false; ahead = false } }
    {
        self.condition = Condition::Clean;
    }

    /// Makes the name, unless an earlier try made it, and writes the header of a take without data.
    /// It requires that the OPEN with this format and history fits and is judged Stored.
    ///
    /// If the name was in the store, it returns Exists, and nothing is written.
    ///
    /// # Errors
    /// `StoreFault` if a call of the store failed. The file is dirty then, and the same call may
    /// be tried again.
    ///
    /// # Not specified
    /// - Which of its calls failed.
    /// - Over a store that isn't honest: what the file holds, and that New and Exists are true.
    pub fn begin<S: TakeStore>(
        &mut self,
        store: &mut S,
        state: &TakeState,
        format: Fmt,
        history: &[u8],
    ) -> Result<Created, StoreFault>
        requires fits { IsTrue (is_request (Open format history.now)) }
        requires stored { judge state.now.parts (Open format history.now) ≡ Stored }
        ensures ok { IfOk result (λ c.
            self.new ≡ record self.old { made = is_new c; dirty = false; ahead = false }) }
        ensures err { OnErr result
            (self.new ≡ record self.old { made = self.new.made; dirty = true; ahead = false }) }
        // No other name is touched, and the store counts a failure exactly on an error.
        ensures shared { Shared S.TakeStore (is_err result) self.old.name store.old store.new }
        ensures calls { S.calls store.new ≤ S.calls store.old + 2 }
        // A success makes exactly the calls of its plan (kind, offset, length), in order.
        ensures order { IfOk result (λ c. WasAsked S.TakeStore
            (begin_plan self.old (is_new c) (length history.now)) store.old store.new) }
        // An error leaves a prefix of these calls.
        ensures begun { OnErr result (WasAskedFirst S.TakeStore
            (begin_plan self.old true (length history.now)) store.old store.new) }
        ensures name { IsTrue (S.honest store.old) → AsksForName self.old.made self.new.made
            (S.contents store.old self.old.name) (S.contents store.new self.old.name) }
        ensures existed { IsTrue (S.honest store.old) →
            IfOk result (λ c. IsFalse (is_new c) → IsSome (S.contents store.old self.old.name)) }
        // The file of the take after the request; after an error one that the same call repairs.
        ensures file { IsTrue (S.honest store.old) → (t : Take) → parts t ≡ state.now.parts →
            BeginsFile result self.old self.new.made t (Open format history.now)
            (S.contents store.old self.old.name) (S.contents store.new self.old.name) }
    {
        self.condition = Condition::Dirty;
        match make_name(&mut self.made, store, &self.name)? {
            Created::New => {}
            Created::Exists => {
                self.condition = Condition::Clean;
                return Ok(Created::Exists);
            }
        }
        let heading = Heading::new(format, state.bext(), history, self.limit);
        put_header(
            store,
            &self.name,
            &mut self.buffer,
            &heading,
            state.data_len(),
            0,
        )?;
        self.condition = Condition::Clean;
        Ok(Created::New)
    }

    /// Appends the samples of a block. It requires that the BLOCK fits and is judged Stored, and
    /// that the data have at most 2^62 bytes after it.
    ///
    /// # Errors
    /// `StoreFault` if a call of the store failed. The file is dirty then, and the same call may
    /// be tried again.
    ///
    /// # Not specified
    /// - Which of its calls failed.
    /// - Over a store that isn't honest, what the file holds.
    pub fn append<S: TakeStore>(
        &mut self,
        store: &mut S,
        state: &TakeState,
        samples: &[u8],
    ) -> Result<(), StoreFault>
        requires fits { IsTrue (is_request (Block samples.now)) }
        requires stored { judge state.now.parts (Block samples.now) ≡ Stored }
        requires samples { state.now.parts.samples_len + length samples.now ≤ largest }
        ensures known { self.new ≡ record self.old { dirty = is_err result; ahead = false } }
        ensures shared { Shared S.TakeStore (is_err result) self.old.name store.old store.new }
        ensures calls { S.calls store.new ≤ S.calls store.old + 4 }
        // A success makes exactly the calls of its plan (kind, offset, length), in order.
        ensures order { OnOk result (WasAsked S.TakeStore
            (append_plan self.old state.now.parts (length samples.now)) store.old store.new) }
        ensures begun { OnErr result (WasAskedFirst S.TakeStore
            (append_plan self.old state.now.parts (length samples.now)) store.old store.new) }
        // The file of the take after the request; after an error one that the same call repairs.
        ensures file { IsTrue (S.honest store.old) → (t : Take) → parts t ≡ state.now.parts →
            Stores result self.old t (Block samples.now)
            (S.contents store.old self.old.name) (S.contents store.new self.old.name) }
    {
        let condition = self.condition;
        self.condition = Condition::Dirty;
        let heading = heading_of(state, self.limit);
        let before = state.data_len();
        let after = before + samples.len() as u64;
        put_samples(store, &self.name, heading.data_place() + before, samples)?;
        put_grown_header(
            condition,
            store,
            &self.name,
            &mut self.buffer,
            &heading,
            before,
            after,
        )?;
        self.condition = Condition::Clean;
        Ok(())
    }

    /// Writes the header with these fields of `bext`, one of which was set by a request that is
    /// judged Stored.
    ///
    /// # Errors
    /// `StoreFault` if a call of the store failed. The file is dirty then, and the same call may
    /// be tried again.
    ///
    /// # Not specified
    /// - Which of its calls failed.
    /// - Over a store that isn't honest, what the file holds.
    pub fn retouch<S: TakeStore>(
        &mut self,
        store: &mut S,
        state: &TakeState,
        bext: &Bext,
    ) -> Result<(), StoreFault>
        requires { SetsOneField state.now.parts bext.now }
        ensures known { self.new ≡ record self.old { dirty = is_err result; ahead = false } }
        ensures shared { Shared S.TakeStore (is_err result) self.old.name store.old store.new }
        ensures calls { S.calls store.new ≤ S.calls store.old + 1 }
        // Of a clean file: one write of the field that was set, or none where its bytes stay.
        ensures order { (tag : ℕ) (value : List ℕ) →
            bext.now ≡ with_field state.now.parts.fields tag value →
            OnOk result (WasAsked S.TakeStore
            (retouch_plan self.old state.now.parts bext.now tag) store.old store.new) }
        // An error leaves a prefix of these calls.
        ensures begun { (tag : ℕ) (value : List ℕ) →
            bext.now ≡ with_field state.now.parts.fields tag value →
            OnErr result (WasAskedFirst S.TakeStore
            (retouch_plan self.old state.now.parts bext.now tag) store.old store.new) }
        // The file of the take after the request; after an error one that the same call repairs.
        ensures file { IsTrue (S.honest store.old) → (t : Take) → parts t ≡ state.now.parts →
            (tag : ℕ) (value : List ℕ) → bext.now ≡ with_field t.fields tag value →
            Stores result self.old t (SetField tag value)
            (S.contents store.old self.old.name) (S.contents store.new self.old.name) }
    {
        let condition = self.condition;
        self.condition = Condition::Dirty;
        let heading = heading_of(state, self.limit);
        let retouched = heading.with_bext(bext);
        put_retouched_header(
            condition,
            store,
            &self.name,
            &mut self.buffer,
            &heading,
            &retouched,
            state.data_len(),
        )?;
        self.condition = Condition::Clean;
        Ok(())
    }

    /// Writes the cue points of the markers after the data, and says to the store that the file is
    /// complete. It requires that the CLOSE with the take's own frames is judged Stored.
    ///
    /// # Errors
    /// `StoreFault` if a call of the store failed. The file is dirty then, and the same call may
    /// be tried again.
    ///
    /// # Not specified
    /// - Which of its calls failed.
    /// - Over a store that isn't honest, what the file holds.
    pub fn close<S: TakeStore>(
        &mut self,
        store: &mut S,
        state: &TakeState,
    ) -> Result<(), StoreFault>
        requires { judge state.now.parts (Close (frames state.now.parts)) ≡ Stored }
        ensures known { self.new ≡ record self.old { dirty = is_err result; ahead = false } }
        ensures shared { Shared S.TakeStore (is_err result) self.old.name store.old store.new }
        ensures calls { S.calls store.new ≤ S.calls store.old + 3 }
        // A success makes exactly the calls of its plan (kind, offset, length), in order.
        ensures order { OnOk result (WasAsked S.TakeStore
            (close_plan self.old state.now.parts) store.old store.new) }
        ensures begun { OnErr result (WasAskedFirst S.TakeStore
            (close_plan self.old state.now.parts) store.old store.new) }
        // The file of the take after the request; after an error one that the same call repairs.
        ensures file { IsTrue (S.honest store.old) → (t : Take) → parts t ≡ state.now.parts →
            Stores result self.old t (Close (frames state.now.parts))
            (S.contents store.old self.old.name) (S.contents store.new self.old.name) }
    {
        let condition = self.condition;
        self.condition = Condition::Dirty;
        let heading = heading_of(state, self.limit);
        let data_len = state.data_len();
        let markers = state.markers();
        let end = heading.data_place() + data_len + data_len % 2;
        put_cues(store, &self.name, &mut self.buffer, end, markers)?;
        put_closed_header(
            condition,
            store,
            &self.name,
            &mut self.buffer,
            &heading,
            data_len,
            markers.len() as u64,
        )?;
        store.finish(&self.name)?;
        self.condition = Condition::Clean;
        Ok(())
    }
}

/// The heading of a take that is open.
fn heading_of(state: &TakeState, limit: Limit) -> Heading<'_>
    requires { IsSome state.now.parts.format }
    ensures format { Some result.format ≡ state.now.parts.format }
    ensures bext { result.bext.now ≡ state.now.parts.fields }
    ensures history { result.history.now ≡ state.now.parts.history }
    ensures limit { result.limit ≡ limit }
{
    Heading::new(
        state.format().unwrap(),
        state.bext(),
        state.history(),
        limit,
    )
}

/// Makes the name, unless it is made: `New` if the file is this one's.
fn make_name<S: TakeStore>(
    made: &mut bool,
    store: &mut S,
    name: &Name,
) -> Result<Created, StoreFault>
    ensures made { IfOk result (λ c. made.new ≡ is_new c) }
    ensures err { OnErr result ((made.old ≡ false) × (made.new ≡ false)) }
    ensures shared { Shared S.TakeStore (is_err result) name.now store.old store.new }
    ensures order { OnOk result (WasAsked S.TakeStore
        (name_plan name.now made.old) store.old store.new) }
    ensures begun { OnErr result (WasAskedFirst S.TakeStore
        (name_plan name.now made.old) store.old store.new) }
    ensures name { IsTrue (S.honest store.old) → AsksForName made.old made.new
        (S.contents store.old name.now) (S.contents store.new name.now) }
    ensures existed { IsTrue (S.honest store.old) →
        IfOk result (λ c. IsFalse (is_new c) → IsSome (S.contents store.old name.now)) }
    ensures fresh { IsTrue (S.honest store.old) → IfOk result (λ c. IsTrue (is_new c) →
        IsFresh made.old (S.contents store.old name.now) (S.contents store.new name.now)) }
{
    if *made {
        return Ok(Created::New);
    }
    let created = store.create(name)?;
    *made = created == Created::New;
    Ok(created)
}
