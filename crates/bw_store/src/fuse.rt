//! A store that fails chosen calls.
ghost use Rattle.std.specs.Prelude.{◌≡◌, ◌==◌, ◌||◌, ◌∷◌, [], ℕ, List, Option, true, false};
ghost use Rattle.std.specs.Prelude.{not, IsTrue, IfOk, OnOk, OnErr, is_err, is_ok, length, filter};
ghost use Rattle.std.specs.Prelude.{if◌then◌else◌};
ghost use Rattle.bw_store.specs.Stores.{Counts, Creates, Written, MayTear, KeepsOthers, last_count, raised};
ghost use Rattle.bw_store.specs.Calls.{Create, WriteAt, Finish, Asks};
ghost use Rattle.bw_store.specs.StoreSteps.{WasAsked};
ghost use Rattle.bw_store.specs.Fuses.{has_fuse, Blows, passed_on, unless_fused, let_through, first_half};
ghost use Rattle.bw_store.specs.Fuses.{AsksPassed, WritesHalf};

use crate::call_counter::CallCounter;
use crate::store::{Created, StoreFault, TakeStore};
use bw_model::Name;
use std::marker::Model;

/// A store with fuses: the calls of chosen numbers, counted from 0, fail, each once.
///
/// A `write_at` that fails at a fuse writes the first half of its bytes, rounded down.
#[derive(Drop)]
pub struct FuseStore<S: TakeStore> {
    inner: S,
    fuses: Vec<u64>,
    /// A fuse has blown, so that the inner store didn't get all calls.
    blown: bool,
    written: u64,
    call_counter: CallCounter,
}

impl<S: TakeStore> Model for FuseStore<S> {
    ghost use Rattle.bw_store.specs.Fuses.{Fused};

    ghost Value = { Fused S };

    ghost view = { λ s. record {
      inner = s.inner;
      fuses = s.fuses.items;
      blown = s.blown;
      written = s.written;
      calls = s.call_counter.calls;
      failures = s.call_counter.failures;
    } };
}

impl<S: TakeStore> FuseStore<S> {
    /// A store whose calls of these numbers fail.
    pub fn new(inner: S, fuses: Vec<u64>) -> FuseStore<S>
        ensures inner { result.inner ≡ inner }
        ensures fuses { result.fuses ≡ fuses.items }
        ensures blown { result.blown ≡ false }
        ensures calls { result.calls ≡ 0 }
        ensures failures { result.failures ≡ 0 }
        ensures written { result.written ≡ 0 }
    {
        FuseStore {
            inner,
            fuses,
            blown: false,
            written: 0,
            call_counter: CallCounter::new(),
        }
    }

    /// How many calls there were, failed ones included.
    pub fn calls(&self) -> u64
        ensures { result ≡ self.now.calls }
    {
        self.call_counter.calls()
    }

    /// How many bytes were written by the calls of `write_at` that succeeded.
    pub fn written(&self) -> u64
        ensures { result ≡ self.now.written }
    {
        self.written
    }

    /// Whether a fuse has blown.
    pub fn has_blown(&self) -> bool
        ensures { result ≡ self.now.blown }
    {
        self.blown
    }

    /// The inner store.
    pub fn inner(&self) -> &S
        ensures { result.now ≡ self.now.inner }
    {
        &self.inner
    }

    /// The inner store, by value.
    pub fn into_inner(self) -> S
        ensures { result ≡ self.inner }
    {
        let FuseStore {
            inner,
            fuses: _,
            blown: _,
            written: _,
            call_counter: _,
        } = self;
        inner
    }
}

impl<S: TakeStore> TakeStore for FuseStore<S> {
    ghost contents = { λ s name. S.contents s.inner name };

    ghost failures = { λ s. s.failures };

    ghost calls = { λ s. s.calls };

    ghost asked = { λ s. passed_on s.blown (S.asked s.inner) };

    ghost honest = { λ s. S.honest s.inner };

    /// Makes the name in the inner store, unless a fuse has the call's number.
    ///
    /// # Errors
    /// `StoreFault` at a fuse, which is spent, without a call of the inner store; else if the
    /// inner call failed.
    ///
    /// # Not specified
    /// Whether a call without a fuse fails as the inner one does, once the inner store's count of
    /// failures is 2^64 - 1.
    fn create(&mut self, name: &Name) -> Result<Created, StoreFault>
        ensures failures { Counts self.old.failures self.new.failures (is_err result) }
        ensures calls { Counts self.old.calls self.new.calls true }
        ensures asked { AsksPassed (Create name.now ∷ []) self.old.blown
            (S.asked self.old.inner) self.new.blown (S.asked self.new.inner) }
        ensures honest { S.honest self.new.inner ≡ S.honest self.old.inner }
        ensures created { IsTrue (S.honest self.old.inner) → IfOk result (λ c.
            Creates c (S.contents self.old.inner name.now) (S.contents self.new.inner name.now)) }
        ensures failed { IsTrue (S.honest self.old.inner) → OnErr result
            (S.contents self.new.inner name.now ≡ S.contents self.old.inner name.now) }
        ensures others { IsTrue (S.honest self.old.inner) →
            KeepsOthers (S.contents self.old.inner) (S.contents self.new.inner) name.now }
        ensures blows { Blows (has_fuse self.old.fuses self.old.calls) (is_err result)
            (S.failures self.old.inner) (S.failures self.new.inner) }
        ensures untouched { IsTrue (has_fuse self.old.fuses self.old.calls) →
            self.new.inner ≡ self.old.inner }
        ensures inner { WasAsked S.TakeStore
            (unless_fused (has_fuse self.old.fuses self.old.calls)
            (Create name.now ∷ []))
            self.old.inner self.new.inner }
        ensures blown { self.new.blown ≡ (self.old.blown
            || has_fuse self.old.fuses self.old.calls) }
        ensures spent { self.new.fuses
            ≡ filter (λ f. not (f == self.old.calls)) self.old.fuses }
        ensures written { self.new.written ≡ self.old.written }
    {
        let answer = if blow(&mut self.fuses, self.call_counter.calls()) {
            self.blown = true;
            Err(StoreFault)
        } else {
            self.inner.create(name)
        };
        self.call_counter.count(answer.is_err());
        answer
    }

    /// Writes to the inner store, unless a fuse has the call's number: then only the first half of
    /// the bytes, rounded down.
    ///
    /// # Errors
    /// `StoreFault` at a fuse, which is spent; else if the inner call failed.
    ///
    /// # Not specified
    /// - Whether a call without a fuse fails as the inner one does, once the inner store's count of
    ///   failures is 2^64 - 1.
    /// - At a fuse, whether the inner store took the half: only its count of failures shows it.
    fn write_at(&mut self, name: &Name, offset: u64, bytes: &[u8]) -> Result<(), StoreFault>
        ensures failures { Counts self.old.failures self.new.failures (is_err result) }
        ensures calls { Counts self.old.calls self.new.calls true }
        ensures asked { AsksPassed (WriteAt name.now offset (length bytes.now) ∷ []) self.old.blown
            (S.asked self.old.inner) self.new.blown (S.asked self.new.inner) }
        ensures honest { S.honest self.new.inner ≡ S.honest self.old.inner }
        ensures all { IsTrue (S.honest self.old.inner) → OnOk result (Written
            (S.contents self.old.inner name.now) offset bytes.now
            (S.contents self.new.inner name.now)) }
        ensures failed { IsTrue (S.honest self.old.inner) → OnErr result (MayTear
            (S.contents self.old.inner name.now) offset (length bytes.now)
            (S.contents self.new.inner name.now)) }
        ensures others { IsTrue (S.honest self.old.inner) →
            KeepsOthers (S.contents self.old.inner) (S.contents self.new.inner) name.now }
        ensures blows { Blows (has_fuse self.old.fuses self.old.calls) (is_err result)
            (S.failures self.old.inner) (S.failures self.new.inner) }
        ensures half { IsTrue (has_fuse self.old.fuses self.old.calls) →
            WritesHalf S.TakeStore name.now offset bytes.now self.old.inner self.new.inner }
        ensures inner { WasAsked S.TakeStore
            (WriteAt name.now offset (length (let_through
            (has_fuse self.old.fuses self.old.calls) bytes.now)) ∷ [])
            self.old.inner self.new.inner }
        ensures blown { self.new.blown ≡ (self.old.blown
            || has_fuse self.old.fuses self.old.calls) }
        ensures spent { self.new.fuses
            ≡ filter (λ f. not (f == self.old.calls)) self.old.fuses }
        ensures written { self.new.written ≡ (if is_ok result
            then raised self.old.written (length bytes.now)
            else self.old.written) }
    {
        let answer = if blow(&mut self.fuses, self.call_counter.calls()) {
            self.blown = true;
            write_half(&mut self.inner, name, offset, bytes);
            Err(StoreFault)
        } else {
            self.inner.write_at(name, offset, bytes)
        };
        if answer.is_ok() {
            self.written = self.written.saturating_add(bytes.len() as u64);
        }
        self.call_counter.count(answer.is_err());
        answer
    }

    /// Finishes the name in the inner store, unless a fuse has the call's number.
    ///
    /// # Errors
    /// `StoreFault` at a fuse, which is spent, without a call of the inner store; else if the
    /// inner call failed.
    ///
    /// # Not specified
    /// Whether a call without a fuse fails as the inner one does, once the inner store's count of
    /// failures is 2^64 - 1.
    fn finish(&mut self, name: &Name) -> Result<(), StoreFault>
        ensures failures { Counts self.old.failures self.new.failures (is_err result) }
        ensures calls { Counts self.old.calls self.new.calls true }
        ensures asked { AsksPassed (Finish name.now ∷ []) self.old.blown
            (S.asked self.old.inner) self.new.blown (S.asked self.new.inner) }
        ensures honest { S.honest self.new.inner ≡ S.honest self.old.inner }
        ensures unchanged { IsTrue (S.honest self.old.inner) → (other : List ℕ) →
            S.contents self.new.inner other ≡ S.contents self.old.inner other }
        ensures blows { Blows (has_fuse self.old.fuses self.old.calls) (is_err result)
            (S.failures self.old.inner) (S.failures self.new.inner) }
        ensures untouched { IsTrue (has_fuse self.old.fuses self.old.calls) →
            self.new.inner ≡ self.old.inner }
        ensures inner { WasAsked S.TakeStore
            (unless_fused (has_fuse self.old.fuses self.old.calls)
            (Finish name.now ∷ []))
            self.old.inner self.new.inner }
        ensures blown { self.new.blown ≡ (self.old.blown
            || has_fuse self.old.fuses self.old.calls) }
        ensures spent { self.new.fuses
            ≡ filter (λ f. not (f == self.old.calls)) self.old.fuses }
        ensures written { self.new.written ≡ self.old.written }
    {
        let answer = if blow(&mut self.fuses, self.call_counter.calls()) {
            self.blown = true;
            Err(StoreFault)
        } else {
            self.inner.finish(name)
        };
        self.call_counter.count(answer.is_err());
        answer
    }
}

/// Whether the call of this number is to fail. Its fuse is spent then.
pub fn blow(fuses: &mut Vec<u64>, call: u64) -> bool
    ensures reported { result ≡ has_fuse fuses.old.items call }
    ensures spent { fuses.new.items ≡ filter (λ f. not (f == call)) fuses.old.items }
{
    let has = fuses.contains(&call);
    fuses.retain(|fuse| *fuse != call);
    has
}

/// Writes the first half of the bytes, whether or not the store takes it.
fn write_half<S: TakeStore>(store: &mut S, name: &Name, offset: u64, bytes: &[u8])
    ensures asked { WasAsked S.TakeStore
        (WriteAt name.now offset (length (first_half bytes.now)) ∷ []) store.old store.new }
    ensures honest { S.honest store.new ≡ S.honest store.old }
    ensures torn { IsTrue (S.honest store.old) → MayTear
        (S.contents store.old name.now) offset (length bytes.now) (S.contents store.new name.now) }
    ensures half { WritesHalf S.TakeStore name.now offset bytes.now store.old store.new }
    ensures others { IsTrue (S.honest store.old) →
        KeepsOthers (S.contents store.old) (S.contents store.new) name.now }
{
    let _ = store.write_at(name, offset, &bytes[..bytes.len() / 2]);
}
