//! Judging a request, and carrying it out in the file.
ghost use Rattle.std.specs.Prelude.{◌≡◌, ◌+◌, ◌≤◌, IsTrue, IfOk, OnOk, OnErr};
ghost use Rattle.std.specs.Prelude.{is_err, false, true};
ghost use Rattle.bw_model.specs.Take.{judge as verdict_on};
ghost use Rattle.bw_model.specs.Limits.{largest};
ghost use Rattle.bw_model.specs.Wire.{is_request};
ghost use Rattle.bw_model.specs.Requests.{meaning, samples_in};
ghost use Rattle.bw_model.specs.VerdictMeanings.{verdict_meaning};
ghost use Rattle.bw_store.specs.Stores.{Counts, KeepsOthers};
ghost use Rattle.bw_store.specs.StoreSteps.{WasAsked, WasAskedFirst};
ghost use Rattle.bw_session.specs.Executions.{Touches, KeepsParts, Carries, AsksJudged};
ghost use Rattle.bw_store.specs.StoreSteps.{Shared};
ghost use Rattle.bw_session.specs.RequestWrites.{IsSameFile};
ghost use Rattle.bw_session.specs.Prefixes.{CarriesNext};

use crate::writing::write_request;
use bw_file::GrowingFile;
use bw_model::{RequestRef, Verdict};
use bw_store::{Created, StoreFault, TakeStore};
use bw_take::{TakeState, judge};

/// Judges a request, and writes it to the file if it is to be stored; the state doesn't keep it
/// yet. If the file is ahead it has this request already, and the store is asked for nothing.
///
/// If the take's name already existed in the store, which only a request to open it finds out, the
/// state records that, and the request is judged by it.
///
/// # Errors
/// `StoreFault` if a call of the store failed: nothing but the file changed.
pub(crate) fn carry_out<S: TakeStore>(
    store: &mut S,
    growing: &mut GrowingFile,
    state: &mut TakeState,
    request: &RequestRef<'_>,
) -> Result<Verdict, StoreFault>
    requires fits { IsTrue (is_request (meaning request.now)) }
    requires samples { state.old.parts.samples_len + samples_in (meaning request.now) ≤ largest }
    requires dirty { IsTrue growing.old.dirty → Touches state.old.parts (meaning request.now) }
    ensures shared { Shared S.TakeStore (is_err result) growing.old.name store.old store.new }
    ensures calls { S.calls store.new ≤ S.calls store.old + 4 }
    ensures asked { AsksJudged S.TakeStore result growing.old state.old.parts (meaning request.now)
        growing.new.made true store.old store.new }
    ensures known { IsSameFile growing.old growing.new }
    ensures room { state.new.room ≡ state.old.room }
    ensures parts { KeepsParts state.old.parts state.new.parts }
    ensures verdict { IfOk result
        (λ v. verdict_meaning v ≡ verdict_on state.new.parts (meaning request.now)) }
    ensures clean { OnOk result (growing.new.dirty ≡ false) }
    ensures level { growing.new.ahead ≡ false }
    ensures unchanged { OnErr result (state.new ≡ state.old) }
    ensures touched { OnErr result (Touches state.old.parts (meaning request.now)) }
    ensures dirty { OnErr result ((growing.old.ahead ≡ false) × (growing.new.dirty ≡ true)) }
    ensures file { IsTrue (S.honest store.old) →
        Carries result (meaning request.now) state.old.parts state.new.parts growing.old growing.new
        (S.contents store.old growing.old.name) (S.contents store.new growing.old.name) }
    ensures prefix { IsTrue (S.honest store.old) →
        CarriesNext result (meaning request.now) state.old.parts state.new.parts growing.old
        growing.new (S.contents store.old growing.old.name)
        (S.contents store.new growing.old.name) }
{
    if growing.is_ahead() {
        growing.mark_clean();
        return Ok(Verdict::Stored);
    }
    let verdict = judge(state, request);
    if !verdict.is_stored() {
        return Ok(verdict);
    }
    match write_request(store, growing, state, request)? {
        Created::New => Ok(verdict),
        Created::Exists => {
            state.set_taken();
            Ok(judge(state, request))
        }
    }
}
