//! What is kept of a number once its file is written.
ghost use Rattle.std.specs.Prelude.{◌≡◌, ◌+◌, ◌≤◌, ◌++◌, [], ◌∷◌, suc, ℕ, List, Some, Bool};
ghost use Rattle.std.specs.Prelude.{IsTrue};
ghost use Rattle.sha2.specs.Sha256.{sha256};
ghost use Rattle.bw_model.specs.Bytes.{at};
ghost use Rattle.bw_model.specs.Take.{judge as verdict_on, verdict as verdict_in};
ghost use Rattle.bw_model.specs.Limits.{largest};
ghost use Rattle.bw_model.specs.Wire.{is_request};
ghost use Rattle.bw_model.specs.Book.{Log, made};
ghost use Rattle.bw_model.specs.Holds.{body_of};
ghost use Rattle.bw_model.specs.Requests.{meaning};
ghost use Rattle.bw_model.specs.Requests.{samples_in};
ghost use Rattle.bw_model.specs.VerdictMeanings.{verdict_meaning};
ghost use Rattle.bw_session.specs.DoneNumbers.{KeepsDone};
ghost use Rattle.bw_session.specs.JudgedParts.{parts_under};

use crate::ledger::Ledger;
use bw_model::{RequestRef, Verdict};
use bw_take::TakeState;

/// Keeps a number as done: its request in the state, its body's digest and its verdict
/// in the ledger.
///
/// It allocates nothing and can't fail.
pub(crate) fn settle(
    state: &mut TakeState,
    ledger: &mut Ledger,
    request: &RequestRef<'_>,
    digest: &[u8; 32],
    verdict: Verdict,
)
    requires fits { IsTrue (is_request (meaning request.now)) }
    requires judged { verdict_meaning verdict ≡ verdict_on state.old.parts (meaning request.now) }
    requires room { 1 ≤ state.old.room }
    requires place { 1 ≤ ledger.old.room }
    requires samples { state.old.parts.samples_len + samples_in (meaning request.now) ≤ largest }
    ensures outcomes { ledger.new.outcomes ≡
        ledger.old.outcomes ++ (digest.now, verdict_meaning verdict) ∷ [] }
    ensures places { ledger.old.room ≤ ledger.new.room + 1 }
    ensures room { state.old.room ≤ state.new.room + 1 }
    ensures samples { state.new.parts.samples_len
        ≤ state.old.parts.samples_len + samples_in (meaning request.now) }
    ensures parts { state.new.parts ≡ parts_under (verdict_meaning verdict) state.old.parts
        (meaning request.now) }
    ensures keeps { (existed : Bool) (name : List ℕ) (log : Log) →
        KeepsDone existed name log state.old.parts ledger.old.outcomes →
        at log.admitted log.done ≡ Some (meaning request.now) →
        digest.now ≡ sha256 (body_of name log.done (meaning request.now)) →
        verdict_meaning verdict
        ≡ verdict_in (made existed log.admitted log.done) (meaning request.now) →
        KeepsDone existed name (record log { done = suc log.done })
        state.new.parts ledger.new.outcomes }
{
    if verdict.is_stored() {
        state.commit(request);
    }
    ledger.push(digest, verdict);
}
