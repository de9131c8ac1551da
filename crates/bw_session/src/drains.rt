//! Draining: the next number of a name is done if its message has come.
ghost use Rattle.std.specs.Prelude.{◌≡◌, ◌+◌, ◌≤◌, ℕ, List, Option, length, IsTrue, false, ◌-◌};
ghost use Rattle.std.specs.List.{All};
ghost use Rattle.bw_model.specs.Book.{Log};
ghost use Rattle.bw_session.specs.RequestWrites.{IsSameFile};
ghost use Rattle.bw_session.specs.NameNotes.{NotesOn};
ghost use Rattle.bw_session.specs.Drains.{DrainsPart, is_stopped, drained_log};
ghost use Rattle.bw_session.specs.Drains.{call_bound, drained_count, IsTried};
ghost use Rattle.bw_session.specs.ConsecutiveCalls.{AsksNext};
ghost use Rattle.bw_session.specs.Sessions.{kept_with, FitsWith};
ghost use Rattle.bw_session.specs.Promises.{KeepsStores, ForLogs, KeepsNotes};
ghost use Rattle.bw_session.specs.WriteOrders.{OrdersPart};

use crate::numbering::{Progress, Stores};
use crate::session::Session;
use crate::window::{SLOTS, Window};
use arrayvec::ArrayVec;
use bw_journal::Journal;
use bw_model::Verdict;
use bw_store::TakeStore;
use bw_wire::Reply;

/// What draining one number resulted in.
#[derive(Clone, Copy, Drop)]
pub(crate) enum Drained {
    /// The next message hasn't come yet.
    Idle,
    /// The next number is done, with this verdict.
    Done(Verdict),
    /// A call of the store or of the journal failed: the message still waits.
    Stopped,
}

/// Does the next number, if its message is held.
pub(crate) fn drain_one<S: TakeStore, J: Journal>(
    progress: &mut Progress,
    window: &mut Window,
    stores: &mut Stores<S, J>,
) -> Drained
    requires fits { FitsWith progress.old window.old }
    ensures fits { FitsWith progress.new window.new }
    ensures both { KeepsStores S.TakeStore J.Journal (is_stopped result) progress.old.name
        stores.old stores.new }
    ensures calls { S.calls stores.new.store ≤ S.calls stores.old.store + call_bound result }
    ensures done { length progress.new.ledger.outcomes
        ≡ length progress.old.ledger.outcomes + drained_count result }
    ensures number { IsTried result (length progress.old.ledger.outcomes) }
    ensures slots { length window.old ≡ 16 }
    ensures asked { AsksNext S.TakeStore result (kept_with progress.old window.old)
        stores.old.store (kept_with progress.new window.new) stores.new.store }
    ensures name { progress.new.name ≡ progress.old.name }
    ensures known { IsSameFile progress.old.growing progress.new.growing }
    ensures drained { ForLogs S.TakeStore J.Journal progress.old.name
        (kept_with progress.old window.old) stores.old (λ first log. DrainsPart result first log
        (kept_with progress.new window.new) (S.contents stores.new.store progress.old.name)) }
    ensures noted { KeepsNotes S.TakeStore J.Journal progress.old.name
        (kept_with progress.old window.old) progress.old.noted stores.old progress.new.noted
        stores.new (drained_log result) }
    ensures ordered { OrdersPart S.TakeStore J.Journal progress.old.name
        (kept_with progress.old window.old) progress.old.noted stores.old
        (kept_with progress.new window.new) progress.new.noted stores.new }
{
    let Some(body) = window.get(0) else {
        return Drained::Idle;
    };
    let message = body.message();
    let request = message.request();
    match progress.number_done(stores, &request, body.digest()) {
        Ok(verdict) => {
            window.advance();
            Drained::Done(verdict)
        }
        Err(_fault) => Drained::Stopped,
    }
}

impl Session {
    ghost use Rattle.bw_session.specs.ServedReplies.{IsServing, IsTimely};
    ghost use Rattle.bw_session.specs.Sessions.{KeepsTake, part_of};
    ghost use Rattle.bw_session.specs.Promises.{RunsNumbers};
    ghost use Rattle.bw_session.specs.WriteOrders.{OrdersDrained};
    ghost use Rattle.bw_session.specs.Runs.{with_more_done, HasDrained, EndsDraining};

    /// Does the numbers whose messages are held in a row, at most sixteen with those that `out`
    /// already reports, and appends their verdicts; returns whether a fault stopped it.
    pub(crate) fn drain<S: TakeStore, J: Journal>(
        &mut self,
        stores: &mut Stores<S, J>,
        out: &mut ArrayVec<Reply, 17>,
    ) -> bool
        requires few { length out.old.items ≤ 16 }
        ensures run { RunsNumbers S.TakeStore J.Journal (16 - length out.old.items) result
            (part_of self.old) self.old stores.old self.new stores.new }
        ensures take { KeepsTake self.old self.new }
        ensures few { length out.new.items ≤ 16 }
        ensures served { All IsServing out.old.items → All IsServing out.new.items }
        ensures timely { All (IsTimely false) out.old.items → All (IsTimely false) out.new.items }
        ensures drained { IsTrue (S.honest stores.old.store) →
            (first : Option (List ℕ)) (log : Log) →
            HasDrained first log out.old.items (part_of self.old)
            (S.contents stores.old.store self.old.progress.name) →
            EndsDraining first log result out.new.items (part_of self.new)
            (S.contents stores.new.store self.old.progress.name) }
        ensures noted { IsTrue (S.honest stores.old.store) →
            IsTrue (J.honest stores.old.journal) → (first : Option (List ℕ)) (log : Log) →
            HasDrained first log out.old.items (part_of self.old)
            (S.contents stores.old.store self.old.progress.name) →
            NotesOn J.Journal self.old.progress.name first stores.old.journal
            (with_more_done log (length out.old.items)) self.old.progress.noted stores.new.journal
            (with_more_done log (length out.new.items)) self.new.progress.noted }
        ensures ordered { OrdersDrained S.TakeStore J.Journal out.old.items self.old stores.old
            self.new stores.new }
    {
        for _slot in out.len()..SLOTS {
            let number = self.progress.ledger.len();
            match drain_one(&mut self.progress, &mut self.window, stores) {
                Drained::Idle => return false,
                Drained::Stopped => return true,
                Drained::Done(verdict) => out.push(Reply::Verdict {
                    name: self.progress.name.copy(),
                    number: number as u32,
                    verdict,
                }),
            }
        }
        false
    }
}
