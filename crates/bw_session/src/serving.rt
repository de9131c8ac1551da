//! A message of a name that has a session: it is admitted, the numbers held in a row are done, and
//! its sender gets the replies.
ghost use Rattle.std.specs.Prelude.{◌≡◌, ◌≤◌, [], IsTrue, IfOk, OnOk, OnErr};
ghost use Rattle.std.specs.Prelude.{is_some, length, map, true, false};
ghost use Rattle.std.specs.List.{All};
ghost use Rattle.sha2.specs.Sha256.{sha256};
ghost use Rattle.bw_model.specs.Wire.{message_body};
ghost use Rattle.bw_model.specs.Turn.{is_turned_away};
ghost use Rattle.bw_wire.specs.Frames.{message_of};
ghost use Rattle.bw_wire.specs.Replies.{HasWireNumbers, reply_of};
ghost use Rattle.bw_session.specs.AdmittedMessages.{with_message};
ghost use Rattle.bw_session.specs.ConsecutiveCalls.{holding, AsksInTurn};

use crate::borrowing::Tried;
use crate::numbering::Stores;
use crate::session::Session;
use arrayvec::ArrayVec;
use bw_journal::Journal;
use bw_store::TakeStore;
use bw_wire::{Message, Notice, Reply};
use std::alloc::AllocError;

impl Session {
    ghost use Rattle.bw_session.specs.Sessions.{KeepsTake, part_of};
    ghost use Rattle.bw_session.specs.Promises.{UsesStores, LeavesSession, RefusesMessage};
    ghost use Rattle.bw_session.specs.Promises.{RunsNumbers, ForSessionLogs, KeepsSessionNotes};
    ghost use Rattle.bw_session.specs.Promises.{failures_in};
    ghost use Rattle.bw_session.specs.WriteOrders.{OrdersSession};
    ghost use Rattle.bw_session.specs.Runs.{EndsDraining, with_more_done};
    ghost use Rattle.bw_session.specs.ServedReplies.{IsServing, IsTimely};
    ghost use Rattle.bw_session.specs.ServedMessages.{Answers, ServesMessage, log_after, log_reported};

    /// Takes a message of the name, and puts the replies to its sender into `out`, which is empty.
    pub(crate) fn answer<S: TakeStore, J: Journal>(
        &mut self,
        stores: &mut Stores<S, J>,
        message: &Message<'_>,
        out: &mut ArrayVec<Reply, 17>,
    )
        requires name { (message_of message.now).name ≡ self.old.progress.name }
        requires empty { out.old.items ≡ [] }
        ensures both { UsesStores S.TakeStore J.Journal self.old stores.old self.new stores.new
            out.new.items }
        ensures asked { AsksInTurn S.TakeStore (message_of message.now) (part_of self.old)
            stores.old.store (part_of self.new) stores.new.store }
        ensures take { KeepsTake self.old self.new }
        ensures few { length out.new.items ≤ 17 }
        ensures numbers { All HasWireNumbers out.new.items }
        ensures uncalled { IsTrue (is_turned_away (map reply_of out.new.items)) →
            LeavesSession S.TakeStore J.Journal self.old stores.old self.new stores.new }
        ensures answers { ForSessionLogs S.TakeStore J.Journal self.old stores.old
            (λ first log. Answers true false first log (message_of message.now)
            (failures_in S.TakeStore J.Journal stores.old)
            (failures_in S.TakeStore J.Journal stores.new) out.new.items (part_of self.new)
            (S.contents stores.new.store self.old.progress.name)) }
        ensures noted { KeepsSessionNotes S.TakeStore J.Journal
            self.old stores.old self.new stores.new (λ log. log_reported log (message_of message.now)
            (map reply_of out.new.items) (length self.new.progress.ledger.outcomes)) }
        ensures ordered { OrdersSession S.TakeStore J.Journal self.old stores.old
            self.new stores.new }
    {
        if let Err(_refused) = self.serve(stores, message, out) {
            out.push(self.notice(message, Notice::NoRoom));
        }
    }

    /// Takes a message of the name, and puts the replies to its sender into `out`, which is empty.
    ///
    /// # Errors
    /// `AllocError` if a growth was refused: nothing was asked of the store, and there is no reply.
    pub(crate) fn serve<S: TakeStore, J: Journal>(
        &mut self,
        stores: &mut Stores<S, J>,
        message: &Message<'_>,
        out: &mut ArrayVec<Reply, 17>,
    ) -> Result<(), AllocError>
        requires name { (message_of message.now).name ≡ self.old.progress.name }
        requires empty { out.old.items ≡ [] }
        ensures both { UsesStores S.TakeStore J.Journal self.old stores.old self.new stores.new
            out.new.items }
        ensures asked { AsksInTurn S.TakeStore (message_of message.now) (part_of self.old)
            stores.old.store (part_of self.new) stores.new.store }
        ensures take { KeepsTake self.old self.new }
        ensures few { length out.new.items ≤ 17 }
        ensures reported { All IsServing out.new.items }
        ensures refused { OnErr result (RefusesMessage S.TakeStore J.Journal
            (message_of message.now) self.old stores.old self.new stores.new) }
        ensures unreported { OnErr result (out.new.items ≡ []) }
        ensures served { OnOk result (ForSessionLogs S.TakeStore J.Journal
            self.old stores.old (λ first log. ServesMessage first log (message_of message.now)
            (failures_in S.TakeStore J.Journal stores.old)
            (failures_in S.TakeStore J.Journal stores.new) out.new.items (part_of self.new)
            (S.contents stores.new.store self.old.progress.name))) }
        ensures noted { OnOk result (KeepsSessionNotes S.TakeStore J.Journal
            self.old stores.old self.new stores.new
            (λ log. log_after log (message_of message.now)
            (length self.new.progress.ledger.outcomes))) }
        ensures ordered { OnOk result (OrdersSession S.TakeStore J.Journal
            self.old stores.old self.new stores.new) }
    {
        let done = self.progress.ledger.len();
        if done + self.window.len() <= message.number() as usize {
            self.drain(stores, out);
            out.push(self.notice(message, Notice::TooFar));
            return Ok(());
        }
        let digest = message.digest();
        let stopped = self.admit_and_drain(stores, message, digest, out)?;
        if let Some(reply) = self.reply_to(message, &digest, done, stopped) {
            out.push(reply);
        }
        Ok(())
    }

    /// Admits a message and does the numbers whose messages are there in a row; returns whether a
    /// fault stopped that.
    ///
    /// # Errors
    /// `AllocError` if a growth was refused: nothing was asked of the store.
    fn admit_and_drain<S: TakeStore, J: Journal>(
        &mut self,
        stores: &mut Stores<S, J>,
        message: &Message<'_>,
        digest: [u8; 32],
        out: &mut ArrayVec<Reply, 17>,
    ) -> Result<bool, AllocError>
        requires name { (message_of message.now).name ≡ self.old.progress.name }
        requires digest { digest ≡ sha256 (message_body (message_of message.now)) }
        requires empty { out.old.items ≡ [] }
        ensures run { IfOk result (λ stopped. RunsNumbers S.TakeStore J.Journal 16 stopped
            (holding (part_of self.old) (message_of message.now))
            self.old stores.old self.new stores.new) }
        ensures take { KeepsTake self.old self.new }
        ensures few { length out.new.items ≤ 16 }
        ensures reported { All IsServing out.new.items }
        ensures timely { All (IsTimely false) out.new.items }
        ensures refused { OnErr result (RefusesMessage S.TakeStore J.Journal
            (message_of message.now) self.old stores.old self.new stores.new) }
        ensures unreported { OnErr result (out.new.items ≡ []) }
        ensures drained { IfOk result (λ stopped. ForSessionLogs S.TakeStore J.Journal
            self.old stores.old (λ first log. EndsDraining first
            (with_message log (message_of message.now)) stopped out.new.items (part_of self.new)
            (S.contents stores.new.store self.old.progress.name))) }
        ensures noted { OnOk result (KeepsSessionNotes S.TakeStore J.Journal
            self.old stores.old self.new stores.new
            (λ log. with_more_done (with_message log (message_of message.now))
            (length out.new.items))) }
        ensures ordered { OnOk result (OrdersSession S.TakeStore J.Journal
            self.old stores.old self.new stores.new) }
    {
        let is_held = self.window.get(0).is_some();
        if is_held || message.number() as usize != self.progress.ledger.len() {
            self.admit(stores.alloc, message, digest)?;
            return Ok(self.drain(stores, out));
        }
        match self.do_next(stores, message, digest)? {
            Tried::Done(verdict) => {
                out.push(Reply::Verdict {
                    name: message.name(),
                    number: message.number(),
                    verdict,
                });
                Ok(self.drain(stores, out))
            }
            Tried::Held => Ok(true),
        }
    }
}
