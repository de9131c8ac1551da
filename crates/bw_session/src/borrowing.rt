//! Doing the next number from a message whose body is borrowed.
ghost use Rattle.std.specs.Prelude.{◌≡◌, None, Result, IfOk, OnOk, OnErr, length};
ghost use Rattle.sha2.specs.Sha256.{sha256};
ghost use Rattle.bw_model.specs.Bytes.{at};
ghost use Rattle.bw_model.specs.Wire.{message_body};
ghost use Rattle.bw_wire.specs.Frames.{message_of};
ghost use Rattle.bw_session.specs.Drains.{DrainsPart, drained_by, drained_log};
ghost use Rattle.bw_session.specs.AdmittedMessages.{with_message};
ghost use Rattle.bw_session.specs.ConsecutiveCalls.{AsksNext, holding};

use crate::body::HeldBody;
use crate::numbering::Stores;
use crate::session::Session;
use bw_journal::Journal;
use bw_model::Verdict;
use bw_store::TakeStore;
use bw_wire::Message;
use std::alloc::AllocError;

/// How a number went that was tried as its message came.
#[derive(Clone, Copy, Drop)]
pub(crate) enum Tried {
    /// It is done, with this verdict.
    Done(Verdict),
    /// A call of the store or of the journal failed: the message is held.
    Held,
}

impl Session {
    ghost use Rattle.bw_session.specs.Sessions.{KeepsTake, part_of};
    ghost use Rattle.bw_session.specs.Promises.{TriesNumber, RefusesMessage};
    ghost use Rattle.bw_session.specs.Promises.{ForSessionLogs, KeepsSessionNotes};
    ghost use Rattle.bw_session.specs.WriteOrders.{OrdersSession};

    /// Does the number of a message that is the next and isn't held. Its body is copied, into a
    /// buffer allocated before, only if a call failed.
    ///
    /// # Errors
    /// `AllocError` if a growth was refused.
    pub(crate) fn do_next<S: TakeStore, J: Journal>(
        &mut self,
        stores: &mut Stores<S, J>,
        message: &Message<'_>,
        digest: [u8; 32],
    ) -> Result<Tried, AllocError>
        requires name { (message_of message.now).name ≡ self.old.progress.name }
        requires digest { digest ≡ sha256 (message_body (message_of message.now)) }
        requires next { (message_of message.now).number
            ≡ length self.old.progress.ledger.outcomes }
        requires free { at self.old.window 0 ≡ None }
        requires slots { length self.old.window ≡ 16 }
        ensures tried { IfOk result (λ tried. TriesNumber S.TakeStore J.Journal (drained_by tried)
            self.old stores.old self.new stores.new) }
        ensures asked { IfOk result (λ tried. AsksNext S.TakeStore (drained_by tried)
            (holding (part_of self.old) (message_of message.now)) stores.old.store
            (part_of self.new) stores.new.store) }
        ensures take { KeepsTake self.old self.new }
        ensures refused { OnErr result (RefusesMessage S.TakeStore J.Journal
            (message_of message.now) self.old stores.old self.new stores.new) }
        ensures drained { IfOk result (λ tried. ForSessionLogs S.TakeStore J.Journal
            self.old stores.old (λ first log. DrainsPart (drained_by tried) first
            (with_message log (message_of message.now)) (part_of self.new)
            (S.contents stores.new.store self.old.progress.name))) }
        ensures noted { IfOk result (λ tried. KeepsSessionNotes S.TakeStore J.Journal
            self.old stores.old self.new stores.new
            (λ log. drained_log (drained_by tried) (with_message log (message_of message.now)))) }
        ensures ordered { OnOk result (OrdersSession S.TakeStore J.Journal
            self.old stores.old self.new stores.new) }
    {
        let room = self.make_room(stores.alloc, message)?;
        let request = message.request();
        match self.progress.number_done(stores, &request, &digest) {
            Ok(verdict) => {
                self.window.advance();
                Ok(Tried::Done(verdict))
            }
            Err(_fault) => {
                self.window.put(0, HeldBody::copy_to(room, message, digest));
                Ok(Tried::Held)
            }
        }
    }
}
