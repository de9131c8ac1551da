//! Admitting: a message that is new in the window is held until its number is done.
ghost use Rattle.std.specs.Prelude.{◌≡◌, ◌+◌, ◌<◌, ◌≤◌, ℕ, List, [], Option, IsTrue, IfOk, OnOk};
ghost use Rattle.std.specs.Prelude.{OnErr, false, length, vec_capacity};
ghost use Rattle.sha2.specs.Sha256.{sha256};
ghost use Rattle.bw_model.specs.Wire.{message_body};
ghost use Rattle.bw_model.specs.Book.{Log};
ghost use Rattle.bw_model.specs.Limits.{window};
ghost use Rattle.bw_model.specs.Turn.{is_admissible};
ghost use Rattle.bw_wire.specs.Frames.{message_of};
ghost use Rattle.bw_journal.specs.JournalHeaders.{Header};
ghost use Rattle.bw_session.specs.Windows.{count_held};
ghost use Rattle.bw_session.specs.NameNotes.{IsNoted};
ghost use Rattle.bw_session.specs.AdmittedMessages.{with_message};
ghost use Rattle.bw_session.specs.ConsecutiveCalls.{window_with};

use crate::body::HeldBody;
use crate::session::Session;
use crate::window::SLOTS;
use bw_wire::Message;
use std::alloc::{AllocError, Global};

impl Session {
    ghost use Rattle.bw_session.specs.Sessions.{HoldsLog, KeepsProgress, part_of};

    /// Makes each growth that one more message can need, and returns a buffer for its body.
    ///
    /// # Errors
    /// `AllocError` if a growth was refused.
    pub(crate) fn make_room(
        &mut self,
        alloc: Global,
        message: &Message<'_>,
    ) -> Result<Vec<u8>, AllocError>
        requires { count_held self.old.window < window }
        ensures progress { KeepsProgress self.old.progress self.new.progress }
        ensures window { self.new.window ≡ self.old.window }
        ensures storable { OnOk result
            (count_held self.old.window + 1 ≤ self.new.progress.state.room) }
        ensures keepable { OnOk result
            (count_held self.old.window + 1 ≤ self.new.progress.ledger.room) }
        ensures empty { IfOk result (λ room. room.items ≡ []) }
        ensures body { IfOk result (λ room.
            length (message_body (message_of message.now)) ≤ vec_capacity room) }
        ensures exact { IfOk result (λ room.
            vec_capacity room ≡ length (message_body (message_of message.now))) }
    {
        let count = self.window.count() + 1;
        self.progress.state.reserve_for(count)?;
        self.progress.ledger.reserve(count)?;
        let room = Vec::with_capacity(alloc, message.body().len())?;
        Ok(room)
    }

    /// Holds a message of the name, if it is new in the window. Each growth is made before anything
    /// changes.
    ///
    /// # Errors
    /// `AllocError` if a growth was refused: the message isn't held.
    pub(crate) fn admit(
        &mut self,
        alloc: Global,
        message: &Message<'_>,
        digest: [u8; 32],
    ) -> Result<(), AllocError>
        requires name { (message_of message.now).name ≡ self.old.progress.name }
        requires digest { digest ≡ sha256 (message_body (message_of message.now)) }
        ensures progress { KeepsProgress self.old.progress self.new.progress }
        ensures err { OnErr result (self.new.window ≡ self.old.window) }
        ensures held { OnOk result (self.new.window ≡ window_with self.old.window
            (length self.old.progress.ledger.outcomes) (message_of message.now)) }
        ensures ok { OnOk result ((first : Option (List ℕ)) (log : Log)
            (found : Option (List ℕ)) → HoldsLog first log (part_of self.old) found →
            HoldsLog first (with_message log (message_of message.now)) (part_of self.new) found) }
        ensures refused { OnErr result ((first : Option (List ℕ)) (log : Log)
            (found : Option (List ℕ)) → HoldsLog first log (part_of self.old) found →
            IsTrue (is_admissible log (message_of message.now).number)) }
        ensures noted { OnOk result ((first : Option (List ℕ)) (log : Log)
            (found : Option (List ℕ)) (h : Header) (notes : Option (List ℕ)) →
            HoldsLog first log (part_of self.old) found →
            IsNoted h self.old.progress.name log self.old.progress.noted notes →
            IsNoted h self.old.progress.name (with_message log (message_of message.now))
            self.new.progress.noted notes) }
        ensures unasked { (first : Option (List ℕ)) (log : Log) (found : Option (List ℕ)) →
            HoldsLog first log (part_of self.old) found →
            is_admissible log (message_of message.now).number ≡ false →
            self.new ≡ self.old }
    {
        let done = self.progress.ledger.len();
        let number = message.number() as usize;
        if number < done || done + SLOTS <= number {
            return Ok(());
        }
        let slot = number - done;
        if self.window.get(slot).is_some() {
            return Ok(());
        }
        let room = self.make_room(alloc, message)?;
        self.window
            .put(slot, HeldBody::copy_to(room, message, digest));
        Ok(())
    }
}
