//! The reply to a message itself, next to the verdicts of the numbers that were drained.
ghost use Rattle.std.specs.Prelude.{◌≡◌, ◌+◌, ◌<◌, ℕ, List, Option, length, is_some, IfSome};
ghost use Rattle.std.specs.Prelude.{option_map, option_to_list, if◌then◌else◌};
ghost use Rattle.sha2.specs.Sha256.{sha256};
ghost use Rattle.bw_model.specs.Limits.{window};
ghost use Rattle.bw_model.specs.Wire.{message_body, Message as Said};
ghost use Rattle.bw_model.specs.Replies.{Noticed, DelayedStore, Held};
ghost use Rattle.bw_model.specs.Book.{Log, run_end};
ghost use Rattle.bw_model.specs.Turn.{is_repeat, own_reply};
ghost use Rattle.bw_wire.specs.Frames.{message_of};
ghost use Rattle.bw_wire.specs.Notices.{notice_meaning};
ghost use Rattle.bw_wire.specs.Replies.{reply_of, HasWireNumbers};

use crate::session::Session;
use bw_wire::{Message, Notice, Reply};

impl Session {
    ghost use Rattle.bw_session.specs.Sessions.{HoldsLog, part_of};
    ghost use Rattle.bw_session.specs.Runs.{EndsDraining};
    ghost use Rattle.bw_session.specs.ServedReplies.{IsServing, IsTimely};

    /// The reply to a message whose number is in the window or below it, once the numbers from
    /// `done` on were drained: none if its own was among them.
    pub(crate) fn reply_to(
        &self,
        message: &Message<'_>,
        digest: &[u8; 32],
        done: usize,
        stopped: bool,
    ) -> Option<Reply>
        requires name { (message_of message.now).name ≡ self.now.progress.name }
        requires digest { digest.now ≡ sha256 (message_body (message_of message.now)) }
        ensures value { (first : Option (List ℕ)) (log : Log) (drained : List Reply)
            (found : Option (List ℕ)) →
            EndsDraining first log stopped drained (part_of self.now) found →
            log.done ≡ done → (message_of message.now).number < done + window →
            option_to_list (option_map reply_of result)
            ≡ own_reply (is_some first) log.admitted done
            (length self.now.progress.ledger.outcomes) (run_end log.admitted done)
            (message_of message.now) }
        ensures served { IfSome result IsServing }
        ensures timely { IfSome result (IsTimely stopped) }
    {
        let number = message.number() as usize;
        if !self.has_admitted(number, digest) {
            return Some(self.notice(message, Notice::Conflict));
        }
        if self.progress.ledger.len() <= number {
            return Some(self.notice(message, waits(stopped)));
        }
        if number < done {
            return Some(Reply::Verdict {
                name: message.name(),
                number: message.number(),
                verdict: self.progress.ledger.verdict_at(number),
            });
        }
        None
    }

    /// A notice to the sender of a message.
    pub(crate) fn notice(&self, message: &Message<'_>, code: Notice) -> Reply
        ensures value { reply_of result
            ≡ Noticed (message_of message.now).name (message_of message.now).number
            (notice_meaning code) (length self.now.progress.ledger.outcomes) }
        ensures numbers { HasWireNumbers result }
    {
        Reply::Notice {
            name: message.name(),
            number: message.number(),
            code,
            next: self.progress.ledger.len() as u32,
        }
    }

    /// Whether the body that was admitted under a number has this digest.
    fn has_admitted(&self, number: usize, digest: &[u8; 32]) -> bool
        ensures { (first : Option (List ℕ)) (log : Log) (found : Option (List ℕ)) (m : Said) →
            HoldsLog first log (part_of self.now) found → m.name ≡ self.now.progress.name →
            m.number ≡ number → digest.now ≡ sha256 (message_body m) →
            result ≡ is_repeat log.admitted m }
    {
        let done = self.progress.ledger.len();
        if number < done {
            return self.progress.ledger.has_digest(number, digest);
        }
        match self.window.get(number - done) {
            Some(body) => body.digest() == digest,
            None => false,
        }
    }
}

/// Why an admitted number has no verdict yet.
fn waits(stopped: bool) -> Notice
    ensures { notice_meaning result ≡ (if stopped then DelayedStore else Held) }
{
    if stopped {
        Notice::DelayedStore
    } else {
        Notice::Held
    }
}
