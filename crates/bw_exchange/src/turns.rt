//! Something that answers messages and asks.
ghost use Rattle.std.specs.Prelude.{◌≡◌, [], ◌∷◌, List, Result, map};
ghost use Rattle.std.specs.List.{All};
ghost use Rattle.bw_model.specs.Wire.{Frame, Says, Asks};
ghost use Rattle.bw_model.specs.Replies.{Reply as ModelReply};
ghost use Rattle.bw_wire.specs.Frames.{message_of, asked_name, asked_number};
ghost use Rattle.bw_wire.specs.Replies.{reply_of, HasWireNumbers};

use arrayvec::ArrayVec;
use bw_model::Name;
use bw_wire::{Ask, Message, Reply};
use std::net::SocketAddr;

/// Why some of what was answered since the last commit isn't kept: its replies may not leave.
#[derive(Clone, Copy, Debug, PartialEq, Eq)]
pub enum NotKept {
    /// A write failed. The server may go on.
    WriteFault,
    /// A sync failed. What the system keeps isn't known, so the server may not go on.
    SyncFault,
}

/// A server that answers messages and asks, one after another, and commits what it answered.
pub trait Turns {
    ghost use Rattle.bw_exchange.specs.declared.turns.NotKept.{NotKept};

    /// In the first state it may answer this frame with these replies, and be in the second state
    /// then.
    ghost answers: { Self → Frame → List ModelReply → Self → Type 0 };

    /// Nothing that it has answered may be uncommitted.
    ghost committed: { Self → Type 0 };

    /// In the first state a commit may return this, and leave the second state; after `Ok` all that
    /// was answered is kept.
    ghost commits: { Self → Result (Unit {0}) NotKept → Self → Type 0 };

    /// Takes a message, and puts the replies to its sender into `replies`, which is emptied first.
    ///
    /// # Not specified
    /// What the server is afterwards, and that at least one reply comes: each implementation says
    /// it.
    fn turn(&mut self, message: &Message<'_>, replies: &mut ArrayVec<Reply, 17>)
        ensures answered { answers self.old (Says (message_of message.now))
            (map reply_of replies.new.items) self.new }
        ensures numbers { All HasWireNumbers replies.new.items };

    /// Answers an ask.
    ///
    /// # Not specified
    /// What the server is afterwards: each implementation says it.
    fn ask(&mut self, ask: &Ask<'_>) -> Reply
        ensures answered { answers self.old (Asks (asked_name ask.now) (asked_number ask.now))
            (reply_of result ∷ []) self.new }
        ensures numbers { HasWireNumbers result };

    /// Commits what was answered since the last commit. No reply to it may leave before that.
    ///
    /// # Errors
    /// `NotKept` if some of it isn't kept: then none of its replies may leave at all.
    ///
    /// # Not specified
    /// What a commit keeps, and where: each implementation says it.
    fn commit(&mut self) -> Result<(), NotKept>
        ensures commits { commits self.old result self.new }
        // After an error too: what isn't kept is forgotten.
        ensures committed { committed self.new }
        // After no turn it changes nothing.
        ensures idle { committed self.old → self.new ≡ self.old }
        // What it does is part of the turn before it.
        ensures answered { (first : Self) (frame : Frame) (replies : List ModelReply) →
            answers first frame replies self.old → answers first frame replies self.new };

    /// Notes that a peer's message under this name was turned away before it came to the server, since
    /// it may not come from there. Nothing of the server changes.
    ///
    /// # Not specified
    /// What is said of it: here nothing.
    fn note_refused(&mut self, _peer: SocketAddr, _name: &Name)
        ensures { self.new ≡ self.old }
    {}
}
