//! One frame of an exchange.
ghost use Rattle.std.specs.Prelude.{◌≡◌, ◌+◌, ◌≤◌, vec_len, vec_capacity};
ghost use Rattle.bw_exchange.specs.Bounds.{longest_answer};
ghost use Rattle.bw_exchange.specs.Steps.{TakesNext};

use crate::outgoing::{put_bad_frame, put_replies, put_reply};
use crate::turns::Turns;
use arrayvec::ArrayVec;
use bw_wire::{Frame, Framer, Reply, WireFault};

/// How the stream of an exchange ended.
#[derive(Clone, Copy, Debug, PartialEq, Eq)]
pub enum StreamEnd {
    /// The recorder sent `Bye`.
    Bye,
    /// The input ended after a frame.
    EndOfInput,
    /// A frame was bad, or was cut off by the input's end.
    BadFrame(WireFault),
}

/// What happened to the next frame.
#[derive(Clone, Copy, Debug)]
pub(crate) enum Step {
    /// No frame is whole yet.
    WantsRead,
    /// It was answered, and its replies wait.
    Answered,
    /// There is none: the stream has ended.
    Ended(StreamEnd),
}

/// Takes the next frame, has it answered, and appends the frames of its replies.
pub(crate) fn take_next<T: Turns>(
    server: &mut T,
    framer: &mut Framer,
    outgoing: &mut Vec<u8>,
) -> Step
    requires room { vec_len outgoing.old + longest_answer ≤ vec_capacity outgoing.old }
    ensures takes { TakesNext T.answers result server.old server.new framer.old framer.new
        outgoing.old.items outgoing.new.items }
    ensures len { vec_len outgoing.new ≤ vec_len outgoing.old + longest_answer }
    ensures capacity { vec_capacity outgoing.old ≤ vec_capacity outgoing.new }
{
    framer.hash_ahead();
    match framer.next_frame() {
        Ok(None) => Step::WantsRead,
        Ok(Some(Frame::Bye)) => Step::Ended(StreamEnd::Bye),
        Ok(Some(Frame::Message(message))) => {
            let mut replies = ArrayVec::<Reply, 17>::new();
            server.turn(&message, &mut replies);
            put_replies(outgoing, replies.as_slice());
            Step::Answered
        }
        Ok(Some(Frame::Ask(ask))) => {
            let reply = server.ask(&ask);
            put_reply(outgoing, &reply);
            Step::Answered
        }
        Err(fault) => {
            put_bad_frame(outgoing, fault);
            Step::Ended(StreamEnd::BadFrame(fault))
        }
    }
}
