//! Asks of a rehearsal.
ghost use Rattle.std.specs.Prelude.{◌≡◌, ℕ, List, IfOk, IfSome};
ghost use Rattle.bw_model.specs.Wire.{Asks};
ghost use Rattle.bw_model.specs.World.{World};
ghost use Rattle.bw_wire.specs.EncodedFrames.{IsFrameOf};
ghost use Rattle.bw_wire.specs.Frames.{asked_name, asked_number};
ghost use Rattle.bw_wire.specs.Replies.{reply_of};
ghost use Rattle.bw_delivery.specs.Asks.{next_asked};
ghost use Rattle.bw_delivery.specs.Machines.{IsRunning, TurnsMachine, written_to};

use crate::machine::{Life, Machine, ask};
use bw_model::Name;
use bw_wire::{Ask, Frame, Notice, Reply, decode, encode_ask};
use std::alloc::{AllocError, Global};

/// Asks a server for a name: its reply, if no disk died in the turn, and the machine.
///
/// # Errors
/// `AllocError` if memory was refused, or as those of `turn`.
pub(crate) fn asked(
    alloc: Global,
    life: Life,
    name: &Name,
) -> Result<(Option<Reply>, Machine), AllocError>
    ensures { (limit : ℕ) (w : World) → IsRunning limit w.book life →
        IfOk result (λ x. TurnsMachine limit w (Asks name.now 0) (written_to x.0) x.1) }
{
    let frame = encode_ask(alloc, name, 0)?;
    let Some(said) = ask_in(&frame) else {
        return Err(AllocError);
    };
    ask(life, &said)
}

/// The ask that a frame is.
fn ask_in(frame: &[u8]) -> Option<Ask<'_>>
    ensures { (name : List ℕ) → IsFrameOf (Asks name 0) frame.now → IfSome result (λ a.
        (asked_name a ≡ name) × (asked_number a ≡ 0)) }
{
    if frame.len() < 4 {
        return None;
    }
    match decode(&frame[4..]) {
        Ok(Frame::Ask(ask)) => Some(ask),
        Ok(Frame::Message(_message)) => None,
        Ok(Frame::Bye) => None,
        Err(_reason) => None,
    }
}

/// How many numbers are done, by the reply to an ask, unless that was put off.
pub(crate) fn done_in(reply: &Reply) -> Option<u32>
    ensures { result ≡ next_asked (reply_of reply.now) }
{
    match reply {
        Reply::Notice {
            name: _,
            number: _,
            code: Notice::Next,
            next,
        } => Some(*next),
        _ => None,
    }
}
