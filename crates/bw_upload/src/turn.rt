//! Turns over a link: what is pending is sent, and a piece of the replies is read.
ghost use Rattle.std.specs.Prelude.{◌≡◌, ◌≢◌, true, false, None};
ghost use Rattle.bw_model.specs.World.{pending};
ghost use Rattle.bw_upload.specs.Conversations.{Conversing, MayHear};
ghost use Rattle.bw_upload.specs.Turns.{IsTalking, HearsTurn, HearsOut, TakesTurn};
ghost use Rattle.bw_upload.specs.Turns.{turn_end as end_of_turn, break_end as end_of_break};

use crate::observer::LinkEnd;
use bw_exchange::MOST_READS;
use bw_ports::Duplex;
use bw_sender::{Listened, SendFault, Sender, Talk};
use bw_stream::{Sink, Source};
use std::alloc::Global;

/// Sends what is pending and wasn't sent over the link, and reads a piece of the replies. If the
/// writer fails, reads what still comes: what reached the server before has its verdicts, or a
/// reply that stops the talk. Returns why the link isn't used any more, if it isn't: `Memory` if
/// memory was refused.
pub(crate) fn take_turn<R: Source, W: Sink>(
    alloc: Global,
    sender: &mut Sender,
    talk: &mut Talk,
    link: &mut Duplex<R, W>,
) -> Option<LinkEnd>
    ensures { (x : Conversing R W) → IsTalking x sender.old talk.old link.old →
        x.line.is_broken ≡ false → pending x.sender 0 ≢ None →
        TakesTurn R.Source W.Sink result x sender.new talk.new link.new }
{
    match talk.say(alloc, sender, &mut link.writer) {
        Ok(()) => hear(sender, talk, link),
        Err(SendFault::Write) => Some(hear_out(sender, talk, link)),
        Err(_memory) => Some(LinkEnd::Broken(SendFault::Memory)),
    }
}

/// Reads a piece of the replies. Returns why the link isn't used any more, if it isn't: `Memory` if
/// memory was refused.
fn hear<R: Source, W: Sink>(
    sender: &mut Sender,
    talk: &mut Talk,
    link: &mut Duplex<R, W>,
) -> Option<LinkEnd>
    ensures { (x : Conversing R W) → IsTalking x sender.old talk.old link.old →
        MayHear R.Source W.Sink x →
        HearsTurn R.Source W.Sink result x sender.new talk.new link.new }
{
    turn_end(talk.listen(sender, &mut link.reader))
}

fn turn_end(listened: Result<Listened, SendFault>) -> Option<LinkEnd>
    ensures { result ≡ end_of_turn listened }
{
    match listened {
        Ok(Listened::Heard(None)) => None,
        Ok(Listened::Heard(Some(stop))) => Some(LinkEnd::Stopped(stop)),
        Ok(Listened::Ended) => Some(LinkEnd::Ended),
        Err(fault) => Some(LinkEnd::Broken(fault)),
    }
}

/// Reads what still comes after the writer has failed, up to a reply that stops the talk. Returns
/// why the link isn't used any more.
fn hear_out<R: Source, W: Sink>(
    sender: &mut Sender,
    talk: &mut Talk,
    link: &mut Duplex<R, W>,
) -> LinkEnd
    ensures { (x : Conversing R W) → IsTalking x sender.old talk.old link.old →
        x.line.is_broken ≡ true →
        HearsOut R.Source W.Sink result x sender.new talk.new link.new }
{
    for _read in 0..MOST_READS {
        if let Some(end) = hear(sender, talk, link) {
            return break_end(end);
        }
    }
    LinkEnd::Broken(SendFault::Write)
}

/// Why a link isn't used any more whose writer has failed, and that was then read up to this end: a
/// reply that stops the talk, or bytes that are no reply, say more than the failure does.
fn break_end(end: LinkEnd) -> LinkEnd
    ensures { result ≡ end_of_break end }
{
    match end {
        LinkEnd::Stopped(stop) => LinkEnd::Stopped(stop),
        LinkEnd::Broken(SendFault::BadReply) => LinkEnd::Broken(SendFault::BadReply),
        _ => LinkEnd::Broken(SendFault::Write),
    }
}
