//! The rounds of a recorder: an exchange over a new link each.
ghost use Rattle.std.specs.Prelude.{◌≡◌, ◌≢◌, Err, List, OnOk, OnErr};
ghost use Rattle.bw_model.specs.Replies.{Reply};
ghost use Rattle.bw_model.specs.World.{Sender as Defined};
ghost use Rattle.bw_sender.specs.Senders.{IsSender};
ghost use Rattle.bw_sender.specs.Hears.{hear_all};
ghost use Rattle.bw_sender.specs.declared.send_fault.SendFault.TheVariants.{Memory};
ghost use Rattle.bw_upload.specs.RoundsMade.{IsRound, MakesRounds};
ghost use Rattle.bw_upload.specs.SendState.{Sending, IsSending};

use crate::dispatch::Dispatch;
use crate::offering::offer_more_of;
use crate::watch::Progress;
use bw_model::Request;
use bw_ports::{Dial, Watch};
use bw_sender::{SendFault, Sender, send_exchange};
use std::alloc::{AllocError, Global};

/// Offers requests and makes exchanges, one a round and in at most `rounds` rounds, until all that
/// was offered is settled and no more can be offered. Each round is reported to the watcher.
///
/// # Errors
/// `AllocError` if memory was refused.
pub(crate) fn make_rounds<D: Dial, V: Watch>(
    alloc: Global,
    rounds: u32,
    dispatch: &mut Dispatch,
    requests: &[Request],
    dial: &mut D,
    watch: &mut V,
) -> Result<(), AllocError>
    ensures { (x : Sending) → IsSending x dispatch.old → x.requests ≡ requests.now →
        OnOk result ((y : Sending) × IsSending y dispatch.new
        × MakesRounds D.Dial D.Reader.Source D.Writer.Sink rounds x y
        dial.old dial.new) }
{
    for round in 0..rounds {
        offer_more_of(alloc, dispatch, requests)?;
        if dispatch.sender.pending(0).is_none() {
            return Ok(());
        }
        make_round(alloc, &mut dispatch.sender, dial)?;
        watch.round(&Progress::new(round + 1, &dispatch.sender, requests));
    }
    Ok(())
}

/// Sends over a new link what has no verdict, and receives the replies. If no link can be made, or
/// the exchange breaks off, the round ends; the replies received count.
///
/// # Errors
/// `AllocError` if memory was refused.
fn make_round<D: Dial>(alloc: Global, sender: &mut Sender, dial: &mut D) -> Result<(), AllocError>
    ensures { (s : Defined) → IsSender s sender.old → OnOk result ((heard : List Reply)
        × IsSender (hear_all s heard) sender.new
        × IsRound D.Dial D.Reader.Source D.Writer.Sink s heard dial.old dial.new) }
{
    let Ok(mut link) = dial.dial() else {
        return Ok(());
    };
    let ended = send_exchange(alloc, sender, &mut link.reader, &mut link.writer);
    unless_memory(ended)
}

/// # Errors
/// `AllocError` if memory was refused to the exchange.
fn unless_memory(ended: Result<(), SendFault>) -> Result<(), AllocError>
    ensures ok { OnOk result (ended ≢ Err Memory) }
    ensures err { OnErr result (ended ≡ Err Memory) }
{
    match ended {
        Ok(()) => Ok(()),
        Err(SendFault::Read) => Ok(()),
        Err(SendFault::Write) => Ok(()),
        Err(SendFault::BadReply) => Ok(()),
        Err(SendFault::TurnLimit) => Ok(()),
        Err(SendFault::Memory) => Err(AllocError),
    }
}
