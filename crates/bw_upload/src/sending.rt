//! The command `send`: a recorder's requests from standard input, in rounds.
ghost use Rattle.std.specs.Prelude.{◌≡◌, ◌+◌, ◌≤◌, IfOk};
ghost use Rattle.bw_stream.specs.Readers.{Of};
ghost use Rattle.bw_console.specs.Outcomes.{Outcome, HasWritten};
ghost use Rattle.bw_console.specs.Faults.{is_read};
ghost use Rattle.bw_console.specs.Input.{longest_input, IsReadAhead};
ghost use Rattle.bw_console.specs.Prints.{IsPrint, Print, failures_if};
ghost use Rattle.bw_upload.specs.RoundsMade.{MakesRounds};
ghost use Rattle.bw_upload.specs.SendState.{Sending, IsSending, new_sending};
ghost use Rattle.bw_upload.specs.Sends.{IsPrintOfSend, IsSendRun, ReportsOfExit};

use crate::dispatch::{Dispatch, exit_after};
use crate::requests::read_requests;
use crate::rounds::make_rounds;
use crate::sides::SendingSides;
use crate::text::text_of_sender;
use bw_console::print::{give_up, print, print_diagnostic};
use bw_console::{Exit, Fault};
use bw_model::{Name, Request};
use bw_ports::{Dial, Watch};
use bw_sender::Sender;
use bw_stream::{Sink, Source};
use std::alloc::{AllocError, Global};

/// The report on a sender that isn't done.
const UNSETTLED: &str = "not every request has its verdict yet\n";

/// Who sends in rounds.
#[derive(Drop)]
pub struct RoundSender {
    /// The name of its take.
    pub name: Name,
    /// How many rounds it makes at most.
    pub rounds: u32,
    /// Its memory.
    pub alloc: Global,
}

/// Sends the requests in the lines of the input, as the recorder of this take, writes the outcome as
/// text, and reports its progress to a watcher after each round.
///
/// All lines are read before the first link is made. `Done` if each line's request is settled and
/// stored; `Refused` if one is refused, or the input is. A fault's line goes to `faults`; a failure
/// to write it is ignored. Of the input at most 16,777,217 bytes are read.
///
/// `Device` if not all is settled in its rounds, or if a read of the input or a write of the text
/// failed. If the text can't be written, all rounds were made; if memory was refused, nothing is
/// printed.
///
/// # Not specified
/// - When memory is refused, and what was sent and settled before it: nothing is printed of that.
/// - Which round found no link.
/// - That the watcher gets a report of each round, with its number.
pub fn send_run<X: SendingSides, R: Source, V: Watch>(
    sender: RoundSender,
    dial: &mut X::Dial,
    input: &mut R,
    out: &mut X::Output,
    faults: &mut X::Diagnostics,
    watch: &mut V,
) -> Exit
    // It is so whoever watches.
    ensures did { (did : Outcome) × (did.exit ≡ result)
        × IsSendRun X.Dial.Dial X.Dial.Reader.Source X.Dial.Writer.Sink sender.name sender.rounds
        (R.left input.old) dial.old dial.new did
        × (R.failures input.new ≡ failures_if did.reads_all (R.failures input.old))
        × HasWritten X.Output.Sink X.Diagnostics.Sink did out.old out.new faults.old faults.new }
    ensures within { Of (R.left input.old) (λ xs. IsReadAhead xs (R.left input.new)) }
    ensures most { R.moved input.new ≤ R.moved input.old + (longest_input + 1) }
{
    match send(sender, input, dial, out, watch) {
        Ok(exit) => report_of_exit(exit, faults),
        Err(fault) => give_up(faults, &fault),
    }
}

/// Reports it if the sender isn't done. A failure to write it is ignored.
fn report_of_exit<E: Sink>(exit: Exit, faults: &mut E) -> Exit
    ensures exit { result ≡ exit }
    ensures reported { (print : Print) × ReportsOfExit exit print
        × IsPrint E.Sink print faults.old faults.new }
{
    match exit {
        Exit::Device => print_diagnostic(faults, UNSETTLED.as_bytes()),
        Exit::Done | Exit::Refused | Exit::Usage | Exit::Memory => (),
    }
    exit
}

/// Sends the requests in the lines of the input, and writes the outcome as text.
fn send<D: Dial, R: Source, W: Sink, V: Watch>(
    sender: RoundSender,
    input: &mut R,
    dial: &mut D,
    out: &mut W,
    watch: &mut V,
) -> Result<Exit, Fault>
    ensures within { Of (R.left input.old) (λ xs. IsReadAhead xs (R.left input.new)) }
    ensures most { R.moved input.new ≤ R.moved input.old + (longest_input + 1) }
    ensures count { R.failures input.new ≡ failures_if (is_read result) (R.failures input.old) }
    ensures prints { (print : Print)
        × IsPrintOfSend D.Dial D.Reader.Source D.Writer.Sink sender.name sender.rounds
        (R.left input.old) dial.old dial.new result print
        × IsPrint W.Sink print out.old out.new }
{
    let RoundSender {
        name,
        rounds,
        alloc,
    } = sender;
    let requests = read_requests(alloc, input)?;
    let dispatch = send_requests(alloc, name, rounds, requests.as_slice(), dial, watch)?;
    let text = text_of_sender(alloc, &dispatch.sender)?;
    match print(out, text.as_slice()) {
        Ok(()) => Ok(exit_after(&dispatch, requests.len())),
        Err(_) => Err(Fault::Unwritable),
    }
}

/// Sends the requests in rounds, as a new sender of this name. Returns how far it got.
///
/// # Errors
/// `AllocError` if memory was refused.
fn send_requests<D: Dial, V: Watch>(
    alloc: Global,
    name: Name,
    rounds: u32,
    requests: &[Request],
    dial: &mut D,
    watch: &mut V,
) -> Result<Dispatch, AllocError>
    ensures { IfOk result (λ dispatch. (last : Sending) × IsSending last dispatch
        × MakesRounds D.Dial D.Reader.Source D.Writer.Sink rounds
        (new_sending name requests.now) last dial.old dial.new) }
{
    let mut dispatch = Dispatch {
        sender: Sender::new(alloc, name)?,
        offered: 0,
        is_stopped: false,
    };
    make_rounds(alloc, rounds, &mut dispatch, requests, dial, watch)?;
    Ok(dispatch)
}
