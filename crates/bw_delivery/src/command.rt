//! The command `rehearse`, by the events of its input.
ghost use Rattle.std.specs.Prelude.{◌≡◌, ◌+◌, ◌≤◌, Some, true, length, IfOk, IfErr};
ghost use Rattle.bw_stream.specs.Readers.{Of};
ghost use Rattle.bw_console.specs.Input.{IsReadAhead, longest_input};
ghost use Rattle.bw_console.specs.Lines.{lines_of};
ghost use Rattle.bw_console.specs.Outcomes.{HasWritten, Outcome};
ghost use Rattle.bw_console.specs.Prints.{failures_if};
ghost use Rattle.bw_delivery.specs.Chosen.{IsChosenRehearsal, IsFaultIf, IsTextIf};
ghost use Rattle.bw_delivery.specs.ServerLines.{IsStopEventFault, has_servers};
ghost use Rattle.bw_delivery.specs.StopTexts.{IsStopsText, IsStopsTextOfLines};

use crate::events::{has_server_line, stop_events};
use crate::text::text_of_stops;
use crate::{StopEvent, rehearse_stops};
use bw_commands::text_of_rehearsal;
use bw_console::print::{give_up, print_text};
use bw_console::{Exit, Fault, all_bytes};
use bw_layout::Limit;
use bw_model::Name;
use bw_stream::{Sink, Source};
use std::alloc::Global;

/// Plays the events that the lines of the input say, and writes the outcome as text: by
/// `text_of_rehearsal` if no line begins with `start` or `stop`; else with servers that stop and
/// start, of which none runs at first, over a folder in memory.
///
/// A fault's line goes to `faults`; a failure to write it is ignored. Of the input at most
/// 16,777,217 bytes are read.
///
/// `Refused` if the input has more than 16,777,216 bytes, or for its first line that is no event;
/// `Device` if a read or a write failed; `Memory` if memory was refused. Nothing is printed then,
/// or a prefix if the writer failed.
///
/// # Not specified
/// - When memory is refused.
/// - Whether a server stops in a turn or a start, and in which call of it: neither that a server
///   that was started by `start` doesn't, nor that one that was started by `start store K`,
///   `start journal K`, `start counting store K` or `start counting journal K` stops in call K.
/// - What `text_of_rehearsal` leaves open.
/// - Of a reader that doesn't report its bytes: what is refused, and what the text is of.
pub fn rehearse_with_stops_run<R: Source, W: Sink, E: Sink>(
    alloc: Global,
    name: Name,
    limit: Limit,
    input: &mut R,
    out: &mut W,
    faults: &mut E,
) -> Exit
    ensures within { Of (R.left input.old) (λ xs. IsReadAhead xs (R.left input.new)) }
    ensures most { R.moved input.new ≤ R.moved input.old + (longest_input + 1) }
    // Done only with the text of what the events lead to.
    ensures did { (did : Outcome) × (did.exit ≡ result)
        × IsChosenRehearsal name limit (R.left input.old) did
        × (R.failures input.new ≡ failures_if did.reads_all (R.failures input.old))
        × HasWritten W.Sink E.Sink did out.old out.new faults.old faults.new }
{
    match all_bytes(alloc, input) {
        Ok(bytes) => rehearse_bytes(alloc, name, limit, bytes.as_slice(), out, faults),
        Err(fault) => give_up(faults, &fault),
    }
}

/// The same of the bytes of an input.
fn rehearse_bytes<W: Sink, E: Sink>(
    alloc: Global,
    name: Name,
    limit: Limit,
    input: &[u8],
    out: &mut W,
    faults: &mut E,
) -> Exit
    requires { length input.now ≤ longest_input }
    ensures { (did : Outcome) × (did.exit ≡ result) × IsChosenRehearsal name limit (Some input.now) did
        × (did.reads_all ≡ true)
        × HasWritten W.Sink E.Sink did out.old out.new faults.old faults.new }
{
    match text_of_bytes(alloc, name, limit, input) {
        Ok(text) => print_text(text.as_slice(), out, faults),
        Err(fault) => give_up(faults, &fault),
    }
}

/// The outcome as text of the events that the lines of an input say.
///
/// # Errors
/// `NotEvent` for the first line that is no event; `Memory` if memory was refused.
fn text_of_bytes(alloc: Global, name: Name, limit: Limit, input: &[u8]) -> Result<Vec<u8>, Fault>
    requires { length input.now ≤ longest_input }
    ensures ok { IfOk result (λ text.
        IsTextIf (has_servers input.now) name limit input.now text.items) }
    ensures err { IfErr result (λ fault.
        IsFaultIf (has_servers input.now) fault (lines_of input.now)) }
{
    if has_server_line(input) {
        return stops_text(alloc, name, limit, input);
    }
    text_of_rehearsal(alloc, name, limit, input)
}

/// The same of an input in which a line is of a server.
fn stops_text(alloc: Global, name: Name, limit: Limit, input: &[u8]) -> Result<Vec<u8>, Fault>
    requires { length input.now ≤ longest_input }
    ensures ok { IfOk result (λ text. IsStopsTextOfLines name limit input.now text.items) }
    ensures err { IfErr result (λ fault. IsStopEventFault fault (lines_of input.now)) }
{
    let events = stop_events(alloc, input)?;
    text_of_events(alloc, name, limit, events.as_slice())
}

/// The text of what a rehearsal of the events results in.
fn text_of_events(
    alloc: Global,
    name: Name,
    limit: Limit,
    events: &[StopEvent],
) -> Result<Vec<u8>, Fault>
    ensures ok { IfOk result (λ text. IsStopsText name limit events.now text.items) }
    ensures err { IfErr result (λ fault. fault ≡ Fault.Memory) }
{
    match rehearse_stops(alloc, name.copy(), limit, events) {
        Ok(it) => Ok(text_of_stops(alloc, &name, &it)?),
        Err(_) => Err(Fault::Memory),
    }
}
