//! The lines of an input as events, with servers that stop and start.
ghost use Rattle.std.specs.Prelude.{◌≡◌, ◌≤◌, length, IfOk, IfErr};
ghost use Rattle.bw_console.specs.Lines.{lines_of};
ghost use Rattle.bw_console.specs.Input.{longest_input};
ghost use Rattle.bw_delivery.specs.ServerLines.{SayStopEvents, IsStopEventFault, has_servers};

use crate::StopEvent;
use crate::lines::{is_of_server, stop_event_in};
use bw_console::{Fault, first_line};
use std::alloc::Global;

/// The events that the lines of an input say.
///
/// # Errors
/// `NotEvent` for the first line that says none, `Memory` if memory was refused.
pub(crate) fn stop_events(alloc: Global, input: &[u8]) -> Result<Vec<StopEvent>, Fault>
    requires { length input.now ≤ longest_input }
    ensures ok { IfOk result (λ found. SayStopEvents (lines_of input.now) found.items) }
    ensures err { IfErr result (λ fault. IsStopEventFault fault (lines_of input.now)) }
{
    let mut found = Vec::new(alloc);
    let mut rest = input;
    let mut number = 1;
    while !rest.is_empty() {
        let (line, others) = first_line(rest);
        let Some(event) = stop_event_in(alloc, line)? else {
            return Err(Fault::NotEvent(number));
        };
        let Ok(()) = found.push(event) else {
            return Err(Fault::Memory);
        };
        rest = others;
        number += 1;
    }
    Ok(found)
}

/// Whether a line of an input begins with `start` or `stop`.
pub(crate) fn has_server_line(input: &[u8]) -> bool
    ensures { result ≡ has_servers input.now }
{
    let mut rest = input;
    while !rest.is_empty() {
        let (line, others) = first_line(rest);
        if is_of_server(line) {
            return true;
        }
        rest = others;
    }
    false
}
