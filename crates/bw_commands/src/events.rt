//! The lines of an input as the events of a rehearsal.
ghost use Rattle.std.specs.Prelude.{◌≤◌, length, map, IfOk, IfErr};
ghost use Rattle.bw_commands.specs.RehearsedWorlds.{event_meaning};
ghost use Rattle.bw_console.specs.Lines.{lines_of};
ghost use Rattle.bw_console.specs.Input.{longest_input};
ghost use Rattle.bw_commands.specs.EventLines.{SayEvents, IsEventFault};

use crate::{Event, event_in};
use bw_console::{Fault, first_line};
use std::alloc::Global;

/// The events that the lines of an input encode.
pub fn events(alloc: Global, input: &[u8]) -> Result<Vec<Event>, Fault>
    requires { length input.now ≤ longest_input }
    ensures ok { IfOk result (λ found.
        SayEvents (lines_of input.now) (map event_meaning found.items)) }
    ensures err { IfErr result (λ fault. IsEventFault fault (lines_of input.now)) }
{
    let mut found = Vec::new(alloc);
    let mut rest = input;
    let mut number = 1;
    while !rest.is_empty() {
        let (line, others) = first_line(rest);
        let Some(event) = event_in(alloc, line)? else {
            return Err(Fault::NotEvent(number));
        };
        let Ok(()) = found.push(event) else {
            return Err(Fault::Memory);
        };
        rest = others;
        number += 1;
    }
    Ok(found)
}
