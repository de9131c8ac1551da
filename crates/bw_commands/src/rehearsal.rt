//! The text of a rehearsal: a sender and a server, played by the lines of an input.
ghost use Rattle.std.specs.Prelude.{◌≤◌, length, map, IfOk, IfErr};
ghost use Rattle.bw_commands.specs.RehearsedWorlds.{event_meaning};
ghost use Rattle.bw_console.specs.Input.{longest_input};
ghost use Rattle.bw_console.specs.Lines.{lines_of};
ghost use Rattle.bw_commands.specs.EventLines.{IsEventFault};
ghost use Rattle.bw_commands.specs.Rehearsals.{IsTextOfLines, IsWorldText};

use crate::events::events;
use crate::world_text::text_of_world;
use crate::{Event, rehearse};
use bw_console::Fault;
use bw_layout::Limit;
use bw_model::Name;
use std::alloc::{AllocError, Global};

/// Plays the events that the lines of the input encode, with a sender of this name and a server
/// over an empty store in memory. Returns the outcome as text.
///
/// # Errors
/// `NotEvent` for the first line that is no event; `Memory` if memory was refused.
///
/// # Not specified
/// When memory is refused, and whether the server's store fails a call for that: then a number may
/// wait, and its file is between two takes.
pub fn text_of_rehearsal(
    alloc: Global,
    name: Name,
    limit: Limit,
    input: &[u8],
) -> Result<Vec<u8>, Fault>
    requires { length input.now ≤ longest_input }
    // The text is that of a world that the events lead to, whatever memory and store do.
    ensures ok { IfOk result (λ text. IsTextOfLines name limit input.now text.items) }
    ensures err { IfErr result (λ fault. IsEventFault fault (lines_of input.now)) }
{
    let events = events(alloc, input)?;
    Ok(world_text(alloc, name, limit, events.as_slice())?)
}

/// The text of a world that the events lead to.
fn world_text(
    alloc: Global,
    name: Name,
    limit: Limit,
    events: &[Event],
) -> Result<Vec<u8>, AllocError>
    ensures { IfOk result (λ text.
        IsWorldText name limit (map event_meaning events.now) text.items) }
{
    let world = rehearse(alloc, name.copy(), limit, events)?;
    text_of_world(alloc, &name, &world)
}
