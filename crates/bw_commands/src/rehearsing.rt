//! Rehearsals: a sender and a server, and what is said between them, event by event.
ghost use Rattle.std.specs.Prelude.{IfOk};
ghost use Rattle.bw_commands.specs.Worlds.{WasRehearsed};

use crate::event::Event;
use crate::simulation::Simulation;
use bw_layout::Limit;
use bw_model::Name;
use bw_sender::Sender;
use bw_session::Server;
use bw_store::MemoryStore;
use std::alloc::{AllocError, Global};

/// What a rehearsal resulted in.
#[derive(Drop)]
pub struct World {
    /// How many requests the sender took over.
    pub offered: u64,
    /// How many messages were sent.
    pub sent: usize,
    /// How many replies were written.
    pub replies: usize,
    pub sender: Sender,
    pub server: Server<MemoryStore>,
}

/// Plays the events, in their order, with a new sender of this name, and a new server over an empty
/// store in memory.
///
/// All that was ever sent and written stays: what isn't delivered or brought is lost, and the rest
/// may come again, in any order. Memory that is refused to the server or to its store is a part of
/// the rehearsal: a reply reports it, or the store's count of failures.
///
/// # Errors
/// `AllocError` if memory was refused to the sender, or for the messages and replies. The name
/// isn't given back.
///
/// # Not specified
/// When memory is refused, and which events were played before.
pub fn rehearse(
    alloc: Global,
    name: Name,
    limit: Limit,
    events: &[Event],
) -> Result<World, AllocError>
    // Counts, sender, book and each settled name's file are those of a world of the definitions.
    ensures { IfOk result (λ w. WasRehearsed name limit events.now w) }
{
    let mut simulation = Simulation::new(alloc, name, limit)?;
    for event in events {
        simulation.play(event)?;
    }
    let Simulation {
        sender,
        server,
        offered,
        sent,
        replies,
        ..
    } = simulation;
    Ok(World {
        offered,
        sent: sent.len(),
        replies: replies.len(),
        sender,
        server,
    })
}
