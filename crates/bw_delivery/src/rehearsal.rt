//! Rehearsals in which servers stop, event by event.
ghost use Rattle.std.specs.Prelude.{◌≡◌, ℕ, true, IsTrue, IfOk};
ghost use Rattle.bw_model.specs.World.{World, Deliver, Ask};
ghost use Rattle.bw_commands.specs.RehearsedWorlds.{event_meaning};
ghost use Rattle.bw_delivery.specs.Machines.{IsMachine, ShowsNext, IsRunning, runs};
ghost use Rattle.bw_delivery.specs.Networks.{IsNetwork};
ghost use Rattle.bw_delivery.specs.PlayedEvents.{PlaysBy, IsPlayed, IsPlayedEvent};
ghost use Rattle.bw_delivery.specs.Rehearsals.{WasRehearsedWithStops};

use crate::asks::{asked, done_in};
use crate::event::StopEvent;
use crate::machine::{Folder, Life, Machine, start_again, start_counting, stop, turn};
use crate::network::Network;
use arrayvec::ArrayVec;
use bw_commands::{Event, append, message_in};
use bw_layout::Limit;
use bw_model::Name;
use bw_sender::Sender;
use std::alloc::{AllocError, Global};

/// The most replies to one message.
const REPLIES: usize = 17;

/// Why a rehearsal ends before its last event, or without what it resulted in.
#[derive(Clone, Copy, Debug)]
pub enum StopsFault {
    /// Memory was refused.
    Memory,
    /// The server that runs at the end puts off the ask how many numbers are done, and no disk died.
    PutOff,
}

impl From<AllocError> for StopsFault {
    /// Memory was refused.
    fn from(_: AllocError) -> StopsFault {
        StopsFault::Memory
    }
}

/// What a rehearsal in which servers stop resulted in.
#[derive(Drop)]
pub struct Rehearsed {
    /// How many requests the sender took over.
    pub offered: u64,
    /// How many messages were sent.
    pub sent: usize,
    /// How many replies were written.
    pub replies: usize,
    /// How many numbers of the name are done, if a server runs.
    pub done: u32,
    /// The sender.
    pub sender: Sender,
    /// The machine: its server, or what was left.
    pub machine: Machine,
}

/// Plays the events, in their order, with a new sender of this name, and servers that follow one
/// another over a folder in memory, which is empty at first. Each server has a store and a journal
/// there, by disks that die in a chosen call.
///
/// All that was ever sent and written stays: what isn't delivered or brought is lost, and the rest
/// may come again, in any order. A server stops in a turn in which a disk dies, and none of that
/// turn's replies is written. One that starts is asked for the sender's name first, and that reply
/// isn't written either; if a disk dies in that turn of a `StartCounting`, no server runs. If a
/// server runs at the end, it is asked how many numbers of the name are done; that reply isn't
/// written.
///
/// # Errors
/// `Memory` if memory was refused to the sender, for the messages and replies, for a folder's copy or
/// for a server; `PutOff`. The name isn't given back.
///
/// # Not specified
/// - When memory is refused, and which events were played before.
/// - In which call a disk dies: contracts count only calls, and don't say how many a turn makes. So
///   neither is it specified that a server stops in each turn in which a disk died, and in no other,
///   nor that a `StartCounting` leaves no server if a disk died in it, and only then.
/// - That only lack of memory makes a server put off an ask while its disks live.
pub fn rehearse_stops(
    alloc: Global,
    name: Name,
    limit: Limit,
    events: &[StopEvent],
) -> Result<Rehearsed, StopsFault>
    // The sender counts only what the take has; each verdict written is that of a done number.
    ensures { IfOk result (λ it. WasRehearsedWithStops name limit events.now it) }
{
    let asked = name.copy();
    let Ok(mut network) = Network::new(alloc, name) else {
        return Err(StopsFault::Memory);
    };
    let mut machine = Machine::Stopped(Folder::new(alloc));
    for event in events {
        machine = play(alloc, limit, &mut network, machine, event)?;
    }
    let (done, machine) = look(alloc, machine, &asked)?;
    let Network {
        sender,
        offered,
        sent,
        replies,
        ..
    } = network;
    Ok(Rehearsed {
        offered,
        sent: sent.len(),
        replies: replies.len(),
        done,
        sender,
        machine,
    })
}

/// Asks the server how many numbers of a name are done, if one runs.
///
/// # Errors
/// `Memory` if memory was refused, `PutOff` if the ask was put off, and no disk died.
fn look(alloc: Global, machine: Machine, name: &Name) -> Result<(u32, Machine), StopsFault>
    ensures { (limit : ℕ) (w : World) → IsMachine limit w.book machine →
        IfOk result (λ x. ShowsNext limit w name.now x.0 x.1) }
{
    match machine {
        Machine::Runs(life) => look_at(alloc, life, name),
        Machine::Stopped(folder) => Ok((0, Machine::Stopped(folder))),
    }
}

/// Asks a server that runs how many numbers of a name are done.
fn look_at(alloc: Global, life: Life, name: &Name) -> Result<(u32, Machine), StopsFault>
    ensures { (limit : ℕ) (w : World) → IsRunning limit w.book life →
        IfOk result (λ x. ShowsNext limit w name.now x.0 x.1) }
{
    let (reply, machine) = asked(alloc, life, name)?;
    let Some(reply) = reply else {
        return Ok((0, machine));
    };
    match done_in(&reply) {
        Some(done) => Ok((done, machine)),
        None => Err(StopsFault::PutOff),
    }
}

/// Plays an event.
fn play(
    alloc: Global,
    limit: Limit,
    network: &mut Network,
    machine: Machine,
    event: &StopEvent,
) -> Result<Machine, StopsFault>
    ensures { (w : World) → IsNetwork w network.old → IsMachine limit w.book machine →
        IfOk result (λ later.
        PlaysBy limit w (IsPlayed w (runs machine) event.now) network.new later) }
{
    match event {
        StopEvent::Happens(event) => match happen(network, machine, event) {
            Ok(later) => Ok(later),
            Err(_) => Err(StopsFault::Memory),
        },
        StopEvent::Stop => match stop(machine) {
            Ok(later) => Ok(later),
            Err(_) => Err(StopsFault::Memory),
        },
        StopEvent::Start(lives) => {
            match start_again(alloc, machine, limit, lives, network.sender.name()) {
                Ok(later) => Ok(later),
                Err(_) => Err(StopsFault::Memory),
            }
        }
        StopEvent::StartCounting(lives) => {
            match start_counting(alloc, machine, limit, lives, network.sender.name()) {
                Ok(later) => Ok(later),
                Err(_) => Err(StopsFault::Memory),
            }
        }
    }
}

/// Plays an event of a rehearsal without stops.
fn happen(network: &mut Network, machine: Machine, event: &Event) -> Result<Machine, AllocError>
    ensures { (limit : ℕ) (w : World) → IsNetwork w network.old → IsMachine limit w.book machine →
        IfOk result (λ later. PlaysBy limit w
        (IsPlayedEvent w (runs machine) (event_meaning event.now)) network.new later) }
{
    match event {
        Event::Offer(request) => {
            network.offer(request)?;
            Ok(machine)
        }
        Event::Send(place) => {
            network.send(*place)?;
            Ok(machine)
        }
        Event::Deliver(place) => deliver(network, machine, *place),
        Event::Bring(place) => {
            network.bring(*place);
            Ok(machine)
        }
        Event::Ask => ask_for(network, machine),
    }
}

/// Gives the sent message at a place to the server, if one runs.
fn deliver(network: &mut Network, machine: Machine, place: usize) -> Result<Machine, AllocError>
    ensures { (limit : ℕ) (w : World) → IsNetwork w network.old → IsMachine limit w.book machine →
        IfOk result (λ later. PlaysBy limit w
        (IsPlayedEvent w (runs machine) (Deliver place)) network.new later) }
{
    match machine {
        Machine::Runs(life) => deliver_to(network, life, place),
        Machine::Stopped(folder) => Ok(Machine::Stopped(folder)),
    }
}

/// Gives the sent message at a place to a server that runs.
fn deliver_to(network: &mut Network, life: Life, place: usize) -> Result<Machine, AllocError>
    ensures { (limit : ℕ) (w : World) → IsNetwork w network.old → IsRunning limit w.book life →
        IfOk result (λ later. PlaysBy limit w
        (IsPlayedEvent w true (Deliver place)) network.new later) }
{
    let Some(frame) = network.sent.get(place) else {
        return Ok(Machine::Runs(life));
    };
    // What was sent is the frame of a message.
    let Some(message) = message_in(frame) else {
        return Ok(Machine::Runs(life));
    };
    network.replies.reserve(REPLIES)?;
    let mut reported = ArrayVec::new();
    let machine = turn(life, &message, &mut reported)?;
    append(&mut network.replies, reported);
    Ok(machine)
}

/// Asks the server for the sender's name, if one runs.
fn ask_for(network: &mut Network, machine: Machine) -> Result<Machine, AllocError>
    ensures { (limit : ℕ) (w : World) → IsNetwork w network.old → IsMachine limit w.book machine →
        IfOk result (λ later. PlaysBy limit w
        (IsPlayedEvent w (runs machine) Ask) network.new later) }
{
    match machine {
        Machine::Runs(life) => ask_of(network, life),
        Machine::Stopped(folder) => Ok(Machine::Stopped(folder)),
    }
}

/// Asks a server that runs for the sender's name.
fn ask_of(network: &mut Network, life: Life) -> Result<Machine, AllocError>
    ensures { (limit : ℕ) (w : World) → IsNetwork w network.old → IsRunning limit w.book life →
        IfOk result (λ later. PlaysBy limit w (IsPlayedEvent w true Ask) network.new later) }
{
    network.replies.reserve(1)?;
    let (reply, machine) = asked(network.alloc, life, network.sender.name())?;
    match reply {
        Some(reply) => {
            network.replies.push(reply)?;
            Ok(machine)
        }
        None => Ok(machine),
    }
}
