//! A take of three messages, and how it is rehearsed with servers that stop.
use bw_commands::event_in;
use bw_delivery::{Lives, Machine, Rehearsed, StopEvent, StopsFault, rehearse_stops};
use bw_layout::Limit;
use bw_model::Name;
use std::alloc::Global;
use std::test::Fail;

/// An OPEN, a BLOCK of two frames and a CLOSE are offered and sent, and each reaches the server.
pub(crate) const FIRST: [&str; 9] = [
    "offer 0180bb0000010010000000",
    "offer 0201000200",
    "offer 050200000000000000",
    "send 0",
    "send 1",
    "send 2",
    "deliver 0",
    "deliver 1",
    "deliver 2",
];

/// Disks that don't die.
pub(crate) const ENDLESS: Lives = Lives {
    takes: u64::MAX,
    notes: u64::MAX,
    reached: 0,
};

/// More calls than a server makes here.
pub(crate) const CALLS: u64 = 100;

/// Disks of which one dies after so many calls.
pub(crate) fn lives_of(of_takes: bool, life: u64, reached: usize) -> Lives {
    if of_takes {
        Lives {
            takes: life,
            notes: u64::MAX,
            reached,
        }
    } else {
        Lives {
            takes: u64::MAX,
            notes: life,
            reached,
        }
    }
}

/// Adds the events of these lines.
pub(crate) fn add(
    alloc: Global,
    events: &mut Vec<StopEvent>,
    lines: &[&'static str],
) -> Result<(), Fail> {
    for line in lines {
        let event = event_in(alloc, line.as_bytes())?.ok_or("an event")?;
        events.push(StopEvent::Happens(event))?;
    }
    Ok(())
}

/// The greatest size of a take's file, in bytes.
pub(crate) fn limit() -> Result<Limit, Fail> {
    Ok(Limit::new(8_192).ok_or("a limit")?)
}

/// Plays the events for the name `a1`.
pub(crate) fn play(alloc: Global, events: &[StopEvent]) -> Result<Rehearsed, Fail> {
    let name = Name::new(b"a1").ok_or("a name")?;
    match rehearse_stops(alloc, name, limit()?, events) {
        Ok(it) => Ok(it),
        Err(StopsFault::PutOff) => Err("an ask was put off")?,
        Err(StopsFault::Memory) => Err("memory")?,
    }
}

/// Whether so many numbers are done on a server that runs, and counted by the sender.
pub(crate) fn has_done(it: &Rehearsed, count: u32) -> bool {
    matches!(it.machine, Machine::Runs(_))
        && it.sender.settled() == count
        && it.sender.stored() == count
        && it.done == count
}
