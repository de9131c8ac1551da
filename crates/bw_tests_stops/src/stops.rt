//! A take of three messages whose server stops, in each call of its disks and between turns, and is
//! finished by the next one.
use crate::plays::{CALLS, ENDLESS, FIRST, add, has_done, lives_of, play};
use bw_delivery::{Lives, Rehearsed, StopEvent};
use std::alloc::Global;
use std::process::Abort;
use std::test::Fail;

/// Each message is delivered again, and every reply reaches the sender.
const SECOND: [&str; 9] = [
    "deliver 0",
    "deliver 1",
    "deliver 2",
    "bring 0",
    "bring 1",
    "bring 2",
    "bring 3",
    "bring 4",
    "bring 5",
];

/// The OPEN alone is delivered before the stop, and the BLOCK while no server runs.
const SPLIT: [&str; 6] = [
    "offer 0180bb0000010010000000",
    "offer 0201000200",
    "send 0",
    "send 1",
    "deliver 0",
    "bring 0",
];

/// Two servers, of which the first has disks that die so.
fn two_lives(alloc: Global, first: Lives) -> Result<Rehearsed, Fail> {
    let mut events = Vec::new(alloc);
    events.push(StopEvent::Start(first))?;
    add(alloc, &mut events, &FIRST)?;
    events.push(StopEvent::Stop)?;
    events.push(StopEvent::Start(ENDLESS))?;
    add(alloc, &mut events, &SECOND)?;
    play(alloc, events.as_slice())
}

/// Whether the take is finished in whichever call a disk of the first server dies, up to a run in
/// which none dies: then each verdict is written twice.
fn is_always_finished(alloc: Global, reached: usize, of_takes: bool) -> Result<bool, Fail> {
    for life in 0..CALLS {
        let lives = lives_of(of_takes, life, reached);
        let it = two_lives(alloc, lives)?;
        if !has_done(&it, 3) {
            return Ok(false);
        }
        if it.replies == 6 {
            return Ok(life > 0);
        }
    }
    Ok(false)
}

/// Fails the test unless it is so for both disks.
fn finishes(rt: &impl Abort, alloc: Global, reached: usize) -> Result<(), Fail> {
    assert!(rt;
        is_always_finished(alloc, reached, true)?,
        "the takes' disk"
    );
    assert!(rt;
        is_always_finished(alloc, reached, false)?,
        "the journals' disk"
    );
    Ok(())
}

#[test]
fn a_take_is_finished_after_a_death_between_calls(rt: HostRuntime) -> Result<(), Fail> {
    finishes(&rt, rt.alloc(), 0)
}

#[test]
fn a_take_is_finished_after_a_death_within_writes(rt: HostRuntime) -> Result<(), Fail> {
    finishes(&rt, rt.alloc(), 20)
}

#[test]
fn what_comes_while_no_server_runs_is_lost(rt: HostRuntime) -> Result<(), Fail> {
    let alloc = rt.alloc();
    let mut events = Vec::new(alloc);
    events.push(StopEvent::Start(ENDLESS))?;
    add(alloc, &mut events, &SPLIT)?;
    events.push(StopEvent::Stop)?;
    add(alloc, &mut events, &["deliver 1"])?;
    events.push(StopEvent::Start(ENDLESS))?;
    let before = play(alloc, events.as_slice())?;
    assert!(rt; before.replies == 1);
    assert!(rt; has_done(&before, 1));
    add(alloc, &mut events, &["deliver 1", "bring 1"])?;
    let after = play(alloc, events.as_slice())?;
    assert!(rt; after.replies == 2);
    assert!(rt; has_done(&after, 2));
    Ok(())
}
