//! What a reactor reports of links: as soon as there may be bytes, or room, and only once.
use crate::tests::play::{
    ALL, OTHERS, QUICK, QUICK_OTHER, TAKE, VERDICTS, bounds, is_over, is_reported, serve,
};
use crate::tests::scripted::{Give, Take};
use crate::tests::scripted_reactor::{Comes, Plan, ReportsRound, Visit};
use bw_console::Exit;
use std::alloc::Global;
use std::process::Abort;
use std::test::Fail;

/// There are no bytes at first.
const BYTES_LATER: &[Visit] = &[Visit(
    1,
    Comes::Peer(TAKE, &[Give::Nothing, Give::Bytes(58)], ALL),
)];

/// There is no room at first.
const ROOM_LATER: &[Visit] = &[Visit(
    1,
    Comes::Peer(
        TAKE,
        &[Give::Bytes(58)],
        &[Take::Nothing, Take::Bytes(4096)],
    ),
)];

const BOTH: &[Visit] = &[QUICK, QUICK_OTHER];

/// Only this is reported after a wait.
fn plan(visits: &'static [Visit], reports: ReportsRound) -> Plan {
    let all = Plan::over(visits, 100, 100);
    Plan { reports, ..all }
}

/// Compares a run of one peer of which only this is reported.
fn is_served(
    rt: &impl Abort,
    alloc: Global,
    visits: &'static [Visit],
    reports: ReportsRound,
) -> Result<(), Fail> {
    let received = serve(alloc, &bounds(2, 1, 1_000), plan(visits, reports))?;
    is_over(rt, &received, Exit::Done, b"exchange 0 EndOfInput\n");
    is_reported(rt, &received, 0, VERDICTS);
    Ok(())
}

#[test]
fn bytes_are_read_once_they_are_reported(rt: HostRuntime) -> Result<(), Fail> {
    is_served(&rt, rt.alloc(), BYTES_LATER, ReportsRound::Bytes)
}

#[test]
fn replies_are_sent_once_room_is_reported(rt: HostRuntime) -> Result<(), Fail> {
    is_served(&rt, rt.alloc(), ROOM_LATER, ReportsRound::Room)
}

#[test]
fn bytes_and_end_are_read_without_being_reported_again(rt: HostRuntime) -> Result<(), Fail> {
    let received = serve(
        rt.alloc(),
        &bounds(2, 2, 1_000),
        plan(BOTH, ReportsRound::Nothing),
    )?;
    let lines = b"exchange 0 EndOfInput\nexchange 1 Bye\n";
    is_over(&rt, &received, Exit::Done, lines);
    is_reported(&rt, &received, 0, VERDICTS);
    is_reported(&rt, &received, 1, OTHERS);
    Ok(())
}
