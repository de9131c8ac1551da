//! How connections end, and the run.
use crate::tests::compare::same;
use crate::tests::play::{
    ALL, OTHER, OTHERS_FIRST, QUICK, VERDICTS, bounds, is_over, is_reported, serve,
};
use crate::tests::scripted::{Give, Take};
use crate::tests::scripted_reactor::{Comes, Plan, Visit};
use bw_console::Exit;
use std::alloc::Global;
use std::process::Abort;
use std::test::Fail;

const BROKEN_READ: Visit = Visit(1, Comes::Peer(OTHER, &[Give::Bytes(22), Give::Failed], ALL));

const BROKEN_WRITE: Visit = Visit(
    1,
    Comes::Peer(OTHER, &[Give::Bytes(22)], &[Take::Bytes(5), Take::Failed]),
);

const BYE: Visit = Visit(1, Comes::Peer(b"\x01\0\0\0\x09", &[Give::Bytes(5)], ALL));

const FOUR_ENDS: &[Visit] = &[BROKEN_WRITE, BROKEN_READ, QUICK, BYE];

/// In the order in which they end: the first sends five bytes in its third round, and fails in its
/// fourth.
const FOUR_LINES: &[u8] = b"exchange 0 Bye\nexchange 1 ReadFault\n\
    exchange 2 EndOfInput\nexchange 3 WriteFault\n";

#[test]
fn each_end_has_its_line_in_order(rt: HostRuntime) -> Result<(), Fail> {
    let plan = Plan::over(FOUR_ENDS, 10, 100);
    let received = serve(rt.alloc(), &bounds(4, 4, 60_000), plan)?;
    is_over(&rt, &received, Exit::Done, FOUR_LINES);
    is_reported(&rt, &received, 0, &OTHERS_FIRST[..5]);
    is_reported(&rt, &received, 1, OTHERS_FIRST);
    is_reported(&rt, &received, 2, VERDICTS);
    is_reported(&rt, &received, 3, b"");
    Ok(())
}

const CLOSED: Visit = Visit(4, Comes::Closed);

const GONE: Visit = Visit(1, Comes::Gone);

const THEN_CLOSED: &[Visit] = &[QUICK, CLOSED, QUICK];

const ALONE: &[Visit] = &[QUICK];

const GONE_FIRST: &[Visit] = &[GONE, QUICK, GONE];

/// Compares a run of at most this many rounds, in which one peer is accepted and reaches its end.
fn ends_so(
    rt: &impl Abort,
    alloc: Global,
    visits: &'static [Visit],
    exchanges: u64,
    exit: Exit,
    time: u64,
) -> Result<(), Fail> {
    let plan = Plan::over(visits, 10, 6);
    let received = serve(alloc, &bounds(1, exchanges, 60_000), plan)?;
    is_over(rt, &received, exit, b"exchange 0 EndOfInput\n");
    is_reported(rt, &received, 0, VERDICTS);
    same(rt, "how many came", &received.scripted_reactor.let_in(), &1);
    same(rt, "the time", &received.scripted_reactor.time(), &time);
    let failed = u64::from(exit == Exit::Device);
    same(
        rt,
        "its failures",
        &received.scripted_reactor.failures(),
        &failed,
    );
    Ok(())
}

#[test]
fn a_closed_reactor_ends_the_run(rt: HostRuntime) -> Result<(), Fail> {
    ends_so(&rt, rt.alloc(), THEN_CLOSED, 4, Exit::Device, 40)
}

#[test]
fn a_failed_wait_ends_the_run(rt: HostRuntime) -> Result<(), Fail> {
    ends_so(&rt, rt.alloc(), ALONE, 4, Exit::Device, 60)
}

#[test]
fn one_who_has_gone_ends_nothing(rt: HostRuntime) -> Result<(), Fail> {
    // the one place is offered once a round
    ends_so(&rt, rt.alloc(), GONE_FIRST, 1, Exit::Done, 40)
}
