//! Recorders that send no whole frame, or take no reply, beside another.
use crate::tests::compare::same;
use crate::tests::garbage::BAD_FRAME;
use crate::tests::play::{
    ALL, FIRST, OTHERS, QUICK_OTHER, TAKE, VERDICTS, bounds, is_over, is_reported, serve,
};
use crate::tests::scripted::{Give, Take};
use crate::tests::scripted_reactor::{Comes, Plan, Visit};
use bw_console::Exit;
use std::alloc::Global;
use std::process::Abort;
use std::test::Fail;

/// Silent in the middle of its second frame.
const SILENT: Visit = Visit(1, Comes::Peer(TAKE, &[Give::Bytes(30), Give::Nothing], ALL));

/// A byte a round, after its first frame.
const SLOW: Visit = Visit(
    1,
    Comes::Peer(TAKE, &[Give::Bytes(22), Give::Bytes(1)], ALL),
);

/// Takes no replies.
const DEAF: Visit = Visit(
    1,
    Comes::Peer(TAKE, &[Give::Bytes(22), Give::Bytes(16)], &[Take::Nothing]),
);

const BESIDE_SILENT: &[Visit] = &[SILENT, QUICK_OTHER];

const BESIDE_SLOW: &[Visit] = &[SLOW, QUICK_OTHER];

const BESIDE_DEAF: &[Visit] = &[DEAF, QUICK_OTHER];

const LINES: &[u8] = b"exchange 0 Bye\nexchange 1 Idle\n";

/// A peer that comes after two seconds, and sends nothing at first.
const LATE: &[Visit] = &[Visit(
    20,
    Comes::Peer(TAKE, &[Give::Nothing, Give::Bytes(58)], ALL),
)];

/// A frame a round.
const STEADY: &[Visit] = &[Visit(
    1,
    Comes::Peer(
        TAKE,
        &[Give::Bytes(22), Give::Bytes(16), Give::Bytes(20)],
        ALL,
    ),
)];

/// A frame in two rounds.
const HELD: &[Visit] = &[Visit(
    1,
    Comes::Peer(
        TAKE,
        &[Give::Bytes(10), Give::Bytes(12), Give::Bytes(36)],
        ALL,
    ),
)];

/// A bad frame, after a round without bytes.
const LATE_BAD: &[Visit] = &[Visit(
    1,
    Comes::Peer(b"\0\0\0\0", &[Give::Nothing, Give::Bytes(4)], ALL),
)];

/// A part of a frame, and the end in the next round.
const CUT: &[Visit] = &[Visit(1, Comes::Peer(b"\x12\0\0", &[Give::Bytes(3)], ALL))];

/// The reply to a first frame that is cut off.
const CUT_FRAME: &[u8] = b"\x0a\0\0\0\x83\x06\0\0\0\0\0\0\0\0";

/// Compares a run of one of these beside `QUICK_OTHER`: its replies, how many bytes it gave, and
/// when it was ended.
fn is_idle(
    rt: &impl Abort,
    alloc: Global,
    visits: &'static [Visit],
    replies: &[u8],
    given: usize,
) -> Result<(), Fail> {
    let plan = Plan::over(visits, 100, 1_000);
    let received = serve(alloc, &bounds(2, 2, 1_000), plan)?;
    is_over(rt, &received, Exit::Done, LINES);
    is_reported(rt, &received, 0, replies);
    is_reported(rt, &received, 1, OTHERS);
    same(
        rt,
        "the bytes",
        &received.scripted_reactor.given_and_shut(0).0,
        &given,
    );
    // its first frame was answered after 200 milliseconds
    same(rt, "the time", &received.scripted_reactor.time(), &1_300);
    Ok(())
}

#[test]
fn who_is_silent_in_a_frame_is_ended(rt: HostRuntime) -> Result<(), Fail> {
    is_idle(&rt, rt.alloc(), BESIDE_SILENT, FIRST, 30)
}

#[test]
fn who_sends_no_whole_frame_is_ended(rt: HostRuntime) -> Result<(), Fail> {
    // a byte in each of the rounds 3 to 13
    is_idle(&rt, rt.alloc(), BESIDE_SLOW, FIRST, 33)
}

#[test]
fn who_takes_no_replies_is_not_read(rt: HostRuntime) -> Result<(), Fail> {
    is_idle(&rt, rt.alloc(), BESIDE_DEAF, b"", 22)
}

/// Compares a run of one of these, which reaches its end.
fn is_served(
    rt: &impl Abort,
    alloc: Global,
    visits: &'static [Visit],
    tick: u64,
    idle: u64,
) -> Result<(), Fail> {
    let plan = Plan::over(visits, tick, 100);
    let received = serve(alloc, &bounds(1, 1, idle), plan)?;
    is_over(rt, &received, Exit::Done, b"exchange 0 EndOfInput\n");
    is_reported(rt, &received, 0, VERDICTS);
    Ok(())
}

#[test]
fn who_comes_late_is_quiet_since_then(rt: HostRuntime) -> Result<(), Fail> {
    is_served(&rt, rt.alloc(), LATE, 100, 1_000)
}

#[test]
fn what_comes_is_answered_before_silence_is_looked_for(rt: HostRuntime) -> Result<(), Fail> {
    // each round comes later than the idle time after the one before
    is_served(&rt, rt.alloc(), STEADY, 300, 250)
}

#[test]
fn who_waits_for_an_answer_is_not_silent(rt: HostRuntime) -> Result<(), Fail> {
    // the frame is whole, and answered, in rounds later than the idle time
    is_served(&rt, rt.alloc(), HELD, 300, 250)
}

/// Compares a run over a peer whose bad frame is answered after the idle time.
fn is_refused(
    rt: &impl Abort,
    alloc: Global,
    visits: &'static [Visit],
    reply: &[u8],
) -> Result<(), Fail> {
    let plan = Plan::over(visits, 300, 100);
    let received = serve(alloc, &bounds(1, 1, 250), plan)?;
    is_over(rt, &received, Exit::Done, b"exchange 0 BadFrame\n");
    is_reported(rt, &received, 0, reply);
    Ok(())
}

#[test]
fn who_sends_a_bad_frame_late_gets_its_reply(rt: HostRuntime) -> Result<(), Fail> {
    is_refused(&rt, rt.alloc(), LATE_BAD, BAD_FRAME)
}

#[test]
fn who_ends_late_in_a_frame_gets_its_reply(rt: HostRuntime) -> Result<(), Fail> {
    is_refused(&rt, rt.alloc(), CUT, CUT_FRAME)
}
