//! What follows a bad frame.
use crate::tests::compare::same;
use crate::tests::play::{ALL, Received, bounds, is_over, is_reported, serve};
use crate::tests::scripted::Give;
use crate::tests::scripted_reactor::{Comes, Plan, Visit};
use bw_console::Exit;
use std::alloc::Global;
use std::process::Abort;
use std::test::Fail;

/// A frame without a body, and `TAKE` after it.
const AFTER: &[u8] = b"\0\0\0\0\
    \x12\0\0\0\x01\x02a1\0\0\0\0\x80\xbb\0\0\x01\0\x10\0\0\0\
    \x0c\0\0\0\x02\x02a1\x01\0\0\0\x01\0\x02\0\
    \x10\0\0\0\x05\x02a1\x02\0\0\0\x02\0\0\0\0\0\0\0";

/// The reply to the bad frame.
pub(crate) const BAD_FRAME: &[u8] = b"\x0a\0\0\0\x83\x01\0\0\0\0\0\0\0\0";

const IN_PIECES: &[Visit] = &[Visit(
    1,
    Comes::Peer(
        AFTER,
        &[
            Give::Bytes(4),
            Give::Bytes(22),
            Give::Nothing,
            Give::Bytes(16),
            Give::Bytes(20),
        ],
        ALL,
    ),
)];

const WITHOUT_END: &[Visit] = &[Visit(
    1,
    Comes::Peer(AFTER, &[Give::Bytes(4), Give::Bytes(1)], ALL),
)];

const BROKEN: &[Visit] = &[Visit(1, Comes::Peer(AFTER, &[Give::Bytes(10), Give::Failed], ALL))];

/// Serves a peer that sends a bad frame, and compares the outcome of the run; then how many bytes
/// it gave, and when it was ended.
fn is_bad(
    rt: &impl Abort,
    alloc: Global,
    visits: &'static [Visit],
    given: usize,
    time: u64,
) -> Result<(), Fail> {
    let plan = Plan::over(visits, 100, 1_000);
    let received = serve(alloc, &bounds(1, 1, 60_000), plan)?;
    is_over(rt, &received, Exit::Done, b"exchange 0 BadFrame\n");
    is_reported(rt, &received, 0, BAD_FRAME);
    let found = received.scripted_reactor.given_and_shut(0);
    same(rt, "the bytes", &found.0, &given);
    // the link was shut after the reply
    same(rt, "where it was shut", &found.1, &Some(14));
    same(rt, "the time", &received.scripted_reactor.time(), &time);
    has_no_file(rt, &received);
    Ok(())
}

fn has_no_file(rt: &impl Abort, received: &Received) {
    same(
        rt,
        "the names",
        &received.server.server().store().name_count(),
        &0,
    );
}

#[test]
fn what_follows_a_bad_frame_is_let_go(rt: HostRuntime) -> Result<(), Fail> {
    // the frame, the turn of its reply, that reply, three pieces and a pause, the end
    is_bad(&rt, rt.alloc(), IN_PIECES, 62, 800)
}

#[test]
fn who_sends_on_after_a_bad_frame_is_ended(rt: HostRuntime) -> Result<(), Fail> {
    // shut after 300 milliseconds, ended more than 2,000 later, a byte in each of the rounds 4 to 24
    is_bad(&rt, rt.alloc(), WITHOUT_END, 25, 2_400)
}

#[test]
fn a_link_that_breaks_after_a_bad_frame_is_no_other_end(rt: HostRuntime) -> Result<(), Fail> {
    is_bad(&rt, rt.alloc(), BROKEN, 10, 400)
}
