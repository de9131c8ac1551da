//! The log lines of recorders that are served at once.
use crate::tests::play::{
    ALL, OTHER, QUICK, QUICK_OTHER, bounds, is_logged, is_over, serve, serve_logged,
};
use crate::tests::scripted::{Give, Take};
use crate::tests::scripted_reactor::{Comes, Plan, Visit};
use bw_console::Exit;
use std::test::Fail;

/// OPEN 0 and BLOCK 1 under `a1`, with bodies of 18 and 12 bytes.
const TWO_REQUESTS: &[u8] = b"\x12\0\0\0\x01\x02a1\0\0\0\0\x80\xbb\0\0\x01\0\x10\0\0\0\
    \x0c\0\0\0\x02\x02a1\x01\0\0\0\x01\0\x02\0";

/// OPEN 0 under `c3`, with a body of 18 bytes.
const ONE_REQUEST: &[u8] = b"\x12\0\0\0\x01\x02c3\0\0\0\0\x80\xbb\0\0\x01\0\x10\0\0\0";

/// The first sends a byte at a time, and takes its replies so: it is through in more than 60 rounds.
/// The second, whose three bodies are of 18, 12 and 16 bytes, sends two at a time, in 36 rounds. The
/// third falls silent after its first frame, in the first round.
const BESIDE_EACH_OTHER: &[Visit] = &[
    Visit(
        1,
        Comes::Peer(TWO_REQUESTS, &[Give::Bytes(1)], &[Take::Bytes(1)]),
    ),
    Visit(1, Comes::Peer(OTHER, &[Give::Bytes(2)], ALL)),
    Visit(
        1,
        Comes::Peer(ONE_REQUEST, &[Give::Bytes(22), Give::Nothing], ALL),
    ),
];

/// The third is ended in round 53; no frame takes more than 29 rounds.
fn slowly() -> Plan {
    Plan::over(BESIDE_EACH_OTHER, 40, 1_000)
}

#[test]
fn each_is_reported_of_with_its_own_messages(rt: HostRuntime) -> Result<(), Fail> {
    let received = serve_logged(rt.alloc(), &bounds(3, 3, 2_000), slowly())?;
    is_over(
        &rt,
        &received,
        Exit::Done,
        b"exchange 0 Bye\nexchange 1 Idle\nexchange 2 EndOfInput\n",
    );
    is_logged(
        &rt,
        &received,
        b"peer 127.0.0.1:4101 names b2 end Bye messages 3 bytes 46\n\
        peer 127.0.0.1:4102 names c3 end Idle messages 1 bytes 18\n\
        peer 127.0.0.1:4100 names a1 end EndOfInput messages 2 bytes 30\n",
    );
    Ok(())
}

#[test]
fn no_one_is_reported_of_without_a_log(rt: HostRuntime) -> Result<(), Fail> {
    let received = serve(rt.alloc(), &bounds(3, 3, 2_000), slowly())?;
    is_logged(&rt, &received, b"");
    Ok(())
}

const AFTER_EACH_OTHER: &[Visit] = &[QUICK, QUICK_OTHER];

#[test]
fn the_next_at_a_place_is_counted_anew(rt: HostRuntime) -> Result<(), Fail> {
    let plan = Plan::over(AFTER_EACH_OTHER, 10, 100);
    let received = serve_logged(rt.alloc(), &bounds(1, 2, 60_000), plan)?;
    is_logged(
        &rt,
        &received,
        b"peer 127.0.0.1:4100 names a1 end EndOfInput messages 3 bytes 46\n\
        peer 127.0.0.1:4101 names b2 end Bye messages 3 bytes 46\n",
    );
    Ok(())
}
