//! Recorders that are served at once.
use crate::tests::play::{
    ALL, OTHER, OTHERS, TAKE, VERDICTS, bounds, has_file, is_over, is_reported, serve,
};
use crate::tests::scripted::{Give, Take};
use crate::tests::scripted_reactor::{Comes, Plan, Visit};
use bw_console::Exit;
use std::test::Fail;

/// Each sends a byte at a time; the first takes its replies a byte at a time too.
const IN_BYTES: &[Visit] = &[
    Visit(1, Comes::Peer(TAKE, &[Give::Bytes(1)], &[Take::Bytes(1)])),
    Visit(1, Comes::Peer(OTHER, &[Give::Bytes(1)], ALL)),
];

#[test]
fn two_are_served_byte_by_byte(rt: HostRuntime) -> Result<(), Fail> {
    let plan = Plan::over(IN_BYTES, 10, 1_000);
    let received = serve(rt.alloc(), &bounds(2, 2, 60_000), plan)?;
    is_over(
        &rt,
        &received,
        Exit::Done,
        b"exchange 0 Bye\nexchange 1 EndOfInput\n",
    );
    is_reported(&rt, &received, 0, VERDICTS);
    is_reported(&rt, &received, 1, OTHERS);
    has_file(&rt, rt.alloc(), &received, b"a1")?;
    has_file(&rt, rt.alloc(), &received, b"b2")?;
    Ok(())
}
