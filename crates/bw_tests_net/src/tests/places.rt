//! More recorders than places, or than are wanted.
use crate::tests::compare::same;
use crate::tests::play::{
    OTHERS, QUICK, QUICK_OTHER, Received, VERDICTS, bounds, is_over, is_reported, serve,
};
use crate::tests::scripted_reactor::{Plan, Visit};
use bw_console::Exit;
use std::alloc::Global;
use std::process::Abort;
use std::test::Fail;

const THREE_VISITS: &[Visit] = &[QUICK, QUICK_OTHER, QUICK];

/// Serves the three at so many places, until so many have been served.
fn serve_three(alloc: Global, places: usize, exchanges: u64) -> Result<Received, Fail> {
    let plan = Plan::over(THREE_VISITS, 10, 100);
    serve(alloc, &bounds(places, exchanges, 60_000), plan)
}

/// Compares in which round the one with this number was let in, and at which place.
fn is_let_in(rt: &impl Abort, received: &Received, number: usize, round_and_place: (u64, usize)) {
    let found = received.scripted_reactor.round_and_place(number);
    same(rt, "the round and the place", &found, &round_and_place);
}

#[test]
fn the_next_is_let_in_where_a_place_is_free(rt: HostRuntime) -> Result<(), Fail> {
    let received = serve_three(rt.alloc(), 1, 3)?;
    let lines = b"exchange 0 EndOfInput\nexchange 1 Bye\nexchange 2 EndOfInput\n";
    is_over(&rt, &received, Exit::Done, lines);
    is_reported(&rt, &received, 1, OTHERS);
    is_reported(&rt, &received, 2, VERDICTS);
    // each is over in its third round, in which its replies are sent
    is_let_in(&rt, &received, 1, (4, 0));
    is_let_in(&rt, &received, 2, (7, 0));
    Ok(())
}

#[test]
fn no_more_are_let_in_than_are_wanted(rt: HostRuntime) -> Result<(), Fail> {
    let received = serve_three(rt.alloc(), 4, 2)?;
    is_over(
        &rt,
        &received,
        Exit::Done,
        b"exchange 0 EndOfInput\nexchange 1 Bye\n",
    );
    same(
        &rt,
        "how many came",
        &received.scripted_reactor.let_in(),
        &2,
    );
    is_let_in(&rt, &received, 1, (1, 1));
    Ok(())
}

#[test]
fn nobody_is_waited_for_where_none_is_wanted(rt: HostRuntime) -> Result<(), Fail> {
    let received = serve_three(rt.alloc(), 4, 0)?;
    is_over(&rt, &received, Exit::Done, b"");
    same(&rt, "the time", &received.scripted_reactor.time(), &0);
    Ok(())
}
