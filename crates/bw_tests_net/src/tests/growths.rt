//! Memory that is refused to an event loop.
use crate::tests::play::{OTHERS, QUICK, QUICK_OTHER, Received, VERDICTS, bounds, try_serve};
use crate::tests::scripted_reactor::{Plan, Visit};
use bw_model::Name;
use bw_tests_format::two_frames;
use std::alloc::Global;
use std::process::Abort;
use std::test::Fail;

const BOTH: &[Visit] = &[QUICK, QUICK_OTHER];

/// Run once more with each growth refused, by `tests/test_refused_calls.py --tests`.
#[test]
fn what_was_reported_stands_where_a_growth_is_refused(rt: HostRuntime) -> Result<(), Fail> {
    let plan = Plan::over(BOTH, 10, 100);
    if let Some(received) = try_serve(rt.alloc(), &bounds(2, 2, 100), true, plan) {
        assert!(&rt;
            stands(rt.alloc(), &received, b"a1", VERDICTS),
            "another file a1"
        );
        assert!(&rt;
            stands(rt.alloc(), &received, b"b2", OTHERS),
            "another file b2"
        );
    }
    Ok(())
}

/// Whether the file of two frames is under a name, if it was reported to a peer that all of it is stored.
fn stands(alloc: Global, received: &Received, name: &[u8], verdicts: &[u8]) -> bool {
    if !received.scripted_reactor.has_taken(0, verdicts)
        && !received.scripted_reactor.has_taken(1, verdicts)
    {
        return true;
    }
    // if the refused growth is this one's, the run met none
    let (Some(name), Ok(file)) = (Name::new(name), two_frames(alloc)) else {
        return true;
    };
    received.server.server().store().content(&name) == Some(file.as_slice())
}
