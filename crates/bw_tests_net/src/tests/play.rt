//! The bytes of worked takes, and runs over them.
use crate::tests::compare::same;
use crate::tests::scripted::{Give, Take};
use crate::tests::scripted_reactor::{Comes, Plan, ScriptedReactor, Visit};
use bw_console::Exit;
use bw_exchange::Metered;
use bw_layout::Limit;
use bw_model::Name;
use bw_operators::AllowList;
use bw_serve::{Bounds, Terms, run_event_loop};
use bw_session::Server;
use bw_store::MemoryStore;
use bw_stream::MemorySink;
use bw_tests_format::two_frames;
use std::alloc::Global;
use std::process::Abort;
use std::test::Fail;

/// OPEN 0 (48,000 Hz, one channel, 16 bits), BLOCK 1 with two frames, CLOSE 2 with the total 2,
/// each after its length: 22, 16 and 20 bytes.
pub(crate) const TAKE: &[u8] = b"\x12\0\0\0\x01\x02a1\0\0\0\0\x80\xbb\0\0\x01\0\x10\0\0\0\
    \x0c\0\0\0\x02\x02a1\x01\0\0\0\x01\0\x02\0\
    \x10\0\0\0\x05\x02a1\x02\0\0\0\x02\0\0\0\0\0\0\0";

/// The verdicts that all three are stored, 13 bytes each.
pub(crate) const VERDICTS: &[u8] = b"\x09\0\0\0\x81\x02a1\0\0\0\0\0\
    \x09\0\0\0\x81\x02a1\x01\0\0\0\0\
    \x09\0\0\0\x81\x02a1\x02\0\0\0\0";

/// The verdict of OPEN 0.
pub(crate) const FIRST: &[u8] = b"\x09\0\0\0\x81\x02a1\0\0\0\0\0";

/// The same take under the name `b2`, and the frame that ends an exchange.
pub(crate) const OTHER: &[u8] = b"\x12\0\0\0\x01\x02b2\0\0\0\0\x80\xbb\0\0\x01\0\x10\0\0\0\
    \x0c\0\0\0\x02\x02b2\x01\0\0\0\x01\0\x02\0\
    \x10\0\0\0\x05\x02b2\x02\0\0\0\x02\0\0\0\0\0\0\0\
    \x01\0\0\0\x09";

/// The verdicts of its three requests.
pub(crate) const OTHERS: &[u8] = b"\x09\0\0\0\x81\x02b2\0\0\0\0\0\
    \x09\0\0\0\x81\x02b2\x01\0\0\0\0\
    \x09\0\0\0\x81\x02b2\x02\0\0\0\0";

/// The verdict of its OPEN 0.
pub(crate) const OTHERS_FIRST: &[u8] = b"\x09\0\0\0\x81\x02b2\0\0\0\0\0";

/// Takes all that it is offered.
pub(crate) const ALL: &[Take] = &[Take::Bytes(4096)];

/// A peer that sends `TAKE` at once.
pub(crate) const QUICK: Visit = Visit(1, Comes::Peer(TAKE, &[Give::Bytes(58)], ALL));

/// A peer that sends `OTHER` at once.
pub(crate) const QUICK_OTHER: Visit = Visit(1, Comes::Peer(OTHER, &[Give::Bytes(63)], ALL));

/// At most so many connections at once and in all, each of them silent for so many milliseconds.
pub(crate) fn bounds(places: usize, exchanges: u64, idle: u64) -> Bounds {
    Bounds {
        places,
        exchanges,
        idle,
    }
}

/// The outcome of a run.
#[derive(Drop)]
pub(crate) struct Received {
    pub(crate) exit: Exit,
    pub(crate) out: Vec<u8>,
    pub(crate) faults: Vec<u8>,
    pub(crate) scripted_reactor: ScriptedReactor,
    pub(crate) server: Metered<Server<MemoryStore>>,
}

/// Serves an event loop with a new server over an empty store in memory, if there is memory for
/// one.
pub(crate) fn try_serve(alloc: Global, bounds: &Bounds, log: bool, plan: Plan) -> Option<Received> {
    let Ok(server) = Server::new(alloc, MemoryStore::new(alloc), Limit::default()) else {
        return None;
    };
    let mut server = Metered::new(server);
    let mut scripted_reactor = ScriptedReactor::new(alloc, plan);
    let mut out = MemorySink::new(Vec::new(alloc));
    let mut faults = MemorySink::new(Vec::new(alloc));
    let allow = AllowList::everyone();
    let terms = Terms {
        alloc,
        bounds: *bounds,
        allow: &allow,
        log,
    };
    let exit = run_event_loop(
        &terms,
        &mut server,
        &mut scripted_reactor,
        &mut out,
        &mut faults,
    );
    Some(Received {
        exit,
        out: out.into_bytes(),
        faults: faults.into_bytes(),
        scripted_reactor,
        server,
    })
}

/// The same with ample memory and without a log.
pub(crate) fn serve(alloc: Global, bounds: &Bounds, plan: Plan) -> Result<Received, Fail> {
    Ok(try_serve(alloc, bounds, false, plan).ok_or("memory")?)
}

/// The same with a log.
pub(crate) fn serve_logged(alloc: Global, bounds: &Bounds, plan: Plan) -> Result<Received, Fail> {
    Ok(try_serve(alloc, bounds, true, plan).ok_or("memory")?)
}

/// Compares how a run ended and what it printed.
pub(crate) fn is_over(rt: &impl Abort, received: &Received, exit: Exit, lines: &[u8]) {
    same(rt, "the exit", &received.exit, &exit);
    assert!(rt; received.out.as_slice() == lines, "other lines");
}

/// Compares the log of a run.
pub(crate) fn is_logged(rt: &impl Abort, received: &Received, lines: &[u8]) {
    assert!(rt; received.faults.as_slice() == lines, "another log");
}

/// Compares the replies to the one with this number.
pub(crate) fn is_reported(rt: &impl Abort, received: &Received, number: usize, replies: &[u8]) {
    assert!(rt;
        received.scripted_reactor.has_taken(number, replies),
        "other replies to {number}"
    );
}

/// Compares the file under a name with the file of two frames.
pub(crate) fn has_file(
    rt: &impl Abort,
    alloc: Global,
    received: &Received,
    name: &[u8],
) -> Result<(), Fail> {
    let file = two_frames(alloc)?;
    let name = Name::new(name).ok_or("a name")?;
    assert!(rt;
        received.server.server().store().content(&name) == Some(file.as_slice()),
        "another file"
    );
    Ok(())
}
