//! A run of many exchanges at once.
ghost use Rattle.std.specs.Prelude.{◌≡◌, ◌≤◌, IfOk, OnOk, OnErr};
ghost use Rattle.bw_stream.specs.Moves.{failures_after, one_more};
ghost use Rattle.bw_connections.specs.Places.{begun_of};
ghost use Rattle.bw_serve.specs.EventLoops.{HasPeerSlots};
ghost use Rattle.bw_serve.specs.Observations.{ObservesRun};
ghost use Rattle.bw_serve.specs.Rounds.{IsShut, ServesRoundTo, goes_on_after, patience_of};
ghost use Rattle.bw_serve.specs.EventLoopRuns.{RunsEventLoop};
ghost use Rattle.bw_serve.specs.Guards.{guarded_answers};
ghost use Rattle.bw_exchange.specs.MeteredServers.{metered_server};

use crate::event_loop::{EventLoop, Round, Shut};
use crate::observing::{NoRoundObserver, RoundObserver};
use bw_console::Exit;
use bw_exchange::{Metered, NotKept, Turns};
use bw_operators::AllowList;
use bw_ports::Reactor;
use bw_stream::Sink;
use std::alloc::Global;

/// The longest wait, in milliseconds: a silent connection may be ended this much later than its
/// time.
const LONGEST_WAIT: u64 = 250;

/// How many exchanges are served, how many at once, and how long a connection may be silent.
#[derive(Clone, Copy, Debug, PartialEq, Eq)]
pub struct Bounds {
    /// How many at once; with 0, nobody is ever accepted.
    pub places: usize,
    /// How many in all.
    pub exchanges: u64,
    /// A connection of which no frame was answered for longer than this, in milliseconds, is ended.
    pub idle: u64,
}

/// What a run of many exchanges at once is given.
#[derive(Clone, Copy)]
pub struct Terms<'a> {
    /// Where its memory comes from.
    pub alloc: Global,
    /// How many exchanges are served, how many at once, and how long a connection may be silent.
    pub bounds: Bounds,
    /// Which names may come from which addresses.
    pub allow: &'a AllowList,
    /// Whether each connection that is over is a line on `faults` too.
    pub log: bool,
}

/// Serves a number of exchanges, many at once, and prints the line `exchange INDEX END` for each as
/// it ends.
///
/// While there is no free place nobody is accepted; a connection that sends no whole frame for too
/// long is ended. `Done` after the last one; `Memory` if memory was refused before the first;
/// `Device` if no more peers are accepted, if waiting is impossible, if a sync failed in a commit, or
/// after 2^64 - 1 rounds.
///
/// Each link that the reactor gives is at the place for which it was given, or over; one for which
/// memory is refused is closed and counted.
///
/// A message whose name `allow` doesn't allow from its peer's address is answered `TableFull`, and
/// an ask `Next`, both with next 0, and the server isn't given it.
///
/// With `log` each connection that is over is a line on `faults` too: `peer ADDRESS names NAME..
/// end END messages N bytes N`, with the first eight names of its messages. If memory is refused
/// for the line, it is left out.
///
/// # Not specified
/// - That each was reported under its own place.
/// - When memory is refused.
/// - With `log`, when a line is missing.
pub fn run_event_loop<B: Reactor, T: Turns, O: Sink, E: Sink>(
    terms: &Terms<'_>,
    server: &mut Metered<T>,
    reactor: &mut B,
    out: &mut O,
    faults: &mut E,
) -> Exit
    requires { T.committed (metered_server server.old) }
    // A round: a wait of 250 ms at most, new peers at free places, a quantum a place, a commit.
    ensures { RunsEventLoop B.Reactor B.Link.Link (guarded_answers T.answers terms.now.allow.now) T.commits
        O.Sink E.Sink terms.now.log terms.now.bounds result (metered_server server.old)
        (metered_server server.new) reactor.old reactor.new out.old out.new faults.old faults.new }
{
    let observer = &mut NoRoundObserver;
    run_observed(terms, server, reactor, observer, out, faults)
}

/// The same, while an observer is shown the server after each round that ended well.
pub fn run_observed<B: Reactor, T: Turns, V: RoundObserver<T>, O: Sink, E: Sink>(
    terms: &Terms<'_>,
    server: &mut Metered<T>,
    reactor: &mut B,
    observer: &mut V,
    out: &mut O,
    faults: &mut E,
) -> Exit
    requires { T.committed (metered_server server.old) }
    ensures runs { RunsEventLoop B.Reactor B.Link.Link (guarded_answers T.answers terms.now.allow.now)
        T.commits O.Sink E.Sink terms.now.log terms.now.bounds result (metered_server server.old)
        (metered_server server.new) reactor.old reactor.new out.old out.new faults.old faults.new }
    // Nothing else happens to the observer.
    ensures observed { ObservesRun B.Reactor B.Link.Link (guarded_answers T.answers terms.now.allow.now)
        T.commits O.Sink E.Sink terms.now.log V.looks terms.now.bounds result (metered_server server.old)
        (metered_server server.new) reactor.old reactor.new out.old out.new faults.old faults.new observer.old
        observer.new }
{
    let Ok(mut event_loop) = EventLoop::new(terms.alloc, terms.bounds.places) else {
        return Exit::Memory;
    };
    bw_connections::laws::law_connections::<B::Link>();
    for _round in 0..u64::MAX {
        if event_loop.ended() >= terms.bounds.exchanges {
            return Exit::Done;
        }
        let Ok(kept) = serve_round(terms, &mut event_loop, server, reactor, out, faults) else {
            return Exit::Device;
        };
        event_loop.show(server, observer);
        if !may_go_on(kept) {
            return Exit::Device;
        }
    }
    Exit::Device
}

/// Whether a server may go on after this commit: after a sync that failed it isn't known what the
/// system keeps.
fn may_go_on(kept: Result<(), NotKept>) -> bool
    ensures { result ≡ goes_on_after kept }
{
    match kept {
        Ok(()) => true,
        Err(NotKept::WriteFault) => true,
        Err(NotKept::SyncFault) => false,
    }
}

/// The longest wait in milliseconds, by whether a connection can proceed.
fn patience(can_go_on: bool) -> u64
    ensures { result ≡ patience_of can_go_on }
{
    if can_go_on { 0 } else { LONGEST_WAIT }
}

/// Waits until a peer connects or a connection is ready, gives each connection a quantum, and has
/// the server commit what it answered. Returns what the commit did.
///
/// # Errors
/// `Shut` if no more peers are accepted, or waiting is impossible.
fn serve_round<B: Reactor, T: Turns, O: Sink, E: Sink>(
    terms: &Terms<'_>,
    event_loop: &mut EventLoop<B::Link>,
    server: &mut Metered<T>,
    reactor: &mut B,
    out: &mut O,
    faults: &mut E,
) -> Result<Result<(), NotKept>, Shut>
    requires committed { T.committed (metered_server server.old) }
    requires begun { begun_of event_loop.old.connections ≤ terms.now.bounds.exchanges }
    requires peer_slots { HasPeerSlots event_loop.old }
    ensures round { IfOk result (λ kept. ServesRoundTo B.Reactor B.Link.Link
        (guarded_answers T.answers terms.now.allow.now) T.commits O.Sink E.Sink terms.now.log kept
        terms.now.bounds.idle terms.now.bounds.exchanges event_loop.old event_loop.new
        (metered_server server.old) (metered_server server.new) reactor.old reactor.new out.old out.new
        faults.old faults.new) }
    ensures shut { OnErr result (IsShut B.Reactor B.Link.Link event_loop.old event_loop.new
        (metered_server server.old) (metered_server server.new) reactor.old reactor.new out.old out.new
        faults.old faults.new) }
    ensures committed { T.committed (metered_server server.new) }
    ensures begun { begun_of event_loop.new.connections ≤ terms.now.bounds.exchanges }
    ensures count { B.failures reactor.new ≡ failures_after result (B.failures reactor.old) }
    ensures waits { OnOk result (B.waits reactor.new ≡ one_more (B.waits reactor.old)) }
    ensures peer_slots { HasPeerSlots event_loop.new }
{
    let Ok(()) = reactor.wait(patience(event_loop.can_go_on())) else {
        return Err(Shut);
    };
    event_loop.notice(reactor);
    let now = reactor.now();
    event_loop.welcome(reactor, terms.bounds.exchanges, now)?;
    let round = Round {
        time: now,
        idle: terms.bounds.idle,
        allow: terms.allow,
        log: terms.log,
    };
    event_loop.serve_each(server, &round, out, faults);
    Ok(event_loop.commit(server, terms.log, out, faults))
}
