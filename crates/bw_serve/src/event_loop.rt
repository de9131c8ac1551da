//! An event loop: many connections, as they come and end.
ghost use Rattle.std.specs.Prelude.{◌≡◌, ◌+◌, ◌≤◌, ◌<◌, ℕ, List, [], ◌∷◌, vec_len, IfOk};
ghost use Rattle.std.specs.Prelude.{OnOk, is_some, not, ◌&&◌};
ghost use Rattle.bw_stream.specs.Moves.{failures_after};
ghost use Rattle.bw_exchange.specs.MeteredServers.{metered_server};

use crate::end_counts::EndCounts;
use crate::guarded::{Gate, PeerQuantum, work_guarded};
use crate::line::print_end;
use crate::observing::{RoundObserver, RoundReport};
use crate::peer_slot::{PeerSlot, address_at, empty_peer_slots, put_at, report_at, swap_at};
use bw_connections::{Closed, Connections};
use bw_exchange::{MESSAGE_PIECE, Metered, NotKept, Turns};
use bw_operators::AllowList;
use bw_ports::{Accepted, Link, Reactor, TryAcceptFault};
use bw_stream::Sink;
use std::alloc::{AllocError, Global};

/// No more peers are accepted.
#[derive(Clone, Copy, Debug, PartialEq, Eq, Drop)]
pub(crate) struct Shut;

/// What each quantum of a round is given.
#[derive(Clone, Copy)]
pub(crate) struct Round<'a> {
    /// The time, in milliseconds.
    pub(crate) time: u64,
    /// After how many milliseconds without an answered frame a connection is ended.
    pub(crate) idle: u64,
    /// Which names may come from which addresses.
    pub(crate) allow: &'a AllowList,
    /// Whether each connection that is over is a line on `faults` too.
    pub(crate) log: bool,
}

/// Many connections, the peer at each place, and how many have ended.
#[derive(Drop)]
pub(crate) struct EventLoop<L> {
    alloc: Global,
    connections: Connections<L>,
    /// One for each place.
    peer_slots: Vec<PeerSlot>,
    /// Each quantum reads into it.
    buffer: Vec<u8>,
    /// Stays at 2^64 - 1.
    ended: u64,
    ended_by: EndCounts,
    /// How many messages and asks were turned away; it stays at 2^64 - 1.
    turned_away: u64,
}

impl<L: Link + Drop> EventLoop<L> {
    ghost use Rattle.bw_connections.specs.ConnectionTables.{IsFree};
    ghost use Rattle.bw_connections.specs.Places.{begun_of, connection_count, expired_there, rests_at};
    ghost use Rattle.bw_serve.specs.Admissions.{Admits};
    ghost use Rattle.bw_serve.specs.EventLoops.{CountsEnds, Grows, HasPeerSlots, IsNew, InTurn};
    ghost use Rattle.bw_serve.specs.EventLoops.{LetsIn, Withholds, WithholdsAt, WithholdsUnkept};
    ghost use Rattle.bw_model.specs.Wire.{Frame};
    ghost use Rattle.bw_model.specs.Replies.{Reply as ModelReply};
    ghost use Rattle.bw_serve.specs.EventLoops.{ServesPlace, KeepsEventLoop, WorksCounted};
    ghost use Rattle.bw_serve.specs.EventLoops.{can_go_on_in};
    ghost use Rattle.bw_serve.specs.Guards.{guarded_answers};
    ghost use Rattle.bw_serve.specs.Observations.{LooksAtRound};
    ghost use Rattle.bw_serve.specs.Rounds.{AsksIn, NoticesAll, Welcomes};
    ghost use Rattle.bw_ports.specs.Reactors.{Admission};
    ghost use Rattle.bw_serve.specs.PeerSlots.{LogsAt};
    ghost use Rattle.bw_ports.specs.declared.reactor.Ready.{Ready};

    /// Creates `places` free places, and the buffer of their quanta.
    ///
    /// # Errors
    /// `AllocError` if memory was refused.
    pub(crate) fn new(alloc: Global, places: usize) -> Result<EventLoop<L>, AllocError>
        ensures { IfOk result (IsNew L.Link places) }
    {
        Ok(EventLoop {
            alloc,
            connections: Connections::new(alloc, places)?,
            peer_slots: empty_peer_slots(alloc, places)?,
            buffer: Vec::from_elem(alloc, 0u8, MESSAGE_PIECE)?,
            ended: 0,
            ended_by: EndCounts::new(),
            turned_away: 0,
        })
    }

    /// How many connections have ended.
    pub(crate) fn ended(&self) -> u64
        ensures { result ≡ self.now.ended }
    {
        self.ended
    }

    /// Whether a connection can proceed before its link has more bytes, or room.
    pub(crate) fn can_go_on(&self) -> bool
        ensures { result ≡ can_go_on_in self.now }
    {
        for place in 0..self.connections.places() {
            if self.connections.can_go_on(place) {
                return true;
            }
        }
        false
    }

    /// Shows an observer the server, and what the event loop is.
    pub(crate) fn show<T, V: RoundObserver<T>>(&self, server: &Metered<T>, observer: &mut V)
        ensures { LooksAtRound V.looks self.now (metered_server server.now) observer.old
            observer.new }
    {
        let round = RoundReport {
            places: self.connections.places(),
            connections: self.connections.begun().saturating_sub(self.ended),
            ended: self.ended,
            ended_by: self.ended_by,
            turned_away: self.turned_away,
            peers: self.peer_slots.as_slice(),
        };
        observer.look(server.server(), &round);
    }

    /// Notes which links are ready.
    pub(crate) fn notice<B: Reactor>(&mut self, reactor: &mut B)
        ensures stays { KeepsEventLoop L.Link self.old self.new }
        ensures failures { B.failures reactor.new ≡ B.failures reactor.old }
        ensures waits { B.waits reactor.new ≡ B.waits reactor.old }
        ensures patience { B.patience reactor.new ≡ B.patience reactor.old }
        ensures notices { NoticesAll B.Reactor reactor.old reactor.new self.old self.new }
        ensures tried { (n : ℕ) → B.tried reactor.old n → B.tried reactor.new n }
        ensures admitted { (xs : List (Admission B.Link)) → B.admitted reactor.old xs →
            B.admitted reactor.new xs }
    {
        for _place in 0..=self.connections.places() {
            let Some(ready) = reactor.next_ready() else {
                return;
            };
            self.connections
                .wake(ready.place, ready.readable, ready.writable);
        }
    }

    /// Accepts peers as long as there are free places, and no more than `exchanges` in all.
    ///
    /// # Errors
    /// `Shut` if no more are accepted.
    pub(crate) fn welcome<B: Reactor<Link = L>>(
        &mut self,
        reactor: &mut B,
        exchanges: u64,
        now: u64,
    ) -> Result<(), Shut>
        requires begun { begun_of self.old.connections ≤ exchanges }
        requires peer_slots { HasPeerSlots self.old }
        ensures grows { Grows L.Link self.old self.new }
        ensures lets_in { LetsIn now self.old self.new }
        ensures welcomes { Welcomes B.Reactor now reactor.old reactor.new self.old self.new }
        ensures most { begun_of self.new.connections ≤ exchanges }
        ensures count { B.failures reactor.new ≡ failures_after result (B.failures reactor.old) }
        ensures waits { B.waits reactor.new ≡ B.waits reactor.old }
        ensures time { B.time reactor.new ≡ B.time reactor.old }
        ensures patience { B.patience reactor.new ≡ B.patience reactor.old }
        ensures reported { (rs : List Ready) → B.reported reactor.old rs → B.reported reactor.new rs }
        ensures all_reported { B.all_reported reactor.old → B.all_reported reactor.new }
        ensures asks { OnOk result
            (B.tried reactor.old 0 → AsksIn B.Reactor exchanges reactor.new self.new) }
    {
        for _peer in 0..self.connections.places() {
            if self.connections.begun() >= exchanges {
                return Ok(());
            }
            let Some(place) = self.connections.free_place() else {
                return Ok(());
            };
            match reactor.accept(place) {
                Ok(accepted) => self.put_peer(place, accepted, now),
                Err(TryAcceptFault::Nobody) => return Ok(()),
                Err(TryAcceptFault::Gone) => {}
                Err(TryAcceptFault::Closed) => return Err(Shut),
            }
        }
        Ok(())
    }

    /// Puts an accepted peer at a free place. If memory is refused, its link is closed and counted;
    /// the peer may connect again.
    fn put_peer(&mut self, place: usize, accepted: Accepted<L>, now: u64)
        requires free { IsFree self.old.connections place }
        requires place { place < vec_len self.old.peer_slots }
        requires given { L.given accepted.link [] }
        requires taken { L.taken accepted.link [] }
        requires peer { L.calls_from accepted.link accepted.address }
        ensures grows { Grows L.Link self.old self.new }
        ensures lets_in { LetsIn now self.old self.new }
        ensures admits { Admits now place accepted.link self.old self.new }
        ensures most { begun_of self.new.connections ≤ begun_of self.old.connections + 1 }
    {
        let Accepted { address, link } = accepted;
        // nothing is counted yet of the new peer at a place
        put_at(&mut self.peer_slots, place, PeerSlot::new(address));
        let _refused = self.connections.begin(self.alloc, place, link, now);
    }

    /// One quantum of each connection, in the order of their places. What they hold then is hashed
    /// ahead over all of them, before the next round answers it.
    pub(crate) fn serve_each<T: Turns, O: Sink, E: Sink>(
        &mut self,
        server: &mut Metered<T>,
        round: &Round<'_>,
        out: &mut O,
        faults: &mut E,
    )
        requires peer_slots { HasPeerSlots self.old }
        ensures in_turn { InTurn L.Link (guarded_answers T.answers round.now.allow.now) O.Sink E.Sink
            round.now.log round.now.time round.now.idle (connection_count self.old.connections) self.old
            self.new (metered_server server.old) (metered_server server.new) out.old out.new faults.old
            faults.new }
    {
        for place in 0..self.connections.places() {
            self.serve_place(place, server, round, out, faults);
        }
        self.connections.hash_ahead();
    }

    /// One quantum of the connection at a place, which may end in it, or because it was silent too
    /// long.
    fn serve_place<T: Turns, O: Sink, E: Sink>(
        &mut self,
        place: usize,
        server: &mut Metered<T>,
        round: &Round<'_>,
        out: &mut O,
        faults: &mut E,
    )
        requires place { place < connection_count self.old.connections }
        requires peer_slots { HasPeerSlots self.old }
        ensures { ServesPlace L.Link (guarded_answers T.answers round.now.allow.now) O.Sink E.Sink
            round.now.log round.now.time round.now.idle place self.old self.new (metered_server server.old)
            (metered_server server.new) out.old out.new faults.old faults.new }
    {
        // of most places, in most rounds: nothing is moved there and back
        if self.is_at_rest(place, round) {
            return;
        }
        if let Some(closed) = self.work(place, server, round) {
            self.end(place, closed, round.log, out, faults);
            return;
        }
        let Some(closed) = self.connections.expire(place, round.time, round.idle) else {
            return;
        };
        self.end(place, closed, round.log, out, faults);
    }

    /// Whether a quantum of the connection at a place would change nothing, and it isn't silent too
    /// long.
    fn is_at_rest(&self, place: usize, round: &Round<'_>) -> bool
        ensures { result ≡ rests_at self.now.connections place
            && not (is_some (expired_there round.now.time round.now.idle self.now.connections place)) }
    {
        self.connections.rests(place) && !self.connections.expires(place, round.time, round.idle)
    }

    /// Has the server commit what it answered in the round, before any of it leaves. If a write
    /// fails, each connection over which replies wait is ended without them.
    ///
    /// # Errors
    /// `NotKept` as the server says.
    pub(crate) fn commit<T: Turns, O: Sink, E: Sink>(
        &mut self,
        server: &mut Metered<T>,
        log: bool,
        out: &mut O,
        faults: &mut E,
    ) -> Result<(), NotKept>
        requires peer_slots { HasPeerSlots self.old }
        ensures commits { T.commits (metered_server server.old) result (metered_server server.new) }
        ensures withholds { WithholdsUnkept L.Link O.Sink E.Sink log result self.old self.new out.old
            out.new faults.old faults.new }
        ensures committed { T.committed (metered_server server.new) }
        ensures idle { T.committed (metered_server server.old) →
            metered_server server.new ≡ metered_server server.old }
        ensures answered { (first : T) (frame : Frame) (replies : List ModelReply) →
            T.answers first frame replies (metered_server server.old) →
            T.answers first frame replies (metered_server server.new) }
    {
        match server.commit_server() {
            Ok(()) => Ok(()),
            Err(NotKept::WriteFault) => {
                self.withhold_each(log, out, faults);
                Err(NotKept::WriteFault)
            }
            Err(NotKept::SyncFault) => Err(NotKept::SyncFault),
        }
    }

    /// Ends each connection over which replies wait, in the order of their places.
    fn withhold_each<O: Sink, E: Sink>(&mut self, log: bool, out: &mut O, faults: &mut E)
        requires peer_slots { HasPeerSlots self.old }
        ensures { Withholds L.Link O.Sink E.Sink log (connection_count self.old.connections)
            self.old self.new out.old out.new faults.old faults.new }
    {
        for place in 0..self.connections.places() {
            self.withhold_place(place, log, out, faults);
        }
    }

    /// Ends the connection at a place if replies wait there.
    fn withhold_place<O: Sink, E: Sink>(
        &mut self,
        place: usize,
        log: bool,
        out: &mut O,
        faults: &mut E,
    )
        requires place { place < connection_count self.old.connections }
        requires peer_slots { HasPeerSlots self.old }
        ensures { WithholdsAt L.Link O.Sink E.Sink log place self.old self.new out.old out.new
            faults.old faults.new }
    {
        let Some(closed) = self.connections.withhold(place) else {
            return;
        };
        self.end(place, closed, log, out, faults);
    }

    /// One quantum of the connection at a place, whose messages are guarded by the list as those of
    /// its peer, and counted for it alone.
    fn work<T: Turns>(
        &mut self,
        place: usize,
        server: &mut Metered<T>,
        round: &Round<'_>,
    ) -> Option<Closed<L>>
        requires place { place < connection_count self.old.connections }
        requires peer_slots { HasPeerSlots self.old }
        ensures { WorksCounted L.Link (guarded_answers T.answers round.now.allow.now) place round.now.time
            result self.old self.new (metered_server server.old) (metered_server server.new) }
    {
        let quantum = PeerQuantum {
            place,
            time: round.time,
            gate: Gate {
                allow: round.allow,
                peer: address_at(&self.peer_slots, place),
            },
        };
        swap_at(&mut self.peer_slots, place, server);
        let buffer = self.buffer.as_mut_slice();
        // a connection takes no longer pieces
        let room = buffer.len().min(MESSAGE_PIECE);
        let closed = work_guarded(
            &mut self.connections,
            &quantum,
            server,
            &mut buffer[..room],
            &mut self.turned_away,
        );
        swap_at(&mut self.peer_slots, place, server);
        closed
    }

    /// Prints the line of the connection at a place, which is over, counts it by its cause, and logs
    /// it if a log is asked for. Its link is closed.
    fn end<O: Sink, E: Sink>(
        &mut self,
        place: usize,
        closed: Closed<L>,
        log: bool,
        out: &mut O,
        faults: &mut E,
    )
        requires { place < vec_len self.old.peer_slots }
        ensures connections { self.new.connections ≡ self.old.connections }
        ensures peer_slots { self.new.peer_slots ≡ self.old.peer_slots }
        ensures turned_away { self.new.turned_away ≡ self.old.turned_away }
        ensures counts { CountsEnds O.Sink self.old self.new (closed ∷ []) out.old out.new }
        ensures logs { LogsAt E.Sink log place closed.end self.old.peer_slots.items faults.old
            faults.new }
    {
        print_end(self.ended, closed.end, out);
        self.ended = self.ended.saturating_add(1);
        self.ended_by.count(closed.end);
        report_at(self.alloc, &self.peer_slots, place, closed.end, log, faults);
    }
}
