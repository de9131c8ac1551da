//! A server that is given only what its peer may say.
ghost use Rattle.std.specs.Prelude.{◌≡◌, ◌<◌, ◌≤◌, [], ◌∷◌, fold, map, length};
ghost use Rattle.std.specs.List.{All};
ghost use Rattle.bw_model.specs.Wire.{Says, Asks};
ghost use Rattle.bw_wire.specs.Frames.{message_of, asked_name, asked_number};
ghost use Rattle.bw_wire.specs.Replies.{reply_of, HasWireNumbers};
ghost use Rattle.bw_exchange.specs.AnsweredFrames.{answered_frames};
ghost use Rattle.bw_exchange.specs.MeteredServers.{AnswersCounted};
ghost use Rattle.bw_wire.specs.Held.{longest_message_piece};
ghost use Rattle.bw_connections.specs.Places.{connection_count};
ghost use Rattle.bw_connections.specs.Quanta.{WorksAt};
ghost use Rattle.bw_serve.specs.Guards.{Guarded, GuardedOverCommits, is_kept_out, turning_away};
ghost use Rattle.bw_serve.specs.GuardedServers.{metered_commits};
ghost use Rattle.bw_serve.specs.ServedOne.{ServesTo};

use crate::serving_one::{Ended, serve_link};
use arrayvec::ArrayVec;
use bw_connections::{Closed, Connections};
use bw_exchange::{Metered, NotKept, Turns};
use bw_operators::AllowList;
use bw_ports::{Duplex, Link};
use bw_stream::{Sink, Source};
use bw_wire::{Ask, Message, Notice, Reply};
use std::alloc::Global;
use std::net::SocketAddr;

/// A peer, and the list that says which names may come from it.
#[derive(Clone, Copy)]
pub(crate) struct Gate<'a> {
    pub(crate) allow: &'a AllowList,
    pub(crate) peer: SocketAddr,
}

impl Gate<'_> {
    /// Has a server answer the peer's message, or turns it away: then it is counted, and only
    /// reported to the server. Returns whether it was turned away.
    fn turn<T: Turns>(
        &self,
        server: &mut Metered<T>,
        message: &Message<'_>,
        replies: &mut ArrayVec<Reply, 17>,
    ) -> bool
        ensures answered { AnswersCounted (Guarded T.answers self.now.allow.now self.now.peer) server.old
            (Says (message_of message.now)) (map reply_of replies.new.items) server.new }
        ensures numbers { All HasWireNumbers replies.new.items }
        ensures away { result ≡ is_kept_out self.now.allow.now self.now.peer
            (Says (message_of message.now)) }
    {
        let name = message.name();
        if self.allow.allows(self.peer, &name) {
            server.turn(message, replies);
            return false;
        }
        server.count(message);
        server.note_refused(self.peer, &name);
        replies.clear();
        replies.push(Reply::Notice {
            name,
            number: message.number(),
            code: Notice::TableFull,
            next: 0,
        });
        true
    }

    /// Has a server answer the peer's ask, or answers that nothing came yet. Returns whether it was
    /// turned away, too.
    fn ask<T: Turns>(&self, server: &mut Metered<T>, ask: &Ask<'_>) -> (Reply, bool)
        ensures answered { AnswersCounted (Guarded T.answers self.now.allow.now self.now.peer) server.old
            (Asks (asked_name ask.now) (asked_number ask.now)) (reply_of result.0 ∷ []) server.new }
        ensures numbers { HasWireNumbers result.0 }
        ensures away { result.1 ≡ is_kept_out self.now.allow.now self.now.peer
            (Asks (asked_name ask.now) (asked_number ask.now)) }
    {
        let name = ask.name();
        if self.allow.allows(self.peer, &name) {
            return (server.ask(ask), false);
        }
        let reply = Reply::Notice {
            name,
            number: ask.number(),
            code: Notice::Next,
            next: 0,
        };
        (reply, true)
    }
}

/// A server in a quantum of its peer's connection. The event loop commits it after the round, before
/// any of these replies leaves: so nothing is committed here.
#[derive(Drop)]
pub(crate) struct GuardedQuantum<'a, T> {
    pub(crate) metered: &'a mut Metered<T>,
    pub(crate) gate: Gate<'a>,
    /// How many messages and asks were turned away; it stays at 2^64 - 1.
    pub(crate) turned_away: u64,
}

impl<T: Turns> Turns for GuardedQuantum<'_, T> {
    ghost use Rattle.bw_exchange.specs.Commits.{CommitsNothing};
    ghost use Rattle.bw_serve.specs.GuardedServers.{AnswersInQuantum};

    ghost answers = { AnswersInQuantum T.answers };

    ghost committed = { λ g. Unit {0} };

    ghost commits = { CommitsNothing };

    fn turn(&mut self, message: &Message<'_>, replies: &mut ArrayVec<Reply, 17>) {
        if self.gate.turn(self.metered, message, replies) {
            self.turned_away = self.turned_away.saturating_add(1);
        }
    }

    fn ask(&mut self, ask: &Ask<'_>) -> Reply {
        let (reply, is_away) = self.gate.ask(self.metered, ask);
        if is_away {
            self.turned_away = self.turned_away.saturating_add(1);
        }
        reply
    }

    fn commit(&mut self) -> Result<(), NotKept> {
        Ok(())
    }
}

/// A server in a whole exchange with a peer.
#[derive(Drop)]
pub(crate) struct GuardedExchange<'a, T> {
    pub(crate) metered: &'a mut Metered<T>,
    pub(crate) gate: Gate<'a>,
}

impl<T: Turns> Turns for GuardedExchange<'_, T> {
    ghost use Rattle.bw_exchange.specs.MeteredServers.{metered_server};
    ghost use Rattle.bw_serve.specs.GuardedServers.{AnswersInExchange, CommitsInExchange};

    ghost answers = { AnswersInExchange T.answers T.committed };

    ghost committed = { λ g. T.committed (metered_server g.metered.now) };

    ghost commits = { CommitsInExchange T.commits };

    fn turn(&mut self, message: &Message<'_>, replies: &mut ArrayVec<Reply, 17>) {
        let _is_away = self.gate.turn(self.metered, message, replies);
    }

    fn ask(&mut self, ask: &Ask<'_>) -> Reply {
        self.gate.ask(self.metered, ask).0
    }

    fn commit(&mut self) -> Result<(), NotKept> {
        self.metered.commit_server()
    }
}

/// Which connection has its quantum, when, and whose frames come over it.
#[derive(Clone, Copy)]
pub(crate) struct PeerQuantum<'a> {
    /// The connection's place.
    pub(crate) place: usize,
    /// The time, in milliseconds.
    pub(crate) time: u64,
    pub(crate) gate: Gate<'a>,
}

/// One quantum of a connection, whose frames come from the gate's peer; those that are turned away
/// are counted.
pub(crate) fn work_guarded<L: Link + Drop, T: Turns>(
    connections: &mut Connections<L>,
    quantum: &PeerQuantum<'_>,
    server: &mut Metered<T>,
    buffer: &mut [u8],
    turned_away: &mut u64,
) -> Option<Closed<L>>
    requires place { quantum.now.place < connection_count connections.old }
    requires buffer { length buffer.old ≤ longest_message_piece }
    ensures { (works : WorksAt L.Link (AnswersCounted (Guarded T.answers quantum.now.gate.allow.now
        quantum.now.gate.peer)) quantum.now.place quantum.now.time result connections.old connections.new
        server.old server.new)
        × (turned_away.new ≡ fold (turning_away (is_kept_out quantum.now.gate.allow.now
        quantum.now.gate.peer)) turned_away.old (answered_frames works.answered)) }
{
    let mut guarded = GuardedQuantum {
        metered: server,
        gate: quantum.gate,
        turned_away: *turned_away,
    };
    let closed = connections.work(quantum.place, &mut guarded, buffer, quantum.time);
    *turned_away = guarded.turned_away;
    closed
}

/// Serves one exchange with the gate's peer, as `serve_link` does.
pub(crate) fn serve_guarded<R: Source, W: Sink, T: Turns, O: Sink>(
    alloc: Global,
    gate: &Gate<'_>,
    server: &mut Metered<T>,
    link: &mut Duplex<R, W>,
    index: u64,
    out: &mut O,
) -> Ended
    ensures { ServesTo
        (AnswersCounted (GuardedOverCommits T.answers T.committed gate.now.allow.now gate.now.peer))
        (metered_commits T.commits) R.Source W.Sink O.Sink index result.end result.exit server.old
        server.new link.old.reader link.new.reader link.old.writer link.new.writer out.old out.new }
{
    let mut guarded = GuardedExchange {
        metered: server,
        gate: *gate,
    };
    serve_link(
        alloc,
        &mut guarded,
        &mut link.reader,
        &mut link.writer,
        index,
        out,
    )
}
