//! A connection: a link, and the exchange over it.
ghost use Rattle.std.specs.Prelude.{◌≡◌, ◌≤◌, ◌||◌, [], List, length, true, false, IfErr, IfOk, OnOk};
ghost use Rattle.bw_wire.specs.Held.{longest_message_piece};
ghost use Rattle.bw_exchange.specs.Parts.{wants_piece, waiting_in};
ghost use Rattle.bw_connections.specs.ConnectionFeeds.{Feeds, fault_to_drain};
ghost use Rattle.bw_connections.specs.Lives.{EndsServed};

use bw_exchange::{Exchange, ExchangeEnd, FeedError, StreamEnd, Turns};
use bw_ports::{Link, Received, Sent};
use bw_wire::{Reason, WireFault};
use std::alloc::{AllocError, Global};

/// How many frames of a connection are answered in a quantum.
const QUANTUM: usize = 64;

/// How long a connection is drained after a bad frame, in milliseconds.
const LONGEST_DRAIN: u64 = 2_000;

/// How a connection ended.
#[derive(Clone, Copy, Debug, PartialEq, Eq)]
pub enum ConnectionEnd {
    /// The exchange over it ended like this; with `TurnLimit` if more than 2^62 bytes came.
    Over(ExchangeEnd),
    /// No whole frame came for too long.
    Idle,
}

/// The state of a connection.
#[derive(Clone, Copy, Debug, PartialEq, Eq)]
pub(crate) enum Phase {
    /// Its frames are answered.
    Serving,
    /// A frame was bad, all replies are sent, and no more will be: what still comes is discarded,
    /// so that the peer can read the replies before the link is closed.
    Draining(WireFault),
}

/// A link, and the exchange over it.
#[derive(Drop)]
pub(crate) struct Connection<L> {
    pub(crate) link: L,
    pub(crate) number: u64,
    pub(crate) exchange: Exchange,
    phase: Phase,
    /// Whether there may be bytes to read: until the link says that there are none.
    readable: bool,
    /// Whether there may be room to write: until the link says that there is none.
    writable: bool,
    /// When its last frame was answered or its stream ended, or since when it drains, in
    /// milliseconds.
    since: u64,
}

impl<L: Link> Connection<L> {
    ghost use Rattle.bw_connections.specs.Lives.{BeginsConnection, Proceeds, KeepsConnection};
    ghost use Rattle.bw_connections.specs.Lives.{AnswersHeld, Settles, Works};
    ghost use Rattle.bw_connections.specs.Lives.{EndsDrained, IsUpToDate, KeepsPeer, ReadsLink};
    ghost use Rattle.bw_connections.specs.Lives.{HoldsReplies, SendsWaiting, LeavesNone, LeavesOf};
    ghost use Rattle.bw_connections.specs.Lives.{IsFinished, Learns, DropsSent, StillReported};
    ghost use Rattle.bw_connections.specs.Lives.{can_go_on, rests_now, expired_at, silence_of};

    /// Creates a connection over this link, which has given and taken nothing yet.
    ///
    /// # Errors
    /// `AllocError` if memory was refused.
    pub(crate) fn new(
        alloc: Global,
        link: L,
        number: u64,
        now: u64,
    ) -> Result<Connection<L>, AllocError>
    where
        L: Drop,
        ensures { IfOk result (BeginsConnection link number now) }
    {
        Ok(Connection {
            link,
            number,
            exchange: Exchange::new(alloc)?,
            phase: Phase::Serving,
            readable: true,
            writable: true,
            since: now,
        })
    }

    /// Notes that there may be bytes again, or room.
    pub(crate) fn wake(&mut self, readable: bool, writable: bool)
        ensures readable { self.new.readable ≡ self.old.readable || readable }
        ensures writable { self.new.writable ≡ self.old.writable || writable }
        ensures link { self.new.link ≡ self.old.link }
        ensures exchange { self.new.exchange ≡ self.old.exchange }
        ensures stays { KeepsConnection self.old self.new }
    {
        self.readable |= readable;
        self.writable |= writable;
    }

    /// Whether it can proceed before its link has more bytes, or room.
    pub(crate) fn can_go_on(&self) -> bool
        ensures { result ≡ can_go_on self.now }
    {
        if let Phase::Draining(_fault) = self.phase {
            return self.readable;
        }
        if self.exchange.outgoing().is_empty() {
            return self.readable || !self.exchange.wants_read();
        }
        self.writable
    }

    /// Whether it is served and nothing can be done now: nothing waits or is held, and its link has
    /// no bytes.
    pub(crate) fn rests(&self) -> bool
        ensures { result ≡ rests_now self.now }
    {
        if let Phase::Draining(_fault) = self.phase {
            return false;
        }
        if self.exchange.outgoing().is_empty() {
            return self.exchange.wants_read() && !self.readable;
        }
        false
    }

    /// How long it is quiet at time `now`, in milliseconds: not at all if it holds a frame that the
    /// next quantum answers, or refuses.
    fn silence(&self, now: u64) -> u64
        ensures { result ≡ silence_of now self.now }
    {
        let quiet = now.saturating_sub(self.since);
        if let Phase::Draining(_fault) = self.phase {
            return quiet;
        }
        if self.exchange.outgoing().is_empty() {
            return if self.exchange.framer().is_decided() {
                0
            } else {
                quiet
            };
        }
        quiet
    }

    /// How it ends at time `now`, if nothing has been answered for longer than `idle` milliseconds,
    /// or it has been drained for long enough.
    pub(crate) fn expired(&self, now: u64, idle: u64) -> Option<ConnectionEnd>
        ensures { result ≡ expired_at now idle self.now }
    {
        let quiet = self.silence(now);
        match self.phase {
            Phase::Serving => (quiet > idle).then_some(ConnectionEnd::Idle),
            Phase::Draining(fault) => (quiet > LONGEST_DRAIN).then_some(ConnectionEnd::Over(
                ExchangeEnd::BadFrame(fault),
            )),
        }
    }

    /// Whether replies wait that a commit must come before.
    pub(crate) fn holds_replies(&self) -> bool
        ensures some { result ≡ true → HoldsReplies self.now }
        ensures none { result ≡ false → self.now.phase ≡ Phase.Serving → waiting_in self.now.exchange ≡ [] }
    {
        match self.phase {
            Phase::Serving => !self.is_all_out(),
            Phase::Draining(_fault) => false,
        }
    }

    /// One quantum: some of the unsent bytes are sent, frames that are held are answered, and a
    /// piece is read if one is wanted. So nothing leaves but what waited before the quantum, a frame
    /// is answered in the quantum after that in which it is read, when it may have been hashed with
    /// those of other connections, and its replies leave in the one after that. No piece is read
    /// before all replies are sent: from a peer that doesn't read its replies nothing more is read.
    ///
    /// # Errors
    /// How the connection ended.
    pub(crate) fn work<T: Turns>(
        &mut self,
        server: &mut T,
        buffer: &mut [u8],
        now: u64,
    ) -> Result<(), ConnectionEnd>
        requires { length buffer.old ≤ longest_message_piece }
        ensures { Works L.Link T.answers now result self.old self.new server.old server.new }
    {
        if let Phase::Draining(fault) = self.phase {
            return self.drain(fault, buffer);
        }
        let was_open = self.exchange.end().is_none();
        self.send_waiting()?;
        self.answer_held(server, now);
        self.receive_piece(buffer)?;
        self.settle(now, was_open)
    }

    /// Sends some of the unsent bytes, if there may be room.
    ///
    /// # Errors
    /// The link is broken.
    fn send_waiting(&mut self) -> Result<(), ConnectionEnd>
        requires { self.old.phase ≡ Phase.Serving }
        ensures goes { Proceeds L.Link result self.old [] self.new }
        ensures peer { KeepsPeer L.Link self.old.link self.new.link }
        ensures stays { KeepsConnection self.old self.new }
        ensures served { IfErr result EndsServed }
        ensures leaves { LeavesOf L.Link (waiting_in self.old.exchange) self.old.link self.new.link }
        ensures sends { OnOk result (SendsWaiting L.Link self.old self.new) }
    {
        let waiting = self.exchange.outgoing();
        if !self.writable || waiting.is_empty() {
            return Ok(());
        }
        match self.link.send(waiting) {
            Sent::Bytes(count) => {
                self.exchange.consumed(count);
                Ok(())
            }
            Sent::Nothing => {
                self.writable = false;
                Ok(())
            }
            Sent::Failed => Err(ConnectionEnd::Over(ExchangeEnd::WriteFault)),
        }
    }

    /// Feeds the next piece, if one is wanted and may be there.
    ///
    /// # Errors
    /// The link is broken, or the piece can't be fed.
    fn receive_piece(&mut self, buffer: &mut [u8]) -> Result<(), ConnectionEnd>
        requires serving { self.old.phase ≡ Phase.Serving }
        requires buffer { length buffer.old ≤ longest_message_piece }
        ensures goes { Proceeds L.Link result self.old [] self.new }
        ensures peer { KeepsPeer L.Link self.old.link self.new.link }
        ensures stays { KeepsConnection self.old self.new }
        ensures served { IfErr result EndsServed }
        ensures leaves { LeavesNone L.Link self.old.link self.new.link }
        ensures reads { OnOk result (ReadsLink L.Link self.old self.new) }
    {
        if !self.readable || !self.is_up_to_date() {
            return Ok(());
        }
        match self.link.receive(buffer) {
            Received::Bytes(count) => feed_piece(&mut self.exchange, &buffer[..count]),
            Received::Ended => {
                self.exchange.finish();
                Ok(())
            }
            Received::Nothing => {
                self.readable = false;
                Ok(())
            }
            Received::Failed => Err(ConnectionEnd::Over(ExchangeEnd::ReadFault)),
        }
    }

    /// Whether all replies are sent.
    fn is_all_out(&self) -> bool
        ensures all { result ≡ true → waiting_in self.now.exchange ≡ [] }
        ensures some { waiting_in self.now.exchange ≡ [] → result ≡ true }
    {
        self.exchange.outgoing().is_empty()
    }

    /// Whether all whole frames are answered, and all replies sent.
    fn is_up_to_date(&self) -> bool
        ensures yes { result ≡ true → IsUpToDate self.now.exchange }
        ensures no { IsUpToDate self.now.exchange → result ≡ true }
    {
        self.exchange.wants_read() && self.is_all_out()
    }

    /// Has whole frames answered, and notes the time if there were any.
    fn answer_held<T: Turns>(&mut self, server: &mut T, now: u64)
        requires { self.old.phase ≡ Phase.Serving }
        ensures { AnswersHeld L.Link T.answers now self.old self.new server.old server.new }
    {
        if self.exchange.wants_read() || self.exchange.end().is_some() {
            return;
        }
        if self.exchange.answer(server, QUANTUM) == 0 {
            return;
        }
        self.since = now;
    }

    /// Reads and discards what comes.
    ///
    /// # Errors
    /// Nothing more comes.
    fn drain(&mut self, fault: WireFault, buffer: &mut [u8]) -> Result<(), ConnectionEnd>
        requires { self.old.phase ≡ Phase.Draining fault }
        ensures goes { Proceeds L.Link result self.old [] self.new }
        ensures peer { KeepsPeer L.Link self.old.link self.new.link }
        ensures stays { KeepsConnection self.old self.new }
        ensures leaves { LeavesNone L.Link self.old.link self.new.link }
        ensures heard { IfErr result (EndsDrained L.Link fault self.new.link) }
        ensures lets_go { OnOk result (DropsSent L.Link self.old self.new) }
        ensures learns { OnOk result (Learns L.Link self.old self.new) }
        ensures finished { L.finished self.old.link → L.finished self.new.link }
    {
        if !self.readable {
            return Ok(());
        }
        match self.link.receive(buffer) {
            Received::Bytes(_count) => Ok(()),
            Received::Nothing => {
                self.readable = false;
                Ok(())
            }
            Received::Ended => Err(ConnectionEnd::Over(ExchangeEnd::BadFrame(fault))),
            Received::Failed => Err(ConnectionEnd::Over(ExchangeEnd::BadFrame(fault))),
        }
    }

    /// Ends the connection if its stream has ended and all replies are sent; after a bad frame what
    /// still comes is drained first. Notes the time if its stream was open before the quantum: the
    /// last reply still leaves, however long the peer was silent.
    ///
    /// # Errors
    /// How the connection ended.
    fn settle(&mut self, now: u64, was_open: bool) -> Result<(), ConnectionEnd>
        requires { self.old.phase ≡ Phase.Serving }
        ensures goes { Proceeds L.Link result self.old [] self.new }
        ensures peer { KeepsPeer L.Link self.old.link self.new.link }
        ensures leaves { LeavesNone L.Link self.old.link self.new.link }
        ensures settles { Settles now was_open result self.old self.new }
        ensures reported { StillReported L.Link self.old.link self.new.link }
        ensures finished { OnOk result (IsFinished L.Link self.new) }
    {
        let Some(end) = self.exchange.end() else {
            return Ok(());
        };
        if !self.is_all_out() {
            if was_open {
                self.since = now;
            }
            return Ok(());
        }
        let Some(fault) = fault_to_drain(end) else {
            return Err(ConnectionEnd::Over(ExchangeEnd::from(end)));
        };
        self.link.shut();
        self.phase = Phase::Draining(fault);
        self.since = now;
        Ok(())
    }
}

/// The fault after which more may come that isn't parsed: a frame that is bad whatever follows.
fn fault_to_drain(end: StreamEnd) -> Option<WireFault>
    ensures { result ≡ fault_to_drain end }
{
    match end {
        StreamEnd::Bye => None,
        StreamEnd::EndOfInput => None,
        StreamEnd::BadFrame(fault) => match fault.reason {
            Reason::Cut => None,
            Reason::Length => Some(fault),
            Reason::Kind => Some(fault),
            Reason::Name => Some(fault),
            Reason::Number => Some(fault),
            Reason::Payload => Some(fault),
        },
    }
}

/// Feeds a piece.
///
/// # Errors
/// Why it can't be fed: the exchange is as it was.
fn feed_piece(exchange: &mut Exchange, piece: &[u8]) -> Result<(), ConnectionEnd>
    requires wants_read { wants_piece exchange.old ≡ true }
    requires short { length piece.now ≤ longest_message_piece }
    ensures feeds { Feeds piece.now result exchange.old exchange.new }
    ensures served { IfErr result EndsServed }
{
    match exchange.feed(piece) {
        Ok(()) => Ok(()),
        Err(FeedError::Memory) => Err(ConnectionEnd::Over(ExchangeEnd::Memory)),
        Err(FeedError::TooLong) => Err(ConnectionEnd::Over(ExchangeEnd::TurnLimit)),
    }
}
