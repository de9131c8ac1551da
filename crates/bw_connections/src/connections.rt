//! Many connections over one server, each at its own place.
ghost use Rattle.std.specs.Prelude.{◌≡◌, ◌≤◌, ◌<◌, [], List, length, vec_len, slice_get, Some, None, IfOk};
ghost use Rattle.std.specs.Prelude.{◌+◌, ◌^◌, Err, OnOk, OnErr, IfSome, is_some};
ghost use Rattle.bw_wire.specs.Held.{longest_message_piece};
ghost use Rattle.bw_connections.specs.ConnectionTables.{SetsPlace};

use crate::connection::{Connection, ConnectionEnd};
use bw_exchange::{ExchangeEnd, NotKept, Turns};
use bw_ports::Link;
use std::alloc::{AllocError, Global};
use thiserror::Error;

/// Why a connection can't be begun.
///
/// It has no number, and no clause describes its text.
#[derive(Clone, Copy, Debug, PartialEq, Eq, Error)]
pub enum BeginError {
    /// Memory was refused.
    #[error("memory was refused")]
    Memory,
    /// 2^64 - 1 connections were begun.
    #[error("there are no more numbers")]
    NumbersSpent,
}

/// A connection that is over.
#[derive(Drop)]
pub struct Closed<L> {
    /// The link that it had.
    pub link: L,
    /// Its number: how many were begun before it.
    pub number: u64,
    /// How it ended.
    pub end: ConnectionEnd,
}

/// Takes what is at a place.
fn take_at<L>(places: &mut Vec<Option<Connection<L>>>, place: usize) -> Option<Connection<L>>
    requires { place < vec_len places.old }
    ensures was { slice_get places.old.items place ≡ Some result }
    ensures sets { SetsPlace places.old.items place None places.new.items }
    ensures count { vec_len places.new ≡ vec_len places.old }
{
    places[place].take()
}

/// Puts a connection at a place.
fn put_at<L: Drop>(places: &mut Vec<Option<Connection<L>>>, place: usize, connection: Connection<L>)
    requires { place < vec_len places.old }
    ensures sets { SetsPlace places.old.items place (Some connection) places.new.items }
    ensures count { vec_len places.new ≡ vec_len places.old }
{
    places[place] = Some(connection);
}

/// Connections to many recorders over one server, each at a place, and under a number that no other
/// ever has.
#[derive(Drop)]
pub struct Connections<L> {
    pub(crate) places: Vec<Option<Connection<L>>>,
    next: u64,
    /// Stays at 2^64 - 1.
    refused: u64,
}

impl<L: Link + Drop> Connections<L> {
    ghost use Rattle.bw_connections.specs.ConnectionTables.{KeepsConnections, Adds, IsFree, those};
    ghost use Rattle.bw_connections.specs.Quanta.{BeginsAt, EndsIts, IsEmpty, LeavesOthers, RefusesLink};
    ghost use Rattle.bw_connections.specs.Quanta.{StaysAt, ExistedAt, ExistedUnder, HoldsNoReplies};
    ghost use Rattle.bw_connections.specs.Quanta.{WakesAt, WorksAt};
    ghost use Rattle.bw_connections.specs.Places.{begun_of, connection_count, can_go_on_at, rests_at};
    ghost use Rattle.bw_connections.specs.Places.{end_of_connection, expired_there};
    ghost use Rattle.bw_connections.specs.Places.{first_free_place, refused_of};

    /// Creates `count` free places.
    ///
    /// # Errors
    /// `AllocError` if memory was refused.
    ///
    /// # Not specified
    /// When memory is refused.
    pub fn new(alloc: Global, count: usize) -> Result<Connections<L>, AllocError>
        ensures keeps { IfOk result (λ m. KeepsConnections L.Link m [] []) }
        ensures count { IfOk result (λ m. connection_count m ≡ count) }
        ensures begun { IfOk result (λ m. begun_of m ≡ 0) }
        ensures refused { IfOk result (λ m. refused_of m ≡ 0) }
    {
        let mut places = Vec::with_capacity(alloc, count)?;
        for _place in 0..count {
            places.push(None)?;
        }
        Ok(Connections {
            places,
            next: 0,
            refused: 0,
        })
    }

    /// How many places there are.
    pub fn places(&self) -> usize
        ensures { result ≡ connection_count self.now }
    {
        self.places.len()
    }

    /// How many connections were begun.
    pub fn begun(&self) -> u64
        ensures { result ≡ begun_of self.now }
    {
        self.next
    }

    /// How many links were refused because no connection could be begun over them; at most 2^64 - 1
    /// are counted.
    pub fn refused(&self) -> u64
        ensures { result ≡ refused_of self.now }
    {
        self.refused
    }

    /// The first free place, if there is one.
    pub fn free_place(&self) -> Option<usize>
        ensures first { result ≡ first_free_place self.now }
        ensures free { IfSome result (λ place. IsFree self.now place) }
    {
        self.places.iter().position(|place| place.is_none())
    }

    /// Whether the connection at a place can proceed before its link has more bytes, or room.
    pub fn can_go_on(&self, place: usize) -> bool
        ensures { result ≡ can_go_on_at self.now place }
    {
        let Some(Some(connection)) = self.places.get(place) else {
            return false;
        };
        connection.can_go_on()
    }

    /// Whether nothing can be done at a place: no connection is there, or one of which nothing waits
    /// or is held, and whose link has no bytes.
    pub fn rests(&self, place: usize) -> bool
        ensures { result ≡ rests_at self.now place }
    {
        let Some(Some(connection)) = self.places.get(place) else {
            return true;
        };
        connection.rests()
    }

    /// Begins a connection at a free place, at a time in milliseconds.
    ///
    /// # Errors
    /// `NumbersSpent` after 2^64 - 1 connections; else `Memory`, if memory was refused. The link is
    /// closed and counted as refused, and nothing else changed.
    ///
    /// # Not specified
    /// When memory is refused.
    pub fn begin(
        &mut self,
        alloc: Global,
        place: usize,
        link: L,
        now: u64,
    ) -> Result<(), BeginError>
        requires free { IsFree self.old place }
        requires given { L.given link [] }
        requires taken { L.taken link [] }
        ensures adds { Adds L.Link self.old [] [] self.new }
        // Numbers are given in order, never again.
        ensures begins { OnOk result (BeginsAt place link now self.old self.new) }
        ensures others { LeavesOthers place self.old self.new }
        ensures err { OnErr result (RefusesLink self.old self.new) }
        ensures spent { result ≡ Err BeginError.NumbersSpent → 2 ^ 64 ≤ begun_of self.old + 1 }
        ensures memory { result ≡ Err BeginError.Memory → begun_of self.old + 1 < 2 ^ 64 }
    {
        let Some(next) = self.next.checked_add(1) else {
            self.refused = self.refused.saturating_add(1);
            return Err(BeginError::NumbersSpent);
        };
        let Ok(connection) = Connection::new(alloc, link, self.next, now) else {
            self.refused = self.refused.saturating_add(1);
            return Err(BeginError::Memory);
        };
        put_at(&mut self.places, place, connection);
        self.next = next;
        Ok(())
    }

    /// Notes that the connection at a place may have bytes again, or room.
    pub fn wake(&mut self, place: usize, readable: bool, writable: bool)
        ensures adds { Adds L.Link self.old [] [] self.new }
        ensures wakes { WakesAt place readable writable self.old self.new }
        ensures existed { ExistedUnder L.Link place self.old self.new }
        ensures others { StaysAt place self.old self.new }
    {
        if place >= self.places.len() {
            return;
        }
        let Some(mut connection) = take_at(&mut self.places, place) else {
            return;
        };
        connection.wake(readable, writable);
        put_at(&mut self.places, place, connection);
    }

    /// One quantum of the connection at a place, at a time in milliseconds: it sends, then answers,
    /// then reads. Returns the connection if it is over.
    ///
    /// At most 64 frames are answered. `buffer` has at most 524,960 bytes.
    ///
    /// # Not specified
    /// - How much of what a link has is read, and how much of what waits is offered to it: only
    ///   that a call is made if the last one didn't report that there is nothing, or no room.
    /// - That the peer learns of the end of its replies after a bad frame.
    pub fn work<T: Turns>(
        &mut self,
        place: usize,
        server: &mut T,
        buffer: &mut [u8],
        now: u64,
    ) -> Option<Closed<L>>
        requires place { place < connection_count self.old }
        requires buffer { length buffer.old ≤ longest_message_piece }
        // What continues made progress, or its link reported none now; none ends here for silence.
        ensures { WorksAt L.Link T.answers place now result self.old self.new server.old server.new }
    {
        if self.rests(place) {
            return None;
        }
        let Some(mut connection) = take_at(&mut self.places, place) else {
            return None;
        };
        match connection.work(server, buffer, now) {
            Ok(()) => {
                put_at(&mut self.places, place, connection);
                None
            }
            Err(end) => Some(close(connection, end)),
        }
    }

    /// How the connection at a place ends for silence, if it does.
    fn expired_at(&self, place: usize, now: u64, idle: u64) -> Option<ConnectionEnd>
        ensures { result ≡ expired_there now idle self.now place }
    {
        let Some(Some(connection)) = self.places.get(place) else {
            return None;
        };
        connection.expired(now, idle)
    }

    /// Whether `expire` ends the connection at a place, if one is there.
    pub fn expires(&self, place: usize, now: u64, idle: u64) -> bool
        ensures { result ≡ is_some (expired_there now idle self.now place) }
    {
        self.expired_at(place, now, idle).is_some()
    }

    /// Ends the connection at a place if it was quiet for longer than `idle` milliseconds, or
    /// drained for longer than 2,000, and returns it. One that holds a frame which its next quantum
    /// answers, or refuses, isn't quiet.
    pub fn expire(&mut self, place: usize, now: u64, idle: u64) -> Option<Closed<L>>
        requires place { place < connection_count self.old }
        ensures adds { Adds L.Link self.old [] (those result) self.new }
        // It ends for silence exactly then.
        ensures end { end_of_connection result ≡ expired_there now idle self.old place }
        ensures its { EndsIts L.Link place result self.old }
        ensures others { StaysAt place self.old self.new }
        ensures stands { ExistedAt place self.old self.new }
        ensures left { IfSome result (λ x. IsEmpty place self.new) }
    {
        if self.expired_at(place, now, idle).is_none() {
            return None;
        }
        let Some(connection) = take_at(&mut self.places, place) else {
            return None;
        };
        match connection.expired(now, idle) {
            Some(end) => Some(close(connection, end)),
            None => {
                put_at(&mut self.places, place, connection);
                None
            }
        }
    }

    /// Ends the connection at a place if replies wait there, which will not leave, and returns it:
    /// a write failed in the server's commit.
    pub fn withhold(&mut self, place: usize) -> Option<Closed<L>>
        requires place { place < connection_count self.old }
        ensures adds { Adds L.Link self.old [] (those result) self.new }
        ensures end { IfSome result (λ x.
            x.end ≡ ConnectionEnd.Over (ExchangeEnd.NotKept NotKept.WriteFault)) }
        ensures its { EndsIts L.Link place result self.old }
        ensures others { StaysAt place self.old self.new }
        ensures stands { ExistedAt place self.old self.new }
        ensures left { IfSome result (λ x. IsEmpty place self.new) }
        ensures was { IfSome result (λ x. IsEmpty place self.old → ⊥) }
        ensures withheld { HoldsNoReplies place self.new }
    {
        let Some(connection) = take_at(&mut self.places, place) else {
            return None;
        };
        if connection.holds_replies() {
            let end = ExchangeEnd::NotKept(NotKept::WriteFault);
            return Some(close(connection, ConnectionEnd::Over(end)));
        }
        put_at(&mut self.places, place, connection);
        None
    }
}

/// What is left of a connection that ended like this.
fn close<L: Drop>(connection: Connection<L>, end: ConnectionEnd) -> Closed<L>
    ensures { result ≡ record { link = connection.link; number = connection.number; end = end } }
{
    let Connection { link, number, .. } = connection;
    Closed { link, number, end }
}
