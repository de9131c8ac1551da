//! The connections of operators: 32 at most.
ghost use Rattle.std.specs.Prelude.{◌≡◌, ◌<◌, ℕ, [], slice_get, vec_len, None, Some, IfNone};
ghost use Rattle.std.specs.Prelude.{IfOk, IfSome, true, false};
ghost use Rattle.bw_operators.specs.Places.{PutsAt};
ghost use Rattle.bw_status.specs.Responses.{response_text};
ghost use Rattle.bw_status.specs.declared.answer.Answer.{Answer};
ghost use Rattle.bw_status.specs.declared.snapshot.Snapshot.{Snapshot};

use crate::connection::Connection;
use bw_ports::Link;
use bw_status::Answer;
use std::alloc::{AllocError, Global};

/// The most operators that are connected at once.
pub const OPERATORS: usize = 32;

/// The places of operators' connections.
#[derive(Drop)]
pub struct Operators<L> {
    places: Vec<Option<Connection<L>>>,
}

impl<L: Link + Drop> Operators<L> {
    ghost use Rattle.bw_operators.specs.OperatorPlaces.{AdmitsAt, AreConnections, IsFreeAt, LastsLongest};
    ghost use Rattle.bw_operators.specs.OperatorPlaces.{HasNoNextPlace, IsNextPlace, LastsLongestSilent};
    ghost use Rattle.bw_operators.specs.OperatorPlaces.{LeavesOtherPlaces, is_silent_at, oldest_silent_of};
    ghost use Rattle.bw_operators.specs.OperatorPlaces.{RespondsAt, StepsAt, asked_at, lowest_free_place};
    ghost use Rattle.bw_operators.specs.OperatorPlaces.{place_count};
    ghost use Rattle.bw_operators.specs.OperatorPlaces.{oldest_of, since_at};

    /// Free places, 32 of them.
    ///
    /// # Errors
    /// `AllocError` if memory was refused.
    pub fn new(alloc: Global) -> Result<Operators<L>, AllocError>
        ensures places { IfOk result (λ o. place_count o ≡ 32) }
        ensures free { IfOk result (λ o. (place : ℕ) → place < 32 → IsFreeAt o place) }
        ensures connections { IfOk result (AreConnections L.Link) }
    {
        let mut places = Vec::with_capacity(alloc, OPERATORS)?;
        for _place in 0..OPERATORS {
            places.push(None)?;
        }
        Ok(Operators { places })
    }

    /// The first free place, if there is one.
    pub fn free_place(&self) -> Option<usize>
        ensures first { result ≡ lowest_free_place self.now }
        ensures free { IfSome result (λ place. IsFreeAt self.now place) }
    {
        self.places.iter().position(|place| place.is_none())
    }

    /// The place for one operator more at this time, in milliseconds: the first free one. If there is
    /// none, that of the connection that has lasted for longest of those to which nothing is to be
    /// answered or sent; one that was let in at this time isn't among these, since it wasn't read
    /// from yet.
    pub fn next_place(&self, now: u64) -> Option<usize>
        ensures next { IfSome result (IsNextPlace self.now now) }
        ensures none { IfNone result (HasNoNextPlace self.now now) }
    {
        match self.free_place() {
            Some(place) => Some(place),
            None => self.longest_silent(now),
        }
    }

    /// The place of the connection that has lasted for longest of those that were let in before this
    /// time and to which nothing is to be answered or sent.
    fn longest_silent(&self, now: u64) -> Option<usize>
        ensures longest { IfSome result (LastsLongestSilent self.now now) }
        ensures none { IfNone result ((place : ℕ) → is_silent_at self.now now place ≡ false) }
    {
        let mut oldest = None;
        for place in 0..self.places.len() {
            oldest = self.older_silent(now, oldest, place);
        }
        oldest
    }

    /// The oldest place so far, or this one if it is silent and its connection has lasted longer.
    fn older_silent(&self, now: u64, oldest: Option<usize>, place: usize) -> Option<usize>
        ensures { result ≡ oldest_silent_of self.now now oldest place }
    {
        if !self.is_silent_at(now, place) {
            return oldest;
        }
        let Some(before) = oldest else {
            return Some(place);
        };
        if self.since_at(place) < self.since_at(before) {
            Some(place)
        } else {
            Some(before)
        }
    }

    fn is_silent_at(&self, now: u64, place: usize) -> bool
        ensures { result ≡ is_silent_at self.now now place }
    {
        let Some(Some(connection)) = self.places.get(place) else {
            return false;
        };
        connection.since() < now && connection.is_silent()
    }

    /// Puts a connection over this link at the next place, from this time on, in milliseconds. One
    /// that is there is closed.
    pub fn admit(&mut self, alloc: Global, place: usize, link: L, now: u64)
        requires next { IsNextPlace self.old now place }
        requires given { L.given link [] }
        requires taken { L.taken link [] }
        ensures connections { AreConnections L.Link self.old → AreConnections L.Link self.new }
        ensures admits { AdmitsAt place link now self.new }
        ensures others { LeavesOtherPlaces place self.old self.new }
    {
        put_at(&mut self.places, place, Connection::new(alloc, link, now));
    }

    /// One step of each connection, at this time, in milliseconds: its request is read on, or its
    /// response is sent on. Those that are over, or have lasted for longer than five seconds, are
    /// closed. No call waits.
    pub fn work(&mut self, now: u64)
        // A link took the first bytes of the response to its own request, of one snapshot.
        ensures connections { AreConnections L.Link self.old → AreConnections L.Link self.new }
        ensures places { place_count self.new ≡ place_count self.old }
        // Bytes moved, or the link reported none or no room; closed exactly after 5,000 ms or its
        // end.
        ensures steps { (place : ℕ) → StepsAt L.Link now self.old self.new place }
    {
        for place in 0..self.places.len() {
            self.work_at(place, now);
        }
    }

    fn work_at(&mut self, place: usize, now: u64)
        requires { place < place_count self.old }
        ensures connections { AreConnections L.Link self.old → AreConnections L.Link self.new }
        ensures step { StepsAt L.Link now self.old self.new place }
        ensures others { LeavesOtherPlaces place self.old self.new }
    {
        let Some(mut connection) = take_at(&mut self.places, place) else {
            return;
        };
        let Ok(()) = connection.work() else {
            return;
        };
        if connection.is_slow(now) {
            return;
        }
        put_at(&mut self.places, place, connection);
    }

    /// The place at which a request is to be answered, and with what: of several the one whose
    /// connection has lasted for longest.
    pub fn asked(&self) -> Option<(usize, Answer)>
        ensures asks { IfSome result (λ asked. asked_at self.now asked.0 ≡ Some asked.1) }
        // Of several it is the one whose connection has lasted for longest.
        ensures longest { IfSome result (λ asked. LastsLongest self.now asked.0) }
        ensures none { IfNone result ((place : ℕ) → asked_at self.now place ≡ None) }
    {
        let mut oldest = None;
        for place in 0..self.places.len() {
            oldest = self.older(oldest, place);
        }
        oldest
    }

    /// The oldest place so far, or this one if a request is to be answered here and its connection
    /// has lasted longer.
    fn older(&self, oldest: Option<(usize, Answer)>, place: usize) -> Option<(usize, Answer)>
        ensures { result ≡ oldest_of self.now oldest place }
    {
        let Some(answer) = self.asked_at(place) else {
            return oldest;
        };
        let Some(before) = oldest else {
            return Some((place, answer));
        };
        if self.since_at(place) < self.since_at(before.0) {
            Some((place, answer))
        } else {
            Some(before)
        }
    }

    fn asked_at(&self, place: usize) -> Option<Answer>
        ensures { result ≡ asked_at self.now place }
    {
        let Some(Some(connection)) = self.places.get(place) else {
            return None;
        };
        connection.asked()
    }

    fn since_at(&self, place: usize) -> u64
        ensures { result ≡ since_at self.now place }
    {
        let Some(Some(connection)) = self.places.get(place) else {
            return 0;
        };
        connection.since()
    }

    /// Responds to the request at a place. Nothing changes if none is to be answered there.
    pub fn answer(&mut self, place: usize, response: Vec<u8>)
        ensures connections { (a : Answer) (s : Snapshot) → asked_at self.old place ≡ Some a →
            response.items ≡ response_text a s → AreConnections L.Link self.old →
            AreConnections L.Link self.new }
        // The response is sent from its first byte.
        ensures responds { (a : Answer) → asked_at self.old place ≡ Some a →
            RespondsAt place response.items self.old self.new }
        // So no place has two responses.
        ensures nothing { asked_at self.old place ≡ None → self.new ≡ self.old }
        ensures others { LeavesOtherPlaces place self.old self.new }
    {
        let Some(_answer) = self.asked_at(place) else {
            return;
        };
        let Some(mut connection) = take_at(&mut self.places, place) else {
            return;
        };
        connection.answer(response);
        put_at(&mut self.places, place, connection);
    }

    /// Closes the connection at a place, if there is one.
    pub fn close(&mut self, place: usize)
        ensures connections { AreConnections L.Link self.old → AreConnections L.Link self.new }
        ensures free { place < place_count self.old → IsFreeAt self.new place }
        ensures others { LeavesOtherPlaces place self.old self.new }
    {
        if place >= self.places.len() {
            return;
        }
        let _closed = take_at(&mut self.places, place);
    }
}

/// Takes what is at a place.
fn take_at<L>(places: &mut Vec<Option<Connection<L>>>, place: usize) -> Option<Connection<L>>
    requires { place < vec_len places.old }
    ensures was { slice_get places.old.items place ≡ Some result }
    ensures sets { PutsAt places.old.items place None places.new.items }
    ensures count { vec_len places.new ≡ vec_len places.old }
{
    places[place].take()
}

/// Puts a connection at a place.
fn put_at<L: Drop>(places: &mut Vec<Option<Connection<L>>>, place: usize, connection: Connection<L>)
    requires { place < vec_len places.old }
    ensures sets { PutsAt places.old.items place (Some connection) places.new.items }
    ensures count { vec_len places.new ≡ vec_len places.old }
{
    places[place] = Some(connection);
}
