//! What is kept of a take in memory: everything but its data.
ghost use Rattle.std.specs.Prelude.{◌≡◌, ◌+◌, ◌≤◌, None, IsSome, IfSome, IsTrue, IsOk, OnOk, OnErr};
ghost use Rattle.std.specs.Prelude.{true, false, length};
ghost use Rattle.bw_model.specs.Limits.{window, longest_history, most_markers, largest};
ghost use Rattle.bw_model.specs.Take.{Stored, is_format, judge as verdict_on, frames as frames_of};
ghost use Rattle.bw_model.specs.Take.{new_take, parts as parts_of_take, AreFields};
ghost use Rattle.bw_model.specs.Wire.{is_request};
ghost use Rattle.bw_model.specs.Requests.{meaning};
ghost use Rattle.bw_model.specs.Requests.{samples_in};
ghost use Rattle.bw_take.specs.States.{FollowsTakes, parts_with};

use bw_layout::{Bext, CuePoint, Fmt};
use bw_model::{LONGEST_HISTORY, RequestRef};
use std::alloc::{AllocError, Global};
use std::marker::Model;

/// A take without its data, whose length it keeps, and room for the requests to come.
#[derive(Debug, Drop)]
pub struct TakeState {
    format: Option<Fmt>,
    bext: Bext,
    history: Vec<u8>,
    data_len: u64,
    markers: Vec<CuePoint>,
    taken: bool,
    closed: bool,
    room: usize,
}

impl Model for TakeState {
    ghost use Rattle.bw_take.specs.States.{State};

    ghost Value = { State };

    ghost use Rattle.bw_take.specs.Kept.{state_of, IsTakeState};

    ghost view = { state_of };

    ghost invariant = { IsTakeState };
}

impl TakeState {
    /// A take before any request.
    pub fn new(alloc: Global) -> TakeState
        ensures parts { result.parts ≡ parts_of_take (new_take false) }
        ensures room { result.room ≡ 0 }
    {
        TakeState {
            format: None,
            bext: Bext::new(),
            history: Vec::new(alloc),
            data_len: 0,
            markers: Vec::new(alloc),
            taken: false,
            closed: false,
            room: 0,
        }
    }

    /// Notes that the take's name was in the store when the server began.
    pub fn set_taken(&mut self)
        ensures parts { self.new.parts ≡ record self.old.parts { taken = true } }
        ensures room { self.new.room ≡ self.old.room }
    {
        self.taken = true;
    }

    /// The format, or None if the take isn't opened.
    pub fn format(&self) -> Option<Fmt>
        ensures value { result ≡ self.now.parts.format }
        ensures allowed { IfSome result (λ f. IsTrue (is_format f)) }
    {
        self.format
    }

    /// The fields of `bext`.
    pub fn bext(&self) -> &Bext
        ensures value { result.now ≡ self.now.parts.fields }
        ensures widths { AreFields result.now }
    {
        &self.bext
    }

    /// The coding history, at most 4,096 bytes.
    pub fn history(&self) -> &[u8]
        ensures value { result.now ≡ self.now.parts.history }
        ensures range { length result.now ≤ longest_history }
    {
        self.history.as_slice()
    }

    /// How many bytes of data the take has: at most 2^62, and none without a format.
    pub fn data_len(&self) -> u64
        ensures value { result ≡ self.now.parts.samples_len }
        ensures range { result ≤ largest }
        ensures unopened { self.now.parts.format ≡ None → result ≡ 0 }
    {
        self.data_len
    }

    /// How many whole frames the data have; 0 without a format.
    pub fn frames(&self) -> u64
        ensures { result ≡ frames_of self.now.parts }
    {
        match self.format {
            Some(format) => self.data_len / u64::from(format.block_align()),
            None => 0,
        }
    }

    /// The cue points, at most 1,024, in the order in which they came.
    pub fn markers(&self) -> &[CuePoint]
        ensures value { result.now ≡ self.now.parts.markers }
        ensures range { length result.now ≤ most_markers }
    {
        self.markers.as_slice()
    }

    /// Whether the take's name was in the store when the server began.
    pub fn is_taken(&self) -> bool
        ensures { result ≡ self.now.parts.taken }
    {
        self.taken
    }

    /// Whether the take is closed.
    pub fn is_closed(&self) -> bool
        ensures value { result ≡ self.now.parts.closed }
        ensures opened { IsTrue result → IsSome self.now.parts.format }
    {
        self.closed
    }

    /// How many more requests can be stored without allocating memory.
    pub fn room(&self) -> usize
        ensures { result ≡ self.now.room }
    {
        self.room
    }

    /// Makes room to store this many requests, at most 16.
    ///
    /// # Errors
    /// `AllocError` if memory was refused: nothing changed. It is never refused if there is
    /// room.
    ///
    /// # Not specified
    /// When memory is refused, and how much room is made beyond what was asked for.
    pub fn reserve_for(&mut self, requests: usize) -> Result<(), AllocError>
        requires { requests ≤ window }
        ensures parts { self.new.parts ≡ self.old.parts }
        ensures ok { OnOk result (requests ≤ self.new.room) }
        ensures kept { self.old.room ≤ self.new.room }
        ensures err { OnErr result (self.new ≡ self.old) }
        ensures enough { requests ≤ self.old.room → IsOk result }
    {
        if requests <= self.room {
            return Ok(());
        }
        if self.format.is_none() {
            self.history.reserve_exact(LONGEST_HISTORY)?;
        }
        self.markers.reserve(requests)?;
        self.room = requests;
        Ok(())
    }

    /// Stores a request, without allocating memory. It must fit and be judged Stored, there must be
    /// room for one, and the data may have at most 2^62 bytes after it.
    pub fn commit(&mut self, request: &RequestRef<'_>)
        requires fits { IsTrue (is_request (meaning request.now)) }
        requires stored { verdict_on self.old.parts (meaning request.now) ≡ Stored }
        requires room { 1 ≤ self.old.room }
        requires samples { self.old.parts.samples_len + samples_in (meaning request.now) ≤ largest }
        ensures parts { self.new.parts ≡ parts_with self.old.parts (meaning request.now) }
        ensures takes { FollowsTakes self.old.parts (meaning request.now) self.new.parts }
        ensures room { self.new.room + 1 ≡ self.old.room }
    {
        self.room -= 1;
        match *request {
            RequestRef::OpenTake {
                rate,
                channels,
                bits,
                history,
            } => {
                self.format = Fmt::new(rate, channels, bits);
                self.history.extend_from_slice(history).unwrap();
            }
            RequestRef::Block { bytes } => self.data_len += bytes.len() as u64,
            RequestRef::Mark { id, frame } => self.markers.push_reserved(CuePoint { id, frame }),
            RequestRef::SetField { tag, value } => self.bext.set(tag, value).unwrap(),
            RequestRef::CloseTake { .. } => self.closed = true,
        }
    }
}
