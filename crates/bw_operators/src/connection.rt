//! An operator's connection.
ghost use Rattle.std.specs.Prelude.{◌≡◌, ◌≤◌, ◌+◌, ◌-◌, ◌++◌, [], drop, length, nat_lt, OnErr, OnOk};
ghost use Rattle.bw_status.specs.Answers.{longest_request};
ghost use Rattle.bw_status.specs.Responses.{response_text};
ghost use Rattle.bw_status.specs.declared.answer.Answer.{Answer};
ghost use Rattle.bw_status.specs.declared.snapshot.Snapshot.{Snapshot};

use arrayvec::ArrayVec;
use bw_ports::{Link, Received, Sent};
use bw_status::{Answer, LONGEST_REQUEST, answer_to};
use std::alloc::Global;

/// The longest time that an operator's connection lasts, in milliseconds.
const LONGEST: u64 = 5_000;

/// The state of an operator's connection.
#[derive(Clone, Copy, Debug, PartialEq, Eq)]
pub(crate) enum Phase {
    /// Its request is being read.
    Reading,
    /// Its request has come, and this is to be answered.
    Asking(Answer),
    /// Its response is being sent.
    Answering,
    /// Its whole response has been sent: what still comes is discarded, so that the response can
    /// arrive before the link is closed.
    Draining,
}

/// The connection is over: its link is to be closed.
#[derive(Clone, Copy, Debug, PartialEq, Eq, Drop)]
pub(crate) struct Over;

/// An operator's link, what has come of its request, and its response.
#[derive(Drop)]
pub(crate) struct Connection<L> {
    link: L,
    phase: Phase,
    /// When it began, in milliseconds.
    since: u64,
    /// The request so far.
    held: ArrayVec<u8, LONGEST_REQUEST>,
    response: Vec<u8>,
    /// How many bytes of the response are sent.
    sent: usize,
}

impl<L: Link> Connection<L> {
    ghost use Rattle.bw_operators.specs.OperatorConnections.{HasHeld, IsConnection, asked_in};
    ghost use Rattle.bw_operators.specs.OperatorConnections.{is_silent_in};
    ghost use Rattle.bw_operators.specs.OperatorConnections.{longest_connection};
    ghost use Rattle.bw_operators.specs.Steps.{DrainsOn, EndsIn, Finishes, ReadsRequestOn};
    ghost use Rattle.bw_operators.specs.Steps.{SendsResponseOn, WorksIn};

    /// A connection over this link, which has given and taken nothing yet, from this time on.
    pub(crate) fn new(alloc: Global, link: L, now: u64) -> Connection<L>
        requires given { L.given link [] }
        requires taken { L.taken link [] }
        ensures connection { IsConnection L.Link result }
        ensures link { result.link ≡ link }
        ensures phase { result.phase ≡ Phase.Reading }
        ensures since { result.since ≡ now }
        ensures held { result.held.items ≡ [] }
    {
        Connection {
            link,
            phase: Phase::Reading,
            since: now,
            held: ArrayVec::new(),
            response: Vec::new(alloc),
            sent: 0,
        }
    }

    /// What is to be answered, once its request has come.
    pub(crate) fn asked(&self) -> Option<Answer>
        ensures { result ≡ asked_in self.now.phase }
    {
        match self.phase {
            Phase::Reading => None,
            Phase::Asking(answer) => Some(answer),
            Phase::Answering => None,
            Phase::Draining => None,
        }
    }

    /// Whether nothing is to be answered or sent: its request isn't whole, or its response is sent.
    pub(crate) fn is_silent(&self) -> bool
        ensures { result ≡ is_silent_in self.now.phase }
    {
        match self.phase {
            Phase::Reading => true,
            Phase::Asking(_answer) => false,
            Phase::Answering => false,
            Phase::Draining => true,
        }
    }

    /// When it began, in milliseconds.
    pub(crate) fn since(&self) -> u64
        ensures { result ≡ self.now.since }
    {
        self.since
    }

    /// Whether it has lasted for longer than five seconds.
    pub(crate) fn is_slow(&self, now: u64) -> bool
        ensures { result ≡ nat_lt longest_connection (now - self.now.since) }
    {
        now.saturating_sub(self.since) > LONGEST
    }

    /// Gives the connection the response to its request.
    pub(crate) fn answer(&mut self, response: Vec<u8>)
        ensures connection { (a : Answer) (s : Snapshot) → self.old.phase ≡ Phase.Asking a →
            response.items ≡ response_text a s → IsConnection L.Link self.old →
            IsConnection L.Link self.new }
        ensures phase { self.new.phase ≡ Phase.Answering }
        ensures response { self.new.response.items ≡ response.items }
        ensures sent { self.new.sent ≡ 0 }
        ensures link { self.new.link ≡ self.old.link }
        ensures since { self.new.since ≡ self.old.since }
        ensures held { self.new.held.items ≡ self.old.held.items }
    {
        self.response = response;
        self.sent = 0;
        self.phase = Phase::Answering;
    }

    /// Reads some of its request, sends some of its response, or discards what comes after it. No
    /// call waits.
    ///
    /// # Errors
    /// It is over.
    pub(crate) fn work(&mut self) -> Result<(), Over>
        ensures connection { IsConnection L.Link self.old → IsConnection L.Link self.new }
        ensures works { OnOk result (WorksIn L.Link self.old.phase self.old self.new) }
        ensures over { OnErr result (EndsIn L.Link self.old.phase self.old.link self.new.link) }
        ensures since { self.new.since ≡ self.old.since }
    {
        match self.phase {
            Phase::Reading => self.read(),
            Phase::Asking(_answer) => Ok(()),
            Phase::Answering => self.send(),
            Phase::Draining => self.drain(),
        }
    }

    /// Reads some of the request.
    fn read(&mut self) -> Result<(), Over>
        requires { self.old.phase ≡ Phase.Reading }
        ensures connection { IsConnection L.Link self.old → IsConnection L.Link self.new }
        ensures works { OnOk result (ReadsRequestOn L.Link self.old self.new) }
        ensures over { OnErr result (EndsIn L.Link Phase.Reading self.old.link self.new.link) }
        ensures since { self.new.since ≡ self.old.since }
    {
        let mut buffer = [0u8; LONGEST_REQUEST];
        let room = LONGEST_REQUEST - self.held.len();
        match self.link.receive(&mut buffer[..room]) {
            Received::Bytes(count) => {
                self.hold(&buffer[..count]);
                Ok(())
            }
            Received::Nothing => Ok(()),
            Received::Ended => Err(Over),
            Received::Failed => Err(Over),
        }
    }

    /// Holds a piece of the request, and decides what is to be answered if it is whole.
    fn hold(&mut self, piece: &[u8])
        requires phase { self.old.phase ≡ Phase.Reading }
        requires room { length self.old.held.items + length piece.now ≤ longest_request }
        ensures link { self.new.link ≡ self.old.link }
        ensures held { self.new.held.items ≡ self.old.held.items ++ piece.now }
        ensures phase { HasHeld self.new.held.items self.new.phase }
        ensures since { self.new.since ≡ self.old.since }
    {
        let _ = self.held.try_extend_from_slice(piece);
        match answer_to(self.held.as_slice()) {
            Some(answer) => self.phase = Phase::Asking(answer),
            None => {}
        }
    }

    /// Sends some of the response.
    fn send(&mut self) -> Result<(), Over>
        requires { self.old.phase ≡ Phase.Answering }
        ensures connection { IsConnection L.Link self.old → IsConnection L.Link self.new }
        ensures works { OnOk result (SendsResponseOn L.Link self.old self.new) }
        ensures over { OnErr result (EndsIn L.Link Phase.Answering self.old.link self.new.link) }
        ensures since { self.new.since ≡ self.old.since }
    {
        let waiting = waiting_of(self.response.as_slice(), self.sent);
        match self.link.send(waiting) {
            Sent::Bytes(count) => {
                self.sent += count;
                self.finish();
                Ok(())
            }
            Sent::Nothing => Ok(()),
            Sent::Failed => Err(Over),
        }
    }

    /// Once the response is sent whole, the peer is informed that no more will come.
    fn finish(&mut self)
        requires { self.old.phase ≡ Phase.Answering }
        ensures connection { IsConnection L.Link self.old → IsConnection L.Link self.new }
        ensures finishes { Finishes L.Link self.old self.new }
        ensures since { self.new.since ≡ self.old.since }
    {
        if self.sent < self.response.len() {
            return;
        }
        self.link.shut();
        self.phase = Phase::Draining;
    }

    /// Reads and discards what comes.
    fn drain(&mut self) -> Result<(), Over>
        requires { self.old.phase ≡ Phase.Draining }
        ensures connection { IsConnection L.Link self.old → IsConnection L.Link self.new }
        ensures works { OnOk result (DrainsOn L.Link self.old self.new) }
        ensures over { OnErr result (EndsIn L.Link Phase.Draining self.old.link self.new.link) }
        ensures since { self.new.since ≡ self.old.since }
    {
        let mut buffer = [0u8; LONGEST_REQUEST];
        match self.link.receive(&mut buffer) {
            Received::Bytes(_count) => Ok(()),
            Received::Nothing => Ok(()),
            Received::Ended => Err(Over),
            Received::Failed => Err(Over),
        }
    }
}

/// What is still to be sent of a response of which this many bytes are sent.
fn waiting_of(response: &[u8], sent: usize) -> &[u8]
    ensures { result.now ≡ drop sent response.now }
{
    &response[sent.min(response.len())..]
}
