//! A simulation: a sender, a server, and all that went between them.
ghost use Rattle.std.specs.Prelude.{◌≡◌, ◌≤◌, ◌+◌, ◌++◌, ℕ, Some, None, IsSome, IfOk, OnOk, OnErr};
ghost use Rattle.std.specs.Prelude.{length, vec_capacity, slice_get, option_map};
ghost use Rattle.bw_model.specs.Wire.{Message as Said, Says};
ghost use Rattle.bw_model.specs.World.{World, Offer, Send, Deliver, Bring, Ask, new_world};
ghost use Rattle.bw_model.specs.World.{Sender as Offering, offer, pending};
ghost use Rattle.bw_wire.specs.EncodedFrames.{IsFrameOf};
ghost use Rattle.bw_wire.specs.Frames.{message_of};
ghost use Rattle.bw_sender.specs.Offers.{fault_of};
ghost use Rattle.bw_sender.specs.Senders.{IsSender};
ghost use Rattle.bw_commands.specs.RehearsedWorlds.{event_meaning};
ghost use Rattle.bw_commands.specs.Simulations.{IsSimulated, PlaysOn, TakesMemory, LacksRoom};
ghost use Rattle.bw_commands.specs.Simulations.{failures_on};

use crate::event::Event;
use arrayvec::ArrayVec;
use bw_layout::Limit;
use bw_model::{Name, Request};
use bw_sender::{OfferError, Sender};
use bw_session::Server;
use bw_store::MemoryStore;
use bw_wire::{Frame, Message, Reply, decode, encode};
use std::alloc::{AllocError, Global};

/// The most replies to one message.
const REPLIES: usize = 17;

/// A sender and a server, all messages that were ever sent, and all replies that were ever written.
#[derive(Drop)]
pub(crate) struct Simulation {
    pub(crate) alloc: Global,
    pub(crate) sender: Sender,
    pub(crate) server: Server<MemoryStore>,
    pub(crate) offered: u64,
    /// Each in its frame.
    pub(crate) sent: Vec<Vec<u8>>,
    pub(crate) replies: Vec<Reply>,
}

impl Simulation {
    /// A simulation in which nothing has happened yet.
    ///
    /// # Errors
    /// `AllocError` if memory was refused.
    pub(crate) fn new(alloc: Global, name: Name, limit: Limit) -> Result<Simulation, AllocError>
        ensures simulated { IfOk result (λ s. IsSimulated limit (new_world name) s) }
        ensures failures { IfOk result (λ s. failures_on s ≡ 0) }
    {
        let sender = Sender::new(alloc, name)?;
        let Ok(server) = Server::new(alloc, MemoryStore::new(alloc), limit) else {
            return Err(AllocError);
        };
        Ok(Simulation {
            alloc,
            sender,
            server,
            offered: 0,
            sent: Vec::new(alloc),
            replies: Vec::new(alloc),
        })
    }

    /// Plays an event.
    ///
    /// # Errors
    /// `AllocError` if memory was refused to the sender or to the network: the server received
    /// nothing.
    pub(crate) fn play(&mut self, event: &Event) -> Result<(), AllocError>
        ensures ok { (limit : ℕ) (w : World) → IsSimulated limit w self.old →
            OnOk result (PlaysOn limit w (event_meaning event.now) self.old self.new) }
        ensures err { (limit : ℕ) (w : World) → IsSimulated limit w self.old →
            OnErr result (TakesMemory self.old w (event_meaning event.now)) }
        ensures server { OnErr result (self.new.server ≡ self.old.server) }
    {
        match event {
            Event::Offer(request) => self.offer(request),
            Event::Send(place) => self.send(*place),
            Event::Deliver(place) => self.deliver(*place),
            Event::Bring(place) => {
                self.bring(*place);
                Ok(())
            }
            Event::Ask => self.ask(),
        }
    }

    /// Offers a copy of the request to the sender.
    ///
    /// # Errors
    /// `AllocError` if memory was refused.
    fn offer(&mut self, request: &Request) -> Result<(), AllocError>
        ensures ok { (limit : ℕ) (w : World) → IsSimulated limit w self.old →
            OnOk result (PlaysOn limit w (Offer request.now) self.old self.new) }
        ensures server { self.new.server ≡ self.old.server }
    {
        offer_copy(self.alloc, &mut self.sender, &mut self.offered, request)
    }

    /// Sends the pending request at a place.
    ///
    /// # Errors
    /// `AllocError` if memory was refused.
    fn send(&mut self, place: usize) -> Result<(), AllocError>
        ensures ok { (limit : ℕ) (w : World) → IsSimulated limit w self.old →
            OnOk result (PlaysOn limit w (Send place) self.old self.new) }
        ensures err { (limit : ℕ) (w : World) → IsSimulated limit w self.old →
            OnErr result (IsSome (pending w.sender place)) }
        ensures server { self.new.server ≡ self.old.server }
    {
        let Some((number, request)) = self.sender.pending(place) else {
            return Ok(());
        };
        let frame = encode(self.alloc, self.sender.name(), number, &request.as_ref())?;
        self.sent.push(frame)?;
        Ok(())
    }

    /// Gives the sent message at a place to the server.
    ///
    /// # Errors
    /// `AllocError` if memory was refused for the replies: the server did not receive it.
    fn deliver(&mut self, place: usize) -> Result<(), AllocError>
        ensures ok { (limit : ℕ) (w : World) → IsSimulated limit w self.old →
            OnOk result (PlaysOn limit w (Deliver place) self.old self.new) }
        ensures err { (limit : ℕ) (w : World) → IsSimulated limit w self.old →
            OnErr result (IsSome (slice_get w.sent place)) }
        ensures full { OnErr result (LacksRoom 17 self.old) }
        ensures server { OnErr result (self.new.server ≡ self.old.server) }
    {
        let Some(frame) = self.sent.get(place) else {
            return Ok(());
        };
        // What was sent is the frame of a message.
        let Some(message) = message_in(frame) else {
            return Ok(());
        };
        self.replies.reserve(REPLIES)?;
        let mut reported = ArrayVec::new();
        self.server.turn(&message, &mut reported);
        append(&mut self.replies, reported);
        Ok(())
    }

    /// Brings the written reply at a place to the sender.
    fn bring(&mut self, place: usize)
        ensures { (limit : ℕ) (w : World) → IsSimulated limit w self.old →
            PlaysOn limit w (Bring place) self.old self.new }
    {
        if let Some(reply) = self.replies.get(place) {
            self.sender.on_reply(reply);
        }
    }

    /// Asks the server for the next number of the sender's name.
    ///
    /// # Errors
    /// `AllocError` if memory was refused.
    fn ask(&mut self) -> Result<(), AllocError>
        ensures ok { (limit : ℕ) (w : World) → IsSimulated limit w self.old →
            OnOk result (PlaysOn limit w Ask self.old self.new) }
        ensures full { OnErr result (LacksRoom 1 self.old) }
        ensures server { self.new.server ≡ self.old.server }
    {
        let reply = self.server.ask(self.sender.name(), 0);
        self.replies.push(reply)?;
        Ok(())
    }
}

/// Offers a copy of the request to a sender, and counts the requests that it took over.
///
/// # Errors
/// `AllocError` if memory was refused.
pub fn offer_copy(
    alloc: Global,
    sender: &mut Sender,
    offered: &mut u64,
    request: &Request,
) -> Result<(), AllocError>
    ensures { (s : Offering) → IsSender s sender.old → offered.old ≡ length s.offered →
        OnOk result (IsSender (offer s request.now) sender.new
        × (offered.new ≡ length (offer s request.now).offered)) }
{
    let copy = request.as_ref().to_request(alloc)?;
    match sender.offer(copy) {
        Ok(number) => {
            *offered = u64::from(number) + 1;
            Ok(())
        }
        Err((error, _request)) => unless_memory(error),
    }
}

/// Continues after an offer that the sender refused by its rules.
///
/// # Errors
/// `AllocError` if the cause was lack of memory.
fn unless_memory(error: OfferError) -> Result<(), AllocError>
    ensures ok { OnOk result (IsSome (fault_of error)) }
    ensures err { OnErr result (fault_of error ≡ None) }
{
    match error {
        OfferError::Memory => Err(AllocError),
        OfferError::NumbersSpent
        | OfferError::BeforeOpen
        | OfferError::AfterClose
        | OfferError::WindowFull => Ok(()),
    }
}

/// The message of a frame.
pub fn message_in(frame: &[u8]) -> Option<Message<'_>>
    ensures { (m : Said) → IsFrameOf (Says m) frame.now → option_map message_of result ≡ Some m }
{
    if frame.len() < 4 {
        return None;
    }
    match decode(&frame[4..]) {
        Ok(Frame::Message(message)) => Some(message),
        Ok(Frame::Ask(_ask)) => None,
        Ok(Frame::Bye) => None,
        Err(_reason) => None,
    }
}

/// Adds the replies of a turn after the others; there is room for them.
pub fn append(replies: &mut Vec<Reply>, reported: ArrayVec<Reply, 17>)
    requires { length replies.old.items + length reported.items ≤ vec_capacity replies.old }
    ensures { replies.new.items ≡ replies.old.items ++ reported.items }
{
    for reply in reported {
        replies.push(reply).unwrap();
    }
}
