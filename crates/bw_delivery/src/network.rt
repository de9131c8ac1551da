//! A sender, all messages that were ever sent, and all replies that were ever written.
ghost use Rattle.std.specs.Prelude.{◌≡◌, ℕ, IfOk, OnOk};
ghost use Rattle.bw_model.specs.Turn.{good};
ghost use Rattle.bw_model.specs.Exchange.{nothing_stands};
ghost use Rattle.bw_model.specs.World.{World, Offer, Send, Bring, happens, new_world};
ghost use Rattle.bw_delivery.specs.Networks.{IsNetwork};

use bw_commands::offer_copy;
use bw_model::{Name, Request};
use bw_sender::Sender;
use bw_wire::{Reply, encode};
use std::alloc::{AllocError, Global};

/// A sender and the network.
#[derive(Drop)]
pub(crate) struct Network {
    pub(crate) alloc: Global,
    pub(crate) sender: Sender,
    pub(crate) offered: u64,
    /// Each in its frame.
    pub(crate) sent: Vec<Vec<u8>>,
    pub(crate) replies: Vec<Reply>,
}

impl Network {
    /// A network before anything was sent.
    ///
    /// # Errors
    /// `AllocError` if memory was refused.
    pub(crate) fn new(alloc: Global, name: Name) -> Result<Network, AllocError>
        ensures { IfOk result (λ n. IsNetwork (new_world name) n) }
    {
        let sender = Sender::new(alloc, name)?;
        Ok(Network {
            alloc,
            sender,
            offered: 0,
            sent: Vec::new(alloc),
            replies: Vec::new(alloc),
        })
    }

    /// Offers a copy of the request to the sender.
    ///
    /// # Errors
    /// `AllocError` if memory was refused.
    pub(crate) fn offer(&mut self, request: &Request) -> Result<(), AllocError>
        ensures { (w : World) → IsNetwork w self.old →
            OnOk result (IsNetwork (happens nothing_stands w (Offer request.now) good) self.new) }
    {
        offer_copy(self.alloc, &mut self.sender, &mut self.offered, request)
    }

    /// Sends the pending request at a place.
    ///
    /// # Errors
    /// `AllocError` if memory was refused.
    pub(crate) fn send(&mut self, place: usize) -> Result<(), AllocError>
        ensures { (w : World) → IsNetwork w self.old →
            OnOk result (IsNetwork (happens nothing_stands w (Send place) good) self.new) }
    {
        let Some((number, request)) = self.sender.pending(place) else {
            return Ok(());
        };
        let frame = encode(self.alloc, self.sender.name(), number, &request.as_ref())?;
        self.sent.push(frame)?;
        Ok(())
    }

    /// Brings the written reply at a place to the sender.
    pub(crate) fn bring(&mut self, place: usize)
        ensures { (w : World) → IsNetwork w self.old →
            IsNetwork (happens nothing_stands w (Bring place) good) self.new }
    {
        if let Some(reply) = self.replies.get(place) {
            self.sender.on_reply(reply);
        }
    }
}
