//! A server that counts what it is sent and what it replies.
ghost use Rattle.std.specs.Prelude.{◌≡◌, IfOk, fold, map};
ghost use Rattle.bw_wire.specs.Replies.{reply_of};
ghost use Rattle.bw_serve_status.specs.Tallies.{none_tallied, tallied, tallied_reply};

use crate::tallies::Tallies;
use arrayvec::ArrayVec;
use bw_exchange::{NotKept, Turns};
use bw_model::Name;
use bw_wire::{Ask, Message, Reply};
use std::alloc::{AllocError, Global};
use std::net::SocketAddr;

/// A server, and what it was sent and replied.
#[derive(Drop)]
pub(crate) struct Tallied<T> {
    server: T,
    tallies: Tallies,
}

impl<T> Tallied<T> {
    /// A server of which nothing is counted yet.
    ///
    /// # Errors
    /// `AllocError`, with the server, if memory was refused for the counts.
    pub(crate) fn new(alloc: Global, server: T) -> Result<Tallied<T>, (AllocError, T)>
        ensures server { IfOk result (λ t. t.server ≡ server) }
        ensures tallies { IfOk result (λ t. t.tallies ≡ none_tallied) }
    {
        match Tallies::new(alloc) {
            Ok(tallies) => Ok(Tallied { server, tallies }),
            Err(error) => Err((error, server)),
        }
    }

    /// The server.
    pub(crate) fn server(&self) -> &T
        ensures { result.now ≡ self.now.server }
    {
        &self.server
    }

    /// What is counted.
    pub(crate) fn tallies(&self) -> &Tallies
        ensures { result.now ≡ self.now.tallies }
    {
        &self.tallies
    }
}

impl<T: Turns> Turns for Tallied<T> {
    /// The server answers as it would alone, and the frame and its replies are counted.
    ghost answers = { λ t frame replies t'. T.answers t.server frame replies t'.server
        × (t'.tallies ≡ tallied t.tallies frame replies) };

    ghost committed = { λ t. T.committed t.server };

    ghost commits = { λ t result t'. T.commits t.server result t'.server };

    fn turn(&mut self, message: &Message<'_>, replies: &mut ArrayVec<Reply, 17>) {
        self.tallies.count_message(message);
        self.server.turn(message, replies);
        count_replies(&mut self.tallies, replies.as_slice());
    }

    fn ask(&mut self, ask: &Ask<'_>) -> Reply {
        self.tallies.count_ask();
        let reply = self.server.ask(ask);
        self.tallies.count_reply(&reply);
        reply
    }

    fn commit(&mut self) -> Result<(), NotKept> {
        self.server.commit()
    }

    /// Passes it on to the server. What was turned away before it came isn't counted here.
    fn note_refused(&mut self, peer: SocketAddr, name: &Name) {
        self.server.note_refused(peer, name);
    }
}

/// Counts replies.
fn count_replies(tallies: &mut Tallies, replies: &[Reply])
    ensures { tallies.new ≡ fold tallied_reply tallies.old (map reply_of replies.now) }
{
    for reply in replies {
        tallies.count_reply(reply);
    }
}
