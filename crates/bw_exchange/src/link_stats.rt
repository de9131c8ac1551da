//! A server that counts what it answers over one link.
ghost use Rattle.std.specs.Prelude.{◌≡◌};
ghost use Rattle.std.specs.List.{list_any};
ghost use Rattle.std.specs.Str.{bytes_eq};
ghost use Rattle.bw_model.specs.Wire.{Says};
ghost use Rattle.bw_wire.specs.Frames.{message_of};
ghost use Rattle.bw_exchange.specs.LinkCounts.{none_counted, counting_frame};

use crate::turns::{NotKept, Turns};
use arrayvec::ArrayVec;
use bw_model::Name;
use bw_wire::{Ask, Message, Reply};
use std::marker::Model;
use std::mem;
use std::net::SocketAddr;

/// How many names a tally keeps.
const NAMES: usize = 8;

/// The bytes of a name, or none: an unused place of a tally.
#[derive(Drop)]
pub struct KnownName {
    bytes: ArrayVec<u8, 32>,
}

impl Model for KnownName {
    ghost use Rattle.std.specs.Prelude.{◌≤◌, ℕ, List, length};

    ghost Value = { List ℕ };

    ghost view = { λ n. n.bytes.items };

    ghost invariant = { λ n. length n.bytes.items ≤ 32 };

    ghost inverse = { λ v. record { bytes = record { items = v } } };
}

impl Default for KnownName {
    /// An unused place.
    fn default() -> KnownName {
        KnownName {
            bytes: ArrayVec::new(),
        }
    }
}

impl KnownName {
    fn of(name: &Name) -> KnownName
        ensures { result ≡ name.now }
    {
        let mut bytes = ArrayVec::new();
        let _ = bytes.try_extend_from_slice(name.as_bytes());
        KnownName { bytes }
    }

    /// The name's bytes, at most 32; empty for an unused place.
    pub fn as_bytes(&self) -> &[u8]
        ensures { result.now ≡ self.now }
    {
        self.bytes.as_slice()
    }
}

/// The messages that came over a link: how many, the bytes of their bodies, and their first eight
/// names, each once. The counts stay at 2^64 - 1.
#[derive(Drop)]
pub struct LinkStats {
    messages: u64,
    bytes: u64,
    names: ArrayVec<KnownName, NAMES>,
}

impl Model for LinkStats {
    ghost use Rattle.bw_exchange.specs.LinkCounts.{Counted};

    ghost Value = { Counted };

    ghost view = { λ t. record { messages = t.messages; bytes = t.bytes; names = t.names.items } };

    ghost inverse = { λ c. record {
      messages = c.messages;
      bytes = c.bytes;
      names = record { items = c.names };
    } };
}

impl LinkStats {
    /// Counts of no messages.
    pub fn new() -> LinkStats
        ensures { result ≡ none_counted }
    {
        LinkStats {
            messages: 0,
            bytes: 0,
            names: ArrayVec::new(),
        }
    }

    /// How many messages came, at most 2^64 - 1.
    pub fn messages(&self) -> u64
        ensures { result ≡ self.now.messages }
    {
        self.messages
    }

    /// How many bytes their bodies have, at most 2^64 - 1.
    pub fn bytes(&self) -> u64
        ensures { result ≡ self.now.bytes }
    {
        self.bytes
    }

    /// Their first names, each once, in the order in which they came.
    pub fn names(&self) -> &[KnownName]
        ensures { result.now ≡ self.now.names }
    {
        self.names.as_slice()
    }

    fn count(&mut self, message: &Message<'_>)
        ensures { self.new ≡ counting_frame self.old (Says (message_of message.now)) }
    {
        let name = message.name();
        self.messages = self.messages.saturating_add(1);
        self.bytes = self.bytes.saturating_add(message.body().len() as u64);
        if !self.has_name(&name) {
            let _full = self.names.try_push(KnownName::of(&name));
        }
    }

    fn has_name(&self, name: &Name) -> bool
        ensures { result ≡ list_any (λ n. bytes_eq n name.now) self.now.names }
    {
        let name = name.as_bytes();
        self.names.iter().any(|known| known.as_bytes() == name)
    }
}

/// A server that counts the messages of each link for itself.
#[derive(Drop)]
pub struct Metered<T> {
    server: T,
    link_stats: LinkStats,
}

impl<T> Metered<T> {
    ghost use Rattle.bw_exchange.specs.MeteredServers.{metered_server, metered_counts};

    /// Wraps a server; nothing is counted yet.
    pub fn new(server: T) -> Metered<T>
        ensures server { metered_server result ≡ server }
        ensures link_stats { metered_counts result ≡ none_counted }
    {
        Metered {
            server,
            link_stats: LinkStats::new(),
        }
    }

    /// The wrapped server.
    pub fn server(&self) -> &T
        ensures { result.now ≡ metered_server self.now }
    {
        &self.server
    }

    /// What was counted since the last `start`.
    pub fn link_stats(&self) -> &LinkStats
        ensures { result.now ≡ metered_counts self.now }
    {
        &self.link_stats
    }

    /// Swaps the counts so far with another link's, to continue from those.
    pub fn swap_link_stats(&mut self, link_stats: &mut LinkStats)
        ensures server { metered_server self.new ≡ metered_server self.old }
        ensures link_stats { metered_counts self.new ≡ link_stats.old }
        ensures given { link_stats.new ≡ metered_counts self.old }
    {
        mem::swap(&mut self.link_stats, link_stats);
    }

    /// Counts a message that the server isn't given.
    pub fn count(&mut self, message: &Message<'_>)
        ensures server { metered_server self.new ≡ metered_server self.old }
        ensures link_stats { metered_counts self.new ≡ counting_frame (metered_counts self.old) (Says (message_of message.now)) }
    {
        self.link_stats.count(message);
    }

    /// Starts counting for another link.
    pub fn start(&mut self)
        ensures server { metered_server self.new ≡ metered_server self.old }
        ensures link_stats { metered_counts self.new ≡ none_counted }
    {
        self.link_stats = LinkStats::new();
    }
}

impl<T: Turns> Metered<T> {
    ghost use Rattle.std.specs.Prelude.{List};
    ghost use Rattle.bw_model.specs.Wire.{Frame};
    ghost use Rattle.bw_model.specs.Replies.{Reply as ModelReply};
    ghost use Rattle.bw_exchange.specs.MeteredServers.{metered_counts, metered_server};

    /// Has the wrapped server commit.
    ///
    /// # Errors
    /// `NotKept` as it says.
    pub fn commit_server(&mut self) -> Result<(), NotKept>
        ensures commits { T.commits (metered_server self.old) result (metered_server self.new) }
        ensures committed { T.committed (metered_server self.new) }
        ensures idle { T.committed (metered_server self.old) →
            metered_server self.new ≡ metered_server self.old }
        ensures answered { (first : T) (frame : Frame) (replies : List ModelReply) →
            T.answers first frame replies (metered_server self.old) →
            T.answers first frame replies (metered_server self.new) }
        ensures link_stats { metered_counts self.new ≡ metered_counts self.old }
    {
        self.server.commit()
    }
}

impl<T: Turns> Turns for Metered<T> {
    ghost use Rattle.bw_exchange.specs.MeteredServers.{AnswersCounted, metered_server};

    ghost answers = { AnswersCounted T.answers };

    ghost committed = { λ t. T.committed (metered_server t) };

    ghost commits = { λ t r t'. T.commits (metered_server t) r (metered_server t') };

    fn turn(&mut self, message: &Message<'_>, replies: &mut ArrayVec<Reply, 17>) {
        self.link_stats.count(message);
        self.server.turn(message, replies);
    }

    fn ask(&mut self, ask: &Ask<'_>) -> Reply {
        self.server.ask(ask)
    }

    fn commit(&mut self) -> Result<(), NotKept> {
        self.commit_server()
    }

    fn note_refused(&mut self, peer: SocketAddr, name: &Name) {
        self.server.note_refused(peer, name);
    }
}
