//! A server: what it keeps of each name, over a store and its journal.
ghost use Rattle.std.specs.Prelude.{◌≡◌, ◌<◌, ◌≤◌, ◌+◌, ◌*◌, ◌&&◌, ◌||◌, ℕ, List, [], Option, None};
ghost use Rattle.std.specs.Prelude.{IsTrue, IfOk, OnOk, IfErr, OnErr, IfSome, IsSome, is_some, nat_le};
ghost use Rattle.bw_journal.specs.JournalHeaders.{header_bytes};
ghost use Rattle.bw_journal.specs.Notes.{IsPrefixOf};
ghost use Rattle.std.specs.Prelude.{false, length, map, vec_capacity};
ghost use Rattle.std.specs.List.{All};
ghost use Rattle.std.specs.HashMap.{hash_map_len, spare, IsUnique};
ghost use Rattle.std.specs.Str.{bytes_eq};
ghost use Rattle.bw_model.specs.Turn.{most_takes, window, is_turned_away, notice as refusal};
ghost use Rattle.bw_model.specs.Wire.{Second, last_number, Says};
ghost use Rattle.bw_model.specs.CountedTurn.{is_delay};
ghost use Rattle.bw_wire.specs.Notices.{notice_meaning};
ghost use Rattle.bw_model.specs.Book.{Book, log_of, is_known, made};
ghost use Rattle.bw_model.specs.Take.{parts, frames as frames_of};
ghost use Rattle.bw_model.specs.Replies.{Noticed, Next};
ghost use Rattle.bw_journal.specs.Entries.{longest_entry};
ghost use Rattle.bw_wire.specs.Frames.{message_of};
ghost use Rattle.bw_wire.specs.Replies.{reply_of, HasWireNumbers};
ghost use Rattle.bw_session.specs.ServedMessages.{UsesBoth};
ghost use Rattle.bw_session.specs.Servers.{done_in};
ghost use Rattle.bw_session.specs.Tables.{IsTable, session_in};
ghost use Rattle.bw_session.specs.ServedReplies.{IsServing};

use crate::numbering::Stores;
use crate::session::Session;
use crate::window::SLOTS;
use arrayvec::ArrayVec;
use bw_journal::{ENTRY_MAX, Journal, NoJournal};
use bw_layout::Limit;
use bw_model::Name;
use bw_store::TakeStore;
use bw_wire::{Message, Notice, Reply};
use std::alloc::{AllocError, Global};
use std::collections::HashMap;

/// The most names that a server takes.
pub(crate) const NAMES: usize = 256;

/// Answers messages over a store and, optionally, a journal.
#[derive(Drop)]
pub struct Server<S: TakeStore, J: Journal = NoJournal> {
    pub(crate) sessions: HashMap<Name, Session>,
    pub(crate) stores: Stores<S, J>,
    pub(crate) limit: Limit,
    ghost table: { IsTable sessions limit },
}

impl<S: TakeStore> Server<S> {
    ghost use Rattle.bw_session.specs.Books.{HoldsBook};
    ghost use Rattle.bw_session.specs.SeenServers.{server_store, server_limit};

    /// Creates a server that knows no name, over a store alone.
    ///
    /// # Errors
    /// `AllocError`, with the store, if memory was refused.
    ///
    /// # Not specified
    /// When memory is refused.
    pub fn new(alloc: Global, store: S, limit: Limit) -> Result<Server<S>, (AllocError, S)>
        ensures store { IfOk result (λ s. server_store s ≡ store) }
        ensures limit { IfOk result (λ s. server_limit s ≡ limit) }
        ensures book { IfOk result (λ s.
            HoldsBook S.TakeStore ⟦<NoJournal as Journal>⟧ (S.contents store) s []) }
        ensures back { IfErr result (λ e. e.1 ≡ store) }
    {
        match Server::with_journal(alloc, store, NoJournal, limit) {
            Ok(server) => Ok(server),
            Err((error, store, _none)) => Err((error, store)),
        }
    }
}

impl<S: TakeStore, J: Journal> Server<S, J> {
    ghost use Rattle.bw_session.specs.Books.{HoldsBook, NotesBook, TurnsBooks, NotesBooks, KeepsBooks};
    ghost use Rattle.bw_session.specs.Books.{LeavesServer, UsesInTurn, AsksTurn, Turned};
    ghost use Rattle.bw_session.specs.Books.{OrdersBooks, of_known, count_waiting};
    ghost use Rattle.bw_session.specs.SeenServers.{server_store, server_journal, server_limit};
    ghost use Rattle.bw_session.specs.SeenServers.{session_kept, kept_now};

    /// Creates a server that knows no name, over a store and a journal.
    ///
    /// If the journal has only prefixes of headers, which say which names existed, it notes the
    /// empty book.
    ///
    /// # Errors
    /// `AllocError`, with the store and the journal, if memory was refused.
    ///
    /// # Not specified
    /// When memory is refused.
    pub fn with_journal(
        alloc: Global,
        store: S,
        journal: J,
        limit: Limit,
    ) -> Result<Server<S, J>, (AllocError, S, J)>
        ensures store { IfOk result (λ s. server_store s ≡ store) }
        ensures journal { IfOk result (λ s. server_journal s ≡ journal) }
        ensures limit { IfOk result (λ s. server_limit s ≡ limit) }
        ensures book { IfOk result (λ s. HoldsBook S.TakeStore J.Journal (S.contents store) s []) }
        ensures notes { IfOk result (λ s. ((name : List ℕ) →
            IsPrefixOf (header_bytes name (J.header journal name)) (J.notes journal name)) →
            ((name : List ℕ) → (J.header journal name).existed ≡ is_some (S.contents store name)) →
            NotesBook S.TakeStore J.Journal (S.contents store) s []) }
        ensures store_back { IfErr result (λ e. e.1 ≡ store) }
        ensures journal_back { IfErr result (λ e. e.2 ≡ journal) }
    {
        let (sessions, entry) = match tables(alloc) {
            Ok(tables) => tables,
            Err(error) => return Err((error, store, journal)),
        };
        Ok(Server {
            sessions,
            stores: Stores {
                alloc,
                store,
                journal,
                entry,
            },
            limit,
        })
    }

    /// Takes a message, and puts the replies to its sender into `out`, which is emptied first: the
    /// verdicts of the numbers of its name that this turn does, in order, at most sixteen; then the
    /// reply to the message itself, if its verdict isn't among these.
    ///
    /// For each number that is done, any store gets all calls of its judged request, in order; for
    /// one whose store call failed, the first of them.
    ///
    /// A held message is done when those before it have come; after a failure, when the next message
    /// of its name comes: if only its note failed it is noted alone, and the store is asked for
    /// nothing. Whichever calls fail, a message that waits is written in order: nothing to its file
    /// before its journal is begun, and no byte of its entry before its request is carried out.
    ///
    /// # Not specified
    /// - When a growth is refused, as NoRoom reports it.
    /// - Over a store that isn't honest (no contract says that the system's disk is): which replies
    ///   come, except their number, their range and DelayedStore; that `out` was emptied; and what the
    ///   server then holds, so also what `ask`, `done` and the other methods that report it return.
    /// - Whether the store or the journal failed, and which of them DelayedStore reports.
    pub fn turn(&mut self, message: &Message<'_>, out: &mut ArrayVec<Reply, 17>)
        ensures few { length out.new.items ≤ 17 }
        ensures numbers { All HasWireNumbers out.new.items }
        // NoRoom and TableFull cost no call, and change no name.
        ensures uncalled { IsTrue (is_turned_away (map reply_of out.new.items)) →
            (server_store self.new ≡ server_store self.old)
            × (server_journal self.new ≡ server_journal self.old)
            × ((name : List ℕ) → kept_now self.new name ≡ kept_now self.old name) }
        // A message whose name isn't known after it changes nothing.
        ensures unmet { session_kept self.new (message_of message.now).name ≡ None →
            LeavesServer S.TakeStore J.Journal self.old self.new }
        // At most four store calls for each done number and one more number; no other name changes.
        ensures both { UsesInTurn S.TakeStore J.Journal self.old self.new (message_of message.now)
            out.new.items }
        // A done number asks all calls of its judged request (kind, offset, length), in order.
        ensures asked { AsksTurn S.TakeStore J.Journal self.old self.new (message_of message.now) }
        ensures limit { server_limit self.new ≡ server_limit self.old }
        // Replies and later book are the definitions'; a failure counts where draining stops.
        ensures turned { TurnsBooks S.TakeStore J.Journal self.old self.new (message_of message.now)
            out.new.items }
        // An honest journal has each name's header and done entries, and a prefix of the next.
        ensures noted { NotesBooks S.TakeStore J.Journal self.old self.new (message_of message.now)
            out.new.items }
        // No byte of an entry is in the journal before its request is carried out.
        ensures ordered { OrdersBooks S.TakeStore J.Journal self.old self.new
            (Says (message_of message.now)) }
    {
        out.clear();
        let name = message.name();
        match self.sessions.get_mut(&name) {
            Some(session) => session.answer(&mut self.stores, message, out),
            None => self.meet(name, message, out),
        }
    }

    /// Takes a message of a name that isn't known.
    fn meet(&mut self, name: Name, message: &Message<'_>, out: &mut ArrayVec<Reply, 17>)
        requires name { (message_of message.now).name ≡ name }
        requires empty { out.old.items ≡ [] }
        requires fresh { session_in self.old.sessions name ≡ None }
        ensures few { length out.new.items ≤ 17 }
        ensures numbers { All HasWireNumbers out.new.items }
        ensures uncalled { IsTrue (is_turned_away (map reply_of out.new.items)) →
            (self.new.stores.store ≡ self.old.stores.store)
            × (self.new.stores.journal ≡ self.old.stores.journal)
            × (self.new.sessions ≡ self.old.sessions) }
        ensures unmet { session_in self.new.sessions (message_of message.now).name ≡ None →
            LeavesServer S.TakeStore J.Journal self.old self.new }
        ensures both { UsesInTurn S.TakeStore J.Journal self.old self.new (message_of message.now)
            out.new.items }
        ensures limit { self.new.limit ≡ self.old.limit }
        ensures turned { Turned S.TakeStore J.Journal self.old self.new (message_of message.now)
            out.new.items }
    {
        if let Err(code) = self.try_meet(&name, message, out) {
            out.push(Reply::Notice {
                name,
                number: message.number(),
                code,
                next: 0,
            });
        }
    }

    /// Serves the first message of a name, if there is room for the name and the message.
    ///
    /// # Errors
    /// Why it is turned away; nothing is changed.
    fn try_meet(
        &mut self,
        name: &Name,
        message: &Message<'_>,
        out: &mut ArrayVec<Reply, 17>,
    ) -> Result<(), Notice>
        requires name { (message_of message.now).name ≡ name.now }
        requires empty { out.old.items ≡ [] }
        requires fresh { session_in self.old.sessions name.now ≡ None }
        ensures few { length out.new.items ≤ 17 }
        ensures reported { All IsServing out.new.items }
        ensures both { UsesInTurn S.TakeStore J.Journal self.old self.new (message_of message.now)
            out.new.items }
        ensures limit { self.new.limit ≡ self.old.limit }
        ensures left { OnErr result (LeavesServer S.TakeStore J.Journal self.old self.new) }
        ensures unreported { OnErr result (out.new.items ≡ []) }
        ensures met { OnOk result (IsSome (session_in self.new.sessions name.now)) }
        ensures turned { OnOk result (Turned S.TakeStore J.Journal self.old self.new
            (message_of message.now) out.new.items) }
        ensures prompt { IfErr result (λ code. is_delay (notice_meaning code) ≡ false) }
        ensures away { IfErr result (λ code. IsTrue
            (is_turned_away (refusal (message_of message.now) (notice_meaning code) 0)
            || nat_le window (message_of message.now).number)) }
        ensures refused { IfErr result (λ code. KeepsBooks S.TakeStore J.Journal self.old
            (message_of message.now) (refusal (message_of message.now) (notice_meaning code) 0)) }
    {
        if SLOTS <= message.number() as usize {
            return Err(Notice::TooFar);
        }
        if self.sessions.len() == NAMES {
            return Err(Notice::TableFull);
        }
        match self.begin(name, message, out) {
            Ok(()) => Ok(()),
            Err(_refused) => Err(Notice::NoRoom),
        }
    }

    /// Serves the first message of a name, which is known afterwards.
    ///
    /// # Errors
    /// `AllocError` if a growth was refused: nothing changed.
    fn begin(
        &mut self,
        name: &Name,
        message: &Message<'_>,
        out: &mut ArrayVec<Reply, 17>,
    ) -> Result<(), AllocError>
        requires name { (message_of message.now).name ≡ name.now }
        requires empty { out.old.items ≡ [] }
        requires fresh { session_in self.old.sessions name.now ≡ None }
        requires place { hash_map_len self.old.sessions < most_takes }
        requires unique { IsUnique bytes_eq self.old.sessions }
        requires near { (message_of message.now).number < window }
        ensures few { length out.new.items ≤ 17 }
        ensures reported { All IsServing out.new.items }
        ensures both { UsesBoth S.TakeStore J.Journal name.now
            self.old.stores.store self.new.stores.store
            self.old.stores.journal self.new.stores.journal
            0 (done_in self.new.sessions name.now) out.new.items }
        ensures limit { self.new.limit ≡ self.old.limit }
        ensures left { OnErr result (LeavesServer S.TakeStore J.Journal self.old self.new) }
        ensures unreported { OnErr result (out.new.items ≡ []) }
        ensures met { OnOk result (IsSome (session_in self.new.sessions name.now)) }
        ensures turned { OnOk result (Turned S.TakeStore J.Journal self.old self.new
            (message_of message.now) out.new.items) }
    {
        let mut session = Session::new(self.stores.alloc, name.copy(), self.limit)?;
        session.serve(&mut self.stores, message, out)?;
        match self.sessions.insert(name.copy(), session) {
            Ok(_none) => Ok(()),
            // The table has room for every name that it takes.
            Err(_full) => unreachable!(),
        }
    }

    /// The reply to an ask: how many numbers of the name have their verdicts, 0 for an unknown
    /// name. The number in the ask is repeated.
    ///
    /// # Not specified
    /// How many it reports after a turn over a store that isn't honest.
    pub fn ask(&self, name: &Name, number: u32) -> Reply
        ensures value { (first : List ℕ → Option (List ℕ)) (book : Book) →
            HoldsBook S.TakeStore J.Journal first self.now book →
            reply_of result ≡ Noticed name.now number Next (log_of book name.now).done }
        ensures notice { (next : ℕ) × (reply_of result ≡ Noticed name.now number Next next) }
        ensures numbers { number ≤ last_number Second → HasWireNumbers result }
    {
        Reply::Notice {
            name: name.copy(),
            number,
            code: Notice::Next,
            next: self.done(name).unwrap_or(0),
        }
    }

    /// How many numbers of a name have their verdicts, at most 16,777,216; None if it isn't known.
    ///
    /// # Not specified
    /// Anything after a turn over a store that isn't honest.
    pub fn done(&self, name: &Name) -> Option<u32>
        ensures value { (first : List ℕ → Option (List ℕ)) (book : Book) →
            HoldsBook S.TakeStore J.Journal first self.now book →
            result ≡ of_known book name.now (λ log. log.done) }
        ensures range { IfSome result (λ n. n ≤ last_number Second + 1) }
    {
        let session = self.sessions.get(name)?;
        Some(session.progress.ledger.len() as u32)
    }

    /// How many whole sample frames a name's take has, 0 without a format; None if the name isn't
    /// known.
    ///
    /// # Not specified
    /// Anything after a turn over a store that isn't honest.
    pub fn frames(&self, name: &Name) -> Option<u64>
        ensures { (first : List ℕ → Option (List ℕ)) (book : Book) →
            HoldsBook S.TakeStore J.Journal first self.now book →
            result ≡ of_known book name.now (λ log.
            frames_of (parts (made (is_some (first name.now)) log.admitted log.done))) }
    {
        let session = self.sessions.get(name)?;
        Some(session.progress.state.frames())
    }

    /// Whether a name's take is closed; false for an unknown name too.
    ///
    /// # Not specified
    /// Anything after a turn over a store that isn't honest.
    pub fn is_closed(&self, name: &Name) -> bool
        ensures { (first : List ℕ → Option (List ℕ)) (book : Book) →
            HoldsBook S.TakeStore J.Journal first self.now book →
            result ≡ is_known book name.now && (made (is_some (first name.now))
            (log_of book name.now).admitted (log_of book name.now).done).closed }
    {
        match self.sessions.get(name) {
            Some(session) => session.progress.state.is_closed(),
            None => false,
        }
    }

    /// How many admitted messages of a name have no verdict yet, at most 16; None if the name isn't
    /// known.
    ///
    /// # Not specified
    /// Anything after a turn over a store that isn't honest.
    pub fn held(&self, name: &Name) -> Option<usize>
        ensures value { (first : List ℕ → Option (List ℕ)) (book : Book) →
            HoldsBook S.TakeStore J.Journal first self.now book →
            result ≡ of_known book name.now count_waiting }
        ensures range { IfSome result (λ n. n ≤ window) }
    {
        let session = self.sessions.get(name)?;
        Some(session.window.count())
    }

    /// How many bytes are kept of the done numbers of a name: 33 for each; None if the name isn't
    /// known.
    ///
    /// # Not specified
    /// Anything after a turn over a store that isn't honest.
    pub fn kept_bytes(&self, name: &Name) -> Option<u64>
        ensures { (first : List ℕ → Option (List ℕ)) (book : Book) →
            HoldsBook S.TakeStore J.Journal first self.now book →
            result ≡ of_known book name.now (λ log. 33 * log.done) }
    {
        let session = self.sessions.get(name)?;
        Some(session.progress.ledger.byte_count())
    }

    /// The store.
    pub fn store(&self) -> &S
        ensures { result.now ≡ server_store self.now }
    {
        &self.stores.store
    }

    /// Consumes the server and returns its store.
    pub fn into_store(self) -> S
        ensures { result ≡ server_store self }
    {
        let Server { stores, .. } = self;
        let Stores { store, .. } = stores;
        store
    }
}

/// Room for the sessions of all names, and for one entry of the journal.
pub(crate) fn tables(alloc: Global) -> Result<(HashMap<Name, Session>, Vec<u8>), AllocError>
    ensures empty { IfOk result (λ t. t.0.entries ≡ []) }
    ensures room { IfOk result (λ t. most_takes ≤ spare t.0) }
    ensures entry { IfOk result (λ t. longest_entry ≤ vec_capacity t.1) }
{
    let sessions = HashMap::with_capacity(alloc, NAMES)?;
    let entry = Vec::with_capacity(alloc, ENTRY_MAX)?;
    Ok((sessions, entry))
}
