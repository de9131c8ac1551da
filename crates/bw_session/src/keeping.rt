//! Names that leave a server's table, or come into it: store and journal stay as they are.
ghost use Rattle.std.specs.Prelude.{◌≡◌, ◌<◌, ◌+◌, ◌&&◌, ◌==◌, ℕ, nat_lt, List, Option, None};
ghost use Rattle.std.specs.Prelude.{IfOk, OnOk, OnErr, Ok, false};
ghost use Rattle.bw_model.specs.Book.{Book, log_of, is_known};
ghost use Rattle.bw_model.specs.Turn.{most_takes};
ghost use Rattle.std.specs.HashMap.{hash_map_len, spare};
ghost use Rattle.bw_session.specs.TableChanges.{is_forgettable};
ghost use Rattle.bw_session.specs.Tables.{session_in};

use crate::kept_take::KeptTake;
use crate::resuming::session_of;
use crate::server::{NAMES, Server};
use crate::session::Session;
use bw_journal::Journal;
use bw_model::Name;
use bw_store::TakeStore;
use std::alloc::AllocError;

impl Session {
    /// Whether the name may be forgotten: nothing waits, and a number is done.
    fn is_forgettable(&self) -> bool
        ensures value { result ≡ is_forgettable self.now }
    {
        self.window.count() == 0 && 0 < self.progress.ledger.len()
    }
}

impl<S: TakeStore, J: Journal> Server<S, J> {
    ghost use Rattle.bw_session.specs.Books.{HoldsBook, count_waiting, SameStores};
    ghost use Rattle.bw_session.specs.SeenServers.{server_store, server_journal, server_limit};
    ghost use Rattle.bw_session.specs.SeenServers.{session_kept, names_kept};
    ghost use Rattle.bw_session.specs.TableChanges.{forgettable_kept, KeepsTable, ForgetsNameIf};
    ghost use Rattle.bw_session.specs.TableChanges.{InsertsNow};

    /// Makes room in the table for as many names as a server takes, once one has left it.
    ///
    /// # Errors
    /// `AllocError` if memory was refused.
    fn make_place(&mut self) -> Result<(), AllocError>
        ensures place { OnOk result
            (most_takes < hash_map_len self.new.sessions + spare self.new.sessions) }
        ensures sessions { (name : List ℕ) →
            session_in self.new.sessions name ≡ session_in self.old.sessions name }
        ensures names { hash_map_len self.new.sessions ≡ hash_map_len self.old.sessions }
        ensures stores { SameStores S.TakeStore J.Journal self.old self.new }
        ensures limit { self.new.limit ≡ self.old.limit }
    {
        let needed = NAMES + 1 - self.sessions.len();
        self.sessions.reserve(needed)
    }

    /// Whether a name may be forgotten: nothing of it waits, and a number is done. False for an
    /// unknown name.
    ///
    /// # Not specified
    /// How it follows from the messages, after a turn over a store that isn't honest.
    pub fn may_forget(&self, name: &Name) -> bool
        ensures kept { result ≡ forgettable_kept self.now name.now }
        ensures value { (first : List ℕ → Option (List ℕ)) (book : Book) →
            HoldsBook S.TakeStore J.Journal first self.now book →
            result ≡ (is_known book name.now && (count_waiting (log_of book name.now) == 0)
            && nat_lt 0 (log_of book name.now).done) }
    {
        match self.sessions.get(name) {
            Some(session) => session.is_forgettable(),
            None => false,
        }
    }

    /// Forgets a name that may be forgotten: nothing is kept of it any more but its journal and its
    /// file, which aren't touched. It returns false, and nothing changes, if the name may not be
    /// forgotten.
    ///
    /// # Errors
    /// `AllocError` if memory was refused for a table that has room for each other name: what is kept
    /// of each name is as it was.
    ///
    /// # Not specified
    /// When memory is refused.
    pub fn forget(&mut self, name: &Name) -> Result<bool, AllocError>
        ensures store { server_store self.new ≡ server_store self.old }
        ensures journal { server_journal self.new ≡ server_journal self.old }
        ensures limit { server_limit self.new ≡ server_limit self.old }
        ensures value { IfOk result (λ forgotten. forgotten ≡ forgettable_kept self.old name.now) }
        ensures unready { forgettable_kept self.old name.now ≡ false → result ≡ Ok false }
        // The server holds the book without the name, whose journal and file are those of its log.
        ensures forgotten { IfOk result (λ forgotten.
            ForgetsNameIf S.TakeStore J.Journal forgotten name.now self.old self.new) }
        ensures failed { OnErr result (KeepsTable S.TakeStore J.Journal self.old self.new) }
    {
        if !self.may_forget(name) {
            return Ok(false);
        }
        self.make_place()?;
        self.sessions.remove(name);
        Ok(true)
    }

    /// Adds what is kept of a take, under a name that isn't known, to a table that isn't full
    /// (`is_known`, `is_full`). Store and journal aren't asked.
    ///
    /// # Errors
    /// `AllocError` if memory was refused: nothing has changed.
    ///
    /// # Not specified
    /// When memory is refused.
    pub fn insert(&mut self, take: KeptTake) -> Result<(), AllocError>
        requires fresh { session_kept self.old take.name ≡ None }
        requires place { names_kept self.old < most_takes }
        ensures store { server_store self.new ≡ server_store self.old }
        ensures journal { server_journal self.new ≡ server_journal self.old }
        ensures limit { server_limit self.new ≡ server_limit self.old }
        // The server holds the book with the name, if the take is that of a log.
        ensures inserted { OnOk result (InsertsNow S.TakeStore J.Journal take self.old self.new) }
        ensures failed { OnErr result (self.new ≡ self.old) }
    {
        let alloc = self.stores.alloc;
        // The clause of `len` says that no name is in the table twice.
        let _names = self.sessions.len();
        let name = take.name.copy();
        let session = session_of(alloc, self.limit, take)?;
        match self.sessions.insert(name, session) {
            Ok(_none) => Ok(()),
            // The table has room for every name that it takes.
            Err(_full) => unreachable!(),
        }
    }
}
