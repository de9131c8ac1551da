//! What a server keeps of its names, one by one.
ghost use Rattle.std.specs.Prelude.{◌≡◌, ◌≤◌, ℕ, List, Option, IsTrue, IfOk, IfSome, is_some, length};
ghost use Rattle.bw_model.specs.Book.{Book, log_of, is_known, made};
ghost use Rattle.bw_model.specs.Take.{is_format};
ghost use Rattle.bw_model.specs.Turn.{most_takes};
ghost use Rattle.bw_session.specs.KnownNames.{KnowsTaken, ListsNames};

use crate::server::Server;
use bw_journal::Journal;
use bw_layout::Fmt;
use bw_model::Name;
use bw_store::TakeStore;
use std::alloc::{AllocError, Global};

impl<S: TakeStore, J: Journal> Server<S, J> {
    ghost use Rattle.bw_session.specs.Books.{HoldsBook};
    ghost use Rattle.bw_session.specs.SeenServers.{session_kept, format_kept, taken_kept, known_kept};

    /// The format of a name's take; None if it has none, and for an unknown name.
    ///
    /// # Not specified
    /// How it follows from the messages, after a turn over a store that isn't honest.
    pub fn format(&self, name: &Name) -> Option<Fmt>
        ensures kept { result ≡ format_kept self.now name.now }
        ensures value { (first : List ℕ → Option (List ℕ)) (book : Book) →
            HoldsBook S.TakeStore J.Journal first self.now book →
            result ≡ (made (is_some (first name.now)) (log_of book name.now).admitted
            (log_of book name.now).done).format }
        ensures allowed { IfSome result (λ format. IsTrue (is_format format)) }
    {
        let session = self.sessions.get(name)?;
        session.progress.state.format()
    }

    /// Whether the server found that a file of the name existed before its own; false for an
    /// unknown name too.
    ///
    /// # Not specified
    /// - After a turn over a store that isn't honest: how it follows from the messages.
    /// - Before the first verdict NameTaken: whether the file is found yet.
    pub fn is_taken(&self, name: &Name) -> bool
        ensures kept { result ≡ taken_kept self.now name.now }
        // Only where a file existed, and from the first verdict NameTaken on.
        ensures value { (first : List ℕ → Option (List ℕ)) (book : Book) →
            HoldsBook S.TakeStore J.Journal first self.now book →
            KnowsTaken (is_some (first name.now)) (log_of book name.now) result }
    {
        match self.sessions.get(name) {
            Some(session) => session.progress.state.is_taken(),
            None => false,
        }
    }

    /// Whether it knows a name: a message of it was served, or it was resumed or woken, and it
    /// wasn't put to rest since.
    ///
    /// # Not specified
    /// How it follows from the messages, after a turn over a store that isn't honest.
    pub fn is_known(&self, name: &Name) -> bool
        ensures kept { result ≡ is_some (session_kept self.now name.now) }
        ensures value { (first : List ℕ → Option (List ℕ)) (book : Book) →
            HoldsBook S.TakeStore J.Journal first self.now book → result ≡ is_known book name.now }
    {
        self.sessions.contains_key(name)
    }

    /// The names that it knows, each once, in no order: at most 256.
    ///
    /// # Errors
    /// `AllocError` if memory was refused.
    ///
    /// # Not specified
    /// - When memory is refused.
    /// - How they follow from the messages, after a turn over a store that isn't honest.
    pub fn known_names(&self, alloc: Global) -> Result<Vec<Name>, AllocError>
        ensures kept { IfOk result (λ names. ListsNames (known_kept self.now) names.items) }
        // They are those of the book, and no others.
        ensures value { IfOk result (λ names. (first : List ℕ → Option (List ℕ)) (book : Book) →
            HoldsBook S.TakeStore J.Journal first self.now book →
            ListsNames (is_known book) names.items) }
        ensures range { IfOk result (λ names. length names.items ≤ most_takes) }
    {
        let mut names = Vec::with_capacity(alloc, self.sessions.len())?;
        for name in self.sessions.keys() {
            names.push(name.copy())?;
        }
        Ok(names)
    }
}
