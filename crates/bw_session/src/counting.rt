//! How many names a server knows.
ghost use Rattle.std.specs.Prelude.{◌≡◌, ◌≤◌, ℕ, List, Option, length, nat_le};
ghost use Rattle.bw_model.specs.Book.{Book};
ghost use Rattle.bw_model.specs.Turn.{most_takes, is_full};

use crate::server::{NAMES, Server};
use bw_journal::Journal;
use bw_store::TakeStore;

impl<S: TakeStore, J: Journal> Server<S, J> {
    ghost use Rattle.bw_session.specs.Books.{HoldsBook};
    ghost use Rattle.bw_session.specs.SeenServers.{names_kept};

    /// How many names it knows, at most 256.
    ///
    /// # Not specified
    /// How many after a turn over a store that isn't honest.
    pub fn names(&self) -> usize
        ensures value { (first : List ℕ → Option (List ℕ)) (book : Book) →
            HoldsBook S.TakeStore J.Journal first self.now book → result ≡ length book }
        ensures kept { result ≡ names_kept self.now }
        ensures range { result ≤ most_takes }
    {
        self.sessions.len()
    }

    /// Whether it knows as many names as it takes, 256.
    ///
    /// # Not specified
    /// How it follows from the messages, after a turn over a store that isn't honest.
    pub fn is_full(&self) -> bool
        ensures value { (first : List ℕ → Option (List ℕ)) (book : Book) →
            HoldsBook S.TakeStore J.Journal first self.now book → result ≡ is_full book }
        ensures kept { result ≡ nat_le most_takes (names_kept self.now) }
    {
        NAMES <= self.names()
    }
}
