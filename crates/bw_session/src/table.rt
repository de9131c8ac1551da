//! A server that has a table of takes.
ghost use Rattle.std.specs.Prelude.{ℕ, List, Option};
ghost use Rattle.bw_model.specs.Book.{Book};
ghost use Rattle.bw_session.specs.Books.{HoldsBook};

use crate::server::Server;
use bw_journal::Journal;
use bw_store::TakeStore;

/// A server that has a table of takes, which observers may look at.
pub trait HasTable {
    /// Keeps the takes' files.
    type Store: TakeStore;

    /// Keeps the takes' journals.
    type Journal: Journal;

    /// The table holds this book, where this was in the store at first.
    ghost holds: { Self → (List ℕ → Option (List ℕ)) → Book → Type 0 };

    /// The server of the takes in the table.
    fn table(&self) -> &Server<Self::Store, Self::Journal>
        ensures { (first : List ℕ → Option (List ℕ)) (book : Book) → holds self.now first book →
            HoldsBook Self.Store.TakeStore Self.Journal.Journal first result.now book };
}

impl<S: TakeStore, J: Journal> HasTable for Server<S, J> {
    type Store = S;

    type Journal = J;

    ghost holds = { λ s first book. HoldsBook S.TakeStore J.Journal first s book };

    fn table(&self) -> &Server<S, J> {
        self
    }
}
