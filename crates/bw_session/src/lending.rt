//! A server lends the store and the journal that it is over: what it keeps of each name stays.
ghost use Rattle.std.specs.Prelude.{◌≡◌, ℕ, List};

use crate::server::Server;
use bw_journal::Journal;
use bw_store::TakeStore;

/// Does something with a store and its journal, which it is lent.
pub trait StoresVisitor<S: TakeStore, J: Journal> {
    /// What a visit may make of visitor, store and journal: these are the ones before it, and then
    /// the ones after it.
    ghost visits: { Self → S → J → Self → S → J → Type 0 };

    /// Does it.
    ///
    /// # Not specified
    /// Anything beyond what each implementation says of itself.
    fn visit(&mut self, store: &mut S, journal: &mut J)
        ensures { visits self.old store.old journal.old self.new store.new journal.new };
}

impl<S: TakeStore, J: Journal> Server<S, J> {
    ghost use Rattle.bw_session.specs.SeenServers.{server_store, server_journal, server_limit};
    ghost use Rattle.bw_session.specs.SeenServers.{session_kept, names_kept};

    /// Lends store and journal to a visitor. Of names that the server knows nothing may change there;
    /// what lies under a name that it doesn't know may (`laws::law_outside`).
    pub fn lend_stores<V: StoresVisitor<S, J>>(&mut self, visitor: &mut V)
        ensures visited { V.visits visitor.old (server_store self.old) (server_journal self.old)
            visitor.new (server_store self.new) (server_journal self.new) }
        ensures sessions { (name : List ℕ) → session_kept self.new name ≡ session_kept self.old name }
        ensures names { names_kept self.new ≡ names_kept self.old }
        ensures limit { server_limit self.new ≡ server_limit self.old }
    {
        let stores = &mut self.stores;
        visitor.visit(&mut stores.store, &mut stores.journal);
    }
}
