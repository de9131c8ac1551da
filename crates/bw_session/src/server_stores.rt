//! The journal of a server, and what is left of it once it has stopped.
ghost use Rattle.std.specs.Prelude.{◌≡◌};

use crate::numbering::Stores;
use crate::server::Server;
use bw_journal::Journal;
use bw_store::TakeStore;

impl<S: TakeStore, J: Journal> Server<S, J> {
    ghost use Rattle.bw_session.specs.SeenServers.{server_store, server_journal};

    /// The journal.
    pub fn journal(&self) -> &J
        ensures { result.now ≡ server_journal self.now }
    {
        &self.stores.journal
    }

    /// Consumes the server and returns its store and its journal: what the next server starts from.
    pub fn into_stores(self) -> (S, J)
        ensures store { result.0 ≡ server_store self }
        ensures journal { result.1 ≡ server_journal self }
    {
        let Server { stores, .. } = self;
        let Stores { store, journal, .. } = stores;
        (store, journal)
    }
}
