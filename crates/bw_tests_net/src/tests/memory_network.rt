//! A network in memory: one folder, and one address at which a reactor opens.
ghost use Rattle.std.specs.Prelude.{◌≡◌, None};
ghost use Rattle.bw_stream.specs.Moves.{failures_after};

use crate::tests::scripted_reactor::{Plan, ScriptedReactor};
use bw_ports::{
    AcceptFault, Dial, DialFault, Duplex, ListenerSetup, Network, Peer, Peers, StartRefusal,
};
use bw_store::MemoryStore;
use bw_stream::{MemorySink, MemorySource};
use std::alloc::Global;
use std::io::{self, ErrorKind};
use std::net::SocketAddr;

/// The folder that is there.
pub(crate) const FOLDER: &str = "takes";

/// The port that the plan's peers connect to.
pub(crate) const PORT: u16 = 4000;

/// A network that has no peers one after another, and no links to dial.
#[derive(Drop)]
pub(crate) struct MemoryNetwork {
    alloc: Global,
    plan: Plan,
    failures: u64,
}

impl MemoryNetwork {
    pub(crate) fn new(alloc: Global, plan: Plan) -> MemoryNetwork {
        MemoryNetwork {
            alloc,
            plan,
            failures: 0,
        }
    }

    /// How many calls failed.
    pub(crate) fn failures(&self) -> u64 {
        self.failures
    }
}

impl Network for MemoryNetwork {
    type Store = MemoryStore;

    type Peers = NoLinks;

    type Dial = NoLinks;

    ghost failures = { λ n. n.failures };

    ghost stores = { λ n folder result n'. n'.failures ≡ failures_after result n.failures };

    ghost listens = { λ n address folder timeout result n'. n'.failures
        ≡ failures_after result n.failures };

    ghost calls = { λ n address timeout dial. dial.failures ≡ 0 };

    fn store(&mut self, folder: &str) -> Result<MemoryStore, StartRefusal> {
        if folder != FOLDER {
            self.failures = self.failures.saturating_add(1);
            let error = io::Error::from(ErrorKind::NotFound);
            return Err(StartRefusal::Unusable(error));
        }
        Ok(MemoryStore::new(self.alloc))
    }

    fn listen(
        &mut self,
        _address: SocketAddr,
        _folder: &str,
        _timeout: Option<u32>,
    ) -> io::Result<NoLinks> {
        Ok(NoLinks { failures: 0 })
    }

    fn dial(&self, _address: SocketAddr, _timeout: Option<u32>) -> NoLinks {
        NoLinks { failures: 0 }
    }
}

impl ListenerSetup for MemoryNetwork {
    type Reactor = ScriptedReactor;

    ghost failures = { λ n. n.failures };

    ghost opens = { λ n address folder places result n'. n'.failures
        ≡ failures_after result n.failures };

    fn reactor(
        &mut self,
        address: SocketAddr,
        _folder: &str,
        _places: usize,
    ) -> io::Result<ScriptedReactor> {
        if address.port() != PORT {
            self.failures = self.failures.saturating_add(1);
            return Err(io::Error::from(ErrorKind::AddrInUse));
        }
        Ok(ScriptedReactor::new(self.alloc, self.plan))
    }
}

/// Peers, none of which come, and links, none of which is made.
#[derive(Drop)]
pub(crate) struct NoLinks {
    failures: u64,
}

impl Peers for NoLinks {
    type Reader = MemorySource<'static>;

    type Writer = MemorySink;

    ghost failures = { λ p. p.failures };

    ghost accepts = { λ p result p'. p'.failures ≡ failures_after result p.failures };

    fn accept(&mut self) -> Result<Peer<MemorySource<'static>, MemorySink>, AcceptFault> {
        self.failures = self.failures.saturating_add(1);
        Err(AcceptFault::Closed)
    }
}

impl Dial for NoLinks {
    type Reader = MemorySource<'static>;

    type Writer = MemorySink;

    ghost links = { λ d. None };

    ghost failures = { λ d. d.failures };

    ghost dials = { λ d result d'. d'.failures ≡ failures_after result d.failures };

    fn dial(&mut self) -> Result<Duplex<MemorySource<'static>, MemorySink>, DialFault> {
        self.failures = self.failures.saturating_add(1);
        Err(DialFault)
    }
}
