//! The store of a replay: in memory; one chosen call fails, or none.
ghost use Rattle.std.specs.Prelude.{◌≡◌, ℕ, List, None, IsTrue, IfOk, true};
ghost use Rattle.bw_commands.specs.OneFuse.{failures_under, is_at, KeepsFuse, SufficeForAll};
ghost use Rattle.bw_store.specs.MemoryNames.{memory_content};

use bw_model::Name;
use bw_store::{Created, FuseStore, MemoryStore, StoreFault, TakeStore};
use std::alloc::{AllocError, Global};

/// A store in memory whose call number `fuse`, counted from 0, fails, if there is a fuse.
///
/// Another call fails if memory is refused, or for a name that was never made; the store notes
/// that.
#[derive(Drop)]
pub(crate) struct ReplayStore {
    store: FuseStore<MemoryStore>,
    fuse: Option<u32>,
    /// A call other than the fuse's failed.
    failed: bool,
    ghost counts: { KeepsFuse fuse failed store.fuses
        store.calls store.failures },
    ghost took: { SufficeForAll (memory_content store.inner) store.calls },
}

impl ReplayStore {
    /// An empty store that has had no call.
    pub(crate) fn new(alloc: Global, fuse: Option<u32>) -> Result<ReplayStore, AllocError>
        ensures failures { IfOk result (λ s. s.store.failures ≡ 0) }
        ensures calls { IfOk result (λ s. s.store.calls ≡ 0) }
        ensures empty { IfOk result (λ s. (name : List ℕ) →
            memory_content s.store.inner name ≡ None) }
    {
        let mut fuses = Vec::new(alloc);
        if let Some(fuse) = fuse {
            fuses.push(u64::from(fuse))?;
        }
        Ok(ReplayStore {
            store: FuseStore::new(MemoryStore::new(alloc), fuses),
            fuse,
            failed: false,
        })
    }

    /// The files in memory.
    pub(crate) fn files(&self) -> &MemoryStore
        ensures { result.now ≡ self.now.store.inner }
    {
        self.store.inner()
    }

    /// Whether the store has this fuse, and no call failed but the fuse's.
    pub(crate) fn kept_to(&self, fuse: Option<u32>) -> bool
        ensures { IsTrue result → self.now.store.failures
            ≡ failures_under fuse self.now.store.calls }
    {
        self.fuse == fuse && !self.failed
    }

    /// Whether the next call is the fuse's.
    fn is_at_fuse(&self) -> bool
        ensures { result ≡ is_at self.now.fuse self.now.store.calls }
    {
        match self.fuse {
            Some(fuse) => u64::from(fuse) == self.store.calls(),
            None => false,
        }
    }
}

impl TakeStore for ReplayStore {
    ghost contents = { λ s name. memory_content s.store.inner name };

    ghost failures = { λ s. s.store.failures };

    ghost calls = { λ s. s.store.calls };

    ghost honest = { λ s. true };

    fn create(&mut self, name: &Name) -> Result<Created, StoreFault> {
        let fused = self.is_at_fuse();
        let answer = self.store.create(name);
        self.failed = self.failed || answer.is_err() && !fused;
        answer
    }

    fn write_at(&mut self, name: &Name, offset: u64, bytes: &[u8]) -> Result<(), StoreFault> {
        let fused = self.is_at_fuse();
        let answer = self.store.write_at(name, offset, bytes);
        self.failed = self.failed || answer.is_err() && !fused;
        answer
    }

    fn finish(&mut self, name: &Name) -> Result<(), StoreFault> {
        let fused = self.is_at_fuse();
        let answer = self.store.finish(name);
        self.failed = self.failed || answer.is_err() && !fused;
        answer
    }
}
