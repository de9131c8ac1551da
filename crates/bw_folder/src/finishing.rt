//! Syncing the file of a take that is complete, and closing it.
ghost use Rattle.std.specs.Prelude.{◌≡◌, ◌&&◌, ℕ, List, true, false, not, filter, IsTrue, IsErr};
ghost use Rattle.std.specs.Prelude.{is_err, is_some, string_bytes};
ghost use Rattle.std.specs.List.{Contains};
ghost use Rattle.std.specs.Str.{bytes_eq};
ghost use Rattle.bw_disk.specs.Disks.{IsOneCall, Syncs};
ghost use Rattle.bw_folder.specs.Folders.{take_content, open_names};
ghost use Rattle.bw_folder.specs.TakeFolders.{marked_if};

use crate::folder::{FolderStore, find};
use bw_disk::Disk;
use bw_model::Name;
use bw_store::StoreFault;

impl<D: Disk> FolderStore<D> {
    ghost use Rattle.bw_folder.specs.TakeFolders.{takes_disk, takes_folder, open_takes};
    ghost use Rattle.bw_folder.specs.TakeFolders.{takes_calls, takes_failures, takes_failed_sync};
    ghost use Rattle.bw_folder.specs.TakeFolders.{takes_retry};

    /// The same store, but `finish` syncs a file even if a sync has failed: for a server that goes on
    /// after one.
    pub fn with_retries(self) -> FolderStore<D>
        ensures disk { takes_disk result ≡ takes_disk self }
        ensures folder { takes_folder result ≡ takes_folder self }
        ensures takes { open_takes result ≡ open_takes self }
        ensures failures { takes_failures result ≡ takes_failures self }
        ensures calls { takes_calls result ≡ takes_calls self }
        ensures failed_sync { takes_failed_sync result ≡ takes_failed_sync self }
        ensures retries { takes_retry result ≡ true }
    {
        let mut store = self;
        store.retries = true;
        store
    }

    /// The name of which a sync failed first, if one has.
    pub fn failed_sync(&self) -> Option<Name>
        ensures { result ≡ takes_failed_sync self.now }
    {
        match &self.failed_sync {
            Some(name) => Some(name.copy()),
            None => None,
        }
    }

    /// Syncs the file of an open take, and keeps its name if that fails, unless there is one already.
    /// After a failed sync it fails at once, unless this store retries.
    ///
    /// # Errors
    /// `StoreFault` if the sync failed, or one failed before; also if the take isn't open.
    #[tactic(auto, using(crate::proofs::TakePaths::take_path_injective))]
    pub(crate) fn sync_take(&mut self, name: &Name) -> Result<(), StoreFault>
        ensures call_counter { self.new.call_counter ≡ self.old.call_counter }
        ensures folder { self.new.folder ≡ self.old.folder }
        ensures takes { self.new.takes ≡ self.old.takes }
        ensures retries { self.new.retries ≡ self.old.retries }
        ensures honest { D.honest self.new.disk ≡ D.honest self.old.disk }
        ensures unchanged { IsTrue (D.honest self.old.disk) →
            (path : List ℕ) → D.contents self.new.disk path ≡ D.contents self.old.disk path }
        ensures synced { IsTrue (D.honest self.old.disk) → Syncs result
            (take_content (D.contents self.old.disk) (string_bytes self.old.folder) name.now)
            (take_content (D.synced self.old.disk) (string_bytes self.old.folder))
            (take_content (D.synced self.new.disk) (string_bytes self.old.folder)) name.now }
        ensures own { Contains (open_names self.old.takes.items) name.now →
            not self.old.retries && is_some self.old.failed_sync ≡ false →
            IsOneCall D.calls D.failures self.old.disk self.new.disk (is_err result) }
        ensures stopped { IsTrue (not self.old.retries && is_some self.old.failed_sync) →
            IsErr result × (self.new.disk ≡ self.old.disk) }
        ensures foreign { (Contains (open_names self.old.takes.items) name.now → ⊥) →
            IsErr result × (self.new.disk ≡ self.old.disk) }
        ensures marked { Contains (open_names self.old.takes.items) name.now →
            self.new.failed_sync ≡ marked_if (is_err result) name.now self.old.failed_sync }
        ensures unmarked { (Contains (open_names self.old.takes.items) name.now → ⊥) →
            self.new.failed_sync ≡ self.old.failed_sync }
    {
        let Some(place) = find(&self.takes, name) else {
            return Err(StoreFault);
        };
        if !self.retries && self.failed_sync.is_some() {
            return Err(StoreFault);
        }
        let take = &self.takes[place];
        let answer = self.disk.sync(&take.file).map_err(|_| StoreFault);
        self.mark(name, answer.is_err());
        answer
    }

    /// Keeps a name of which a sync failed, unless there is one already.
    fn mark(&mut self, name: &Name, fails: bool)
        ensures marked { self.new.failed_sync ≡ marked_if fails name.now self.old.failed_sync }
        ensures disk { self.new.disk ≡ self.old.disk }
        ensures folder { self.new.folder ≡ self.old.folder }
        ensures takes { self.new.takes ≡ self.old.takes }
        ensures call_counter { self.new.call_counter ≡ self.old.call_counter }
        ensures retries { self.new.retries ≡ self.old.retries }
    {
        if fails && self.failed_sync.is_none() {
            self.failed_sync = Some(name.copy());
        }
    }

    /// Closes the file of a take. The disk isn't called.
    pub(crate) fn close(&mut self, name: &Name)
        ensures rest { (self.new.disk ≡ self.old.disk) × (self.new.folder ≡ self.old.folder)
            × (self.new.call_counter ≡ self.old.call_counter) }
        ensures syncs { (self.new.failed_sync ≡ self.old.failed_sync)
            × (self.new.retries ≡ self.old.retries) }
        ensures opened { open_names self.new.takes.items
            ≡ filter (λ other. not (bytes_eq other name.now)) (open_names self.old.takes.items) }
    {
        self.takes.retain(|take| take.name != *name);
    }
}
