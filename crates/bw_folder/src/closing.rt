//! What calls of a folder's journals share.
ghost use Rattle.std.specs.Prelude.{◌≡◌, filter, not, false};
ghost use Rattle.std.specs.List.{list_any};
ghost use Rattle.std.specs.Str.{bytes_eq};
ghost use Rattle.bw_store.specs.Stores.{Counts};
ghost use Rattle.bw_folder.specs.PendingNotes.{pendings, unwritten_of, waits};

use crate::journal::FolderJournal;
use crate::noting::find;
use bw_disk::Volume;
use bw_model::Name;

impl<D: Volume> FolderJournal<D> {
    /// Whether notes of a name are pending.
    pub(crate) fn has_pending(&self, name: &Name) -> bool
        ensures { result ≡ waits (unwritten_of (pendings self.now.journals.items) name.now).bytes }
    {
        match find(&self.journals, name) {
            Some(place) => self.journals[place].is_waiting(),
            None => false,
        }
    }

    /// Whether notes of any name are pending.
    pub(crate) fn has_any_pending(&self) -> bool
        ensures { result ≡ list_any (λ journal. waits journal.pending.items) self.now.journals.items }
    {
        self.journals.iter().any(|journal| journal.is_waiting())
    }

    /// Closes the journal of a name of which nothing is pending, if it is open. The disk isn't called.
    pub(crate) fn close(&mut self, name: &Name)
        requires { waits (unwritten_of (pendings self.old.journals.items) name.now).bytes ≡ false }
        ensures journals { self.new.journals.items
            ≡ filter (λ journal. not (bytes_eq journal.name name.now)) self.old.journals.items }
        ensures disk { self.new.disk ≡ self.old.disk }
        ensures settings { (self.new.limit ≡ self.old.limit) × (self.new.sync ≡ self.old.sync)
            × (self.new.folder ≡ self.old.folder) }
        ensures failures { self.new.failures ≡ self.old.failures }
        ensures failed_sync { self.new.failed_sync ≡ self.old.failed_sync }
    {
        self.journals.retain(|journal| journal.name != *name);
    }

    /// Counts a call that failed.
    pub(crate) fn count(&mut self, fails: bool)
        ensures counted { Counts self.old.failures self.new.failures fails }
        ensures disk { self.new.disk ≡ self.old.disk }
        ensures settings { (self.new.limit ≡ self.old.limit) × (self.new.sync ≡ self.old.sync)
            × (self.new.folder ≡ self.old.folder) }
        ensures journals { self.new.journals ≡ self.old.journals }
        ensures failed_sync { self.new.failed_sync ≡ self.old.failed_sync }
    {
        if fails {
            self.failures = self.failures.saturating_add(1);
        }
    }
}
