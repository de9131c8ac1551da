//! The files that a folder's journals are noted in: how one is found, begun and written.
ghost use Rattle.std.specs.Prelude.{◌≡◌, ◌⊎◌, ◌<◌, ◌↔◌, Some, IsTrue, IsSome, IfOk, IfSome};
ghost use Rattle.std.specs.Prelude.{OnOk, OnErr, IsErr, IfNone, string_bytes, length, false};
ghost use Rattle.std.specs.List.{HoldsAt, position};
ghost use Rattle.std.specs.Str.{bytes_eq};
ghost use Rattle.bw_store.specs.Stores.{KeepsOthers};
ghost use Rattle.bw_disk.specs.DiskSteps.{ChangesAt, StaysWhole};
ghost use Rattle.bw_journal.specs.Notes.{BeginsNotes, BeginsInPart, Notes, NotesInPart};
ghost use Rattle.bw_journal.specs.Notes.{KeepsHeaders, KeepsCommitted};
ghost use Rattle.bw_folder.specs.PendingNotes.{unwritten_at, no_pending, pendings, unwritten_of, waits};
ghost use Rattle.bw_folder.specs.PendingNotes.{noted_at, length_at, KeepsPending, NotesAt};
ghost use Rattle.bw_folder.specs.Journals.{journal_path as path_of_journal, notes_at, existences};
ghost use Rattle.bw_folder.specs.Journals.{existence_of, header_at, IsOpenAt};
ghost use Rattle.bw_folder.specs.SyncOrders.{BeginsJournal, IsSyncedAt, NotesPlainly, StopsAtSync};
ghost use Rattle.bw_folder.specs.SyncOrders.{SyncsNote};
ghost use Rattle.bw_disk.specs.Volumes.{KeepsEach};
ghost use Rattle.bw_journal.specs.Closings.{notes_close};
ghost use Rattle.bw_folder.specs.FileNotes.{writes_file};

use crate::heading::{append, exists, open_or_make, put_header};
use crate::journal::{FolderJournal, OpenJournal};
use crate::paths::{journal_path, take_path};
use crate::pending::keep_note;
use crate::syncing::sync_begun;
use bw_disk::Volume;
use bw_journal::{JournalHeader, notes_close};
use bw_model::Name;
use bw_store::StoreFault;

impl<D: Volume> FolderJournal<D> {
    /// Writes the header into the file of a name's journal. With `sync` that file and the folder are
    /// synced then, before any take's file is made.
    pub(crate) fn begin_file(&mut self, name: &Name) -> Result<(), StoreFault>
        ensures failures { self.new.failures ≡ self.old.failures }
        ensures settings { (self.new.limit ≡ self.old.limit) × (self.new.sync ≡ self.old.sync)
            × (self.new.folder ≡ self.old.folder) }
        ensures headers { IsTrue (D.honest self.old.disk) → KeepsHeaders
            (header_at self.old.limit (existences self.old.journals.items) (D.contents self.old.disk)
            (string_bytes self.old.folder))
            (header_at self.new.limit (existences self.new.journals.items) (D.contents self.new.disk)
            (string_bytes self.new.folder)) }
        ensures begun { IsTrue (D.honest self.old.disk) → OnOk result (BeginsNotes name.now
            (header_at self.old.limit (existences self.old.journals.items) (D.contents self.old.disk)
            (string_bytes self.old.folder) name.now)
            (notes_at (D.contents self.old.disk) (string_bytes self.old.folder) name.now)
            (notes_at (D.contents self.new.disk) (string_bytes self.old.folder) name.now)) }
        ensures failed { IsTrue (D.honest self.old.disk) → OnErr result (BeginsInPart name.now
            (header_at self.old.limit (existences self.old.journals.items) (D.contents self.old.disk)
            (string_bytes self.old.folder) name.now)
            (notes_at (D.contents self.old.disk) (string_bytes self.old.folder) name.now)
            (notes_at (D.contents self.new.disk) (string_bytes self.old.folder) name.now)) }
        ensures failed_sync { StopsAtSync name.now result self.old.failed_sync self.new.failed_sync
            self.old.disk self.new.disk }
        ensures pending { KeepsPending (pendings self.old.journals.items) (pendings self.new.journals.items) }
        ensures grows { IsTrue (D.honest self.old.disk) → KeepsCommitted
            (length_at (D.contents self.old.disk) (string_bytes self.old.folder))
            (length_at (D.contents self.new.disk) (string_bytes self.old.folder)) }
        ensures busy { IsTrue (waits (unwritten_of (pendings self.old.journals.items) name.now).bytes) →
            IsErr result × (self.new ≡ self.old) }
        ensures rest { BeginsJournal D.Disk self.old.sync result
            (path_of_journal (string_bytes self.old.folder) name.now) self.old.disk self.new.disk }
    {
        if self.failed_sync.is_some() || self.has_pending(name) {
            return Err(StoreFault);
        }
        self.write_header(name)?;
        if !self.sync {
            return Ok(());
        }
        self.sync_journal(name)
    }

    /// Syncs a name's journal, and the folder, unless it was synced since the journal was opened.
    ///
    /// # Errors
    /// `StoreFault` if a sync failed: the name is kept. Also if the journal isn't open.
    fn sync_journal(&mut self, name: &Name) -> Result<(), StoreFault>
        ensures failures { self.new.failures ≡ self.old.failures }
        ensures settings { (self.new.limit ≡ self.old.limit) × (self.new.sync ≡ self.old.sync)
            × (self.new.folder ≡ self.old.folder) }
        ensures known { existences self.new.journals.items ≡ existences self.old.journals.items }
        ensures pending { pendings self.new.journals.items ≡ pendings self.old.journals.items }
        ensures unmarked { OnOk result (self.new.failed_sync ≡ self.old.failed_sync) }
        ensures marked { (self.new.failed_sync ≡ self.old.failed_sync)
            ⊎ (self.new.failed_sync ≡ Some name.now) }
        ensures failed { IsSome (existence_of (existences self.old.journals.items) name.now) →
            OnErr result (self.new.failed_sync ≡ Some name.now) }
        ensures honest { D.honest self.new.disk ≡ D.honest self.old.disk }
        ensures contents { IsTrue (D.honest self.old.disk) →
            KeepsEach (D.contents self.old.disk) (D.contents self.new.disk) }
        ensures synced { IsTrue (D.honest self.old.disk) → OnOk result (IsSyncedAt
            (D.contents self.new.disk) (D.synced self.new.disk)
            (path_of_journal (string_bytes self.old.folder) name.now)) }
    {
        let Some(place) = find(&self.journals, name) else {
            return Err(StoreFault);
        };
        sync_begun(
            &mut self.disk,
            &mut self.journals[place],
            &mut self.failed_sync,
            &self.folder,
        )
    }

    /// Writes the header into the file of a name's journal, which is opened or made.
    fn write_header(&mut self, name: &Name) -> Result<(), StoreFault>
        requires { waits (unwritten_of (pendings self.old.journals.items) name.now).bytes ≡ false }
        ensures failures { self.new.failures ≡ self.old.failures }
        ensures settings { (self.new.limit ≡ self.old.limit) × (self.new.sync ≡ self.old.sync)
            × (self.new.folder ≡ self.old.folder) }
        ensures headers { IsTrue (D.honest self.old.disk) → KeepsHeaders
            (header_at self.old.limit (existences self.old.journals.items) (D.contents self.old.disk)
            (string_bytes self.old.folder))
            (header_at self.new.limit (existences self.new.journals.items) (D.contents self.new.disk)
            (string_bytes self.new.folder)) }
        ensures begun { IsTrue (D.honest self.old.disk) → OnOk result (BeginsNotes name.now
            (header_at self.old.limit (existences self.old.journals.items) (D.contents self.old.disk)
            (string_bytes self.old.folder) name.now)
            (notes_at (D.contents self.old.disk) (string_bytes self.old.folder) name.now)
            (notes_at (D.contents self.new.disk) (string_bytes self.old.folder) name.now)) }
        ensures failed { IsTrue (D.honest self.old.disk) → OnErr result (BeginsInPart name.now
            (header_at self.old.limit (existences self.old.journals.items) (D.contents self.old.disk)
            (string_bytes self.old.folder) name.now)
            (notes_at (D.contents self.old.disk) (string_bytes self.old.folder) name.now)
            (notes_at (D.contents self.new.disk) (string_bytes self.old.folder) name.now)) }
        ensures pending { KeepsPending (pendings self.old.journals.items) (pendings self.new.journals.items) }
        ensures grows { IsTrue (D.honest self.old.disk) → KeepsCommitted
            (length_at (D.contents self.old.disk) (string_bytes self.old.folder))
            (length_at (D.contents self.new.disk) (string_bytes self.old.folder)) }
        ensures failed_sync { self.new.failed_sync ≡ self.old.failed_sync }
        ensures rest { ChangesAt D.Disk (path_of_journal (string_bytes self.old.folder) name.now)
            self.old.disk self.new.disk }
    {
        let place = self.opened(name)?;
        let journal = &mut self.journals[place];
        let header = JournalHeader {
            limit: self.limit,
            existed: journal.existed,
        };
        put_header(&mut self.disk, &mut journal.file, &header.to_bytes(name))
    }

    /// The place of a name's open journal, which is opened now if it wasn't, or made.
    fn opened(&mut self, name: &Name) -> Result<usize, StoreFault>
        ensures failures { self.new.failures ≡ self.old.failures }
        ensures settings { (self.new.limit ≡ self.old.limit) × (self.new.sync ≡ self.old.sync)
            × (self.new.folder ≡ self.old.folder) }
        ensures place { IfOk result (λ place. (place < length self.new.journals.items)
            × HoldsAt (λ journal. (journal.name ≡ name.now)
            × (existence_of (existences self.new.journals.items) name.now ≡ Some journal.existed))
            self.new.journals.items place) }
        ensures headers { IsTrue (D.honest self.old.disk) → KeepsHeaders
            (header_at self.old.limit (existences self.old.journals.items) (D.contents self.old.disk)
            (string_bytes self.old.folder))
            (header_at self.new.limit (existences self.new.journals.items) (D.contents self.new.disk)
            (string_bytes self.new.folder)) }
        ensures found { IsTrue (D.honest self.old.disk) → OnOk result (IsOpenAt
            (notes_at (D.contents self.old.disk) (string_bytes self.old.folder) name.now)
            (notes_at (D.contents self.new.disk) (string_bytes self.old.folder) name.now)) }
        ensures failed { IsTrue (D.honest self.old.disk) → OnErr result
            (notes_at (D.contents self.new.disk) (string_bytes self.old.folder) name.now
            ≡ notes_at (D.contents self.old.disk) (string_bytes self.old.folder) name.now) }
        ensures pending { KeepsPending (pendings self.old.journals.items) (pendings self.new.journals.items) }
        ensures grows { IsTrue (D.honest self.old.disk) → KeepsCommitted
            (length_at (D.contents self.old.disk) (string_bytes self.old.folder))
            (length_at (D.contents self.new.disk) (string_bytes self.old.folder)) }
        ensures failed_sync { self.new.failed_sync ≡ self.old.failed_sync }
        ensures rest { ChangesAt D.Disk (path_of_journal (string_bytes self.old.folder) name.now)
            self.old.disk self.new.disk }
    {
        if let Some(place) = find(&self.journals, name) {
            return Ok(place);
        }
        // Whatever needs memory comes first, so that a call that fails makes no file.
        let take = take_path(self.alloc, &self.folder, name)?;
        let path = journal_path(self.alloc, &self.folder, name)?;
        self.journals.reserve(1).map_err(|_| StoreFault)?;
        let existed = exists(&mut self.disk, &take)?;
        let file = open_or_make(&mut self.disk, &path)?;
        let place = self.journals.len();
        let journal = OpenJournal::new(self.alloc, name, existed, file);
        self.journals.push(journal).map_err(|_| StoreFault)?;
        Ok(place)
    }

    /// Notes bytes under a name, and without `sync` syncs them if they note that the take is closed.
    ///
    /// # Errors
    /// `StoreFault` as `note` has it.
    pub(crate) fn note_and_sync(
        &mut self,
        name: &Name,
        offset: u64,
        bytes: &[u8],
    ) -> Result<(), StoreFault>
        ensures failures { self.new.failures ≡ self.old.failures }
        ensures settings { (self.new.limit ≡ self.old.limit) × (self.new.sync ≡ self.old.sync)
            × (self.new.folder ≡ self.old.folder) }
        ensures honest { D.honest self.new.disk ≡ D.honest self.old.disk }
        ensures known { existences self.new.journals.items ≡ existences self.old.journals.items }
        ensures notes { IsTrue (D.honest self.old.disk) → NotesAt offset bytes.now result name.now
            (noted_at (pendings self.old.journals.items) (D.contents self.old.disk)
            (string_bytes self.old.folder))
            (noted_at (pendings self.new.journals.items) (D.contents self.new.disk)
            (string_bytes self.old.folder)) }
        ensures grows { IsTrue (D.honest self.old.disk) → KeepsCommitted
            (length_at (D.contents self.old.disk) (string_bytes self.old.folder))
            (length_at (D.contents self.new.disk) (string_bytes self.old.folder)) }
        ensures files { IsTrue (D.honest self.old.disk) → KeepsOthers (D.contents self.old.disk)
            (D.contents self.new.disk) (path_of_journal (string_bytes self.old.folder) name.now) }
        ensures failed_sync { StopsAtSync name.now result self.old.failed_sync self.new.failed_sync
            self.old.disk self.new.disk }
        ensures syncs { SyncsNote D.Disk self.old.sync (notes_close bytes.now) name.now result
            self.new.failed_sync (path_of_journal (string_bytes self.old.folder) name.now) self.old.disk
            self.new.disk }
        ensures writes { IsTrue self.old.sync → IsTrue (writes_file bytes.now) → OnOk result
            (IsTrue (unwritten_of (pendings self.new.journals.items) name.now).writes) }
    {
        if self.sync {
            return self.note_in_memory(name, offset, bytes);
        }
        let closes = notes_close(bytes, &mut self.content).map_err(|_| StoreFault)?;
        self.note_in_file(name, offset, bytes)?;
        if !closes {
            return Ok(());
        }
        self.sync_journal(name)
    }

    /// Keeps bytes that are noted under a name for the next commit.
    fn note_in_memory(&mut self, name: &Name, offset: u64, bytes: &[u8]) -> Result<(), StoreFault>
        requires { IsTrue self.old.sync }
        ensures rest { (self.new.failures ≡ self.old.failures)
            × (self.new.failed_sync ≡ self.old.failed_sync) }
        ensures settings { (self.new.limit ≡ self.old.limit) × (self.new.sync ≡ self.old.sync)
            × (self.new.folder ≡ self.old.folder) }
        ensures known { existences self.new.journals.items ≡ existences self.old.journals.items }
        ensures disk { StaysWhole D.Disk self.old.disk self.new.disk }
        ensures stopped { IsSome self.old.failed_sync → IsErr result × (self.new.disk ≡ self.old.disk) }
        ensures notes { IsTrue (D.honest self.old.disk) → NotesAt offset bytes.now result name.now
            (noted_at (pendings self.old.journals.items) (D.contents self.old.disk)
            (string_bytes self.old.folder))
            (noted_at (pendings self.new.journals.items) (D.contents self.new.disk)
            (string_bytes self.old.folder)) }
        ensures writes { IsTrue (writes_file bytes.now) → OnOk result
            (IsTrue (unwritten_of (pendings self.new.journals.items) name.now).writes) }
    {
        if self.failed_sync.is_some() {
            return Err(StoreFault);
        }
        let Some(place) = find(&self.journals, name) else {
            return Err(StoreFault);
        };
        keep_note(
            &mut self.disk,
            &mut self.journals[place],
            offset,
            bytes,
            &mut self.content,
        )
    }

    /// Writes bytes into the file of a name's journal.
    pub(crate) fn note_in_file(
        &mut self,
        name: &Name,
        offset: u64,
        bytes: &[u8],
    ) -> Result<(), StoreFault>
        requires { self.old.sync ≡ false }
        ensures failures { self.new.failures ≡ self.old.failures }
        ensures settings { (self.new.limit ≡ self.old.limit) × (self.new.sync ≡ self.old.sync)
            × (self.new.folder ≡ self.old.folder) }
        ensures honest { D.honest self.new.disk ≡ D.honest self.old.disk }
        ensures known { existences self.new.journals.items ≡ existences self.old.journals.items }
        ensures pending { pendings self.new.journals.items ≡ pendings self.old.journals.items }
        ensures open { OnOk result
            (IsSome (existence_of (existences self.old.journals.items) name.now)) }
        ensures noted { IsTrue (D.honest self.old.disk) → OnOk result (Notes offset bytes.now
            (notes_at (D.contents self.old.disk) (string_bytes self.old.folder) name.now)
            (notes_at (D.contents self.new.disk) (string_bytes self.old.folder) name.now)) }
        ensures failed { IsTrue (D.honest self.old.disk) → OnErr result (NotesInPart offset bytes.now
            (notes_at (D.contents self.old.disk) (string_bytes self.old.folder) name.now)
            (notes_at (D.contents self.new.disk) (string_bytes self.old.folder) name.now)) }
        ensures grows { IsTrue (D.honest self.old.disk) → KeepsCommitted
            (length_at (D.contents self.old.disk) (string_bytes self.old.folder))
            (length_at (D.contents self.new.disk) (string_bytes self.old.folder)) }
        ensures files { IsTrue (D.honest self.old.disk) → KeepsOthers (D.contents self.old.disk)
            (D.contents self.new.disk) (path_of_journal (string_bytes self.old.folder) name.now) }
        ensures failed_sync { StopsAtSync name.now result self.old.failed_sync self.new.failed_sync
            self.old.disk self.new.disk }
        ensures plain { NotesPlainly D.Disk result self.old.disk self.new.disk }
    {
        if self.failed_sync.is_some() {
            return Err(StoreFault);
        }
        let Some(place) = find(&self.journals, name) else {
            return Err(StoreFault);
        };
        let journal = &mut self.journals[place];
        append(&mut self.disk, &mut journal.file, offset, bytes)
    }
}

/// The place of a name among the open journals.
pub(crate) fn find<F: Drop>(journals: &[OpenJournal<F>], name: &Name) -> Option<usize>
    ensures open { IsSome result ↔ IsSome (existence_of (existences journals.now) name.now) }
    ensures place { IfSome result (λ place. (place < length journals.now)
        × HoldsAt (λ journal. (journal.name ≡ name.now)
        × (existence_of (existences journals.now) name.now ≡ Some journal.existed))
        journals.now place) }
    ensures pending { IfSome result (λ place. HoldsAt
        (λ journal. unwritten_of (pendings journals.now) name.now ≡ unwritten_at journal)
        journals.now place) }
    ensures none { IfNone result (unwritten_of (pendings journals.now) name.now ≡ no_pending) }
    ensures first { result ≡ position (λ journal. bytes_eq journal.name name.now) journals.now }
{
    first_of(journals, name)
}

/// The first place of a name among journals.
fn first_of<F: Drop>(journals: &[OpenJournal<F>], name: &Name) -> Option<usize>
    ensures { result ≡ position (λ journal. bytes_eq journal.name name.now) journals.now }
{
    journals.iter().position(|journal| journal.name == *name)
}
