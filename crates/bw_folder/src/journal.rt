//! Journals in a folder.
ghost use Rattle.std.specs.Prelude.{◌≡◌, ℕ, List, [], None, IsTrue, if◌then◌else◌};
ghost use Rattle.std.specs.Prelude.{IfOk};
ghost use Rattle.std.specs.Prelude.{OnOk, OnErr, string_bytes, is_err, false};
ghost use Rattle.std.specs.List.{All};
ghost use Rattle.bw_store.specs.Stores.{Counts, KeepsOthers};
ghost use Rattle.bw_journal.specs.Notes.{BeginsNotes, BeginsInPart, Notes, NotesInPart};
ghost use Rattle.bw_journal.specs.Notes.{KeepsHeaders, KeepsCommitted};
ghost use Rattle.bw_folder.specs.Journals.{journal_path as path_of_journal, notes_at};
ghost use Rattle.bw_folder.specs.PendingNotes.{unwritten_at, no_pending, pendings, unwritten_of};
ghost use Rattle.bw_folder.specs.PendingNotes.{HoldsPending, IsOnDisk, waits};
ghost use Rattle.bw_journal.specs.Closings.{notes_close};
ghost use Rattle.bw_folder.specs.FileNotes.{writes_file};
ghost use Rattle.bw_disk.specs.Volumes.{KeepsEach};
ghost use Rattle.bw_folder.specs.SyncOrders.{BeginsJournal, StopsAtSync, SyncsNote};

use bw_disk::{SystemDisk, Volume};
use bw_journal::Journal;
use bw_layout::Limit;
use bw_model::Name;
use bw_store::StoreFault;
use std::alloc::{AllocError, Global};
use std::fs::Files;

/// A name's journal, which stays open.
#[derive(Drop)]
pub(crate) struct OpenJournal<F: Drop> {
    pub(crate) name: Name,
    /// Whether a file of the name existed before its journal.
    pub(crate) existed: bool,
    pub(crate) file: F,
    /// The last sync found the take's file.
    pub(crate) beside_take: bool,
    /// The folder was synced since the journal was opened and the take's file found.
    pub(crate) listed: bool,
    /// Notes that the next commit writes.
    pub(crate) pending: Vec<u8>,
    /// The place in the file that they are to be written at.
    pub(crate) place: u64,
    /// A number among them wrote to the take's file.
    pub(crate) writes: bool,
}

impl<F: Drop> OpenJournal<F> {
    pub(crate) fn new(alloc: Global, name: &Name, existed: bool, file: F) -> OpenJournal<F>
        ensures name { result.name ≡ name.now }
        ensures existed { result.existed ≡ existed }
        ensures file { result.file ≡ file }
        ensures pending { unwritten_at result ≡ no_pending }
    {
        OpenJournal {
            name: name.copy(),
            existed,
            file,
            beside_take: false,
            listed: false,
            pending: Vec::new(alloc),
            place: 0,
            writes: false,
        }
    }

    /// Whether notes are pending.
    pub(crate) fn is_waiting(&self) -> bool
        ensures { result ≡ waits self.now.pending.items }
    {
        !self.pending.is_empty()
    }
}

/// The files `NAME.journal` of one folder, as a journal.
///
/// Its disk is its own: it changes no other file, and a store of the same folder changes none of
/// these. Over an honest disk it is an honest journal. A call fails if a call of the disk does, or
/// memory is refused; `begin` also if the file begins with other bytes than those of its header,
/// or notes of the name are pending; and `note` for a name that was neither begun nor reopened. A note
/// that fails leaves a prefix of its bytes, which the next note of the same bytes writes over.
///
/// With `sync` a journal that begins is synced, and the folder, before any file of its take is made.
/// A note is kept in memory then, and `commit` writes what is pending of a name in steps: the take's
/// file is synced, then the folder unless it was synced since the journal was opened and the take's file
/// found, the bytes are appended, and the journal is synced. If no number among them wrote to the file
/// the first two are left out, if the folder was synced since the journal was opened. So no note of this
/// journal survives a loss of power without its samples, and none that was committed is lost. After a
/// sync that failed each `begin` and each `note` fails, of any name, and nothing is committed any more:
/// another try could succeed although bytes are lost. Without `sync` nothing is ever pending, and only
/// the note of a CLOSE is synced, and the folder with it.
#[derive(Drop)]
pub struct FolderJournal<D: Volume> {
    pub(crate) disk: D,
    pub(crate) alloc: Global,
    pub(crate) folder: String,
    pub(crate) limit: Limit,
    pub(crate) sync: bool,
    pub(crate) journals: Vec<OpenJournal<D::File>>,
    pub(crate) failures: u64,
    /// The name of which a sync failed.
    pub(crate) failed_sync: Option<Name>,
    /// What the line of the last note stands for.
    pub(crate) content: Vec<u8>,
    ghost paths: { IsTrue (D.honest disk) → All
        (λ journal. D.path_of journal.file ≡ path_of_journal (string_bytes folder) journal.name)
        journals.items },
    ghost pending: { IsTrue (D.honest disk) → (name : List ℕ) → HoldsPending sync
        (unwritten_of (pendings journals.items) name)
        (notes_at (D.contents disk) (string_bytes folder) name) },
}

impl<R: Files + AllocGlobal + Clone + Drop> FolderJournal<SystemDisk<R>> {
    ghost use Rattle.bw_folder.specs.JournalFolders.{journals_disk, journals_folder};
    ghost use Rattle.bw_folder.specs.JournalFolders.{journals_limit, journals_sync, open_journals};
    ghost use Rattle.bw_folder.specs.JournalFolders.{journals_failures, failed_sync_in, unwritten_in};

    /// The journals of a folder of the system, for a server of this limit. None is open yet.
    ///
    /// # Errors
    /// `AllocError` if memory was refused. The runtime isn't given back.
    ///
    /// # Not specified
    /// - When memory is refused.
    /// - What the folder holds: by contract this journal isn't honest.
    pub fn new(
        rt: R,
        alloc: Global,
        folder: &str,
        limit: Limit,
        sync: bool,
    ) -> Result<FolderJournal<SystemDisk<R>>, AllocError>
        ensures rt { IfOk result (λ j. (journals_disk j).rt ≡ rt) }
        ensures folder { IfOk result (λ j. journals_folder j ≡ folder.now) }
        ensures limit { IfOk result (λ j. journals_limit j ≡ limit) }
        ensures sync { IfOk result (λ j. journals_sync j ≡ sync) }
        ensures journals { IfOk result (λ j. open_journals j ≡ []) }
        ensures pending { IfOk result (λ j. unwritten_in j ≡ []) }
        ensures failures { IfOk result (λ j. journals_failures j ≡ 0) }
        ensures failed_sync { IfOk result (λ j. failed_sync_in j ≡ None) }
    {
        FolderJournal::over(SystemDisk::new(rt), alloc, folder, limit, sync)
    }
}

impl<D: Volume> FolderJournal<D> {
    ghost use Rattle.bw_folder.specs.JournalFolders.{journals_disk, journals_folder};
    ghost use Rattle.bw_folder.specs.JournalFolders.{journals_limit, journals_sync, open_journals};
    ghost use Rattle.bw_folder.specs.JournalFolders.{journals_failures, failed_sync_in, unwritten_in};
    ghost use Rattle.bw_folder.specs.JournalFolders.{noted_in_folder, SameSettings, has_pending};
    ghost use Rattle.bw_folder.specs.JournalFolders.{journal_on_disk, committed_in};
    ghost use Rattle.bw_folder.specs.Journals.{known_but};

    /// The journals of a folder of a disk, for a server of this limit. None is open yet.
    ///
    /// # Errors
    /// `AllocError` if memory was refused. The disk isn't given back.
    ///
    /// # Not specified
    /// When memory is refused.
    pub fn over(
        disk: D,
        alloc: Global,
        folder: &str,
        limit: Limit,
        sync: bool,
    ) -> Result<FolderJournal<D>, AllocError>
        ensures disk { IfOk result (λ j. journals_disk j ≡ disk) }
        ensures folder { IfOk result (λ j. journals_folder j ≡ folder.now) }
        ensures limit { IfOk result (λ j. journals_limit j ≡ limit) }
        ensures sync { IfOk result (λ j. journals_sync j ≡ sync) }
        ensures journals { IfOk result (λ j. open_journals j ≡ []) }
        ensures pending { IfOk result (λ j. unwritten_in j ≡ []) }
        ensures failures { IfOk result (λ j. journals_failures j ≡ 0) }
        ensures failed_sync { IfOk result (λ j. failed_sync_in j ≡ None) }
    {
        let folder = String::from_str(alloc, folder)?;
        Ok(FolderJournal::in_folder(disk, alloc, folder, limit, sync))
    }

    /// The same for a folder whose path is owned, so that nothing can fail.
    pub fn in_folder(
        disk: D,
        alloc: Global,
        folder: String,
        limit: Limit,
        sync: bool,
    ) -> FolderJournal<D>
        ensures disk { journals_disk result ≡ disk }
        ensures folder { journals_folder result ≡ string_bytes folder }
        ensures limit { journals_limit result ≡ limit }
        ensures sync { journals_sync result ≡ sync }
        ensures journals { open_journals result ≡ [] }
        ensures pending { unwritten_in result ≡ [] }
        ensures failures { journals_failures result ≡ 0 }
        ensures failed_sync { failed_sync_in result ≡ None }
    {
        FolderJournal {
            disk,
            alloc,
            folder,
            limit,
            sync,
            journals: Vec::new(alloc),
            failures: 0,
            failed_sync: None,
            content: Vec::new(alloc),
        }
    }

    /// The disk of the folder.
    pub fn disk(&self) -> &D
        ensures { result.now ≡ journals_disk self.now }
    {
        &self.disk
    }

    /// The path of the folder.
    pub fn folder(&self) -> &str
        ensures { result.now ≡ journals_folder self.now }
    {
        self.folder.as_str()
    }

    /// The limit of the server.
    pub fn limit(&self) -> Limit
        ensures { result ≡ journals_limit self.now }
    {
        self.limit
    }

    /// The name of which a sync failed, if one has.
    pub fn failed_sync(&self) -> Option<Name>
        ensures { result ≡ failed_sync_in self.now }
    {
        match &self.failed_sync {
            Some(name) => Some(name.copy()),
            None => None,
        }
    }

    /// Closes the journal of a name, if it is open and none of its notes is pending. The disk isn't
    /// called.
    pub fn release(&mut self, name: &Name)
        ensures disk { journals_disk self.new ≡ journals_disk self.old }
        ensures settings { SameSettings self.old self.new }
        ensures failures { journals_failures self.new ≡ journals_failures self.old }
        ensures failed_sync { failed_sync_in self.new ≡ failed_sync_in self.old }
        ensures known { open_journals self.new ≡ if has_pending self.old name.now
            then open_journals self.old else known_but name.now (open_journals self.old) }
        // Nothing that is noted is lost, nor is anything committed by it.
        ensures noted { KeepsEach (noted_in_folder self.old) (noted_in_folder self.new) }
        ensures pending { (other : List ℕ) → has_pending self.new other ≡ has_pending self.old other }
    {
        if self.has_pending(name) {
            return;
        }
        self.close(name);
    }

    /// What a stop leaves of the notes of a name: what its file has. Nothing runs.
    pub fn law_on_disk(&self)
        // All of them or a prefix, no shorter than what is committed.
        ensures left { IsTrue (D.honest (journals_disk self.now)) → (name : List ℕ) → IsOnDisk
            (committed_in self.now name) (noted_in_folder self.now name) (journal_on_disk self.now name) }
        // All of them, if none is pending.
        ensures whole { (name : List ℕ) → has_pending self.now name ≡ false →
            journal_on_disk self.now name ≡ noted_in_folder self.now name }
    {}

    /// The disk of the folder, by value.
    pub fn into_disk(self) -> D
        ensures { result ≡ journals_disk self }
    {
        let FolderJournal {
            disk,
            alloc: _,
            folder: _,
            limit: _,
            sync: _,
            journals: _,
            failures: _,
            failed_sync: _,
            content: _,
        } = self;
        disk
    }
}

impl<D: Volume> Journal for FolderJournal<D> {
    ghost use Rattle.bw_folder.specs.JournalFolders.{journals_disk, journals_folder};
    ghost use Rattle.bw_folder.specs.JournalFolders.{journals_limit, journals_sync, open_journals};
    ghost use Rattle.bw_folder.specs.JournalFolders.{failed_sync_in, journals_failures};
    ghost use Rattle.bw_folder.specs.JournalFolders.{noted_in_folder, header_in_folder, SameSettings};
    ghost use Rattle.bw_folder.specs.JournalFolders.{committed_in, writes_pending};

    ghost notes = { noted_in_folder };

    ghost header = { header_in_folder };

    ghost failures = { journals_failures };

    ghost honest = { λ j. D.honest (journals_disk j) };

    ghost folder = { journals_folder };

    ghost committed = { committed_in };

    /// Writes the header into the file of the name's journal, which is opened, or made if nothing is
    /// there. With `sync` that file and the folder are synced then.
    ///
    /// # Errors
    /// `StoreFault` if a call of the disk failed, memory was refused before any change, other bytes
    /// are there, notes of the name are pending, or a sync failed in an earlier call.
    ///
    /// # Not specified
    /// - When memory is refused.
    /// - When the folder is synced.
    #[tactic(auto, using(crate::proofs::JournalPaths::journal_path_injective))]
    fn begin(&mut self, name: &Name) -> Result<(), StoreFault>
        ensures failures { Counts (journals_failures self.old) (journals_failures self.new) (is_err result) }
        ensures settings { SameSettings self.old self.new }
        ensures honest { D.honest (journals_disk self.new) ≡ D.honest (journals_disk self.old) }
        ensures headers { IsTrue (D.honest (journals_disk self.old)) → KeepsHeaders
            (header_in_folder self.old) (header_in_folder self.new) }
        ensures committed { IsTrue (D.honest (journals_disk self.old)) → KeepsCommitted
            (committed_in self.old) (committed_in self.new) }
        // The header says whether a file of the name existed.
        ensures begun { IsTrue (D.honest (journals_disk self.old)) →
            OnOk result (BeginsNotes name.now
            (header_in_folder self.old name.now) (noted_in_folder self.old name.now)
            (noted_in_folder self.new name.now)) }
        ensures failed { IsTrue (D.honest (journals_disk self.old)) →
            OnErr result (BeginsInPart name.now
            (header_in_folder self.old name.now) (noted_in_folder self.old name.now)
            (noted_in_folder self.new name.now)) }
        ensures others { IsTrue (D.honest (journals_disk self.old)) → KeepsOthers
            (noted_in_folder self.old) (noted_in_folder self.new) name.now }
        // After a failed sync each call fails, and the disk isn't called.
        ensures failed_sync { StopsAtSync name.now result (failed_sync_in self.old) (failed_sync_in self.new)
            (journals_disk self.old) (journals_disk self.new) }
        // No other file changes, on errors too; with `sync` the journal is synced.
        ensures rest { BeginsJournal D.Disk (journals_sync self.old) result
            (path_of_journal (journals_folder self.old) name.now)
            (journals_disk self.old) (journals_disk self.new) }
    {
        let answer = self.begin_file(name);
        self.count(answer.is_err());
        answer
    }

    /// Without `sync`, writes the bytes into the file of a journal that was begun or reopened, by one
    /// call of the disk. If they note that the take is closed, journal and folder are synced: whoever
    /// has that verdict may delete the recording. With `sync` the bytes are kept for the next commit,
    /// and at most the length of the file is asked for.
    ///
    /// # Errors
    /// `StoreFault` if a call of the disk failed, memory was refused before any change, the name's
    /// journal was neither begun nor reopened, or a sync failed in an earlier call; with `sync` also if
    /// the offset isn't where the name's notes end, or lies in the header.
    ///
    /// # Not specified
    /// - When memory is refused.
    /// - When the folder is synced.
    #[tactic(auto, using(crate::proofs::JournalPaths::journal_path_injective))]
    fn note(&mut self, name: &Name, offset: u64, bytes: &[u8]) -> Result<(), StoreFault>
        ensures failures { Counts (journals_failures self.old) (journals_failures self.new) (is_err result) }
        ensures settings { SameSettings self.old self.new }
        ensures honest { D.honest (journals_disk self.new) ≡ D.honest (journals_disk self.old) }
        ensures known { open_journals self.new ≡ open_journals self.old }
        ensures headers { IsTrue (D.honest (journals_disk self.old)) → KeepsHeaders
            (header_in_folder self.old) (header_in_folder self.new) }
        ensures committed { IsTrue (D.honest (journals_disk self.old)) → KeepsCommitted
            (committed_in self.old) (committed_in self.new) }
        // The bytes follow the first ones, over any prefix of them that is there.
        ensures noted { IsTrue (D.honest (journals_disk self.old)) → OnOk result (Notes offset bytes.now
            (noted_in_folder self.old name.now) (noted_in_folder self.new name.now)) }
        ensures failed { IsTrue (D.honest (journals_disk self.old)) → OnErr result (NotesInPart offset
            bytes.now (noted_in_folder self.old name.now) (noted_in_folder self.new name.now)) }
        ensures others { IsTrue (D.honest (journals_disk self.old)) → KeepsOthers
            (noted_in_folder self.old) (noted_in_folder self.new) name.now }
        // No other file changes, even on errors.
        ensures files { IsTrue (D.honest (journals_disk self.old)) → KeepsOthers
            (D.contents (journals_disk self.old)) (D.contents (journals_disk self.new))
            (path_of_journal (journals_folder self.old) name.now) }
        // After a failed sync each call fails, and the disk isn't called.
        ensures failed_sync { StopsAtSync name.now result (failed_sync_in self.old) (failed_sync_in self.new)
            (journals_disk self.old) (journals_disk self.new) }
        // Without `sync` only the note of a close is synced; with it the file waits for a commit.
        ensures syncs { SyncsNote D.Disk (journals_sync self.old) (notes_close bytes.now) name.now result
            (failed_sync_in self.new) (path_of_journal (journals_folder self.old) name.now)
            (journals_disk self.old) (journals_disk self.new) }
        // With `sync` the commit is told if the number wrote to its take's file.
        ensures writes { IsTrue (journals_sync self.old) → IsTrue (writes_file bytes.now) →
            OnOk result (IsTrue (writes_pending self.new name.now)) }
    {
        let answer = self.note_and_sync(name, offset, bytes);
        self.count(answer.is_err());
        answer
    }
}
