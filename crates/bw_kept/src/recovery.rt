//! Recovering one name from its folder: what a start makes of each name, made of one that isn't open.
ghost use Rattle.std.specs.Prelude.{◌≡◌, ℕ, List, None, Ok, Some, IsTrue, IsSome, IfOk, OnOk, OnErr};
ghost use Rattle.std.specs.Prelude.{◌++◌, ◌∷◌, [], ◌≤◌, ◌+◌, ◌*◌, length, false};
ghost use Rattle.bw_model.specs.Wire.{Second, last_number};
ghost use Rattle.bw_disk.specs.DiskSteps.{StaysWhole};
ghost use Rattle.bw_store.specs.Stores.{Counts};
ghost use Rattle.bw_journal.specs.Stories.{story_of};
ghost use Rattle.bw_folder.specs.Folders.{names_but};
ghost use Rattle.bw_folder.specs.Journals.{existence_of};
ghost use Rattle.bw_folder.specs.TakeFolders.{takes_disk, takes_folder, takes_calls, takes_failures};
ghost use Rattle.bw_folder.specs.TakeFolders.{take_in_folder, open_takes};
ghost use Rattle.bw_folder.specs.JournalFolders.{journals_disk, journals_failures, open_journals};
ghost use Rattle.bw_folder.specs.JournalFolders.{noted_in_folder, SameSettings};
ghost use Rattle.bw_folder.specs.JournalFolders.{journals_sync, has_pending, IsSyncedName};
ghost use Rattle.bw_disk.specs.Volumes.{KeepsEach};
ghost use Rattle.bw_folder.specs.Commits.{IsAllCommitted};
ghost use Rattle.bw_folder.specs.FolderDisks.{AreOfOneFolder};
ghost use Rattle.bw_kept.specs.RecoveredNames.{CountsIn, CountsUnlessCrowded};
ghost use Rattle.bw_kept.specs.Recoveries.{makes_file, is_written_on, MadeOfStory};
ghost use Rattle.bw_kept.specs.Recoveries.{is_failed_call, KeepsBothSettings, KeepsOthersOpen};
ghost use Rattle.bw_kept.specs.Recoveries.{IfKept, OpensStory, RecoversIn, OpensIn, take_opened};
ghost use Rattle.bw_kept.specs.Recoveries.{KeepsInFolder, IfNumbers, HasTooManyIn};
ghost use Rattle.bw_kept.specs.RecoverySteps.{fault_of_read, MadeOfFinding, story_found, HasFiles};
ghost use Rattle.bw_kept.specs.RecoverySteps.{OpensMore, IsManyDone, IsFewDone, IsFoundThere};
ghost use Rattle.bw_kept.specs.RecoverySteps.{RecoversAlone, RecoversFrom, SyncsJournal};

use crate::restoring::{look_at_name, restore_in_folder};
use bw_disk::{ReadFault, Volume};
use bw_folder::{FolderJournal, FolderStore};
use bw_journal::Replayed;
use bw_layout::Limit;
use bw_model::Name;
use bw_recovery::{Finding, NameFault};
use bw_session::KeptTake;
use bw_take::TakeState;
use std::alloc::Global;

/// What a name is, by what lies in its folder.
#[derive(Drop)]
pub enum Recovered {
    /// No number of it is done.
    New,
    /// Something is wrong with its journal or its file.
    LeftOut(NameFault),
    /// Numbers of it are done.
    Kept(KeptTake),
}

/// Why a name can't be recovered now.
#[derive(Clone, Copy, Debug, PartialEq, Eq)]
pub enum RecoverFault {
    /// A call of a disk failed.
    Disk,
    /// Memory was refused.
    Memory,
    /// More numbers are done than messages can have, 2^24.
    Numbers,
}

impl RecoverFault {
    /// The fault of a read.
    fn of_read(fault: ReadFault) -> RecoverFault
        ensures { result ≡ fault_of_read fault }
    {
        match fault {
            ReadFault::Disk => RecoverFault::Disk,
            ReadFault::Memory => RecoverFault::Memory,
        }
    }
}

/// Makes of one name of a folder what a start makes of each: journal and file become what its done
/// numbers make, and both are opened if the name goes on. Whatever of the name is open is closed
/// first.
///
/// A journal of which no number is done stays open: it says whether a file of the name existed.
///
/// # Errors
/// `Disk` if a call of a disk failed, or 256 files of the name were set aside already; `Memory` if
/// memory was refused, the journal has more than 2^40 bytes, or notes of any name are pending, which a
/// commit writes first; `Numbers`. Nothing of the name is open then but a journal of which notes are
/// pending, and it may be recovered again.
///
/// # Not specified
/// When memory is refused, and how many calls of the disks it makes.
pub fn recover<D: Volume, E: Volume>(
    alloc: Global,
    store: &mut FolderStore<D>,
    journal: &mut FolderJournal<E>,
    limit: Limit,
    name: &Name,
) -> Result<Recovered, RecoverFault>
    // Settings stay and what is open of other names, and of a name that is left out, or after `Numbers`,
    // both disks, whatever disks they are.
    ensures alone { RecoversAlone name.now result store.old journal.old store.new journal.new }
    // New, left out or kept, by journal and file, which are afterwards what the done numbers make.
    ensures recovered { AreOfOneFolder store.old journal.old → IfOk result
        (RecoversIn limit name.now store.old journal.old store.new journal.new) }
    // The journal is open if it is begun, and the file if the take is; of other names what was.
    ensures opened { AreOfOneFolder store.old journal.old → IsAllCommitted journal.old → IfOk result
        (OpensIn limit name.now store.old journal.old store.new journal.new) }
    ensures closed { IsAllCommitted journal.old →
        OnErr result (OpensStory name.now None store.old journal.old store.new journal.new) }
    // What was left of the name is left still, after a failed call too; a fault keeps all of it.
    ensures kept { AreOfOneFolder store.old journal.old →
        KeepsInFolder limit name.now store.old journal.old store.new journal.new }
    // `Numbers` is so many numbers that its journal says are done.
    ensures many { AreOfOneFolder store.old journal.old →
        IfNumbers result (HasTooManyIn limit name.now store.old journal.old) }
    // `Disk` is a call that failed, unless each path for a file that is set aside is taken.
    ensures failures { AreOfOneFolder store.old journal.old → IsAllCommitted journal.old → CountsUnlessCrowded
        name.now store.old journal.old store.new journal.new (is_failed_call result) }
    // If notes are synced, so are journal and file of a name of which numbers are done.
    ensures synced { AreOfOneFolder store.old journal.old → IsTrue (journals_sync journal.old) →
        IfOk result (λ r. IfKept r (IsSyncedName name.now journal.new)) }
{
    store.release(name);
    journal.release(name);
    match recover_synced(alloc, store, journal, limit, name) {
        Ok(recovered) => Ok(recovered),
        Err(fault) => {
            store.release(name);
            journal.release(name);
            Err(fault)
        }
    }
}

/// The same of a name of which nothing is open; after an error something of it may be.
fn recover_synced<D: Volume, E: Volume>(
    alloc: Global,
    store: &mut FolderStore<D>,
    journal: &mut FolderJournal<E>,
    limit: Limit,
    name: &Name,
) -> Result<Recovered, RecoverFault>
    ensures alone { RecoversAlone name.now result store.old journal.old store.new journal.new }
    ensures recovered { AreOfOneFolder store.old journal.old →
        RecoversFrom limit name.now result store.old journal.old store.new journal.new }
    ensures synced { AreOfOneFolder store.old journal.old → IsTrue (journals_sync journal.old) →
        IfOk result (λ r. IfKept r (IsSyncedName name.now journal.new)) }
{
    match recover_closed(alloc, store, journal, limit, name) {
        Ok(Recovered::New) => Ok(Recovered::New),
        Ok(Recovered::LeftOut(fault)) => Ok(Recovered::LeftOut(fault)),
        Ok(Recovered::Kept(take)) => sync_kept(journal, name, take),
        Err(fault) => Err(fault),
    }
}

/// Syncs what lies there of a name of which this is kept, if notes are synced: its verdicts are given
/// again without a note.
fn sync_kept<E: Volume>(
    journal: &mut FolderJournal<E>,
    name: &Name,
    take: KeptTake,
) -> Result<Recovered, RecoverFault>
    ensures made { IfOk result (λ r. r ≡ Recovered.Kept take) }
    ensures most { IfNumbers result ⊥ }
    ensures kept { SyncsJournal E.Disk (is_failed_call result) journal.old journal.new }
    ensures synced { IsTrue (E.honest (journals_disk journal.old)) → IsTrue (journals_sync journal.old) →
        IsSome (existence_of (open_journals journal.old) name.now) →
        OnOk result (IsSyncedName name.now journal.new) }
{
    match journal.sync_recovered(name) {
        Ok(()) => Ok(Recovered::Kept(take)),
        Err(fault) => Err(RecoverFault::of_read(fault)),
    }
}

/// The same, but nothing is synced.
fn recover_closed<D: Volume, E: Volume>(
    alloc: Global,
    store: &mut FolderStore<D>,
    journal: &mut FolderJournal<E>,
    limit: Limit,
    name: &Name,
) -> Result<Recovered, RecoverFault>
    ensures alone { RecoversAlone name.now result store.old journal.old store.new journal.new }
    ensures recovered { AreOfOneFolder store.old journal.old →
        RecoversFrom limit name.now result store.old journal.old store.new journal.new }
{
    match look_at_name(alloc, store, journal, limit, name) {
        Ok(None) => Ok(Recovered::New),
        Ok(Some(finding)) => recover_found(alloc, store, journal, name, finding),
        Err(fault) => Err(RecoverFault::of_read(fault)),
    }
}

/// The same of a name of which this was found.
fn recover_found<D: Volume, E: Volume>(
    alloc: Global,
    store: &mut FolderStore<D>,
    journal: &mut FolderJournal<E>,
    name: &Name,
    finding: Finding,
) -> Result<Recovered, RecoverFault>
    ensures alone { RecoversAlone name.now result store.old journal.old store.new journal.new }
    ensures recovered { (limit : ℕ) → IsFoundThere limit name.now store.old journal.old finding →
        RecoversFrom limit name.now result store.old journal.old store.new journal.new }
{
    if let Finding::Refused(fault) = &finding {
        return Ok(Recovered::LeftOut(*fault));
    }
    if is_overfull(&finding) {
        return Err(RecoverFault::Numbers);
    }
    match restore_in_folder(alloc, store, journal, name, &finding) {
        Ok(()) => reopen_found(store, journal, name, finding),
        Err(fault) => Err(RecoverFault::of_read(fault)),
    }
}

/// Whether more numbers are done by what was found than messages can have.
fn is_overfull(finding: &Finding) -> bool
    ensures many { IsTrue result → IsManyDone (story_found finding.now) }
    ensures few { result ≡ false → IsFewDone (story_found finding.now) }
{
    match finding {
        Finding::Refused(_fault) => false,
        Finding::Unbegun => false,
        Finding::Begun(begun) => begun.replayed.table.len() > 33 << 24,
    }
}

/// Opens journal and file of a restored name of which this was found, if it goes on.
fn reopen_found<D: Volume, E: Volume>(
    store: &mut FolderStore<D>,
    journal: &mut FolderJournal<E>,
    name: &Name,
    finding: Finding,
) -> Result<Recovered, RecoverFault>
    requires few { IsFewDone (story_found finding) }
    ensures takes { StaysWhole D.Disk (takes_disk store.old) (takes_disk store.new) }
    ensures notes { StaysWhole E.Disk (journals_disk journal.old) (journals_disk journal.new) }
    ensures noted { IsTrue (E.honest (journals_disk journal.old)) →
        KeepsEach (noted_in_folder journal.old) (noted_in_folder journal.new) }
    ensures settings { KeepsBothSettings store.old journal.old store.new journal.new }
    ensures made { IfOk result (MadeOfFinding name.now finding) }
    ensures most { IfNumbers result ⊥ }
    ensures opened { OnOk result (OpensMore name.now (story_found finding) store.old journal.old
        store.new journal.new) }
    ensures apart { KeepsOthersOpen name.now store.old journal.old store.new journal.new }
    ensures failures { IsTrue (D.honest (takes_disk store.old)) →
        IsTrue (E.honest (journals_disk journal.old)) →
        existence_of (open_journals journal.old) name.now ≡ None →
        HasFiles (story_found finding) (noted_in_folder journal.old name.now)
        (take_in_folder store.old name.now) →
        CountsIn store.old journal.old store.new journal.new (is_failed_call result) }
{
    match finding {
        Finding::Refused(fault) => Ok(Recovered::LeftOut(fault)),
        Finding::Unbegun => Ok(Recovered::New),
        Finding::Begun(begun) => reopen_begun(store, journal, name, begun.replayed),
    }
}

/// Opens journal and file of a restored name whose journal says this.
fn reopen_begun<D: Volume, E: Volume>(
    store: &mut FolderStore<D>,
    journal: &mut FolderJournal<E>,
    name: &Name,
    replayed: Replayed,
) -> Result<Recovered, RecoverFault>
    requires few { length replayed.table.items ≤ 33 * (last_number Second + 1) }
    ensures takes { StaysWhole D.Disk (takes_disk store.old) (takes_disk store.new) }
    ensures notes { StaysWhole E.Disk (journals_disk journal.old) (journals_disk journal.new) }
    ensures noted { IsTrue (E.honest (journals_disk journal.old)) →
        KeepsEach (noted_in_folder journal.old) (noted_in_folder journal.new) }
    ensures settings { KeepsBothSettings store.old journal.old store.new journal.new }
    ensures made { IfOk result (MadeOfStory name.now (story_of replayed)) }
    ensures most { IfNumbers result ⊥ }
    ensures opened { OnOk result (OpensMore name.now (Some (story_of replayed)) store.old journal.old
        store.new journal.new) }
    ensures apart { KeepsOthersOpen name.now store.old journal.old store.new journal.new }
    ensures failures { IsTrue (D.honest (takes_disk store.old)) →
        IsTrue (E.honest (journals_disk journal.old)) →
        existence_of (open_journals journal.old) name.now ≡ None →
        HasFiles (Some (story_of replayed)) (noted_in_folder journal.old name.now)
        (take_in_folder store.old name.now) →
        CountsIn store.old journal.old store.new journal.new (is_failed_call result) }
{
    match open_journal(journal, name, replayed.state.is_taken()) {
        Ok(()) => reopen_take(store, name, replayed),
        Err(fault) => Err(fault),
    }
}

/// Opens the journal of a name, which is there.
fn open_journal<E: Volume>(
    journal: &mut FolderJournal<E>,
    name: &Name,
    existed: bool,
) -> Result<(), RecoverFault>
    ensures notes { StaysWhole E.Disk (journals_disk journal.old) (journals_disk journal.new) }
    ensures noted { IsTrue (E.honest (journals_disk journal.old)) →
        KeepsEach (noted_in_folder journal.old) (noted_in_folder journal.new) }
    ensures pending { (other : List ℕ) → has_pending journal.new other ≡ has_pending journal.old other }
    ensures settings { SameSettings journal.old journal.new
        × (journals_failures journal.new ≡ journals_failures journal.old) }
    ensures opened { OnOk result (open_journals journal.new
        ≡ open_journals journal.old ++ (name.now, existed) ∷ []) }
    ensures most { IfNumbers result ⊥ }
    ensures closed { OnErr result (open_journals journal.new ≡ open_journals journal.old) }
    ensures failures { IsTrue (E.honest (journals_disk journal.old)) →
        existence_of (open_journals journal.old) name.now ≡ None →
        IsSome (noted_in_folder journal.old name.now) → Counts (E.failures (journals_disk journal.old))
        (E.failures (journals_disk journal.new)) (is_failed_call result) }
{
    match journal.reopen(name, existed) {
        Ok(true) => Ok(()),
        Ok(false) => Err(RecoverFault::Disk),
        Err(fault) => Err(RecoverFault::of_read(fault)),
    }
}

/// Opens the file of a restored take, if it is written to again, and makes what is kept of its name.
fn reopen_take<D: Volume>(
    store: &mut FolderStore<D>,
    name: &Name,
    replayed: Replayed,
) -> Result<Recovered, RecoverFault>
    requires few { length replayed.table.items ≤ 33 * (last_number Second + 1) }
    ensures takes { StaysWhole D.Disk (takes_disk store.old) (takes_disk store.new) }
    ensures settings { (takes_folder store.new ≡ takes_folder store.old)
        × (takes_calls store.new ≡ takes_calls store.old)
        × (takes_failures store.new ≡ takes_failures store.old) }
    ensures made { IfOk result (MadeOfStory name.now (story_of replayed)) }
    ensures most { IfNumbers result ⊥ }
    ensures opened { OnOk result (open_takes store.new
        ≡ open_takes store.old ++ take_opened name.now (Some (story_of replayed))) }
    ensures apart { names_but name.now (open_takes store.new) ≡ names_but name.now (open_takes store.old) }
    ensures failures { IsTrue (D.honest (takes_disk store.old)) →
        (IsTrue (is_written_on replayed.state.parts) → IsSome (take_in_folder store.old name.now)) →
        Counts (D.failures (takes_disk store.old)) (D.failures (takes_disk store.new))
        (is_failed_call result) }
{
    let made = has_file(&replayed.state);
    if made && !replayed.state.is_closed() {
        open_take(store, name)?;
    }
    Ok(keep_done(name, replayed, made))
}

/// Whether a take has a file of the server's.
fn has_file(state: &TakeState) -> bool
    ensures { result ≡ makes_file state.now.parts }
{
    !state.is_taken() && state.format().is_some()
}

/// Opens the file of a take, which is there.
fn open_take<D: Volume>(store: &mut FolderStore<D>, name: &Name) -> Result<(), RecoverFault>
    ensures takes { StaysWhole D.Disk (takes_disk store.old) (takes_disk store.new) }
    ensures settings { (takes_folder store.new ≡ takes_folder store.old)
        × (takes_calls store.new ≡ takes_calls store.old)
        × (takes_failures store.new ≡ takes_failures store.old) }
    ensures opened { OnOk result (open_takes store.new ≡ open_takes store.old ++ name.now ∷ []) }
    ensures most { IfNumbers result ⊥ }
    ensures closed { OnErr result (open_takes store.new ≡ open_takes store.old) }
    ensures failures { IsTrue (D.honest (takes_disk store.old)) → IsSome (take_in_folder store.old name.now) →
        Counts (D.failures (takes_disk store.old)) (D.failures (takes_disk store.new))
        (is_failed_call result) }
{
    match store.reopen(name) {
        Ok(true) => Ok(()),
        Ok(false) => Err(RecoverFault::Disk),
        Err(fault) => Err(RecoverFault::of_read(fault)),
    }
}

/// What is kept of a name whose journal says this, if a number is done.
fn keep_done(name: &Name, replayed: Replayed, made: bool) -> Recovered
    requires few { length replayed.table.items ≤ 33 * (last_number Second + 1) }
    ensures { made ≡ makes_file replayed.state.parts → MadeOfStory name.now (story_of replayed) result }
{
    if replayed.table.is_empty() {
        return Recovered::New;
    }
    match KeptTake::new(name.copy(), replayed, made) {
        Some(take) => Recovered::Kept(take),
        None => unreachable!(),
    }
}
