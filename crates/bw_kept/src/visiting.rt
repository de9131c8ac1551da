//! What is done with a name's files in the folder of a server, whose store and journal are lent.
ghost use Rattle.std.specs.Prelude.{◌≡◌, IsTrue, IfOk, IfErr, IfNone, IfSome, OnOk, OnErr};
ghost use Rattle.bw_disk.specs.DiskSteps.{StaysWhole};
ghost use Rattle.bw_folder.specs.TakeFolders.{takes_disk, open_takes};
ghost use Rattle.bw_disk.specs.Volumes.{KeepsEach};
ghost use Rattle.bw_folder.specs.JournalFolders.{journals_disk, open_journals, noted_in_folder};
ghost use Rattle.bw_folder.specs.Commits.{IsAllCommitted};
ghost use Rattle.bw_folder.specs.FolderDisks.{AreOfOneFolder, KeepsStore, KeepsFolderJournal, ShowsAlike};
ghost use Rattle.bw_kept.specs.Recoveries.{KeepsBothSettings};
ghost use Rattle.bw_kept.specs.Visits.{ClosesFiles, CommitsJournals, OnlyCloses, IsDifference, RecoversName};
ghost use Rattle.bw_kept.specs.Visits.{delay_by};

use crate::delay::Delay;
use crate::recovery::{RecoverFault, Recovered, recover};
use crate::restoring::shows_alike;
use bw_disk::{ReadFault, Volume};
use bw_folder::{FolderJournal, FolderStore};
use bw_model::Name;
use bw_session::StoresVisitor;
use std::alloc::Global;

/// Closes the files of a name, but for a journal of which notes are pending.
#[derive(Drop)]
pub(crate) struct Closing {
    pub(crate) name: Name,
}

impl<D: Volume, E: Volume> StoresVisitor<FolderStore<D>, FolderJournal<E>> for Closing {
    ghost visits = { λ visitor store journal later later_store later_journal.
        OnlyCloses visitor.name store journal later_store later_journal };

    fn visit(&mut self, store: &mut FolderStore<D>, journal: &mut FolderJournal<E>) {
        store.release(&self.name);
        journal.release(&self.name);
    }
}

/// Commits the notes of all names, and has what came of it.
#[derive(Drop)]
pub(crate) struct Committing {
    pub(crate) result: Result<(), ReadFault>,
}

impl<D: Volume, E: Volume> StoresVisitor<FolderStore<D>, FolderJournal<E>> for Committing {
    ghost visits = { λ visitor store journal later later_store later_journal.
        CommitsJournals later.result store journal later_store later_journal };

    fn visit(&mut self, _store: &mut FolderStore<D>, journal: &mut FolderJournal<E>) {
        self.result = journal.commit();
    }
}

/// Recovers a name, and has what came of it.
#[derive(Drop)]
pub(crate) struct Recovering {
    pub(crate) alloc: Global,
    pub(crate) name: Name,
    pub(crate) result: Result<Recovered, Delay>,
}

impl<D: Volume, E: Volume> StoresVisitor<FolderStore<D>, FolderJournal<E>> for Recovering {
    ghost visits = { λ visitor store journal later later_store later_journal.
        RecoversName visitor.name store journal later_store later_journal later.result };

    fn visit(&mut self, store: &mut FolderStore<D>, journal: &mut FolderJournal<E>) {
        self.result = recover_alike(self.alloc, store, journal, &self.name);
    }
}

/// Recovers a name from its folder. A new one is put off if the disks don't show alike whether it has
/// a file.
///
/// # Errors
/// Why it is put off: nothing of the name is open then.
fn recover_alike<D: Volume, E: Volume>(
    alloc: Global,
    store: &mut FolderStore<D>,
    journal: &mut FolderJournal<E>,
    name: &Name,
) -> Result<Recovered, Delay>
    ensures { RecoversName name.now store.old journal.old store.new journal.new result }
{
    let limit = journal.limit();
    match recover(alloc, store, journal, limit, name) {
        Ok(Recovered::New) => confirm_new(alloc, store, journal, name),
        Ok(Recovered::LeftOut(fault)) => Ok(Recovered::LeftOut(fault)),
        Ok(Recovered::Kept(take)) => Ok(Recovered::Kept(take)),
        Err(fault) => Err(delay_of(fault)),
    }
}

/// Why a name is put off that isn't recovered now.
fn delay_of(fault: RecoverFault) -> Delay
    ensures { result ≡ delay_by fault }
{
    match fault {
        RecoverFault::Disk => Delay::CallFailed,
        RecoverFault::Memory => Delay::NoMemory,
        RecoverFault::Numbers => Delay::TooManyNumbers,
    }
}

/// A new name stays new if the disks show alike whether it has a file. Else what is open of it is
/// closed.
fn confirm_new<D: Volume, E: Volume>(
    alloc: Global,
    store: &mut FolderStore<D>,
    journal: &mut FolderJournal<E>,
    name: &Name,
) -> Result<Recovered, Delay>
    ensures takes { StaysWhole D.Disk (takes_disk store.old) (takes_disk store.new) }
    ensures notes { StaysWhole E.Disk (journals_disk journal.old) (journals_disk journal.new) }
    ensures settings { KeepsBothSettings store.old journal.old store.new journal.new }
    ensures noted { IsTrue (E.honest (journals_disk journal.old)) →
        KeepsEach (noted_in_folder journal.old) (noted_in_folder journal.new) }
    ensures made { IfOk result (λ r. r ≡ Recovered.New) }
    ensures opened { OnOk result (open_takes store.new ≡ open_takes store.old) }
    ensures known { OnOk result (open_journals journal.new ≡ open_journals journal.old) }
    ensures closed { IsAllCommitted journal.old →
        OnErr result (ClosesFiles name.now store.old journal.old store.new journal.new) }
    ensures alike { AreOfOneFolder store.old journal.old →
        OnOk result (ShowsAlike name.now store.new journal.new) }
    ensures why { AreOfOneFolder store.old journal.old →
        IfErr result (IsDifference name.now store.old journal.old store.new journal.new) }
{
    match difference(alloc, store, journal, name) {
        None => Ok(Recovered::New),
        Some(delay) => {
            store.release(name);
            journal.release(name);
            Err(delay)
        }
    }
}

/// Why a new name is put off; None if both disks show alike whether it has a file.
fn difference<D: Volume, E: Volume>(
    alloc: Global,
    store: &mut FolderStore<D>,
    journal: &mut FolderJournal<E>,
    name: &Name,
) -> Option<Delay>
    ensures takes { StaysWhole D.Disk (takes_disk store.old) (takes_disk store.new) }
    ensures notes { StaysWhole E.Disk (journals_disk journal.old) (journals_disk journal.new) }
    ensures store { KeepsStore store.old store.new }
    ensures journal { KeepsFolderJournal journal.old journal.new }
    ensures noted { IsTrue (E.honest (journals_disk journal.old)) →
        KeepsEach (noted_in_folder journal.old) (noted_in_folder journal.new) }
    ensures alike { AreOfOneFolder store.old journal.old →
        IfNone result (ShowsAlike name.now store.old journal.old) }
    ensures why { AreOfOneFolder store.old journal.old →
        IfSome result (IsDifference name.now store.old journal.old store.new journal.new) }
{
    match shows_alike(alloc, store, journal, name) {
        Ok(true) => None,
        Ok(false) => Some(Delay::TwoFolders),
        Err(ReadFault::Disk) => Some(Delay::CallFailed),
        Err(ReadFault::Memory) => Some(Delay::NoMemory),
    }
}
