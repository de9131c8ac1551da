//! What a stop left of a name in a folder, and mending it, on the disks of a store and of a journal.
ghost use Rattle.std.specs.Prelude.{◌≡◌, ◌↔◌, IsTrue, IfOk, OnOk, is_some};
ghost use Rattle.bw_store.specs.Stores.{KeepsOthers};
ghost use Rattle.bw_disk.specs.DiskSteps.{StaysWhole};
ghost use Rattle.bw_disk.specs.Volumes.{KeepsEach};
ghost use Rattle.bw_disk.specs.ReadFaults.{is_disk_fault};
ghost use Rattle.bw_recovery.specs.Restorings.{is_refused};
ghost use Rattle.bw_folder.specs.TakeFolders.{takes_disk};
ghost use Rattle.bw_folder.specs.JournalFolders.{journals_disk, noted_in_folder};
ghost use Rattle.bw_folder.specs.FolderDisks.{AreOfOneFolder, KeepsFolderJournal, KeepsStore, ShowsAlike};
ghost use Rattle.bw_kept.specs.RecoveredNames.{FindsIn, OnceFound, RestoresIn, StaysLeftIn, ChangesName};
ghost use Rattle.bw_kept.specs.RecoveredNames.{CountsIn, CountsUnlessCrowded};

use crate::on_disks::{Comparing, Looking, Restoring};
use bw_disk::{ReadFault, Volume};
use bw_folder::{FolderJournal, FolderStore, lend_disks};
use bw_layout::Limit;
use bw_model::Name;
use bw_recovery::Finding;
use std::alloc::Global;

/// What is found of a name of which nothing is open, by its journal and its file; None if it has no
/// journal. Nothing is changed. That is no call of the store or of the journal.
///
/// # Errors
/// `Disk` if a call of a disk failed; `Memory` if memory was refused, the journal has more than 2^40
/// bytes, or notes of any name are pending.
///
/// # Not specified
/// When memory is refused, and how many calls of the disks it makes.
pub(crate) fn look_at_name<D: Volume, E: Volume>(
    alloc: Global,
    store: &mut FolderStore<D>,
    journal: &mut FolderJournal<E>,
    limit: Limit,
    name: &Name,
) -> Result<Option<Finding>, ReadFault>
    ensures takes { StaysWhole D.Disk (takes_disk store.old) (takes_disk store.new) }
    ensures notes { StaysWhole E.Disk (journals_disk journal.old) (journals_disk journal.new) }
    ensures store { KeepsStore store.old store.new }
    ensures journal { KeepsFolderJournal journal.old journal.new }
    ensures noted { IsTrue (E.honest (journals_disk journal.old)) →
        KeepsEach (noted_in_folder journal.old) (noted_in_folder journal.new) }
    // Refused by its fault, not begun, or begun with its story, as the definitions say.
    ensures found { AreOfOneFolder store.old journal.old →
        IfOk result (FindsIn limit name.now store.old journal.old) }
    // `Disk` is a call of one of the disks that failed, and no other call fails.
    ensures failures { CountsIn store.old journal.old store.new journal.new (is_disk_fault result) }
{
    if journal.awaits_commit() {
        return Err(ReadFault::Memory);
    }
    let mut visitor = Looking {
        alloc,
        limit,
        name,
        result: Err(ReadFault::Memory),
    };
    lend_disks(store, journal, &mut visitor);
    visitor.result
}

/// Makes journal and file of a name of which nothing is open what they are to be, by what was found
/// of it, as `restore_name` does. That is no call of the store or of the journal.
///
/// # Errors
/// `Disk` if a call of a disk failed, or 256 files of the name were set aside already; `Memory` if
/// memory was refused, or notes of any name are pending. The same name may be looked at and restored
/// again.
///
/// # Not specified
/// What an error leaves of the name's own files, but that it is what a stop may leave of the same
/// log.
pub(crate) fn restore_in_folder<D: Volume, E: Volume>(
    alloc: Global,
    store: &mut FolderStore<D>,
    journal: &mut FolderJournal<E>,
    name: &Name,
    finding: &Finding,
) -> Result<(), ReadFault>
    ensures takes { D.honest (takes_disk store.new) ≡ D.honest (takes_disk store.old) }
    ensures notes { E.honest (journals_disk journal.new) ≡ E.honest (journals_disk journal.old) }
    ensures store { KeepsStore store.old store.new }
    ensures journal { KeepsFolderJournal journal.old journal.new }
    // A name that isn't refused has the journal and the file that it is to have.
    ensures restored { OnceFound name.now finding.now store.old journal.old (λ limit.
        OnOk result (RestoresIn limit name.now store.old journal.old store.new journal.new)) }
    // Whatever was left of the name stays so, after a failed call and on success.
    ensures left { OnceFound name.now finding.now store.old journal.old (λ limit.
        StaysLeftIn limit name.now store.old journal.old store.new journal.new) }
    // Each other path has what it had, on errors too.
    ensures others { AreOfOneFolder store.old journal.old →
        ChangesName name.now store.old journal.old store.new journal.new }
    ensures noted { AreOfOneFolder store.old journal.old →
        KeepsOthers (noted_in_folder journal.old) (noted_in_folder journal.new) name.now }
    // Nothing changes of a name that is refused.
    ensures refused { IsTrue (is_refused finding.now) → (takes_disk store.new ≡ takes_disk store.old)
        × (journals_disk journal.new ≡ journals_disk journal.old) }
    // `Disk` is a call that failed, unless each path for a file that is set aside is taken.
    ensures failures { OnceFound name.now finding.now store.old journal.old (λ limit. CountsUnlessCrowded
        name.now store.old journal.old store.new journal.new (is_disk_fault result)) }
{
    if journal.awaits_commit() {
        return Err(ReadFault::Memory);
    }
    let mut visitor = Restoring {
        alloc,
        name,
        finding,
        result: Err(ReadFault::Memory),
    };
    lend_disks(store, journal, &mut visitor);
    visitor.result
}

/// Whether the disks of store and journal show alike whether a name has a file in the store's folder.
/// Nothing is changed. That is no call of the store or of the journal.
///
/// # Errors
/// `Disk` if a call of a disk failed; `Memory` if memory was refused, or notes of any name are pending.
///
/// # Not specified
/// When memory is refused, and how many calls of the disks it makes.
pub(crate) fn shows_alike<D: Volume, E: Volume>(
    alloc: Global,
    store: &mut FolderStore<D>,
    journal: &mut FolderJournal<E>,
    name: &Name,
) -> Result<bool, ReadFault>
    ensures takes { StaysWhole D.Disk (takes_disk store.old) (takes_disk store.new) }
    ensures notes { StaysWhole E.Disk (journals_disk journal.old) (journals_disk journal.new) }
    ensures store { KeepsStore store.old store.new }
    ensures journal { KeepsFolderJournal journal.old journal.new }
    ensures noted { IsTrue (E.honest (journals_disk journal.old)) →
        KeepsEach (noted_in_folder journal.old) (noted_in_folder journal.new) }
    // Both have a file of it, or neither has one.
    ensures alike { IsTrue (D.honest (takes_disk store.old)) → IsTrue (E.honest (journals_disk journal.old)) →
        IfOk result (λ alike. IsTrue alike ↔ ShowsAlike name.now store.old journal.old) }
    // `Disk` is a call of one of the disks that failed, and no other call fails.
    ensures failures { CountsIn store.old journal.old store.new journal.new (is_disk_fault result) }
{
    if journal.awaits_commit() {
        return Err(ReadFault::Memory);
    }
    let mut visitor = Comparing {
        alloc,
        name,
        result: Err(ReadFault::Memory),
    };
    lend_disks(store, journal, &mut visitor);
    visitor.result
}
