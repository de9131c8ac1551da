//! What is found of a take, as far as it is to be looked at.
ghost use Rattle.std.specs.Prelude.{◌≡◌, IsTrue, IfOk};
ghost use Rattle.bw_store.specs.Stores.{Counts};
ghost use Rattle.bw_disk.specs.DiskSteps.{StaysWhole};
ghost use Rattle.bw_disk.specs.ReadFaults.{is_disk_fault};
ghost use Rattle.bw_journal.specs.Rows.{row_count};
ghost use Rattle.bw_recovery.specs.Paths.{wave_path, notes_path};
ghost use Rattle.bw_takes.specs.TakeFindings.{IsTakeFound};
ghost use Rattle.bw_takes.specs.JudgedTakes.{changed_beside, noted_unless};
ghost use Rattle.bw_takes.specs.TakeReports.{judged_finding, take_judged_in};

use crate::finding::{TakeFinding, look_at_take};
use bw_disk::{ReadFault, Volume, read_file};
use bw_journal::Replayed;
use bw_model::Name;
use bw_recovery::path_in;
use bw_take::TakeState;
use bw_take_files::find_changed;
use std::alloc::Global;

/// How far takes are looked at.
#[derive(Clone, Copy, Debug, PartialEq, Eq)]
pub enum Depth {
    /// Their journals, and of their files what a start reads: no sample.
    Journals,
    /// The samples too, which are compared with the digests in the journals.
    Samples,
}

/// What is found of a take in a folder, by the limit that its journal begins with. Nothing is
/// changed.
///
/// If the samples are compared, the journal is read again: if a server notes a number meanwhile,
/// the number's samples are in the file before.
///
/// # Errors
/// `Disk` if a call of the disk failed; `Memory` if memory was refused, or the journal has more than
/// 2^40 bytes or 2^32 numbers.
///
/// # Not specified
/// - When memory is refused.
/// - What is found while others write.
pub fn examine_take<D: Volume>(
    alloc: Global,
    disk: &mut D,
    folder: &str,
    name: &Name,
    depth: Depth,
) -> Result<TakeFinding, ReadFault>
    ensures failures { Counts (D.failures disk.old) (D.failures disk.new) (is_disk_fault result) }
    ensures disk { StaysWhole D.Disk disk.old disk.new }
    // The fault of a start, or what the journal says; then the first number that isn't there.
    ensures found { IsTrue (D.honest disk.old) → IfOk result (λ found. judged_finding found
        ≡ take_judged_in depth folder.now (D.contents disk.old) name.now) }
{
    let found = look_at_take(alloc, disk, folder, name)?;
    match depth {
        Depth::Journals => Ok(found),
        Depth::Samples => compare(alloc, disk, folder, name, found),
    }
}

/// What is found of a take with its samples, after this was found without them.
fn compare<D: Volume>(
    alloc: Global,
    disk: &mut D,
    folder: &str,
    name: &Name,
    found: TakeFinding,
) -> Result<TakeFinding, ReadFault>
    ensures failures { Counts (D.failures disk.old) (D.failures disk.new) (is_disk_fault result) }
    ensures disk { StaysWhole D.Disk disk.old disk.new }
    ensures found { IsTrue (D.honest disk.old) → IfOk result (λ after.
        IsTakeFound name.now (D.contents disk.old (notes_path folder.now name.now))
        (D.contents disk.old (wave_path folder.now name.now)) found →
        judged_finding after ≡ take_judged_in Depth.Samples folder.now (D.contents disk.old) name.now) }
{
    match found {
        TakeFinding::Begun(replayed) => compare_begun(alloc, disk, folder, name, replayed),
        TakeFinding::Stood => Ok(TakeFinding::Stood),
        TakeFinding::Unbegun => Ok(TakeFinding::Unbegun),
        TakeFinding::Refused(fault) => Ok(TakeFinding::Refused(fault)),
        TakeFinding::Changed(number) => Ok(TakeFinding::Changed(number)),
    }
}

/// The same of a take whose journal says this.
fn compare_begun<D: Volume>(
    alloc: Global,
    disk: &mut D,
    folder: &str,
    name: &Name,
    replayed: Replayed,
) -> Result<TakeFinding, ReadFault>
    ensures failures { Counts (D.failures disk.old) (D.failures disk.new) (is_disk_fault result) }
    ensures disk { StaysWhole D.Disk disk.old disk.new }
    ensures found { IsTrue (D.honest disk.old) → IfOk result (λ after. judged_finding after
        ≡ noted_unless (changed_beside name.now replayed.state.parts
        (D.contents disk.old (notes_path folder.now name.now))
        (D.contents disk.old (wave_path folder.now name.now)))
        replayed.state.parts (row_count replayed.table.items)) }
{
    match look_at_samples(alloc, disk, folder, name, &replayed.state)? {
        Some(number) => Ok(TakeFinding::Changed(number)),
        None => Ok(TakeFinding::Begun(replayed)),
    }
}

/// The first number of a take whose samples aren't in its file, by its journal.
fn look_at_samples<D: Volume>(
    alloc: Global,
    disk: &mut D,
    folder: &str,
    name: &Name,
    state: &TakeState,
) -> Result<Option<u32>, ReadFault>
    ensures failures { Counts (D.failures disk.old) (D.failures disk.new) (is_disk_fault result) }
    ensures disk { StaysWhole D.Disk disk.old disk.new }
    ensures value { IsTrue (D.honest disk.old) → IfOk result (λ v. v
        ≡ changed_beside name.now state.now.parts
        (D.contents disk.old (notes_path folder.now name.now))
        (D.contents disk.old (wave_path folder.now name.now))) }
{
    let wave = path_in(alloc, folder, name, ".wav")?;
    let notes = path_in(alloc, folder, name, ".journal")?;
    match read_file(disk, alloc, notes.as_str())? {
        Some(journal) => find_changed(alloc, disk, wave.as_str(), name, &journal, state),
        None => Ok(None),
    }
}
