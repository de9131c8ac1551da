//! What is done with a name on the disks of its folder's store and journal, which are lent.
ghost use Rattle.bw_kept.specs.DiskVisits.{ComparesOn, LooksOn, MendsOn};
ghost use Rattle.std.specs.Prelude.{◌≡◌, IsTrue, IfOk, is_some};
ghost use Rattle.bw_store.specs.Stores.{Counts};
ghost use Rattle.bw_disk.specs.DiskSteps.{StaysWhole};
ghost use Rattle.bw_disk.specs.ReadFaults.{is_disk_fault};

use bw_disk::{ReadFault, Volume};
use bw_folder::DisksVisitor;
use bw_layout::Limit;
use bw_model::Name;
use bw_recovery::{Finding, look, path_in, restore_name};
use std::alloc::Global;

/// Looks for a name, and has what was found.
#[derive(Drop)]
pub(crate) struct Looking<'a> {
    pub(crate) alloc: Global,
    pub(crate) limit: Limit,
    pub(crate) name: &'a Name,
    pub(crate) result: Result<Option<Finding>, ReadFault>,
}

impl<D: Volume, E: Volume> DisksVisitor<D, E> for Looking<'_> {
    ghost visits = { λ folder visitor takes notes later later_takes later_notes.
        LooksOn D.Disk E.Disk folder visitor.name.now visitor.limit
        takes notes later.result later_takes later_notes };

    fn visit(&mut self, folder: &str, takes: &mut D, notes: &mut E) {
        self.result = look(self.alloc, takes, notes, folder, self.limit, self.name);
    }
}

/// Restores a name of which this was found, and has what came of it.
#[derive(Drop)]
pub(crate) struct Restoring<'a> {
    pub(crate) alloc: Global,
    pub(crate) name: &'a Name,
    pub(crate) finding: &'a Finding,
    pub(crate) result: Result<(), ReadFault>,
}

impl<D: Volume, E: Volume> DisksVisitor<D, E> for Restoring<'_> {
    ghost visits = { λ folder visitor takes notes later later_takes later_notes. MendsOn D.Disk E.Disk
        folder visitor.name.now visitor.finding.now takes notes later.result later_takes later_notes };

    fn visit(&mut self, folder: &str, takes: &mut D, notes: &mut E) {
        self.result = restore_name(self.alloc, takes, notes, folder, self.name, self.finding);
    }
}

/// Compares whether each disk has a file of a name, and has what came of it.
#[derive(Drop)]
pub(crate) struct Comparing<'a> {
    pub(crate) alloc: Global,
    pub(crate) name: &'a Name,
    pub(crate) result: Result<bool, ReadFault>,
}

impl<D: Volume, E: Volume> DisksVisitor<D, E> for Comparing<'_> {
    ghost visits = { λ folder visitor takes notes later later_takes later_notes. ComparesOn D.Disk E.Disk
        folder visitor.name.now takes notes later.result later_takes later_notes };

    fn visit(&mut self, folder: &str, takes: &mut D, notes: &mut E) {
        self.result = compare(self.alloc, takes, notes, folder, self.name);
    }
}

/// Whether two disks show alike whether a name has a file in a folder. Nothing is changed.
///
/// # Errors
/// `Disk` if a call of a disk failed; `Memory` if memory was refused.
fn compare<D: Volume, E: Volume>(
    alloc: Global,
    takes: &mut D,
    notes: &mut E,
    folder: &str,
    name: &Name,
) -> Result<bool, ReadFault>
    ensures { ComparesOn D.Disk E.Disk folder.now name.now takes.old notes.old result takes.new notes.new }
{
    let path = path_in(alloc, folder, name, ".wav")?;
    let taken = stands_at(takes, path.as_str())?;
    let noted = stands_at(notes, path.as_str())?;
    Ok(taken == noted)
}

/// Whether something is at a path of a disk.
fn stands_at<D: Volume>(disk: &mut D, path: &str) -> Result<bool, ReadFault>
    ensures disk { StaysWhole D.Disk disk.old disk.new }
    ensures value { IsTrue (D.honest disk.old) →
        IfOk result (λ found. found ≡ is_some (D.contents disk.old path.now)) }
    ensures failures { Counts (D.failures disk.old) (D.failures disk.new) (is_disk_fault result) }
{
    match disk.open(path) {
        Ok(found) => Ok(found.is_some()),
        Err(_fault) => Err(ReadFault::Disk),
    }
}
