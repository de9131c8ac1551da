//! The names of a folder that have a journal.
ghost use Rattle.std.specs.Prelude.{◌≡◌, IsTrue, IfSome, IfOk, OnOk, ◌++◌, List, ℕ, codes, Some};
ghost use Rattle.bw_model.specs.Wire.{is_name as is_take_name};
ghost use Rattle.bw_disk.specs.DiskSteps.{StaysWhole};
ghost use Rattle.bw_disk.specs.Volumes.{AreDistinct};
ghost use Rattle.bw_recovery.specs.FoundNames.{ListsJournals, AddsName};

use bw_disk::{ReadFault, Volume};
use bw_model::Name;
use std::alloc::{AllocError, Global};
use std::collections::BTreeSet;

/// The names of a folder that have a journal, each once. Nothing is changed.
///
/// # Errors
/// `Disk` if a call of the disk failed; `Memory` if memory was refused.
///
/// # Not specified
/// The order of the names, and when memory is refused.
pub fn list_names<E: Volume>(
    alloc: Global,
    notes: &mut E,
    folder: &str,
) -> Result<Vec<Name>, ReadFault>
    ensures notes { StaysWhole E.Disk notes.old notes.new }
    ensures distinct { IfOk result (λ names. AreDistinct names.items) }
    ensures each { IsTrue (E.honest notes.old) →
        IfOk result (λ names. ListsJournals folder.now (E.contents notes.old) names.items) }
{
    let names = name_set(alloc, notes, folder)?;
    in_order(alloc, names)
}

/// The same names as a set, so that each is compared with few of the others.
fn name_set<E: Volume>(
    alloc: Global,
    notes: &mut E,
    folder: &str,
) -> Result<BTreeSet<Name>, ReadFault>
    ensures notes { StaysWhole E.Disk notes.old notes.new }
    ensures each { IsTrue (E.honest notes.old) →
        IfOk result (λ names. ListsJournals folder.now (E.contents notes.old) names.keys) }
{
    let listed = notes.list(folder)?;
    let mut names = BTreeSet::new(alloc);
    for file in &listed {
        add_name(file.as_str(), &mut names)?;
    }
    Ok(names)
}

/// The names of a set in their order.
fn in_order(alloc: Global, names: BTreeSet<Name>) -> Result<Vec<Name>, ReadFault>
    ensures names { IfOk result (λ list. list.items ≡ names.keys) }
    ensures distinct { IfOk result (λ list. AreDistinct list.items) }
{
    let list: Result<Vec<Name>, AllocError> = names.into_iter().collect(alloc);
    match list {
        Ok(list) => Ok(list),
        Err(_error) => Err(ReadFault::Memory),
    }
}

/// Adds the name of this file, if it is a journal.
fn add_name(file: &str, names: &mut BTreeSet<Name>) -> Result<(), ReadFault>
    ensures added { OnOk result (AddsName file.now names.old.keys names.new.keys) }
{
    let Some(name) = journal_name(file) else {
        return Ok(());
    };
    match names.insert(name) {
        Ok(_added) => Ok(()),
        Err(_refused) => Err(ReadFault::Memory),
    }
}

/// The name in the file name of a journal, `NAME.journal`; None for any other file name.
pub fn journal_name(file: &str) -> Option<Name>
    ensures name { IfSome result (λ name. IsTrue (is_take_name name)) }
    ensures some { IfSome result (λ name. file.now ≡ name ++ codes ".journal") }
    ensures each { (name : List ℕ) → IsTrue (is_take_name name) →
        file.now ≡ name ++ codes ".journal" → result ≡ Some name }
{
    let Some(stem) = file.as_bytes().strip_suffix(b".journal") else {
        return None;
    };
    Name::new(stem)
}
