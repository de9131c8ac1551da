//! The names of the takes of a folder.
ghost use Rattle.std.specs.Prelude.{◌≡◌, ◌++◌, ℕ, List, Some, IsTrue, IfSome, IfOk, IfErr, OnOk, codes};
ghost use Rattle.bw_model.specs.Wire.{is_name as is_take_name};
ghost use Rattle.bw_disk.specs.DiskSteps.{StaysWhole};
ghost use Rattle.bw_disk.specs.declared.reading.ReadFault.TheVariants.{Memory};
ghost use Rattle.bw_takes.specs.ReadCounts.{CountsRead};
ghost use Rattle.bw_takes.specs.TakeNames.{IsFileOf, ListsTakes, AreNamesInOrder, AddsTake};

use bw_disk::{ReadFault, Volume};
use bw_model::Name;
use bw_recovery::journal_name;
use std::alloc::Global;
use std::collections::BTreeSet;

/// The names of the takes of a folder, which have a journal or a file there, in the order of their
/// bytes. Nothing is changed.
///
/// # Errors
/// `Disk` if the folder can't be listed; `Memory` if memory was refused.
///
/// # Not specified
/// When memory is refused.
pub fn takes_in<D: Volume>(
    alloc: Global,
    disk: &mut D,
    folder: &str,
) -> Result<BTreeSet<Name>, ReadFault>
    ensures failures { CountsRead (D.failures disk.old) (D.failures disk.new) result }
    ensures disk { StaysWhole D.Disk disk.old disk.new }
    ensures ordered { IfOk result (λ names. AreNamesInOrder names.keys) }
    ensures each { IsTrue (D.honest disk.old) →
        IfOk result (λ names. ListsTakes folder.now (D.contents disk.old) names.keys) }
{
    let listed = disk.list(folder)?;
    let mut names = BTreeSet::new(alloc);
    for file in &listed {
        add_take(file.as_str(), &mut names)?;
    }
    Ok(names)
}

/// Adds the take that a file belongs to, if it belongs to one.
fn add_take(file: &str, names: &mut BTreeSet<Name>) -> Result<(), ReadFault>
    ensures memory { IfErr result (λ fault. fault ≡ Memory) }
    ensures added { OnOk result (AddsTake file.now names.old.keys names.new.keys) }
    ensures ordered { AreNamesInOrder names.old.keys → AreNamesInOrder names.new.keys }
{
    let Some(name) = take_of(file) else {
        return Ok(());
    };
    match names.insert(name) {
        Ok(_) => Ok(()),
        Err(_) => Err(ReadFault::Memory),
    }
}

/// The take whose journal or file has this name, if it is one: `NAME.journal` or `NAME.wav`.
pub fn take_of(file: &str) -> Option<Name>
    ensures some { IfSome result (λ name. IsTrue (is_take_name name) × IsFileOf name file.now) }
    ensures each { (name : List ℕ) → IsTrue (is_take_name name) → IsFileOf name file.now →
        result ≡ Some name }
{
    match journal_name(file) {
        Some(name) => Some(name),
        None => wave_name(file),
    }
}

/// The take whose file has this name, if it is one: `NAME.wav`.
fn wave_name(file: &str) -> Option<Name>
    ensures name { IfSome result (λ name. IsTrue (is_take_name name)) }
    ensures some { IfSome result (λ name. file.now ≡ name ++ codes ".wav") }
    ensures each { (name : List ℕ) → IsTrue (is_take_name name) →
        file.now ≡ name ++ codes ".wav" → result ≡ Some name }
{
    let Some(stem) = file.as_bytes().strip_suffix(b".wav") else {
        return None;
    };
    Name::new(stem)
}
