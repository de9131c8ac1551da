//! Restoring journal and file of a name to what its done numbers make: the last step before a
//! server resumes it.
ghost use Rattle.std.specs.Prelude.{◌≡◌, ℕ, List, Some, IsTrue, IsFalse, IfOk, IfErr, OnOk, OnErr, take};
ghost use Rattle.std.specs.Prelude.{option_map, codes, string_bytes, length, ◌+◌, ◌++◌, decimal};
ghost use Rattle.std.specs.Prelude.{IsSome};
ghost use Rattle.bw_store.specs.Stores.{Counts, KeepsOthers};
ghost use Rattle.bw_disk.specs.ReadFaults.{is_disk_fault};
ghost use Rattle.bw_recovery.specs.CountedFaults.{CountsUnless};
ghost use Rattle.bw_recovery.specs.Changes.{IsCrowded, torn_text};
ghost use Rattle.bw_recovery.specs.Adoptions.{adopted, patched, MendsInPart, AdoptsInPart};
ghost use Rattle.bw_recovery.specs.Findings.{keeps_file, leaves_take};
ghost use Rattle.bw_recovery.specs.Restorings.{IsFoundOn, IsSoundOn, RestoresOn, StaysLeftOn, ChangesOn};
ghost use Rattle.bw_recovery.specs.Restorings.{CountsOn, is_refused};
ghost use Rattle.bw_recovery.specs.Changes.{Becomes, BecomesAs, IsAside, MayMove, ChangesTake, IsNoWave};
ghost use Rattle.bw_recovery.specs.Paths.{path_with, wave_path, notes_path};
ghost use Rattle.bw_disk.specs.Volumes.{KeepsEach, IsCutInPart};

use crate::adoption::{Adoption, Mending};
use crate::finding::{Begun, Finding};
use crate::mending::mend;
use crate::paths::path_in;
use bw_disk::{ReadFault, Volume};
use bw_journal::Replayed;
use bw_model::Name;
use std::alloc::Global;

/// Makes journal and file of a name what they are to be, by what was found of it: a torn entry is
/// cut off, a journal that isn't begun is emptied, and the file is adopted. Nothing changes of a
/// name that is refused.
///
/// # Errors
/// `Disk` if a call of a disk failed, or 256 files of the name were set aside already; `Memory` if
/// memory was refused. The same name may be looked at and resumed again.
///
/// # Not specified
/// What an error leaves of the name's own files, but that it is what a stop may leave of the same
/// log, and that the files of other names are as they were.
pub fn restore_name<D: Volume, E: Volume>(
    alloc: Global,
    takes: &mut D,
    notes: &mut E,
    folder: &str,
    name: &Name,
    finding: &Finding,
) -> Result<(), ReadFault>
    ensures takes { D.honest takes.new ≡ D.honest takes.old }
    ensures notes { E.honest notes.new ≡ E.honest notes.old }
    // A name that isn't refused has the journal and the file that it is to have.
    ensures restored { (limit : ℕ) (f : IsFoundOn D.Disk E.Disk limit folder.now name.now takes.old notes.old
        finding.now) → IsSoundOn D.Disk E.Disk limit folder.now name.now f.journal takes.old → OnOk result
        (RestoresOn D.Disk E.Disk limit folder.now name.now f.journal takes.old takes.new notes.new) }
    // Whatever was left of the name stays so, after a failed call and on success.
    ensures left { (limit : ℕ) (f : IsFoundOn D.Disk E.Disk limit folder.now name.now takes.old notes.old
        finding.now) → StaysLeftOn D.Disk E.Disk limit folder.now name.now f.journal takes.old takes.new
        notes.new }
    // Each other path has what it had, on errors too.
    ensures others { IsTrue (D.honest takes.old) → IsTrue (E.honest notes.old) →
        ChangesOn D.Disk E.Disk folder.now name.now takes.old notes.old takes.new notes.new }
    // `Disk` is a call that failed, unless each path for a file that is set aside is taken.
    ensures failures { (limit : ℕ) → IsFoundOn D.Disk E.Disk limit folder.now name.now takes.old notes.old
        finding.now → CountsOn D.Disk E.Disk folder.now name.now takes.old notes.old takes.new notes.new
        (is_disk_fault result) }
    ensures kept { IsTrue (leaves_take finding.now) → takes.new ≡ takes.old }
    ensures refused { IsTrue (is_refused finding.now) → notes.new ≡ notes.old }
{
    match finding {
        Finding::Refused(_) => Ok(()),
        Finding::Unbegun => cut_journal(notes, alloc, folder, name, 0),
        Finding::Begun(begun) => restore_begun(alloc, takes, notes, folder, name, begun),
    }
}

/// The same of a name whose journal is begun.
fn restore_begun<D: Volume, E: Volume>(
    alloc: Global,
    takes: &mut D,
    notes: &mut E,
    folder: &str,
    name: &Name,
    begun: &Begun,
) -> Result<(), ReadFault>
    ensures takes { D.honest takes.new ≡ D.honest takes.old }
    ensures notes { E.honest notes.new ≡ E.honest notes.old }
    ensures restored { (limit : ℕ) (f : IsFoundOn D.Disk E.Disk limit folder.now name.now takes.old notes.old
        (Finding.Begun begun.now)) → OnOk result
        (RestoresOn D.Disk E.Disk limit folder.now name.now f.journal takes.old takes.new notes.new) }
    ensures left { (limit : ℕ) (f : IsFoundOn D.Disk E.Disk limit folder.now name.now takes.old notes.old
        (Finding.Begun begun.now)) → StaysLeftOn D.Disk E.Disk limit folder.now name.now f.journal takes.old
        takes.new notes.new }
    ensures others { IsTrue (D.honest takes.old) → IsTrue (E.honest notes.old) →
        ChangesOn D.Disk E.Disk folder.now name.now takes.old notes.old takes.new notes.new }
    ensures failures { (limit : ℕ) → IsFoundOn D.Disk E.Disk limit folder.now name.now takes.old notes.old
        (Finding.Begun begun.now) → CountsOn D.Disk E.Disk folder.now name.now takes.old notes.old takes.new
        notes.new (is_disk_fault result) }
    ensures kept { IsTrue (keeps_file begun.now.adoption) → takes.new ≡ takes.old }
{
    cut_torn(notes, alloc, folder, name, &begun.replayed)?;
    adopt_file(takes, alloc, folder, name, &begun.header, &begun.adoption)
}

/// Cuts off the torn entry of a name's journal, if there is one.
fn cut_torn<E: Volume>(
    notes: &mut E,
    alloc: Global,
    folder: &str,
    name: &Name,
    replayed: &Replayed,
) -> Result<(), ReadFault>
    ensures honest { E.honest notes.new ≡ E.honest notes.old }
    ensures ok { IsTrue (E.honest notes.old) → (journal : List ℕ) →
        E.contents notes.old (notes_path folder.now name.now) ≡ Some journal →
        replayed.now.used + replayed.now.torn ≡ length journal →
        OnOk result (E.contents notes.new (notes_path folder.now name.now)
        ≡ Some (take replayed.now.used journal)) }
    ensures part { IsTrue (E.honest notes.old) → IsCutInPart
        (E.contents notes.old (notes_path folder.now name.now)) replayed.now.used
        (E.contents notes.new (notes_path folder.now name.now)) }
    ensures others { IsTrue (E.honest notes.old) → KeepsOthers
        (E.contents notes.old) (E.contents notes.new) (notes_path folder.now name.now) }
    ensures failures { IsTrue (E.honest notes.old) →
        IsSome (E.contents notes.old (notes_path folder.now name.now)) →
        Counts (E.failures notes.old) (E.failures notes.new) (is_disk_fault result) }
{
    if replayed.torn == 0 {
        return Ok(());
    }
    cut_journal(notes, alloc, folder, name, replayed.used as u64)
}

/// Cuts the journal of a name to its first `len` bytes.
///
/// # Errors
/// `Disk` if a call of the disk failed, or there is no journal; `Memory` if memory was refused.
///
/// # Not specified
/// How much of what is to be cut an error leaves; other files are as they were.
pub fn cut_journal<E: Volume>(
    notes: &mut E,
    alloc: Global,
    folder: &str,
    name: &Name,
    len: u64,
) -> Result<(), ReadFault>
    ensures honest { E.honest notes.new ≡ E.honest notes.old }
    ensures ok { IsTrue (E.honest notes.old) → OnOk result (Becomes (take len)
        (E.contents notes.old (notes_path folder.now name.now))
        (E.contents notes.new (notes_path folder.now name.now))) }
    // A failed call cuts no byte that is to stay.
    ensures part { IsTrue (E.honest notes.old) → IsCutInPart
        (E.contents notes.old (notes_path folder.now name.now)) len
        (E.contents notes.new (notes_path folder.now name.now)) }
    ensures others { IsTrue (E.honest notes.old) → KeepsOthers
        (E.contents notes.old) (E.contents notes.new) (notes_path folder.now name.now) }
    // `Disk` is a call that failed, if there is a journal.
    ensures failures { IsTrue (E.honest notes.old) →
        IsSome (E.contents notes.old (notes_path folder.now name.now)) →
        Counts (E.failures notes.old) (E.failures notes.new) (is_disk_fault result) }
{
    let path = path_in(alloc, folder, name, ".journal")?;
    cut_at(notes, path.as_str(), len)
}

/// Cuts the file at a path to its first `len` bytes.
fn cut_at<E: Volume>(notes: &mut E, path: &str, len: u64) -> Result<(), ReadFault>
    ensures honest { E.honest notes.new ≡ E.honest notes.old }
    ensures ok { IsTrue (E.honest notes.old) → OnOk result (Becomes (take len)
        (E.contents notes.old path.now) (E.contents notes.new path.now)) }
    ensures part { IsTrue (E.honest notes.old) →
        IsCutInPart (E.contents notes.old path.now) len (E.contents notes.new path.now) }
    ensures others { IsTrue (E.honest notes.old) →
        KeepsOthers (E.contents notes.old) (E.contents notes.new) path.now }
    ensures failures { IsTrue (E.honest notes.old) → IsSome (E.contents notes.old path.now) →
        Counts (E.failures notes.old) (E.failures notes.new) (is_disk_fault result) }
{
    let Ok(opened) = notes.open(path) else {
        return Err(ReadFault::Disk);
    };
    let Some(mut file) = opened else {
        return Err(ReadFault::Disk);
    };
    match notes.cut(&mut file, len) {
        Ok(()) => Ok(()),
        Err(_) => Err(ReadFault::Disk),
    }
}

/// Does with the file of a name what was judged of it, with its header.
///
/// A file that is kept isn't opened; nothing is deleted: one that is set aside becomes `NAME.torn`,
/// or if that exists, `NAME.torn1`, or the next number up to 255.
///
/// # Errors
/// `Disk` if a call of the disk failed, the file isn't there, or each of those names is taken;
/// `Memory` if memory was refused.
///
/// # Not specified
/// What an error leaves of the file, but that its samples stay, and that other files are as they
/// were.
pub fn adopt_file<D: Volume>(
    takes: &mut D,
    alloc: Global,
    folder: &str,
    name: &Name,
    header: &[u8],
    adoption: &Adoption,
) -> Result<(), ReadFault>
    ensures honest { D.honest takes.new ≡ D.honest takes.old }
    ensures ok { IsTrue (D.honest takes.old) → OnOk result (BecomesAs
        (adopted adoption.now header.now)
        (D.contents takes.old (wave_path folder.now name.now))
        (D.contents takes.new (wave_path folder.now name.now))) }
    // After a failed call the samples stay; a file set aside has moved, or nothing changed.
    ensures part { IsTrue (D.honest takes.old) → (place count : ℕ) →
        AdoptsInPart place count adoption.now header.now
        (D.contents takes.old (wave_path folder.now name.now))
        (D.contents takes.new (wave_path folder.now name.now)) }
    ensures others { IsTrue (D.honest takes.old) → ChangesTake folder.now name.now
        (D.contents takes.old) (D.contents takes.new) }
    // `Disk` is a call that failed, unless each path for a file that is set aside is taken.
    ensures failures { IsTrue (D.honest takes.old) →
        (IsFalse (keeps_file adoption.now) → IsSome (D.contents takes.old (wave_path folder.now name.now))) →
        CountsUnless (IsCrowded folder.now name.now (D.contents takes.old))
        (D.failures takes.old) (D.failures takes.new) (is_disk_fault result) }
    ensures kept { IsTrue (keeps_file adoption.now) → takes.new ≡ takes.old }
{
    match adoption {
        Adoption::Keep => Ok(()),
        Adoption::SetAside => set_aside(takes, alloc, folder, name),
        Adoption::Mend(mending) => {
            let path = path_in(alloc, folder, name, ".wav")?;
            mend_at(takes, path.as_str(), header, mending)
        }
    }
}

/// Mends the file at a path, which is there.
fn mend_at<D: Volume>(
    takes: &mut D,
    path: &str,
    header: &[u8],
    mending: &Mending,
) -> Result<(), ReadFault>
    ensures honest { D.honest takes.new ≡ D.honest takes.old }
    ensures ok { IsTrue (D.honest takes.old) → OnOk result
        (D.contents takes.new path.now
        ≡ option_map (patched mending.now header.now) (D.contents takes.old path.now)) }
    ensures part { IsTrue (D.honest takes.old) → (place count : ℕ) →
        MendsInPart place count mending.now header.now
        (D.contents takes.old path.now) (D.contents takes.new path.now) }
    ensures others { IsTrue (D.honest takes.old) →
        KeepsOthers (D.contents takes.old) (D.contents takes.new) path.now }
    ensures failures { IsTrue (D.honest takes.old) → IsSome (D.contents takes.old path.now) →
        Counts (D.failures takes.old) (D.failures takes.new) (is_disk_fault result) }
{
    let Ok(opened) = takes.open(path) else {
        return Err(ReadFault::Disk);
    };
    let Some(mut file) = opened else {
        return Err(ReadFault::Disk);
    };
    match mend(takes, &mut file, header, mending) {
        Ok(()) => Ok(()),
        Err(_) => Err(ReadFault::Disk),
    }
}

/// Moves the file of a take to the first free path of those that are tried.
fn set_aside<D: Volume>(
    takes: &mut D,
    alloc: Global,
    folder: &str,
    name: &Name,
) -> Result<(), ReadFault>
    ensures honest { D.honest takes.new ≡ D.honest takes.old }
    ensures ok { IsTrue (D.honest takes.old) → OnOk result (IsAside folder.now name.now
        (D.contents takes.old) (D.contents takes.new)) }
    ensures part { IsTrue (D.honest takes.old) → MayMove folder.now name.now
        (D.contents takes.old) (D.contents takes.new) }
    ensures others { IsTrue (D.honest takes.old) → ChangesTake folder.now name.now
        (D.contents takes.old) (D.contents takes.new) }
    ensures failures { IsTrue (D.honest takes.old) →
        CountsUnless (IsCrowded folder.now name.now (D.contents takes.old))
        (D.failures takes.old) (D.failures takes.new) (is_disk_fault result) }
{
    for attempt in 0..256u32 {
        if try_aside(takes, alloc, folder, name, attempt)? {
            return Ok(());
        }
    }
    Err(ReadFault::Disk)
}

/// Moves the file of a take to the path with this number, and returns true; false if something is
/// there: nothing changes then.
fn try_aside<D: Volume>(
    takes: &mut D,
    alloc: Global,
    folder: &str,
    name: &Name,
    attempt: u32,
) -> Result<bool, ReadFault>
    ensures honest { D.honest takes.new ≡ D.honest takes.old }
    ensures moved { IsTrue (D.honest takes.old) → IfOk result (λ moved. IsTrue moved →
        IsAside folder.now name.now (D.contents takes.old) (D.contents takes.new)) }
    ensures stays { IsTrue (D.honest takes.old) → IfOk result (λ moved. IsFalse moved →
        KeepsEach (D.contents takes.old) (D.contents takes.new)) }
    ensures err { IsTrue (D.honest takes.old) → OnErr result (MayMove folder.now name.now
        (D.contents takes.old) (D.contents takes.new)) }
    ensures taken { IsTrue (D.honest takes.old) → IfOk result (λ moved. IsFalse moved →
        IsSome (D.contents takes.old (path_with folder.now (torn_text attempt) name.now))) }
    ensures failures { Counts (D.failures takes.old) (D.failures takes.new) (is_disk_fault result) }
{
    let from = path_in(alloc, folder, name, ".wav")?;
    let ending = torn_ending(alloc, attempt)?;
    let to = path_in(alloc, folder, name, ending.as_str())?;
    match takes.rename(from.as_str(), to.as_str()) {
        Ok(moved) => Ok(moved),
        Err(_) => Err(ReadFault::Disk),
    }
}

/// What follows a name of which a file was set aside: `.torn`, and from 1 on the number.
fn torn_ending(alloc: Global, attempt: u32) -> Result<String, ReadFault>
    ensures value { IfOk result (λ e. string_bytes e ≡ torn_text attempt) }
    ensures err { IfErr result (λ e. e ≡ ReadFault.Memory) }
    ensures torn { IfOk result (λ e. take 5 (string_bytes e) ≡ codes ".torn") }
    ensures apart { IfOk result (λ e. (folder name : List ℕ) →
        IsNoWave folder (path_with folder (string_bytes e) name)) }
{
    if attempt == 0 {
        return first_ending(alloc);
    }
    numbered_ending(alloc, attempt)
}

/// `.torn`.
fn first_ending(alloc: Global) -> Result<String, ReadFault>
    ensures value { IfOk result (λ e. string_bytes e ≡ codes ".torn") }
    ensures err { IfErr result (λ e. e ≡ ReadFault.Memory) }
{
    match String::from_str(alloc, ".torn") {
        Ok(ending) => Ok(ending),
        Err(_) => Err(ReadFault::Memory),
    }
}

/// `.torn` and a number.
fn numbered_ending(alloc: Global, attempt: u32) -> Result<String, ReadFault>
    ensures value { IfOk result (λ e. string_bytes e ≡ codes ".torn" ++ decimal attempt) }
    ensures err { IfErr result (λ e. e ≡ ReadFault.Memory) }
{
    match format!(in alloc; ".torn{attempt}") {
        Ok(ending) => Ok(ending),
        Err(_) => Err(ReadFault::Memory),
    }
}
