//! Giving up a take: its files are put aside under names that no server knows.
ghost use Rattle.std.specs.Prelude.{◌≡◌, ◌⊎◌, IsTrue, IfOk, IfErr, OnOk, is_some, is_err};
ghost use Rattle.bw_store.specs.Stores.{Counts};
ghost use Rattle.bw_disk.specs.DiskSteps.{StaysWhole};
ghost use Rattle.bw_disk.specs.Volumes.{KeepsEach};
ghost use Rattle.bw_take_files.specs.GivenUp.{PutsTakeAside, PutsTakeAsideAt, PutsAside, PutsBothAside};
ghost use Rattle.bw_take_files.specs.GivenUp.{StaysUnlessFailed, StaysUnlessFailedAt, StopsBoth, FailsWith};
ghost use Rattle.bw_take_files.specs.GivenUp.{AreTakePathsApart, AreWaysClear, ForbidsAside, IsBarred};
ghost use Rattle.bw_take_files.specs.GivenUp.{IsWayClear, is_disk_failure, paths_in, paths_of};

use bw_disk::{ReadFault, Volume};
use bw_model::Name;
use bw_recovery::path_in;
use std::alloc::Global;
use thiserror::Error;

/// Why a take isn't given up.
#[derive(Clone, Copy, Debug, Drop, Error, PartialEq, Eq)]
pub enum GiveUpFault {
    /// Neither a journal nor a file of the name exists.
    #[error("no take of this name")]
    Unknown,
    /// What was given up earlier under the name is where its files would go.
    #[error("one of this name was given up earlier")]
    Earlier,
    /// A call of the disk failed.
    #[error("the disk failed")]
    Disk,
    /// Memory was refused.
    #[error("out of memory")]
    Memory,
}

/// Gives up a take in a folder: its journal becomes `NAME.journal.given-up`, and then its file
/// `NAME.wav.given-up`. Nothing is deleted or overwritten. A server that starts afterwards doesn't
/// know the name.
///
/// The journal goes first, so that a kill leaves no journal whose file is gone: a name is new, too,
/// after what a kill leaves. After an error the call may be made again.
///
/// # Errors
/// `Unknown` if neither exists, `Earlier` if something is where one of them would go: nothing has
/// changed then. `Disk` if a call of the disk failed: nothing, the journal, or both have been put
/// aside. `Memory` if memory was refused: nothing has changed.
///
/// # Not specified
/// - When memory is refused.
/// - What survives a loss of power: the disk is asked to keep the names after each of the two
///   moves.
pub fn give_up_take<D: Volume>(
    alloc: Global,
    disk: &mut D,
    folder: &str,
    name: &Name,
) -> Result<(), GiveUpFault>
    ensures honest { D.honest disk.new ≡ D.honest disk.old }
    ensures failures { Counts (D.failures disk.old) (D.failures disk.new) (is_disk_failure result) }
    ensures ok { IsTrue (D.honest disk.old) → OnOk result
        (PutsTakeAside folder.now name.now (D.contents disk.old) (D.contents disk.new)) }
    // `Unknown` and `Earlier` exactly where these hold.
    ensures err { IsTrue (D.honest disk.old) → IfErr result (λ fault.
        StaysUnlessFailed folder.now name.now fault (D.contents disk.old) (D.contents disk.new)) }
{
    let Ok(places) = places_of(alloc, folder, name) else {
        return Err(GiveUpFault::Memory);
    };
    put_aside_all(disk, folder, &places)
}

/// Where the files of a take are, and where they go if it is given up.
#[derive(Drop)]
struct Places {
    notes: String,
    wave: String,
    notes_to: String,
    wave_to: String,
}

fn places_of(alloc: Global, folder: &str, name: &Name) -> Result<Places, ReadFault>
    ensures { IfOk result (λ places. paths_of places ≡ paths_in folder.now name.now) }
{
    Ok(Places {
        notes: path_in(alloc, folder, name, ".journal")?,
        wave: path_in(alloc, folder, name, ".wav")?,
        notes_to: path_in(alloc, folder, name, ".journal.given-up")?,
        wave_to: path_in(alloc, folder, name, ".wav.given-up")?,
    })
}

/// Which of a take's files exist.
#[derive(Clone, Copy)]
struct Standing {
    notes: bool,
    wave: bool,
}

/// Puts journal and file of a take aside, if one of them exists and nothing is in the way.
fn put_aside_all<D: Volume>(disk: &mut D, folder: &str, places: &Places) -> Result<(), GiveUpFault>
    requires apart { AreTakePathsApart (paths_of places.now) }
    ensures honest { D.honest disk.new ≡ D.honest disk.old }
    ensures failures { Counts (D.failures disk.old) (D.failures disk.new) (is_disk_failure result) }
    ensures ok { IsTrue (D.honest disk.old) → OnOk result
        (PutsTakeAsideAt (paths_of places.now) (D.contents disk.old) (D.contents disk.new)) }
    ensures err { IsTrue (D.honest disk.old) → IfErr result (λ fault.
        StaysUnlessFailedAt (paths_of places.now) fault (D.contents disk.old) (D.contents disk.new)) }
{
    let standing = look_at_places(disk, places)?;
    if !standing.notes && !standing.wave {
        return Err(GiveUpFault::Unknown);
    }
    put_both_aside(disk, folder, places, standing)
}

/// Which of a take's files exist, where nothing is in the way of those that do.
///
/// # Errors
/// `Earlier` if something is, `Disk` if a call of the disk failed.
fn look_at_places<D: Volume>(disk: &mut D, places: &Places) -> Result<Standing, GiveUpFault>
    ensures disk { StaysWhole D.Disk disk.old disk.new }
    ensures failures { Counts (D.failures disk.old) (D.failures disk.new) (is_disk_failure result) }
    ensures ok { IsTrue (D.honest disk.old) → IfOk result (λ standing.
        AreWaysClear standing (paths_of places.now) (D.contents disk.old)) }
    ensures err { IsTrue (D.honest disk.old) → IfErr result (λ fault. ForbidsAside fault
        (IsBarred (paths_of places.now).notes (paths_of places.now).notes_to (D.contents disk.old)
        ⊎ IsBarred (paths_of places.now).wave (paths_of places.now).wave_to (D.contents disk.old))) }
{
    let notes = may_put_aside(disk, places.notes.as_str(), places.notes_to.as_str())?;
    let wave = may_put_aside(disk, places.wave.as_str(), places.wave_to.as_str())?;
    Ok(Standing { notes, wave })
}

/// Puts aside what there is of a journal and a file, first the journal.
///
/// # Errors
/// `Disk` if a call of the disk failed.
fn put_both_aside<D: Volume>(
    disk: &mut D,
    folder: &str,
    places: &Places,
    standing: Standing,
) -> Result<(), GiveUpFault>
    requires apart { AreTakePathsApart (paths_of places.now) }
    ensures honest { D.honest disk.new ≡ D.honest disk.old }
    ensures failures { Counts (D.failures disk.old) (D.failures disk.new) (is_disk_failure result) }
    ensures ok { IsTrue (D.honest disk.old) →
        AreWaysClear standing (paths_of places.now) (D.contents disk.old) →
        OnOk result (PutsBothAside (paths_of places.now) (D.contents disk.old) (D.contents disk.new)) }
    ensures err { IsTrue (D.honest disk.old) →
        AreWaysClear standing (paths_of places.now) (D.contents disk.old) →
        IfErr result (λ fault. FailsWith fault
        (StopsBoth (paths_of places.now) (D.contents disk.old) (D.contents disk.new))) }
{
    let (notes, notes_to) = (places.notes.as_str(), places.notes_to.as_str());
    put_aside(disk, folder, notes, notes_to, standing.notes)?;
    let (wave, wave_to) = (places.wave.as_str(), places.wave_to.as_str());
    put_aside(disk, folder, wave, wave_to, standing.wave)
}

/// Whether something is at a path, and can be put aside at another.
///
/// # Errors
/// `Earlier` if something is there too, `Disk` if a call of the disk failed.
fn may_put_aside<D: Volume>(disk: &mut D, from: &str, to: &str) -> Result<bool, GiveUpFault>
    ensures disk { StaysWhole D.Disk disk.old disk.new }
    ensures failures { Counts (D.failures disk.old) (D.failures disk.new) (is_disk_failure result) }
    ensures ok { IsTrue (D.honest disk.old) → IfOk result (λ stands.
        IsWayClear stands (D.contents disk.old from.now) (D.contents disk.old to.now)) }
    ensures err { IsTrue (D.honest disk.old) → IfErr result (λ fault.
        ForbidsAside fault (IsBarred from.now to.now (D.contents disk.old))) }
{
    if !stands(disk, from)? {
        return Ok(false);
    }
    if stands(disk, to)? {
        return Err(GiveUpFault::Earlier);
    }
    Ok(true)
}

/// Whether something is at a path.
fn stands<D: Volume>(disk: &mut D, path: &str) -> Result<bool, GiveUpFault>
    ensures disk { StaysWhole D.Disk disk.old disk.new }
    ensures failures { Counts (D.failures disk.old) (D.failures disk.new) (is_err result) }
    ensures value { IsTrue (D.honest disk.old) →
        IfOk result (λ stands. stands ≡ is_some (D.contents disk.old path.now)) }
    ensures err { IfErr result (λ fault. fault ≡ GiveUpFault.Disk) }
{
    match disk.open(path) {
        Ok(found) => Ok(found.is_some()),
        Err(_) => Err(GiveUpFault::Disk),
    }
}

/// Puts what is at a path aside at another, where nothing is, if anything does.
///
/// # Errors
/// `Disk` if a call of the disk failed: nothing has changed, or it is put aside.
fn put_aside<D: Volume>(
    disk: &mut D,
    folder: &str,
    from: &str,
    to: &str,
    stands: bool,
) -> Result<(), GiveUpFault>
    ensures honest { D.honest disk.new ≡ D.honest disk.old }
    ensures failures { Counts (D.failures disk.old) (D.failures disk.new) (is_disk_failure result) }
    ensures ok { IsTrue (D.honest disk.old) →
        IsWayClear stands (D.contents disk.old from.now) (D.contents disk.old to.now) →
        OnOk result (PutsAside from.now to.now (D.contents disk.old) (D.contents disk.new)) }
    ensures err { IsTrue (D.honest disk.old) →
        IsWayClear stands (D.contents disk.old from.now) (D.contents disk.old to.now) →
        IfErr result (λ fault. FailsWith fault (KeepsEach (D.contents disk.old) (D.contents disk.new)
        ⊎ PutsAside from.now to.now (D.contents disk.old) (D.contents disk.new))) }
{
    if !stands {
        return Ok(());
    }
    match disk.rename(from, to) {
        Ok(true) => sync_names(disk, folder),
        Ok(false) => Err(GiveUpFault::Earlier),
        Err(_) => Err(GiveUpFault::Disk),
    }
}

/// Asks that the names in a folder survive a loss of power.
fn sync_names<D: Volume>(disk: &mut D, folder: &str) -> Result<(), GiveUpFault>
    ensures disk { StaysWhole D.Disk disk.old disk.new }
    ensures failures { Counts (D.failures disk.old) (D.failures disk.new) (is_err result) }
    ensures err { IfErr result (λ fault. fault ≡ GiveUpFault.Disk) }
{
    match disk.sync_folder(folder) {
        Ok(()) => Ok(()),
        Err(_) => Err(GiveUpFault::Disk),
    }
}
