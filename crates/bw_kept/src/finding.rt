//! Finding a name: in the table, or in the folder.
ghost use Rattle.std.specs.Prelude.{◌≡◌, ◌≢◌, ◌<◌, ◌⊎◌, true, false, None, IsSome, IsTrue};
ghost use Rattle.bw_model.specs.Turn.{most_takes};
ghost use Rattle.bw_journal.specs.Notes.{KeepsCommitted};
ghost use Rattle.bw_folder.specs.Commits.{IsAllCommitted};
ghost use Rattle.bw_session.specs.SeenServers.{session_kept, names_kept, server_journal};
ghost use Rattle.bw_kept.specs.FoundNames.{KeepsFolderBooks, OnlyForgets, KeepsSessions, FindsBooks};
ghost use Rattle.bw_kept.specs.FoundNames.{FindsNewIn};
ghost use Rattle.bw_kept.specs.RecoverySteps.{fault_of_read};
ghost use Rattle.bw_kept.specs.Visits.{delay_by};
ghost use Rattle.bw_kept.specs.FoundNames.{PutsInBooks, IsWhere};
ghost use Rattle.bw_kept.specs.KeptTurns.{KeepsCounts, NoneMayLeave, HasPlace, DiskFails, DisksDiffer};

use crate::delay::Delay;
use crate::recovering::{close_files, commit_notes, recover_name};
use crate::recovery::Recovered;
use crate::room::{Leaving, Room, drop_any, drop_oldest, room_after};
use bw_disk::{ReadFault, Volume};
use bw_folder::{FolderJournal, FolderStore};
use bw_journal::Journal;
use bw_model::Name;
use bw_session::{KeptTake, Server};
use bw_store::TakeStore;
use std::alloc::Global;

/// Where a name is.
#[derive(Clone, Copy, Debug, PartialEq, Eq)]
pub(crate) enum Found {
    /// In the table.
    Known,
    /// Nowhere: no number of it is done.
    New,
    /// In the folder, and it can't come into the table; or it isn't known where.
    PutOff(Delay),
}

/// Has a name of a full table leave it: the least recently used of those that may, or another if
/// none whose use is noted may.
fn drop_one<D: Volume, E: Volume>(
    alloc: Global,
    server: &mut Server<FolderStore<D>, FolderJournal<E>>,
    used: &[Name],
) -> Leaving
    requires committed { IsAllCommitted (server_journal server.old) }
    ensures forgets { OnlyForgets result server.old server.new }
    ensures none { result ≡ Leaving.NoneMay → NoneMayLeave ⟦<FolderStore<D> as TakeStore>⟧
        ⟦<FolderJournal<E> as Journal>⟧ server.new }
{
    if !server.is_full() {
        return Leaving::Left;
    }
    match drop_oldest(server, used) {
        Leaving::Left => Leaving::Left,
        Leaving::Refused => Leaving::Refused,
        Leaving::NoneMay => drop_any(alloc, server),
    }
}

/// Finds a name: if it isn't in the table, all notes are committed, room is made, and the name is
/// recovered from its folder.
pub(crate) fn find<D: Volume, E: Volume>(
    alloc: Global,
    server: &mut Server<FolderStore<D>, FolderJournal<E>>,
    used: &[Name],
    name: &Name,
) -> Found
    ensures counts { KeepsCounts ⟦<FolderStore<D> as TakeStore>⟧ ⟦<FolderJournal<E> as Journal>⟧
        server.old server.new }
    ensures inside { IsSome (session_kept server.old name.now) →
        (result ≡ Found.Known) × (server.new ≡ server.old) }
    ensures found { IsWhere ⟦<FolderStore<D> as TakeStore>⟧ ⟦<FolderJournal<E> as Journal>⟧
        name.now result server.new }
    ensures books { FindsBooks ⟦<FolderStore<D> as TakeStore>⟧ ⟦<FolderJournal<E> as Journal>⟧
        (DiskFails D.Disk E.Disk) (DisksDiffer D.Disk E.Disk) server.old server.new name.now result }
    ensures place { result ≡ Found.New →
        HasPlace ⟦<FolderStore<D> as TakeStore>⟧ ⟦<FolderJournal<E> as Journal>⟧ true server.new
        ⊎ NoneMayLeave ⟦<FolderStore<D> as TakeStore>⟧ ⟦<FolderJournal<E> as Journal>⟧ server.new }
{
    if server.is_known(name) {
        return Found::Known;
    }
    match commit_notes(server) {
        Ok(()) => find_outside(alloc, server, used, name),
        Err(fault) => Found::PutOff(delay_of_read(fault)),
    }
}

/// The same of a name that isn't in the table, when nothing is pending.
fn find_outside<D: Volume, E: Volume>(
    alloc: Global,
    server: &mut Server<FolderStore<D>, FolderJournal<E>>,
    used: &[Name],
    name: &Name,
) -> Found
    requires committed { IsAllCommitted (server_journal server.old) }
    requires fresh { session_kept server.old name.now ≡ None }
    ensures counts { KeepsCounts ⟦<FolderStore<D> as TakeStore>⟧ ⟦<FolderJournal<E> as Journal>⟧
        server.old server.new }
    ensures found { IsWhere ⟦<FolderStore<D> as TakeStore>⟧ ⟦<FolderJournal<E> as Journal>⟧
        name.now result server.new }
    ensures books { FindsBooks ⟦<FolderStore<D> as TakeStore>⟧ ⟦<FolderJournal<E> as Journal>⟧
        (DiskFails D.Disk E.Disk) (DisksDiffer D.Disk E.Disk) server.old server.new name.now result }
    ensures place { result ≡ Found.New →
        HasPlace ⟦<FolderStore<D> as TakeStore>⟧ ⟦<FolderJournal<E> as Journal>⟧ true server.new
        ⊎ NoneMayLeave ⟦<FolderStore<D> as TakeStore>⟧ ⟦<FolderJournal<E> as Journal>⟧ server.new }
{
    let leaving = drop_one(alloc, server, used);
    match recover_name(alloc, server, name) {
        Ok(Recovered::New) => found_new(server, leaving, name),
        Ok(Recovered::LeftOut(fault)) => Found::PutOff(Delay::LeftOut(fault)),
        Ok(Recovered::Kept(take)) => put_in(server, leaving, name, take),
        Err(delay) => Found::PutOff(delay),
    }
}

/// Why a frame is put off, if what is noted can't be committed.
fn delay_of_read(fault: ReadFault) -> Delay
    ensures { result ≡ delay_by (fault_of_read fault) }
{
    match fault {
        ReadFault::Disk => Delay::CallFailed,
        ReadFault::Memory => Delay::NoMemory,
    }
}

/// A new name is found so, unless memory was refused where a place might have been made for it: then
/// its files are closed.
fn found_new<D: Volume, E: Volume>(
    server: &mut Server<FolderStore<D>, FolderJournal<E>>,
    leaving: Leaving,
    name: &Name,
) -> Found
    requires fresh { session_kept server.old name.now ≡ None }
    ensures counts { KeepsCounts ⟦<FolderStore<D> as TakeStore>⟧ ⟦<FolderJournal<E> as Journal>⟧
        server.old server.new }
    ensures sessions { KeepsSessions (session_kept server.old) (session_kept server.new) }
    ensures committed { IsTrue (⟦<FolderJournal<E> as Journal>⟧.honest (server_journal server.old)) →
        KeepsCommitted (⟦<FolderJournal<E> as Journal>⟧.committed (server_journal server.old))
        (⟦<FolderJournal<E> as Journal>⟧.committed (server_journal server.new)) }
    ensures found { IsWhere ⟦<FolderStore<D> as TakeStore>⟧ ⟦<FolderJournal<E> as Journal>⟧
        name.now result server.new }
    ensures place { result ≡ Found.New → HasPlace ⟦<FolderStore<D> as TakeStore>⟧
        ⟦<FolderJournal<E> as Journal>⟧ true server.new ⊎ (leaving ≡ Leaving.NoneMay) }
    ensures books { FindsNewIn ⟦<FolderStore<D> as TakeStore>⟧ ⟦<FolderJournal<E> as Journal>⟧
        (DiskFails D.Disk E.Disk) (DisksDiffer D.Disk E.Disk) server.old server.new name.now result }
{
    match room_after(server, leaving) {
        Room::Free => Found::New,
        Room::Full => Found::New,
        Room::Refused => {
            close_files(server, name);
            Found::PutOff(Delay::NoMemory)
        }
    }
}

/// Puts a take that was recovered into the table, if there is a place.
fn put_in<D: Volume, E: Volume>(
    server: &mut Server<FolderStore<D>, FolderJournal<E>>,
    leaving: Leaving,
    name: &Name,
    take: KeptTake,
) -> Found
    requires named { take.name ≡ name.now }
    requires fresh { session_kept server.old name.now ≡ None }
    requires none { leaving ≡ Leaving.NoneMay → NoneMayLeave ⟦<FolderStore<D> as TakeStore>⟧
        ⟦<FolderJournal<E> as Journal>⟧ server.old }
    ensures counts { KeepsCounts ⟦<FolderStore<D> as TakeStore>⟧ ⟦<FolderJournal<E> as Journal>⟧
        server.old server.new }
    ensures found { IsWhere ⟦<FolderStore<D> as TakeStore>⟧ ⟦<FolderJournal<E> as Journal>⟧
        name.now result server.new }
    ensures other { result ≢ Found.New }
    ensures committed { IsTrue (⟦<FolderJournal<E> as Journal>⟧.honest (server_journal server.old)) →
        KeepsCommitted (⟦<FolderJournal<E> as Journal>⟧.committed (server_journal server.old))
        (⟦<FolderJournal<E> as Journal>⟧.committed (server_journal server.new)) }
    ensures books { PutsInBooks ⟦<FolderStore<D> as TakeStore>⟧ ⟦<FolderJournal<E> as Journal>⟧
        (DiskFails D.Disk E.Disk) (DisksDiffer D.Disk E.Disk) server.old server.new name.now take result }
{
    match room_after(server, leaving) {
        Room::Free => insert_take(server, name, take),
        Room::Full => {
            close_files(server, name);
            Found::PutOff(Delay::NoPlace)
        }
        Room::Refused => {
            close_files(server, name);
            Found::PutOff(Delay::NoMemory)
        }
    }
}

/// Puts a take that was recovered into a table with a place.
fn insert_take<D: Volume, E: Volume>(
    server: &mut Server<FolderStore<D>, FolderJournal<E>>,
    name: &Name,
    take: KeptTake,
) -> Found
    requires named { take.name ≡ name.now }
    requires fresh { session_kept server.old name.now ≡ None }
    requires place { names_kept server.old < most_takes }
    ensures counts { KeepsCounts ⟦<FolderStore<D> as TakeStore>⟧ ⟦<FolderJournal<E> as Journal>⟧
        server.old server.new }
    ensures found { IsWhere ⟦<FolderStore<D> as TakeStore>⟧ ⟦<FolderJournal<E> as Journal>⟧
        name.now result server.new }
    ensures other { result ≢ Found.New }
    ensures committed { IsTrue (⟦<FolderJournal<E> as Journal>⟧.honest (server_journal server.old)) →
        KeepsCommitted (⟦<FolderJournal<E> as Journal>⟧.committed (server_journal server.old))
        (⟦<FolderJournal<E> as Journal>⟧.committed (server_journal server.new)) }
    ensures books { PutsInBooks ⟦<FolderStore<D> as TakeStore>⟧ ⟦<FolderJournal<E> as Journal>⟧
        (DiskFails D.Disk E.Disk) (DisksDiffer D.Disk E.Disk) server.old server.new name.now take result }
{
    match server.insert(take) {
        Ok(()) => Found::Known,
        Err(_refused) => {
            close_files(server, name);
            Found::PutOff(Delay::NoMemory)
        }
    }
}

/// Closes the files of a name, unless it is in the table.
pub(crate) fn close_unknown<D: Volume, E: Volume>(
    server: &mut Server<FolderStore<D>, FolderJournal<E>>,
    name: &Name,
)
    ensures kept { KeepsFolderBooks ⟦<FolderStore<D> as TakeStore>⟧ ⟦<FolderJournal<E> as Journal>⟧
        server.old server.new }
    ensures sessions { KeepsSessions (session_kept server.old) (session_kept server.new) }
{
    if !server.is_known(name) {
        close_files(server, name);
    }
}
