//! Making room in a server's table.
ghost use Rattle.std.specs.Prelude.{◌≡◌, ◌<◌, ◌||◌, false, true, None, IfSome, length, position};
ghost use Rattle.std.specs.List.{All};
ghost use Rattle.bw_model.specs.Turn.{most_takes};
ghost use Rattle.bw_folder.specs.Commits.{IsAllCommitted};
ghost use Rattle.bw_session.specs.SeenServers.{session_kept, names_kept, server_journal};
ghost use Rattle.bw_session.specs.TableChanges.{forgettable_kept};
ghost use Rattle.bw_kept.specs.FoundNames.{OnlyForgets, has_left, is_declined};
ghost use Rattle.bw_kept.specs.KeptTurns.{NoneMayLeave, HasPlace};
ghost use Rattle.bw_kept.specs.UseOrder.{FirstHasLeft};

use crate::recovering::close_files;
use bw_disk::Volume;
use bw_folder::{FolderJournal, FolderStore};
use bw_journal::Journal;
use bw_model::Name;
use bw_session::Server;
use bw_store::TakeStore;
use std::alloc::Global;

/// What came of having one of several names leave the table.
#[derive(Clone, Copy, Debug, PartialEq, Eq)]
pub(crate) enum Leaving {
    /// One did.
    Left,
    /// None of them may.
    NoneMay,
    /// One may, and memory was refused.
    Refused,
}

/// What came of making room.
#[derive(Clone, Copy, Debug, PartialEq, Eq)]
pub(crate) enum Room {
    /// There is a place.
    Free,
    /// There is none, and none of the names may leave the table.
    Full,
    /// There is none, and memory was refused.
    Refused,
}

/// Has a name leave the table, if it may, when nothing is pending. Its files are closed, and no disk is
/// called.
fn drop_name<D: Volume, E: Volume>(
    server: &mut Server<FolderStore<D>, FolderJournal<E>>,
    name: &Name,
) -> Leaving
    requires committed { IsAllCommitted (server_journal server.old) }
    ensures forgets { OnlyForgets result server.old server.new }
    ensures unable { result ≡ Leaving.NoneMay → forgettable_kept server.old name.now ≡ false }
    ensures gone { result ≡ Leaving.Left → session_kept server.new name.now ≡ None }
{
    match server.forget(name) {
        Ok(true) => {
            close_files(server, name);
            Leaving::Left
        }
        Ok(false) => Leaving::NoneMay,
        Err(_refused) => Leaving::Refused,
    }
}

/// Has the first of these names that may leave the table leave it. No other is tried.
pub(crate) fn drop_oldest<D: Volume, E: Volume>(
    server: &mut Server<FolderStore<D>, FolderJournal<E>>,
    names: &[Name],
) -> Leaving
    requires committed { IsAllCommitted (server_journal server.old) }
    ensures forgets { OnlyForgets result server.old server.new }
    ensures first { result ≡ Leaving.Left →
        FirstHasLeft (forgettable_kept server.old) names.now (session_kept server.new) }
{
    match first_that_may(server, names) {
        Some(place) => drop_name(server, &names[place]),
        None => Leaving::NoneMay,
    }
}

/// The place of the first of these names that may leave the table.
fn first_that_may<D: Volume, E: Volume>(
    server: &Server<FolderStore<D>, FolderJournal<E>>,
    names: &[Name],
) -> Option<usize>
    ensures place { result ≡ position (forgettable_kept server.now) names.now }
    ensures within { IfSome result (λ place. place < length names.now) }
{
    names.iter().position(|name| server.may_forget(name))
}

/// Has the first of these names that can leave the table leave it.
fn drop_first<D: Volume, E: Volume>(
    server: &mut Server<FolderStore<D>, FolderJournal<E>>,
    names: &[Name],
) -> Leaving
    requires committed { IsAllCommitted (server_journal server.old) }
    ensures forgets { OnlyForgets result server.old server.new }
    ensures unable { result ≡ Leaving.NoneMay →
        All (λ name. forgettable_kept server.old name ≡ false) names.now }
{
    let mut refused = false;
    for name in names {
        let leaving = drop_name(server, name);
        if has_gone(leaving) {
            return leaving;
        }
        refused = is_refused(refused, leaving);
    }
    if refused {
        Leaving::Refused
    } else {
        Leaving::NoneMay
    }
}

/// Whether a name left the table.
fn has_gone(leaving: Leaving) -> bool
    ensures { result ≡ has_left leaving }
{
    matches!(leaving, Leaving::Left)
}

/// Whether a name that may leave the table can't: this one, or one before.
fn is_refused(before: bool, leaving: Leaving) -> bool
    ensures { result ≡ before || is_declined leaving }
{
    before || matches!(leaving, Leaving::Refused)
}

/// Has any name of the table that can leave it do so.
pub(crate) fn drop_any<D: Volume, E: Volume>(
    alloc: Global,
    server: &mut Server<FolderStore<D>, FolderJournal<E>>,
) -> Leaving
    requires committed { IsAllCommitted (server_journal server.old) }
    ensures forgets { OnlyForgets result server.old server.new }
    ensures none { result ≡ Leaving.NoneMay → NoneMayLeave ⟦<FolderStore<D> as TakeStore>⟧
        ⟦<FolderJournal<E> as Journal>⟧ server.new }
{
    match server.known_names(alloc) {
        Ok(names) => drop_first(server, &names),
        Err(_refused) => Leaving::Refused,
    }
}

/// What room there is after names were to leave.
pub(crate) fn room_after<D: Volume, E: Volume>(
    server: &Server<FolderStore<D>, FolderJournal<E>>,
    leaving: Leaving,
) -> Room
    ensures free { result ≡ Room.Free → names_kept server.now < most_takes }
    ensures place { result ≡ Room.Free → HasPlace ⟦<FolderStore<D> as TakeStore>⟧
        ⟦<FolderJournal<E> as Journal>⟧ true server.now }
    ensures none { result ≡ Room.Full → leaving ≡ Leaving.NoneMay }
    ensures full { result ≡ Room.Full → HasPlace ⟦<FolderStore<D> as TakeStore>⟧
        ⟦<FolderJournal<E> as Journal>⟧ false server.now }
{
    let full = server.is_full();
    match leaving {
        Leaving::NoneMay => { if full { Room::Full } else { Room::Free } }
        Leaving::Left => { if full { Room::Refused } else { Room::Free } }
        Leaving::Refused => { if full { Room::Refused } else { Room::Free } }
    }
}
