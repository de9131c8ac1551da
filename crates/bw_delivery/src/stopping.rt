//! Whether a machine's server goes on after a turn, and what one leaves that stops.
ghost use Rattle.std.specs.Prelude.{◌≡◌, ◌≤◌, ◌<◌, ◌⊎◌, ℕ, List, Ok, IsTrue, IsFalse, IfOk};
ghost use Rattle.bw_delivery.specs.Machines.{the_folder};
ghost use Rattle.bw_folder.specs.TakeFolders.{takes_disk, takes_folder};
ghost use Rattle.bw_folder.specs.JournalFolders.{journals_disk, journals_folder};
ghost use Rattle.bw_folder.specs.JournalFolders.{committed_in, noted_in_folder, journal_on_disk};
ghost use Rattle.bw_folder.specs.PendingNotes.{IsOnDisk};
ghost use Rattle.bw_session.specs.SeenServers.{server_store, server_journal};
ghost use Rattle.bw_kept.specs.KeptServers.{table_server};

use crate::machine::{FOLDER, Folder, MachineServer};
use bw_exchange::NotKept;
use std::alloc::AllocError;

/// Whether a server goes on after a commit that returned this: it kept all, and no disk has died.
pub(crate) fn goes_on(server: &MachineServer, kept: Result<(), NotKept>) -> bool
    ensures kept { IsTrue result → kept ≡ Ok tt }
    ensures takes { IsTrue result → (takes_disk (server_store (table_server server.now))).calls
        ≤ (takes_disk (server_store (table_server server.now))).life }
    ensures notes { IsTrue result → (journals_disk (server_journal (table_server server.now))).calls
        ≤ (journals_disk (server_journal (table_server server.now))).life }
{
    match kept {
        Ok(()) => !has_died(server),
        Err(_not_kept) => false,
    }
}

/// Whether a disk of a server has died.
fn has_died(server: &MachineServer) -> bool
    ensures takes { IsFalse result → (takes_disk (server_store (table_server server.now))).calls
        ≤ (takes_disk (server_store (table_server server.now))).life }
    ensures notes { IsFalse result → (journals_disk (server_journal (table_server server.now))).calls
        ≤ (journals_disk (server_journal (table_server server.now))).life }
    ensures died { IsTrue result →
        ((takes_disk (server_store (table_server server.now))).life
        < (takes_disk (server_store (table_server server.now))).calls)
        ⊎ ((journals_disk (server_journal (table_server server.now))).life
        < (journals_disk (server_journal (table_server server.now))).calls) }
{
    let server = server.server();
    if server.store().disk().is_dead() {
        return true;
    }
    server.journal().disk().is_dead()
}

/// What the disks of a server have.
///
/// # Errors
/// `AllocError` if its folder isn't the one that it started over.
pub(crate) fn take_apart(server: MachineServer) -> Result<Folder, AllocError>
    ensures takes { IfOk result (λ folder. folder.takes
        ≡ (takes_disk (server_store (table_server server))).inner) }
    ensures notes { IfOk result (λ folder. folder.notes
        ≡ (journals_disk (server_journal (table_server server))).inner) }
    ensures store { IfOk result (λ folder.
        takes_folder (server_store (table_server server)) ≡ the_folder) }
    ensures journal { IfOk result (λ folder.
        journals_folder (server_journal (table_server server)) ≡ the_folder) }
    // What a disk has of the notes is what a stop leaves of them.
    ensures on_disk { IfOk result (λ folder. (name : List ℕ) → IsOnDisk
        (committed_in (server_journal (table_server server)) name)
        (noted_in_folder (server_journal (table_server server)) name)
        (journal_on_disk (server_journal (table_server server)) name)) }
{
    let (store, journal) = server.into_server().into_stores();
    // Called for its clause on what its files have.
    journal.law_on_disk();
    if store.folder() != FOLDER {
        return Err(AllocError);
    }
    if journal.folder() != FOLDER {
        return Err(AllocError);
    }
    Ok(Folder {
        takes: store.into_disk().into_inner(),
        notes: journal.into_disk().into_inner(),
    })
}
