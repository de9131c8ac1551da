//! A server's names and their folder: committing notes, recovering a name, and closing its files.
ghost use Rattle.std.specs.Prelude.{◌≡◌, None, Some, IfOk, List, Option, ℕ, IsTrue};
ghost use Rattle.bw_model.specs.Book.{Book};
ghost use Rattle.bw_session.specs.SeenServers.{session_kept, names_kept, server_store, server_journal};
ghost use Rattle.bw_journal.specs.Notes.{KeepsCommitted};
ghost use Rattle.bw_folder.specs.Commits.{IsAllCommitted};
ghost use Rattle.bw_kept.specs.FoundNames.{KeepsSessions, KeepsDisks, KeepsPendingNotes, RecoversBooks};
ghost use Rattle.bw_kept.specs.Recoveries.{IsKeptUnder};
ghost use Rattle.bw_kept.specs.KeptFolders.{HoldsKept};
ghost use Rattle.bw_kept.specs.KeptTurns.{KeepsCounts, OnlyCommits, DiskFails, DisksDiffer};
ghost use Rattle.bw_kept.specs.Visits.{CommitsJournals};

use crate::delay::Delay;
use crate::recovery::Recovered;
use crate::visiting::{Closing, Committing, Recovering};
use bw_disk::{ReadFault, Volume};
use bw_folder::{FolderJournal, FolderStore};
use bw_journal::Journal;
use bw_model::Name;
use bw_session::Server;
use bw_session::laws::law_outside;
use bw_store::TakeStore;
use std::alloc::Global;

/// Commits what is noted of all names.
///
/// # Errors
/// As `FolderJournal::commit` has them.
pub(crate) fn commit_notes<D: Volume, E: Volume>(
    server: &mut Server<FolderStore<D>, FolderJournal<E>>,
) -> Result<(), ReadFault>
    ensures only { OnlyCommits ⟦<FolderStore<D> as TakeStore>⟧ ⟦<FolderJournal<E> as Journal>⟧
        server.old server.new }
    ensures commits { CommitsJournals result (server_store server.old) (server_journal server.old)
        (server_store server.new) (server_journal server.new) }
{
    let mut visitor = Committing { result: Ok(()) };
    server.lend_stores(&mut visitor);
    visitor.result
}

/// Closes the files of a name that isn't in the table, if they are open, but for a journal of which notes
/// are pending. No disk is called.
pub(crate) fn close_files<D: Volume, E: Volume>(
    server: &mut Server<FolderStore<D>, FolderJournal<E>>,
    name: &Name,
)
    ensures counts { KeepsCounts ⟦<FolderStore<D> as TakeStore>⟧ ⟦<FolderJournal<E> as Journal>⟧
        server.old server.new }
    ensures disks { KeepsDisks server.old server.new }
    ensures pending { KeepsPendingNotes server.old server.new }
    ensures committed { IsTrue (⟦<FolderJournal<E> as Journal>⟧.honest (server_journal server.old)) →
        KeepsCommitted (⟦<FolderJournal<E> as Journal>⟧.committed (server_journal server.old))
        (⟦<FolderJournal<E> as Journal>⟧.committed (server_journal server.new)) }
    ensures sessions { KeepsSessions (session_kept server.old) (session_kept server.new) }
    ensures names { names_kept server.new ≡ names_kept server.old }
    ensures notes { (other : List ℕ) → ⟦<FolderJournal<E> as Journal>⟧.notes (server_journal server.new) other
        ≡ ⟦<FolderJournal<E> as Journal>⟧.notes (server_journal server.old) other }
    ensures books { IsTrue (⟦<FolderStore<D> as TakeStore>⟧.honest (server_store server.old)) →
        IsTrue (⟦<FolderJournal<E> as Journal>⟧.honest (server_journal server.old)) →
        (first : List ℕ → Option (List ℕ)) (book : Book) →
        HoldsKept ⟦<FolderStore<D> as TakeStore>⟧ ⟦<FolderJournal<E> as Journal>⟧ first server.old book →
        session_kept server.old name.now ≡ None →
        HoldsKept ⟦<FolderStore<D> as TakeStore>⟧ ⟦<FolderJournal<E> as Journal>⟧ first server.new book }
{
    law_outside::<FolderStore<D>, FolderJournal<E>>();
    // Its clause says that these are the bytes of a name.
    let _bytes = name.as_bytes();
    let mut visitor = Closing { name: name.copy() };
    server.lend_stores(&mut visitor);
}

/// Recovers a name that isn't in the table from its folder, when nothing is pending. A new name is put
/// off if the disks of store and journal don't show alike whether it has a file: what its journal would
/// say of that isn't known then.
///
/// # Errors
/// Why its frame is put off: a call of a disk failed, memory was refused, too many numbers are done, or
/// the disks differ.
///
/// # Not specified
/// When memory is refused.
pub(crate) fn recover_name<D: Volume, E: Volume>(
    alloc: Global,
    server: &mut Server<FolderStore<D>, FolderJournal<E>>,
    name: &Name,
) -> Result<Recovered, Delay>
    requires committed { IsAllCommitted (server_journal server.old) }
    ensures counts { KeepsCounts ⟦<FolderStore<D> as TakeStore>⟧ ⟦<FolderJournal<E> as Journal>⟧
        server.old server.new }
    ensures sessions { KeepsSessions (session_kept server.old) (session_kept server.new) }
    ensures names { names_kept server.new ≡ names_kept server.old }
    ensures named { IfOk result (IsKeptUnder name.now) }
    ensures recovered { RecoversBooks ⟦<FolderStore<D> as TakeStore>⟧ ⟦<FolderJournal<E> as Journal>⟧
        (DiskFails D.Disk E.Disk) (DisksDiffer D.Disk E.Disk) server.old server.new name.now result }
{
    law_outside::<FolderStore<D>, FolderJournal<E>>();
    // Its clause says that these are the bytes of a name.
    let _bytes = name.as_bytes();
    let mut visitor = Recovering {
        alloc,
        name: name.copy(),
        result: Err(Delay::NoMemory),
    };
    server.lend_stores(&mut visitor);
    let Recovering { result, .. } = visitor;
    result
}
