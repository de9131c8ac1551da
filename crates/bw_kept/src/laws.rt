//! Laws of servers whose table is a cache of their folder. Each function's contract is one; nothing
//! runs.
ghost use Rattle.bw_kept.specs.KeptTurns.{DiskFails, DisksDiffer};
ghost use Rattle.bw_kept.specs.LeftFolders.{CommittedBooksAreCovered, EmptyServersHold};
ghost use Rattle.bw_kept.specs.LeftFolders.{KeptServersLeaveDone, LeftBooksLieThere};
ghost use Rattle.bw_kept.specs.OwnRuns.{NamesRunAlone};
ghost use Rattle.bw_kept.specs.RunLeavings.{RunsLeaveFiles};
ghost use Rattle.bw_kept.specs.Runs.{RunsKeepOn};

use bw_disk::Volume;
use bw_folder::{FolderJournal, FolderStore};
use bw_journal::Journal;
use bw_store::TakeStore;

/// A server that knows no name yet holds each book that lies in its folder.
pub fn law_begins<S: TakeStore, J: Journal>()
    ensures held { EmptyServersHold S.TakeStore J.Journal }
    // What a stopped server left by the words of a start lies there.
    ensures left { LeftBooksLieThere }
    // Where all notes are committed, so is the entry of each done number.
    ensures covered { CommittedBooksAreCovered S.TakeStore J.Journal }
{}

/// Wherever a server is stopped, whichever calls failed, and whatever its disk has of the notes that aren't
/// committed: its folder has what a stop leaves of each name, from a book of which the first numbers are
/// done, among them each whose entry is committed, or also the number that waited. Dropping a name from
/// the table leaves the same.
pub fn law_stops<S: TakeStore, J: Journal>()
    ensures { KeptServersLeaveDone S.TakeStore J.Journal }
{}

/// Whatever frames come, over honest disks: each is served by the definitions' turn on the folder's
/// book, or put off, which leaves it; the server, with what lies outside its table, holds the last
/// book.
pub fn law_keeps_on<D: Volume, E: Volume>()
    ensures { RunsKeepOn ⟦<FolderStore<D> as TakeStore>⟧ ⟦<FolderJournal<E> as Journal>⟧
        (DiskFails D.Disk E.Disk) (DisksDiffer D.Disk E.Disk) }
{}

/// After any frames each take that is closed has its file, or what was there first, in the table or not,
/// and so has each name of the table of which nothing waits.
pub fn law_leaves_files<D: Volume, E: Volume>()
    ensures { RunsLeaveFiles ⟦<FolderStore<D> as TakeStore>⟧ ⟦<FolderJournal<E> as Journal>⟧
        (DiskFails D.Disk E.Disk) (DisksDiffer D.Disk E.Disk) }
{}

/// One name's frames, but for those put off or turned away for lack of room, are a run of the
/// definitions on the book of this name alone, as if no name had ever left a table: with the same
/// replies, so that a repeat gets its first verdict, and with the same log.
#[tactic(auto, using(crate::proofs::OwnRuns::names_run_alone))]
pub fn law_names_alone()
    // By `law_turns` of `bw_model` such a repeat gets its first verdict.
    ensures { NamesRunAlone }
{}
