//! The opening of a kept server over a folder, under the folder's lock.
ghost use Rattle.std.specs.Prelude.{◌≡◌, false, Ok, IfOk, IfErr, MatchResult, Result};
ghost use Rattle.bw_disk.specs.DiskSteps.{StaysWhole};
ghost use Rattle.bw_kept.specs.KeptServers.{table_server, was_answered};
ghost use Rattle.bw_kept.specs.LeftFolders.{KnowsNone};
ghost use Rattle.bw_ports.specs.declared.folder_locks.LockRefusal.{LockRefusal as Refusal};
ghost use Rattle.bw_machine.specs.KeptOpenings.{CountsJournals, HasDisks, IsServerOver};
ghost use Rattle.bw_machine.specs.KeptOpenings.{IsRefusedUnder, refusal_by, refusal_by_fault};
ghost use Rattle.bw_machine.specs.OpensHere.{OpensOver};

use bw_disk::{ReadFault, Volume};
use bw_folder::{FolderJournal, FolderStore};
use bw_journal::Journal;
use bw_kept::KeptServer;
use bw_layout::Limit;
use bw_ports::{FolderLocks, LockRefusal, StartRefusal};
use bw_recovery::list_names;
use bw_serve::OpenedServer;
use bw_session::Server;
use bw_store::TakeStore;
use std::alloc::Global;

/// A kept server over a folder, whose takes are on one disk and whose journals on another.
pub(crate) type KeptOver<D, E> = KeptServer<FolderStore<D>, FolderJournal<E>>;

/// A server that was opened over a folder, and the folder's lock.
#[derive(Drop)]
pub(crate) struct Locked<S, K> {
    pub(crate) opened: OpenedServer<S>,
    pub(crate) lock: K,
}

/// Over which folder a server is opened, and how.
#[derive(Clone, Copy)]
pub(crate) struct KeptFolder<'a> {
    /// The folder, as it was given.
    pub(crate) folder: &'a str,
    /// How large a take may grow.
    pub(crate) limit: Limit,
    /// Whether what it keeps is synced.
    pub(crate) sync: bool,
}

/// Opens a kept server over a folder, once the folder is locked. No journal is read, and no file is
/// changed.
///
/// # Errors
/// The refusal, with both disks: the lock's, `Device` if a call of a disk failed, `Memory` if memory was
/// refused.
///
/// # Not specified
/// - When memory is refused, when a call of a disk fails, and when the folder can be locked.
/// - That the lock is held meanwhile.
pub(crate) fn open_locked<L: FolderLocks, D: Volume, E: Volume>(
    alloc: Global,
    locks: &mut L,
    takes: D,
    notes: E,
    opening: &KeptFolder<'_>,
) -> Result<Locked<KeptOver<D, E>, L::Lock>, (StartRefusal, D, E)>
    ensures { (answer : Result L.Lock Refusal) × L.locks locks.old opening.now.folder.now answer locks.new
        × MatchResult result
        (λ it. (answer ≡ Ok it.lock) × OpensOver opening.now.limit opening.now.folder.now opening.now.sync
        takes notes it.opened)
        (λ e. IsRefusedUnder answer e.0 × (e.1 ≡ takes) × StaysWhole E.Disk notes e.2) }
{
    let KeptFolder {
        folder,
        limit,
        sync,
    } = *opening;
    let lock = match locks.lock(folder) {
        Ok(lock) => lock,
        Err(refusal) => return Err((refusal_by_lock(refusal), takes, notes)),
    };
    match open_over(alloc, takes, notes, folder, limit, sync) {
        Ok(opened) => Ok(Locked { opened, lock }),
        Err((fault, takes, notes)) => Err((refusal_by_read(fault), takes, notes)),
    }
}

/// Opens a kept server over a folder.
///
/// # Errors
/// The fault, with both disks: `Disk` if a call of a disk failed, `Memory` if memory was refused.
fn open_over<D: Volume, E: Volume>(
    alloc: Global,
    takes: D,
    notes: E,
    folder: &str,
    limit: Limit,
    sync: bool,
) -> Result<OpenedServer<KeptOver<D, E>>, (ReadFault, D, E)>
    ensures opened { IfOk result (OpensOver limit folder.now sync takes notes) }
    ensures back { IfErr result (λ e. (e.1 ≡ takes) × StaysWhole E.Disk notes e.2) }
{
    let mut notes = notes;
    let count = match count_names(alloc, &mut notes, folder) {
        Ok(count) => count,
        Err(fault) => return Err((fault, takes, notes)),
    };
    match server_over(alloc, takes, notes, folder, limit, sync) {
        Ok(server) => Ok(OpenedServer {
            server,
            takes: Some(count),
        }),
        Err((takes, notes)) => Err((ReadFault::Memory, takes, notes)),
    }
}

/// Counts the names of a folder that have a journal.
///
/// # Errors
/// `Disk` if a call of the disk failed, `Memory` if memory was refused.
fn count_names<E: Volume>(alloc: Global, notes: &mut E, folder: &str) -> Result<u64, ReadFault>
    ensures notes { StaysWhole E.Disk notes.old notes.new }
    ensures counted { IfOk result (CountsJournals E.Disk folder.now notes.old) }
{
    let names = list_names(alloc, notes, folder)?;
    Ok(names.len() as u64)
}

/// A kept server over a folder of these disks that knows no name yet. No call of a disk is made.
///
/// # Errors
/// Both disks, if memory was refused.
fn server_over<D: Volume, E: Volume>(
    alloc: Global,
    takes: D,
    notes: E,
    folder: &str,
    limit: Limit,
    sync: bool,
) -> Result<KeptOver<D, E>, (D, E)>
    ensures over { IfOk result (λ k. IsServerOver limit folder.now sync (table_server k)) }
    ensures none { IfOk result (λ k. KnowsNone ⟦<FolderStore<D> as TakeStore>⟧
        ⟦<FolderJournal<E> as Journal>⟧ (table_server k)) }
    ensures disks { IfOk result (λ k. HasDisks takes notes (table_server k)) }
    ensures answered { IfOk result (λ k. was_answered k ≡ false) }
    ensures back { IfErr result (λ e. (e.0 ≡ takes) × (e.1 ≡ notes)) }
{
    let Ok(path) = String::from_str(alloc, folder) else {
        return Err((takes, notes));
    };
    let Ok(same) = String::from_str(alloc, folder) else {
        return Err((takes, notes));
    };
    // Its clause says how large it may be.
    let _most = limit.bytes();
    let store = FolderStore::in_folder(takes, alloc, path);
    let journal = FolderJournal::in_folder(notes, alloc, same, limit, sync);
    match Server::with_journal(alloc, store, journal, limit) {
        Ok(server) => kept_over(alloc, server),
        Err((_error, store, journal)) => Err((store.into_disk(), journal.into_disk())),
    }
}

/// A kept server whose table is that of this one.
///
/// # Errors
/// Both disks, if memory was refused.
fn kept_over<D: Volume, E: Volume>(
    alloc: Global,
    server: Server<FolderStore<D>, FolderJournal<E>>,
) -> Result<KeptOver<D, E>, (D, E)>
    ensures server { IfOk result (λ k. table_server k ≡ server) }
    ensures answered { IfOk result (λ k. was_answered k ≡ false) }
    ensures back { IfErr result (λ e. HasDisks e.0 e.1 server) }
{
    match KeptServer::new(alloc, server) {
        Ok(server) => Ok(server),
        Err((_error, server)) => {
            let (store, journal) = server.into_stores();
            Err((store.into_disk(), journal.into_disk()))
        }
    }
}

/// Why no server is opened whose folder isn't locked.
fn refusal_by_lock(refusal: LockRefusal) -> StartRefusal
    ensures { result ≡ refusal_by refusal }
{
    match refusal {
        LockRefusal::Running => StartRefusal::Running,
        LockRefusal::Unusable(error) => StartRefusal::Unusable(error),
        LockRefusal::Memory => StartRefusal::Memory,
    }
}

/// Why none is opened where a call of a disk failed, or memory was refused.
fn refusal_by_read(fault: ReadFault) -> StartRefusal
    ensures { result ≡ refusal_by_fault fault }
{
    match fault {
        ReadFault::Disk => StartRefusal::Device,
        ReadFault::Memory => StartRefusal::Memory,
    }
}
