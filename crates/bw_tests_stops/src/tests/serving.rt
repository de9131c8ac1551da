//! A kept server over a shared disk, and what it answers.
use crate::tests::shared::SharedDisk;
use arrayvec::ArrayVec;
use bw_disk::Volume;
use bw_exchange::Turns;
use bw_folder::{FolderJournal, FolderStore};
use bw_kept::KeptServer;
use bw_layout::Limit;
use bw_session::Server;
use bw_wire::{Frame, Notice, Reply, decode};
use std::alloc::Global;
use std::cell::RefCell;
use std::rc::Rc;
use std::test::Fail;

/// The folder.
pub(crate) const FOLDER: &str = "takes";

/// A kept server over shares of one disk.
pub(crate) type Kept<D> = KeptServer<FolderStore<SharedDisk<D>>, FolderJournal<SharedDisk<D>>>;

/// A server with an empty table.
pub(crate) fn server_over<D: Volume>(
    alloc: Global,
    shared: &Rc<RefCell<D>>,
    sync: bool,
) -> Result<Kept<D>, Fail> {
    let limit = Limit::new(8_192).ok_or("a limit")?;
    let takes = SharedDisk::new(shared.clone()?);
    let notes = SharedDisk::new(shared.clone()?);
    let store = FolderStore::over(takes, alloc, FOLDER)?;
    let journal = FolderJournal::over(notes, alloc, FOLDER, limit, sync)?;
    let Ok(server) = Server::with_journal(alloc, store, journal, limit) else {
        return Err("memory for a server")?;
    };
    let Ok(kept) = KeptServer::new(alloc, server) else {
        return Err("memory for its uses")?;
    };
    Ok(kept)
}

/// The replies to a message that leave: none if what was answered can't be committed.
pub(crate) fn replies_to<D: Volume>(
    server: &mut Kept<D>,
    body: &[u8],
) -> Result<ArrayVec<Reply, 17>, Fail> {
    let Ok(Frame::Message(message)) = decode(body) else {
        return Err("no message")?;
    };
    let mut replies = ArrayVec::new();
    server.turn(&message, &mut replies);
    if server.commit().is_err() {
        replies.clear();
    }
    Ok(replies)
}

/// How many numbers of a name are done; none if the ask is put off, or its reply doesn't leave.
pub(crate) fn done_by<D: Volume>(server: &mut Kept<D>, body: &[u8]) -> Result<Option<u32>, Fail> {
    let Ok(Frame::Ask(ask)) = decode(body) else {
        return Err("no ask")?;
    };
    let reply = server.ask(&ask);
    if server.commit().is_err() {
        return Ok(None);
    }
    match reply {
        Reply::Notice {
            name: _,
            number: _,
            code: Notice::Next,
            next,
        } => Ok(Some(next)),
        _ => Ok(None),
    }
}
