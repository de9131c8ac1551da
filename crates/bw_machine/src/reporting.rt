//! A server that says which names it leaves out.
ghost use Rattle.std.specs.Prelude.{◌≡◌, List};
ghost use Rattle.std.specs.List.{list_any};
ghost use Rattle.bw_kept.specs.KeptServers.{table_server};
ghost use Rattle.bw_model.specs.Wire.{Frame};
ghost use Rattle.bw_model.specs.Replies.{Reply as ModelReply};
ghost use Rattle.bw_wire.specs.Replies.{reply_of};
ghost use Rattle.bw_machine.specs.OpensHere.{server_in};
ghost use Rattle.bw_machine.specs.PutOffs.{puts_off};

use crate::take_events::{note_turn, stage_to_note};
use arrayvec::ArrayVec;
use bw_disk::Volume;
use bw_exchange::{NotKept, Turns};
use bw_folder::{FolderJournal, FolderStore};
use bw_kept::KeptServer;
use bw_model::Name;
use bw_net::NotedFiles;
use bw_operators::peer_refused_line;
use bw_recovery::{NameFault, cause_of};
use bw_session::{HasTable, Server};
use bw_wire::{Ask, Message, Notice, Reply};
use std::alloc::AllocError;
use std::net::SocketAddr;

/// After how many names that were left out the rest waits for the next frame.
const NAMES_A_FRAME: usize = 8;

/// A server that leaves out names with which something is wrong.
pub trait LeavesOut: Turns {
    /// The next name that was left out and isn't reported yet, with what is wrong with it. What the
    /// server has answered and committed is as it was.
    ///
    /// # Not specified
    /// Which name it is.
    fn take_left_out(&mut self) -> Option<(Name, NameFault)>
        ensures answered { (before : Self) (frame : Frame) (replies : List ModelReply) →
            Self.Turns.answers before frame replies self.old →
            Self.Turns.answers before frame replies self.new }
        ensures committed { Self.Turns.committed self.old → Self.Turns.committed self.new };

    /// The name of which a sync failed, if one has.
    ///
    /// # Not specified
    /// Anything beyond what each implementation says of itself.
    fn failed_sync(&self) -> Option<Name>;

    /// The folder of its names.
    ///
    /// # Not specified
    /// Anything beyond what each implementation says of itself.
    fn folder(&self) -> &str;
}

impl<D: Volume, E: Volume> LeavesOut for KeptServer<FolderStore<D>, FolderJournal<E>> {
    fn take_left_out(&mut self) -> Option<(Name, NameFault)> {
        KeptServer::take_left_out(self)
    }

    fn failed_sync(&self) -> Option<Name> {
        KeptServer::failed_sync(self)
    }

    fn folder(&self) -> &str {
        self.server().store().folder()
    }
}

/// A server that answers as the one in it. When something is found to be wrong with a name, that is a
/// line on standard error, `DIR/NAME.journal: CAUSE, left out`, and operators see it until a frame of the
/// name isn't put off. Another line names the take of which a sync failed. With a log each take that is
/// opened or closed is a line, and each message that is refused, or turned away before it came here.
///
/// # Not specified
/// What is said, and when.
#[derive(Drop)]
pub struct ReportingServer<'a, T> {
    server: T,
    files: NotedFiles<'a>,
}

impl<'a, T> ReportingServer<'a, T> {
    /// This server, and the files that say why names are left out.
    pub(crate) fn new(server: T, files: NotedFiles<'a>) -> ReportingServer<'a, T>
        ensures { server_in result ≡ server }
    {
        ReportingServer { server, files }
    }
}

impl<T: LeavesOut> ReportingServer<'_, T> {
    /// Reports names that were left out since the last call.
    fn report(&mut self)
        ensures answered { (before : T) (frame : Frame) (replies : List ModelReply) →
            T.Turns.answers before frame replies (server_in self.old) →
            T.Turns.answers before frame replies (server_in self.new) }
        ensures committed { T.Turns.committed (server_in self.old) → T.Turns.committed (server_in self.new) }
    {
        for _name in 0..NAMES_A_FRAME {
            let Some((name, fault)) = self.server.take_left_out() else {
                return;
            };
            // What can't be said for lack of memory is no reason to stop.
            let _ = note_name(self.files, self.server.folder(), &name, &fault);
        }
    }

    /// Reports of which name a sync failed.
    fn report_sync(&self) {
        if let Some(name) = self.server.failed_sync() {
            let _ = note_sync(self.files, self.server.folder(), &name);
        }
    }
}

/// Says that a name is served.
fn note_served(files: NotedFiles<'_>, name: &Name) {
    if let Ok(name) = std::str::from_utf8(name.as_bytes()) {
        files.note_served(name);
    }
}

/// Says that a peer's message of a name was turned away, once for many in a row.
fn note_turned_away(files: NotedFiles<'_>, peer: SocketAddr, name: &Name) {
    if !files.logs() {
        return;
    }
    if let Ok(text) = std::str::from_utf8(name.as_bytes()) {
        if files.note_refused(peer, text) {
            files.note_event(peer_refused_line(files.alloc(), peer, text));
        }
    }
}

/// Whether one of these replies puts its frame off.
fn are_put_off(replies: &[Reply]) -> bool
    ensures { result ≡ list_any (λ r. puts_off (reply_of r)) replies.now }
{
    replies.iter().any(|reply| puts_off(reply))
}

/// Whether a reply puts its frame off: nothing is done of its name, and nothing can be now.
fn puts_off(reply: &Reply) -> bool
    ensures { result ≡ puts_off (reply_of reply.now) }
{
    match reply {
        Reply::Verdict { .. } => false,
        Reply::Notice { code, next, .. } => *code == Notice::DelayedStore && *next == 0,
        Reply::BadFrame { .. } => false,
    }
}

/// Says why a name of a folder is left out.
///
/// # Errors
/// `AllocError` if memory was refused.
fn note_name(
    files: NotedFiles<'_>,
    folder: &str,
    name: &Name,
    fault: &NameFault,
) -> Result<(), AllocError> {
    let alloc = files.alloc();
    let cause = cause_of(alloc, fault)?;
    if let Ok(name) = std::str::from_utf8(name.as_bytes()) {
        files.note_left_out(folder, name, cause.as_str());
    }
    Ok(())
}

/// Says of which name of a folder a sync failed.
///
/// # Errors
/// `AllocError` if memory was refused.
fn note_sync(files: NotedFiles<'_>, folder: &str, name: &Name) -> Result<(), AllocError> {
    if let Ok(name) = std::str::from_utf8(name.as_bytes()) {
        let path = format!(in files.alloc(); "{folder}/{name}.wav")?;
        files.note_failed_sync(path.as_str());
    }
    Ok(())
}

impl<T: HasTable> HasTable for ReportingServer<'_, T> {
    ghost use Rattle.bw_machine.specs.OpensHere.{server_in};

    type Store = T::Store;

    type Journal = T::Journal;

    ghost holds = { λ s first book. T.holds (server_in s) first book };

    fn table(&self) -> &Server<T::Store, T::Journal> {
        self.server.table()
    }
}

impl<T: LeavesOut + HasTable> Turns for ReportingServer<'_, T> {
    ghost use Rattle.bw_machine.specs.OpensHere.{server_in};

    ghost answers = { λ s frame replies s'. T.Turns.answers (server_in s) frame replies (server_in s') };

    ghost committed = { λ s. T.Turns.committed (server_in s) };

    ghost commits = { λ s result s'. T.Turns.commits (server_in s) result (server_in s') };

    fn turn(&mut self, message: &Message<'_>, replies: &mut ArrayVec<Reply, 17>) {
        let before = stage_to_note(self.files, &self.server, &message.name());
        self.server.turn(message, replies);
        if let Some(before) = before {
            note_turn(
                self.files,
                &self.server,
                message,
                before,
                replies.as_slice(),
            );
        }
        if !are_put_off(replies.as_slice()) {
            note_served(self.files, &message.name());
        }
        self.report();
    }

    fn ask(&mut self, ask: &Ask<'_>) -> Reply {
        let reply = self.server.ask(ask);
        if !puts_off(&reply) {
            note_served(self.files, &ask.name());
        }
        self.report();
        reply
    }

    fn commit(&mut self) -> Result<(), NotKept> {
        let kept = self.server.commit();
        if let Err(NotKept::SyncFault) = kept {
            self.report_sync();
        }
        kept
    }

    fn note_refused(&mut self, peer: SocketAddr, name: &Name) {
        note_turned_away(self.files, peer, name);
    }
}
