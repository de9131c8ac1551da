//! The kept server of the program.
ghost use Rattle.std.specs.Prelude.{◌≡◌, [], ◌∷◌, map};
ghost use Rattle.std.specs.List.{All};
ghost use Rattle.bw_model.specs.Wire.{Says, Asks};
ghost use Rattle.bw_wire.specs.Frames.{message_of, asked_name, asked_number};
ghost use Rattle.bw_wire.specs.Replies.{reply_of, HasWireNumbers};
ghost use Rattle.bw_machine.specs.OpensHere.{KeepsAnswers};

use crate::locked::KeptOver;
use crate::reporting::ReportingServer;
use arrayvec::ArrayVec;
use bw_disk::{SystemDisk, Volume};
use bw_exchange::{NotKept, Turns};
use bw_folder::{FolderJournal, FolderStore};
use bw_model::Name;
use bw_net::NotedFiles;
use bw_session::{HasTable, Server};
use bw_wire::{Ask, Message, Reply};
use std::net::SocketAddr;

/// The disk of this machine.
type HostDisk<'a> = SystemDisk<NotedFiles<'a>>;

/// A server over a folder of this machine that says which names it leaves out.
type ReportingHere<'a> = ReportingServer<'a, KeptOver<HostDisk<'a>, HostDisk<'a>>>;

/// A kept server over a folder of this machine, which says which names it leaves out. It has no type
/// parameter, and calls functions over any disks: the prover refuses the program's `main` otherwise.
#[derive(Drop)]
pub struct FolderServer<'a> {
    pub(crate) server: ReportingHere<'a>,
}

impl<'a> HasTable for FolderServer<'a> {
    type Store = FolderStore<HostDisk<'a>>;

    type Journal = FolderJournal<HostDisk<'a>>;

    ghost holds = { λ s first book. ⟦<ReportingHere<'a> as HasTable>⟧.holds s.server first book };

    fn table(&self) -> &Server<FolderStore<HostDisk<'a>>, FolderJournal<HostDisk<'a>>> {
        self.server.table()
    }
}

impl<'a> Turns for FolderServer<'a> {
    ghost answers = { λ s frame replies s'.
        ⟦<ReportingHere<'a> as Turns>⟧.answers s.server frame replies s'.server };

    ghost committed = { λ s. ⟦<ReportingHere<'a> as Turns>⟧.committed s.server };

    ghost commits = { λ s result s'. ⟦<ReportingHere<'a> as Turns>⟧.commits s.server result s'.server };

    fn turn(&mut self, message: &Message<'_>, replies: &mut ArrayVec<Reply, 17>) {
        turn_over(&mut self.server, message, replies);
    }

    fn ask(&mut self, ask: &Ask<'_>) -> Reply {
        ask_over(&mut self.server, ask)
    }

    fn commit(&mut self) -> Result<(), NotKept> {
        commit_over(&mut self.server)
    }

    fn note_refused(&mut self, peer: SocketAddr, name: &Name) {
        note_refused_over(&mut self.server, peer, name);
    }
}

/// Has a server over any disks answer a message.
fn turn_over<'a, D: Volume, E: Volume>(
    server: &mut ReportingServer<'a, KeptOver<D, E>>,
    message: &Message<'_>,
    replies: &mut ArrayVec<Reply, 17>,
)
    ensures answered { ⟦<ReportingServer<'a, KeptOver<D, E>> as Turns>⟧.answers server.old
        (Says (message_of message.now)) (map reply_of replies.new.items) server.new }
    ensures numbers { All HasWireNumbers replies.new.items }
{
    server.turn(message, replies);
}

/// Has a server over any disks answer an ask.
fn ask_over<'a, D: Volume, E: Volume>(
    server: &mut ReportingServer<'a, KeptOver<D, E>>,
    ask: &Ask<'_>,
) -> Reply
    ensures answered { ⟦<ReportingServer<'a, KeptOver<D, E>> as Turns>⟧.answers server.old
        (Asks (asked_name ask.now) (asked_number ask.now)) (reply_of result ∷ []) server.new }
    ensures numbers { HasWireNumbers result }
{
    server.ask(ask)
}

/// Has a server over any disks commit what it answered.
///
/// # Errors
/// As of `Turns::commit`.
fn commit_over<'a, D: Volume, E: Volume>(
    server: &mut ReportingServer<'a, KeptOver<D, E>>,
) -> Result<(), NotKept>
    ensures commits { ⟦<ReportingServer<'a, KeptOver<D, E>> as Turns>⟧.commits server.old result server.new }
    ensures committed { ⟦<ReportingServer<'a, KeptOver<D, E>> as Turns>⟧.committed server.new }
    ensures idle { ⟦<ReportingServer<'a, KeptOver<D, E>> as Turns>⟧.committed server.old →
        server.new ≡ server.old }
    ensures answered { KeepsAnswers ⟦<ReportingServer<'a, KeptOver<D, E>> as Turns>⟧.answers
        server.old server.new }
{
    server.commit()
}

/// Has a server over any disks note that a peer's message was turned away.
fn note_refused_over<'a, D: Volume, E: Volume>(
    server: &mut ReportingServer<'a, KeptOver<D, E>>,
    peer: SocketAddr,
    name: &Name,
)
    ensures { server.new ≡ server.old }
{
    server.note_refused(peer, name);
}
