//! Kept servers over folders of this machine.
ghost use Rattle.std.specs.Prelude.{◌≡◌};
ghost use Rattle.bw_machine.specs.SeenMachine.{network_failures};
ghost use Rattle.bw_machine.specs.OpensHere.{OpensHere};
ghost use Rattle.bw_stream.specs.Moves.{failures_after};

use crate::folder_server::FolderServer;
use crate::locked::{KeptFolder, KeptOver, Locked, open_locked};
use crate::network::TcpNetwork;
use crate::reporting::ReportingServer;
use bw_disk::{SystemDisk, Volume};
use bw_layout::Limit;
use bw_net::{HostRecordings, NotedFiles, check_folder};
use bw_ports::StartRefusal;
use bw_serve::{OpenedServer, Opens};

/// A disk on which the folders of this machine are.
pub trait MachineDisk<'a>: Volume {
    /// The disk that has these files.
    ///
    /// # Not specified
    /// That it shows the folders of this machine: that is a premise.
    fn of_machine(files: NotedFiles<'a>) -> Self
        ensures unused { Self.calls result ≡ 0 };
}

impl<'a> MachineDisk<'a> for SystemDisk<NotedFiles<'a>> {
    fn of_machine(files: NotedFiles<'a>) -> SystemDisk<NotedFiles<'a>> {
        SystemDisk::new(files)
    }
}

/// A kept server over a folder of such disks.
type ServerOver<D> = KeptOver<D, D>;

impl<'a> Opens for TcpNetwork<'a> {
    ghost use Rattle.bw_machine.specs.SeenMachine.{network_failures};
    ghost use Rattle.bw_machine.specs.OpensHere.{OpensHere, opened_part, opened_in};

    type Server = FolderServer<'a>;

    ghost failures = { network_failures };

    ghost opens = { λ n folder limit sync result n'.
        OpensHere n folder limit sync (opened_in (opened_part (λ s. s.server) result)) n' };

    fn open(
        &mut self,
        folder: &str,
        limit: Limit,
        sync: bool,
    ) -> Result<OpenedServer<FolderServer<'a>>, StartRefusal> {
        match open_kept(self, folder, limit, sync) {
            Ok(OpenedServer { server, takes }) => Ok(OpenedServer {
                server: FolderServer {
                    server: ReportingServer::new(server, self.files()),
                },
                takes,
            }),
            Err(refusal) => Err(refusal),
        }
    }
}

/// Opens a kept server over a folder of this machine, which stays locked from then on. No journal is
/// read, and no file but the lock's is changed. [`TcpNetwork`] opens so over the program's own disk.
///
/// No clause says what a `SystemDisk` holds, so this opens over any disk of this machine: what is proved
/// of it speaks of what the disks hold.
///
/// # Errors
/// The refusal. It is counted as a failure.
///
/// # Not specified
/// - When the folder can be used and locked, when a call of a disk fails, and when memory is refused.
/// - That the lock that is kept is the folder's.
pub fn open_kept<'a, D: MachineDisk<'a>>(
    network: &mut TcpNetwork<'a>,
    folder: &str,
    limit: Limit,
    sync: bool,
) -> Result<OpenedServer<ServerOver<D>>, StartRefusal>
    ensures here { OpensHere network.old folder.now limit sync result network.new }
    ensures count { network_failures network.new
        ≡ failures_after result (network_failures network.old) }
{
    let alloc = network.rt.alloc();
    if let Err(error) = check_folder(network.rt, alloc, folder) {
        network.failures = network.failures.saturating_add(1);
        return Err(StartRefusal::Unusable(error));
    }
    let mut locks = HostRecordings::new(network.rt, network.spool);
    let files = network.files();
    let (takes, notes) = (D::of_machine(files), D::of_machine(files));
    let opening = KeptFolder {
        folder,
        limit,
        sync,
    };
    match open_locked(alloc, &mut locks, takes, notes, &opening) {
        Ok(Locked { opened, lock }) => {
            network.lock = Some(lock);
            Ok(opened)
        }
        Err((refusal, _takes, _notes)) => {
            network.failures = network.failures.saturating_add(1);
            Err(refusal)
        }
    }
}
