//! What the program does with what it works over.
ghost use Rattle.bw_console.specs.declared.exit.Exit.{Exit};
ghost use Rattle.bw_program.specs.Requests.{ProgramRequest};

use crate::outside::{Environment, Outside};
use bw_journal::{Journal, NoJournal};
use bw_live::Marking;
use bw_ports::RecordingFiles;
use bw_send_file::{MarkedFeed, PcmFeed, PlanFeed};
use bw_upload::Feed;

/// What is done for a request.
pub trait Behavior {
    /// After a call for this request the program may end so, from the first state to the second.
    ghost does: { ProgramRequest → Exit → Self → Self → Type 0 };
}

impl<X: Environment> Behavior for Outside<X> {
    ghost use Rattle.bw_send_file.specs.FileLooks.{LooksAt};
    ghost use Rattle.bw_serve_status.specs.Shown.{status_side};
    ghost use Rattle.bw_program.specs.Programs.{DoesRequest};
    ghost use Rattle.bw_program.specs.Sides.{host_side, kept_side, receipt_side, sender_side, server_side};
    ghost use Rattle.bw_program.specs.Sides.{spool_side, state_side, turns_side, upload_side, program_world};

    // Each text goes to its stream, and commands without the network leave it alone.
    ghost does = { λ request exit x x'. DoesRequest
        (host_side X.System.System X.Files.RecordingFiles X.Files.File.Source
        (state_side X.Files.kept_at X.Files.States.StateFiles X.Files.States.Log.StateLog)
        (spool_side X.Files.lends X.Files.Keeper.SpoolKeeper X.Files.points_at)
        (receipt_side X.Files.noted_at X.Files.Receipts.ReceiptFiles) X.Files.EditedFiles X.Files.FolderLocks
        X.Files.FileKinds X.Disk.Disk X.Input.Source X.Output.Sink X.Diagnostics.Sink)
        (server_side X.Network.Store.TakeStore ⟦<NoJournal as Journal>⟧ X.Network.Peers.Peers
        X.Network.Peers.Reader.Source X.Network.Peers.Writer.Sink X.Network.Reactor.Reactor
        X.Network.Reactor.Link.Link X.Network.ServeRules
        (status_side X.Network.StatusSetup X.Network.Port.StatusPort X.Network.Port.Link.Link))
        (sender_side X.Network.Dial.Dial X.Network.Dial.Reader.Source X.Network.Dial.Writer.Sink)
        (upload_side
        ⟦<PlanFeed<<X::Files as RecordingFiles>::File, <X::Files as RecordingFiles>::Stamped> as Feed>⟧
        (LooksAt X.Files.Stamped.Stamped)
        ⟦<MarkedFeed<PcmFeed<<X::Files as RecordingFiles>::Growing>, <X::Files as Marking>::Marker> as Feed>⟧
        X.Pause.Pause)
        X.Network.Network X.Network.ListenerSetup (kept_side X.Network.Opens.opens X.Network.Opens.failures
        (turns_side X.Network.Server.Turns.answers X.Network.Server.Turns.committed
        X.Network.Server.Turns.commits X.Network.Server.HasTable.holds))
        request exit
        (program_world x.system x.files x.disk x.network x.pause x.input x.out x.faults x.screens x.is_typed
        x.started)
        (program_world x'.system x'.files x'.disk x'.network x'.pause x'.input x'.out x'.faults x'.screens
        x'.is_typed x'.started) };
}
