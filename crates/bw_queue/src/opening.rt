//! The recordings that are to be sent, or the line that says why there are none.
ghost use Rattle.bw_queue.specs.QueueOpenings.{OpensQueue, PassesKind, ReportsQueueFault, opening_world};
ghost use Rattle.bw_queue.specs.Queues.{given_path};

use crate::fault::QueueFault;
use crate::planning::plan_queue;
use crate::request::{Queue, QueueRequest};
use bw_console::print::{give_up, print_diagnostic};
use bw_console::{Exit, Fault};
use bw_disk::Volume;
use bw_ports::{FileKinds, refuse_kind};
use bw_stream::Sink;
use std::alloc::Global;

/// The recordings that a sender is asked for, each with its name, and the receipts that are there already.
/// A pipe or a device in the place of the file of names, or of that of receipts, is refused, as their
/// length says nothing of what comes.
///
/// # Errors
/// How the command ends, after a line on `faults` said why: `Refused` if a line of the file of names or of
/// that of receipts is none, a folder has no recordings, or a recording has no name, or that of another;
/// `Device` if something can't be read; `Memory` if memory was refused.
///
/// # Not specified
/// - When memory is refused.
/// - When a disk that isn't honest fails, and what it reports.
pub fn open_queue<F: FileKinds, D: Volume, E: Sink>(
    alloc: Global,
    request: &QueueRequest<'_>,
    files: &F,
    disk: &mut D,
    faults: &mut E,
) -> Result<Queue, Exit>
    ensures { OpensQueue F.FileKinds files.now D.Disk E.Sink request.now result
        (opening_world disk.old faults.old) (opening_world disk.new faults.new) }
{
    if let Err(exit) = pass_kind(alloc, request.names, files, faults) {
        return Err(exit);
    }
    if let Err(exit) = pass_kind(alloc, request.receipts, files, faults) {
        return Err(exit);
    }
    match plan_queue(alloc, request, files, disk) {
        Ok(queue) => Ok(queue),
        Err(fault) => Err(report_fault(&fault, faults)),
    }
}

/// Passes a path at which no pipe and no device is, if one is given.
///
/// # Errors
/// How the command ends, after the kind was reported.
fn pass_kind<F: FileKinds, E: Sink>(
    alloc: Global,
    path: Option<&str>,
    files: &F,
    faults: &mut E,
) -> Result<(), Exit>
    ensures { PassesKind (F.kinds files.now) E.Sink (given_path path.entry) result faults.old faults.new }
{
    let Some(path) = path else {
        return Ok(());
    };
    let kind = files.kind_at(path);
    if kind.is_odd(true) {
        return Err(refuse_kind(alloc, path, kind, true, faults));
    }
    Ok(())
}

/// Reports why recordings aren't sent. Returns how the command ends.
fn report_fault<E: Sink>(fault: &QueueFault, faults: &mut E) -> Exit
    ensures { ReportsQueueFault E.Sink fault.now result faults.old faults.new }
{
    match fault {
        QueueFault::Refused(line) => {
            print_diagnostic(faults, line.as_str().as_bytes());
            Exit::Refused
        }
        QueueFault::Unread(line) => {
            print_diagnostic(faults, line.as_str().as_bytes());
            Exit::Device
        }
        QueueFault::Memory => give_up(faults, &Fault::Memory),
    }
}
