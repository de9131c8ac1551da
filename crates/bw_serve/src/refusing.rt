//! Why a server isn't started, or ended, as it is reported.
ghost use Rattle.std.specs.IoError.{error_kind};
ghost use Rattle.std.specs.Net.Text.{socket_text};
ghost use Rattle.bw_serve.specs.Refusals.{ReportsRefusal};
ghost use Rattle.bw_serve.specs.ServerReports.{ReportsExit, ReportsUnopened};

use bw_console::print::{give_up, print_diagnostic};
use bw_console::{Exit, Fault, report_unopened};
use bw_ports::StartRefusal;
use bw_stream::Sink;
use std::alloc::Global;
use std::io;
use std::net::SocketAddr;

/// What is reported if another server runs over the folder.
const RUNNING: &str = "another server runs here\n";

/// What is reported if a file of the folder can't be read or written.
const BROKEN: &str = "the server can't start: its folder can't be read or written\n";

/// What is reported if no more peers are accepted, or a sync failed.
const GONE: &str =
    "the server can't go on: a sync failed, its folder is gone, or nothing can be waited for\n";

/// Reports why no server was started over a folder.
///
/// `Refused` with the lines of what can't be resumed; `Memory` if memory was refused; else
/// `Device`.
///
/// # Not specified
/// - The reason in the line of a folder that can't be used.
/// - When memory is refused for it.
pub fn report_refusal<E: Sink>(
    alloc: Global,
    folder: &str,
    refusal: &StartRefusal,
    faults: &mut E,
) -> Exit
    ensures { ReportsRefusal E.Sink folder.now refusal.now result faults.old faults.new }
{
    match refusal {
        StartRefusal::Unfit(lines) => {
            print_diagnostic(faults, lines.as_slice());
            Exit::Refused
        }
        StartRefusal::Running => {
            print_diagnostic(faults, RUNNING.as_bytes());
            Exit::Device
        }
        StartRefusal::Unusable(error) => report_unopened(alloc, folder, error, faults),
        StartRefusal::Device => {
            print_diagnostic(faults, BROKEN.as_bytes());
            Exit::Device
        }
        StartRefusal::Memory => give_up(faults, &Fault::Memory),
    }
}

/// Reports why nobody can connect to an address.
///
/// # Not specified
/// - The reason in the line.
/// - When memory is refused for it.
pub fn report_unbound<E: Sink>(
    alloc: Global,
    address: SocketAddr,
    error: &io::Error,
    faults: &mut E,
) -> Exit
    ensures { ReportsUnopened E.Sink (socket_text address) (error_kind error.now) result
        faults.old faults.new }
{
    let Ok(text) = format!(in alloc; "{address}") else {
        return give_up(faults, &Fault::Memory);
    };
    report_unopened(alloc, text.as_str(), error, faults)
}

/// Reports why a run ended, if it didn't end after its last exchange.
///
/// Nothing is reported for `Done`; `out of memory` for `Memory`; otherwise a sync failed, the folder
/// is gone, or waiting is impossible, and the result is `Device`.
pub fn report_end<E: Sink>(exit: Exit, faults: &mut E) -> Exit
    ensures { ReportsExit E.Sink exit result faults.old faults.new }
{
    match exit {
        Exit::Done => Exit::Done,
        Exit::Memory => give_up(faults, &Fault::Memory),
        Exit::Refused | Exit::Usage | Exit::Device => {
            print_diagnostic(faults, GONE.as_bytes());
            Exit::Device
        }
    }
}
