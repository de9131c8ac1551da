//! The command `serve` for many recorders at once.
ghost use Rattle.std.specs.Prelude.{◌≡◌};
ghost use Rattle.bw_serve.specs.Hostings.{ServesAtOnce};

use crate::opening::{OpenedServer, print_opening};
use crate::refusing::{report_end, report_unbound};
use crate::serving::{Bounds, Terms, run_event_loop};
use bw_console::Exit;
use bw_exchange::{Metered, Turns};
use bw_operators::AllowList;
use bw_ports::{ListenerSetup, Reactor};
use bw_stream::Sink;
use std::alloc::Global;
use std::net::SocketAddr;

/// What a server of many recorders is asked to do.
#[derive(Clone, Copy)]
pub struct Hosting<'a> {
    /// The address that recorders connect to.
    pub address: SocketAddr,
    /// The folder of its files, as it was given.
    pub folder: &'a str,
    /// How many exchanges are served, how many at once, and how long a connection may be silent.
    pub bounds: Bounds,
    /// Which names may come from which addresses.
    pub allow: &'a AllowList,
    /// Whether each connection is logged.
    pub log: bool,
}

/// Serves a number of exchanges, many at once, with the server that was opened.
///
/// An address that can't be used is a line on `faults`, before anything is printed. Then the first
/// lines are printed, and a line for each exchange; with a log each connection is a line on
/// `faults`, as `run_event_loop` says. If the first lines can't be printed, nothing is served.
///
/// `Done` after the last exchange; `Device` if the address can't be used, the first lines can't be
/// written, or the event loop can't continue; `Memory` if memory was refused before the first
/// connection, or to a fault's line.
///
/// # Not specified
/// - When memory is refused before the first line.
/// - The reason in the line of an address that can't be used.
/// - What `run_event_loop` leaves open.
pub fn serve_at_once<N: ListenerSetup, T: Turns + Drop, O: Sink, E: Sink>(
    alloc: Global,
    network: &mut N,
    opened: OpenedServer<T>,
    hosting: &Hosting<'_>,
    out: &mut O,
    faults: &mut E,
) -> Exit
    requires { T.committed opened.server }
    ensures { ServesAtOnce T.answers T.commits N.Reactor.Reactor N.Reactor.Link.Link O.Sink E.Sink
        N.ListenerSetup hosting.now opened result network.old network.new out.old out.new faults.old
        faults.new }
{
    let Hosting {
        address,
        folder,
        bounds,
        allow,
        log,
    } = *hosting;
    let mut reactor = match network.reactor(address, folder, bounds.places) {
        Ok(reactor) => reactor,
        Err(error) => return report_unbound(alloc, address, &error, faults),
    };
    let OpenedServer { server, takes } = opened;
    if let Err(exit) = print_opening(alloc, takes, address, out, faults) {
        return exit;
    }
    let mut server = Metered::new(server);
    let terms = Terms {
        alloc,
        bounds,
        allow,
        log,
    };
    let exit = run_event_loop(&terms, &mut server, &mut reactor, out, faults);
    report_end(exit, faults)
}
