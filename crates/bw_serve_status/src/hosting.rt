//! The command `serve --status` for many recorders at once.
ghost use Rattle.std.specs.Prelude.{◌≡◌, IfOk};
ghost use Rattle.bw_exchange.specs.MeteredServers.{metered_server};
ghost use Rattle.bw_serve_status.specs.Shown.{ServesShown, status_side};
ghost use Rattle.bw_serve_status.specs.ShownRounds.{BeginsToShow};
ghost use Rattle.bw_serve_status.specs.Tallies.{none_tallied};

use crate::observer::StatusObserver;
use crate::tallied::Tallied;
use bw_console::print::give_up;
use bw_console::{Exit, Fault};
use bw_exchange::{Metered, Turns};
use bw_operators::{AllowList, StatusPort, StatusSetup};
use bw_ports::{ListenerSetup, Reactor};
use bw_serve::{
    Hosting, OpenedServer, Terms, print_opening, report_end, report_unbound, run_observed,
};
use bw_session::HasTable;
use bw_stream::Sink;
use std::alloc::{AllocError, Global};
use std::net::SocketAddr;

/// What a server of many recorders is asked to do that shows what it is doing.
#[derive(Clone, Copy)]
pub struct Showing<'a> {
    /// What it is asked to do besides.
    pub hosting: Hosting<'a>,
    /// The address that operators connect to.
    pub status: SocketAddr,
}

/// Serves as `serve_at_once` does, and shows operators who connect to an address what the server is
/// doing: after each round its table is looked at, as that round left it, and one of those who ask
/// gets its response.
///
/// An address for operators that can't be used is reported like the one for recorders, after that
/// one was opened: `Device`, or `Memory`, and nothing is printed.
///
/// # Not specified
/// - Which operators connect, and when.
/// - What `serve_at_once` leaves open.
pub fn serve_shown<
    N: ListenerSetup + StatusSetup<N::Reactor>,
    T: Turns + HasTable + Drop,
    O: Sink,
    E: Sink,
>(
    alloc: Global,
    network: &mut N,
    opened: OpenedServer<T>,
    showing: &Showing<'_>,
    out: &mut O,
    faults: &mut E,
) -> Exit
    requires { T.committed opened.server }
    // Each round is looked at once, with the counts of all that the server itself answered until then.
    ensures { ServesShown T.answers T.commits T.holds N.Reactor.Reactor N.Reactor.Link.Link O.Sink E.Sink
        (status_side N.StatusSetup N.Port.StatusPort N.Port.Link.Link) N.ListenerSetup showing.now opened
        result network.old network.new out.old out.new faults.old faults.new }
{
    let Showing { hosting, status } = *showing;
    let (address, folder) = (hosting.address, hosting.folder);
    let mut reactor = match network.reactor(address, folder, hosting.bounds.places) {
        Ok(reactor) => reactor,
        Err(error) => return report_unbound(alloc, address, &error, faults),
    };
    let port = match network.status_port(&reactor, status, folder) {
        Ok(port) => port,
        Err(error) => return report_unbound(alloc, status, &error, faults),
    };
    let OpenedServer { server, takes } = opened;
    let Ok((mut server, mut observer)) = begin_to_show(alloc, server, port, takes, hosting.allow)
    else {
        return give_up(faults, &Fault::Memory);
    };
    if let Err(exit) = print_opening(alloc, takes, address, out, faults) {
        return exit;
    }
    let terms = Terms {
        alloc,
        bounds: hosting.bounds,
        allow: hosting.allow,
        log: hosting.log,
    };
    let exit = run_observed(
        &terms,
        &mut server,
        &mut reactor,
        &mut observer,
        out,
        faults,
    );
    report_end(exit, faults)
}

/// A server that counts what it answers, and an observer that shows it at this port.
///
/// # Errors
/// `AllocError` if memory was refused.
fn begin_to_show<'a, T: Drop, P: StatusPort + Drop>(
    alloc: Global,
    server: T,
    port: P,
    takes: Option<u64>,
    allow: &'a AllowList,
) -> Result<(Metered<Tallied<T>>, StatusObserver<'a, P>), AllocError>
    ensures server { IfOk result (λ begun. (metered_server begun.0).server ≡ server) }
    ensures tallies { IfOk result (λ begun. (metered_server begun.0).tallies ≡ none_tallied) }
    ensures shows { IfOk result (λ begun. BeginsToShow port takes allow.now begun.1) }
{
    let observer = StatusObserver::new(alloc, port, takes, allow)?;
    match Tallied::new(alloc, server) {
        Ok(server) => Ok((Metered::new(server), observer)),
        Err((error, _server)) => Err(error),
    }
}
