//! The command `serve` for one recorder after another.
ghost use Rattle.std.specs.Prelude.{◌≡◌};
ghost use Rattle.bw_serve.specs.Hostings.{ServesInTurn};

use crate::opening::{OpenedServer, print_opening};
use crate::refusing::{report_end, report_unbound};
use crate::serving_in_turn::{TermsInTurn, serve_run};
use bw_console::Exit;
use bw_exchange::{Metered, Turns};
use bw_operators::AllowList;
use bw_ports::{Network, Peers};
use bw_stream::Sink;
use std::alloc::Global;
use std::net::SocketAddr;

/// What a server of one recorder after another is asked to do.
#[derive(Clone, Copy)]
pub struct Serving<'a> {
    /// The address that peers connect to.
    pub address: SocketAddr,
    /// The folder of its files, as it was given.
    pub folder: &'a str,
    /// How many exchanges it serves.
    pub exchanges: u64,
    /// How many seconds it waits for a peer; without limit if `None`.
    pub timeout: Option<u32>,
    /// Which names may come from which addresses.
    pub allow: &'a AllowList,
    /// Whether each link is logged.
    pub log: bool,
}

/// Serves a number of exchanges, one after another, with the server that was opened.
///
/// An address that can't be used is a line on `faults`, before anything is printed. Then the first
/// lines are printed, and a line for each exchange; with a log each link is a line on `faults`, as
/// `serve_run` says. If the first lines can't be printed, nothing is served.
///
/// `Done` after the last exchange; `Device` if the address can't be used, the first lines can't be
/// written or no more peers are accepted; `Memory` if memory was refused before the first line, to
/// an exchange or to a fault's line.
///
/// # Not specified
/// - When memory is refused before the first line.
/// - The reason in the line of an address that can't be used.
/// - The state of the peers after the run, which are dropped.
pub fn serve_in_turn<N: Network, T: Turns + Drop, O: Sink, E: Sink>(
    alloc: Global,
    network: &mut N,
    opened: OpenedServer<T>,
    serving: &Serving<'_>,
    out: &mut O,
    faults: &mut E,
) -> Exit
    ensures { ServesInTurn T.answers T.committed T.commits N.Peers.Peers N.Peers.Reader.Source
        N.Peers.Writer.Sink O.Sink E.Sink N.Network serving.now opened result network.old network.new
        out.old out.new faults.old faults.new }
{
    let Serving {
        address,
        folder,
        exchanges,
        timeout,
        allow,
        log,
    } = *serving;
    let mut peers = match network.listen(address, folder, timeout) {
        Ok(peers) => peers,
        Err(error) => return report_unbound(alloc, address, &error, faults),
    };
    let OpenedServer { server, takes } = opened;
    if let Err(exit) = print_opening(alloc, takes, address, out, faults) {
        return exit;
    }
    let mut server = Metered::new(server);
    let terms = TermsInTurn {
        alloc,
        exchanges,
        allow,
        log,
    };
    let exit = serve_run(&terms, &mut server, &mut peers, out, faults);
    report_end(exit, faults)
}
