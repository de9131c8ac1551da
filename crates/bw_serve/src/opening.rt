//! How a server begins: anew over a folder's store, or with what an earlier one left there.
ghost use Rattle.std.specs.Prelude.{◌≡◌, ◌++◌, ℕ, Bool, List, Result, IfErr, IfOk, OnOk, string_bytes};
ghost use Rattle.bw_stream.specs.Moves.{failures_after};
ghost use Rattle.bw_ports.specs.declared.starts.StartRefusal.{StartRefusal};
ghost use Rattle.bw_serve.specs.Beginnings.{IsUnprinted, store_calls};
ghost use Rattle.bw_serve.specs.Openings.{OpensNew, opening_lines, resumed_line};
ghost use Rattle.bw_serve.specs.declared.opening.OpenedServer.{OpenedServer};
ghost use Rattle.bw_console.specs.Prints.{HasPrinted};
ghost use Rattle.bw_serve.specs.ServerReports.{listening_line};

use crate::laws::{law_held_runs, law_names};
use bw_console::print::{give_up, print};
use bw_console::{Exit, Fault};
use bw_exchange::Turns;
use bw_journal::{Journal, NoJournal};
use bw_layout::Limit;
use bw_ports::{Network, StartRefusal};
use bw_session::{HasTable, Server};
use bw_store::TakeStore;
use bw_stream::Sink;
use std::alloc::{AllocError, Global};
use std::net::SocketAddr;

/// A server that was opened over a folder.
#[derive(Drop)]
pub struct OpenedServer<T> {
    /// The server.
    pub server: T,
    /// How many takes the folder had; `None` for a server without journals.
    pub takes: Option<u64>,
}

/// Opens servers with journals over folders, and counts failures.
pub trait Opens {
    /// The server.
    type Server: Turns + HasTable + Drop;

    /// How many calls failed; the count stays at 2^64 - 1.
    ghost failures: { Self → ℕ };

    /// What a call of `open` for this folder, limit and choice of syncs may return, and the state
    /// after it.
    ghost opens: { Self → List ℕ → ℕ → Bool → Result (OpenedServer Self.Server) StartRefusal →
        Self → Type 0 };

    /// A server over what is in the folder and its journals, with this limit for new takes; with
    /// `sync` each verdict is on the disk before it is answered. No other server is opened over the
    /// folder while `self` lives.
    ///
    /// # Errors
    /// Why none is opened.
    ///
    /// # Not specified
    /// Anything beyond what each implementation says of itself.
    fn open(
        &mut self,
        folder: &str,
        limit: Limit,
        sync: bool,
    ) -> Result<OpenedServer<Self::Server>, StartRefusal>
        ensures received { opens self.old folder.now limit sync result self.new }
        ensures count { failures self.new ≡ failures_after result (failures self.old) }
        ensures committed { IfOk result (λ opened. Self.Server.Turns.committed opened.server) };
}

/// A new server without journals over the folder's store.
///
/// # Errors
/// Why the folder can't be used, or `Memory` if memory was refused for the server.
///
/// # Not specified
/// When memory is refused.
pub fn open_new<N: Network>(
    alloc: Global,
    network: &mut N,
    folder: &str,
    limit: Limit,
) -> Result<OpenedServer<Server<N::Store, NoJournal>>, StartRefusal>
    // Whatever it answers is a run from the empty book, and leaves its files in an honest store.
    ensures opens { OpensNew N.Store.TakeStore ⟦<NoJournal as Journal>⟧ (store_calls N.Network
        folder.now) limit network.old result network.new }
    ensures committed { IfOk result (λ opened.
        ⟦<Server<N::Store, NoJournal> as Turns>⟧.committed opened.server) }
{
    let store = network.store(folder)?;
    let Ok(server) = Server::new(alloc, store, limit) else {
        return Err(StartRefusal::Memory);
    };
    law_names::<N::Store>();
    law_held_runs::<N::Store, NoJournal>();
    Ok(OpenedServer {
        server,
        takes: None,
    })
}

/// Prints the first lines of a server at an address.
///
/// # Errors
/// How the command ends if they aren't printed whole, after the reason was reported.
pub fn print_opening<O: Sink, E: Sink>(
    alloc: Global,
    takes: Option<u64>,
    address: SocketAddr,
    out: &mut O,
    faults: &mut E,
) -> Result<(), Exit>
    ensures printed { OnOk result (HasPrinted O.Sink (opening_lines takes address) out.old out.new) }
    ensures silent { OnOk result (faults.new ≡ faults.old) }
    ensures unprinted { IfErr result (λ exit. IsUnprinted O.Sink E.Sink (opening_lines takes address) exit
        out.old out.new faults.old faults.new) }
{
    let Ok(lines) = format_opening(alloc, takes, address) else {
        return Err(give_up(faults, &Fault::Memory));
    };
    match print(out, lines.as_str().as_bytes()) {
        Ok(()) => Ok(()),
        Err(_failed) => Err(give_up(faults, &Fault::Unwritable)),
    }
}

/// The first lines of a server: how many takes its folder had, and its address.
fn format_opening(
    alloc: Global,
    takes: Option<u64>,
    address: SocketAddr,
) -> Result<String, AllocError>
    ensures { IfOk result (λ text. string_bytes text ≡ opening_lines takes address) }
{
    match takes {
        None => format!(in alloc; "listening {address}\n"),
        Some(takes) => format_resumed(alloc, takes, address),
    }
}

fn format_resumed(alloc: Global, takes: u64, address: SocketAddr) -> Result<String, AllocError>
    ensures { IfOk result (λ text.
        string_bytes text ≡ resumed_line takes ++ listening_line address) }
{
    let mut opening = format!(in alloc; "resumed {takes} takes\n")?;
    let listening = format!(in alloc; "listening {address}\n")?;
    opening.push_str(listening.as_str())?;
    Ok(opening)
}
