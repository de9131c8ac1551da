//! What is kept of the peer at a place.
ghost use Rattle.std.specs.Prelude.{◌≡◌, ◌<◌, length, vec_len, IfOk};
ghost use Rattle.bw_connections.specs.ConnectionTables.{SetsPlace};
ghost use Rattle.bw_exchange.specs.LinkCounts.{none_counted};
ghost use Rattle.bw_exchange.specs.MeteredServers.{metered_server, metered_counts};
ghost use Rattle.bw_serve.specs.LinkLines.{Logs, peer_line};
ghost use Rattle.bw_serve.specs.Lines.{name_of_connection_end};
ghost use Rattle.bw_serve.specs.PeerSlots.{HasAddressAt, LogsAt, SwapsAt};

use crate::line::name_of;
use crate::reporting::report_link;
use bw_connections::ConnectionEnd;
use bw_exchange::{LinkStats, Metered};
use bw_stream::Sink;
use std::alloc::{AllocError, Global};
use std::net::{Ipv4Addr, SocketAddr};

/// The address of the peer at a place, and what was counted of it. Before the first peer the
/// address is 0.0.0.0:0.
#[derive(Drop)]
pub struct PeerSlot {
    /// The peer's address.
    pub address: SocketAddr,
    /// What was counted of it.
    pub link_stats: LinkStats,
}

impl PeerSlot {
    /// A peer of which nothing is counted.
    pub(crate) fn new(address: SocketAddr) -> PeerSlot
        ensures address { result.address ≡ address }
        ensures link_stats { result.link_stats ≡ none_counted }
    {
        PeerSlot {
            address,
            link_stats: LinkStats::new(),
        }
    }

    /// Makes the server continue this peer's counts, and keeps those that it had.
    fn swap<T>(&mut self, server: &mut Metered<T>)
        ensures address { self.new.address ≡ self.old.address }
        ensures link_stats { self.new.link_stats ≡ metered_counts server.old }
        ensures given { metered_counts server.new ≡ self.old.link_stats }
        ensures server { metered_server server.new ≡ metered_server server.old }
    {
        server.swap_link_stats(&mut self.link_stats);
    }

    /// Logs this peer, whose exchange ended so, if a log is asked for.
    fn print_diagnostic<E: Sink>(
        &self,
        alloc: Global,
        end: ConnectionEnd,
        log: bool,
        faults: &mut E,
    )
        ensures { Logs E.Sink log
            (peer_line self.now.address (name_of_connection_end end) self.now.link_stats) faults.old
            faults.new }
    {
        report_link(
            alloc,
            log,
            self.address,
            name_of(end),
            &self.link_stats,
            faults,
        );
    }
}

/// Creates `places` slots that have had no peer.
///
/// # Errors
/// `AllocError` if memory was refused.
pub(crate) fn empty_peer_slots(alloc: Global, places: usize) -> Result<Vec<PeerSlot>, AllocError>
    ensures { IfOk result (λ peer_slots. vec_len peer_slots ≡ places) }
{
    let nowhere = SocketAddr::from((Ipv4Addr::UNSPECIFIED, 0));
    let mut peer_slots = Vec::with_capacity(alloc, places)?;
    for _place in 0..places {
        peer_slots.push(PeerSlot::new(nowhere))?;
    }
    Ok(peer_slots)
}

/// The address of the peer at a place.
pub(crate) fn address_at(peer_slots: &[PeerSlot], place: usize) -> SocketAddr
    requires { place < length peer_slots.now }
    ensures { HasAddressAt place peer_slots.now result }
{
    peer_slots[place].address
}

/// Puts a peer at a place.
pub(crate) fn put_at(peer_slots: &mut Vec<PeerSlot>, place: usize, peer_slot: PeerSlot)
    requires { place < vec_len peer_slots.old }
    ensures sets { SetsPlace peer_slots.old.items place peer_slot peer_slots.new.items }
    ensures count { vec_len peer_slots.new ≡ vec_len peer_slots.old }
{
    peer_slots[place] = peer_slot;
}

/// Makes the server continue the counts of the peer at a place, and keeps there those that it had.
pub(crate) fn swap_at<T>(peer_slots: &mut Vec<PeerSlot>, place: usize, server: &mut Metered<T>)
    requires { place < vec_len peer_slots.old }
    ensures swaps { SwapsAt place peer_slots.old.items peer_slots.new.items server.old server.new }
    ensures count { vec_len peer_slots.new ≡ vec_len peer_slots.old }
{
    peer_slots[place].swap(server);
}

/// Logs the peer at a place, whose exchange ended so, if a log is asked for.
pub(crate) fn report_at<E: Sink>(
    alloc: Global,
    peer_slots: &[PeerSlot],
    place: usize,
    end: ConnectionEnd,
    log: bool,
    faults: &mut E,
)
    requires { place < length peer_slots.now }
    ensures { LogsAt E.Sink log place end peer_slots.now faults.old faults.new }
{
    peer_slots[place].print_diagnostic(alloc, end, log, faults);
}
