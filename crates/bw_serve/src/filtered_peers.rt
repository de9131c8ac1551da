//! Peers whose readers are filtered.
ghost use Rattle.std.specs.Prelude.{◌≡◌};
ghost use Rattle.bw_serve.specs.FilteredNetworks.{AcceptsFiltered, filtered_peer};
ghost use Rattle.bw_serve.specs.FilteredParts.{inner_peers, peers_have_one_name};

use crate::filtered_reader::FilteredReader;
use bw_ports::{AcceptFault, Duplex, Peer, Peers};

/// Peers, each of which may have one name alone, or any.
#[derive(Drop)]
pub struct FilteredPeers<P> {
    peers: P,
    one_name: bool,
}

impl<P> FilteredPeers<P> {
    /// Peers with one name each, or with any.
    pub fn new(peers: P, one_name: bool) -> FilteredPeers<P>
        ensures peers { inner_peers result ≡ peers }
        ensures one_name { peers_have_one_name result ≡ one_name }
    {
        FilteredPeers { peers, one_name }
    }
}

impl<P: Peers> Peers for FilteredPeers<P> {
    type Reader = FilteredReader<P::Reader>;

    type Writer = P::Writer;

    ghost failures = { λ p. P.failures (inner_peers p) };

    ghost accepts = { λ p result p'. AcceptsFiltered P.accepts p result p' };

    fn accept(&mut self) -> Result<Peer<FilteredReader<P::Reader>, P::Writer>, AcceptFault> {
        match self.peers.accept() {
            Ok(peer) => Ok(filtered_peer(peer, self.one_name)),
            Err(fault) => Err(fault),
        }
    }
}

/// A peer with its reader filtered.
fn filtered_peer<R, W>(peer: Peer<R, W>, one_name: bool) -> Peer<FilteredReader<R>, W>
    ensures { result ≡ filtered_peer one_name peer }
{
    let Peer { address, link } = peer;
    let Duplex { reader, writer } = link;
    let reader = FilteredReader::new(reader, one_name);
    Peer {
        address,
        link: Duplex { reader, writer },
    }
}
