//! A reactor whose links are filtered.
ghost use Rattle.std.specs.Prelude.{◌≡◌};
ghost use Rattle.bw_serve.specs.FilteredNetworks.{AdmitsFiltered};
ghost use Rattle.bw_serve.specs.FilteredParts.{inner_reactor, reactor_has_one_name};

use crate::filtered_link::FilteredLink;
use bw_ports::{Accepted, Reactor, Ready, TryAcceptFault, WaitFault};

/// A reactor, each link of which may have one name alone, or any.
#[derive(Drop)]
pub struct FilteredReactor<B> {
    reactor: B,
    one_name: bool,
}

impl<B> FilteredReactor<B> {
    /// A reactor whose links have one name each, or any.
    pub fn new(reactor: B, one_name: bool) -> FilteredReactor<B>
        ensures reactor { inner_reactor result ≡ reactor }
        ensures one_name { reactor_has_one_name result ≡ one_name }
    {
        FilteredReactor { reactor, one_name }
    }

    /// The reactor whose links it filters.
    pub(crate) fn inner(&self) -> &B
        ensures { result.now ≡ inner_reactor self.now }
    {
        &self.reactor
    }
}

impl<B: Reactor> Reactor for FilteredReactor<B> {
    type Link = FilteredLink<B::Link>;

    ghost failures = { λ b. B.failures (inner_reactor b) };

    ghost waits = { λ b. B.waits (inner_reactor b) };

    ghost time = { λ b. B.time (inner_reactor b) };

    ghost patience = { λ b. B.patience (inner_reactor b) };

    ghost reported = { λ b links. B.reported (inner_reactor b) links };

    ghost all_reported = { λ b. B.all_reported (inner_reactor b) };

    ghost tried = { λ b count. B.tried (inner_reactor b) count };

    ghost nobody = { λ b. B.nobody (inner_reactor b) };

    ghost admitted = { λ b links. AdmitsFiltered (B.admitted (inner_reactor b))
        (reactor_has_one_name b) links };

    fn wait(&mut self, most: u64) -> Result<(), WaitFault> {
        self.reactor.wait(most)
    }

    fn next_ready(&mut self) -> Option<Ready> {
        self.reactor.next_ready()
    }

    fn accept(&mut self, place: usize) -> Result<Accepted<FilteredLink<B::Link>>, TryAcceptFault> {
        match self.reactor.accept(place) {
            Ok(Accepted { address, link }) => Ok(Accepted {
                address,
                link: FilteredLink::new(link, self.one_name),
            }),
            Err(fault) => Err(fault),
        }
    }

    fn now(&mut self) -> u64 {
        self.reactor.now()
    }
}
