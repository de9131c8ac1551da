//! A link of which the filter gives what comes.
ghost use Rattle.std.specs.Prelude.{◌≡◌};
ghost use Rattle.bw_serve.specs.Filters.{starting};
ghost use Rattle.bw_serve.specs.FilteredParts.{inner_link, filter_of_link, link_has_one_name};

use crate::name_filter::NameFilter;
use bw_ports::{Link, Received, Sent};

/// A link, and the filter of what it gives.
#[derive(Drop)]
pub struct FilteredLink<L> {
    link: L,
    filter: NameFilter,
    one_name: bool,
}

impl<L> FilteredLink<L> {
    /// A link that has given nothing yet, with one name alone, or with any.
    pub fn new(link: L, one_name: bool) -> FilteredLink<L>
        ensures link { inner_link result ≡ link }
        ensures filter { filter_of_link result ≡ starting one_name }
        ensures one_name { link_has_one_name result ≡ one_name }
    {
        FilteredLink {
            link,
            filter: NameFilter::new(one_name),
            one_name,
        }
    }
}

impl<L: Link> Link for FilteredLink<L> {
    ghost use Rattle.bw_serve.specs.FilteredBytes.{GivesFiltered};

    ghost given = { λ l ys. GivesFiltered (L.given (inner_link l)) (link_has_one_name l)
        (filter_of_link l) ys };

    ghost taken = { λ l ys. L.taken (inner_link l) ys };

    ghost ended = { λ l. L.ended (inner_link l) };

    ghost broken = { λ l. L.broken (inner_link l) };

    ghost dry = { λ l. L.dry (inner_link l) };

    ghost full = { λ l. L.full (inner_link l) };

    ghost finished = { λ l. L.finished (inner_link l) };

    ghost calls_from = { λ l peer. L.calls_from (inner_link l) peer };

    fn receive(&mut self, buffer: &mut [u8]) -> Received {
        let received = self.link.receive(buffer);
        if let Received::Bytes(count) = received {
            self.filter.pass(buffer, count);
        }
        received
    }

    fn send(&mut self, bytes: &[u8]) -> Sent {
        self.link.send(bytes)
    }

    fn shut(&mut self) {
        self.link.shut();
    }
}
