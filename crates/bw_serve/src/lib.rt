//! Servers of recorders, one after another or many at once: peers are accepted, each connection
//! gets a quantum a round, and each that ends is printed as a line. A connection may be limited to one
//! name, by a filter of what comes over it. Sockets are in a crate above, which implements `Peers` and
//! `Reactor`.
//! Not stated: who comes; whether links report the truth; how many were refused; that what a link
//! took arrives.
#![tactic(auto)]

mod end_counts;
mod event_loop;
mod filtered_link;
mod filtered_network;
mod filtered_peers;
mod filtered_reactor;
mod filtered_reader;
mod guarded;
mod hosting;
mod hosting_in_turn;
pub mod laws;
mod line;
mod name_filter;
mod observing;
pub mod one_name_laws;
mod opening;
mod peer_slot;
mod refusing;
mod reporting;
mod serving;
mod serving_in_turn;
mod serving_one;

pub use end_counts::EndCounts;
pub use filtered_link::FilteredLink;
pub use filtered_network::{FilteredNetwork, ServeChoice, ServeRules};
pub use filtered_peers::FilteredPeers;
pub use filtered_reactor::FilteredReactor;
pub use filtered_reader::FilteredReader;
pub use hosting::{Hosting, serve_at_once};
pub use hosting_in_turn::{Serving, serve_in_turn};
pub use name_filter::NameFilter;
pub use observing::{NoRoundObserver, RoundObserver, RoundReport};
pub use opening::{OpenedServer, Opens, open_new, print_opening};
pub use peer_slot::PeerSlot;
pub use refusing::{report_end, report_refusal, report_unbound};
pub use reporting::report_link;
pub use serving::{Bounds, Terms, run_event_loop, run_observed};
pub use serving_in_turn::{TermsInTurn, serve_run};
