//! A network whose links are filtered, if that is chosen.
ghost use Rattle.std.specs.Prelude.{◌≡◌, false, IfOk, Result};
ghost use Rattle.bw_operators.specs.AllowLists.{AllowRules};
ghost use Rattle.bw_ports.specs.declared.starts.StartRefusal.{StartRefusal};
ghost use Rattle.bw_serve.specs.FilteredNetworks.{OpensFiltered, PassedOn, filtered_peers, filtered_reactor};
ghost use Rattle.bw_serve.specs.RuleRefusals.{RefusesRule, bad_rule_line};
ghost use Rattle.bw_serve.specs.FilteredParts.{inner_reactor, inner_network, network_has_one_name};

use crate::filtered_peers::FilteredPeers;
use crate::filtered_reactor::FilteredReactor;
use crate::{OpenedServer, Opens};
use bw_layout::Limit;
use bw_operators::{AllowFault, AllowList, EventLog, LogForm, RuleFiles, StatusSetup};
use bw_ports::{ListenerSetup, Network, PacedNetwork, StartRefusal};
use std::alloc::{AllocError, Global};
use std::io;
use std::net::SocketAddr;

/// What a line of a file of rules has to be.
const WANTED: &str =
    ": a name, or the start of names and *, and then networks, such as: ixm-* 10.0.0.0/8\n";

/// The rules by which a server treats its links.
pub trait ServeRules {
    ghost use Rattle.bw_serve.specs.declared.filtered_network.ServeChoice.{ServeChoice};

    /// After a call for these choices it may have returned this, and be in the second state.
    ghost chooses: { Self → ServeChoice → Result AllowRules StartRefusal → Self → Type 0 };

    /// Chooses whether each link that comes from now on may have one name alone, or any; and whether
    /// what happens from now on is reported, each line with its time. Returns which names may come from which
    /// addresses, by the file that is named, if there is one.
    ///
    /// # Errors
    /// `Unfit` with a line that names the file's first bad line, `Unusable` if it can't be read, `Memory`
    /// if memory was refused.
    ///
    /// # Not specified
    /// Anything beyond what each implementation says of itself.
    fn choose(&mut self, alloc: Global, choice: ServeChoice<'_>) -> Result<AllowList, StartRefusal>
        ensures { chooses self.old choice.entry result self.new };
}

/// What is chosen of a server's links.
#[derive(Clone, Copy)]
pub struct ServeChoice<'a> {
    /// Whether each may have one name alone.
    pub one_name: bool,
    /// In which form what happens is reported, if it is.
    pub log: Option<LogForm>,
    /// The path of the file that lists which names may come from which addresses.
    pub allow: Option<&'a str>,
}

/// A network, and whether each link to its servers may have one name alone.
#[derive(Drop)]
pub struct FilteredNetwork<N> {
    network: N,
    one_name: bool,
}

impl<N> FilteredNetwork<N> {
    /// A network whose links may have any name.
    pub fn new(network: N) -> FilteredNetwork<N>
        ensures network { inner_network result ≡ network }
        ensures one_name { network_has_one_name result ≡ false }
    {
        FilteredNetwork {
            network,
            one_name: false,
        }
    }
}

impl<N: EventLog + RuleFiles> ServeRules for FilteredNetwork<N> {
    ghost use Rattle.bw_serve.specs.FilteredNetworks.{ChoosesRules};

    ghost chooses = { ChoosesRules N.EventLog.chooses N.RuleFiles.reads };

    fn choose(
        &mut self,
        alloc: Global,
        choice: ServeChoice<'_>,
    ) -> Result<AllowList, StartRefusal> {
        self.network.log_events(choice.log);
        self.one_name = choice.one_name;
        let Some(path) = choice.allow else {
            return Ok(AllowList::everyone());
        };
        let text = match self.network.read_rules(path) {
            Ok(text) => text,
            Err(error) => return Err(StartRefusal::Unusable(error)),
        };
        match AllowList::read(alloc, &text) {
            Ok(list) => Ok(list),
            Err(AllowFault::Line(number)) => Err(refuse_rule(alloc, path, number)),
            Err(AllowFault::Memory) => Err(StartRefusal::Memory),
        }
    }
}

/// Why a server isn't started whose file of rules has a bad line.
fn refuse_rule(alloc: Global, path: &str, number: u64) -> StartRefusal
    ensures { RefusesRule path.now number result }
{
    match bad_rule(alloc, path, number) {
        Ok(line) => StartRefusal::Unfit(line),
        Err(_) => StartRefusal::Memory,
    }
}

/// The line that names a bad line of a file of rules.
fn bad_rule(alloc: Global, path: &str, number: u64) -> Result<Vec<u8>, AllocError>
    ensures { IfOk result (λ line. line.items ≡ bad_rule_line path.now number) }
{
    let number = format!(in alloc; "{number}")?;
    let mut line = Vec::new(alloc);
    line.extend_from_slice(path.as_bytes())?;
    line.extend_from_slice(b":")?;
    line.extend_from_slice(number.as_bytes())?;
    line.extend_from_slice(WANTED.as_bytes())?;
    Ok(line)
}

impl<N: Network> Network for FilteredNetwork<N> {
    type Store = N::Store;

    type Peers = FilteredPeers<N::Peers>;

    type Dial = N::Dial;

    ghost failures = { λ n. N.failures (inner_network n) };

    ghost stores = { λ n folder. PassedOn (N.stores (inner_network n) folder) n };

    ghost listens = { λ n address folder timeout result n'.
        OpensFiltered filtered_peers (N.listens (inner_network n) address folder timeout) n result n' };

    ghost calls = { λ n address timeout dial. N.calls (inner_network n) address timeout dial };

    fn store(&mut self, folder: &str) -> Result<N::Store, StartRefusal> {
        self.network.store(folder)
    }

    fn listen(
        &mut self,
        address: SocketAddr,
        folder: &str,
        timeout: Option<u32>,
    ) -> io::Result<FilteredPeers<N::Peers>> {
        match self.network.listen(address, folder, timeout) {
            Ok(peers) => Ok(FilteredPeers::new(peers, self.one_name)),
            Err(error) => Err(error),
        }
    }

    fn dial(&self, address: SocketAddr, timeout: Option<u32>) -> N::Dial {
        self.network.dial(address, timeout)
    }
}

impl<N: PacedNetwork> PacedNetwork for FilteredNetwork<N> {
    fn dial_paced(&self, address: SocketAddr, timeout: Option<u32>, rate: Option<u32>) -> N::Dial {
        self.network.dial_paced(address, timeout, rate)
    }
}

impl<N: ListenerSetup> ListenerSetup for FilteredNetwork<N> {
    type Reactor = FilteredReactor<N::Reactor>;

    ghost failures = { λ n. N.failures (inner_network n) };

    ghost opens = { λ n address folder places result n'.
        OpensFiltered filtered_reactor (N.opens (inner_network n) address folder places) n result n' };

    fn reactor(
        &mut self,
        address: SocketAddr,
        folder: &str,
        places: usize,
    ) -> io::Result<FilteredReactor<N::Reactor>> {
        match self.network.reactor(address, folder, places) {
            Ok(reactor) => Ok(FilteredReactor::new(reactor, self.one_name)),
            Err(error) => Err(error),
        }
    }
}

impl<N: Opens> Opens for FilteredNetwork<N> {
    type Server = N::Server;

    ghost failures = { λ n. N.failures (inner_network n) };

    ghost opens = { λ n folder limit sync. PassedOn (N.opens (inner_network n) folder limit sync) n };

    fn open(
        &mut self,
        folder: &str,
        limit: Limit,
        sync: bool,
    ) -> Result<OpenedServer<N::Server>, StartRefusal> {
        self.network.open(folder, limit, sync)
    }
}

impl<B, N: StatusSetup<B>> StatusSetup<FilteredReactor<B>> for FilteredNetwork<N> {
    type Port = N::Port;

    ghost failures = { λ n. N.failures (inner_network n) };

    ghost shows = { λ n reactor address folder.
        PassedOn (N.shows (inner_network n) (inner_reactor reactor) address folder) n };

    fn status_port(
        &mut self,
        reactor: &FilteredReactor<B>,
        address: SocketAddr,
        folder: &str,
    ) -> io::Result<N::Port> {
        self.network.status_port(reactor.inner(), address, folder)
    }
}
