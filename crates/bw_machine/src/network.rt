//! The network and the folders of this machine, for `serve` and `send`.
ghost use Rattle.std.specs.Prelude.{◌≡◌, ◌*◌, ◌+◌, true, IfOk, option_map, string_bytes};
ghost use Rattle.std.specs.Duration.{as_nanos};
ghost use Rattle.bw_folder.specs.TakeFolders.{takes_folder, takes_retry};

use crate::journals::refuse_journals;
use bw_console::CauseCell;
use bw_disk::SystemDisk;
use bw_folder::FolderStore;
use bw_net::{
    FolderLock, LineCell, NotedFiles, SpoolCell, TcpDial, TcpPeers, TcpReactor, check_folder,
};
use bw_operators::{EventLog, LogForm, RuleFiles, started_line};
use bw_ports::{ListenerSetup, Network, PacedNetwork, StartRefusal};
use std::alloc::Global;
use std::fs::{self, File};
use std::io::{self, ErrorKind, Read};
use std::net::{SocketAddr, TcpListener};
use std::time::Duration;

/// The most bytes of a file of rules.
const MOST_RULES: u64 = 1_048_576;

/// The network and the folders of the machine that the process runs on, by the calls of std. No
/// clause of std says what is in a folder or what comes over a socket.
#[derive(Drop)]
pub struct TcpNetwork<'a> {
    pub(crate) rt: &'a HostRuntime,
    /// The spool, if there is one, is filled while a link's calls wait.
    pub(crate) spool: &'a SpoolCell,
    /// Gets the reason why a link to a server can't be made, or breaks off.
    pub(crate) causes: &'a CauseCell,
    /// What the process prints: once a server listens, its lines don't wait.
    pub(crate) lines: &'a LineCell,
    pub(crate) failures: u64,
    /// The lock of the folder over which the latest server with journals was opened.
    pub(crate) lock: Option<FolderLock>,
}

impl<'a> TcpNetwork<'a> {
    ghost use Rattle.bw_machine.specs.SeenMachine.{network_failures};
    ghost use Rattle.bw_net.specs.SeenLinks.{reactor_address, reactor_folder};
    ghost use Rattle.bw_net.specs.SeenLinks.{reactor_room, reactor_failures, reactor_waits};
    ghost use Rattle.bw_net.specs.SeenLinks.{peers_address, peers_folder, peers_timeout};

    /// The network of this runtime, which has not failed yet. This spool is filled while the calls
    /// of a link to a server wait, this cell gets the reason why they fail, and these lines no
    /// longer wait once it listens.
    ///
    /// # Not specified
    /// - That its runtime is the one that was given.
    /// - That a folder is tried before its store is given, that it listens and calls at the
    ///   address, and when an error is returned.
    pub fn new(
        rt: &'a HostRuntime,
        spool: &'a SpoolCell,
        causes: &'a CauseCell,
        lines: &'a LineCell,
    ) -> TcpNetwork<'a>
        ensures { network_failures result ≡ 0 }
    {
        TcpNetwork {
            rt,
            spool,
            causes,
            lines,
            failures: 0,
            lock: None,
        }
    }

    /// The files of servers' folders: what fails of their calls is a line of the process.
    pub(crate) fn files(&self) -> NotedFiles<'a> {
        NotedFiles::new(self.rt, self.lines)
    }

    fn open_peers(
        &self,
        address: SocketAddr,
        folder: &str,
        timeout: Option<u32>,
    ) -> io::Result<TcpPeers<'a, HostRuntime, TcpListener>>
        ensures { IfOk result (λ peers. (peers_address peers ≡ address)
            × (string_bytes (peers_folder peers) ≡ folder.now)
            × (option_map as_nanos (peers_timeout peers)
            ≡ option_map (λ s. s * 1_000_000_000) timeout)) }
    {
        let folder = String::from_str(self.rt.alloc(), folder)?;
        self.lines.open(self.rt)?;
        TcpPeers::listen(self.rt, self.files(), address, folder, span(timeout))
    }

    fn open_reactor(
        &self,
        address: SocketAddr,
        folder: &str,
        places: usize,
    ) -> io::Result<TcpReactor<'a>>
        ensures { IfOk result (λ reactor. (reactor_address reactor ≡ address)
            × (string_bytes (reactor_folder reactor) ≡ folder.now)
            × (reactor_room reactor ≡ places + 1) × (reactor_failures reactor ≡ 0)
            × (reactor_waits reactor ≡ 0)) }
    {
        let folder = String::from_str(self.rt.alloc(), folder)?;
        self.lines.open(self.rt)?;
        TcpReactor::listen(self.rt, self.lines, address, folder, places)
    }
}

impl TcpNetwork<'_> {
    /// Says that a server listens at an address, over a folder.
    fn note_start(&self, address: SocketAddr, folder: &str) {
        let files = self.files();
        if files.logs() {
            files.note_event(started_line(self.rt.alloc(), address, folder));
        }
    }
}

/// With a log each line on standard error has its time.
impl EventLog for TcpNetwork<'_> {
    ghost chooses = { λ n form n'. n' ≡ n };

    fn log_events(&mut self, form: Option<LogForm>) {
        self.lines.log_events(form);
    }
}

impl RuleFiles for TcpNetwork<'_> {
    // No clause of std says what a read of a file gives.
    ghost reads = { λ n path result. Unit {0} };

    fn read_rules(&self, path: &str) -> io::Result<Vec<u8>> {
        let file = open_rules(self.rt, path)?;
        let mut text = Vec::new(self.rt.alloc());
        file.take(MOST_RULES + 1).read_to_end(&mut text)?;
        if text.len() as u64 > MOST_RULES {
            return Err(io::Error::from(ErrorKind::FileTooLarge));
        }
        Ok(text)
    }
}

/// The file of rules at a path. To open a pipe would wait for its writer, and a device may give bytes
/// for ever; that a folder can't be read the system says itself.
///
/// # Errors
/// If it is a pipe, a socket or a device, or the system fails.
fn open_rules(rt: &HostRuntime, path: &str) -> io::Result<File> {
    let found = fs::metadata(rt, path)?;
    if found.is_file() || found.is_dir() {
        return File::open(rt, path);
    }
    Err(io::Error::new(ErrorKind::InvalidInput, "it isn't a regular file"))
}

/// Tests a folder for a server without journals.
fn check_plain(rt: &HostRuntime, files: NotedFiles<'_>, folder: &str) -> Result<(), StartRefusal> {
    check_folder(rt, rt.alloc(), folder).map_err(StartRefusal::Unusable)?;
    refuse_journals(files, folder)
}

/// The duration of a timeout, if there is one.
fn span(seconds: Option<u32>) -> Option<Duration>
    ensures { option_map as_nanos result ≡ option_map (λ s. s * 1_000_000_000) seconds }
{
    match seconds {
        Some(seconds) => Some(Duration::from_secs(u64::from(seconds))),
        None => None,
    }
}

impl<'a> Network for TcpNetwork<'a> {
    ghost use Rattle.bw_machine.specs.SeenMachine.{network_failures};
    ghost use Rattle.bw_net.specs.SeenLinks.{dial_address, dial_timeout};
    ghost use Rattle.bw_net.specs.SeenLinks.{peers_address, peers_folder, peers_timeout};

    type Store = FolderStore<SystemDisk<NotedFiles<'a>>>;

    type Peers = TcpPeers<'a, HostRuntime, TcpListener>;

    type Dial = TcpDial<'a>;

    ghost failures = { network_failures };

    ghost stores = { λ n folder result n'. IfOk result (λ store. (takes_folder store ≡ folder)
        × (takes_retry store ≡ true)) };

    ghost listens = { λ n address folder timeout result n'. IfOk result (λ peers.
        (peers_address peers ≡ address) × (string_bytes (peers_folder peers) ≡ folder)
        × (option_map as_nanos (peers_timeout peers)
        ≡ option_map (λ s. s * 1_000_000_000) timeout)) };

    ghost calls = { λ n address timeout dial. (dial_address dial ≡ address)
        × (option_map as_nanos (dial_timeout dial) ≡ option_map (λ s. s * 1_000_000_000) timeout) };

    fn store(
        &mut self,
        folder: &str,
    ) -> Result<FolderStore<SystemDisk<NotedFiles<'a>>>, StartRefusal> {
        let alloc = self.rt.alloc();
        if let Err(refusal) = check_plain(self.rt, self.files(), folder) {
            self.failures = self.failures.saturating_add(1);
            return Err(refusal);
        }
        match FolderStore::new(self.files(), alloc, folder) {
            // No other server takes over what this one has, so a CLOSE may be tried again.
            Ok(store) => Ok(store.with_retries()),
            Err(error) => {
                self.failures = self.failures.saturating_add(1);
                Err(StartRefusal::Unusable(io::Error::from(error)))
            }
        }
    }

    fn listen(
        &mut self,
        address: SocketAddr,
        folder: &str,
        timeout: Option<u32>,
    ) -> io::Result<TcpPeers<'a, HostRuntime, TcpListener>> {
        let peers = self.open_peers(address, folder, timeout);
        if peers.is_err() {
            self.failures = self.failures.saturating_add(1);
            return peers;
        }
        self.note_start(address, folder);
        peers
    }

    fn dial(&self, address: SocketAddr, timeout: Option<u32>) -> TcpDial<'a> {
        TcpDial::new(
            self.rt,
            self.spool,
            self.causes,
            address,
            span(timeout),
            None,
        )
    }
}

impl<'a> PacedNetwork for TcpNetwork<'a> {
    fn dial_paced(
        &self,
        address: SocketAddr,
        timeout: Option<u32>,
        rate: Option<u32>,
    ) -> TcpDial<'a> {
        TcpDial::new(
            self.rt,
            self.spool,
            self.causes,
            address,
            span(timeout),
            rate,
        )
    }
}

impl<'a> ListenerSetup for TcpNetwork<'a> {
    ghost use Rattle.bw_machine.specs.SeenMachine.{network_failures};
    ghost use Rattle.bw_net.specs.SeenLinks.{reactor_address, reactor_folder};
    ghost use Rattle.bw_net.specs.SeenLinks.{reactor_room, reactor_failures, reactor_waits};

    type Reactor = TcpReactor<'a>;

    ghost failures = { network_failures };

    ghost opens = { λ n address folder places result n'. IfOk result (λ reactor.
        (reactor_address reactor ≡ address) × (string_bytes (reactor_folder reactor) ≡ folder)
        × (reactor_room reactor ≡ places + 1) × (reactor_failures reactor ≡ 0)
        × (reactor_waits reactor ≡ 0)) };

    fn reactor(
        &mut self,
        address: SocketAddr,
        folder: &str,
        places: usize,
    ) -> io::Result<TcpReactor<'a>> {
        let reactor = self.open_reactor(address, folder, places);
        if reactor.is_err() {
            self.failures = self.failures.saturating_add(1);
            return reactor;
        }
        self.note_start(address, folder);
        reactor
    }
}
