//! Host names on the command line of `send`, which are replaced by addresses.
//! Not stated: which address a host has, and when it isn't found.
ghost use Rattle.std.specs.Prelude.{◌≡◌, map, string_bytes, option_map, IfOk, IfSome};
ghost use Rattle.std.specs.Net.Text.{socket_text};
ghost use Rattle.bw_net.specs.Hosts.{IsReadFor, NamesHost, asks_network, connect_value, option_at};
ghost use Rattle.bw_net.specs.Hosts.{place_after_word, place_in_send, server_at, server_of};
ghost use Rattle.bw_net.specs.Hosts.{word_with, words_with};
ghost use Rattle.bw_net.specs.declared.hosts.Place.TheVariants.{Program};

use crate::faults::start_fault_line;
use bw_stream::{StdIo, write_all};
use std::alloc::{AllocError, Global};
use std::io::{self, ErrorKind};
use std::net::{IpAddr, SocketAddr, ToSocketAddrs};

/// What the next word of a command line is.
#[derive(Clone, Copy, Debug, PartialEq, Eq)]
enum Place {
    /// The program's own name.
    Program,
    /// The command.
    Command,
    /// A word of `send`.
    Send,
    /// The take's name, for `send`.
    Name,
    /// The server, for `send`.
    Server,
    /// Any other word.
    Other,
}

impl Place {
    /// What comes after this word.
    fn after(self, word: &str) -> Place
        ensures { result ≡ place_after_word self word.now }
    {
        match self {
            Place::Program => Place::Command,
            Place::Command => {
                if word == "send" {
                    Place::Send
                } else {
                    Place::Other
                }
            }
            Place::Send => after_in_send(word),
            Place::Name => Place::Send,
            Place::Server => Place::Other,
            Place::Other => Place::Other,
        }
    }

    /// The server that this word names.
    fn server(self, word: &str) -> Option<&str>
        ensures { option_map (λ server. server.now) result ≡ server_at self word.now }
    {
        match self {
            Place::Server => Some(word),
            Place::Send => connect_value(word),
            Place::Program | Place::Command | Place::Name | Place::Other => None,
        }
    }

    /// What is before the server in its word.
    fn option(self) -> &'static str
        ensures { result.now ≡ option_at self }
    {
        match self {
            Place::Send => "--connect=",
            Place::Program | Place::Command | Place::Name | Place::Server | Place::Other => "",
        }
    }
}

/// What comes after this word of `send`.
fn after_in_send(word: &str) -> Place
    ensures { result ≡ place_in_send word.now }
{
    if word == "--connect" {
        return Place::Server;
    }
    if word == "--name" {
        return Place::Name;
    }
    if word == "--" {
        return Place::Other;
    }
    match connect_value(word) {
        Some(_) => Place::Other,
        None => Place::Send,
    }
}

/// The server in a word `--connect=SERVER`.
fn connect_value(word: &str) -> Option<&str>
    ensures { option_map (λ server. server.now) result ≡ connect_value word.now }
{
    word.strip_prefix("--connect=")
}

/// The words of a command line, as they are read. If they are of `send --network`, a host in the place
/// of the server's address is replaced by its address, an IPv4 one if there is one. A host that isn't
/// found stays as it is, and a line on standard error says why.
///
/// # Errors
/// `OutOfMemory` if memory was refused.
///
/// # Not specified
/// - When memory is refused.
/// - When a host is found, and which addresses it has.
pub(crate) fn with_address(rt: &HostRuntime, words: Vec<String>) -> io::Result<Vec<String>>
    ensures { IfOk result (λ read.
        IsReadFor (map string_bytes words.items) (map string_bytes read.items)) }
{
    match address_of(rt, &words) {
        Some(address) => Ok(words_with(rt.alloc(), &words, address)?),
        None => Ok(words),
    }
}

/// The address of the host that the words name, if it is to be looked up and is found.
fn address_of(rt: &HostRuntime, words: &[String]) -> Option<SocketAddr>
    ensures { IfSome result (λ _. NamesHost (map string_bytes words.now)) }
{
    if !asks_network(words) {
        return None;
    }
    let host = server_of(words)?;
    let Err(_) = host.parse::<SocketAddr>() else {
        return None;
    };
    if !is_host_and_port(host) {
        return None;
    }
    match look_up(rt, host) {
        Ok(address) => Some(address),
        Err(error) => {
            report(rt, host, &error);
            None
        }
    }
}

/// Whether `--network` is one of the words.
fn asks_network(words: &[String]) -> bool
    ensures { result ≡ asks_network (map string_bytes words.now) }
{
    for word in words {
        if word.as_str() == "--network" {
            return true;
        }
    }
    false
}

/// The first server that the words name.
fn server_of(words: &[String]) -> Option<&str>
    ensures { option_map (λ server. server.now) result
        ≡ server_of Program (map string_bytes words.now) }
{
    let mut place = Place::Program;
    for word in words {
        if let Some(server) = place.server(word.as_str()) {
            return Some(server);
        }
        place = place.after(word.as_str());
    }
    None
}

/// Whether a text is a name and a port, as an IP address isn't.
fn is_host_and_port(text: &str) -> bool {
    let Some((host, port)) = text.rsplit_once(':') else {
        return false;
    };
    !host.is_empty() && host.parse::<IpAddr>().is_err() && port.parse::<u16>().is_ok()
}

/// The first IPv4 address of a host with its port, or else its first address.
fn look_up(rt: &HostRuntime, host: &str) -> io::Result<SocketAddr> {
    let mut first = None;
    for address in host.to_socket_addrs(rt)? {
        if address.is_ipv4() {
            return Ok(address);
        }
        first = first.or(Some(address));
    }
    first.ok_or(io::Error::from(ErrorKind::NotFound))
}

/// Says on standard error why a host isn't found.
fn report(rt: &HostRuntime, host: &str, error: &io::Error) {
    if let Ok(line) = start_fault_line(rt.alloc(), host, error) {
        let _ = write_all(&mut StdIo::new(rt.stderr()), line.as_bytes());
    }
}

/// The words with this address in the place of the first server that they name.
fn words_with(
    alloc: Global,
    words: &[String],
    address: SocketAddr,
) -> Result<Vec<String>, AllocError>
    ensures { IfOk result (λ read. map string_bytes read.items
        ≡ words_with (socket_text address) Program (map string_bytes words.now)) }
{
    let address = format!(in alloc; "{address}")?;
    let mut place = Place::Program;
    let mut read = Vec::new(alloc);
    for word in words {
        read.push(word_with(alloc, address.as_str(), place, word.as_str())?)?;
        place = place.after(word.as_str());
    }
    Ok(read)
}

/// A word at a place, with this server if it names one.
fn word_with(alloc: Global, server: &str, place: Place, word: &str) -> Result<String, AllocError>
    ensures { IfOk result (λ made. string_bytes made ≡ word_with server.now place word.now) }
{
    let Some(_) = place.server(word) else {
        return String::from_str(alloc, word);
    };
    let mut made = String::from_str(alloc, place.option())?;
    made.push_str(server)?;
    Ok(made)
}
