//! The log line of a link.
ghost use Rattle.std.specs.Prelude.{◌≡◌, ◌++◌, [], flat_map, IfOk, OnOk};
ghost use Rattle.bw_serve.specs.LinkLines.{Logs, counts_text, name_after, peer_line};
ghost use Rattle.bw_serve.specs.LinkLines.{peer_text};

use bw_console::print::print_diagnostic;
use bw_exchange::{KnownName, LinkStats};
use bw_stream::Sink;
use std::alloc::{AllocError, Global};
use std::net::SocketAddr;

/// Logs a peer's address, the name of its exchange's end and what was counted of it, if a log is
/// asked for. If memory is refused for the line, it is left out.
///
/// # Not specified
/// When the line is left out: only a refused growth should do it.
pub fn report_link<E: Sink>(
    alloc: Global,
    log: bool,
    peer: SocketAddr,
    end: &str,
    link_stats: &LinkStats,
    faults: &mut E,
)
    ensures { Logs E.Sink log (peer_line peer end.now link_stats.now) faults.old faults.new }
{
    if !log {
        return;
    }
    if let Ok(line) = line_of_link(alloc, peer, end, link_stats) {
        print_diagnostic(faults, &line);
    }
}

fn line_of_link(
    alloc: Global,
    peer: SocketAddr,
    end: &str,
    link_stats: &LinkStats,
) -> Result<Vec<u8>, AllocError>
    ensures { IfOk result (λ line. line.items ≡ peer_line peer end.now link_stats.now) }
{
    let mut line = Vec::new(alloc);
    put_peer(alloc, &mut line, peer)?;
    put_names(&mut line, link_stats.names())?;
    put_counts(
        alloc,
        &mut line,
        end,
        link_stats.messages(),
        link_stats.bytes(),
    )?;
    Ok(line)
}

/// Adds the peer's address, up to the names.
fn put_peer(alloc: Global, out: &mut Vec<u8>, peer: SocketAddr) -> Result<(), AllocError>
    ensures { OnOk result (out.new.items ≡ out.old.items ++ peer_text peer []) }
{
    let peer = format!(in alloc; "{peer}")?;
    out.extend_from_slice(b"peer ")?;
    out.extend_from_slice(peer.as_bytes())?;
    out.extend_from_slice(b" names")?;
    Ok(())
}

/// Adds the name of the exchange's end, how many messages came, and their bytes.
fn put_counts(
    alloc: Global,
    out: &mut Vec<u8>,
    end: &str,
    messages: u64,
    bytes: u64,
) -> Result<(), AllocError>
    ensures { OnOk result (out.new.items ≡ out.old.items ++ counts_text end.now messages bytes) }
{
    let text = format!(in alloc; " end {end} messages {messages} bytes {bytes}\n")?;
    out.extend_from_slice(text.as_bytes())?;
    Ok(())
}

/// Adds the names of the messages.
fn put_names(out: &mut Vec<u8>, names: &[KnownName]) -> Result<(), AllocError>
    ensures { OnOk result (out.new.items ≡ out.old.items ++ flat_map name_after names.now) }
{
    for name in names {
        put_name(out, name)?;
    }
    Ok(())
}

fn put_name(out: &mut Vec<u8>, name: &KnownName) -> Result<(), AllocError>
    ensures { OnOk result (out.new.items ≡ out.old.items ++ name_after name.now) }
{
    out.push(b' ')?;
    out.extend_from_slice(name.as_bytes())?;
    Ok(())
}
