//! What is shown of a server's takes.
ghost use Rattle.std.specs.Prelude.{◌≡◌, ◌-◌, ℕ, List, Option, IfOk, IsTrue, is_some, option_map, map};
ghost use Rattle.std.specs.Prelude.{string_bytes};
ghost use Rattle.std.specs.List.{All};
ghost use Rattle.std.specs.Cmp.Lexicographic.{slice_cmp};
ghost use Rattle.std.specs.Ordering.{nat_cmp};
ghost use Rattle.std.specs.List.Sorted.{IsSorted};
ghost use Rattle.bw_model.specs.Book.{Book, is_known, log_of};
ghost use Rattle.bw_session.specs.Books.{HoldsBook};
ghost use Rattle.bw_session.specs.KnownNames.{ListsNames};
ghost use Rattle.bw_serve_status.specs.Takes.{ShowsOf, ShowsTake, ShowsTakes, has_sent};
ghost use Rattle.bw_serve_status.specs.Takes.{if_format, lasting};
ghost use Rattle.bw_serve_status.specs.Takes.{is_peer_of, lasting_in, peer_of, replied_of, sound_of};
ghost use Rattle.bw_serve_status.specs.Takes.{state_for, take_of_log};
ghost use Rattle.bw_serve_status.specs.Takes.{take_name};

use crate::growth::grown_at;
use crate::name_tally::{NameTally, is_of};
use crate::snapshots::Surroundings;
use bw_journal::Journal;
use bw_model::Name;
use bw_operators::AllowList;
use bw_serve::PeerSlot;
use bw_session::Server;
use bw_status::{ShownState, SoundFormat, TakeStatus};
use bw_store::TakeStore;
use std::alloc::{AllocError, Global};
use std::net::SocketAddr;

/// The takes that a server knows, in the order of their names' bytes.
///
/// # Errors
/// `AllocError` if memory was refused.
pub(crate) fn takes_of<S: TakeStore, J: Journal>(
    alloc: Global,
    server: &Server<S, J>,
    tallies: &[NameTally],
    peers: &[PeerSlot],
    around: Surroundings<'_>,
) -> Result<Vec<TakeStatus>, AllocError>
    ensures { (first : List ℕ → Option (List ℕ)) (book : Book) →
        HoldsBook S.TakeStore J.Journal first server.now book →
        IfOk result (λ takes. ShowsTakes (λ name. is_some (first name)) book tallies.now peers.now
        around.entry takes.items) }
{
    let names = sorted_names(alloc, server)?;
    takes_under(alloc, server, names.as_slice(), tallies, peers, around)
}

/// What is shown of the takes with these names, in their order.
fn takes_under<S: TakeStore, J: Journal>(
    alloc: Global,
    server: &Server<S, J>,
    names: &[Name],
    tallies: &[NameTally],
    peers: &[PeerSlot],
    around: Surroundings<'_>,
) -> Result<Vec<TakeStatus>, AllocError>
    ensures names { IfOk result (λ takes. map take_name takes.items ≡ names.now) }
    ensures each { (first : List ℕ → Option (List ℕ)) (book : Book) →
        HoldsBook S.TakeStore J.Journal first server.now book →
        All (λ name. IsTrue (is_known book name)) names.now →
        IfOk result (λ takes. All (ShowsOf (λ name. is_some (first name)) book tallies.now peers.now
        around.entry) takes.items) }
{
    let mut takes = Vec::new(alloc);
    for name in names {
        takes.push(take_of(alloc, server, name, tallies, peers, around)?)?;
    }
    Ok(takes)
}

/// The names that a server knows, in the order of their bytes.
fn sorted_names<S: TakeStore, J: Journal>(
    alloc: Global,
    server: &Server<S, J>,
) -> Result<Vec<Name>, AllocError>
    ensures known { (first : List ℕ → Option (List ℕ)) (book : Book) →
        HoldsBook S.TakeStore J.Journal first server.now book →
        IfOk result (λ names. ListsNames (is_known book) names.items) }
    ensures in_order { IfOk result (λ names. IsSorted (slice_cmp nat_cmp) names.items) }
{
    let mut names = server.known_names(alloc)?;
    names.sort()?;
    Ok(names)
}

/// What is shown of a take.
fn take_of<S: TakeStore, J: Journal>(
    alloc: Global,
    server: &Server<S, J>,
    name: &Name,
    tallies: &[NameTally],
    peers: &[PeerSlot],
    around: Surroundings<'_>,
) -> Result<TakeStatus, AllocError>
    ensures name { IfOk result (λ t. string_bytes t.name ≡ name.now) }
    ensures take { (first : List ℕ → Option (List ℕ)) (book : Book) →
        HoldsBook S.TakeStore J.Journal first server.now book → IsTrue (is_known book name.now) →
        IfOk result (ShowsTake (is_some (first name.now)) (log_of book name.now) tallies.now
        peers.now around.entry name.now) }
{
    let format = format_of(server, name);
    let frames = server.frames(name).unwrap_or(0);
    let (refused, delayed) = replied_of(tallies, name);
    Ok(TakeStatus {
        name: text_of(alloc, name)?,
        state: state_for(server.is_taken(name), server.is_closed(name), &format),
        format,
        frames: if_format(&format, frames),
        ms: lasting_in(&format, frames),
        next: u64::from(server.done(name).unwrap_or(0)),
        held: server.held(name).unwrap_or(0) as u64,
        refused,
        delayed,
        quiet_ms: quiet_for(grown_at(around.growth, tallies, name), around.now),
        peer: peer_of(around.allow, peers, name),
    })
}

/// A name as text.
fn text_of(alloc: Global, name: &Name) -> Result<String, AllocError>
    ensures { IfOk result (λ text. string_bytes text ≡ name.now) }
{
    let Ok(text) = std::str::from_utf8(name.as_bytes()) else {
        // a name is ASCII, so this doesn't happen
        return Err(AllocError);
    };
    String::from_str(alloc, text)
}

/// The format of a name's take.
fn format_of<S: TakeStore, J: Journal>(server: &Server<S, J>, name: &Name) -> Option<SoundFormat>
    ensures { (first : List ℕ → Option (List ℕ)) (book : Book) →
        HoldsBook S.TakeStore J.Journal first server.now book → result ≡ option_map sound_of
        (take_of_log (is_some (first name.now)) (log_of book name.now)).format }
{
    let format = server.format(name)?;
    Some(SoundFormat {
        rate: format.rate(),
        channels: format.channels(),
        bits: format.bits(),
    })
}

/// The state of a take as it is shown.
fn state_for(is_taken: bool, is_closed: bool, format: &Option<SoundFormat>) -> ShownState
    ensures { result ≡ state_for is_taken is_closed (is_some format.now) }
{
    if is_taken {
        return ShownState::Stood;
    }
    if is_closed {
        return ShownState::Closed;
    }
    if format.is_some() {
        ShownState::Open
    } else {
        ShownState::Unopened
    }
}

/// This many frames, if there is a format.
fn if_format(format: &Option<SoundFormat>, frames: u64) -> Option<u64>
    ensures { result ≡ if_format format.now frames }
{
    match format {
        Some(_format) => Some(frames),
        None => None,
    }
}

/// How long so many frames last, in whole milliseconds, if there is a format.
fn lasting_in(format: &Option<SoundFormat>, frames: u64) -> Option<u64>
    ensures { result ≡ lasting_in format.now frames }
{
    match format {
        Some(format) => lasting(frames, format.rate),
        None => None,
    }
}

/// How long so many frames of this rate last, in whole milliseconds, if that is less than 2^64.
fn lasting(frames: u64, rate: u32) -> Option<u64>
    ensures { result ≡ lasting frames rate }
{
    if rate == 0 {
        return None;
    }
    u64::try_from(u128::from(frames) * 1000 / u128::from(rate)).ok()
}

/// How many messages of a name were refused, and how often the store failed.
fn replied_of(tallies: &[NameTally], name: &Name) -> (u64, u64)
    ensures { result ≡ replied_of name.now tallies.now }
{
    for tally in tallies {
        if is_of(tally, name) {
            return (tally.refused, tally.delayed);
        }
    }
    (0, 0)
}

/// How many milliseconds ago a name grew last, if it did.
fn quiet_for(grown: Option<u64>, now: u64) -> Option<u64>
    ensures { result ≡ option_map (λ at. now - at) grown }
{
    match grown {
        Some(at) => Some(now.saturating_sub(at)),
        None => None,
    }
}

/// The peer at the first place whose link has a message of a name among its first eight names, if the
/// name is taken from there.
fn peer_of(allow: &AllowList, peers: &[PeerSlot], name: &Name) -> Option<SocketAddr>
    ensures { result ≡ peer_of allow.now name.now peers.now }
{
    for peer in peers {
        if is_peer(allow, peer, name) {
            return Some(peer.address);
        }
    }
    None
}

/// Whether a name is among the first eight of a peer's link, and is taken from there.
fn is_peer(allow: &AllowList, peer: &PeerSlot, name: &Name) -> bool
    ensures { result ≡ is_peer_of allow.now name.now peer.now }
{
    has_sent(peer, name) && allow.allows(peer.address, name)
}

/// Whether a name is among the first eight of which messages came over a link.
fn has_sent(peer: &PeerSlot, name: &Name) -> bool
    ensures { result ≡ has_sent name.now peer.now }
{
    let name = name.as_bytes();
    let names = peer.link_stats.names();
    names.iter().any(|known| known.as_bytes() == name)
}
