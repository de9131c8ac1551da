//! The lines of what happens at a server.
ghost use Rattle.std.specs.Prelude.{◌≡◌, ◌++◌, ◌<◌, ◌≤◌, ◌+◌, ◌%◌, IfOk, OnOk, codes, decimal};
ghost use Rattle.bw_operators.specs.EventLines.{begun_line, take_closed_line, in_thousandths, take_opened_line};
ghost use Rattle.bw_operators.specs.EventLines.{peer_refused_line, take_refused_line, started_line, verdict_text};
ghost use Rattle.bw_operators.specs.Times.{last_three};
ghost use Rattle.bw_model.specs.VerdictMeanings.{verdict_meaning};

use bw_model::{Name, Verdict};
use itoa::Buffer;
use std::alloc::{AllocError, Global};
use std::net::SocketAddr;

/// The line of a server that listens at an address, over a folder.
///
/// # Errors
/// `AllocError` if memory was refused.
///
/// # Not specified
/// When memory is refused.
pub fn started_line(alloc: Global, address: SocketAddr, folder: &str) -> Result<Vec<u8>, AllocError>
    ensures { IfOk result (λ line. line.items ≡ started_line address folder.now) }
{
    let address = format!(in alloc; "{address}")?;
    let mut line = Vec::new(alloc);
    line.extend_from_slice(b"started ")?;
    line.extend_from_slice(address.as_bytes())?;
    line.extend_from_slice(b" folder ")?;
    line.extend_from_slice(folder.as_bytes())?;
    line.extend_from_slice(b"\n")?;
    Ok(line)
}

/// The line of a peer whose link begins.
///
/// # Errors
/// `AllocError` if memory was refused.
///
/// # Not specified
/// When memory is refused.
pub fn begun_line(alloc: Global, peer: SocketAddr) -> Result<Vec<u8>, AllocError>
    ensures { IfOk result (λ line. line.items ≡ begun_line peer) }
{
    let peer = format!(in alloc; "{peer}")?;
    let mut line = Vec::new(alloc);
    line.extend_from_slice(b"peer ")?;
    line.extend_from_slice(peer.as_bytes())?;
    line.extend_from_slice(b" begun\n")?;
    Ok(line)
}

/// The line of a peer from which messages under a name aren't taken.
///
/// # Errors
/// `AllocError` if memory was refused.
///
/// # Not specified
/// When memory is refused.
pub fn peer_refused_line(alloc: Global, peer: SocketAddr, name: &str) -> Result<Vec<u8>, AllocError>
    ensures { IfOk result (λ line. line.items ≡ peer_refused_line peer name.now) }
{
    let peer = format!(in alloc; "{peer}")?;
    let mut line = Vec::new(alloc);
    line.extend_from_slice(b"peer ")?;
    line.extend_from_slice(peer.as_bytes())?;
    line.extend_from_slice(b" refused ")?;
    line.extend_from_slice(name.as_bytes())?;
    line.extend_from_slice(b"\n")?;
    Ok(line)
}

/// The line of a take that was opened, or goes on with so many frames.
///
/// # Errors
/// `AllocError` if memory was refused.
///
/// # Not specified
/// When memory is refused.
pub fn take_opened_line(alloc: Global, name: &Name, frames: u64) -> Result<Vec<u8>, AllocError>
    ensures { IfOk result (λ line. line.items ≡ take_opened_line name.now frames) }
{
    let mut line = Vec::new(alloc);
    put_take(&mut line, name)?;
    line.extend_from_slice(b" opened frames ")?;
    put_number(&mut line, frames)?;
    line.extend_from_slice(b"\n")?;
    Ok(line)
}

/// The line of a take that was closed, of so many frames at a rate, and so many bytes of samples.
///
/// # Errors
/// `AllocError` if memory was refused.
///
/// # Not specified
/// When memory is refused.
pub fn take_closed_line(
    alloc: Global,
    name: &Name,
    frames: u64,
    rate: u32,
    bytes: u64,
) -> Result<Vec<u8>, AllocError>
    requires { 0 < rate }
    ensures { IfOk result (λ line. line.items ≡ take_closed_line name.now frames rate bytes) }
{
    let mut line = Vec::new(alloc);
    put_take(&mut line, name)?;
    line.extend_from_slice(b" closed frames ")?;
    put_number(&mut line, frames)?;
    line.extend_from_slice(b" seconds ")?;
    put_thousandths(&mut line, frames, u64::from(rate))?;
    line.extend_from_slice(b" MB ")?;
    put_thousandths(&mut line, bytes, 1_000_000)?;
    line.extend_from_slice(b"\n")?;
    Ok(line)
}

/// The line of a take's message that has this verdict, which doesn't store it.
///
/// # Errors
/// `AllocError` if memory was refused.
///
/// # Not specified
/// When memory is refused.
pub fn take_refused_line(
    alloc: Global,
    name: &Name,
    number: u32,
    verdict: Verdict,
) -> Result<Vec<u8>, AllocError>
    ensures { IfOk result (λ line.
        line.items ≡ take_refused_line name.now number (verdict_meaning verdict)) }
{
    let mut line = Vec::new(alloc);
    put_take(&mut line, name)?;
    line.extend_from_slice(b" refused ")?;
    put_number(&mut line, u64::from(number))?;
    line.extend_from_slice(b" ")?;
    line.extend_from_slice(verdict_text(verdict).as_bytes())?;
    line.extend_from_slice(b"\n")?;
    Ok(line)
}

/// Appends which take a line is about.
fn put_take(line: &mut Vec<u8>, name: &Name) -> Result<(), AllocError>
    ensures { OnOk result (line.new.items ≡ line.old.items ++ codes "take " ++ name.now) }
{
    line.extend_from_slice(b"take ")?;
    line.extend_from_slice(name.as_bytes())
}

/// Appends the decimal digits of a number.
fn put_number(line: &mut Vec<u8>, number: u64) -> Result<(), AllocError>
    ensures { OnOk result (line.new.items ≡ line.old.items ++ decimal number) }
{
    let mut digits = Buffer::new();
    line.extend_from_slice(digits.format(number).as_bytes())
}

/// Appends how often `all` is in a number, with three decimals that are rounded down.
fn put_thousandths(line: &mut Vec<u8>, number: u64, all: u64) -> Result<(), AllocError>
    requires some { 0 < all }
    requires most { all ≤ 4_294_967_295 }
    ensures { OnOk result (line.new.items ≡ line.old.items ++ in_thousandths number all) }
{
    put_number(line, number / all)?;
    line.extend_from_slice(b".")?;
    let part = number % all * 1000 / all;
    line.extend_from_slice(&[digit(part / 100), digit(part / 10), digit(part)])
}

/// The last digit of a number.
fn digit(number: u64) -> u8
    ensures { result ≡ 48 + number % 10 }
{
    b'0' + (number % 10) as u8
}

fn verdict_text(verdict: Verdict) -> &'static str
    ensures { result.now ≡ verdict_text (verdict_meaning verdict) }
{
    match verdict {
        Verdict::Stored => "Stored",
        Verdict::NameTaken => "NameTaken",
        Verdict::AlreadyOpen => "AlreadyOpen",
        Verdict::NotOpen => "NotOpen",
        Verdict::Closed => "Closed",
        Verdict::BadFormat => "BadFormat",
        Verdict::BadBlock => "BadBlock",
        Verdict::BadMarker => "BadMarker",
        Verdict::DuplicateMarker => "DuplicateMarker",
        Verdict::TooManyMarkers => "TooManyMarkers",
        Verdict::BadField => "BadField",
        Verdict::WrongTotal => "WrongTotal",
    }
}
