//! Where a state is, and what it says.
ghost use Rattle.std.specs.Prelude.{◌≡◌, ◌≤◌, ◌⊎◌, true, false, IfOk, OnOk, OnErr, take};
ghost use Rattle.bw_stream.specs.Moves.{one_more};
ghost use Rattle.bw_stream.specs.Readers.{Of};
ghost use Rattle.bw_plan.specs.CleanedContents.{are_zero as are_bytes_zero};
ghost use Rattle.bw_ports.specs.Counts.{most_settled};
ghost use Rattle.bw_send_file.specs.FoundCounts.{IsStateFound, SaysOfTake, may_begin_state, most_bytes};
ghost use Rattle.bw_send_file.specs.FoundCounts.{ends_line as is_line_ended};

use bw_ports::{StateFiles, settled_in};
use std::io::{self, ErrorKind};

/// The most bytes of a state that are read: the lines of a day.
const MOST_BYTES: usize = 16_777_216;

/// The first word of a state, and the space after it.
const BEGINNING: &[u8] = b"bwingest-state-1 ";

/// Where a sender's state is, and of which server it is.
#[derive(Clone, Copy)]
pub struct StatePlace<'a> {
    /// The path of its file.
    pub path: &'a str,
    /// Where the server listens.
    pub address: &'a str,
}

/// What was found at a state's path.
#[derive(Clone, Copy, Debug, PartialEq, Eq)]
pub(crate) struct Found {
    /// How many requests are settled by it; 0 if it says nothing of this take.
    pub(crate) count: u32,
    /// It is of this take, ends with a whole line, and isn't too long: counts can be written after
    /// it.
    pub(crate) is_whole: bool,
    /// The file has bytes, but not the state of this take.
    pub(crate) is_other: bool,
}

/// What the file at a path says for this header.
///
/// # Errors
/// If the system failed; `InvalidData` for a file that is no state, so that none is lost by a wrong
/// path.
pub(crate) fn find_count<B: StateFiles>(
    states: &mut B,
    path: &str,
    header: &[u8],
) -> io::Result<Found>
    ensures found { IfOk result (λ found.
        IsStateFound (B.state_at states.old path.now) header.now found) }
    ensures range { IfOk result (λ found. found.count ≤ most_settled) }
    ensures kept { B.state_at states.new ≡ B.state_at states.old }
    ensures count { OnOk result (B.failures states.new ≡ B.failures states.old) }
    ensures err { OnErr result ((B.failures states.new ≡ one_more (B.failures states.old))
        ⊎ ((B.failures states.new ≡ B.failures states.old)
        × Of (B.state_at states.old path.now) (λ xs. may_begin_state (take most_bytes xs) ≡ false))) }
{
    let bytes = states.read(path, MOST_BYTES)?;
    if !may_be_state(bytes.as_slice()) {
        return Err(io::Error::from(ErrorKind::InvalidData));
    }
    Ok(found_in(header, bytes.as_slice()))
}

/// Whether these may be the first bytes of a state: they begin as one does, are cut before that, or
/// are all zero, as a loss of power may leave them.
fn may_be_state(bytes: &[u8]) -> bool
    ensures { result ≡ may_begin_state bytes.now }
{
    bytes.starts_with(BEGINNING) || BEGINNING.starts_with(bytes) || are_zero(bytes)
}

fn are_zero(bytes: &[u8]) -> bool
    ensures { result ≡ are_bytes_zero bytes.now }
{
    bytes.iter().all(|b| *b == 0)
}

/// What a state's first bytes say for this header.
fn found_in(header: &[u8], bytes: &[u8]) -> Found
    ensures says { SaysOfTake header.now bytes.now result }
    ensures range { result.count ≤ most_settled }
{
    match settled_in(header, bytes) {
        Some(count) => Found {
            count,
            is_whole: bytes.len() < MOST_BYTES && ends_line(bytes),
            is_other: false,
        },
        None => Found {
            count: 0,
            is_whole: false,
            is_other: !bytes.is_empty(),
        },
    }
}

/// Whether the last of these bytes ends a line.
fn ends_line(bytes: &[u8]) -> bool
    ensures { result ≡ is_line_ended bytes.now }
{
    !bytes.is_empty() && bytes[bytes.len() - 1] == b'\n'
}
