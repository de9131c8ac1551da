//! What a server is doing, taken from its state.
ghost use Rattle.std.specs.Prelude.{◌≡◌, ℕ, List, Option, IfOk, is_some};
ghost use Rattle.bw_serve_status.specs.Takes.{ShowsTakes};
ghost use Rattle.std.specs.List.{list_any};
ghost use Rattle.bw_model.specs.Book.{Book};
ghost use Rattle.bw_serve_status.specs.Snapshots.{CopiesCounts, finds_place, health_of, is_idle};

use crate::counts::{end_counts, message_counts, notice_counts, verdict_counts};
use crate::growth::Growth;
use crate::name_tally::NAMES;
use crate::takes::takes_of;
use crate::tallied::Tallied;
use bw_operators::AllowList;
use bw_serve::RoundReport;
use bw_session::HasTable;
use bw_status::{Health, LeftOutName, Snapshot, TakeStatus};
use std::alloc::{AllocError, Global};

/// What isn't kept by the server.
#[derive(Clone, Copy)]
pub(crate) struct Surroundings<'a> {
    /// The time, in milliseconds since the start.
    pub(crate) now: u64,
    /// When the server was started, in seconds since 1970.
    pub(crate) since: u64,
    /// How many takes it resumed then; None without journals, where no name leaves the table.
    pub(crate) resumed: Option<u64>,
    /// How much memory the process uses, in bytes, if that is known.
    pub(crate) memory: Option<u64>,
    /// How many lines were left out.
    pub(crate) lines_dropped: u64,
    /// Whether the folder can be used.
    pub(crate) has_folder: bool,
    /// Whether the last call to begin a take succeeded.
    pub(crate) begins: bool,
    /// When each name grew last, at the place of its counts.
    pub(crate) growth: &'a [Growth],
    /// Which names may come from which addresses.
    pub(crate) allow: &'a AllowList,
}

/// What a server is doing at the end of a round, and that these names are left out.
///
/// # Errors
/// `AllocError` if memory was refused.
///
/// # Not specified
/// - When memory is refused.
/// - How the takes follow from the messages, after a turn over a store that isn't honest.
pub(crate) fn snapshot_of<T: HasTable>(
    alloc: Global,
    server: &Tallied<T>,
    round: &RoundReport<'_>,
    around: Surroundings<'_>,
    left_out: Vec<LeftOutName>,
) -> Result<Snapshot, AllocError>
    ensures left_out { IfOk result (λ s. s.left_out ≡ left_out) }
    ensures counts { IfOk result (CopiesCounts server.now.tallies round.now around.entry) }
    ensures takes { (first : List ℕ → Option (List ℕ)) (book : Book) →
        T.holds server.now.server first book →
        IfOk result (λ s. ShowsTakes (λ name. is_some (first name)) book server.now.tallies.names
        round.now.peers.now around.entry s.takes.items) }
{
    let tallies = server.tallies();
    let takes = takes_of(
        alloc,
        server.server().table(),
        tallies.names(),
        round.peers,
        around,
    )?;
    let health = health_of(takes.as_slice(), around);
    Ok(Snapshot {
        takes,
        left_out,
        since: around.since,
        uptime_ms: around.now,
        resumed: around.resumed.unwrap_or(0),
        connections: round.connections,
        places: round.places as u64,
        ended: round.ended,
        ended_by: end_counts(alloc, round.ended_by)?,
        turned_away: round.turned_away,
        bytes: tallies.bytes(),
        memory: around.memory,
        lines_dropped: around.lines_dropped,
        messages: message_counts(alloc, tallies.kinds())?,
        verdicts: verdict_counts(alloc, tallies.verdicts())?,
        notices: notice_counts(alloc, tallies.notices())?,
        health,
    })
}

/// Whether a server with these takes is well: new ones can begin.
pub(crate) fn health_of(takes: &[TakeStatus], around: Surroundings<'_>) -> Health
    ensures { result ≡ health_of takes.now around.entry }
{
    if !around.has_folder {
        return Health::Folder;
    }
    if !around.begins {
        return Health::Store;
    }
    if finds_place(takes, around.resumed.is_some()) {
        Health::Ready
    } else {
        Health::Full
    }
}

/// Whether a new name finds a place beside these takes, of which some may leave the table or none does.
fn finds_place(takes: &[TakeStatus], may_leave: bool) -> bool
    ensures { result ≡ finds_place may_leave takes.now }
{
    if takes.len() < NAMES {
        return true;
    }
    may_leave && has_idle(takes)
}

fn has_idle(takes: &[TakeStatus]) -> bool
    ensures { result ≡ list_any is_idle takes.now }
{
    takes.iter().any(|take| is_idle(take))
}

/// Whether nothing of a take waits, and a number of it is done.
fn is_idle(take: &TakeStatus) -> bool
    ensures { result ≡ is_idle take.now }
{
    take.held == 0 && 0 < take.next
}
