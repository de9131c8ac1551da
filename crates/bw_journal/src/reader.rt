//! What a journal says about a take and its verdicts.
ghost use Rattle.std.specs.Prelude.{◌≡◌, ◌+◌, ◌^◌, ◌≤◌, ◌++◌, ◌∷◌, [], Ok, IsTrue};
ghost use Rattle.std.specs.Prelude.{IfSome, IsSome, IfOk, OnOk, IfErr, length, false};
ghost use Rattle.bw_model.specs.Bytes.{zeros as zero_bytes};
ghost use Rattle.bw_model.specs.Limits.{longest_block, largest};
ghost use Rattle.bw_model.specs.Take.{new_take, parts as parts_of_take};
ghost use Rattle.bw_model.specs.Replies.{verdict_code};
ghost use Rattle.bw_model.specs.Wire.{is_request};
ghost use Rattle.bw_model.specs.Requests.{meaning};
ghost use Rattle.bw_model.specs.VerdictMeanings.{verdict_meaning};
ghost use Rattle.bw_journal.specs.JournalHeaders.{header_len, is_header_of};
ghost use Rattle.bw_journal.specs.JournalHeaders.{first_header as first_header_in};
ghost use Rattle.bw_journal.specs.Replays.{OtherVerdict as other_verdict, replay as replay_of};
ghost use Rattle.bw_journal.specs.Replays.{replayed_entries};
ghost use Rattle.bw_journal.specs.Replays.{is_judged, parts_after, JournalFault};
ghost use Rattle.bw_journal.specs.Refs.{entry_said};
ghost use Rattle.bw_journal.specs.Stories.{story_of};
ghost use Rattle.bw_journal.specs.Faults.{IsJournalFault, fault_meaning};

use crate::entry::{ENTRY_MAX, EntryRef, entry_of};
use crate::fault::ReplayFault;
use crate::header::{JournalHeader, first_header, is_torn_header, names};
use crate::line::first_line;
use crate::seal::open;
use crate::story::Replayed;
use bw_layout::Limit;
use bw_model::{LONGEST_BLOCK, Name};
use bw_take::{TakeState, judge};
use std::alloc::{AllocError, Global};

/// Journals that are read have at most this many bytes.
pub const JOURNAL_MAX: usize = 1 << 40;

/// How many numbers a name has at most.
const NUMBERS: usize = 16_777_216;

// Every journal that a server writes is read.
const _: () = prove!(JournalHeader::LEN + NUMBERS * ENTRY_MAX <= JOURNAL_MAX);

/// What the journal of a name says to a server of this limit.
///
/// Its lines are read up to the first zero byte or the end; `torn` is how many bytes follow the last
/// of them. A line that isn't an entry is a fault.
///
/// The journal has at most 2^40 bytes.
///
/// # Errors
/// The first reason why it can't be replayed; `Memory` if memory was refused, never if there is no
/// header of this name and limit.
///
/// # Not specified
/// When memory is refused.
#[tactic(auto, unfolding(crate::specs::Replays::replay))]
pub fn replay(
    alloc: Global,
    limit: Limit,
    name: &Name,
    bytes: &[u8],
) -> Result<Replayed, ReplayFault>
    requires { length bytes.now ≤ 2 ^ 40 }
    // State and done numbers are what the bytes define.
    ensures ok { IfOk result (λ r. replay_of limit name.now bytes.now ≡ Ok (story_of r)) }
    ensures torn { IfOk result (λ r. r.used + r.torn ≡ length bytes.now) }
    ensures err { IfErr result (λ e. IsJournalFault e (replay_of limit name.now bytes.now)) }
    ensures header { is_header_of limit name.now (first_header_in bytes.now) ≡ false →
        IfErr result (λ e. IsSome (fault_meaning e)) }
{
    let Some(header) = first_header(bytes) else {
        return Err(if is_torn_header(limit, name, bytes) {
            ReplayFault::NotBegun
        } else {
            ReplayFault::NotAJournal
        });
    };
    if !names(&header.digest, name) {
        return Err(ReplayFault::OtherName);
    }
    if u64::from(header.limit) != limit.bytes() {
        return Err(ReplayFault::OtherLimit);
    }
    replay_entries(alloc, header.existed, bytes)
}

/// What the lines after a header say.
fn replay_entries(alloc: Global, existed: bool, bytes: &[u8]) -> Result<Replayed, ReplayFault>
    requires header { header_len ≤ length bytes.now }
    requires few { length bytes.now ≤ 2 ^ 40 }
    ensures ok { IfOk result (λ r. replayed_entries existed bytes.now ≡ Ok (story_of r)) }
    ensures torn { IfOk result (λ r. r.used + r.torn ≡ length bytes.now) }
    ensures err { IfErr result (λ e. IsJournalFault e (replayed_entries existed bytes.now)) }
{
    let zeros = make_zeros(alloc)?;
    let mut content = Vec::new(alloc);
    let mut state = unopened(alloc, existed);
    let mut table = Vec::new(alloc);
    let mut used = JournalHeader::LEN;
    for _step in 0..bytes.len() {
        let Some(line) = first_line(&bytes[used..]) else {
            let torn = bytes.len() - used;
            return Ok(Replayed {
                state,
                table,
                used,
                torn,
            });
        };
        if !open(line, &mut content)? {
            return Err(ReplayFault::Damaged);
        }
        let Some(entry) = entry_of(content.as_slice(), zeros.as_slice()) else {
            return Err(ReplayFault::NotAnEntry);
        };
        if let Err(fault) = apply(&mut state, &mut table, &entry) {
            return Err(fault);
        }
        used += line.len() + 1;
    }
    let torn = bytes.len() - used;
    Ok(Replayed {
        state,
        table,
        used,
        torn,
    })
}

/// As many zeros as a block has bytes at most.
fn make_zeros(alloc: Global) -> Result<Vec<u8>, AllocError>
    ensures { IfOk result (λ v. v.items ≡ zero_bytes longest_block) }
{
    let zeros = vec![in alloc; 0u8; LONGEST_BLOCK]?;
    Ok(zeros)
}

/// A take before any request.
fn unopened(alloc: Global, existed: bool) -> TakeState
    ensures { result.parts ≡ parts_of_take (new_take existed) }
{
    let mut state = TakeState::new(alloc);
    if existed {
        state.set_taken();
    }
    state
}

/// Adds an entry to what is known.
fn apply(
    state: &mut TakeState,
    table: &mut Vec<u8>,
    entry: &EntryRef<'_>,
) -> Result<(), ReplayFault>
    requires fits { IsTrue (is_request (meaning entry.now.request)) }
    requires samples { state.old.parts.samples_len + longest_block ≤ largest }
    ensures judged { OnOk result (IsTrue (is_judged state.old.parts (entry_said entry.now))) }
    ensures parts { OnOk result (state.new.parts ≡ parts_after state.old.parts
        (verdict_meaning entry.now.verdict) (meaning entry.now.request)) }
    ensures table { OnOk result (table.new.items ≡ table.old.items
        ++ (entry.now.digest.now ++ verdict_code (verdict_meaning entry.now.verdict) ∷ [])) }
    ensures samples { OnOk result
        (state.new.parts.samples_len ≤ state.old.parts.samples_len + longest_block) }
    ensures err { IfErr result (λ e. (f : JournalFault) → fault_meaning e ≡ Some f →
        (f ≡ other_verdict) × (is_judged state.old.parts (entry_said entry.now) ≡ false)) }
{
    if judge(state, &entry.request).code() != entry.verdict.code() {
        return Err(ReplayFault::OtherVerdict);
    }
    table.extend_from_slice(entry.digest)?;
    table.push(entry.verdict.code())?;
    if entry.verdict.is_stored() {
        state.reserve_for(1)?;
        state.commit(&entry.request);
    }
    Ok(())
}
