//! Writing an entry.
ghost use Rattle.std.specs.Prelude.{◌≡◌, ◌+◌, ◌≤◌, ◌++◌, IsTrue, length, take, vec_len, vec_capacity};
ghost use Rattle.bw_model.specs.Limits.{longest_history};
ghost use Rattle.bw_model.specs.Wire.{is_request};
ghost use Rattle.bw_layout.specs.AppendedBytes.{Appends, Gains};
ghost use Rattle.bw_model.specs.Requests.{meaning};
ghost use Rattle.bw_model.specs.VerdictMeanings.{verdict_meaning};
ghost use Rattle.bw_journal.specs.Entries.{JournalEntry, noted as noted_of, noted_payload};
ghost use Rattle.bw_journal.specs.Entries.{content as content_of, sealed_entry, longest_entry};
ghost use Rattle.bw_journal.specs.Seals.{check as check_of};

use crate::seal::{check, push, stuff_from};
use bw_model::{RequestRef, Verdict};
use bw_wire::{kind, put_payload};
use std::alloc::{AllocError, Global};

/// Appends the entry of a done number: for a block its length, and not its samples.
///
/// The request must be one that a message may carry; the entry has at most 8,297 bytes.
///
/// # Errors
/// `AllocError` if memory was refused, never if there is room: the bytes are as they were.
///
/// # Not specified
/// When memory is refused, and how much room is made beyond what is needed.
pub fn put_entry(
    _alloc: Global,
    out: &mut Vec<u8>,
    verdict: Verdict,
    digest: &[u8; 32],
    request: &RequestRef<'_>,
) -> Result<(), AllocError>
    requires { IsTrue (is_request (meaning request.now)) }
    ensures entry { let e : JournalEntry = record {
      request = meaning request.now;
      verdict = verdict_meaning verdict;
      digest = digest.now;
    } in
        Appends (sealed_entry e) (length (sealed_entry e)) result out.old out.new }
    ensures short { let e : JournalEntry = record {
      request = meaning request.now;
      verdict = verdict_meaning verdict;
      digest = digest.now;
    } in
        length (sealed_entry e) ≤ longest_entry }
{
    let start = out.len();
    out.reserve(41 + noted_len(request))?;
    push_checked(out, verdict, digest, request);
    if stuff_from(out, start).is_err() {
        out.truncate(start);
        return Err(AllocError);
    }
    Ok(())
}

/// Appends an entry's content and its check; there is room for them.
fn push_checked(out: &mut Vec<u8>, verdict: Verdict, digest: &[u8; 32], request: &RequestRef<'_>)
    requires fits { IsTrue (is_request (meaning request.now)) }
    requires room { vec_len out.old + 41 + length (noted_of (meaning request.now))
        ≤ vec_capacity out.old }
    ensures { let e : JournalEntry = record {
      request = meaning request.now;
      verdict = verdict_meaning verdict;
      digest = digest.now;
    } in
        Gains (content_of e ++ check_of (content_of e))
        (41 + length (noted_of (meaning request.now))) out.old out.new }
{
    let start = out.len();
    push_content(out, verdict, digest, request);
    let check = check(&out[start..]);
    push(out, &check[..8]);
}

/// Appends an entry's content; there is room for it.
#[tactic(auto, unfolding(crate::specs::Entries::content))]
fn push_content(out: &mut Vec<u8>, verdict: Verdict, digest: &[u8; 32], request: &RequestRef<'_>)
    requires fits { IsTrue (is_request (meaning request.now)) }
    requires room { vec_len out.old + 33 + length (noted_of (meaning request.now))
        ≤ vec_capacity out.old }
    ensures { let e : JournalEntry = record {
      request = meaning request.now;
      verdict = verdict_meaning verdict;
      digest = digest.now;
    } in
        Gains (content_of e) (33 + length (noted_of (meaning request.now))) out.old out.new }
{
    push(out, &[verdict.code()]);
    push(out, digest);
    push(out, &[kind(request)]);
    push_payload(out, request);
}

/// How many bytes are noted of a request.
fn noted_len(request: &RequestRef<'_>) -> usize
    requires { IsTrue (is_request (meaning request.now)) }
    ensures value { result ≡ length (noted_of (meaning request.now)) }
    ensures range { result ≤ 11 + longest_history }
{
    match request {
        RequestRef::OpenTake { history, .. } => 11 + history.len(),
        RequestRef::Block { .. } => 5,
        RequestRef::Mark { .. } | RequestRef::CloseTake { .. } => 9,
        RequestRef::SetField { value, .. } => 2 + value.len(),
    }
}

/// Appends a request's payload, or for a block its length; there is room for it.
fn push_payload(out: &mut Vec<u8>, request: &RequestRef<'_>)
    requires fits { IsTrue (is_request (meaning request.now)) }
    requires room { vec_len out.old + length (noted_payload (meaning request.now))
        ≤ vec_capacity out.old }
    ensures { let bytes = noted_payload (meaning request.now) in
        Gains bytes (length bytes) out.old out.new }
{
    match *request {
        RequestRef::Block { bytes } => push(out, &(bytes.len() as u32).to_le_bytes()),
        RequestRef::OpenTake { .. }
        | RequestRef::Mark { .. }
        | RequestRef::SetField { .. }
        | RequestRef::CloseTake { .. } => put_payload(out, request).unwrap(),
    }
}
