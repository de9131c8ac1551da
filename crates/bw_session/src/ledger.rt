//! What is kept of the numbers that are done.
ghost use Rattle.std.specs.Prelude.{◌≡◌, ◌+◌, ◌*◌, ◌%◌, IsTrue, ◌^◌, ◌<◌, ◌≤◌, ℕ, List, [], ◌∷◌, ◌++◌, length};
ghost use Rattle.std.specs.Prelude.{take, drop, vec_len, vec_capacity, slice_index_or, Some, OnOk};
ghost use Rattle.std.specs.Prelude.{max, ◌⊎◌, IsSome, IsOk, OnErr};
ghost use Rattle.std.specs.Str.{bytes_eq};
ghost use Rattle.bw_model.specs.Take.{Verdict as Judgement};
ghost use Rattle.bw_model.specs.Replies.{verdict_code, verdict_of as verdict_with_code};
ghost use Rattle.bw_model.specs.VerdictMeanings.{verdict_meaning};
ghost use Rattle.bw_journal.specs.Rows.{have_codes, row_count};
ghost use Rattle.bw_session.specs.Ledgers.{entries_in};

use bw_model::Verdict;
use std::alloc::{AllocError, Global};
use std::marker::Model;

/// How many bytes a digest has (SHA-256).
const DIGEST_LEN: usize = 32;

/// How many bytes a done number takes: its digest, then its verdict's code.
const ENTRY_LEN: usize = 33;

/// The digest and the verdict of each done number, from 0 on, in 33 bytes a number.
#[derive(Drop)]
pub(crate) struct Ledger {
    bytes: Vec<u8>,
}

impl Model for Ledger {
    ghost use Rattle.std.specs.Prelude.{◌-◌, ◌/◌, vec_capacity, length};
    ghost use Rattle.bw_session.specs.Ledgers.{Entries, entries_in, IsPacked};

    ghost Value = { Entries };

    ghost view = { λ l. record {
      outcomes = entries_in (length l.bytes.items / 33) l.bytes.items;
      room = (vec_capacity l.bytes - length l.bytes.items) / 33;
    } };

    ghost invariant = { λ l. IsPacked l.bytes.items };
}

impl Ledger {
    /// A ledger without numbers.
    pub(crate) fn new(alloc: Global) -> Ledger
        ensures { result.outcomes ≡ [] }
    {
        Ledger {
            bytes: Vec::new(alloc),
        }
    }

    /// A ledger of the numbers in a table, 33 bytes for each.
    pub(crate) fn resume(table: Vec<u8>) -> Ledger
        requires whole { length table.items % 33 ≡ 0 }
        requires coded { IsTrue (have_codes (row_count table.items) table.items) }
        ensures { result.outcomes ≡ entries_in (row_count table.items) table.items }
    {
        Ledger { bytes: table }
    }

    /// How many numbers are done.
    pub(crate) fn len(&self) -> usize
        ensures value { result ≡ length self.now.outcomes }
        ensures range { result < 2 ^ 58 }
    {
        self.bytes.len() / ENTRY_LEN
    }

    /// How many bytes they take.
    pub(crate) fn byte_count(&self) -> u64
        ensures { result ≡ 33 * length self.now.outcomes }
    {
        self.bytes.len() as u64
    }

    /// Makes room for `count` more. A growth leaves room for at least as many more as there are, so
    /// that the ledgers of long takes are not copied over and over.
    ///
    /// # Errors
    /// `AllocError` if the growth was refused.
    pub(crate) fn reserve(&mut self, count: usize) -> Result<(), AllocError>
        requires { count ≤ 16 }
        ensures outcomes { self.new.outcomes ≡ self.old.outcomes }
        ensures kept { self.old.room ≤ self.new.room }
        ensures ok { OnOk result (count ≤ self.new.room) }
        ensures most { self.new.room
            ≤ max self.old.room (max count (length self.old.outcomes)) }
        ensures err { OnErr result (self.new ≡ self.old) }
        ensures enough { count ≤ self.old.room → IsOk result }
        ensures grows { OnOk result ((self.new ≡ self.old)
            ⊎ (length self.old.outcomes ≤ self.new.room)) }
    {
        let wanted = ENTRY_LEN * count;
        if wanted <= self.bytes.capacity() - self.bytes.len() {
            return Ok(());
        }
        self.bytes.reserve_exact(wanted.max(self.bytes.len()))
    }

    /// Notes the next number as done, in room that was reserved.
    pub(crate) fn push(&mut self, digest: &[u8; 32], verdict: Verdict)
        requires { 1 ≤ self.old.room }
        ensures outcomes { self.new.outcomes ≡
            self.old.outcomes ++ (digest.now, verdict_meaning verdict) ∷ [] }
        ensures room { self.old.room ≤ self.new.room + 1 }
    {
        pack(&mut self.bytes, digest, verdict);
    }

    /// The verdict of a done number.
    pub(crate) fn verdict_at(&self, number: usize) -> Verdict
        requires { number < length self.now.outcomes }
        ensures { (d : List ℕ × Judgement) →
            verdict_meaning result ≡ (slice_index_or self.now.outcomes number d).1 }
    {
        verdict_with(self.bytes[ENTRY_LEN * number + DIGEST_LEN])
    }

    /// Whether a done number's body has this digest.
    pub(crate) fn has_digest(&self, number: usize, digest: &[u8; 32]) -> bool
        requires { number < length self.now.outcomes }
        ensures { (d : List ℕ × Judgement) →
            result ≡ bytes_eq (slice_index_or self.now.outcomes number d).0 digest.now }
    {
        digest_at(&self.bytes, number) == digest.as_slice()
    }
}

/// Appends a digest and a verdict's code, for which there is room.
fn pack(bytes: &mut Vec<u8>, digest: &[u8; 32], verdict: Verdict)
    requires { vec_len bytes.old + 33 ≤ vec_capacity bytes.old }
    ensures items { bytes.new.items ≡
        bytes.old.items ++ (digest.now ++ verdict_code (verdict_meaning verdict) ∷ []) }
    ensures len { vec_len bytes.new ≡ vec_len bytes.old + 33 }
    ensures capacity { vec_capacity bytes.old ≤ vec_capacity bytes.new }
{
    bytes.extend_from_slice(digest).unwrap();
    bytes.push(verdict.code()).unwrap();
}

/// The digest of a number.
fn digest_at(bytes: &[u8], number: usize) -> &[u8]
    requires { 33 * number + 33 ≤ length bytes.now }
    ensures { result.now ≡ take 32 (drop (33 * number) bytes.now) }
{
    let start = ENTRY_LEN * number;
    &bytes[start..start + DIGEST_LEN]
}

/// The verdict with this code, which is a verdict's.
fn verdict_with(code: u8) -> Verdict
    requires { IsSome (verdict_with_code code) }
    ensures { verdict_with_code code ≡ Some (verdict_meaning result) }
{
    match Verdict::try_from(code) {
        Ok(verdict) => verdict,
        Err(_) => unreachable!(),
    }
}
