//! A journal in memory.
ghost use Rattle.std.specs.Prelude.{◌≡◌, ◌≤◌, ◌++◌, ◌∷◌, [], ℕ, List, Option, Some, None, IsTrue};
ghost use Rattle.std.specs.Prelude.{OnOk, OnErr, IsOk, is_err, option_map, length, take, true};
ghost use Rattle.std.specs.Prelude.{false};
ghost use Rattle.std.specs.Option.{option_copied};
ghost use Rattle.std.specs.Str.{bytes_eq};
ghost use Rattle.std.specs.List.{list_any};
ghost use Rattle.bw_model.specs.Counts.{Counts};
ghost use Rattle.bw_store.specs.Memory.{content_under as content_of};
ghost use Rattle.bw_store.specs.Stores.{KeepsOthers};
ghost use Rattle.bw_journal.specs.Notes.{BeginsWith, Starts, BeginsNotes, KeepsHeaders, IsShortOf};
ghost use Rattle.bw_journal.specs.Notes.{NotesOver, has_prefix};
ghost use Rattle.bw_journal.specs.JournalHeaders.{header_bytes};
ghost use Rattle.bw_journal.specs.MemoryHeaders.{header_for};

use crate::header::{JournalHeader, is_torn};
use crate::journal::Journal;
use bw_layout::Limit;
use bw_model::Name;
use bw_store::StoreFault;
use std::alloc::{AllocError, Global};
use std::collections::BTreeMap;

/// Journals in memory. A call fails if memory is refused; `begin` also if other bytes are there;
/// and `note` for a name without notes, or with fewer than `offset` bytes of them.
#[derive(Drop)]
pub struct MemoryJournal {
    alloc: Global,
    limit: Limit,
    existed: Vec<Name>,
    notes: BTreeMap<Name, Vec<u8>>,
    failures: u64,
}

impl MemoryJournal {
    ghost use Rattle.bw_journal.specs.MemoryJournals.{noted_in_memory, limit_in_memory};
    ghost use Rattle.bw_journal.specs.MemoryJournals.{existed_in_memory, failures_in_memory};

    /// No journals yet, for a server of this limit.
    pub fn new(alloc: Global, limit: Limit) -> MemoryJournal
        ensures honest { IsTrue (⟦<MemoryJournal as Journal>⟧.honest result) }
        ensures empty { (name : List ℕ) → ⟦<MemoryJournal as Journal>⟧.notes result name ≡ None }
        ensures headers { (name : List ℕ) → ⟦<MemoryJournal as Journal>⟧.header result name
            ≡ record { limit = limit; existed = false } }
        ensures failures { ⟦<MemoryJournal as Journal>⟧.failures result ≡ 0 }
    {
        MemoryJournal {
            alloc,
            limit,
            existed: Vec::new(alloc),
            notes: BTreeMap::new(alloc),
            failures: 0,
        }
    }

    /// Notes that a file of a name exists. That is no call of the journal.
    ///
    /// # Errors
    /// `AllocError` if memory was refused. Nothing changed then.
    ///
    /// # Not specified
    /// When memory is refused.
    pub fn set_existed(&mut self, name: &Name) -> Result<(), AllocError>
        ensures ok { OnOk result (existed_in_memory self.new
            ≡ existed_in_memory self.old ++ name.now ∷ []) }
        ensures err { OnErr result (existed_in_memory self.new ≡ existed_in_memory self.old) }
        ensures limit { limit_in_memory self.new ≡ limit_in_memory self.old }
        ensures notes { (other : List ℕ) → noted_in_memory self.new other
            ≡ noted_in_memory self.old other }
        ensures failures { failures_in_memory self.new ≡ failures_in_memory self.old }
    {
        match self.existed.push(name.copy()) {
            Ok(()) => Ok(()),
            Err(_) => Err(AllocError),
        }
    }

    /// Puts bytes under a name, in place of what was there. That is no call of the journal.
    ///
    /// # Errors
    /// `AllocError` if memory was refused: nothing changed then.
    ///
    /// # Not specified
    /// When memory is refused.
    pub fn plant(&mut self, name: &Name, bytes: &[u8]) -> Result<(), AllocError>
        ensures ok { OnOk result (noted_in_memory self.new name.now ≡ Some bytes.now) }
        ensures err { OnErr result
            (noted_in_memory self.new name.now ≡ noted_in_memory self.old name.now) }
        ensures others { KeepsOthers
            (noted_in_memory self.old) (noted_in_memory self.new) name.now }
        ensures limit { limit_in_memory self.new ≡ limit_in_memory self.old }
        ensures existed { existed_in_memory self.new ≡ existed_in_memory self.old }
        ensures failures { failures_in_memory self.new ≡ failures_in_memory self.old }
    {
        put(&mut self.notes, self.alloc, name, bytes)
    }

    /// What is noted under a name; None if nothing is.
    pub fn content(&self, name: &Name) -> Option<&[u8]>
        ensures { option_copied result ≡ ⟦<MemoryJournal as Journal>⟧.notes self.now name.now }
    {
        content_in(&self.notes, name)
    }
}

impl Journal for MemoryJournal {
    ghost use Rattle.bw_journal.specs.MemoryJournals.{noted_in_memory, failures_in_memory};

    ghost notes = { noted_in_memory };

    ghost header = { header_for };

    ghost failures = { failures_in_memory };

    ghost honest = { λ _. true };

    /// Writes the header if no more than a prefix of it is there.
    ///
    /// # Errors
    /// `StoreFault` if there are bytes that neither begin with the header nor are a prefix of it,
    /// or memory was refused, never if the header is there: the notes are as they were.
    ///
    /// # Not specified
    /// When memory is refused.
    fn begin(&mut self, name: &Name) -> Result<(), StoreFault>
        ensures failures { Counts (failures_in_memory self.old) (failures_in_memory self.new)
            (is_err result) }
        ensures headers { KeepsHeaders (header_for self.old) (header_for self.new) }
        ensures begun { OnOk result (BeginsNotes name.now (header_for self.old name.now)
            (noted_in_memory self.old name.now) (noted_in_memory self.new name.now)) }
        ensures failed { OnErr result
            (noted_in_memory self.new name.now ≡ noted_in_memory self.old name.now) }
        ensures stands { BeginsWith (header_bytes name.now (header_for self.old name.now))
            (noted_in_memory self.old name.now) → IsOk result }
        ensures others { KeepsOthers
            (noted_in_memory self.old) (noted_in_memory self.new) name.now }
    {
        let header = JournalHeader {
            limit: self.limit,
            existed: has_name(self.existed.as_slice(), name),
        };
        let answer = start(&mut self.notes, self.alloc, name, &header.to_bytes(name));
        count(&mut self.failures, answer.is_err());
        answer
    }

    /// Puts the bytes after the first `offset` ones, in place of whatever followed these.
    ///
    /// # Errors
    /// `StoreFault` if fewer than `offset` bytes are noted, or memory was refused: the notes are
    /// cut to `offset` bytes.
    ///
    /// # Not specified
    /// When memory is refused.
    fn note(&mut self, name: &Name, offset: u64, bytes: &[u8]) -> Result<(), StoreFault>
        ensures failures { Counts (failures_in_memory self.old) (failures_in_memory self.new)
            (is_err result) }
        ensures headers { KeepsHeaders (header_for self.old) (header_for self.new) }
        ensures over { OnOk result (NotesOver offset bytes.now
            (noted_in_memory self.old name.now) (noted_in_memory self.new name.now)) }
        ensures cut { OnErr result (noted_in_memory self.new name.now
            ≡ option_map (take offset) (noted_in_memory self.old name.now)) }
        ensures others { KeepsOthers
            (noted_in_memory self.old) (noted_in_memory self.new) name.now }
    {
        let answer = append(&mut self.notes, name, offset, bytes);
        count(&mut self.failures, answer.is_err());
        answer
    }
}

/// Adds one to the count if it happens, up to the last value.
pub(crate) fn count(counted: &mut u64, happens: bool)
    ensures { Counts counted.old counted.new happens }
{
    if happens {
        *counted = counted.saturating_add(1);
    }
}

/// Whether a name is among others.
fn has_name(names: &[Name], name: &Name) -> bool
    ensures { result ≡ list_any (λ x. bytes_eq x name.now) names.now }
{
    names.iter().any(|x| x == name)
}

/// The content of a name.
fn content_in<'a>(notes: &'a BTreeMap<Name, Vec<u8>>, name: &Name) -> Option<&'a [u8]>
    ensures { option_copied result ≡ content_of notes.now name.now }
{
    match notes.get(name) {
        Some(content) => Some(content.as_slice()),
        None => None,
    }
}

/// Puts bytes under a name, in place of what was there.
fn put(
    notes: &mut BTreeMap<Name, Vec<u8>>,
    alloc: Global,
    name: &Name,
    bytes: &[u8],
) -> Result<(), AllocError>
    ensures ok { OnOk result (content_of notes.new name.now ≡ Some bytes.now) }
    ensures err { OnErr result (content_of notes.new name.now ≡ content_of notes.old name.now) }
    ensures others { KeepsOthers (content_of notes.old) (content_of notes.new) name.now }
{
    let content = bytes.to_vec(alloc)?;
    match notes.insert(name.copy(), content) {
        Ok(_) => Ok(()),
        Err(_) => Err(AllocError),
    }
}

/// How much of a header a content begins with.
#[derive(Clone, Copy, Debug, PartialEq, Eq)]
enum Standing {
    /// All of it, whatever follows.
    Whole,
    /// Nothing, or a prefix that isn't all of it.
    Prefix,
    /// Other bytes.
    Other,
}

/// How much of a header a content begins with; no content counts as an empty one.
#[tactic(auto, using(crate::proofs::Starts::prefix_begins, crate::proofs::Starts::torn_short))]
fn compare(found: Option<&[u8]>, header: &[u8]) -> Standing
    ensures whole { result ≡ Standing.Whole → BeginsWith header.now (option_copied found.entry) }
    ensures prefix { result ≡ Standing.Prefix → IsShortOf header.now (option_copied found.entry) }
    ensures stands { BeginsWith header.now (option_copied found.entry) → result ≡ Standing.Whole }
{
    match found {
        None => Standing::Prefix,
        Some(content) => {
            if has_prefix_of(content, header) {
                Standing::Whole
            } else if is_torn(content, header) {
                Standing::Prefix
            } else {
                Standing::Other
            }
        }
    }
}

/// Whether a header is at the start of a content.
fn has_prefix_of(content: &[u8], header: &[u8]) -> bool
    ensures { result ≡ has_prefix header.now content.now }
{
    content.len() >= header.len() && &content[..header.len()] == header
}

/// Writes a header, unless it is there whole.
#[tactic(auto, using(crate::proofs::Starts::starts_whole, crate::proofs::Starts::starts_short))]
fn start(
    notes: &mut BTreeMap<Name, Vec<u8>>,
    alloc: Global,
    name: &Name,
    header: &[u8],
) -> Result<(), StoreFault>
    ensures begun { OnOk result (Starts header.now
        (content_of notes.old name.now) (content_of notes.new name.now)) }
    ensures failed { OnErr result
        (content_of notes.new name.now ≡ content_of notes.old name.now) }
    ensures stands { BeginsWith header.now (content_of notes.old name.now) → IsOk result }
    ensures others { KeepsOthers (content_of notes.old) (content_of notes.new) name.now }
{
    match compare(content_in(notes, name), header) {
        Standing::Whole => Ok(()),
        Standing::Other => Err(StoreFault),
        Standing::Prefix => put(notes, alloc, name, header).map_err(|_| StoreFault),
    }
}

/// Notes bytes after the first ones of a name's content, in place of what was there.
fn append(
    notes: &mut BTreeMap<Name, Vec<u8>>,
    name: &Name,
    offset: u64,
    bytes: &[u8],
) -> Result<(), StoreFault>
    ensures over { OnOk result (NotesOver offset bytes.now
        (content_of notes.old name.now) (content_of notes.new name.now)) }
    ensures cut { OnErr result (content_of notes.new name.now
        ≡ option_map (take offset) (content_of notes.old name.now)) }
    ensures others { KeepsOthers (content_of notes.old) (content_of notes.new) name.now }
{
    match notes.get_mut(name) {
        Some(content) => replace_tail(content, offset, bytes),
        None => Err(StoreFault),
    }
}

/// Puts bytes after the first ones of a content, in place of what was there.
fn replace_tail(content: &mut Vec<u8>, offset: u64, bytes: &[u8]) -> Result<(), StoreFault>
    ensures fits { OnOk result (offset ≤ length content.old.items) }
    ensures ok { OnOk result (content.new.items ≡ take offset content.old.items ++ bytes.now) }
    ensures err { OnErr result (content.new.items ≡ take offset content.old.items) }
{
    if offset > content.len() as u64 {
        return Err(StoreFault);
    }
    content.truncate(offset as usize);
    content.extend_from_slice(bytes).map_err(|_| StoreFault)
}
