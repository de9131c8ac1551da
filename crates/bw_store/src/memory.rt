//! A store in memory.
ghost use Rattle.std.specs.Prelude.{◌≡◌, ◌≤◌, ◌<◌, ◌+◌, ◌^◌, ◌↔◌, ℕ, List, Some, None, IsSome};
ghost use Rattle.std.specs.Prelude.{IfSome, IsTrue, IsOk, IfOk, OnOk, OnErr, is_err, length};
ghost use Rattle.std.specs.Prelude.{slice_get, true};
ghost use Rattle.std.specs.Option.{option_copied};
ghost use Rattle.bw_store.specs.Stores.{Counts, Creates, Written, MayTear, KeepsOthers, overwritten};
ghost use Rattle.bw_store.specs.Memory.{content_under};

use crate::call_counter::CallCounter;
use crate::store::{Created, StoreFault, TakeStore};
use bw_model::Name;
use std::alloc::{AllocError, Global};
use std::collections::BTreeMap;

/// Takes in memory. A call fails if memory is refused, for a name that was never made, and if
/// bytes would end at 2^64 or later.
#[derive(Drop)]
pub struct MemoryStore {
    alloc: Global,
    files: BTreeMap<Name, Vec<u8>>,
    call_counter: CallCounter,
}

impl MemoryStore {
    ghost use Rattle.bw_store.specs.MemoryNames.{names_of, AreNames, memory_content};
    ghost use Rattle.bw_store.specs.MemoryNames.{memory_calls, memory_failures};

    /// An empty store.
    pub fn new(alloc: Global) -> MemoryStore
        ensures honest { IsTrue (⟦<MemoryStore as TakeStore>⟧.honest result) }
        ensures empty { (name : List ℕ) → ⟦<MemoryStore as TakeStore>⟧.contents result name ≡ None }
        ensures failures { ⟦<MemoryStore as TakeStore>⟧.failures result ≡ 0 }
        ensures calls { ⟦<MemoryStore as TakeStore>⟧.calls result ≡ 0 }
    {
        MemoryStore {
            alloc,
            files: BTreeMap::new(alloc),
            call_counter: CallCounter::new(),
        }
    }

    /// Sets a name's content directly; no call of the store is counted.
    ///
    /// # Errors
    /// `AllocError` if memory was refused: nothing changed then.
    ///
    /// # Not specified
    /// When memory is refused.
    pub fn plant(&mut self, name: &Name, bytes: &[u8]) -> Result<(), AllocError>
        ensures ok { OnOk result (memory_content self.new name.now ≡ Some bytes.now) }
        ensures err { OnErr result
            (memory_content self.new name.now ≡ memory_content self.old name.now) }
        ensures others { KeepsOthers
            (memory_content self.old) (memory_content self.new) name.now }
        ensures calls { memory_calls self.new ≡ memory_calls self.old }
        ensures failures { memory_failures self.new ≡ memory_failures self.old }
    {
        let content = bytes.to_vec(self.alloc)?;
        match self.files.insert(name.copy(), content) {
            Ok(_) => Ok(()),
            Err(_) => Err(AllocError),
        }
    }

    /// The content of a name; None if the name isn't in the store.
    pub fn content(&self, name: &Name) -> Option<&[u8]>
        ensures { option_copied result ≡ ⟦<MemoryStore as TakeStore>⟧.contents self.now name.now }
    {
        match self.files.get(name) {
            Some(content) => Some(content.as_slice()),
            None => None,
        }
    }

    /// How many names are in the store.
    pub fn name_count(&self) -> usize
        ensures count { result ≡ length (names_of self.now) }
        ensures names { AreNames (names_of self.now) (memory_content self.now) }
    {
        self.files.keys().len()
    }

    /// The names in the store, by place from 0 on, in the order of their bytes; None after the
    /// last.
    pub fn name_at(&self, place: usize) -> Option<&Name>
        ensures name { option_copied result ≡ slice_get (names_of self.now) place }
        ensures names { AreNames (names_of self.now) (memory_content self.now) }
    {
        self.files.keys().nth(place)
    }
}

impl TakeStore for MemoryStore {
    ghost use Rattle.bw_store.specs.MemoryNames.{names_of, memory_content, memory_calls, memory_failures};

    ghost contents = { memory_content };

    ghost failures = { memory_failures };

    ghost calls = { memory_calls };

    ghost honest = { λ s. true };

    /// Makes the name, unless it is there.
    ///
    /// # Errors
    /// `StoreFault` if memory was refused, never if the name is there: contents are as they
    /// were.
    ///
    /// # Not specified
    /// When memory is refused.
    fn create(&mut self, name: &Name) -> Result<Created, StoreFault>
        ensures failures { Counts (memory_failures self.old) (memory_failures self.new) (is_err result) }
        ensures calls { Counts (memory_calls self.old) (memory_calls self.new) true }
        ensures created { IfOk result (λ c.
            Creates c (memory_content self.old name.now)
            (memory_content self.new name.now)) }
        ensures failed { OnErr result
            (memory_content self.new name.now ≡ memory_content self.old name.now) }
        ensures others { KeepsOthers
            (memory_content self.old) (memory_content self.new) name.now }
        ensures stands { IsSome (memory_content self.old name.now) → IsOk result }
    {
        let answer = make(&mut self.files, self.alloc, name);
        self.call_counter.count(answer.is_err());
        answer
    }

    /// Writes the bytes into the content of a name that is there.
    ///
    /// # Errors
    /// `StoreFault` if the name isn't there, the bytes would end at 2^64 or later, or memory was
    /// refused, never if the bytes only overwrite others: contents are as they were, not torn.
    ///
    /// # Not specified
    /// When memory is refused.
    fn write_at(&mut self, name: &Name, offset: u64, bytes: &[u8]) -> Result<(), StoreFault>
        ensures failures { Counts (memory_failures self.old) (memory_failures self.new) (is_err result) }
        ensures calls { Counts (memory_calls self.old) (memory_calls self.new) true }
        ensures written { OnOk result (Written (memory_content self.old name.now)
            offset bytes.now (memory_content self.new name.now)) }
        ensures failed { OnErr result
            (memory_content self.new name.now ≡ memory_content self.old name.now) }
        ensures others { KeepsOthers
            (memory_content self.old) (memory_content self.new) name.now }
        ensures over { IfSome (memory_content self.old name.now) (λ old.
            offset + length bytes.now ≤ length old → IsOk result) }
    {
        let answer = write(&mut self.files, name, offset, bytes);
        self.call_counter.count(answer.is_err());
        answer
    }

    /// Counts the call, and changes no contents.
    ///
    /// # Errors
    /// `StoreFault` if the name isn't there.
    fn finish(&mut self, name: &Name) -> Result<(), StoreFault>
        ensures failures { Counts (memory_failures self.old) (memory_failures self.new) (is_err result) }
        ensures calls { Counts (memory_calls self.old) (memory_calls self.new) true }
        ensures unchanged { (other : List ℕ) → memory_content self.new other ≡ memory_content self.old other }
        ensures names { names_of self.new ≡ names_of self.old }
        ensures stands { IsOk result ↔ IsSome (memory_content self.old name.now) }
    {
        let stands = self.files.contains_key(name);
        self.call_counter.count(!stands);
        if stands { Ok(()) } else { Err(StoreFault) }
    }
}

/// Overwrites bytes from an offset on, and appends past the end; a gap reads as zeros. The bytes
/// must end below 2^64.
///
/// # Errors
/// `AllocError` if memory was refused, never if the bytes only overwrite others. Nothing changed
/// then.
///
/// # Not specified
/// When memory is refused.
#[tactic(auto, using(crate::proofs::Bytes::overwritten_past))]
pub fn overwrite(content: &mut Vec<u8>, offset: u64, bytes: &[u8]) -> Result<(), AllocError>
    requires { offset + length bytes.now < 2 ^ 64 }
    ensures ok { OnOk result (content.new.items ≡ overwritten content.old.items offset bytes.now) }
    ensures err { OnErr result (content.new.items ≡ content.old.items) }
    ensures over { offset + length bytes.now ≤ length content.old.items → IsOk result }
{
    if bytes.is_empty() {
        return Ok(());
    }
    let start = offset as usize;
    let end = start + bytes.len();
    if end <= content.len() {
        copy_in(content, start, bytes);
        return Ok(());
    }
    content.reserve(end - content.len())?;
    content.resize(start, 0)?;
    content.extend_from_slice(bytes)?;
    Ok(())
}

/// Makes a file, unless it is there.
fn make(
    files: &mut BTreeMap<Name, Vec<u8>>,
    alloc: Global,
    name: &Name,
) -> Result<Created, StoreFault>
    ensures created { IfOk result
        (λ c. Creates c (content_under files.old name.now) (content_under files.new name.now)) }
    ensures failed { OnErr result
        (content_under files.new name.now ≡ content_under files.old name.now) }
    ensures others { KeepsOthers (content_under files.old) (content_under files.new) name.now }
    ensures stands { IsSome (content_under files.old name.now) → IsOk result }
{
    if files.contains_key(name) {
        return Ok(Created::Exists);
    }
    match files.insert(name.copy(), Vec::new(alloc)) {
        Ok(_) => Ok(Created::New),
        Err(_) => Err(StoreFault),
    }
}

/// Writes into a file, if it is there.
fn write(
    files: &mut BTreeMap<Name, Vec<u8>>,
    name: &Name,
    offset: u64,
    bytes: &[u8],
) -> Result<(), StoreFault>
    ensures written { OnOk result
        (Written (content_under files.old name.now) offset bytes.now
        (content_under files.new name.now)) }
    ensures failed { OnErr result
        (content_under files.new name.now ≡ content_under files.old name.now) }
    ensures others { KeepsOthers (content_under files.old) (content_under files.new) name.now }
    ensures over { IfSome (content_under files.old name.now) (λ old.
        offset + length bytes.now ≤ length old → IsOk result) }
{
    if offset > u64::MAX - bytes.len() as u64 {
        return Err(StoreFault);
    }
    match files.get_mut(name) {
        Some(content) => overwrite(content, offset, bytes).map_err(|_| StoreFault),
        None => Err(StoreFault),
    }
}

/// Overwrites as many bytes as are given.
fn copy_in(content: &mut [u8], start: usize, bytes: &[u8])
    requires { start + length bytes.now ≤ length content.old }
    ensures { content.new ≡ overwritten content.old start bytes.now }
{
    content[start..start + bytes.len()].copy_from_slice(bytes);
}
