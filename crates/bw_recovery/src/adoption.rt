//! What becomes of a take's file at a start, by what its journal says: no sample is read.
ghost use Rattle.std.specs.Prelude.{◌≡◌, ◌+◌, ◌≤◌, ◌<◌, ◌^◌, ◌||◌, ◌↔◌, ◌%◌, false};
ghost use Rattle.std.specs.Prelude.{if◌then◌else◌, List, ℕ, Option, Some, None, IsTrue};
ghost use Rattle.std.specs.Prelude.{IsSome, IsNone, IfOk, IfErr, IfSome, length, take};
ghost use Rattle.bw_model.specs.Limits.{largest, longest_history, most_markers};
ghost use Rattle.bw_model.specs.Take.{Format};
ghost use Rattle.bw_model.specs.File.{data_place as place_after, cues};
ghost use Rattle.bw_recovery.specs.Files.{data_end as end_of, file_len as len_of, header_by, file_fault};
ghost use Rattle.bw_recovery.specs.Files.{opened_fault as fault_of, is_unchanged, mended, file_after};
ghost use Rattle.bw_recovery.specs.Adoptions.{IsFileHeader, IsSeen, Sees, adopted, patched, shortened, DoesLeast, IsLeast};
ghost use Rattle.bw_recovery.specs.Adoptions.{SparesTake};
ghost use Rattle.bw_recovery.specs.declared.adoption.Adoption.TheVariants.{Keep, SetAside};

use crate::fault::FileFault;
use bw_layout::{Heading, Limit, form_size};
use bw_take::TakeState;
use std::alloc::{AllocError, Global};

/// What is read of a take's file.
#[derive(Clone, Copy)]
pub struct FileFacts<'a> {
    /// Its length in bytes.
    pub len: u64,
    /// Its bytes before the place of the samples, as many as are there.
    pub front: &'a [u8],
    /// The byte after its samples, if one is there.
    pub after: Option<u8>,
}

/// What the file of an open take lacks, in the order in which it is mended.
#[derive(Clone, Copy, Debug, PartialEq, Eq)]
pub struct Mending {
    /// The header is written over the bytes before the samples.
    pub header: bool,
    /// The file is cut to this length in bytes.
    pub cut: Option<u64>,
    /// A zero byte is appended.
    pub pad: bool,
}

/// What becomes of a take's file.
#[derive(Clone, Copy, Debug, PartialEq, Eq)]
pub enum Adoption {
    /// It is left as it is, or there is none.
    Keep,
    /// It is moved away, since its take isn't opened.
    SetAside,
    /// It is mended, since its take is open.
    Mend(Mending),
}

/// Where the samples of a take's file begin, in bytes: 4,786 at most.
pub fn data_place(state: &TakeState) -> u64
    ensures value { result ≡ place_after (length state.now.parts.history) }
    ensures range { result ≤ 4786 }
{
    let len = state.history().len() as u64;
    690 + len + len % 2
}

/// Where the samples of a take's file end, in bytes.
pub fn data_end(state: &TakeState) -> u64
    ensures value { result ≡ end_of state.now.parts }
    ensures range { result ≤ largest + 4786 }
{
    data_place(state) + state.data_len()
}

/// How many cue points the file has: those of a closed take.
fn cue_count(state: &TakeState) -> u64
    ensures value { result ≡ length (cues state.now.parts.closed state.now.parts.markers) }
    ensures range { result ≤ most_markers }
{
    if state.is_closed() {
        state.markers().len() as u64
    } else {
        0
    }
}

/// How many bytes a take's file has.
pub fn file_len(state: &TakeState) -> u64
    ensures value { result ≡ len_of state.now.parts }
    ensures range { result < 2 ^ 63 + 8 }
{
    8 + form_size(
        state.history().len() as u64,
        state.data_len(),
        cue_count(state),
    )
}

/// The bytes of the file of a take that is opened, before its samples.
///
/// # Errors
/// `AllocError` if memory was refused.
///
/// # Not specified
/// When memory is refused.
pub fn header_of(alloc: Global, state: &TakeState, limit: Limit) -> Result<Vec<u8>, AllocError>
    requires { IsSome state.now.parts.format }
    ensures { IfOk result (λ header. (f : Format) → state.now.parts.format ≡ Some f →
        IsFileHeader limit state.now.parts f header.items) }
{
    let format = state.format().unwrap();
    let heading = Heading::new(format, state.bext(), state.history(), limit);
    let mut header = Vec::new(alloc);
    heading.put(alloc, &mut header, state.data_len(), cue_count(state))?;
    Ok(header)
}

/// What becomes of a take's file, by what was read of it (`found`; None if there is no file). For a
/// take that is opened, `header` is that of `header_of`.
///
/// # Errors
/// What is wrong with the file.
pub fn judge_file(
    state: &TakeState,
    limit: Limit,
    header: &[u8],
    found: Option<FileFacts<'_>>,
) -> Result<Adoption, FileFault>
    requires { (f : Format) → state.now.parts.format ≡ Some f →
        IsFileHeader limit state.now.parts f header.now }
    ensures ok { (file : Option (List ℕ)) → Sees state.now.parts file found.entry →
        IfOk result (λ _. file_fault limit state.now.parts file ≡ None) }
    // Left as it is, set aside, or header, samples and pad byte, as the definitions say.
    ensures after { (file : Option (List ℕ)) → Sees state.now.parts file found.entry →
        IfOk result (λ a. adopted a header.now file ≡ file_after limit state.now.parts file) }
    // The first fault that the definitions have (Lost, Changed), and only then.
    ensures err { (file : Option (List ℕ)) → Sees state.now.parts file found.entry →
        IfErr result (λ e. file_fault limit state.now.parts file ≡ Some e) }
    // A file that existed before, and that of a closed take, is kept.
    ensures kept { IsTrue (state.now.parts.taken || state.now.parts.closed) →
        IfOk result (λ a. a ≡ Keep) }
    // Only what differs is written, and a file is cut only past its end.
    ensures least { (file : Option (List ℕ)) → Sees state.now.parts file found.entry →
        IfOk result (λ a. DoesLeast state.now.parts a header.now file) }
    // Neither the header nor a cut reaches the samples.
    ensures spares { IfOk result (λ a. SparesTake state.now.parts a header.now) }
{
    if state.is_taken() {
        return match found {
            Some(_) => Ok(Adoption::Keep),
            None => Err(FileFault::Lost),
        };
    }
    if state.format().is_none() {
        return Ok(judge_unopened(state, found.is_some()));
    }
    match found {
        Some(facts) => judge_opened(state, limit, header, &facts),
        None => Err(FileFault::Lost),
    }
}

/// What becomes of the file of a take that isn't opened.
fn judge_unopened(state: &TakeState, exists: bool) -> Adoption
    requires { state.now.parts.format ≡ None }
    ensures open { state.now.parts.closed ≡ false }
    ensures value { result ≡ (if exists then SetAside else Keep) }
    ensures spares { (header : List ℕ) → SparesTake state.now.parts result header }
{
    let _closed = state.is_closed();
    if exists {
        Adoption::SetAside
    } else {
        Adoption::Keep
    }
}

/// What becomes of the file of a take that is opened.
///
/// # Errors
/// What is wrong with the file.
fn judge_opened(
    state: &TakeState,
    limit: Limit,
    header: &[u8],
    facts: &FileFacts<'_>,
) -> Result<Adoption, FileFault>
    requires header { (f : Format) → state.now.parts.format ≡ Some f →
        IsFileHeader limit state.now.parts f header.now }
    requires opened { IsSome state.now.parts.format }
    ensures ok { (f : Format) (file : List ℕ) → state.now.parts.format ≡ Some f →
        IsSeen state.now.parts file facts.now →
        IfOk result (λ _. fault_of limit state.now.parts f file ≡ None) }
    ensures err { (f : Format) (file : List ℕ) → state.now.parts.format ≡ Some f →
        IsSeen state.now.parts file facts.now →
        IfErr result (λ e. fault_of limit state.now.parts f file ≡ Some e) }
    ensures closed { IsTrue state.now.parts.closed → IfOk result (λ a. a ≡ Keep) }
    ensures mended { (f : Format) (file : List ℕ) → state.now.parts.format ≡ Some f →
        IsSeen state.now.parts file facts.now → state.now.parts.closed ≡ false →
        IfOk result (λ a. adopted a header.now (Some file)
        ≡ Some (mended limit state.now.parts f file)) }
    ensures least { (file : List ℕ) → IsSeen state.now.parts file facts.now →
        IfOk result (λ a. DoesLeast state.now.parts a header.now (Some file)) }
    ensures spares { IfOk result (λ a. SparesTake state.now.parts a header.now) }
{
    let unchanged = facts.len == file_len(state) && facts.front == header;
    match opened_fault(state, facts.len, unchanged) {
        Some(fault) => Err(fault),
        None if state.is_closed() => Ok(Adoption::Keep),
        None => Ok(Adoption::Mend(least_mending(state, header, facts))),
    }
}

/// What is wrong with the file of a take that is opened.
#[tactic(auto, unfolding(crate::specs::Files::opened_fault))]
fn opened_fault(state: &TakeState, len: u64, unchanged: bool) -> Option<FileFault>
    ensures value { (limit : ℕ) (f : Format) (file : List ℕ) → len ≡ length file →
        unchanged ≡ is_unchanged limit state.now.parts f file →
        result ≡ fault_of limit state.now.parts f file }
    ensures long { IsNone result → end_of state.now.parts ≤ len }
{
    if len < data_end(state) {
        Some(FileFault::Lost)
    } else if state.is_closed() && !unchanged {
        Some(FileFault::Changed)
    } else {
        None
    }
}

/// What the file of an open take lacks, which has all samples.
fn least_mending(state: &TakeState, header: &[u8], facts: &FileFacts<'_>) -> Mending
    ensures mended { (limit : ℕ) (f : Format) (file : List ℕ) → IsSeen state.now.parts file facts.now →
        end_of state.now.parts ≤ length file → header.now ≡ header_by limit state.now.parts f →
        length header.now ≡ place_after (length state.now.parts.history) →
        patched result header.now file ≡ mended limit state.now.parts f file }
    ensures least { (file : List ℕ) → IsSeen state.now.parts file facts.now →
        IsLeast state.now.parts result header.now file }
    ensures cut { IfSome result.cut (λ len. end_of state.now.parts ≤ len) }
{
    let len = state.data_len();
    let kept = kept_len(data_end(state), is_padded(len, facts.after));
    Mending {
        header: facts.front != header,
        cut: cut(facts.len, kept),
        pad: lacks_pad(len, facts.after),
    }
}

/// Whether so many samples, in bytes, need a pad byte, and this is one.
fn is_padded(len: u64, after: Option<u8>) -> bool
    ensures { IsTrue result ↔ ((len % 2 ≡ 1) × (after ≡ Some 0)) }
{
    len % 2 == 1 && is_zero(after)
}

/// Whether so many samples, in bytes, need a pad byte, and this isn't one.
fn lacks_pad(len: u64, after: Option<u8>) -> bool
    ensures { IsTrue result ↔ ((len % 2 ≡ 1) × (after ≡ Some 0 → ⊥)) }
{
    len % 2 == 1 && !is_zero(after)
}

/// Whether this is a zero byte.
fn is_zero(byte: Option<u8>) -> bool
    ensures { IsTrue result ↔ (byte ≡ Some 0) }
{
    match byte {
        Some(value) => value == 0,
        None => false,
    }
}

/// How many bytes stay of a file whose samples end there.
fn kept_len(end: u64, padded: bool) -> u64
    requires { end < 2 ^ 63 }
    ensures { result ≡ end + (if padded then 1 else 0) }
{
    if padded { end + 1 } else { end }
}

/// Where a file of this length is cut to keep so many bytes, if it has more.
fn cut(len: u64, kept: u64) -> Option<u64>
    ensures value { (file : List ℕ) → len ≡ length file → shortened result file ≡ take kept file }
    ensures least { IfSome result (λ n. n < len) }
    ensures kept { IfSome result (λ n. n ≡ kept) }
{
    if len > kept { Some(kept) } else { None }
}
