//! The recording of a file without its samples, or its first fault.
ghost use Rattle.std.specs.Prelude.{◌≡◌, ℕ, List, ◌*◌, ◌+◌, ◌%◌, ◌==◌, ◌≤◌, nat_lt, None, Ok};
ghost use Rattle.std.specs.Prelude.{IfOk, IfErr};
ghost use Rattle.bw_model.specs.Limits.{longest_block};
ghost use Rattle.bw_model.specs.Reading.{entry_of};
ghost use Rattle.bw_model.specs.Take.{block_align};
ghost use Rattle.bw_model.specs.Bytes.{first_that_holds};
ghost use Rattle.bw_model.specs.Wire.{Second, last_number};
ghost use Rattle.bw_plan.specs.Faults.{recording_fault_meaning, found};
ghost use Rattle.bw_plan.specs.Notes.{notes_by, FaultOf};
ghost use Rattle.bw_plan.specs.Recordings.{set_outline, outline_of as outline_by_notes};
ghost use Rattle.bw_plan.specs.Recordings.{format_faults, faults_of_content, recorded_format};
ghost use Rattle.bw_plan.specs.Recordings.{head_place as place_of_head, request_count};
ghost use Rattle.bw_plan.specs.Recordings.{block_frames as frames_a_block};

use crate::fault::{RecordingFault, RecordingKind, fault_at};
use crate::format::format_fault;
use crate::kept::is_bext_kept;
use crate::options::Options;
use crate::outline::Outline;
use crate::unclean::{UncleanPart, unclean_bext};
use bw_inspect::{InspectKind, ListedChunk, Report};
use bw_layout::{ChunkId, Fmt, RawFmt};
use bw_model::LONGEST_BLOCK;
use std::alloc::{AllocError, Global};

/// A sender has the numbers 0 to 16,777,215.
const REQUESTS_MAX: u64 = 16_777_216;

/// The recording that a report gives without its samples, with `extension` of `fmt ` and `history`
/// of `bext`, as they are in the file.
///
/// # Errors
/// The first fault of the recording, at the place of its chunk; Unread(Memory) where memory was
/// refused.
///
/// # Not specified
/// When memory is refused.
pub fn outline_of(
    alloc: Global,
    report: &Report,
    extension: &[u8],
    history: &[u8],
    options: &Options,
) -> Result<Outline, RecordingFault>
    ensures ok { let notes = notes_by report.now extension.now history.now in
        IfOk result (λ r. outline_by_notes options.now notes ≡ Ok r) }
    ensures err { let notes = notes_by report.now extension.now history.now in
        IfErr result (λ f. FaultOf options.now notes f) }
{
    let place = head_place(report.chunks.as_slice(), ChunkId(*b"fmt "));
    let format = match checked_format(report.fmt, extension, place) {
        Ok(format) => format,
        Err(fault) => return Err(fault),
    };
    let outline = match made(alloc, report, format, history, options) {
        Ok(outline) => outline,
        Err(_) => return Err(fault_at(RecordingKind::Unread(InspectKind::Memory), place)),
    };
    match content_fault(report, history, options, &outline) {
        Some(fault) => Err(fault),
        None => Ok(outline),
    }
}

/// The format of a `fmt ` chunk whose head is at a place.
///
/// # Errors
/// Its first fault.
#[tactic(auto, using(crate::proofs::FaultLists::free_format))]
fn checked_format(fmt: RawFmt, extension: &[u8], place: u64) -> Result<Fmt, RecordingFault>
    ensures format { IfOk result (λ f. f ≡ recorded_format fmt) }
    ensures ok { IfOk result (λ f.
        first_that_holds (format_faults fmt extension.now place) ≡ None) }
    ensures err { IfErr result (λ f.
        recording_fault_meaning f ≡ first_that_holds (format_faults fmt extension.now place)) }
{
    if let Some(fault) = format_fault(fmt, extension, place) {
        return Err(fault);
    }
    match Fmt::new(fmt.rate, fmt.channels, fmt.bits) {
        Some(format) => Ok(format),
        None => Err(fault_at(RecordingKind::NotPcm, place)),
    }
}

/// The recording with what is set.
///
/// # Errors
/// `AllocError` where memory was refused.
fn made(
    alloc: Global,
    report: &Report,
    format: Fmt,
    history: &[u8],
    options: &Options,
) -> Result<Outline, AllocError>
    requires { format ≡ recorded_format report.now.fmt }
    ensures { IfOk result (λ r. (extension : List ℕ) →
        r ≡ set_outline options.now (notes_by report.now extension history.now)) }
{
    let mut outline = Outline::of_report(alloc, report, format, history)?;
    outline.apply(alloc, options.settings())?;
    Ok(outline)
}

/// The first fault of a recording whose format is allowed.
fn content_fault(
    report: &Report,
    history: &[u8],
    options: &Options,
    outline: &Outline,
) -> Option<RecordingFault>
    ensures { (extension : List ℕ) → let notes = notes_by report.now extension history.now in
        found result ≡ first_that_holds (faults_of_content options.now notes outline.now) }
{
    let chunks = report.chunks.as_slice();
    let data_head = head_place(chunks, ChunkId(*b"data"));
    if !has_whole_frames(report.data_size, outline.format()) {
        return Some(fault_at(RecordingKind::PartFrame, data_head));
    }
    if options.refuses_texts() && !is_bext_kept(&report.bext, history) {
        let place = head_place(chunks, ChunkId(*b"bext"));
        let part = unclean_bext(&report.bext, history);
        return Some(fault_at(RecordingKind::Unclean(part), place));
    }
    if options.refuses_texts() && outline.markers().len() < report.cues.as_slice().len() {
        let place = head_place(chunks, ChunkId(*b"cue "));
        return Some(fault_at(RecordingKind::Unclean(UncleanPart::Cues), place));
    }
    if is_too_long(outline, block_frames(options, outline.format())) {
        return Some(fault_at(RecordingKind::TooLong, data_head));
    }
    None
}

fn has_whole_frames(len: u64, format: Fmt) -> bool
    ensures { result ≡ (len % block_align format == 0) }
{
    len % u64::from(format.block_align()) == 0
}

/// The place of the head of the first chunk with an id, 0 where there is none.
fn head_place(chunks: &[ListedChunk], id: ChunkId) -> u64
    ensures { result ≡ place_of_head id chunks.now }
{
    match find_chunk(chunks, id) {
        Some(chunk) => chunk.place,
        None => 0,
    }
}

/// The first chunk with an id.
#[tactic(auto, using(crate::proofs::Entries::entry_from, crate::proofs::Entries::entry_end))]
pub(crate) fn find_chunk(chunks: &[ListedChunk], id: ChunkId) -> Option<ListedChunk>
    ensures { result ≡ entry_of id chunks.now }
{
    for (_i, chunk) in chunks.iter().enumerate() {
        if chunk.id.0 == id.0 {
            return Some(*chunk);
        }
    }
    None
}

/// How many frames a block has: as many as fit, or fewer where that is asked for, and at least one.
pub fn block_frames(options: &Options, format: Fmt) -> u32
    ensures value { result ≡ frames_a_block options.now format }
    ensures some { 1 ≤ result }
    ensures fits { result * block_align format ≤ longest_block }
{
    let most = LONGEST_BLOCK as u32 / u32::from(format.block_align());
    options.frames().unwrap_or(most).min(most).max(1)
}

/// Whether blocks of so many frames make more requests than a sender has numbers for.
pub(crate) fn is_too_long(outline: &Outline, frames: u32) -> bool
    requires { 1 ≤ frames }
    ensures { result ≡ nat_lt (last_number Second + 1) (request_count frames outline.now) }
{
    let size = u64::from(frames) * u64::from(outline.format().block_align());
    let blocks = outline.samples_len().div_ceil(size);
    let others = 2 + outline.values().count() as u64 + outline.markers().len() as u64;
    blocks > REQUESTS_MAX || blocks + others > REQUESTS_MAX
}
