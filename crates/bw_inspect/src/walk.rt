//! The walk over the chunks of a form.
ghost use Rattle.std.specs.Prelude.{◌≡◌, ◌+◌, ◌-◌, ◌^◌, ◌≤◌, ◌<◌, ◌∷◌, ◌++◌, [], IsTrue, length};
ghost use Rattle.std.specs.Prelude.{IfOk, IfErr, OnOk};
ghost use Rattle.bw_model.specs.Limits.{largest};
ghost use Rattle.bw_model.specs.Bytes.{even_up};
ghost use Rattle.bw_inspect.specs.ReaderCalls.{Consumes, longest_end};
ghost use Rattle.bw_inspect.specs.Faults.{is_of_bytes};
ghost use Rattle.bw_inspect.specs.Places.{AtPlace, IsMissed};
ghost use Rattle.bw_inspect.specs.Known.{facts_of, has_kind, nothing};
ghost use Rattle.bw_inspect.specs.Contents.{InContent, IsEndOf, IsStoppedIn};
ghost use Rattle.bw_inspect.specs.Walks.{Goes, GrowsByOne, IsFaulted, IsHead, IsPassedOver};
ghost use Rattle.bw_inspect.specs.Walks.{IsSmall, OnWalk, form_by, seen_by};

use crate::chunk::{ChunkKind, checked_size, kind_by_id};
use crate::content::read_content;
use crate::fault::{InspectFault, InspectKind, fault_at};
use crate::places::{read_at, skip_pad};
use crate::report::{BextChunk, Cues, ListedChunk};
use crate::reported_sizes::size_reported;
use bw_layout::{ChunkHead, ChunkId, Ds64, RawFmt, read_head};
use bw_stream::Source;
use std::alloc::Global;

/// The most chunks that are listed.
const MOST_CHUNKS: usize = 4_096;

/// The outer header.
#[derive(Drop)]
pub(crate) struct Form {
    pub(crate) id: ChunkId,
    pub(crate) size: u64,
    /// What `ds64` says, in BW64 and RF64.
    pub(crate) sizes: Option<Ds64>,
}

/// Where the samples are, in bytes from the file's start, and how many bytes they are.
#[derive(Clone, Copy, Drop)]
pub(crate) struct Samples {
    pub(crate) at: u64,
    pub(crate) size: u64,
}

/// What is known from the chunks so far.
#[derive(Drop)]
pub(crate) struct Known {
    pub(crate) fmt: Option<RawFmt>,
    pub(crate) samples: Option<Samples>,
    pub(crate) bext: Option<BextChunk>,
    pub(crate) cues: Option<Cues>,
}

/// The chunks so far, what they say, and where the next head would be.
#[derive(Drop)]
pub(crate) struct Walk {
    pub(crate) place: u64,
    pub(crate) chunks: Vec<ListedChunk>,
    pub(crate) known: Known,
}

/// A walk before the first chunk.
pub(crate) fn begin(alloc: Global) -> Walk
    ensures place { result.place ≡ 12 }
    ensures chunks { result.chunks.items ≡ [] }
    ensures known { facts_of result.known ≡ nothing }
    ensures small { IsSmall result }
{
    Walk {
        place: 12,
        chunks: Vec::new(alloc),
        known: Known {
            fmt: None,
            samples: None,
            bext: None,
            cues: None,
        },
    }
}

/// Reads one more chunk, if the form has room for its head, and returns whether it did.
///
/// # Errors
/// The first fault of the chunk, at its place; Read; Memory.
pub(crate) fn next_chunk<R: Source>(
    alloc: Global,
    reader: &mut R,
    form: &Form,
    walk: &mut Walk,
) -> Result<bool, InspectFault>
    requires small { form.now.size ≤ largest }
    requires place { walk.old.place ≤ form.now.size + 9 }
    ensures consumed { Consumes R.Source (8 + form.now.size - walk.old.place)
        result reader.old reader.new }
    ensures passed { OnOk result (
        R.moved reader.new + walk.old.place ≤ R.moved reader.old + walk.new.place) }
    ensures place { OnOk result (walk.new.place ≤ form.now.size + 9) }
    ensures grows { IfOk result (λ more.
        IsTrue more → GrowsByOne (seen_by walk.old) (seen_by walk.new)) }
    ensures few { OnOk result (IsSmall walk.old → IsSmall walk.new) }
    ensures ok { IfOk result (λ more. OnWalk (form_by form.now) walk.old (R.left reader.old) (λ b.
        Goes b (form_by form.now) more walk.new (R.left reader.new))) }
    ensures err { IfErr result (λ f. OnWalk (form_by form.now) walk.old (R.left reader.old) (λ b.
        IsFaulted b (form_by form.now) (seen_by walk.old) f (R.left reader.new))) }
{
    let end = 8 + form.size;
    let place = walk.place;
    if place + 8 > end {
        return Ok(false);
    }
    if walk.chunks.len() >= MOST_CHUNKS {
        return Err(fault_at(InspectKind::TooMany, place));
    }
    let head = read_head_at(reader, place, fault_at(InspectKind::Truncated, place))?;
    let id = head.id;
    let kind = kind_by_id(id);
    let reported = size_reported(&form.sizes, id, head.size32);
    let size = checked_size(end, place, kind, was_seen(&walk.known, kind), reported)?;
    let entry = ListedChunk { id, place, size };
    read_content(alloc, reader, &mut walk.known, kind, entry)?;
    list_chunk(reader, end, walk, entry)?;
    Ok(true)
}

/// Reads the head of the chunk at a place.
///
/// # Errors
/// `cut` if the input ends before the head's end; Read.
pub(crate) fn read_head_at<R: Source>(
    reader: &mut R,
    place: u64,
    cut: InspectFault,
) -> Result<ChunkHead, InspectFault>
    requires room { place + 8 < 2 ^ 64 }
    requires cut { IsTrue (is_of_bytes cut.kind) }
    ensures consumed { Consumes R.Source 8 result reader.old reader.new }
    ensures ok { IfOk result (λ h. AtPlace (R.left reader.old) place (λ b.
        IsHead b place h (R.left reader.new))) }
    ensures err { IfErr result (λ f. AtPlace (R.left reader.old) place (λ b.
        IsMissed b place 8 cut f (R.left reader.new))) }
{
    let mut bytes = [0; 8];
    read_at(reader, place, &mut bytes, cut)?;
    let Ok(head) = read_head(&bytes) else {
        return Err(cut);
    };
    Ok(head)
}

/// Lists a chunk whose content was read; if the form has room for a further head, its pad byte
/// is passed over.
///
/// # Errors
/// Read; Memory.
pub(crate) fn list_chunk<R: Source>(
    reader: &mut R,
    end: u64,
    walk: &mut Walk,
    entry: ListedChunk,
) -> Result<(), InspectFault>
    requires end { end ≤ longest_end }
    requires within { entry.place + 8 + entry.size ≤ end }
    ensures consumed { Consumes R.Source (end - (entry.place + 8 + entry.size))
        result reader.old reader.new }
    ensures passed { OnOk result (
        R.moved reader.new + (entry.place + 8 + entry.size) ≤ R.moved reader.old + walk.new.place) }
    ensures known { OnOk result (walk.new.known ≡ walk.old.known) }
    ensures place { OnOk result (walk.new.place ≡ entry.place + 8 + even_up entry.size) }
    ensures chunks { OnOk result (walk.new.chunks.items ≡ walk.old.chunks.items ++ entry ∷ []) }
    ensures ok { OnOk result (InContent (R.left reader.old) entry entry.size (λ b.
        IsPassedOver b end entry (R.left reader.new))) }
    ensures err { IfErr result (λ f. InContent (R.left reader.old) entry entry.size (λ b.
        IsStoppedIn b (IsEndOf entry) [] entry f (R.left reader.new))) }
{
    let Ok(()) = walk.chunks.push(entry) else {
        return Err(fault_at(InspectKind::Memory, entry.place));
    };
    walk.place = entry.place + 8 + entry.size + entry.size % 2;
    if entry.size % 2 == 1 && walk.place + 8 <= end {
        skip_pad(reader, entry.place + 8 + entry.size)?;
    }
    Ok(())
}

/// Whether a chunk of a kind was seen, for the kinds that a file has once.
fn was_seen(known: &Known, kind: ChunkKind) -> bool
    ensures { result ≡ has_kind kind (facts_of known.now) }
{
    match kind {
        ChunkKind::Fmt => known.fmt.is_some(),
        ChunkKind::Bext => known.bext.is_some(),
        ChunkKind::Data => known.samples.is_some(),
        ChunkKind::Cue => known.cues.is_some(),
        ChunkKind::Other => false,
    }
}
