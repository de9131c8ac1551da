//! The judgement of a request on a take.
ghost use Rattle.std.specs.Prelude.{◌≡◌, ◌%◌, ◌==◌, Some, None, is_none, length};
ghost use Rattle.std.specs.List.{list_all, list_any};
ghost use Rattle.bw_model.specs.Take.{judge as verdict_on, judge_open as judged};
ghost use Rattle.bw_model.specs.Take.{is_history_byte as is_byte_of_history};
ghost use Rattle.bw_model.specs.Take.{block_align as block_align_of, field_fault, Format, Mark};
ghost use Rattle.bw_model.specs.Requests.{meaning};
ghost use Rattle.bw_model.specs.VerdictMeanings.{verdict_meaning};

use crate::state::TakeState;
use bw_layout::{CuePoint, Fmt};
use bw_model::{RequestRef, Verdict};

/// A take has at most this many markers.
const MARKERS_MAX: usize = 1024;

/// The verdict on a request: the first case that holds. No memory is allocated.
#[tactic(auto, unfolding(bw_model::specs::Take::judge))]
pub fn judge(state: &TakeState, request: &RequestRef<'_>) -> Verdict
    ensures { verdict_meaning result ≡ verdict_on state.now.parts (meaning request.now) }
{
    if state.is_closed() {
        return Verdict::Closed;
    }
    match state.format() {
        Some(format) => judge_opened(state, format, request),
        None => judge_unopened(state, request),
    }
}

/// The verdict if the take isn't open.
fn judge_unopened(state: &TakeState, request: &RequestRef<'_>) -> Verdict
    ensures { verdict_meaning result ≡ judged state.now.parts None (meaning request.now) }
{
    let RequestRef::OpenTake {
        rate,
        channels,
        bits,
        history,
    } = *request
    else {
        return Verdict::NotOpen;
    };
    if Fmt::new(rate, channels, bits).is_none() || !is_history(history) {
        Verdict::BadFormat
    } else if state.is_taken() {
        Verdict::NameTaken
    } else {
        Verdict::Stored
    }
}

/// The verdict if the take is open.
fn judge_opened(state: &TakeState, format: Fmt, request: &RequestRef<'_>) -> Verdict
    ensures { verdict_meaning result ≡ judged state.now.parts (Some format) (meaning request.now) }
{
    match *request {
        RequestRef::OpenTake { .. } => Verdict::AlreadyOpen,
        RequestRef::Block { bytes } if has_whole_frames(format, bytes) => Verdict::Stored,
        RequestRef::Block { .. } => Verdict::BadBlock,
        RequestRef::Mark { id, frame } => judge_mark(state, id, frame),
        RequestRef::SetField { tag, value } if can_set(state, tag, value) => Verdict::Stored,
        RequestRef::SetField { .. } => Verdict::BadField,
        RequestRef::CloseTake { frames } if frames == state.frames() => Verdict::Stored,
        RequestRef::CloseTake { .. } => Verdict::WrongTotal,
    }
}

/// Whether a block ends at the end of a frame.
fn has_whole_frames(format: Fmt, bytes: &[u8]) -> bool
    ensures { result ≡ (length bytes.now % block_align_of format == 0) }
{
    bytes.len() % usize::from(format.block_align()) == 0
}

/// The verdict on a marker if the take is open.
fn judge_mark(state: &TakeState, id: u32, frame: u32) -> Verdict
    ensures { (f : Format) → verdict_meaning result ≡ judged state.now.parts (Some f) (Mark id frame) }
{
    let markers = state.markers();
    if u64::from(frame) > state.frames() {
        Verdict::BadMarker
    } else if has_marker(markers, id) {
        Verdict::DuplicateMarker
    } else if markers.len() >= MARKERS_MAX {
        Verdict::TooManyMarkers
    } else {
        Verdict::Stored
    }
}

/// Whether a marker has this identifier.
fn has_marker(markers: &[CuePoint], id: u32) -> bool
    ensures { result ≡ list_any (λ m. m.0 == id) markers.now }
{
    markers.iter().any(|marker| marker.id == id)
}

/// Whether a field takes a value.
fn can_set(state: &TakeState, tag: u8, value: &[u8]) -> bool
    ensures { result ≡ is_none (field_fault tag value.now) }
{
    state.bext().copy().set(tag, value).is_ok()
}

fn is_history(bytes: &[u8]) -> bool
    ensures { result ≡ list_all is_byte_of_history bytes.now }
{
    bytes.iter().all(|c| is_history_byte(*c))
}

/// Carriage return, line feed, or printable.
fn is_history_byte(c: u8) -> bool
    ensures { result ≡ is_byte_of_history c }
{
    c == b'\r' || c == b'\n' || (32..=126).contains(&c)
}
