//! What to do about a fault of a file, as a second line below that of the fault.
ghost use Rattle.std.specs.Prelude.{◌≡◌, ◌≤◌, length};
ghost use Rattle.bw_inspect.specs.Hints.{at_start as text_at_start, file_hint, form_hint, outer_hint};
ghost use Rattle.bw_inspect.specs.Hints.{format_line, named_hint, start_hint};

use crate::{InspectKind, OtherFormat};

/// The file begins as no WAVE file does.
const CONVERT: &str =
    "hint: no WAVE file: convert FLAC, AIFF, W64 and others: ffmpeg -i OLD -c:a pcm_s24le NEW.wav\n";

/// The file begins as one of these does.
const FLAC: &str = "hint: a FLAC file: convert it: ffmpeg -i OLD -c:a pcm_s24le NEW.wav\n";

const AIFF: &str = "hint: an AIFF file: convert it: ffmpeg -i OLD -c:a pcm_s24le NEW.wav\n";

const WAVE64: &str = "hint: a Wave64 file: convert it: ffmpeg -i OLD -c:a pcm_s24le NEW.wav\n";

/// Not one byte can be read.
const NO_BYTES: &str = "hint: nothing of it can be read: it may be a directory\n";

/// The sizes aren't those of the bytes.
const MEND: &str =
    "hint: its sizes are wrong, as where a recorder was cut off: see bwingest repair FILE\n";

/// The line that says what to do about a fault of this kind at a place of a file; an empty text
/// where nothing is known.
pub fn hint_of(kind: InspectKind, offset: u64) -> &'static str
    ensures value { result.now ≡ file_hint kind offset }
    ensures short { length result.now ≤ 100 }
{
    match kind {
        InspectKind::NotWave => hint_of_outer(offset),
        InspectKind::Truncated => MEND,
        InspectKind::NoSize => MEND,
        _ => hint_of_form(kind, offset),
    }
}

/// The same of a file whose first bytes name this other format, if any.
pub fn hint_of_start(kind: InspectKind, offset: u64, other: Option<OtherFormat>) -> &'static str
    ensures value { result.now ≡ start_hint kind offset other }
    ensures short { length result.now ≤ 100 }
{
    match other {
        Some(format) => hint_of_named(kind, offset, format),
        None => hint_of(kind, offset),
    }
}

fn hint_of_named(kind: InspectKind, offset: u64, format: OtherFormat) -> &'static str
    ensures value { result.now ≡ named_hint kind offset format }
    ensures short { length result.now ≤ 100 }
{
    match kind {
        InspectKind::NotWave => hint_of_format(format),
        _ => hint_of(kind, offset),
    }
}

/// The line that says what to do about a file of this format.
pub fn hint_of_format(format: OtherFormat) -> &'static str
    ensures value { result.now ≡ format_line format }
    ensures short { length result.now ≤ 100 }
{
    match format {
        OtherFormat::Flac => FLAC,
        OtherFormat::Aiff => AIFF,
        OtherFormat::Wave64 => WAVE64,
    }
}

/// The line of `hint_of` without what `repair` does, for `repair` itself.
pub fn hint_of_form(kind: InspectKind, offset: u64) -> &'static str
    ensures value { result.now ≡ form_hint kind offset }
    ensures short { length result.now ≤ 100 }
{
    match kind {
        InspectKind::NotWave => at_start(offset, CONVERT),
        InspectKind::Read => at_start(offset, NO_BYTES),
        _ => "",
    }
}

/// What to do about an outer header that isn't one: its size is at 4.
fn hint_of_outer(offset: u64) -> &'static str
    ensures value { result.now ≡ outer_hint offset }
    ensures short { length result.now ≤ 100 }
{
    if offset == 4 {
        MEND
    } else {
        at_start(offset, CONVERT)
    }
}

/// A text for the place 0, and none for another.
fn at_start(offset: u64, text: &'static str) -> &'static str
    ensures value { result.now ≡ text_at_start offset text.now }
    ensures short { length result.now ≤ length text.now }
{
    if offset == 0 { text } else { "" }
}
