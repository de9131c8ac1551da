//! The lines of a report's text.
ghost use Rattle.std.specs.Prelude.{◌≡◌, ◌≤◌, ◌==◌, not, length, take_while};
ghost use Rattle.std.specs.List.{prefix_len};
ghost use Rattle.bw_model.specs.Report.{chunk_line, loudness_line, fmt_line, frames_of, cue_line};
ghost use Rattle.bw_inspect.specs.Lines.{form_line, data_line, text_line_of, bext_line, umid_line};

use crate::line::Line;
use crate::report::ListedChunk;
use bw_layout::{ChunkId, Loudness, RawCue, RawFmt};

/// The line of the form: its id and size.
pub fn make_form_line(id: &ChunkId, size: u64) -> Line
    ensures { result ≡ form_line id.now size }
{
    let mut line = Line::new();
    line.put(b"form ");
    line.put(&id.0);
    line.put(b" ");
    line.put_number(size);
    line.put(b"\n");
    line
}

/// The line of a chunk: its id, the offset of its head and the size of its content.
pub fn make_chunk_line(chunk: &ListedChunk) -> Line
    ensures { result ≡ chunk_line chunk.now }
{
    let mut line = Line::new();
    line.put(b"chunk ");
    line.put_id(&chunk.id.0);
    line.put(b" ");
    line.put_number(chunk.place);
    line.put(b" ");
    line.put_number(chunk.size);
    line.put(b"\n");
    line
}

/// The line of the `fmt ` chunk.
pub fn make_fmt_line(fmt: &RawFmt) -> Line
    ensures { result ≡ fmt_line fmt.now }
{
    let mut line = Line::new();
    line.put(b"fmt");
    line.put_number_field("tag", fmt.tag.into());
    line.put_number_field("channels", fmt.channels.into());
    line.put_number_field("rate", fmt.rate.into());
    line.put_number_field("bytes", fmt.bytes_per_second.into());
    line.put_number_field("align", fmt.align.into());
    line.put_number_field("bits", fmt.bits.into());
    line.put(b"\n");
    line
}

/// The line of the data: where they begin, how many bytes they are and how many whole frames.
pub fn make_data_line(place: u64, size: u64, fmt: &RawFmt) -> Line
    ensures { result ≡ data_line place size fmt.now.align }
{
    let mut line = Line::new();
    line.put(b"data");
    line.put_number_field("at", place);
    line.put_number_field("bytes", size);
    line.put_number_field("frames", whole_frames(size, fmt.align));
    line.put(b"\n");
    line
}

/// How many whole frames this many bytes are; 0 if a frame has no bytes.
fn whole_frames(size: u64, align: u16) -> u64
    ensures { result ≡ frames_of size align }
{
    size.checked_div(align.into()).unwrap_or(0)
}

/// The line of a `bext` chunk's version, time reference and the length of its coding history.
pub fn make_bext_line(version: u16, time: u64, history: u64) -> Line
    ensures { result ≡ bext_line version time history }
{
    let mut line = Line::new();
    line.put(b"bext");
    line.put_number_field("version", version.into());
    line.put_number_field("time", time);
    line.put_number_field("history", history);
    line.put(b"\n");
    line
}

/// The line of a text: a field's bytes before its first zero byte.
pub fn make_text_line(name: &str, field: &[u8]) -> Line
    requires name { length name.now ≤ 16 }
    requires field { length field.now ≤ 256 }
    ensures { result ≡ text_line_of name.now field.now }
{
    let mut line = Line::new();
    line.put(name.as_bytes());
    line.put(b"=");
    line.put_text(text_before_zero(field));
    line.put(b"\n");
    line
}

/// A field's bytes before its first zero byte.
fn text_before_zero(field: &[u8]) -> &[u8]
    ensures { result.now ≡ take_while (λ c. not (c == 0)) field.now }
{
    &field[..text_len(field)]
}

fn text_len(field: &[u8]) -> usize
    ensures value { result ≡ prefix_len (λ c. not (c == 0)) field.now }
    ensures within { result ≤ length field.now }
{
    field.iter().take_while(|c| **c != 0).count()
}

/// The line of a UMID (SMPTE 330M): its bytes as hex digits.
pub fn make_umid_line(umid: &[u8; 64]) -> Line
    ensures { result ≡ umid_line umid.now }
{
    let mut line = Line::new();
    line.put(b"umid=");
    line.put_hex(umid);
    line.put(b"\n");
    line
}

/// The line of the loudness: five signed numbers, `unset` for one that isn't given.
pub fn make_loudness_line(loudness: &Loudness) -> Line
    ensures { result ≡ loudness_line loudness.now }
{
    let mut line = Line::new();
    line.put(b"loudness value=");
    line.put_level(loudness.value);
    line.put(b" range=");
    line.put_level(loudness.range);
    line.put(b" peak=");
    line.put_level(loudness.max_true_peak);
    line.put(b" momentary=");
    line.put_level(loudness.max_momentary);
    line.put(b" short=");
    line.put_level(loudness.max_short_term);
    line.put(b"\n");
    line
}

/// The line of a cue point.
pub fn make_cue_line(cue: &RawCue) -> Line
    ensures { result ≡ cue_line cue.now }
{
    let mut line = Line::new();
    line.put(b"cue");
    line.put_number_field("id", cue.id.into());
    line.put_number_field("position", cue.position.into());
    line.put_number_field("offset", cue.offset.into());
    line.put(b"\n");
    line
}
