//! What a take's file says before its data, and its bytes.
ghost use Rattle.std.specs.Prelude.{◌≡◌, ℕ, ◌+◌, ◌*◌, ◌%◌, ◌^◌, ◌<◌, ◌≤◌, length, vec_len};
ghost use Rattle.std.specs.Prelude.{vec_capacity};
ghost use Rattle.bw_model.specs.Bytes.{even_up};
ghost use Rattle.bw_model.specs.Limits.{largest, longest_history, most_markers};
ghost use Rattle.bw_model.specs.Layout.{chunk, pad};
ghost use Rattle.bw_model.specs.Take.{AreFields};
ghost use Rattle.bw_model.specs.File.{form_size as form_size_of, data_place, junk_chunk, fmt_chunk};
ghost use Rattle.bw_model.specs.File.{bext_chunk, header as header_bytes};
ghost use Rattle.bw_layout.specs.AppendedBytes.{Gains, Appends};
ghost use Rattle.bw_layout.specs.Headers.{middle, ds64, riff_header, bw64_header};

use crate::broadcast::{Bext, push_bext};
use crate::chunk::{ChunkId, push_head};
use crate::format::{Fmt, push_fmt};
use crate::limit::Limit;
use crate::push::{push_bytes, push_u32, push_u64};
use std::alloc::{AllocError, Global};

/// The placeholder for a 32-bit size that `ds64` gives (ITU-R BS.2088).
const UNSAID: u32 = 0xffff_ffff;

/// What a header says, without its sizes, and the largest form size with which it is RIFF.
#[derive(Clone, Copy)]
pub struct Heading<'a> {
    pub format: Fmt,
    pub bext: &'a Bext,
    /// The coding history, which follows the fields in `bext`.
    pub history: &'a [u8],
    pub limit: Limit,
    ghost widths: { AreFields bext.now },
    ghost short: { length history.now ≤ longest_history },
}

impl<'a> Heading<'a> {
    ghost use Rattle.bw_layout.specs.Headings.{header_of, place_of, fits_riff};

    /// A heading with these values. The history has at most 4,096 bytes.
    pub fn new(format: Fmt, bext: &'a Bext, history: &'a [u8], limit: Limit) -> Heading<'a>
        requires { length history.now ≤ longest_history }
        ensures format { result.format ≡ format }
        ensures bext { result.bext.now ≡ bext.now }
        ensures history { result.history.now ≡ history.now }
        ensures limit { result.limit ≡ limit }
    {
        Heading {
            format,
            bext: bext.as_wide(),
            history,
            limit,
        }
    }

    /// The same heading with these fields of `bext`.
    pub fn with_bext(&self, bext: &'a Bext) -> Heading<'a>
        ensures format { result.format ≡ self.now.format }
        ensures bext { result.bext.now ≡ bext.now }
        ensures history { result.history.now ≡ self.now.history.now }
        ensures limit { result.limit ≡ self.now.limit }
    {
        Heading::new(self.format, bext, self.history, self.limit)
    }

    /// Where the data begin: the length of the header in bytes. It is 690, plus the history with
    /// its pad byte.
    pub fn data_place(&self) -> u64
        ensures value { result ≡ place_of self.now }
        ensures low { 690 ≤ result }
        ensures high { result ≤ data_place longest_history }
    {
        let len = self.history.len() as u64;
        690 + len + len % 2
    }

    /// The form size in bytes for this much data, at most 2^62 bytes, and this many cue points, at
    /// most 1,024.
    pub fn form_size(&self, data_len: u64, cues: u64) -> u64
        requires samples { data_len ≤ largest }
        requires cues { cues ≤ most_markers }
        ensures value { result ≡ form_size_of (length self.now.history.now) data_len cues }
        ensures range { result < 2 ^ 63 }
    {
        form_size(self.history.len() as u64, data_len, cues)
    }

    /// Whether the file is RIFF then; the arguments have the same ranges as those of `form_size`.
    pub fn is_riff(&self, data_len: u64, cues: u64) -> bool
        requires samples { data_len ≤ largest }
        requires cues { cues ≤ most_markers }
        ensures { result ≡ fits_riff self.now data_len cues }
    {
        self.form_size(data_len, cues) <= self.limit.bytes()
    }

    /// Appends the header of a file with this much data, at most 2^62 bytes, and this many cue
    /// points, at most 1,024.
    ///
    /// # Errors
    /// `AllocError` if memory was refused, never if there is room: the bytes are as they
    /// were.
    ///
    /// # Not specified
    /// When memory is refused, and how much room is made beyond what is needed.
    #[tactic(auto, using(crate::proofs::HeaderKinds::header_riff, crate::proofs::HeaderKinds::header_bw64))]
    pub fn put(
        &self,
        _alloc: Global,
        out: &mut Vec<u8>,
        data_len: u64,
        cues: u64,
    ) -> Result<(), AllocError>
        requires samples { data_len ≤ largest }
        requires cues { cues ≤ most_markers }
        ensures { Appends (header_of self.now data_len cues) (place_of self.now)
            result out.old out.new }
    {
        out.reserve(self.data_place() as usize)?;
        let form = self.form_size(data_len, cues);
        if form <= self.limit.bytes() {
            self.push_riff(out, form as u32, data_len as u32);
        } else {
            self.push_bw64(out, form, data_len);
        }
        Ok(())
    }

    /// Appends a RIFF header: both sizes have four bytes.
    #[tactic(auto, using(std::proofs::lemmas::List::append_assoc), unfolding(crate::specs::Headers::riff_header))]
    fn push_riff(&self, out: &mut Vec<u8>, form: u32, data_len: u32)
        requires { vec_len out.old + place_of self.now ≤ vec_capacity out.old }
        ensures { let h = self.now in
            let bytes = riff_header h.format h.bext.now h.history.now form data_len in
            Gains bytes (place_of h) out.old out.new }
    {
        push_head(out, ChunkId(*b"RIFF"), form);
        push_bytes(out, b"WAVE");
        push_junk(out);
        self.push_middle(out);
        push_head(out, ChunkId(*b"data"), data_len);
    }

    /// Appends a BW64 header: both sizes are in `ds64`.
    #[tactic(auto, using(std::proofs::lemmas::List::append_assoc), unfolding(crate::specs::Headers::bw64_header))]
    fn push_bw64(&self, out: &mut Vec<u8>, form: u64, data_len: u64)
        requires { vec_len out.old + place_of self.now ≤ vec_capacity out.old }
        ensures { let h = self.now in
            let bytes = bw64_header h.format h.bext.now h.history.now form data_len in
            Gains bytes (place_of h) out.old out.new }
    {
        push_head(out, ChunkId(*b"BW64"), UNSAID);
        push_bytes(out, b"WAVE");
        push_ds64(out, form, data_len);
        self.push_middle(out);
        push_head(out, ChunkId(*b"data"), UNSAID);
    }

    /// Appends the chunks between the first one and the data.
    #[tactic(auto, using(std::proofs::lemmas::List::append_assoc), unfolding(crate::specs::Headers::middle))]
    fn push_middle(&self, out: &mut Vec<u8>)
        requires { vec_len out.old + 634 + even_up (length self.now.history.now)
            ≤ vec_capacity out.old }
        ensures { let h = self.now in
            let bytes = middle h.format h.bext.now h.history.now in
            Gains bytes (634 + even_up (length h.history.now)) out.old out.new }
    {
        push_fmt_chunk(out, &self.format);
        push_bext_chunk(out, self.bext, self.history);
    }
}

/// The form size of a take's file in bytes, from the lengths in bytes of its coding history and its
/// data, and its number of cue points. The history has at most 4,096 bytes, the data at most 2^62,
/// and there are at most 1,024 cue points.
///
/// The file is 8 bytes longer.
pub fn form_size(history_len: u64, data_len: u64, cues: u64) -> u64
    requires history { history_len ≤ longest_history }
    requires samples { data_len ≤ largest }
    requires cues { cues ≤ most_markers }
    ensures value { result ≡ form_size_of history_len data_len cues }
    ensures range { result < 2 ^ 63 }
{
    let cue = if cues == 0 { 0 } else { 12 + 24 * cues };
    682 + history_len + history_len % 2 + data_len + data_len % 2 + cue
}

/// Appends the bytes of a take's file before its data. The history has at most 4,096 bytes, the
/// data at most 2^62, and there are at most 1,024 cue points.
///
/// # Errors
/// `AllocError` if memory was refused, never if there is room: the bytes are as they were.
///
/// # Not specified
/// When memory is refused, and how much room is made beyond what is needed.
pub fn header(
    alloc: Global,
    out: &mut Vec<u8>,
    fmt: &Fmt,
    bext: &Bext,
    history: &[u8],
    data_len: u64,
    cues: u64,
    limit: Limit,
) -> Result<(), AllocError>
    requires history { length history.now ≤ longest_history }
    requires samples { data_len ≤ largest }
    requires cues { cues ≤ most_markers }
    ensures { let bytes = header_bytes fmt.now bext.now history.now data_len cues limit in
        Appends bytes (data_place (length history.now)) result out.old out.new }
{
    Heading::new(*fmt, bext, history, limit).put(alloc, out, data_len, cues)
}

/// Appends the chunk that reserves the space of `ds64`.
fn push_junk(out: &mut Vec<u8>)
    requires { vec_len out.old + 36 ≤ vec_capacity out.old }
    ensures { Gains (chunk junk_chunk) 36 out.old out.new }
{
    push_head(out, ChunkId(*b"JUNK"), 28);
    push_bytes(out, &[0; 28]);
}

/// Appends a `ds64` chunk without a table.
#[tactic(auto, using(std::proofs::lemmas::List::append_assoc), unfolding(crate::specs::Headers::ds64))]
fn push_ds64(out: &mut Vec<u8>, form: u64, data_len: u64)
    requires { vec_len out.old + 36 ≤ vec_capacity out.old }
    ensures { Gains (ds64 form data_len) 36 out.old out.new }
{
    push_head(out, ChunkId(*b"ds64"), 28);
    push_u64(out, form);
    push_u64(out, data_len);
    push_u64(out, 0);
    push_u32(out, 0);
}

#[tactic(auto, using(std::proofs::lemmas::List::append_assoc))]
fn push_fmt_chunk(out: &mut Vec<u8>, fmt: &Fmt)
    requires { vec_len out.old + 24 ≤ vec_capacity out.old }
    ensures { Gains (chunk (fmt_chunk fmt.now)) 24 out.old out.new }
{
    push_head(out, ChunkId(*b"fmt "), 16);
    push_fmt(out, fmt);
}

#[tactic(auto, using(std::proofs::lemmas::List::append_assoc))]
fn push_bext_chunk(out: &mut Vec<u8>, bext: &Bext, history: &[u8])
    requires history { length history.now ≤ longest_history }
    requires room { vec_len out.old + 610 + even_up (length history.now) ≤ vec_capacity out.old }
    ensures { let bytes = chunk (bext_chunk bext.now history.now) in
        Gains bytes (610 + even_up (length history.now)) out.old out.new }
{
    let size = 602 + history.len();
    push_head(out, ChunkId(*b"bext"), size as u32);
    push_bext(out, bext);
    push_bytes(out, history);
    push_pad(out, size);
}

/// Appends the zero byte that makes a length even.
fn push_pad(out: &mut Vec<u8>, len: usize)
    requires { vec_len out.old + len % 2 ≤ vec_capacity out.old }
    ensures { Gains (pad len) (len % 2) out.old out.new }
{
    if len % 2 == 1 {
        push_bytes(out, &[0]);
    }
}
