//! The header of a WAVE file whose sizes may not be written yet.
ghost use Rattle.std.specs.Prelude.{◌≡◌, ◌≤◌, ◌+◌, ◌++◌, IfOk, OnOk, length};
ghost use Rattle.bw_live.specs.WaveHeaders.{chunks_to_data, data_search, has_ds64 as has_sizes, bare_header};
ghost use Rattle.bw_live.specs.WaveHeaders.{IsHeadWithin, is_wave};
ghost use Rattle.bw_live.specs.WaveHeaders.{most_header, said_in, search_from, wide_size_in};
ghost use Rattle.bw_model.specs.Limits.{most_chunks};

use bw_model::{read_id, read_u32, read_u64};
use std::alloc::{AllocError, Global};

/// The most bytes of a file that are looked at for where its samples begin.
pub const MOST_HEADER: usize = 1_048_576;

/// The most chunks that are passed over for it.
const MOST_CHUNKS: u32 = 4_096;

/// Where the first bytes of a file have the head of its `data` chunk.
#[derive(Clone, Copy, Debug, PartialEq, Eq)]
pub enum DataSearch {
    /// At this place, in bytes from the file's start.
    Found(u64),
    /// It isn't written yet, nor is all that comes before it.
    Unwritten,
    /// It is none of a WAVE file, or one with too many chunks before its samples.
    Other,
}

/// Finds the head of the `data` chunk in the first bytes of a RIFF, RF64 or BW64 file of type WAVE. The
/// sizes of the form and of the samples aren't looked at.
#[tactic(auto, unfolding(crate::specs::WaveHeaders::data_search))]
pub fn find_data(bytes: &[u8]) -> DataSearch
    requires { length bytes.now ≤ most_header }
    ensures value { result ≡ data_search bytes.now }
    ensures within { IsHeadWithin bytes.now result }
{
    if bytes.len() < 12 {
        return DataSearch::Unwritten;
    }
    if !is_wave(bytes) {
        return DataSearch::Other;
    }
    search(bytes)
}

/// Finds the head of the `data` chunk among the chunks that begin after the first 12 bytes.
fn search(bytes: &[u8]) -> DataSearch
    requires { length bytes.now ≤ most_header }
    ensures value { result ≡ search_from most_chunks bytes.now 12 }
    ensures within { IsHeadWithin bytes.now result }
{
    let mut place: u64 = 12;
    for _chunk in 0..MOST_CHUNKS {
        if (bytes.len() as u64) < place + 8 {
            return DataSearch::Unwritten;
        }
        if read_id(bytes, place as usize) == *b"data" {
            return DataSearch::Found(place);
        }
        let size = u64::from(read_u32(bytes, place as usize + 4));
        place += 8 + size + size % 2;
    }
    DataSearch::Other
}

/// Whether the first 12 bytes are those of a RIFF, RF64 or BW64 file of type WAVE.
fn is_wave(bytes: &[u8]) -> bool
    requires { 12 ≤ length bytes.now }
    ensures { result ≡ is_wave bytes.now }
{
    let form = read_id(bytes, 0);
    read_id(bytes, 8) == *b"WAVE" && (form == *b"RIFF" || form == *b"BW64" || form == *b"RF64")
}

/// Whether the file has a `ds64` chunk, which comes first.
fn has_ds64(bytes: &[u8]) -> bool
    requires { 16 ≤ length bytes.now }
    ensures { result ≡ has_sizes bytes.now }
{
    let form = read_id(bytes, 0);
    read_id(bytes, 12) == *b"ds64" && (form == *b"BW64" || form == *b"RF64")
}

/// The file of the chunks before the samples at this place, with an empty `data` chunk: a RIFF file, in
/// which `JUNK` is in the place of `ds64`.
///
/// # Errors
/// `AllocError` where memory was refused.
#[tactic(auto, unfolding(crate::specs::WaveHeaders::bare_header))]
pub fn header_bytes(alloc: Global, bytes: &[u8], place: u64) -> Result<Vec<u8>, AllocError>
    requires after { 12 ≤ place }
    requires there { place + 8 ≤ length bytes.now }
    requires short { length bytes.now ≤ most_header }
    ensures { IfOk result (λ header. header.items ≡ bare_header bytes.now place) }
{
    let mut header = Vec::from_slice(alloc, b"RIFF")?;
    header.extend_from_slice(&(place as u32).to_le_bytes())?;
    header.extend_from_slice(b"WAVE")?;
    put_chunks(&mut header, bytes, place as usize)?;
    header.extend_from_slice(b"data")?;
    header.extend_from_slice(&[0; 4])?;
    Ok(header)
}

/// Appends the chunks before the samples at this place, without what `ds64` says.
///
/// # Errors
/// `AllocError` where memory was refused.
fn put_chunks(header: &mut Vec<u8>, bytes: &[u8], place: usize) -> Result<(), AllocError>
    requires after { 12 ≤ place }
    requires there { place + 8 ≤ length bytes.now }
    ensures { OnOk result (header.new.items ≡ header.old.items ++ chunks_to_data bytes.now place) }
{
    if place < 16 || !has_ds64(bytes) {
        return header.extend_from_slice(&bytes[12..place]);
    }
    header.extend_from_slice(b"JUNK")?;
    header.extend_from_slice(&bytes[16..place])
}

/// How many bytes of samples the header says that there are, once it says it: in the head of the `data`
/// chunk at this place, or in `ds64`. 0 and the number of all ones say nothing.
#[tactic(auto, unfolding(crate::specs::WaveHeaders::said_in))]
pub fn said_size(bytes: &[u8], place: u64) -> Option<u64>
    requires { place + 8 ≤ length bytes.now }
    ensures { result ≡ said_in bytes.now place }
{
    match read_u32(bytes, place as usize + 4) {
        0 => None,
        u32::MAX => wide_size(bytes),
        size => Some(u64::from(size)),
    }
}

/// The size of the samples that `ds64` says, once it says it.
fn wide_size(bytes: &[u8]) -> Option<u64>
    ensures { result ≡ wide_size_in bytes.now }
{
    if bytes.len() < 36 || !has_ds64(bytes) {
        return None;
    }
    match read_u64(bytes, 28) {
        0 => None,
        u64::MAX => None,
        size => Some(size),
    }
}
