//! The contents of chunks as they are: plain numbers and bytes, whatever the values.
ghost use Rattle.std.specs.Prelude.{◌≡◌, ◌+◌, ◌≤◌, length, slice_range, unwrap_or, []};
ghost use Rattle.std.specs.Result.{OkIff};
ghost use Rattle.bw_model.specs.Report.{raw_fmt};
ghost use Rattle.bw_layout.specs.Raw.{raw_cue, bext_at, levels_at};

use crate::chunk::Short;
use bw_model::{read_u16, read_u32, read_u64};
use std::marker::Model;

/// A `fmt ` chunk for PCM (RIFF, chapter 3, "WAVE").
#[derive(Clone, Copy, Debug, PartialEq, Eq)]
pub struct RawFmt {
    pub tag: u16,
    pub channels: u16,
    /// Frames per second.
    pub rate: u32,
    pub bytes_per_second: u32,
    /// Bytes per frame.
    pub align: u16,
    /// Bits per sample.
    pub bits: u16,
}

impl Model for RawFmt {
    ghost use Rattle.bw_model.specs.Report.{RawFmt as FmtReading};

    ghost Value = { FmtReading };

    ghost view = { λ f. record {
      tag = f.tag;
      channels = f.channels;
      rate = f.rate;
      bytes_per_second = f.bytes_per_second;
      align = f.align;
      bits = f.bits;
    } };

    ghost inverse = { λ v. record {
      tag = v.tag;
      channels = v.channels;
      rate = v.rate;
      bytes_per_second = v.bytes_per_second;
      align = v.align;
      bits = v.bits;
    } };
}

/// The loudness of a `bext` chunk from version 2 on: five signed 16-bit numbers by their bits, each
/// 100 times the value; 7FFFh means not given.
#[derive(Clone, Copy, Debug, PartialEq, Eq)]
pub struct Loudness {
    pub value: u16,
    pub range: u16,
    pub max_true_peak: u16,
    pub max_momentary: u16,
    pub max_short_term: u16,
}

impl Model for Loudness {
    ghost use Rattle.std.specs.Prelude.{ℕ, List, [], ◌∷◌, slice_index};

    ghost Value = { List ℕ };

    ghost view = { λ l.
        l.value ∷ l.range ∷ l.max_true_peak ∷ l.max_momentary ∷ l.max_short_term ∷ [] };

    ghost inverse = { λ v. record {
      value = slice_index v 0;
      range = slice_index v 1;
      max_true_peak = slice_index v 2;
      max_momentary = slice_index v 3;
      max_short_term = slice_index v 4;
    } };
}

/// A `bext` chunk without its coding history (EBU Tech 3285): the texts are whole fields.
#[derive(Debug, Drop)]
pub struct RawBext {
    pub description: [u8; 256],
    pub originator: [u8; 32],
    pub originator_reference: [u8; 32],
    pub origination_date: [u8; 10],
    pub origination_time: [u8; 8],
    /// The first sample's time, in samples since midnight.
    pub time_reference: u64,
    pub version: u16,
    pub umid: [u8; 64],
    /// Given from version 2 on.
    pub loudness: Option<Loudness>,
    pub reserved: [u8; 180],
}

impl Model for RawBext {
    ghost use Rattle.std.specs.Prelude.{ℕ, List, [], ◌∷◌, unwrap_or};
    ghost use Rattle.bw_model.specs.Report.{RawBext as BextReading};

    ghost Value = { BextReading × List ℕ };

    ghost view = { λ b. (
      record {
        texts =
            b.description ∷ b.originator ∷ b.originator_reference ∷ b.origination_date
            ∷ b.origination_time ∷ [];
        time = b.time_reference;
        version = b.version;
        umid = b.umid;
        loudness = unwrap_or b.loudness [];
      },
      b.reserved,
    ) };
}

/// A cue point (RIFF, chapter 3, "cue").
#[derive(Clone, Copy, Debug, PartialEq, Eq)]
pub struct RawCue {
    pub id: u32,
    /// Its place in the order of play, in frames.
    pub position: u32,
    /// Frames from the data's first one.
    pub offset: u32,
}

impl Model for RawCue {
    ghost use Rattle.bw_model.specs.Report.{RawCue as CueReading};

    ghost Value = { CueReading };

    ghost view = { λ c. record { id = c.id; position = c.position; offset = c.offset } };

    ghost inverse = { λ v. record { id = v.id; position = v.position; offset = v.offset } };
}

/// Reads the content of a `fmt ` chunk.
///
/// # Errors
/// Short if there are fewer than 16 bytes.
pub fn read_fmt(bytes: &[u8]) -> Result<RawFmt, Short>
    ensures { OkIff result (16 ≤ length bytes.now) (raw_fmt bytes.now) }
{
    if bytes.len() < 16 {
        return Err(Short);
    }
    Ok(RawFmt {
        tag: read_u16(bytes, 0),
        channels: read_u16(bytes, 2),
        rate: read_u32(bytes, 4),
        bytes_per_second: read_u32(bytes, 8),
        align: read_u16(bytes, 12),
        bits: read_u16(bytes, 14),
    })
}

/// Reads the content of a `bext` chunk before the coding history.
///
/// # Errors
/// Short if there are fewer than 602 bytes.
pub fn read_bext(bytes: &[u8]) -> Result<RawBext, Short>
    ensures { OkIff result (602 ≤ length bytes.now) (bext_at bytes.now) }
{
    if bytes.len() < 602 {
        return Err(Short);
    }
    Ok(RawBext {
        description: read_array(bytes, 0),
        originator: read_array(bytes, 256),
        originator_reference: read_array(bytes, 288),
        origination_date: read_array(bytes, 320),
        origination_time: read_array(bytes, 330),
        time_reference: read_u64(bytes, 338),
        version: read_u16(bytes, 346),
        umid: read_array(bytes, 348),
        loudness: read_loudness(bytes),
        reserved: read_array(bytes, 422),
    })
}

/// Reads a cue point: its identifier at 0, its position at 4, its offset at 20.
///
/// # Errors
/// Short if there are fewer than 24 bytes.
pub fn read_cue(bytes: &[u8]) -> Result<RawCue, Short>
    ensures { OkIff result (24 ≤ length bytes.now) (raw_cue bytes.now) }
{
    if bytes.len() < 24 {
        return Err(Short);
    }
    Ok(RawCue {
        id: read_u32(bytes, 0),
        position: read_u32(bytes, 4),
        offset: read_u32(bytes, 20),
    })
}

/// Reads the loudness of a `bext` chunk, which it has from version 2 on.
fn read_loudness(bytes: &[u8]) -> Option<Loudness>
    requires { 422 ≤ length bytes.now }
    ensures { unwrap_or result [] ≡ levels_at bytes.now }
{
    if read_u16(bytes, 346) < 2 {
        return None;
    }
    Some(Loudness {
        value: read_u16(bytes, 412),
        range: read_u16(bytes, 414),
        max_true_peak: read_u16(bytes, 416),
        max_momentary: read_u16(bytes, 418),
        max_short_term: read_u16(bytes, 420),
    })
}

/// The bytes at a place.
fn read_array<const N: usize>(bytes: &[u8], at: usize) -> [u8; N]
    requires { at + N ≤ length bytes.now }
    ensures { result ≡ slice_range bytes.now at (at + N) }
{
    let mut part = [0; N];
    part.copy_from_slice(&bytes[at..at + N]);
    part
}
