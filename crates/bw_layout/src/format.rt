//! The sample format, and the `fmt ` chunk for PCM (RIFF, chapter 3, "WAVE").
ghost use Rattle.std.specs.Prelude.{◌≡◌, ◌+◌, ◌*◌, ◌≤◌, IsTrue, vec_len, vec_capacity};
ghost use Rattle.std.specs.Option.{SomeIff};
ghost use Rattle.bw_model.specs.Take.{is_format, block_align as block_align_of};
ghost use Rattle.bw_model.specs.Layout.{fmt_content};
ghost use Rattle.bw_layout.specs.AppendedBytes.{Gains, Appends};
ghost use Rattle.bw_layout.specs.Formats.{format_of};

use crate::push::{push_u16, push_u32};
use std::alloc::{AllocError, Global};
use std::marker::Model;

/// The format of PCM samples that a take may have.
///
/// 1 to 768,000 Hz; 1 to 64 channels; 16, 24 or 32 bits per sample.
#[derive(Clone, Copy, Debug, PartialEq, Eq, Hash)]
pub struct Fmt {
    rate: u32,
    channels: u16,
    bits: u16,
}

impl Model for Fmt {
    ghost use Rattle.std.specs.Prelude.{IsTrue};
    ghost use Rattle.bw_model.specs.Take.{Format, is_format};
    ghost use Rattle.bw_layout.specs.Formats.{format_of};

    ghost Value = { Format };

    ghost view = { λ f. format_of f.rate f.channels f.bits };

    ghost invariant = { λ f. IsTrue (is_format (format_of f.rate f.channels f.bits)) };

    ghost inverse = { λ v. record { rate = v.rate; channels = v.channels; bits = v.bits } };
}

impl Fmt {
    /// The format, or None if a take may not have it.
    ///
    /// A take has 1 to 768,000 frames per second, 1 to 64 channels, and 16, 24 or 32 bits per
    /// sample.
    pub fn new(rate: u32, channels: u16, bits: u16) -> Option<Fmt>
        ensures { let f = format_of rate channels bits in SomeIff result (IsTrue (is_format f)) f }
    {
        let allowed = (1..=768_000).contains(&rate)
            && (1..=64).contains(&channels)
            && (bits == 16 || bits == 24 || bits == 32);
        if allowed {
            Some(Fmt {
                rate,
                channels,
                bits,
            })
        } else {
            None
        }
    }

    /// Frames per second.
    pub fn rate(self) -> u32
        ensures value { result ≡ self.rate }
        ensures positive { 1 ≤ result }
        ensures range { result ≤ 768000 }
    {
        self.rate
    }

    /// Samples per frame.
    pub fn channels(self) -> u16
        ensures value { result ≡ self.channels }
        ensures positive { 1 ≤ result }
        ensures range { result ≤ 64 }
    {
        self.channels
    }

    /// Bits per sample.
    pub fn bits(self) -> u16
        ensures value { result ≡ self.bits }
        ensures positive { 16 ≤ result }
        ensures range { result ≤ 32 }
    {
        self.bits
    }

    /// Bytes per frame.
    pub fn block_align(self) -> u16
        ensures value { result ≡ block_align_of self }
        ensures positive { 2 ≤ result }
        ensures range { result ≤ 256 }
    {
        self.channels * (self.bits / 8)
    }

    /// Bytes per second.
    pub fn byte_rate(self) -> u32
        ensures value { result ≡ self.rate * block_align_of self }
    {
        self.rate * u32::from(self.block_align())
    }
}

/// Appends the content of a `fmt ` chunk, 16 bytes.
///
/// # Errors
/// `AllocError` if memory was refused, never if there is room: the bytes are as they were.
///
/// # Not specified
/// When memory is refused, and how much room is made beyond what is needed.
pub fn put_fmt(_alloc: Global, out: &mut Vec<u8>, fmt: &Fmt) -> Result<(), AllocError>
    ensures { Appends (fmt_content fmt.now) 16 result out.old out.new }
{
    out.reserve(16)?;
    push_fmt(out, fmt);
    Ok(())
}

#[tactic(auto, using(std::proofs::lemmas::List::append_assoc))]
pub(crate) fn push_fmt(out: &mut Vec<u8>, fmt: &Fmt)
    requires { vec_len out.old + 16 ≤ vec_capacity out.old }
    ensures { Gains (fmt_content fmt.now) 16 out.old out.new }
{
    push_u16(out, 1);
    push_u16(out, fmt.channels());
    push_u32(out, fmt.rate());
    push_u32(out, fmt.byte_rate());
    push_u16(out, fmt.block_align());
    push_u16(out, fmt.bits());
}
