//! Whether a file's samples are PCM that a take may have.
ghost use Rattle.std.specs.Prelude.{◌≡◌, ◌==◌, ◌≤◌, ◌*◌, ◌/◌, ◌&&◌, ◌||◌, not, IsTrue, Some, length, slice_range};
ghost use Rattle.bw_model.specs.Bytes.{first_that_holds, is_within, u16_at};
ghost use Rattle.bw_plan.specs.Recordings.{format_faults, is_pcm as is_pcm_format, pcm_subformat, extensible};
ghost use Rattle.bw_plan.specs.Recordings.{other_samples as other_samples_of};
ghost use Rattle.std.specs.Str.{bytes_eq};
ghost use Rattle.bw_plan.specs.Faults.{found, kind_meaning};

use crate::fault::{RecordingFault, RecordingKind, fault_at};
use bw_layout::{RawFmt, read_u16};

/// The format tag of WAVE_FORMAT_EXTENSIBLE.
pub(crate) const EXTENSIBLE: u16 = 0xfffe;

/// The format tag of WAVE_FORMAT_IEEE_FLOAT.
const FLOAT: u16 = 3;

/// KSDATAFORMAT_SUBTYPE_IEEE_FLOAT, as a file has it.
const FLOAT_SUBFORMAT: [u8; 16] = [3, 0, 0, 0, 0, 0, 16, 0, 128, 0, 0, 170, 0, 56, 155, 113];

/// KSDATAFORMAT_SUBTYPE_PCM, as a file has it.
const PCM_SUBFORMAT: [u8; 16] = [1, 0, 0, 0, 0, 0, 16, 0, 128, 0, 0, 170, 0, 56, 155, 113];

/// The first fault of a `fmt ` chunk whose head is at a place; `extension` is what follows its
/// first 16 bytes: 24 bytes, or none where it is shorter.
pub(crate) fn format_fault(fmt: RawFmt, extension: &[u8], place: u64) -> Option<RecordingFault>
    ensures { found result ≡ first_that_holds (format_faults fmt extension.now place) }
{
    if !is_pcm(fmt, extension) {
        return Some(fault_at(other_samples(fmt, extension), place));
    }
    if !is_depth(fmt.bits) {
        return Some(fault_at(RecordingKind::Bits, place));
    }
    if has_idle_bits(fmt, extension) {
        return Some(fault_at(RecordingKind::ValidBits, place));
    }
    if !is_aligned(fmt) {
        return Some(fault_at(RecordingKind::Align, place));
    }
    if !is_rate(fmt.rate) {
        return Some(fault_at(RecordingKind::Rate, place));
    }
    if !is_channel_count(fmt.channels) {
        return Some(fault_at(RecordingKind::Channels, place));
    }
    None
}

/// What samples are that aren't PCM.
fn other_samples(fmt: RawFmt, extension: &[u8]) -> RecordingKind
    ensures { kind_meaning result ≡ Some (other_samples_of fmt extension.now) }
{
    if fmt.tag == FLOAT || (fmt.tag == EXTENSIBLE && has_subformat(extension, FLOAT_SUBFORMAT)) {
        RecordingKind::Float(fmt.bits)
    } else {
        RecordingKind::NotPcm
    }
}

/// Whether the samples are PCM, by the tag or by the subformat of an extensible format.
fn is_pcm(fmt: RawFmt, extension: &[u8]) -> bool
    ensures { result ≡ is_pcm_format fmt extension.now }
{
    fmt.tag == 1 || (fmt.tag == EXTENSIBLE && has_pcm_subformat(extension))
}

/// Whether not as many bits are valid as a sample of PCM has.
fn has_idle_bits(fmt: RawFmt, extension: &[u8]) -> bool
    requires { IsTrue (is_pcm_format fmt extension.now) }
    ensures { result ≡ ((fmt.tag == extensible) && not (u16_at extension.now 2 == fmt.bits)) }
{
    fmt.tag == EXTENSIBLE && has_pcm_subformat(extension) && read_u16(extension, 2) != fmt.bits
}

fn has_pcm_subformat(extension: &[u8]) -> bool
    ensures long { IsTrue result → 24 ≤ length extension.now }
    ensures value { result ≡ bytes_eq (slice_range extension.now 8 24) pcm_subformat }
{
    has_subformat(extension, PCM_SUBFORMAT)
}

fn has_subformat(extension: &[u8], subformat: [u8; 16]) -> bool
    ensures long { IsTrue result → 24 ≤ length extension.now }
    ensures value { result ≡ bytes_eq (slice_range extension.now 8 24) subformat }
{
    extension.len() >= 24 && extension[8..24] == subformat[..]
}

pub(crate) fn is_depth(bits: u16) -> bool
    ensures { result ≡ ((bits == 16) || (bits == 24) || (bits == 32)) }
{
    bits == 16 || bits == 24 || bits == 32
}

/// Whether a frame has just the bytes of its samples.
fn is_aligned(fmt: RawFmt) -> bool
    ensures { result ≡ (fmt.align == fmt.channels * (fmt.bits / 8)) }
{
    u32::from(fmt.align) == u32::from(fmt.channels) * u32::from(fmt.bits / 8)
}

pub(crate) fn is_rate(rate: u32) -> bool
    ensures { result ≡ is_within 1 768000 rate }
{
    (1..=768_000).contains(&rate)
}

pub(crate) fn is_channel_count(channels: u16) -> bool
    ensures { result ≡ is_within 1 64 channels }
{
    (1..=64).contains(&channels)
}
