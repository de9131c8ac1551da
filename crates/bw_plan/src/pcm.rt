//! Recordings of headerless samples.
ghost use Rattle.std.specs.Prelude.{◌≡◌, ◌≤◌, ◌-◌, IfOk, IfErr, None};
ghost use Rattle.bw_model.specs.Bytes.{first_that_holds};
ghost use Rattle.bw_plan.specs.Faults.{found, recording_fault_meaning};
ghost use Rattle.bw_plan.specs.PcmRecordings.{pcm_format, pcm_format_faults, pcm_content_faults};
ghost use Rattle.bw_plan.specs.PcmRecordings.{set_pcm_outline, pcm_outline_of, PcmFaultOf};

use crate::fault::{RecordingFault, RecordingKind, fault_at};
use crate::format::{is_channel_count, is_depth, is_rate};
use crate::options::Options;
use crate::outline::Outline;
use crate::recording::{block_frames, is_too_long};
use bw_inspect::InspectKind;
use bw_layout::Fmt;
use std::alloc::{AllocError, Global};

/// The format of headerless samples, which are PCM as a WAVE file has it, and their place in a
/// file.
#[derive(Clone, Copy, Debug, PartialEq, Eq)]
pub struct Pcm {
    /// In Hz, 1 to 768,000.
    pub rate: u32,
    /// Samples of a frame, 1 to 64.
    pub channels: u16,
    /// Of a sample: 16, 24 or 32.
    pub bits: u16,
    /// How many bytes of the file come before the first sample.
    pub skip: u64,
}

impl Pcm {
    /// The recording of the samples in a file of so many bytes, without the samples.
    ///
    /// # Errors
    /// The first fault: Bits, Rate, Channels, at 0; Short, at the first sample, where
    /// the file ends before it; PartFrame, at the frame inside which the file ends; TooLong, at
    /// the first sample; Unread(Memory), at 0, where memory was refused.
    ///
    /// # Not specified
    /// When memory is refused.
    pub fn outline(
        self,
        alloc: Global,
        file_len: u64,
        options: &Options,
    ) -> Result<Outline, RecordingFault>
        ensures ok { IfOk result (λ r. pcm_outline_of options.now self file_len ≡ Ok r) }
        ensures err { IfErr result (λ f. PcmFaultOf options.now self file_len f) }
    {
        let format = match self.format() {
            Ok(format) => format,
            Err(fault) => return Err(fault),
        };
        let len = file_len.saturating_sub(self.skip);
        let outline = match made(alloc, format, len, options) {
            Ok(outline) => outline,
            Err(_) => return Err(fault_at(RecordingKind::Unread(InspectKind::Memory), 0)),
        };
        match self.content_fault(file_len, options, &outline) {
            Some(fault) => Err(fault),
            None => Ok(outline),
        }
    }

    /// The format of the samples.
    ///
    /// # Errors
    /// Its first fault.
    #[tactic(auto, using(crate::proofs::PcmRecordings::free_pcm_format))]
    fn format(self) -> Result<Fmt, RecordingFault>
        ensures format { IfOk result (λ f. f ≡ pcm_format self) }
        ensures ok { IfOk result (λ f. first_that_holds (pcm_format_faults self) ≡ None) }
        ensures err { IfErr result (λ f.
            recording_fault_meaning f ≡ first_that_holds (pcm_format_faults self)) }
    {
        if let Some(fault) = self.format_fault() {
            return Err(fault);
        }
        match Fmt::new(self.rate, self.channels, self.bits) {
            Some(format) => Ok(format),
            None => Err(fault_at(RecordingKind::Bits, 0)),
        }
    }

    /// The first fault of the format.
    fn format_fault(self) -> Option<RecordingFault>
        ensures { found result ≡ first_that_holds (pcm_format_faults self) }
    {
        if !is_depth(self.bits) {
            return Some(fault_at(RecordingKind::Bits, 0));
        }
        if !is_rate(self.rate) {
            return Some(fault_at(RecordingKind::Rate, 0));
        }
        if !is_channel_count(self.channels) {
            return Some(fault_at(RecordingKind::Channels, 0));
        }
        None
    }

    /// The first fault of samples whose format is allowed, in a file of so many bytes.
    fn content_fault(
        self,
        file_len: u64,
        options: &Options,
        outline: &Outline,
    ) -> Option<RecordingFault>
        ensures { found result
            ≡ first_that_holds (pcm_content_faults options.now self file_len outline.now) }
    {
        if file_len < self.skip {
            return Some(fault_at(RecordingKind::Short, self.skip));
        }
        let part = outline.samples_len() % u64::from(outline.format().block_align());
        if part != 0 {
            return Some(fault_at(RecordingKind::PartFrame, file_len.saturating_sub(part)));
        }
        if is_too_long(outline, block_frames(options, outline.format())) {
            return Some(fault_at(RecordingKind::TooLong, self.skip));
        }
        None
    }
}

/// The recording of so many bytes of samples, with what is set.
///
/// # Errors
/// `AllocError` where memory was refused.
fn made(alloc: Global, format: Fmt, len: u64, options: &Options) -> Result<Outline, AllocError>
    ensures { IfOk result (λ r. r ≡ set_pcm_outline options.now format len) }
{
    let mut outline = Outline::of_samples(alloc, format, len);
    outline.apply(alloc, options.settings())?;
    Ok(outline)
}
