//! The requests of samples that are still being written, of a recording whose outline is known.
ghost use Rattle.std.specs.Prelude.{◌≡◌, ℕ, List, Some, IfOk};
ghost use Rattle.bw_plan.specs.Plans.{plan};
ghost use Rattle.bw_plan.specs.Recordings.{block_frames as frames_a_block};
ghost use Rattle.bw_send_file.specs.ComingRequests.{RequestsLeft, pcm_step};
ghost use Rattle.bw_send_file.specs.FramedSamples.{HasWholeFrames, recording_with};
ghost use Rattle.bw_send_file.specs.declared.followed_state.PcmStep.TheVariants as steps;

use crate::followed_buffer::SampleBuffer;
use crate::followed_state::{PcmRequests, PcmStep};
use bw_plan::{Options, Outline, block_frames};
use bw_ports::Followed;
use std::alloc::{AllocError, Global};

impl<F: Followed + Drop> PcmRequests<F> {
    /// The requests of a recording with this outline, but for its cue points: its samples are those in
    /// `file`, which is read from the first one on. They begin at a place, in bytes from the start of
    /// the file that they are in.
    ///
    /// # Errors
    /// `AllocError` where memory was refused.
    pub fn of_outline(
        alloc: Global,
        outline: Outline,
        options: &Options,
        place: u64,
        file: F,
    ) -> Result<PcmRequests<F>, AllocError>
        // All requests of its plan are to come, if the samples are whole frames.
        ensures plan { IfOk result (λ x. (s : List ℕ) → F.to_come file ≡ Some s →
            HasWholeFrames outline s → RequestsLeft F.Followed x
            (plan (frames_a_block options.now outline.format) (recording_with outline s))) }
        ensures first { IfOk result (λ x. pcm_step x ≡ steps.Open) }
    {
        let frames = block_frames(options, outline.format());
        let size = frames * u32::from(outline.format().block_align());
        let samples = SampleBuffer::new(alloc, size as usize)?;
        Ok(PcmRequests {
            alloc,
            outline,
            frames,
            samples,
            given: 0,
            place,
            step: PcmStep::Open,
            file,
        })
    }
}
