//! How far the requests of headerless samples have been given.
ghost use Rattle.std.specs.Prelude.{◌≡◌, ◌*◌, ◌≤◌};
ghost use Rattle.bw_model.specs.Limits.{longest_block};
ghost use Rattle.bw_model.specs.Take.{block_align};

use crate::followed_buffer::SampleBuffer;
use bw_plan::Outline;
use std::alloc::Global;

/// Gives the requests of headerless samples while these are still written: OPEN, the fields of
/// `bext` that are set, by tag, each block as soon as it is written, and once the file is complete
/// the rest, and CLOSE. It holds one block.
#[derive(Drop)]
pub struct PcmRequests<F> {
    pub(crate) alloc: Global,
    pub(crate) outline: Outline,
    /// How many frames a block has.
    pub(crate) frames: u32,
    pub(crate) samples: SampleBuffer,
    /// How many frames were given.
    pub(crate) given: u64,
    /// Where in the file the samples that are held begin.
    pub(crate) place: u64,
    pub(crate) step: PcmStep,
    pub(crate) file: F,
    ghost some: { 1 ≤ frames },
    ghost align: { 1 ≤ block_align outline.format },
    ghost whole: { samples.size ≡ frames * block_align outline.format },
    ghost few: { samples.size ≤ longest_block },
}

/// Which request is the next.
#[derive(Clone, Copy, Debug)]
pub(crate) enum PcmStep {
    Open,
    /// The request of the first field after this tag, or what follows the fields.
    Fields { after: u8 },
    /// The next block, or CLOSE.
    Samples,
    /// None: CLOSE was given.
    End,
}
