//! The least and the greatest level of a channel in some frames.
ghost use Rattle.std.specs.Prelude.{◌≡◌, ◌+◌, ◌*◌, ◌≤◌, ◌<◌, ◌^◌, length};
ghost use Rattle.bw_picture.specs.Levels.{bytes_of};
ghost use Rattle.bw_picture.specs.Peaks.{frame_level, greatest_of, least_of};

use crate::level::{SampleWidth, level_at};

/// The least and the greatest level so far. Before the first one the least is above the greatest.
#[derive(Clone, Copy, Debug, PartialEq, Eq)]
pub struct Peak {
    pub low: u32,
    pub high: u32,
}

impl Peak {
    /// The peak of no level.
    pub const NONE: Peak = Peak {
        low: u32::MAX,
        high: 0,
    };

    /// Extends it by the levels of one channel in `count` whole frames, where the channel's bytes
    /// begin `at` bytes into each frame of `align` bytes.
    pub fn widen(
        &mut self,
        width: SampleWidth,
        frames: &[u8],
        count: usize,
        align: usize,
        at: usize,
    )
        requires whole { count * align ≤ length frames.now }
        requires within { at + bytes_of width ≤ align }
        ensures low { self.new.low ≡ least_of
            (frame_level width frames.now align at) self.old.low count }
        ensures high { self.new.high ≡
            greatest_of (frame_level width frames.now align at) self.old.high count }
    {
        for i in 0..count {
            let level = level_at(width, frames, i * align + at);
            self.low = self.low.min(level);
            self.high = self.high.max(level);
        }
    }
}
