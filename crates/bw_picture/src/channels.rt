//! The least and the greatest levels of all channels in some frames.
ghost use Rattle.std.specs.Prelude.{◌≡◌, ◌+◌, ◌*◌, ◌≤◌, ◌<◌, ℕ, length, slice_index};
ghost use Rattle.bw_picture.specs.Levels.{bytes_of};
ghost use Rattle.bw_picture.specs.Peaks.{frame_level, greatest_of, least_of};

use crate::level::SampleWidth;
use crate::peak::Peak;

/// Extends the least and the greatest level so far of each channel by the levels in `count` whole
/// frames of `align` bytes.
pub fn widen_all(
    lows: &mut [u32],
    highs: &mut [u32],
    width: SampleWidth,
    frames: &[u8],
    count: usize,
    align: usize,
)
    requires pairs { length lows.old ≡ length highs.old }
    requires whole { count * align ≤ length frames.now }
    requires within { length lows.old * bytes_of width ≤ align }
    ensures lows { (c : ℕ) → c < length lows.old → slice_index lows.new c ≡
        least_of (frame_level width frames.now align (c * bytes_of width))
        (slice_index lows.old c) count }
    ensures highs { (c : ℕ) → c < length lows.old → slice_index highs.new c ≡
        greatest_of (frame_level width frames.now align (c * bytes_of width))
        (slice_index highs.old c)
        count }
{
    let size = width.bytes();
    for c in 0..lows.len() {
        let mut peak = Peak {
            low: lows[c],
            high: highs[c],
        };
        peak.widen(width, frames, count, align, c * size);
        lows[c] = peak.low;
        highs[c] = peak.high;
    }
}
