//! The stroke of a column.
ghost use Rattle.std.specs.Prelude.{◌≡◌, ◌+◌, ◌*◌, ◌^◌, ◌≤◌, ◌<◌, ◌++◌, length, slice_index, OnOk};
ghost use Rattle.bw_picture.specs.Columns.{drop_of as drop_by, stroke as stroke_of, strokes};

use crate::level::SampleWidth;
use crate::peak::Peak;
use arrayvec::ArrayString;
use itoa::Buffer;
use std::alloc::AllocError;

/// How high a channel is drawn.
const HEIGHT: u64 = 200;

/// The stroke of a column, from its greatest level down to its least, in a channel whose top is
/// `top` units below the picture's.
pub fn column_stroke(width: SampleWidth, column: u32, top: u32, peak: Peak) -> ArrayString<64>
    ensures { result.bytes ≡ stroke_of width column top peak }
{
    let mut digits = Buffer::new();
    let mut text = ArrayString::new();
    text.push_str("M");
    text.push_str(digits.format(column));
    text.push_str(" ");
    text.push_str(digits.format(top as u64 + drop_of(width, peak.high)));
    text.push_str("V");
    text.push_str(digits.format(top as u64 + drop_of(width, peak.low) + 1));
    text
}

/// How far below the top of its channel a level is drawn.
fn drop_of(width: SampleWidth, level: u32) -> u64
    ensures value { result ≡ drop_by width level }
    ensures small { result ≤ 200 }
{
    let levels = match width {
        SampleWidth::Two => 0x1_0000,
        SampleWidth::Three => 0x100_0000,
        SampleWidth::Four => 0x1_0000_0000,
    };
    let above: u64 = levels - 1;
    above.saturating_sub(level as u64) * HEIGHT / levels
}

/// Appends the strokes of a column's channels, one below the other, by their least and greatest
/// levels.
///
/// # Errors
/// `AllocError` where memory was refused.
pub fn push_strokes(
    text: &mut Vec<u8>,
    width: SampleWidth,
    column: u32,
    lows: &[u32],
    highs: &[u32],
) -> Result<(), AllocError>
    requires pairs { length lows.now ≡ length highs.now }
    requires few { length lows.now < 2 ^ 16 }
    ensures { OnOk result (text.new.items ≡
        text.old.items ++ strokes width column (slice_index lows.now) (slice_index highs.now)
        (length lows.now)) }
{
    for c in 0..lows.len() {
        let peak = Peak {
            low: lows[c],
            high: highs[c],
        };
        let stroke = column_stroke(width, column, c as u32 * 200, peak);
        text.extend_from_slice(stroke.as_str().as_bytes())?;
    }
    Ok(())
}
