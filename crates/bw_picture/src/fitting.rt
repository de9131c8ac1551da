//! How the samples of a file are drawn, by the numbers of its header.
ghost use Rattle.std.specs.Prelude.{◌≡◌, ◌^◌, ◌<◌, IfSome};
ghost use Rattle.bw_inspect.specs.Reports.{reported_by};
ghost use Rattle.bw_picture.specs.Fits.{IsDrawable, shape_for, fitting_shape, width_of};

use crate::drawing::Shape;
use crate::level::SampleWidth;
use bw_inspect::Report;

/// How the samples of a file with this report are drawn: in at most 1,200 columns, each of as many
/// frames, except the last one. None for samples of other than 16, 24 or 32 bits, for no channel,
/// for a block align that isn't the size of a sample of each channel, for 2^43 frames or more, and
/// for 2^60 bytes or more before them. The caller has to know whether they are PCM.
pub fn fit(report: &Report) -> Option<Shape>
    // Each frame is in one column.
    ensures value { result ≡ fitting_shape (reported_by report.now) }
    ensures drawable { IfSome result IsDrawable }
{
    let fmt = &report.fmt;
    let width = width_of(fmt.bits)?;
    if fmt.channels == 0 {
        return None;
    }
    let size = fmt.channels as usize * width.bytes();
    if size == 0 || size != fmt.align as usize {
        return None;
    }
    let frames = report.data_size / fmt.align as u64;
    if frames >= 0x800_0000_0000 || report.data_at >= 0x1000_0000_0000_0000 {
        return None;
    }
    let shape = shape_for(width, fmt.channels, report.data_at, frames);
    Some(shape)
}

/// How so many frames from a place on are drawn.
fn shape_for(width: SampleWidth, channels: u16, place: u64, frames: u64) -> Shape
    requires { frames < 2 ^ 43 }
    ensures { result ≡ shape_for width channels place frames }
{
    let wide = frames.div_ceil(1200).max(1);
    Shape {
        width,
        channels,
        place,
        frames,
        wide,
        columns: frames.div_ceil(wide) as u32,
    }
}

/// The width of a sample of so many bits.
fn width_of(bits: u16) -> Option<SampleWidth>
    ensures { result ≡ width_of bits }
{
    match bits {
        16 => Some(SampleWidth::Two),
        24 => Some(SampleWidth::Three),
        32 => Some(SampleWidth::Four),
        _ => None,
    }
}
