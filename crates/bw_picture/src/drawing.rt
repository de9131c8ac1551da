//! The strokes of all columns of a file.
ghost use Rattle.std.specs.Prelude.{◌≡◌, ◌+◌, ◌*◌, ◌≤◌, ◌<◌, ◌^◌, length, replicate, IfErr, IfOk};
ghost use Rattle.std.specs.Prelude.{OnOk};
ghost use Rattle.bw_inspect.specs.Places.{AtPlace};
ghost use Rattle.bw_picture.specs.Drawings.{DrawsColumn, LacksFrames, frame_bytes, all_strokes};
ghost use Rattle.bw_picture.specs.Drawings.{column_place};

use crate::level::SampleWidth;
use crate::reading::read_frames;
use crate::stroke::push_strokes;
use bw_inspect::{InspectFault, InspectKind};
use bw_stream::Source;
use std::alloc::{AllocError, Global};

/// How the samples of a file are drawn.
#[derive(Clone, Copy, Debug, PartialEq, Eq)]
pub struct Shape {
    pub width: SampleWidth,
    /// How many samples a frame has, one a channel.
    pub channels: u16,
    /// Where the first frame is, in bytes from the file's start.
    pub place: u64,
    pub frames: u64,
    /// How many frames a column has; the last one may have fewer.
    pub wide: u64,
    pub columns: u32,
}

/// The strokes of all columns, in one pass over the samples.
///
/// # Errors
/// Truncated where the input ends before the last frame does; Read; Memory, at the first frame.
pub fn draw<R: Source>(
    alloc: Global,
    reader: &mut R,
    shape: &Shape,
) -> Result<Vec<u8>, InspectFault>
    requires some { (0 < shape.now.channels) × (0 < shape.now.wide) }
    requires near { shape.now.place + shape.now.frames * 2 ^ 18 < 2 ^ 62 }
    requires filled { shape.now.columns * shape.now.wide < shape.now.frames + shape.now.wide }
    // Each stroke runs from the least to the greatest level of a channel in a column's frames.
    ensures ok { IfOk result (λ text. AtPlace (R.left reader.old) shape.now.place (λ b.
        text.items ≡ all_strokes b shape.now shape.now.columns)) }
    ensures err { IfErr result (λ f. AtPlace (R.left reader.old) shape.now.place (λ b.
        LacksFrames b shape.now f)) }
{
    let align = shape.width.bytes() * shape.channels as usize;
    let mut text = Vec::new(alloc);
    let Ok(mut buf) = buffer(alloc, align) else {
        return Err(no_memory(shape));
    };
    let room = buf.as_mut_slice();
    for column in 0..shape.columns {
        draw_column(alloc, reader, shape, column, room, &mut text)?;
    }
    Ok(text)
}

/// Appends the strokes of a column.
///
/// # Errors
/// Truncated; Read; Memory.
fn draw_column<R: Source>(
    alloc: Global,
    reader: &mut R,
    shape: &Shape,
    column: u32,
    buf: &mut [u8],
    text: &mut Vec<u8>,
) -> Result<(), InspectFault>
    requires some { 0 < shape.now.channels }
    requires near { shape.now.place + shape.now.frames * 2 ^ 18 < 2 ^ 62 }
    requires within { column * shape.now.wide < shape.now.frames }
    requires fits { frame_bytes shape.now ≤ length buf.old }
    ensures ok { OnOk result (AtPlace (R.left reader.old) (column_place shape.now column) (λ b.
        DrawsColumn b shape.now column text.old.items text.new.items (R.left reader.new))) }
    ensures err { IfErr result (λ f. AtPlace (R.left reader.old)
        (column_place shape.now column) (λ b. LacksFrames b shape.now f)) }
{
    let size = shape.width.bytes();
    let align = size * shape.channels as usize;
    let first = column as u64 * shape.wide;
    let count = shape.wide.min(shape.frames - first);
    let Ok(mut lows) = levels(alloc, shape.channels, u32::MAX) else {
        return Err(no_memory(shape));
    };
    let Ok(mut highs) = levels(alloc, shape.channels, 0) else {
        return Err(no_memory(shape));
    };
    let (lows, highs) = (lows.as_mut_slice(), highs.as_mut_slice());
    let place = shape.place + first * align as u64;
    read_frames(reader, place, count, shape.width, align, buf, lows, highs)?;
    match push_strokes(text, shape.width, column, lows, highs) {
        Ok(()) => Ok(()),
        Err(_) => Err(no_memory(shape)),
    }
}

/// A level for each channel.
fn levels(alloc: Global, channels: u16, level: u32) -> Result<Vec<u32>, AllocError>
    ensures { IfOk result (λ v. v.items ≡ replicate channels level) }
{
    vec![in alloc; level; channels as usize]
}

/// Room for about 64 KiB of whole frames, or for one.
fn buffer(alloc: Global, align: usize) -> Result<Vec<u8>, AllocError>
    requires { (0 < align) × (align < 2 ^ 32) }
    ensures { IfOk result (λ v. align ≤ length v.items) }
{
    vec![in alloc; 0; align.max(65_536 / align * align)]
}

pub(crate) fn no_memory(shape: &Shape) -> InspectFault
    ensures { result ≡ record { kind = InspectKind.Memory; offset = shape.now.place } }
{
    InspectFault {
        kind: InspectKind::Memory,
        offset: shape.place,
    }
}
