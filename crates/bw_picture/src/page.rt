//! A picture: the waveform, with its time axis and the file's markers (SVG 1.1).
ghost use Rattle.std.specs.Prelude.{◌≡◌, ◌+◌, ◌*◌, ◌^◌, ◌<◌, ◌++◌, flat_map, length, IfErr, IfOk};
ghost use Rattle.std.specs.Prelude.{OnOk, decimal};
ghost use Rattle.bw_inspect.specs.Places.{AtPlace};
ghost use Rattle.bw_picture.specs.Drawings.{LacksFrames};
ghost use Rattle.bw_picture.specs.Pages.{axis, axis_line, height_of as full_height, line_across};
ghost use Rattle.bw_picture.specs.Pages.{look, marker, marker_at, marker_stroke, marker_name};
ghost use Rattle.bw_picture.specs.Pages.{middles, middles_line, opening, page, picture_text, shift};
ghost use Rattle.bw_picture.specs.Pages.{view_size, tick, tick_count, ticks, waveform};

use crate::drawing::{Shape, draw, no_memory};
use crate::time_text::{put_number, put_time};
use bw_inspect::{Cues, InspectFault};
use bw_layout::RawCue;
use bw_stream::Source;
use std::alloc::{AllocError, Global};

/// The picture of a file's samples with its markers, in one pass over the samples. The reader has
/// to be at the first frame; `rate` is in frames per second.
///
/// # Errors
/// Truncated where the input ends before the last frame does; Read; Memory, at the first frame.
///
/// # Not specified
/// When memory is refused.
pub fn picture<R: Source>(
    alloc: Global,
    reader: &mut R,
    shape: &Shape,
    rate: u32,
    cues: &Cues,
) -> Result<Vec<u8>, InspectFault>
    requires some { (0 < shape.now.channels) × (0 < shape.now.wide) }
    requires near { shape.now.place + shape.now.frames * 2 ^ 18 < 2 ^ 62 }
    requires filled { shape.now.columns * shape.now.wide < shape.now.frames + shape.now.wide }
    requires span { shape.now.columns * shape.now.wide < 2 ^ 54 }
    // The text is the definition's, of the file's samples, its rate and its cue points.
    ensures ok { IfOk result (λ text. AtPlace (R.left reader.old) shape.now.place (λ b.
        text.items ≡ picture_text b shape.now rate cues.now)) }
    ensures err { IfErr result (λ f. AtPlace (R.left reader.old) shape.now.place (λ b.
        LacksFrames b shape.now f)) }
{
    let strokes = draw(alloc, reader, shape)?;
    match page_of(alloc, shape, rate, cues, strokes.as_slice()) {
        Ok(text) => Ok(text),
        Err(_) => Err(no_memory(shape)),
    }
}

/// The picture with these strokes.
fn page_of(
    alloc: Global,
    shape: &Shape,
    rate: u32,
    cues: &Cues,
    strokes: &[u8],
) -> Result<Vec<u8>, AllocError>
    requires some { 0 < shape.now.wide }
    requires span { shape.now.columns * shape.now.wide < 2 ^ 54 }
    ensures { IfOk result (λ v. v.items ≡ page strokes.now shape.now rate cues.now) }
{
    let mut text = Vec::new(alloc);
    put_opening(&mut text, shape)?;
    put_middles(&mut text, shape)?;
    put_waveform(&mut text, strokes)?;
    put_axis(&mut text, shape, rate)?;
    put_markers(&mut text, shape, cues)?;
    text.extend_from_slice(b"</svg>\n")?;
    Ok(text)
}

/// Appends the head of the document, with room around the channels, and its background.
fn put_opening(text: &mut Vec<u8>, shape: &Shape) -> Result<(), AllocError>
    ensures { OnOk result (text.new.items ≡ text.old.items ++ opening shape.now) }
{
    text.extend_from_slice(b"<svg xmlns='http://www.w3.org/2000/svg' viewBox='-40 -20 ")?;
    put_size(text, shape.columns as u64 + 80, height_of(shape) + 44)?;
    put_look(text)?;
    Ok(())
}

fn put_size(text: &mut Vec<u8>, wide: u64, high: u64) -> Result<(), AllocError>
    ensures { OnOk result (text.new.items ≡ text.old.items ++ view_size wide high) }
{
    put_number(text, wide)?;
    text.extend_from_slice(b" ")?;
    put_number(text, high)?;
    Ok(())
}

fn put_look(text: &mut Vec<u8>) -> Result<(), AllocError>
    ensures { OnOk result (text.new.items ≡ text.old.items ++ look) }
{
    text.extend_from_slice(b"' font-family='sans-serif' font-size='11' text-anchor='middle'>\n")?;
    text.extend_from_slice(b"<rect x='-40' y='-20' width='100%' height='100%' fill='#fff'/>\n")?;
    Ok(())
}

/// How high all channels are.
fn height_of(shape: &Shape) -> u64
    ensures value { result ≡ full_height shape.now }
    ensures small { result < 2 ^ 24 }
{
    shape.channels as u64 * 200
}

/// Appends the line in the middle of each channel.
fn put_middles(text: &mut Vec<u8>, shape: &Shape) -> Result<(), AllocError>
    ensures { OnOk result (text.new.items ≡ text.old.items ++ middles_line shape.now) }
{
    text.extend_from_slice(b"<path stroke='#ccc' d='")?;
    put_middle_of_each(text, shape)?;
    text.extend_from_slice(b"'/>\n")?;
    Ok(())
}

fn put_middle_of_each(text: &mut Vec<u8>, shape: &Shape) -> Result<(), AllocError>
    ensures { OnOk result (text.new.items ≡ text.old.items ++ middles shape.now shape.now.channels) }
{
    for c in 0..shape.channels {
        put_line_across(text, c as u64 * 200 + 100, shape.columns)?;
    }
    Ok(())
}

fn put_line_across(text: &mut Vec<u8>, y: u64, columns: u32) -> Result<(), AllocError>
    ensures { OnOk result (text.new.items ≡ text.old.items ++ line_across y columns) }
{
    text.extend_from_slice(b"M0 ")?;
    put_number(text, y)?;
    text.extend_from_slice(b"H")?;
    put_number(text, columns.into())?;
    Ok(())
}

/// Appends the strokes as one path.
fn put_waveform(text: &mut Vec<u8>, strokes: &[u8]) -> Result<(), AllocError>
    ensures { OnOk result (text.new.items ≡ text.old.items ++ waveform strokes.now) }
{
    text.extend_from_slice(b"<path stroke='#246' d='")?;
    text.extend_from_slice(strokes)?;
    text.extend_from_slice(b"'/>\n")?;
    Ok(())
}

/// Appends the time axis: a line, and the time at every 150th column.
fn put_axis(text: &mut Vec<u8>, shape: &Shape, rate: u32) -> Result<(), AllocError>
    requires { shape.now.columns * shape.now.wide < 2 ^ 54 }
    ensures { OnOk result (text.new.items ≡ text.old.items ++ axis shape.now rate) }
{
    put_axis_line(text, shape)?;
    put_ticks(text, shape, rate)
}

fn put_axis_line(text: &mut Vec<u8>, shape: &Shape) -> Result<(), AllocError>
    ensures { OnOk result (text.new.items ≡ text.old.items ++ axis_line shape.now) }
{
    text.extend_from_slice(b"<path stroke='#000' d='")?;
    put_line_across(text, height_of(shape), shape.columns)?;
    text.extend_from_slice(b"'/>\n")?;
    Ok(())
}

fn put_ticks(text: &mut Vec<u8>, shape: &Shape, rate: u32) -> Result<(), AllocError>
    requires { shape.now.columns * shape.now.wide < 2 ^ 54 }
    ensures { OnOk result (text.new.items
        ≡ text.old.items ++ ticks shape.now rate (tick_count shape.now)) }
{
    for k in 0..shape.columns / 150 + 1 {
        let column = k as u64 * 150;
        put_tick(text, column, height_of(shape), column * shape.wide, rate)?;
    }
    Ok(())
}

fn put_tick(text: &mut Vec<u8>, x: u64, y: u64, frame: u64, rate: u32) -> Result<(), AllocError>
    requires { frame < 2 ^ 54 }
    ensures { OnOk result (text.new.items ≡ text.old.items ++ tick x y frame rate) }
{
    put_shift(text, x, y)?;
    text.extend_from_slice(b"<path stroke='#000' d='M0 0v5'/><text y='16'>")?;
    put_time(text, frame, rate)?;
    text.extend_from_slice(b"</text></g>\n")?;
    Ok(())
}

/// Appends the start of a group that is shifted.
fn put_shift(text: &mut Vec<u8>, x: u64, y: u64) -> Result<(), AllocError>
    ensures { OnOk result (text.new.items ≡ text.old.items ++ shift x y) }
{
    text.extend_from_slice(b"<g transform='translate(")?;
    put_number(text, x)?;
    text.extend_from_slice(b" ")?;
    put_number(text, y)?;
    text.extend_from_slice(b")'>")?;
    Ok(())
}

/// Appends the markers, each at the column of its frame, with its identifier.
fn put_markers(text: &mut Vec<u8>, shape: &Shape, cues: &Cues) -> Result<(), AllocError>
    requires { 0 < shape.now.wide }
    ensures { OnOk result (text.new.items
        ≡ text.old.items ++ flat_map (marker shape.now) cues.now) }
{
    for cue in cues.as_slice() {
        put_marker(text, shape, cue)?;
    }
    Ok(())
}

/// Appends a marker, unless it is after the last frame.
fn put_marker(text: &mut Vec<u8>, shape: &Shape, cue: &RawCue) -> Result<(), AllocError>
    requires { 0 < shape.now.wide }
    ensures { OnOk result (text.new.items ≡ text.old.items ++ marker shape.now cue.now) }
{
    let frame = u64::from(cue.offset);
    if frame >= shape.frames {
        return Ok(());
    }
    put_marker_at(text, frame / shape.wide, height_of(shape), cue.id)
}

fn put_marker_at(text: &mut Vec<u8>, x: u64, height: u64, id: u32) -> Result<(), AllocError>
    ensures { OnOk result (text.new.items ≡ text.old.items ++ marker_at x height id) }
{
    put_shift(text, x, 0)?;
    put_marker_line(text, height)?;
    put_marker_name(text, id)?;
    Ok(())
}

fn put_marker_line(text: &mut Vec<u8>, height: u64) -> Result<(), AllocError>
    ensures { OnOk result (text.new.items ≡ text.old.items ++ marker_stroke height) }
{
    put_between(text, b"<path stroke='#c30' d='M0 0V", height, b"'/>")
}

fn put_marker_name(text: &mut Vec<u8>, id: u32) -> Result<(), AllocError>
    ensures { OnOk result (text.new.items ≡ text.old.items ++ marker_name id) }
{
    put_between(
        text,
        b"<text y='-6' fill='#c30'>",
        id as u64,
        b"</text></g>\n",
    )
}

/// Appends a number between two texts.
fn put_between(
    text: &mut Vec<u8>,
    before: &[u8],
    number: u64,
    after: &[u8],
) -> Result<(), AllocError>
    ensures { OnOk result (text.new.items
        ≡ text.old.items ++ (before.now ++ (decimal number ++ after.now))) }
{
    text.extend_from_slice(before)?;
    put_number(text, number)?;
    text.extend_from_slice(after)?;
    Ok(())
}
