//! Cue points and the `cue ` chunk (RIFF, chapter 3).
ghost use Rattle.std.specs.Prelude.{◌+◌, ◌*◌, ◌≤◌, length, vec_len, vec_capacity, flat_map};
ghost use Rattle.bw_model.specs.Limits.{most_markers};
ghost use Rattle.bw_model.specs.Layout.{chunk, cue_point, cue_content};
ghost use Rattle.bw_model.specs.File.{cue_chunks};
ghost use Rattle.bw_layout.specs.AppendedBytes.{Gains, Appends};
ghost use Rattle.bw_layout.specs.Cues.{cue_chunk_length};

use crate::chunk::{ChunkId, push_head};
use crate::push::{push_bytes, push_u32};
use std::alloc::{AllocError, Global};
use std::marker::Model;

/// A cue point: its identifier, and the frame that it marks, counted from the first one.
#[derive(Clone, Copy, Debug, PartialEq, Eq, Hash)]
pub struct CuePoint {
    pub id: u32,
    pub frame: u32,
}

impl Model for CuePoint {
    ghost use Rattle.std.specs.Prelude.{ℕ};

    ghost Value = { ℕ × ℕ };

    ghost view = { λ c. (c.id, c.frame) };

    ghost inverse = { λ v. record { id = v.0; frame = v.1 } };
}

/// Appends the `cue ` chunk of these points, at most 1,024, in their order; nothing if there are
/// none.
///
/// # Errors
/// `AllocError` if memory was refused, never if there is room: the bytes are as they were.
///
/// # Not specified
/// When memory is refused, and how much room is made beyond what is needed.
#[tactic(auto, using(std::proofs::lemmas::List::append_assoc, crate::proofs::CueChunkBytes::cue_chunk_is, crate::proofs::CueChunkBytes::length_of_some))]
pub fn put_cue_chunk(_alloc: Global, out: &mut Vec<u8>, cues: &[CuePoint]) -> Result<(), AllocError>
    requires { length cues.now ≤ most_markers }
    ensures { Appends (flat_map chunk (cue_chunks cues.now)) (cue_chunk_length (length cues.now))
        result out.old out.new }
{
    if cues.is_empty() {
        return Ok(());
    }
    let size = 4 + 24 * cues.len();
    out.reserve(8 + size)?;
    push_head(out, ChunkId(*b"cue "), size as u32);
    push_cues(out, cues);
    Ok(())
}

/// Appends the content of a `cue ` chunk: points of the data chunk, at most 1,024, in their order.
/// It has 4 bytes, and 24 for each point.
///
/// # Errors
/// `AllocError` if memory was refused, never if there is room: the bytes are as they were.
///
/// # Not specified
/// When memory is refused, and how much room is made beyond what is needed.
pub fn put_cues(_alloc: Global, out: &mut Vec<u8>, cues: &[CuePoint]) -> Result<(), AllocError>
    requires { length cues.now ≤ most_markers }
    ensures { Appends (cue_content cues.now) (4 + 24 * length cues.now) result out.old out.new }
{
    out.reserve(4 + 24 * cues.len())?;
    push_cues(out, cues);
    Ok(())
}

#[tactic(auto, using(std::proofs::lemmas::List::append_assoc))]
fn push_cues(out: &mut Vec<u8>, cues: &[CuePoint])
    requires points { length cues.now ≤ most_markers }
    requires room { vec_len out.old + 4 + 24 * length cues.now ≤ vec_capacity out.old }
    ensures { Gains (cue_content cues.now) (4 + 24 * length cues.now) out.old out.new }
{
    push_u32(out, cues.len() as u32);
    push_points(out, cues);
}

fn push_points(out: &mut Vec<u8>, cues: &[CuePoint])
    requires { vec_len out.old + 24 * length cues.now ≤ vec_capacity out.old }
    ensures { Gains (flat_map cue_point cues.now) (24 * length cues.now) out.old out.new }
{
    for cue in cues {
        push_point(out, *cue);
    }
}

#[tactic(auto, using(std::proofs::lemmas::List::append_assoc))]
fn push_point(out: &mut Vec<u8>, cue: CuePoint)
    requires { vec_len out.old + 24 ≤ vec_capacity out.old }
    ensures { Gains (cue_point cue) 24 out.old out.new }
{
    push_u32(out, cue.id);
    push_u32(out, cue.frame);
    push_bytes(out, b"data");
    push_u32(out, 0);
    push_u32(out, 0);
    push_u32(out, cue.frame);
}
