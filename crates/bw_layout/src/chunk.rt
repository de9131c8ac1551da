//! The ids and heads of chunks (RIFF, chapter 2, "Chunks").
ghost use Rattle.std.specs.Prelude.{◌≡◌, ◌+◌, ◌≤◌, Some, codes, length, vec_len, vec_capacity};
ghost use Rattle.std.specs.Result.{OkIff};
ghost use Rattle.bw_model.specs.Layout.{head as head_bytes};
ghost use Rattle.bw_layout.specs.AppendedBytes.{Gains, Appends};
ghost use Rattle.bw_layout.specs.Heads.{chunk_head};

use crate::push::{push_bytes, push_u32};
use bw_model::{read_id, read_u32};
use std::alloc::{AllocError, Global};
use std::error::Error;
use std::fmt;
use std::marker::Model;

/// The four bytes that name a chunk.
#[derive(Clone, Copy, Debug, PartialEq, Eq, Hash, PartialOrd, Ord)]
pub struct ChunkId(pub [u8; 4]);

impl Model for ChunkId {
    ghost use Rattle.std.specs.Prelude.{ℕ, List};

    ghost Value = { List ℕ };

    ghost view = { λ id. id.0 };

    ghost inverse = { λ v. record { 0 = v } };
}

/// What comes before a chunk's content.
#[derive(Clone, Copy, Debug, PartialEq, Eq, Hash)]
pub struct ChunkHead {
    pub id: ChunkId,
    /// The content's length in bytes, without its pad byte, as far as four bytes can hold it.
    pub size32: u32,
}

/// There are too few bytes to read from.
#[derive(Clone, Copy, Debug, PartialEq, Eq)]
pub struct Short;

impl Short {
    /// Its number.
    pub fn code(self) -> u8
        ensures { result ≡ 1 }
    {
        1
    }
}

impl fmt::Display for Short {
    ghost output = { λ _. Some (codes "too few bytes") };

    /// Writes `too few bytes`.
    fn fmt<W: fmt::Write>(&self, f: &mut fmt::Formatter<W>) -> fmt::Result {
        f.write_str("too few bytes")
    }
}

impl Error for Short {}

/// Appends a chunk's head of 8 bytes.
///
/// # Errors
/// `AllocError` if memory was refused, never if there is room: the bytes are as they were.
///
/// # Not specified
/// When memory is refused, and how much room is made beyond what is needed.
pub fn put_head(_alloc: Global, out: &mut Vec<u8>, head: ChunkHead) -> Result<(), AllocError>
    ensures { Appends (head_bytes head.id head.size32) 8 result out.old out.new }
{
    out.reserve(8)?;
    push_head(out, head.id, head.size32);
    Ok(())
}

/// Reads a chunk's head.
///
/// # Errors
/// Short if there are fewer than 8 bytes.
pub fn read_head(bytes: &[u8]) -> Result<ChunkHead, Short>
    ensures { OkIff result (8 ≤ length bytes.now) (chunk_head bytes.now) }
{
    if bytes.len() < 8 {
        return Err(Short);
    }
    Ok(ChunkHead {
        id: ChunkId(read_id(bytes, 0)),
        size32: read_u32(bytes, 4),
    })
}

#[tactic(auto, using(std::proofs::lemmas::List::append_assoc))]
pub(crate) fn push_head(out: &mut Vec<u8>, id: ChunkId, size32: u32)
    requires { vec_len out.old + 8 ≤ vec_capacity out.old }
    ensures { Gains (head_bytes id size32) 8 out.old out.new }
{
    push_bytes(out, &id.0);
    push_u32(out, size32);
}
