//! Lists in a chunk's content: rows of a fixed size, one after another.
ghost use Rattle.std.specs.Prelude.{◌≡◌, ℕ, ◌+◌, ◌*◌, ◌^◌, ◌≤◌, ◌<◌, List, length, IfOk, IfErr};
ghost use Rattle.std.proofs.Common.{lit<, lit≤};
ghost use Rattle.std.specs.Result.{OkIff};
ghost use Rattle.bw_layout.specs.Raw.{raw_cue};
ghost use Rattle.bw_layout.specs.Tables.{entry_at};
ghost use Rattle.bw_inspect.specs.ReaderCalls.{Consumes};
ghost use Rattle.bw_inspect.specs.Places.{HasGrown, Nowhere};
ghost use Rattle.bw_inspect.specs.Contents.{InContent, IsCutShort};
ghost use Rattle.bw_inspect.specs.RowLists.{HasRow, HasRows};

use crate::content::read_part;
use crate::fault::{InspectFault, InspectKind, fault_at};
use crate::report::ListedChunk;
use bw_layout::{ChunkId, RawCue, Short, read_cue, read_entry};
use bw_stream::Source;
use std::alloc::Global;

/// The widest row, in bytes: a cue point.
const WIDEST: usize = 24;

/// A row of a fixed size in bytes.
pub(crate) trait Row: Copy {
    ghost WIDTH: { ℕ };

    /// What the bytes of a row say.
    ghost reported: { List ℕ → Self };

    /// Its size in bytes.
    const WIDTH: usize;

    /// The row at the start of these bytes.
    ///
    /// # Errors
    /// Short if there are fewer bytes than a row has.
    fn read_row(bytes: &[u8]) -> Result<Self, Short>
        ensures { OkIff result (WIDTH ≤ length bytes.now) (reported bytes.now) };

    ghost some: { 0 < WIDTH };

    ghost narrow: { WIDTH ≤ 24 };
}

impl Row for RawCue {
    ghost WIDTH = { 24 };

    ghost reported = { raw_cue };

    ghost some = { lit< tt };

    ghost narrow = { lit≤ tt };

    const WIDTH: usize = 24;

    fn read_row(bytes: &[u8]) -> Result<RawCue, Short> {
        read_cue(bytes)
    }
}

impl Row for (ChunkId, u64) {
    ghost WIDTH = { 12 };

    ghost reported = { entry_at };

    ghost some = { lit< tt };

    ghost narrow = { lit≤ tt };

    const WIDTH: usize = 12;

    fn read_row(bytes: &[u8]) -> Result<(ChunkId, u64), Short> {
        read_entry(bytes)
    }
}

/// Reads this many rows, which begin after `prefix` bytes of a chunk's content.
///
/// # Errors
/// Truncated; Read; Memory.
pub(crate) fn read_rows<R: Source, T: Row>(
    alloc: Global,
    reader: &mut R,
    entry: ListedChunk,
    prefix: u64,
    count: u64,
) -> Result<Vec<T>, InspectFault>
    requires room { entry.place + 8 + entry.size < 2 ^ 63 }
    requires fits { prefix + T.WIDTH * count ≤ entry.size }
    ensures consumed { Consumes R.Source (T.WIDTH * count) result reader.old reader.new }
    ensures all { IfOk result (λ rows. length rows.items ≡ count) }
    ensures ok { IfOk result (λ rows. InContent (R.left reader.old) entry prefix (λ b.
        HasRows T.reported T.WIDTH b entry prefix count rows.items (R.left reader.new))) }
    ensures err { IfErr result (λ f. InContent (R.left reader.old) entry prefix (λ b.
        IsCutShort b entry entry.size (HasGrown b (entry.place + 8 + prefix) T.WIDTH count) f
        (R.left reader.new))) }
{
    let mut rows = Vec::new(alloc);
    for done in 0..count {
        let row = read_next(reader, entry, prefix + T::WIDTH as u64 * done)?;
        let Ok(()) = rows.push(row) else {
            return Err(fault_at(InspectKind::Memory, entry.place));
        };
    }
    Ok(rows)
}

/// Reads the row after `done` bytes of a chunk's content.
///
/// # Errors
/// Truncated; Read.
fn read_next<R: Source, T: Row>(
    reader: &mut R,
    entry: ListedChunk,
    done: u64,
) -> Result<T, InspectFault>
    requires room { entry.place + 8 + entry.size < 2 ^ 63 }
    requires fits { done + T.WIDTH ≤ entry.size }
    ensures consumed { Consumes R.Source T.WIDTH result reader.old reader.new }
    ensures ok { IfOk result (λ row. InContent (R.left reader.old) entry done (λ b.
        HasRow T.reported T.WIDTH b entry done row (R.left reader.new))) }
    ensures err { IfErr result (λ f. InContent (R.left reader.old) entry done (λ b.
        IsCutShort b entry entry.size Nowhere f (R.left reader.new))) }
{
    let mut buffer = [0; WIDEST];
    let bytes = &mut buffer[..T::WIDTH];
    read_part(reader, entry, done, bytes)?;
    let Ok(row) = T::read_row(bytes) else {
        return Err(fault_at(InspectKind::Truncated, entry.place));
    };
    Ok(row)
}
