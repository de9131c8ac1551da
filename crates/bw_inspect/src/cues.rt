//! The points of a `cue ` chunk (RIFF, chapter 3).
ghost use Rattle.std.specs.Prelude.{◌≡◌, ◌+◌, ◌*◌, ◌^◌, ◌≤◌, ◌<◌, length, IfOk, IfErr};
ghost use Rattle.bw_model.specs.Limits.{most_cues};
ghost use Rattle.bw_inspect.specs.ReaderCalls.{Consumes};
ghost use Rattle.bw_inspect.specs.Places.{Nowhere};
ghost use Rattle.bw_inspect.specs.Contents.{InContent, IsStoppedIn};
ghost use Rattle.bw_inspect.specs.CueContents.{WantsCounted, IsCounted, IsCued, cue_faults};

use crate::content::{pass_rest, read_part};
use crate::fault::{InspectFault, InspectKind, fault_at};
use crate::report::{Cues, ListedChunk};
use crate::row_list::read_rows;
use bw_model::read_u32;
use bw_stream::Source;
use std::alloc::Global;

/// The most points that are read.
const MOST_POINTS: u32 = 65_536;

/// Reads a `cue ` chunk's content.
///
/// # Errors
/// Truncated, TooMany, BadCue; Read; Memory.
pub(crate) fn read_cues<R: Source>(
    alloc: Global,
    reader: &mut R,
    entry: ListedChunk,
) -> Result<Cues, InspectFault>
    requires room { entry.place + 8 + entry.size < 2 ^ 63 }
    requires long { 4 ≤ entry.size }
    ensures consumed { Consumes R.Source entry.size result reader.old reader.new }
    ensures few { IfOk result (λ x. length x ≤ most_cues) }
    ensures ok { IfOk result (λ x. InContent (R.left reader.old) entry 0 (λ b.
        IsCued b entry x (R.left reader.new))) }
    ensures err { IfErr result (λ f. InContent (R.left reader.old) entry 0 (λ b.
        IsStoppedIn b (WantsCounted b entry) (cue_faults b entry) entry f (R.left reader.new))) }
{
    let count = read_count(reader, entry)?;
    let points = read_rows(alloc, reader, entry, 4, count)?;
    pass_rest(reader, entry, 4 + 24 * count)?;
    Ok(Cues::new(points))
}

/// Reads how many points a `cue ` chunk has.
///
/// # Errors
/// Truncated, TooMany, BadCue; Read.
fn read_count<R: Source>(reader: &mut R, entry: ListedChunk) -> Result<u64, InspectFault>
    requires room { entry.place + 8 + entry.size < 2 ^ 63 }
    requires long { 4 ≤ entry.size }
    ensures consumed { Consumes R.Source 4 result reader.old reader.new }
    ensures few { IfOk result (λ n. n ≤ most_cues) }
    ensures fits { IfOk result (λ n. 4 + 24 * n ≤ entry.size) }
    ensures ok { IfOk result (λ n. InContent (R.left reader.old) entry 0 (λ b.
        IsCounted b entry n (R.left reader.new))) }
    ensures err { IfErr result (λ f. InContent (R.left reader.old) entry 0 (λ b.
        IsStoppedIn b Nowhere (cue_faults b entry) entry f (R.left reader.new))) }
{
    let mut prefix = [0; 4];
    read_part(reader, entry, 0, &mut prefix)?;
    let count = read_u32(&prefix, 0);
    if count > MOST_POINTS {
        return Err(fault_at(InspectKind::TooMany, entry.place));
    }
    let count = count as u64;
    if 4 + 24 * count > entry.size {
        return Err(fault_at(InspectKind::BadCue, entry.place));
    }
    Ok(count)
}
