//! The `ds64` chunk, with which a BW64 or RF64 file begins (ITU-R BS.2088).
ghost use Rattle.std.specs.Prelude.{◌≡◌, ◌+◌, ◌*◌, ◌^◌, ◌≤◌, ◌<◌, length, IfOk, IfErr, Some};
ghost use Rattle.bw_model.specs.Limits.{most_entries};
ghost use Rattle.bw_inspect.specs.ReaderCalls.{Consumes};
ghost use Rattle.bw_inspect.specs.Places.{AtPlace, Nowhere};
ghost use Rattle.bw_inspect.specs.Contents.{InContent, IsStoppedIn, IsStopped};
ghost use Rattle.bw_inspect.specs.Chunks.{sizes_by};
ghost use Rattle.bw_inspect.specs.Tables.{WantsEntry, IsDs64Head, IsDs64Read, IsFixed};
ghost use Rattle.bw_inspect.specs.Tables.{ds64_head_faults, table_faults};

use crate::chunk::is_named;
use crate::content::{pass_rest, read_part};
use crate::fault::{InspectFault, InspectKind, fault_at};
use crate::report::ListedChunk;
use crate::row_list::read_rows;
use crate::walk::read_head_at;
use bw_layout::{Ds64, Ds64Fixed, SizeTable, read_ds64_fixed};
use bw_stream::Source;
use std::alloc::Global;

/// Where a `ds64` chunk is: after the outer header.
const PLACE: u64 = 12;

/// The most entries of a table that are read.
const MOST_ENTRIES: u32 = 4_096;

/// Reads the head of the `ds64` chunk.
///
/// # Errors
/// NoDs64, BadDs64; Read.
pub(crate) fn read_ds64_head<R: Source>(reader: &mut R) -> Result<ListedChunk, InspectFault>
    ensures consumed { Consumes R.Source 8 result reader.old reader.new }
    ensures place { IfOk result (λ e. e.place ≡ 12) }
    ensures size { IfOk result (λ e. (28 ≤ e.size) × (e.size < 2 ^ 32)) }
    ensures ok { IfOk result (λ e. AtPlace (R.left reader.old) 12 (λ b.
        IsDs64Head b e (R.left reader.new))) }
    ensures err { IfErr result (λ f. AtPlace (R.left reader.old) 12 (λ b.
        12 ≤ length b → IsStopped b 20 12 Nowhere (ds64_head_faults b) f (R.left reader.new))) }
{
    let head = read_head_at(reader, PLACE, fault_at(InspectKind::NoDs64, PLACE))?;
    if !is_named(head.id, *b"ds64") {
        return Err(fault_at(InspectKind::NoDs64, PLACE));
    }
    if head.size32 < 28 || head.size32 == u32::MAX {
        return Err(fault_at(InspectKind::BadDs64, PLACE));
    }
    Ok(ListedChunk {
        id: head.id,
        place: PLACE,
        size: head.size32 as u64,
    })
}

/// Reads the content of the `ds64` chunk; what follows its table is passed over.
///
/// # Errors
/// Truncated, TooMany, BadDs64; Read; Memory.
pub(crate) fn read_ds64<R: Source>(
    alloc: Global,
    reader: &mut R,
    entry: ListedChunk,
) -> Result<Ds64, InspectFault>
    requires room { entry.place + 8 + entry.size < 2 ^ 63 }
    requires long { 28 ≤ entry.size }
    ensures consumed { Consumes R.Source entry.size result reader.old reader.new }
    ensures ok { IfOk result (λ x. InContent (R.left reader.old) entry 0 (λ b.
        IsDs64Read b entry x (R.left reader.new))) }
    ensures err { IfErr result (λ f. InContent (R.left reader.old) entry 0 (λ b.
        IsStoppedIn b (WantsEntry b entry) (table_faults b entry) entry f (R.left reader.new))) }
{
    let fixed = read_fixed(reader, entry)?;
    let count = fixed.table_len as u64;
    let rows = read_rows(alloc, reader, entry, 28, count)?;
    pass_rest(reader, entry, 28 + 12 * count)?;
    Ok(Ds64 {
        form: fixed.form,
        data_size: fixed.data_size,
        table: SizeTable::new(rows),
    })
}

/// Reads what comes before the table.
///
/// # Errors
/// Truncated, TooMany, BadDs64; Read.
fn read_fixed<R: Source>(reader: &mut R, entry: ListedChunk) -> Result<Ds64Fixed, InspectFault>
    requires room { entry.place + 8 + entry.size < 2 ^ 63 }
    requires long { 28 ≤ entry.size }
    ensures consumed { Consumes R.Source 28 result reader.old reader.new }
    ensures few { IfOk result (λ x. x.table_len ≤ most_entries) }
    ensures fits { IfOk result (λ x. 28 + 12 * x.table_len ≤ entry.size) }
    ensures ok { IfOk result (λ x. InContent (R.left reader.old) entry 0 (λ b.
        IsFixed b entry x (R.left reader.new))) }
    ensures err { IfErr result (λ f. InContent (R.left reader.old) entry 0 (λ b.
        IsStoppedIn b Nowhere (table_faults b entry) entry f (R.left reader.new))) }
{
    let mut prefix = [0; 28];
    read_part(reader, entry, 0, &mut prefix)?;
    let Ok(fixed) = read_ds64_fixed(&prefix) else {
        return Err(fault_at(InspectKind::BadDs64, entry.place));
    };
    if fixed.table_len > MOST_ENTRIES {
        return Err(fault_at(InspectKind::TooMany, entry.place));
    }
    if 28 + 12 * fixed.table_len as u64 > entry.size {
        return Err(fault_at(InspectKind::BadDs64, entry.place));
    }
    Ok(fixed)
}
