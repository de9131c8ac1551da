//! The `ds64` chunk: the sizes that 32 bits can't hold (ITU-R BS.2088).
ghost use Rattle.std.specs.Prelude.{◌≡◌, ◌+◌, ◌*◌, ◌≤◌, ◌++◌, length, vec_len, vec_capacity};
ghost use Rattle.std.specs.Prelude.{flat_map, take};
ghost use Rattle.std.specs.Result.{OkIff};
ghost use Rattle.bw_model.specs.Bytes.{le32, le64};
ghost use Rattle.bw_model.specs.Limits.{most_entries};
ghost use Rattle.bw_layout.specs.AppendedBytes.{Gains, Appends};
ghost use Rattle.bw_layout.specs.Tables.{entry_bytes, ds64_with_table, entry_at, fixed_at};

use crate::chunk::{ChunkId, Short};
use crate::push::{push_bytes, push_u32, push_u64};
use bw_model::{read_id, read_u32, read_u64};
use std::alloc::{AllocError, Global};
use std::marker::Model;

/// The content of a `ds64` chunk.
#[derive(Debug, Drop)]
pub struct Ds64 {
    /// The form size in bytes: the file's length minus 8.
    pub form: u64,
    /// The length of the data in bytes, without their pad byte.
    pub data_size: u64,
    pub table: SizeTable,
}

/// The sizes of further chunks, in bytes, by their ids.
#[derive(Debug, Drop)]
pub struct SizeTable {
    entries: Vec<(ChunkId, u64)>,
}

impl Model for SizeTable {
    ghost use Rattle.std.specs.Prelude.{ℕ, List};

    ghost Value = { List (List ℕ × ℕ) };

    ghost view = { λ t. t.entries.items };
}

impl SizeTable {
    /// A table of these entries.
    pub fn new(entries: Vec<(ChunkId, u64)>) -> SizeTable
        ensures { result ≡ entries.items }
    {
        SizeTable { entries }
    }

    /// The entries, in their order.
    pub fn as_slice(&self) -> &[(ChunkId, u64)]
        ensures { result.now ≡ self.now }
    {
        self.entries.as_slice()
    }

    /// The entries, by value.
    pub fn into_entries(self) -> Vec<(ChunkId, u64)>
        ensures { result.items ≡ self }
    {
        self.entries
    }
}

/// What comes before the table of a `ds64` chunk.
#[derive(Clone, Copy, Debug, PartialEq, Eq)]
pub struct Ds64Fixed {
    /// The form size, in bytes.
    pub form: u64,
    /// The size of the data, in bytes.
    pub data_size: u64,
    /// How many entries follow.
    pub table_len: u32,
}

impl Model for Ds64Fixed {
    ghost use Rattle.bw_layout.specs.Tables.{Fixed};

    ghost Value = { Fixed };

    ghost view = { λ d.
        record { form = d.form; data_size = d.data_size; table_len = d.table_len } };

    ghost inverse = { λ v.
        record { form = v.form; data_size = v.data_size; table_len = v.table_len } };
}

/// Appends the content of a `ds64` chunk, with at most 4,096 entries: 28 bytes, and 12 for each
/// entry.
///
/// # Errors
/// `AllocError` if memory was refused, never if there is room: the bytes are as they were.
///
/// # Not specified
/// When memory is refused, and how much room is made beyond what is needed.
#[tactic(auto, using(std::proofs::lemmas::List::append_assoc), unfolding(crate::specs::Tables::ds64_with_table))]
pub fn put_ds64(_alloc: Global, out: &mut Vec<u8>, sizes: &Ds64) -> Result<(), AllocError>
    requires { length sizes.now.table ≤ most_entries }
    ensures { let table = sizes.now.table in
        let bytes = ds64_with_table sizes.now.form sizes.now.data_size table in
        Appends bytes (28 + 12 * length table) result out.old out.new }
{
    let table = sizes.table.as_slice();
    out.reserve(28 + 12 * table.len())?;
    push_fixed(out, sizes.form, sizes.data_size, table.len() as u32);
    push_table(out, table);
    Ok(())
}

/// Reads what comes before the table at the start of a `ds64` chunk's content.
///
/// # Errors
/// Short if there are fewer than 28 bytes.
pub fn read_ds64_fixed(bytes: &[u8]) -> Result<Ds64Fixed, Short>
    ensures { OkIff result (28 ≤ length bytes.now) (fixed_at bytes.now) }
{
    if bytes.len() < 28 {
        return Err(Short);
    }
    Ok(Ds64Fixed {
        form: read_u64(bytes, 0),
        data_size: read_u64(bytes, 8),
        table_len: read_u32(bytes, 24),
    })
}

/// Reads an entry of the table: a chunk's id, and its size in bytes.
///
/// # Errors
/// Short if there are fewer than 12 bytes.
pub fn read_entry(bytes: &[u8]) -> Result<(ChunkId, u64), Short>
    ensures { OkIff result (12 ≤ length bytes.now) (entry_at bytes.now) }
{
    if bytes.len() < 12 {
        return Err(Short);
    }
    Ok((ChunkId(read_id(bytes, 0)), read_u64(bytes, 4)))
}

/// The 16 bytes at 20 of a BW64 file: form and data size in its `ds64`.
pub fn patch_sizes(form: u64, data_size: u64) -> [u8; 16]
    ensures { result ≡ le64 form ++ le64 data_size }
{
    let [a, b, c, d, e, f, g, h] = form.to_le_bytes();
    let [i, j, k, l, m, n, o, p] = data_size.to_le_bytes();
    [a, b, c, d, e, f, g, h, i, j, k, l, m, n, o, p]
}

#[tactic(auto, using(std::proofs::lemmas::List::append_assoc))]
fn push_fixed(out: &mut Vec<u8>, form: u64, data_size: u64, table_len: u32)
    requires { vec_len out.old + 28 ≤ vec_capacity out.old }
    ensures { Gains (le64 form ++ le64 data_size ++ le64 0 ++ le32 table_len) 28 out.old out.new }
{
    push_u64(out, form);
    push_u64(out, data_size);
    push_u64(out, 0);
    push_u32(out, table_len);
}

fn push_table(out: &mut Vec<u8>, table: &[(ChunkId, u64)])
    requires { vec_len out.old + 12 * length table.now ≤ vec_capacity out.old }
    ensures { Gains (flat_map entry_bytes table.now) (12 * length table.now) out.old out.new }
{
    for (id, size) in table {
        push_entry(out, *id, *size);
    }
}

#[tactic(auto, using(std::proofs::lemmas::List::append_assoc))]
fn push_entry(out: &mut Vec<u8>, id: ChunkId, size: u64)
    requires { vec_len out.old + 12 ≤ vec_capacity out.old }
    ensures { Gains (id ++ le64 size) 12 out.old out.new }
{
    push_bytes(out, &id.0);
    push_u64(out, size);
}
