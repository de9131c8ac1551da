//! The sizes that `ds64` gives for chunks whose heads can't (ITU-R BS.2088).
ghost use Rattle.std.specs.Prelude.{◌≡◌, option_copied, Some, ◌==◌, if◌then◌else◌};
ghost use Rattle.bw_model.specs.Bytes.{unsaid};
ghost use Rattle.bw_model.specs.Reading.{reported_size};
ghost use Rattle.bw_inspect.specs.Chunks.{size_by, sizes_of};

use crate::chunk::is_named;
use bw_layout::{ChunkId, Ds64};

/// The size of a chunk's content: that of its head or, if the head can't hold it, that of the
/// form.
pub(crate) fn size_reported(sizes: &Option<Ds64>, id: ChunkId, size32: u32) -> Option<u64>
    ensures { result ≡
        (if size32 == unsaid then reported_size (sizes_of sizes.now) id else Some size32) }
{
    if size32 == u32::MAX {
        reported(sizes, id)
    } else {
        Some(size32 as u64)
    }
}

/// The size that a form gives for the chunks with an id.
fn reported(sizes: &Option<Ds64>, id: ChunkId) -> Option<u64>
    ensures { result ≡ reported_size (sizes_of sizes.now) id }
{
    let Some(sizes) = sizes else {
        return None;
    };
    if is_named(id, *b"data") {
        return Some(sizes.data_size);
    }
    size_in(sizes.table.as_slice(), id.0)
}

/// The size in the first entry with an id.
fn size_in(table: &[(ChunkId, u64)], id: [u8; 4]) -> Option<u64>
    ensures { result ≡ size_by table.now id }
{
    for (name, size) in table {
        if is_named(*name, id) {
            return Some(*size);
        }
    }
    None
}
