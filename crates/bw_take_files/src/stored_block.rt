//! The blocks that a journal says are in a take's file, and where.
ghost use Rattle.std.specs.Prelude.{◌≡◌, ◌≤◌, ◌+◌, ◌*◌, IsTrue, IfSome, length};
ghost use Rattle.bw_model.specs.Bytes.{zeros as zero_bytes};
ghost use Rattle.bw_model.specs.Limits.{longest_block};
ghost use Rattle.bw_model.specs.Wire.{is_request};
ghost use Rattle.bw_model.specs.Requests.{meaning};
ghost use Rattle.bw_journal.specs.Refs.{entry_said};
ghost use Rattle.bw_digest.specs.Lanes.{InEachLane};
ghost use Rattle.bw_take_files.specs.TakeSamples.{brought as brought_by};
ghost use Rattle.bw_take_files.specs.BlockDigests.{block_at, IsBlockNear};

use bw_digest::LANES;
use bw_journal::{EntryRef, entry_of, first_content};
use bw_model::{Name, RequestRef};
use std::alloc::Global;

/// Hashing in lanes takes as long as hashing this many blocks of the longest one's length one after
/// another.
const LANES_TAKE: usize = 5;

/// The samples of a BLOCK message in a take's file; those of length 0 are none.
#[derive(Clone, Copy)]
pub(crate) struct StoredBlock {
    /// The message's number.
    pub(crate) number: u32,
    /// The offset of the samples in the file.
    pub(crate) offset: u64,
    /// How many bytes they are.
    pub(crate) len: usize,
}

/// A take's journal.
#[derive(Clone, Copy)]
pub(crate) struct JournalRef<'a> {
    /// The take's name.
    pub(crate) name: &'a Name,
    /// The journal's bytes.
    pub(crate) bytes: &'a [u8],
    /// As many zeros as a block has bytes at most.
    pub(crate) zeros: &'a [u8],
    /// Where its entries are read to.
    pub(crate) alloc: Global,
}

/// The place of an entry.
#[derive(Clone, Copy)]
pub(crate) struct EntryPlace {
    /// Its number.
    pub(crate) number: u32,
    /// Its offset in the journal.
    pub(crate) start: usize,
    /// The offset in the take's file of what it brought.
    pub(crate) offset: u64,
}

/// The next blocks that are stored, from an entry on, and the number of the first entry that wasn't
/// looked at.
pub(crate) fn next_blocks(journal: &JournalRef<'_>, from: EntryPlace) -> ([StoredBlock; LANES], u32)
    requires zeros { journal.now.zeros.now ≡ zero_bytes longest_block }
    requires within { from.start ≤ length journal.now.bytes.now }
    requires near { from.offset ≤ 4786 + longest_block * from.number }
    ensures near { InEachLane (λ j. IsBlockNear (block_at result.0 j)) }
{
    let mut blocks = [StoredBlock {
        number: 0,
        offset: 0,
        len: 0,
    }; LANES];
    let mut content = Vec::new(journal.alloc);
    let mut lane = 0;
    let mut start = from.start;
    let mut offset = from.offset;
    for number in from.number..u32::MAX {
        if lane == LANES {
            return (blocks, number);
        }
        let Some(len) = read_next(&journal.bytes[start..], &mut content) else {
            return (blocks, u32::MAX);
        };
        let Some(entry) = entry_of(content.as_slice(), journal.zeros) else {
            return (blocks, u32::MAX);
        };
        let samples = brought(&entry);
        if samples > 0 {
            blocks[lane] = StoredBlock {
                number,
                offset,
                len: samples,
            };
            lane += 1;
        }
        start += len;
        offset += samples as u64;
    }
    (blocks, u32::MAX)
}

/// Reads the content of the next entry, and returns how many bytes the entry takes; None if there
/// is none, or memory was refused.
fn read_next(bytes: &[u8], content: &mut Vec<u8>) -> Option<usize>
    ensures { IfSome result (λ n. n ≤ length bytes.now) }
{
    match first_content(bytes, content) {
        Ok(found) => found,
        Err(_) => None,
    }
}

/// How many bytes of samples an entry brought: those of a block that is stored.
pub(crate) fn brought(entry: &EntryRef<'_>) -> usize
    ensures value { result ≡ brought_by (entry_said entry.now) }
    ensures few { IsTrue (is_request (meaning entry.now.request)) → result ≤ longest_block }
{
    if !entry.verdict.is_stored() {
        return 0;
    }
    match entry.request {
        RequestRef::Block { bytes } => bytes.len(),
        _ => 0,
    }
}

/// Whether these blocks are hashed faster at once than one after another.
pub(crate) fn fills_lanes(blocks: &[StoredBlock; LANES]) -> bool {
    let mut total = 0usize;
    let mut longest = 0usize;
    for block in blocks {
        total = total.saturating_add(block.len);
        longest = longest.max(block.len);
    }
    total > longest.saturating_mul(LANES_TAKE)
}
