//! Digests of blocks, made in the lanes of vectors before they are asked for.
ghost use Rattle.std.specs.Prelude.{◌≡◌, ◌≤◌, ◌+◌, ◌*◌, IsTrue, IfOk, IfSome, List, ℕ, Some, length};
ghost use Rattle.bw_store.specs.Stores.{Counts};
ghost use Rattle.bw_disk.specs.DiskSteps.{StaysWhole};
ghost use Rattle.bw_disk.specs.ReadFaults.{is_disk_fault};
ghost use Rattle.bw_model.specs.Bytes.{zeros as zero_bytes};
ghost use Rattle.bw_model.specs.Limits.{longest_block, longest_body};
ghost use Rattle.bw_take_files.specs.BlockDigests.{block_digest_at, AreBlockDigestsIn, KeepsBlockDigests};

use crate::bodies::{bodies_in, read_bodies};
use crate::stored_block::{EntryPlace, JournalRef, StoredBlock, fills_lanes, next_blocks};
use bw_digest::{LANES, digests};
use bw_disk::{ReadFault, Volume};

/// Blocks, and the digest of the body of each one's message.
#[derive(Clone, Copy)]
pub(crate) struct BlockDigests {
    pub(crate) blocks: [StoredBlock; LANES],
    pub(crate) digests: [[u8; 32]; LANES],
}

impl BlockDigests {
    /// The digest of a block, if it is among these.
    pub(crate) fn find(&self, block: StoredBlock) -> Option<[u8; 32]>
        ensures { (name found : List ℕ) → AreBlockDigestsIn name found self.now →
            IfSome result (λ d. d ≡ block_digest_at name found block) }
    {
        for lane in 0..LANES {
            if is_same(self.blocks[lane], block) {
                return Some(self.digests[lane]);
            }
        }
        None
    }
}

/// Whether these are the same block.
fn is_same(first: StoredBlock, second: StoredBlock) -> bool
    ensures { IsTrue result → first ≡ second }
{
    first.number == second.number && first.offset == second.offset && first.len == second.len
}

/// What was read of the blocks of a take before they were asked for.
#[derive(Clone, Copy)]
pub(crate) struct ReadAhead {
    /// The digests, if they were made.
    pub(crate) known: Option<BlockDigests>,
    /// The number of the first entry that wasn't looked at.
    pub(crate) until: u32,
}

impl ReadAhead {
    /// Nothing yet.
    pub(crate) fn new() -> ReadAhead
        ensures { (name found : List ℕ) → KeepsBlockDigests name found result.known }
    {
        ReadAhead {
            known: None,
            until: 0,
        }
    }

    /// The digest of a block, if it is known.
    pub(crate) fn find(&self, block: StoredBlock) -> Option<[u8; 32]>
        ensures { (name found : List ℕ) → KeepsBlockDigests name found self.now.known →
            IfSome result (λ d. d ≡ block_digest_at name found block) }
    {
        match &self.known {
            Some(known) => known.find(block),
            None => None,
        }
    }
}

/// Reads the next blocks from an entry on and makes their digests, if this entry wasn't looked at
/// and hashing them at once is faster.
///
/// # Errors
/// `Disk` if a call of the disk failed.
pub(crate) fn read_ahead<D: Volume>(
    disk: &mut D,
    file: &mut D::File,
    journal: &JournalRef<'_>,
    from: EntryPlace,
    before: ReadAhead,
    room: &mut [u8],
) -> Result<ReadAhead, ReadFault>
    requires zeros { journal.now.zeros.now ≡ zero_bytes longest_block }
    requires within { from.start ≤ length journal.now.bytes.now }
    requires near { from.offset ≤ 4786 + longest_block * from.number }
    requires room { length room.old ≡ 8 * longest_body }
    ensures failures { Counts (D.failures disk.old) (D.failures disk.new) (is_disk_fault result) }
    ensures disk { StaysWhole D.Disk disk.old disk.new }
    ensures path { D.path_of file.new ≡ D.path_of file.old }
    ensures room { length room.new ≡ length room.old }
    ensures known { IsTrue (D.honest disk.old) → IfOk result (λ ahead. (found : List ℕ) →
        D.contents disk.old (D.path_of file.old) ≡ Some found →
        KeepsBlockDigests journal.now.name.now found before.known →
        KeepsBlockDigests journal.now.name.now found ahead.known) }
{
    if from.number < before.until {
        return Ok(before);
    }
    let (blocks, until) = next_blocks(journal, from);
    if !fills_lanes(&blocks) {
        return Ok(ReadAhead { known: None, until });
    }
    let lens = read_bodies(disk, file, journal.name, &blocks, room)?;
    let digests = digests(&bodies_in(room, &lens));
    Ok(ReadAhead {
        known: Some(BlockDigests { blocks, digests }),
        until,
    })
}
