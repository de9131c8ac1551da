//! The bodies of messages, made anew with the samples that a take's file has.
ghost use Rattle.std.specs.Prelude.{◌≡◌, ◌≤◌, ◌<◌, ◌+◌, ◌*◌, ◌^◌, ◌++◌, IsTrue, IfOk, List, ℕ};
ghost use Rattle.std.specs.Prelude.{Some, length, take, drop, slice_index};
ghost use Rattle.bw_store.specs.Stores.{Counts};
ghost use Rattle.bw_disk.specs.DiskSteps.{StaysWhole};
ghost use Rattle.bw_disk.specs.ReadFaults.{is_disk_fault};
ghost use Rattle.bw_model.specs.Holds.{body_of};
ghost use Rattle.bw_model.specs.Limits.{longest_body};
ghost use Rattle.bw_model.specs.Take.{Block};
ghost use Rattle.bw_digest.specs.Lanes.{InEachLane};
ghost use Rattle.bw_digest.specs.Messages.{lent_at};
ghost use Rattle.bw_take_files.specs.BlockDigests.{block_at, body_at, body_in, IsBlockNear};

use crate::stored_block::StoredBlock;
use bw_digest::LANES;
use bw_disk::{ReadFault, Volume};
use bw_model::Name;

/// The body of a message with a block has at most this many bytes.
pub(crate) const LONGEST_BODY: usize = 32_806;

/// Reads the samples of these blocks, makes the body of each message in its part of the room, and
/// returns their lengths.
///
/// # Errors
/// `Disk` if a call of the disk failed.
pub(crate) fn read_bodies<D: Volume>(
    disk: &mut D,
    file: &mut D::File,
    name: &Name,
    blocks: &[StoredBlock; LANES],
    room: &mut [u8],
) -> Result<[usize; LANES], ReadFault>
    requires near { InEachLane (λ j. IsBlockNear (block_at blocks.now j)) }
    requires room { length room.old ≡ 8 * longest_body }
    ensures failures { Counts (D.failures disk.old) (D.failures disk.new) (is_disk_fault result) }
    ensures disk { StaysWhole D.Disk disk.old disk.new }
    ensures path { D.path_of file.new ≡ D.path_of file.old }
    ensures room { length room.new ≡ length room.old }
    ensures short { IfOk result (λ lens. InEachLane (λ j. slice_index lens j ≤ longest_body)) }
    ensures read { IsTrue (D.honest disk.old) → IfOk result (λ lens. (found : List ℕ) →
        D.contents disk.old (D.path_of file.old) ≡ Some found →
        InEachLane (λ j. body_in room.new lens j
        ≡ body_at name.now found (block_at blocks.now j))) }
{
    let mut lens = [0; LANES];
    for lane in 0..LANES {
        let block = block_in(blocks, lane);
        let start = lane * LONGEST_BODY;
        let part = &mut room[start..start + LONGEST_BODY];
        let len = read_body(disk, file, name, block, part)?;
        lens[lane] = len;
    }
    Ok(lens)
}

/// The block in a lane.
fn block_in(blocks: &[StoredBlock; LANES], lane: usize) -> StoredBlock
    requires { lane < 8 }
    ensures { result ≡ block_at blocks.now lane }
{
    blocks[lane]
}

/// Reads the samples of a block, makes the body of its message in the room, and returns its length.
///
/// # Errors
/// `Disk` if a call of the disk failed.
fn read_body<D: Volume>(
    disk: &mut D,
    file: &mut D::File,
    name: &Name,
    block: StoredBlock,
    room: &mut [u8],
) -> Result<usize, ReadFault>
    requires near { IsBlockNear block }
    requires room { length room.old ≡ longest_body }
    ensures failures { Counts (D.failures disk.old) (D.failures disk.new) (is_disk_fault result) }
    ensures disk { StaysWhole D.Disk disk.old disk.new }
    ensures path { D.path_of file.new ≡ D.path_of file.old }
    ensures room { length room.new ≡ longest_body }
    ensures short { IfOk result (λ len. len ≤ longest_body) }
    ensures read { IsTrue (D.honest disk.old) → IfOk result (λ len. (found : List ℕ) →
        D.contents disk.old (D.path_of file.old) ≡ Some found →
        take len room.new ≡ body_at name.now found block) }
{
    let start = put_prefix(name, block.number, room);
    let count = read_from(
        disk,
        file,
        block.offset,
        &mut room[start..start + block.len],
    )?;
    Ok(start + count)
}

/// Puts what comes before the samples in a body, and returns how many bytes that is.
fn put_prefix(name: &Name, number: u32, room: &mut [u8]) -> usize
    requires { length room.old ≡ longest_body }
    ensures room { length room.new ≡ longest_body }
    ensures short { result ≤ 38 }
    ensures value { (samples : List ℕ) →
        take result room.new ++ samples ≡ body_of name.now number (Block samples) }
{
    let bytes = name.as_bytes();
    let end = 2 + bytes.len();
    put(room, 0, &[2, bytes.len() as u8]);
    put(room, 2, bytes);
    put(room, end, &number.to_le_bytes());
    end + 4
}

/// Puts bytes at a place.
fn put(room: &mut [u8], at: usize, bytes: &[u8])
    requires { at + length bytes.now ≤ length room.old }
    ensures room { length room.new ≡ length room.old }
    ensures value { take (at + length bytes.now) room.new ≡ take at room.old ++ bytes.now }
{
    room[at..at + bytes.len()].copy_from_slice(bytes);
}

/// Reads bytes of a file from an offset on, up to its end or to that of the room, and returns how
/// many.
pub(crate) fn read_from<D: Volume>(
    disk: &mut D,
    file: &mut D::File,
    offset: u64,
    room: &mut [u8],
) -> Result<usize, ReadFault>
    requires offset { offset < 2 ^ 63 }
    ensures failures { Counts (D.failures disk.old) (D.failures disk.new) (is_disk_fault result) }
    ensures disk { StaysWhole D.Disk disk.old disk.new }
    ensures path { D.path_of file.new ≡ D.path_of file.old }
    ensures room { length room.new ≡ length room.old }
    ensures fits { IfOk result (λ count. count ≤ length room.old) }
    ensures read { IsTrue (D.honest disk.old) → IfOk result (λ count. (found : List ℕ) →
        D.contents disk.old (D.path_of file.old) ≡ Some found →
        take count room.new ≡ take (length room.old) (drop offset found)) }
{
    let mut count = 0;
    while count < room.len() {
        let Ok(more) = disk.read_at(file, offset + count as u64, &mut room[count..]) else {
            return Err(ReadFault::Disk);
        };
        if more == 0 {
            return Ok(count);
        }
        count += more;
    }
    Ok(count)
}

/// The bodies in the room.
pub(crate) fn bodies_in<'a>(room: &'a [u8], lens: &[usize; LANES]) -> [&'a [u8]; LANES]
    requires room { length room.now ≡ 8 * longest_body }
    requires short { InEachLane (λ j. slice_index lens.now j ≤ longest_body) }
    ensures { InEachLane (λ j. lent_at result j ≡ body_in room.now lens.now j) }
{
    [
        body_of_len(room, 0, lens[0]),
        body_of_len(room, 1, lens[1]),
        body_of_len(room, 2, lens[2]),
        body_of_len(room, 3, lens[3]),
        body_of_len(room, 4, lens[4]),
        body_of_len(room, 5, lens[5]),
        body_of_len(room, 6, lens[6]),
        body_of_len(room, 7, lens[7]),
    ]
}

/// The body in a lane's part of the room.
fn body_of_len(room: &[u8], lane: usize, len: usize) -> &[u8]
    requires room { length room.now ≡ 8 * longest_body }
    requires lane { lane < 8 }
    requires short { len ≤ longest_body }
    ensures { result.now ≡ take len (drop (lane * longest_body) room.now) }
{
    let start = lane * LONGEST_BODY;
    &room[start..start + len]
}
