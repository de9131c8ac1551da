//! Comparing the samples of a take's file with the digests in its journal.
ghost use Rattle.std.specs.Prelude.{◌≡◌, ◌≤◌, ◌*◌, ◌^◌, IsTrue, IsFalse, IfOk, IfSome, option_map};
ghost use Rattle.std.specs.Prelude.{List, ℕ, Some, length};
ghost use Rattle.bw_store.specs.Stores.{Counts};
ghost use Rattle.bw_disk.specs.DiskSteps.{StaysWhole};
ghost use Rattle.bw_disk.specs.ReadFaults.{is_disk_fault};
ghost use Rattle.bw_model.specs.Bytes.{zeros as zero_bytes};
ghost use Rattle.bw_model.specs.Limits.{longest_block, longest_body};
ghost use Rattle.bw_journal.specs.Entries.{first_content as first_content_of};
ghost use Rattle.bw_take_files.specs.BlockDigests.{block_digest_at, has_digest, IsBlockNear};
ghost use Rattle.bw_take_files.specs.BlockDigests.{KeepsBlockDigests};
ghost use Rattle.bw_take_files.specs.TakeSamples.{changed_in, entries_of, samples_digest};
ghost use Rattle.bw_take_files.specs.TakeSamples.{first_changed as first_changed_of};

use crate::block_digests::{ReadAhead, read_ahead};
use crate::bodies::{LONGEST_BODY, read_from};
use crate::stored_block::{EntryPlace, JournalRef, StoredBlock, brought};
use bw_digest::LANES;
use bw_disk::{ReadFault, Volume};
use bw_journal::{JOURNAL_MAX, JournalHeader, entry_of, first_content};
use bw_model::{LONGEST_BLOCK, Name};
use bw_recovery::data_place;
use bw_take::TakeState;
use sha2::{Digest, Sha256};
use std::alloc::{AllocError, Global};

/// The first number of a take whose samples aren't in the file at a path, by its journal: at the
/// place of a stored BLOCK are other bytes than those of which the journal has the digest, or
/// fewer. `None` if there is no such number, or no file. The state is that of the journal's
/// numbers. Nothing is changed; at most eight blocks are held at a time.
///
/// # Errors
/// `Disk` if a call of the disk failed; `Memory` if memory was refused, or the journal has more than
/// 2^40 bytes or 2^32 numbers.
///
/// # Not specified
/// - When memory is refused.
/// - How many calls of the disk it makes.
pub fn find_changed<D: Volume>(
    alloc: Global,
    disk: &mut D,
    path: &str,
    name: &Name,
    journal: &[u8],
    state: &TakeState,
) -> Result<Option<u32>, ReadFault>
    ensures failures { Counts (D.failures disk.old) (D.failures disk.new) (is_disk_fault result) }
    ensures disk { StaysWhole D.Disk disk.old disk.new }
    ensures value { IsTrue (D.honest disk.old) → IfOk result (λ number. number ≡ changed_in
        name.now state.now.parts journal.now (D.contents disk.old path.now)) }
{
    if journal.len() > JOURNAL_MAX {
        return Err(ReadFault::Memory);
    }
    let Ok(opened) = disk.open(path) else {
        return Err(ReadFault::Disk);
    };
    match opened {
        Some(mut file) => compare_file(alloc, disk, &mut file, name, journal, data_place(state)),
        None => Ok(None),
    }
}

/// The first number of a journal whose samples aren't in an open file, where those of all its
/// numbers follow one another from this offset on.
///
/// # Errors
/// `Disk` if a call of the disk failed; `Memory` if memory was refused, or the journal has more than
/// 2^32 numbers.
fn compare_file<D: Volume>(
    alloc: Global,
    disk: &mut D,
    file: &mut D::File,
    name: &Name,
    journal: &[u8],
    start: u64,
) -> Result<Option<u32>, ReadFault>
    requires few { length journal.now ≤ 2 ^ 40 }
    requires near { start ≤ 4786 }
    ensures failures { Counts (D.failures disk.old) (D.failures disk.new) (is_disk_fault result) }
    ensures disk { StaysWhole D.Disk disk.old disk.new }
    ensures value { IsTrue (D.honest disk.old) → IfOk result (λ v. (found : List ℕ) →
        D.contents disk.old (D.path_of file.old) ≡ Some found →
        v ≡ first_changed_of name.now found 0 start (entries_of journal.now)) }
{
    let zeros = make_zeros(alloc, LONGEST_BLOCK)?;
    let mut room = make_zeros(alloc, LANES * LONGEST_BODY)?;
    let journal = JournalRef {
        name,
        bytes: journal,
        zeros: &zeros,
        alloc,
    };
    first_changed(disk, file, &journal, start, &mut room)
}

/// This many zeros.
fn make_zeros(alloc: Global, len: usize) -> Result<Vec<u8>, ReadFault>
    ensures memory { IsFalse (is_disk_fault result) }
    ensures value { IfOk result (λ v. v.items ≡ zero_bytes len) }
{
    match try_zeros(alloc, len) {
        Ok(zeros) => Ok(zeros),
        Err(_) => Err(ReadFault::Memory),
    }
}

fn try_zeros(alloc: Global, len: usize) -> Result<Vec<u8>, AllocError>
    ensures { IfOk result (λ v. v.items ≡ zero_bytes len) }
{
    let zeros = vec![in alloc; 0u8; len]?;
    Ok(zeros)
}

/// The first number of a journal whose samples aren't in an open file, where those of all its
/// numbers follow one another from this offset on.
///
/// # Errors
/// `Disk` if a call of the disk failed; `Memory` if memory was refused, or the journal has more than
/// 2^32 numbers.
fn first_changed<D: Volume>(
    disk: &mut D,
    file: &mut D::File,
    journal: &JournalRef<'_>,
    start: u64,
    room: &mut [u8],
) -> Result<Option<u32>, ReadFault>
    requires zeros { journal.now.zeros.now ≡ zero_bytes longest_block }
    requires few { length journal.now.bytes.now ≤ 2 ^ 40 }
    requires near { start ≤ 4786 }
    requires room { length room.old ≡ 8 * longest_body }
    ensures failures { Counts (D.failures disk.old) (D.failures disk.new) (is_disk_fault result) }
    ensures disk { StaysWhole D.Disk disk.old disk.new }
    ensures value { IsTrue (D.honest disk.old) → IfOk result (λ v. (found : List ℕ) →
        D.contents disk.old (D.path_of file.old) ≡ Some found →
        v ≡ first_changed_of journal.now.name.now found 0 start
        (entries_of journal.now.bytes.now)) }
{
    let mut content = Vec::new(journal.alloc);
    let mut ahead = ReadAhead::new();
    let mut used = JournalHeader::LEN.min(journal.bytes.len());
    let mut offset = start;
    for step in 0..journal.bytes.len() {
        let Some(len) = read_content(&journal.bytes[used..], &mut content)? else {
            return Ok(None);
        };
        let Some(entry) = entry_of(content.as_slice(), journal.zeros) else {
            return Ok(None);
        };
        let Ok(number) = u32::try_from(step) else {
            return Err(ReadFault::Memory);
        };
        let from = EntryPlace {
            number,
            start: used,
            offset,
        };
        ahead = read_ahead(disk, file, journal, from, ahead, room)?;
        let block = StoredBlock {
            number,
            offset,
            len: brought(&entry),
        };
        let kept = is_kept(disk, file, journal.name, block, entry.digest, &ahead, room)?;
        if !kept {
            return Ok(Some(number));
        }
        used += len;
        offset += block.len as u64;
    }
    Ok(None)
}

/// Reads the content of the entry at the start of the bytes, and returns how many bytes the entry
/// takes.
///
/// # Errors
/// `Memory` if memory was refused.
fn read_content(bytes: &[u8], content: &mut Vec<u8>) -> Result<Option<usize>, ReadFault>
    ensures memory { IsFalse (is_disk_fault result) }
    ensures value { IfOk result (λ found.
        option_map (λ n. (content.new.items, n)) found ≡ first_content_of bytes.now) }
    ensures within { IfOk result (λ found. IfSome found (λ n. n ≤ length bytes.now)) }
{
    match first_content(bytes, content) {
        Ok(found) => Ok(found),
        Err(_) => Err(ReadFault::Memory),
    }
}

/// Whether the samples of a block are in a file, where this is the digest of its message's body.
///
/// # Errors
/// `Disk` if a call of the disk failed.
fn is_kept<D: Volume>(
    disk: &mut D,
    file: &mut D::File,
    name: &Name,
    block: StoredBlock,
    digest: &[u8],
    ahead: &ReadAhead,
    room: &mut [u8],
) -> Result<bool, ReadFault>
    requires near { IsBlockNear block }
    requires room { length room.old ≡ 8 * longest_body }
    ensures failures { Counts (D.failures disk.old) (D.failures disk.new) (is_disk_fault result) }
    ensures disk { StaysWhole D.Disk disk.old disk.new }
    ensures path { D.path_of file.new ≡ D.path_of file.old }
    ensures room { length room.new ≡ length room.old }
    ensures kept { IsTrue (D.honest disk.old) → IfOk result (λ kept. (found : List ℕ) →
        D.contents disk.old (D.path_of file.old) ≡ Some found →
        KeepsBlockDigests name.now found ahead.now.known →
        kept ≡ has_digest name.now found block digest.now) }
{
    if block.len == 0 {
        return Ok(true);
    }
    let made = digest_in(disk, file, name, block, ahead, room)?;
    Ok(made[..] == digest[..])
}

/// The digest of the body of a block's message, with the samples that are in a file.
///
/// # Errors
/// `Disk` if a call of the disk failed.
fn digest_in<D: Volume>(
    disk: &mut D,
    file: &mut D::File,
    name: &Name,
    block: StoredBlock,
    ahead: &ReadAhead,
    room: &mut [u8],
) -> Result<[u8; 32], ReadFault>
    requires near { IsBlockNear block }
    requires room { length room.old ≡ 8 * longest_body }
    ensures failures { Counts (D.failures disk.old) (D.failures disk.new) (is_disk_fault result) }
    ensures disk { StaysWhole D.Disk disk.old disk.new }
    ensures path { D.path_of file.new ≡ D.path_of file.old }
    ensures room { length room.new ≡ length room.old }
    ensures value { IsTrue (D.honest disk.old) → IfOk result (λ digest. (found : List ℕ) →
        D.contents disk.old (D.path_of file.old) ≡ Some found →
        KeepsBlockDigests name.now found ahead.now.known →
        digest ≡ block_digest_at name.now found block) }
{
    if let Some(digest) = ahead.find(block) {
        return Ok(digest);
    }
    let count = read_from(disk, file, block.offset, &mut room[..block.len])?;
    Ok(digest_of(name, block.number, &room[..count]))
}

/// The digest of the body of a message with these samples (SHA-256, FIPS 180-4).
#[tactic(auto, unfolding(crate::specs::TakeSamples::samples_digest))]
fn digest_of(name: &Name, number: u32, samples: &[u8]) -> [u8; 32]
    ensures { result ≡ samples_digest name.now number samples.now }
{
    let bytes = name.as_bytes();
    let mut hasher = Sha256::new();
    hasher.update([2, bytes.len() as u8]);
    hasher.update(bytes);
    hasher.update(number.to_le_bytes());
    hasher.update(samples);
    hasher.finalize()
}
