//! The digest of the samples of a take's file.
ghost use Rattle.std.specs.Prelude.{◌≡◌, ◌≤◌, IsTrue, IfOk, List, ℕ, Some, take, drop};
ghost use Rattle.bw_store.specs.Stores.{Counts};
ghost use Rattle.bw_disk.specs.DiskSteps.{StaysWhole};
ghost use Rattle.bw_disk.specs.ReadFaults.{is_disk_fault};
ghost use Rattle.bw_model.specs.Limits.{largest};
ghost use Rattle.bw_take_files.specs.SampleDigests.{samples_sha256, sha256_if_whole};

use crate::bodies::read_from;
use bw_disk::{ReadFault, Volume};
use bw_recovery::data_place;
use bw_take::TakeState;
use sha2::{Digest, Sha256};

/// How many bytes are read at once: those of the longest block.
const PIECE: usize = 32_768;

/// The SHA-256 of the samples that the file of a take has at a path: of the bytes of its data chunk,
/// as the state says where they begin and how many they are. `None` if there is no file, or it has
/// fewer. Nothing is changed; 32 KiB are held at a time.
///
/// # Errors
/// `Disk` if a call of the disk failed.
///
/// # Not specified
/// How many calls of the disk it makes.
pub fn digest_samples<D: Volume>(
    disk: &mut D,
    path: &str,
    state: &TakeState,
) -> Result<Option<[u8; 32]>, ReadFault>
    ensures failures { Counts (D.failures disk.old) (D.failures disk.new) (is_disk_fault result) }
    ensures disk { StaysWhole D.Disk disk.old disk.new }
    ensures value { IsTrue (D.honest disk.old) → IfOk result (λ digest. digest
        ≡ samples_sha256 state.now.parts (D.contents disk.old path.now)) }
{
    let Ok(opened) = disk.open(path) else {
        return Err(ReadFault::Disk);
    };
    match opened {
        Some(mut file) => digest_from(disk, &mut file, data_place(state), state.data_len()),
        None => Ok(None),
    }
}

/// The SHA-256 of so many bytes of an open file from an offset on; `None` if it has fewer.
///
/// # Errors
/// `Disk` if a call of the disk failed.
fn digest_from<D: Volume>(
    disk: &mut D,
    file: &mut D::File,
    start: u64,
    len: u64,
) -> Result<Option<[u8; 32]>, ReadFault>
    requires near { start ≤ 4786 }
    requires few { len ≤ largest }
    ensures failures { Counts (D.failures disk.old) (D.failures disk.new) (is_disk_fault result) }
    ensures disk { StaysWhole D.Disk disk.old disk.new }
    ensures value { IsTrue (D.honest disk.old) → IfOk result (λ digest. (found : List ℕ) →
        D.contents disk.old (D.path_of file.old) ≡ Some found →
        digest ≡ sha256_if_whole len (take len (drop start found))) }
{
    let mut hasher = Sha256::new();
    let mut piece = [0; PIECE];
    let mut done = 0;
    while done < len {
        let wanted = (len - done).min(32_768) as usize;
        let count = read_from(disk, file, start + done, &mut piece[..wanted])?;
        if count < wanted {
            return Ok(None);
        }
        hasher.update(&piece[..wanted]);
        done += wanted as u64;
    }
    Ok(Some(hasher.finalize()))
}
