//! Mending the file of an open take: its header, its length, and its pad byte.
ghost use Rattle.std.specs.Prelude.{◌≡◌, ◌+◌, ◌≤◌, ◌++◌, ◌∷◌, [], ℕ, List, Some, IsTrue, OnOk, OnErr, None, false, true};
ghost use Rattle.std.specs.Prelude.{length, take, drop, IfSome, is_err};
ghost use Rattle.bw_store.specs.Stores.{Counts, KeepsOthers};
ghost use Rattle.bw_recovery.specs.Adoptions.{patched, with_header, shortened, with_pad, MendsInPart};
ghost use Rattle.bw_recovery.specs.Changes.{Becomes, KeepsSamples};

use crate::adoption::Mending;
use bw_disk::{DiskFault, Volume};

/// Mends the file of an open take, with the header of `header_of`: first the header is written, then
/// the file is cut, then the pad byte is appended, each only if it is needed.
///
/// # Errors
/// `DiskFault` if a call of the disk failed. The same file may be judged and mended again.
///
/// # Not specified
/// - When the disk fails.
/// - What an error leaves of the file, but that its samples stay.
pub fn mend<D: Volume>(
    disk: &mut D,
    file: &mut D::File,
    header: &[u8],
    mending: &Mending,
) -> Result<(), DiskFault>
    ensures honest { D.honest disk.new ≡ D.honest disk.old }
    ensures path { D.path_of file.new ≡ D.path_of file.old }
    ensures ok { IsTrue (D.honest disk.old) → OnOk result (Becomes
        (patched mending.now header.now)
        (D.contents disk.old (D.path_of file.old)) (D.contents disk.new (D.path_of file.old))) }
    // A failed call leaves the samples.
    ensures part { IsTrue (D.honest disk.old) → (place count : ℕ) →
        MendsInPart place count mending.now header.now
        (D.contents disk.old (D.path_of file.old)) (D.contents disk.new (D.path_of file.old)) }
    ensures others { IsTrue (D.honest disk.old) →
        KeepsOthers (D.contents disk.old) (D.contents disk.new) (D.path_of file.old) }
    ensures failures { Counts (D.failures disk.old) (D.failures disk.new) (is_err result) }
{
    put_header(disk, file, header, mending.header)?;
    cut_file(disk, file, mending.cut)?;
    put_pad(disk, file, mending.pad)
}

/// Writes the header over the bytes before the samples, if that is needed.
fn put_header<D: Volume>(
    disk: &mut D,
    file: &mut D::File,
    header: &[u8],
    needed: bool,
) -> Result<(), DiskFault>
    ensures honest { D.honest disk.new ≡ D.honest disk.old }
    ensures path { D.path_of file.new ≡ D.path_of file.old }
    ensures ok { IsTrue (D.honest disk.old) → OnOk result (Becomes (with_header needed header.now)
        (D.contents disk.old (D.path_of file.old)) (D.contents disk.new (D.path_of file.old))) }
    ensures part { IsTrue (D.honest disk.old) → (place count : ℕ) (found : List ℕ) →
        D.contents disk.old (D.path_of file.old) ≡ Some found → length header.now ≤ place →
        place + count ≤ length found →
        KeepsSamples place count found (D.contents disk.new (D.path_of file.old)) }
    ensures others { IsTrue (D.honest disk.old) →
        KeepsOthers (D.contents disk.old) (D.contents disk.new) (D.path_of file.old) }
    ensures failures { Counts (D.failures disk.old) (D.failures disk.new) (is_err result) }
{
    if needed {
        disk.write_at(file, 0, header)?;
    }
    Ok(())
}

/// Cuts a file to a length, if that is needed.
fn cut_file<D: Volume>(disk: &mut D, file: &mut D::File, len: Option<u64>) -> Result<(), DiskFault>
    ensures honest { D.honest disk.new ≡ D.honest disk.old }
    ensures path { D.path_of file.new ≡ D.path_of file.old }
    ensures ok { IsTrue (D.honest disk.old) → OnOk result (Becomes (shortened len)
        (D.contents disk.old (D.path_of file.old)) (D.contents disk.new (D.path_of file.old))) }
    ensures part { IsTrue (D.honest disk.old) → (place count : ℕ) (found : List ℕ) →
        D.contents disk.old (D.path_of file.old) ≡ Some found → place + count ≤ length found →
        IfSome len (λ n. place + count ≤ n) →
        KeepsSamples place count found (D.contents disk.new (D.path_of file.old)) }
    ensures others { IsTrue (D.honest disk.old) →
        KeepsOthers (D.contents disk.old) (D.contents disk.new) (D.path_of file.old) }
    ensures failures { Counts (D.failures disk.old) (D.failures disk.new) (is_err result) }
{
    if let Some(len) = len {
        disk.cut(file, len)?;
    }
    Ok(())
}

/// Appends a zero byte to a file, if that is needed.
fn put_pad<D: Volume>(disk: &mut D, file: &mut D::File, needed: bool) -> Result<(), DiskFault>
    ensures honest { D.honest disk.new ≡ D.honest disk.old }
    ensures path { D.path_of file.new ≡ D.path_of file.old }
    ensures ok { IsTrue (D.honest disk.old) → OnOk result (Becomes (with_pad needed)
        (D.contents disk.old (D.path_of file.old)) (D.contents disk.new (D.path_of file.old))) }
    ensures part { IsTrue (D.honest disk.old) → (place count : ℕ) (found : List ℕ) →
        D.contents disk.old (D.path_of file.old) ≡ Some found → place + count ≤ length found →
        (needed ≡ true → length found ≤ place + count) →
        KeepsSamples place count found (D.contents disk.new (D.path_of file.old)) }
    ensures others { IsTrue (D.honest disk.old) →
        KeepsOthers (D.contents disk.old) (D.contents disk.new) (D.path_of file.old) }
    ensures failures { Counts (D.failures disk.old) (D.failures disk.new) (is_err result) }
{
    if needed {
        let end = disk.len(file)?;
        disk.append(file, end, &[0])?;
    }
    Ok(())
}
