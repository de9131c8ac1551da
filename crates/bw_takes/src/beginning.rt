//! Whether a file begins as the takes of this server do.
ghost use Rattle.std.specs.Prelude.{◌≡◌, IsTrue, IfOk, false};
ghost use Rattle.std.specs.Option.{option_map_or};
ghost use Rattle.bw_store.specs.Stores.{Counts};
ghost use Rattle.bw_disk.specs.DiskSteps.{StaysWhole};
ghost use Rattle.bw_disk.specs.ReadFaults.{is_disk_fault};
ghost use Rattle.bw_recovery.specs.Names.{begins_take};

use bw_disk::{ReadFault, Volume};
use bw_recovery::{is_take, read_take};
use bw_take::TakeState;
use std::alloc::Global;

/// Whether a file is at the path that begins as a take of this server.
///
/// # Errors
/// `Disk` if a call of the disk failed; `Memory` if memory was refused.
pub(crate) fn is_take_at<D: Volume>(
    alloc: Global,
    disk: &mut D,
    path: &str,
) -> Result<bool, ReadFault>
    ensures failures { Counts (D.failures disk.old) (D.failures disk.new) (is_disk_fault result) }
    ensures disk { StaysWhole D.Disk disk.old disk.new }
    ensures value { IsTrue (D.honest disk.old) → IfOk result (λ v.
        v ≡ option_map_or begins_take (D.contents disk.old path.now) false) }
{
    let empty = TakeState::new(alloc);
    match read_take(disk, alloc, path, &empty)? {
        Some(read) => Ok(is_take(&read.front)),
        None => Ok(false),
    }
}
