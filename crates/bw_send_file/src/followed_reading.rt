//! What is written of a file so far is read.
ghost use Rattle.std.specs.Prelude.{◌≡◌, ℕ, List, [], ◌≤◌, ◌<◌, true, Some, OnOk, length};
ghost use Rattle.bw_stream.specs.Moves.{failures_after};
ghost use Rattle.bw_send_file.specs.FollowedReads.{ReadsAfter};

use bw_ports::Followed;
use bw_stream::IoFailed;

/// Reads on into a buffer, after the bytes that are held in it, until it is full or no more is
/// written yet.
///
/// # Errors
/// `IoFailed` if the file failed: what was read before is held.
pub(crate) fn read_on<F: Followed>(
    file: &mut F,
    room: &mut [u8],
    held: &mut usize,
) -> Result<(), IoFailed>
    requires { held.old ≤ length room.old }
    ensures count { F.failures file.new ≡ failures_after result (F.failures file.old) }
    ensures within { held.new ≤ length room.new }
    ensures room { length room.new ≡ length room.old }
    ensures stays { F.is_complete file.old ≡ true → F.is_complete file.new ≡ true }
    ensures read { (xs : List ℕ) → F.to_come file.old ≡ Some xs →
        ReadsAfter room.old held.old xs room.new held.new (F.to_come file.new) }
    ensures end { OnOk result (F.is_complete file.old ≡ true → held.new < length room.new →
        (xs : List ℕ) → F.to_come file.old ≡ Some xs → F.to_come file.new ≡ Some []) }
{
    while *held < room.len() {
        let count = file.read_more(&mut room[*held..])?;
        if count == 0 {
            return Ok(());
        }
        *held += count;
    }
    Ok(())
}
