//! The sizes are written into a file.
ghost use Rattle.std.specs.Prelude.{◌<◌, ◌^◌, OnOk, OnErr};
ghost use Rattle.std.specs.Prelude.{◌≡◌};
ghost use Rattle.bw_stream.specs.Moves.{failures_after};
ghost use Rattle.bw_ports.specs.Rewrites.{KeepsOtherPaths};
ghost use Rattle.bw_repair.specs.Writes.{GivesSizes, GivesSizesInPart};

use crate::plan::SizePlan;
use bw_ports::EditedFiles;
use std::io;

/// Writes the new sizes into the file at a path: that of the samples, then that of the form. No
/// other byte is written.
///
/// # Errors
/// If the system failed: the first bytes of what is to be written may be written then, in that
/// order.
///
/// # Not specified
/// When it fails, and the kind of the error.
pub fn write_sizes<F: EditedFiles>(files: &mut F, path: &str, plan: &SizePlan) -> io::Result<()>
    requires { plan.now.place < 2 ^ 62 }
    ensures ok { OnOk result (GivesSizes plan.now
        (F.content_at files.old path.now) (F.content_at files.new path.now)) }
    ensures err { OnErr result (GivesSizesInPart plan.now
        (F.content_at files.old path.now) (F.content_at files.new path.now)) }
    ensures others { KeepsOtherPaths path.now (F.content_at files.old) (F.content_at files.new) }
    ensures count { F.edit_failures files.new ≡ failures_after result (F.edit_failures files.old) }
{
    files.overwrite(path, plan.place + 4, &plan.new.data.to_le_bytes())?;
    files.overwrite(path, 4, &plan.new.form.to_le_bytes())
}
