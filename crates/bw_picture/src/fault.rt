//! Why a file isn't drawn.
ghost use Rattle.std.specs.Prelude.{◌≡◌, ◌-◌};
ghost use Rattle.bw_picture.specs.Pictures.{too_long as too_long_at};

use bw_plan::{RecordingFault, RecordingKind};
use bw_recorder::OpenFault;

/// The fault of samples that begin here and can't be drawn.
pub(crate) fn too_long(data_at: u64) -> OpenFault
    ensures { result ≡ too_long_at data_at }
{
    OpenFault::Refused(RecordingFault {
        kind: RecordingKind::TooLong,
        offset: data_at.saturating_sub(8),
    })
}
