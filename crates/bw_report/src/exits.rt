//! How a command ends by its files.
ghost use Rattle.std.specs.Prelude.{◌≡◌};
ghost use Rattle.bw_commands.specs.Inspections.{exit_for_fault};
ghost use Rattle.bw_report.specs.FileFindings.{worse};

use bw_console::Exit;
use bw_inspect::InspectKind;

/// How an inspection ends after a fault of this kind.
pub(crate) fn exit_on(kind: InspectKind) -> Exit
    ensures { result ≡ exit_for_fault kind }
{
    match kind {
        InspectKind::Read => Exit::Device,
        InspectKind::Memory => Exit::Memory,
        _ => Exit::Refused,
    }
}

/// The exit of the higher status; the first, if both have one.
pub fn worse(one: Exit, other: Exit) -> Exit
    ensures { result ≡ worse one other }
{
    if one.status() < other.status() {
        other
    } else {
        one
    }
}
