//! Why the requests of a recording aren't all given, and what is reported of that.
ghost use Rattle.std.specs.Prelude.{◌≡◌, ◌≤◌, length};
ghost use Rattle.bw_inspect.specs.Faults.{is_of_bytes};
ghost use Rattle.bw_recorder.specs.FaultHints.{named_kind as kind_named, unread_kind};
ghost use Rattle.bw_recorder.specs.Openings.{recording_line, changed_line, exit_on_kind, fault_again};

use crate::hint::push_hint;
use arrayvec::ArrayString;
use bw_console::Exit;
use bw_inspect::{InspectFault, InspectKind, OtherFormat};
use bw_plan::{RecordingFault, RecordingKind};
use itoa::Buffer;
use std::io;

/// Why what is set can't be used.
#[derive(Drop)]
pub enum OptionsFault {
    /// A text spells no setting. The line that is reported, and a hint below it.
    NotASetting(Vec<u8>),
    /// Memory was refused.
    Memory,
}

/// Why a recording's file isn't opened.
#[derive(Drop)]
pub enum OpenFault {
    /// The system can't open it, or report its length and its time of change.
    Unopened(io::Error),
    /// It has this fault, or it isn't read to its end.
    Refused(RecordingFault),
    /// Its recording would lose something of it, and may not: a line for each such thing, and a line
    /// that says so, with a hint below it.
    Lossy(Vec<u8>),
    /// It has changed since it was first read.
    Changed,
}

/// The fault of a recording whose file has this one.
pub fn unread(fault: InspectFault) -> RecordingFault
    ensures { result ≡ record { kind = RecordingKind.Unread fault.kind; offset = fault.offset } }
{
    RecordingFault {
        kind: RecordingKind::Unread(fault.kind),
        offset: fault.offset,
    }
}

/// The same, where the file's first bytes name this other format, if any.
pub(crate) fn unread_as(fault: InspectFault, other: Option<OtherFormat>) -> RecordingFault
    ensures { result ≡ record { kind = unread_kind fault.kind other; offset = fault.offset } }
{
    let kind = match other {
        Some(format) => named_kind(fault.kind, format),
        None => RecordingKind::Unread(fault.kind),
    };
    RecordingFault {
        kind,
        offset: fault.offset,
    }
}

fn named_kind(kind: InspectKind, format: OtherFormat) -> RecordingKind
    ensures { result ≡ kind_named kind format }
{
    match kind {
        InspectKind::NotWave => RecordingKind::Foreign(format),
        _ => RecordingKind::Unread(kind),
    }
}

/// Memory was refused before the samples were read.
pub const NO_MEMORY: RecordingFault = RecordingFault {
    kind: RecordingKind::Unread(InspectKind::Memory),
    offset: 0,
};

/// The line of a fault: the command's name, of at most 8 bytes, the kind, the place; and below it what
/// to do about it, where that is known. It allocates nothing, since memory may be what is lacking.
pub fn line_of(command: &str, fault: &RecordingFault) -> ArrayString<256>
    requires { length command.now ≤ 8 }
    ensures { result.bytes ≡ recording_line command.now fault.now }
{
    let mut digits = Buffer::new();
    let mut line = ArrayString::new();
    line.push_str(command);
    line.push_str(": ");
    line.push_str(fault.kind.name());
    line.push_str(" at ");
    line.push_str(digits.format(fault.offset));
    line.push_str("\n");
    push_hint(&mut line, fault);
    line
}

/// The line of a file that has changed.
pub(crate) fn changed(command: &str) -> ArrayString<64>
    requires { length command.now ≤ 8 }
    ensures { result.bytes ≡ changed_line command.now }
{
    let mut line = ArrayString::new();
    line.push_str(command);
    line.push_str(": Changed\n");
    line
}

/// How a command ends after a fault of this kind.
pub(crate) fn exit_on(kind: RecordingKind) -> Exit
    ensures { result ≡ exit_on_kind kind }
{
    match kind {
        RecordingKind::Unread(InspectKind::Read) => Exit::Device,
        RecordingKind::Unread(InspectKind::Memory) => Exit::Memory,
        _ => Exit::Refused,
    }
}

/// What a fault means in a file that was read already: if it is a fault of the file's bytes, these
/// have changed.
pub fn read_again(fault: InspectFault) -> OpenFault
    ensures { result ≡ fault_again fault }
{
    if is_of_file(fault.kind) {
        return OpenFault::Changed;
    }
    OpenFault::Refused(unread(fault))
}

/// Whether a fault of this kind is one of the bytes.
fn is_of_file(kind: InspectKind) -> bool
    ensures { result ≡ is_of_bytes kind }
{
    match kind {
        InspectKind::Read => false,
        InspectKind::Memory => false,
        _ => true,
    }
}
