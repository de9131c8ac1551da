//! What is reported where chunks can't be kept, or can't be joined to a take.
ghost use Rattle.std.specs.Prelude.{◌≡◌, ◌≤◌, length};
ghost use Rattle.bw_repair.specs.LeftTexts.{join_hint, join_line as line_of_join, keep_hint};
ghost use Rattle.bw_repair.specs.LeftTexts.{keep_line as line_of_keep};

use crate::{ConvertFault, ConvertKind};
use arrayvec::ArrayString;
use bw_inspect::hint_of;
use itoa::Buffer;

/// The line of a fault for which nothing is kept, and below it what to do about it, where that is
/// known. It allocates nothing, since memory may be what is lacking.
pub(crate) fn keep_line(fault: &ConvertFault) -> ArrayString<256>
    ensures { result.bytes ≡ line_of_keep fault.now }
{
    let mut digits = Buffer::new();
    let mut line = ArrayString::new();
    line.push_str("keep: ");
    line.push_str(fault.kind.name());
    line.push_str(" at ");
    line.push_str(digits.format(fault.offset));
    line.push_str("\n");
    line.push_str(hint_of_keep(fault.kind, fault.offset));
    line
}

fn hint_of_keep(kind: ConvertKind, offset: u64) -> &'static str
    ensures value { result.now ≡ keep_hint kind offset }
    ensures short { length result.now ≤ 100 }
{
    match kind {
        ConvertKind::Unread(kind) => hint_of(kind, offset),
        ConvertKind::Riff => "",
        ConvertKind::SameForm => "",
        ConvertKind::TooLong => "hint: a RIFF file can't hold these chunks\n",
        ConvertKind::Exists => "hint: something else is at LEFT: give a path where nothing is\n",
        ConvertKind::Unwritten => "hint: LEFT can't be written: remove what is there of it\n",
    }
}

/// The same for a fault for which nothing is joined.
pub(crate) fn join_line(fault: &ConvertFault) -> ArrayString<256>
    ensures { result.bytes ≡ line_of_join fault.now }
{
    let mut digits = Buffer::new();
    let mut line = ArrayString::new();
    line.push_str("join: ");
    line.push_str(fault.kind.name());
    line.push_str(" at ");
    line.push_str(digits.format(fault.offset));
    line.push_str("\n");
    line.push_str(hint_of_join(fault.kind, fault.offset));
    line
}

fn hint_of_join(kind: ConvertKind, offset: u64) -> &'static str
    ensures value { result.now ≡ join_hint kind offset }
    ensures short { length result.now ≤ 100 }
{
    match kind {
        ConvertKind::Unread(kind) => hint_of(kind, offset),
        ConvertKind::Riff => "",
        ConvertKind::SameForm => "",
        ConvertKind::TooLong => "hint: the form can't hold these chunks: RIFF has 4 GiB at most\n",
        ConvertKind::Exists => "",
        ConvertKind::Unwritten => "",
    }
}
