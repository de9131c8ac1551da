//! What `convert` prints and reports.
ghost use Rattle.std.specs.Prelude.{◌≡◌, ◌≤◌, length};
ghost use Rattle.bw_repair.specs.ConvertTexts.{convert_kind_hint, conversion_line as line_of_conversion};
ghost use Rattle.bw_repair.specs.ConvertTexts.{form_text as text_of_form, made_text as text_of_made};

use crate::{ConvertFault, ConvertKind, WideForm};
use arrayvec::ArrayString;
use bw_inspect::hint_of;
use itoa::Buffer;

/// The line of a file that is made.
pub(crate) fn made_text(form: WideForm, len: u64) -> ArrayString<64>
    ensures { result.bytes ≡ text_of_made form len }
{
    let mut digits = Buffer::new();
    let mut line = ArrayString::new();
    line.push_str(form_text(form));
    line.push_str(" bytes=");
    line.push_str(digits.format(len));
    line.push_str("\n");
    line
}

fn form_text(form: WideForm) -> &'static str
    ensures value { result.now ≡ text_of_form form }
    ensures short { length result.now ≤ 9 }
{
    match form {
        WideForm::Rf64 => "form=RF64",
        WideForm::Bw64 => "form=BW64",
    }
}

/// The line of a fault, and below it what to do about it, where that is known. It allocates nothing,
/// since memory may be what is lacking.
pub(crate) fn conversion_line(fault: &ConvertFault) -> ArrayString<256>
    ensures { result.bytes ≡ line_of_conversion fault.now }
{
    let mut digits = Buffer::new();
    let mut line = ArrayString::new();
    line.push_str("convert: ");
    line.push_str(fault.kind.name());
    line.push_str(" at ");
    line.push_str(digits.format(fault.offset));
    line.push_str("\n");
    line.push_str(hint_of_kind(fault.kind, fault.offset));
    line
}

/// The line that says what to do about a fault of this kind at a place; an empty text where nothing
/// is known.
fn hint_of_kind(kind: ConvertKind, offset: u64) -> &'static str
    ensures value { result.now ≡ convert_kind_hint kind offset }
    ensures short { length result.now ≤ 100 }
{
    match kind {
        ConvertKind::Unread(kind) => hint_of(kind, offset),
        ConvertKind::Riff => "hint: RIFF has no ds64 chunk: it is read as it is\n",
        ConvertKind::SameForm => "hint: FILE has this id already\n",
        ConvertKind::TooLong => "",
        ConvertKind::Exists => "hint: something is at OUT: give a path where nothing is\n",
        ConvertKind::Unwritten => "hint: OUT can't be written: remove what is there of it\n",
    }
}
