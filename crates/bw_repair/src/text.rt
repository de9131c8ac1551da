//! What `repair` prints and reports.
ghost use Rattle.std.specs.Prelude.{◌≡◌, ◌++◌, ◌+◌, ◌^◌, ◌<◌, ◌≤◌, length, codes, IfOk, List, ℕ};
ghost use Rattle.std.specs.Prelude.{string_bytes};
ghost use Rattle.bw_repair.specs.Texts.{plan_text as text_of_plan, repair_line as line_of_repair};
ghost use Rattle.bw_repair.specs.Texts.{repair_hint, size_line, sound_text as text_of_sound};
ghost use Rattle.bw_repair.specs.Texts.{unwritten_text};

use crate::plan::SizePlan;
use crate::{RepairFault, RepairKind};
use arrayvec::ArrayString;
use bw_inspect::hint_of_form;
use itoa::Buffer;
use std::alloc::{AllocError, Global};
use std::io;

/// The line of a file that is sound.
pub(crate) fn sound_text(frames: u64) -> ArrayString<64>
    ensures { result.bytes ≡ text_of_sound frames }
{
    let mut digits = Buffer::new();
    let mut line = ArrayString::new();
    line.push_str("sound frames=");
    line.push_str(digits.format(frames));
    line.push_str("\n");
    line
}

/// The lines of the sizes that are written, or would be.
pub(crate) fn plan_text(plan: &SizePlan, is_written: bool) -> ArrayString<256>
    requires { plan.now.place < 2 ^ 62 }
    ensures { result.bytes ≡ text_of_plan plan.now is_written }
{
    let mut text = ArrayString::new();
    push_size(&mut text, "form at=", 4, plan.old.form, plan.new.form);
    push_size(
        &mut text,
        "data at=",
        plan.place + 4,
        plan.old.data,
        plan.new.data,
    );
    let mut digits = Buffer::new();
    text.push_str("frames=");
    text.push_str(digits.format(plan.frames));
    text.push_str(if is_written {
        " written=yes\n"
    } else {
        " written=no\n"
    });
    text
}

/// Appends the line of a size: what it is, its place, and what it was and becomes.
fn push_size(text: &mut ArrayString<256>, name: &str, place: u64, old: u32, new: u32)
    requires short { length text.old.bytes ≤ 80 }
    requires named { length name.now ≤ 8 }
    ensures text { text.new.bytes ≡ text.old.bytes ++ size_line name.now place old new }
    ensures longer { length text.new.bytes ≤ length text.old.bytes + 80 }
{
    let mut digits = Buffer::new();
    text.push_str(name);
    text.push_str(digits.format(place));
    text.push_str(" old=");
    text.push_str(digits.format(old));
    text.push_str(" new=");
    text.push_str(digits.format(new));
    text.push_str("\n");
}

/// The line of a fault, and below it what to do about it, where that is known. It allocates nothing,
/// since memory may be what is lacking.
pub(crate) fn repair_line(fault: &RepairFault) -> ArrayString<256>
    ensures { result.bytes ≡ line_of_repair fault.now }
{
    let mut digits = Buffer::new();
    let mut line = ArrayString::new();
    line.push_str("repair: ");
    line.push_str(fault.kind.name());
    line.push_str(" at ");
    line.push_str(digits.format(fault.offset));
    line.push_str("\n");
    line.push_str(hint_of_repair(fault));
    line
}

/// The line that says what to do about a fault; an empty text where nothing is known.
fn hint_of_repair(fault: &RepairFault) -> &'static str
    ensures value { result.now ≡ repair_hint fault.now }
    ensures short { length result.now ≤ 100 }
{
    match fault.kind {
        RepairKind::Unread(kind) => hint_of_form(kind, fault.offset),
        _ => "",
    }
}

/// The line of a file that can't be written.
pub(crate) fn unwritten_line(
    alloc: Global,
    path: &str,
    error: &io::Error,
) -> Result<String, AllocError>
    ensures { IfOk result (λ line. (reason : List ℕ) ×
        (string_bytes line ≡ unwritten_text path.now reason)) }
{
    let reason = format!(in alloc; "{error}")?;
    line_with(alloc, path, reason.as_str())
}

fn line_with(alloc: Global, path: &str, reason: &str) -> Result<String, AllocError>
    ensures { IfOk result (λ line. string_bytes line ≡ unwritten_text path.now reason.now) }
{
    format!(in alloc; "{path} can't be written: {reason}\n")
}
