//! Which sizes a file is to have.
ghost use Rattle.std.specs.Prelude.{◌≡◌, ◌≢◌, ◌+◌, ◌-◌, ◌%◌, ◌^◌, ◌<◌, ◌≤◌, IsTrue, true, false};
ghost use Rattle.bw_model.specs.Bytes.{even_up as even_up_of};
ghost use Rattle.bw_repair.specs.Decisions.{decided, size_of_data, size_of_form, within};
ghost use Rattle.bw_repair.specs.Near.{IsNear};
ghost use Rattle.bw_repair.specs.Decisions.{is_closed as closed, is_form_kept as form_kept};
ghost use Rattle.bw_repair.specs.Decisions.{ends_at_head as ends_there, is_unsized as unsized};
ghost use Rattle.bw_repair.specs.Decisions.{may_continue as continues};

use crate::fault::{RepairFault, RepairKind, fault_at};
use crate::search::DataHead;
use bw_inspect::InspectKind;

/// The sizes of a form and of its samples, in bytes, as the file gives them.
#[derive(Clone, Copy, Debug, PartialEq, Eq)]
pub struct Sizes {
    pub form: u32,
    pub data: u32,
}

/// The sizes that a file is to have. Those that are certain already stay. If a killed writer never
/// gave the samples' size, it becomes that of all whole frames of the file.
///
/// # Errors
/// At the head of the samples: NotLast where other chunks may follow them, Overlap where they end
/// after a form that was closed, Unread(NoFmt) without a block align that is needed,
/// Unread(TooLarge) where the form has 2^32 - 1 bytes or more.
pub fn decide(head: &DataHead) -> Result<Sizes, RepairFault>
    requires { IsNear head.now }
    ensures { result ≡ decided head.now }
{
    let place = head.place;
    if is_closed(head) && head.size == u32::MAX {
        return Err(fault_at(RepairKind::NotLast, place));
    }
    if is_closed(head) && (head.form as u64) < place + head.size as u64 {
        return Err(fault_at(RepairKind::Overlap, place));
    }
    if is_unsized(head) && head.align == 0 {
        return Err(fault_at(RepairKind::Unread(InspectKind::NoFmt), place));
    }
    if !is_unsized(head) && !is_form_kept(head) && may_continue(head) {
        return Err(fault_at(RepairKind::NotLast, place));
    }
    sizes_within(head)
}

/// The sizes, where nothing else refuses them.
///
/// # Errors
/// TooLarge.
fn sizes_within(head: &DataHead) -> Result<Sizes, RepairFault>
    requires small { (head.now.place < 2 ^ 62) × (head.now.rest < 2 ^ 62) }
    requires aligned { unsized head.now ≡ true → head.now.align ≢ 0 }
    ensures { result ≡ within head.now }
{
    let form = form_size(head);
    if form >= u32::MAX as u64 {
        return Err(fault_at(RepairKind::Unread(InspectKind::TooLarge), head.place));
    }
    Ok(Sizes {
        form: form as u32,
        data: data_size(head) as u32,
    })
}

/// Whether a writer gave the form its size when it closed the file.
fn is_closed(head: &DataHead) -> bool
    requires { (head.now.place < 2 ^ 62) × (head.now.rest < 2 ^ 62) }
    ensures { result ≡ closed head.now }
{
    let form = head.form as u64;
    head.form != u32::MAX && head.place < form && form <= head.place + head.rest
}

/// Whether the samples' size was never given.
fn is_unsized(head: &DataHead) -> bool
    requires { (head.now.place < 2 ^ 62) × (head.now.rest < 2 ^ 62) }
    ensures { result ≡ unsized head.now }
{
    head.size == u32::MAX || head.rest < head.size as u64 || head.size == 0 && ends_at_head(head)
}

/// Whether the form ends no later than the samples begin, or would with the size that it gets.
fn ends_at_head(head: &DataHead) -> bool
    requires { (head.now.place < 2 ^ 62) × (head.now.rest < 2 ^ 62) }
    ensures { result ≡ ends_there head.now }
{
    head.form as u64 <= head.place || !is_form_kept(head) && !may_continue(head)
}

/// Whether the form holds the samples, and no further head within the file.
fn is_form_kept(head: &DataHead) -> bool
    requires { (head.now.place < 2 ^ 62) × (head.now.rest < 2 ^ 62) }
    ensures { result ≡ form_kept head.now }
{
    let (form, size) = (head.form as u64, head.size as u64);
    head.form != u32::MAX
        && head.place + size <= form
        && (form <= head.place + head.rest || form < head.place + 8 + even_up(size))
}

/// Whether a frame or a chunk may follow samples of the size that is given.
fn may_continue(head: &DataHead) -> bool
    ensures { result ≡ continues head.now }
{
    let more = head.rest.saturating_sub(head.size as u64);
    8 <= more && head.align as u64 <= more
}

/// The form's size.
fn form_size(head: &DataHead) -> u64
    requires small { (head.now.place < 2 ^ 62) × (head.now.rest < 2 ^ 62) }
    requires aligned { unsized head.now ≡ true → head.now.align ≢ 0 }
    ensures value { result ≡ size_of_form head.now }
{
    if !is_unsized(head) && is_form_kept(head) {
        head.form as u64
    } else {
        head.place + even_up(data_size(head))
    }
}

/// The size of the samples: what it is, or all whole frames that the file has.
fn data_size(head: &DataHead) -> u64
    requires small { (head.now.place < 2 ^ 62) × (head.now.rest < 2 ^ 62) }
    requires aligned { unsized head.now ≡ true → head.now.align ≢ 0 }
    ensures value { result ≡ size_of_data head.now }
    ensures small { result < 2 ^ 62 }
{
    if is_unsized(head) {
        head.rest - head.rest % head.align as u64
    } else {
        head.size as u64
    }
}

/// A length with its pad byte.
fn even_up(len: u64) -> u64
    requires { len < 2 ^ 62 }
    ensures { result ≡ even_up_of len }
{
    len + len % 2
}
