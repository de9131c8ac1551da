//! Giving up a take, while its folder is locked.
ghost use Rattle.std.specs.Prelude.{◌≡◌, ◌≤◌, ◌++◌, length, Result};
ghost use Rattle.bw_console.specs.Outcomes.{Outcome, HasWritten};
ghost use Rattle.bw_console.specs.Prints.{IsPrint};
ghost use Rattle.bw_ports.specs.declared.folder_locks.LockRefusal.{LockRefusal as Refusal};
ghost use Rattle.bw_takes.specs.GiveUpShowings.{IsGivenPrint, IsGivingUp, IsLockedOut};
ghost use Rattle.bw_takes.specs.GiveUpShowings.{IsLineReported, TriesToGiveUp};

use crate::printing::report_unread;
use arrayvec::ArrayVec;
use bw_console::print::{give_up, print, print_diagnostic};
use bw_console::{Exit, Fault, report_unopened};
use bw_disk::Volume;
use bw_model::Name;
use bw_ports::{FolderLocks, LockRefusal};
use bw_stream::Sink;
use bw_take_files::{GiveUpFault, give_up_take};
use std::alloc::Global;

/// What is reported if another server has the lock.
const RUNNING: &str = "another server runs here\n";

/// Gives up a take in a folder, while this command holds the lock of it, and prints `NAME given-up`.
///
/// `Done` if the take is given up; `Refused` if there is none of this name, or one of this name was
/// given up earlier and is in the way, which is a line on `faults`; `Device` if the lock isn't taken,
/// the folder can't be read or changed, or the line can't be written; `Memory` if memory was refused.
///
/// # Not specified
/// - When memory is refused.
/// - When a disk that isn't honest fails, and what it has afterwards.
/// - That the lock is held until the end: only the order of the calls shows it.
pub fn give_up_locked<D: Volume, L: FolderLocks, W: Sink, E: Sink>(
    alloc: Global,
    disk: &mut D,
    locks: &mut L,
    folder: &str,
    name: &Name,
    out: &mut W,
    faults: &mut E,
) -> Exit
    ensures { (did : Outcome) × (did.exit ≡ result) × (answer : Result L.Lock Refusal)
        × L.locks locks.old folder.now answer locks.new
        × IsGivingUp D.Disk answer folder.now name.now disk.old disk.new did
        × HasWritten W.Sink E.Sink did out.old out.new faults.old faults.new }
{
    match locks.lock(folder) {
        Ok(_lock) => give_up_held(alloc, disk, folder, name, out, faults),
        Err(refusal) => report_locked(alloc, folder, &refusal, faults),
    }
}

/// The same while the lock is held.
fn give_up_held<D: Volume, W: Sink, E: Sink>(
    alloc: Global,
    disk: &mut D,
    folder: &str,
    name: &Name,
    out: &mut W,
    faults: &mut E,
) -> Exit
    ensures { (did : Outcome) × (did.exit ≡ result)
        × TriesToGiveUp D.Disk folder.now name.now disk.old disk.new did
        × HasWritten W.Sink E.Sink did out.old out.new faults.old faults.new }
{
    match give_up_take(alloc, disk, folder, name) {
        Ok(()) => print_given(name, out, faults),
        Err(GiveUpFault::Unknown) => {
            let text = b": no take of this name is here\n";
            report_refused(name, text, faults)
        }
        Err(GiveUpFault::Earlier) => {
            let text = b": one was given up earlier, its .given-up files are in the way\n";
            report_refused(name, text, faults)
        }
        Err(GiveUpFault::Disk) => report_unread(alloc, folder, faults),
        Err(GiveUpFault::Memory) => give_up(faults, &Fault::Memory),
    }
}

/// Prints the line of a take that is given up.
fn print_given<W: Sink, E: Sink>(name: &Name, out: &mut W, faults: &mut E) -> Exit
    ensures { (did : Outcome) × (did.exit ≡ result) × IsGivenPrint name.now did
        × HasWritten W.Sink E.Sink did out.old out.new faults.old faults.new }
{
    match print(out, line_of(name, b" given-up\n").as_slice()) {
        Ok(()) => Exit::Done,
        Err(_) => give_up(faults, &Fault::Unwritable),
    }
}

/// Reports why a take isn't given up: its name, and this after it.
fn report_refused<E: Sink>(name: &Name, text: &[u8], faults: &mut E) -> Exit
    requires { length text.now ≤ 90 }
    ensures { (did : Outcome) × (did.exit ≡ result)
        × IsLineReported (name.now ++ text.now) Exit.Refused did
        × IsPrint E.Sink did.faults faults.old faults.new }
{
    print_diagnostic(faults, line_of(name, text).as_slice());
    Exit::Refused
}

/// A name, and this after it.
fn line_of(name: &Name, text: &[u8]) -> ArrayVec<u8, 128>
    requires { length text.now ≤ 90 }
    ensures { result.items ≡ name.now ++ text.now }
{
    let mut line = ArrayVec::new();
    let _ = line.try_extend_from_slice(name.as_bytes());
    let _ = line.try_extend_from_slice(text);
    line
}

/// Reports why a folder isn't locked.
fn report_locked<E: Sink>(
    alloc: Global,
    folder: &str,
    refusal: &LockRefusal,
    faults: &mut E,
) -> Exit
    ensures { (did : Outcome) × (did.exit ≡ result) × IsLockedOut refusal.now folder.now did
        × IsPrint E.Sink did.faults faults.old faults.new }
{
    match refusal {
        LockRefusal::Running => {
            print_diagnostic(faults, RUNNING.as_bytes());
            Exit::Device
        }
        LockRefusal::Unusable(error) => report_unopened(alloc, folder, error, faults),
        LockRefusal::Memory => give_up(faults, &Fault::Memory),
    }
}
