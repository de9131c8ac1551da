//! The command `takes --watch`: the takes of a folder, screen after screen.
ghost use Rattle.std.specs.Prelude.{◌≡◌, IfOk, IfErr, OnOk};
ghost use Rattle.bw_console.specs.Outcomes.{HasWritten, Outcome};
ghost use Rattle.bw_console.specs.Prints.{HasPrinted, IsPrint};
ghost use Rattle.bw_disk.specs.DiskSteps.{StaysWhole};
ghost use Rattle.bw_takes.specs.FolderProgress.{fails_folder, reads_folder};
ghost use Rattle.bw_takes.specs.Screens.{rows_after, screen_text};
ghost use Rattle.bw_takes.specs.Watches.{CutsScreen, EndsWatch, IsWatchRound, Watches};
ghost use Rattle.bw_takes.specs.Watches.{TellsUnread, watch_side, watch_world};

use crate::printing::report_unread;
use crate::progress::{ProgressReader, TakeProgress};
use crate::screen::{Row, ScreenStyle, make_screen};
use bw_console::print::{give_up, print};
use bw_console::{Exit, Fault};
use bw_disk::{ReadFault, Volume};
use bw_ports::Pause;
use bw_stream::Sink;
use std::alloc::Global;

/// How many milliseconds are waited after a screen.
const PAUSE: u32 = 1000;

/// Shows the takes of a folder, again after each second: in which state each is, how much of it is
/// recorded, by how much that grew since the screen before, and for how many screens nothing came.
/// It goes on until the program is stopped. Nothing is locked, and nothing changed.
///
/// `Device` if the folder can't be read, which is a line on `faults`, or a screen can't be written;
/// `Memory` if memory was refused; `Done` after 2^64 - 1 screens.
///
/// # Not specified
/// - When memory is refused.
/// - When a disk that isn't honest fails, and what is shown over it.
/// - That the screen of a round comes before its wait: only the order of the calls shows it.
pub fn watch_takes<D: Volume, P: Pause, W: Sink, E: Sink>(
    alloc: Global,
    disk: &mut D,
    folder: &str,
    style: ScreenStyle,
    pause: &mut P,
    out: &mut W,
    faults: &mut E,
) -> Exit
    ensures watches { Watches
        (watch_side (reads_folder D.Disk) (fails_folder D.Disk) P.waits W.Sink E.Sink) style
        folder.now result
        (watch_world disk.old pause.old out.old faults.old)
        (watch_world disk.new pause.new out.new faults.new) }
    ensures disk { StaysWhole D.Disk disk.old disk.new }
{
    watch_by_reader(alloc, disk, folder, style, pause, out, faults)
}

/// The same over whatever reads how far the takes are, which may read others in each round.
pub fn watch_by_reader<T: ProgressReader, P: Pause, W: Sink, E: Sink>(
    alloc: Global,
    takes: &mut T,
    folder: &str,
    style: ScreenStyle,
    pause: &mut P,
    out: &mut W,
    faults: &mut E,
) -> Exit
    // A round reads, prints its screen and waits a second; after a fault none waits.
    ensures { Watches (watch_side T.reads T.fails P.waits W.Sink E.Sink) style folder.now result
        (watch_world takes.old pause.old out.old faults.old)
        (watch_world takes.new pause.new out.new faults.new) }
{
    let mut rows = Vec::new(alloc);
    for count in 0..u64::MAX {
        rows = match show_round(alloc, takes, folder, style, &rows, pause, out, faults) {
            Ok(rows) => rows,
            Err(exit) => return exit,
        };
    }
    Exit::Done
}

/// A round after a screen with these rows. Returns the rows of its screen, or how the watch ends.
fn show_round<T: ProgressReader, P: Pause, W: Sink, E: Sink>(
    alloc: Global,
    takes: &mut T,
    folder: &str,
    style: ScreenStyle,
    before: &[Row],
    pause: &mut P,
    out: &mut W,
    faults: &mut E,
) -> Result<Vec<Row>, Exit>
    ensures ok { IfOk result (λ rows.
        IsWatchRound (watch_side T.reads T.fails P.waits W.Sink E.Sink) style folder.now
        before.now rows.items
        (watch_world takes.old pause.old out.old faults.old)
        (watch_world takes.new pause.new out.new faults.new)) }
    ensures err { IfErr result (λ exit.
        EndsWatch (watch_side T.reads T.fails P.waits W.Sink E.Sink) style folder.now
        before.now exit
        (watch_world takes.old pause.old out.old faults.old)
        (watch_world takes.new pause.new out.new faults.new)) }
{
    match takes.read_progress(alloc, folder) {
        Ok(read) => show_read(alloc, &read, style, before, pause, out, faults),
        Err(fault) => Err(report_fault(alloc, folder, fault, faults)),
    }
}

/// Reports why takes can't be read.
fn report_fault<E: Sink>(alloc: Global, folder: &str, fault: ReadFault, faults: &mut E) -> Exit
    ensures { (did : Outcome) × (did.exit ≡ result) × TellsUnread fault folder.now did
        × IsPrint E.Sink did.faults faults.old faults.new }
{
    match fault {
        ReadFault::Disk => report_unread(alloc, folder, faults),
        ReadFault::Memory => give_up(faults, &Fault::Memory),
    }
}

/// The same of takes that are read.
fn show_read<P: Pause, W: Sink, E: Sink>(
    alloc: Global,
    takes: &[TakeProgress],
    style: ScreenStyle,
    before: &[Row],
    pause: &mut P,
    out: &mut W,
    faults: &mut E,
) -> Result<Vec<Row>, Exit>
    ensures rows { IfOk result (λ rows. rows.items ≡ rows_after before.now takes.now) }
    ensures printed { OnOk result (HasPrinted W.Sink
        (screen_text style (rows_after before.now takes.now)) out.old out.new) }
    ensures waited { OnOk result (P.waits pause.old 1000 pause.new) }
    ensures unreported { OnOk result (faults.new ≡ faults.old) }
    ensures err { IfErr result (λ exit. (did : Outcome) × (did.exit ≡ exit)
        × CutsScreen style before.now takes.now did
        × HasWritten W.Sink E.Sink did out.old out.new faults.old faults.new
        × (pause.new ≡ pause.old)) }
{
    let Ok(screen) = make_screen(alloc, style, takes, before) else {
        return Err(give_up(faults, &Fault::Memory));
    };
    let Ok(()) = print(out, &screen.text) else {
        return Err(give_up(faults, &Fault::Unwritable));
    };
    pause.pause(PAUSE);
    Ok(screen.rows)
}
