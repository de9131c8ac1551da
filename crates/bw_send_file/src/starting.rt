//! At which number a sender begins, by what its state says and the server answers.
ghost use Rattle.std.specs.Prelude.{◌≡◌, ◌≤◌, IfOk, IfErr};
ghost use Rattle.bw_console.specs.Prints.{IsPrint, Print};
ghost use Rattle.bw_recorder.specs.Packs.{Packing};
ghost use Rattle.bw_send_file.specs.FilesSentOn.{GetsNoAnswer, IsSilent, StartsAt, ways};
ghost use Rattle.bw_send_file.specs.StateReports.{ReportsAnswer, ReportsOther};

use crate::asking::{NotAsked, ask_server};
use crate::place::Found;
use crate::reports::report_start;
use crate::resumed_job::Job;
use bw_console::print::{give_up, print_diagnostic};
use bw_console::{Exit, Fault};
use bw_ports::{Dial, Pause};
use bw_stream::Sink;
use std::alloc::Global;

/// At which number a sender begins: the count that was found, unless the server expects less. It is
/// reported, unless there is no state.
///
/// # Errors
/// How the command ends, if the server hasn't answered: why is reported.
pub(crate) fn begin_at<P: Pause, D: Dial, E: Sink>(
    alloc: Global,
    job: &Job<'_>,
    found: Found,
    pause: &mut P,
    dial: &mut D,
    faults: &mut E,
) -> Result<u32, Exit>
    ensures range { IfOk result (λ count. count ≤ found.count) }
    ensures ok { IfOk result (λ count. (began : Print)
        × StartsAt P.Pause D.Dial D.Reader.Source D.Writer.Sink job.now found count
        (ways pause.old dial.old) (ways pause.new dial.new) began
        × IsPrint E.Sink began faults.old faults.new) }
    ensures err { IfErr result (λ exit. (did : Packing) × (did.exit ≡ exit) × IsSilent did
        × GetsNoAnswer P.Pause D.Dial D.Reader.Source D.Writer.Sink job.now found
        (ways pause.old dial.old) (ways pause.new dial.new) did
        × IsPrint E.Sink did.faults faults.old faults.new) }
{
    let path = job.place.path;
    if found.count == 0 {
        report_other(alloc, path, found.is_other, faults);
        return Ok(0);
    }
    let asked = ask_server(
        alloc,
        job.recorder.name,
        job.recorder.fruitless,
        pause,
        dial,
    );
    match asked {
        Ok(next) => {
            let is_less = next < found.count;
            report_answer(alloc, path, is_less, found.count, faults);
            Ok(if is_less { 0 } else { found.count })
        }
        Err(NotAsked::Fruitless) => {
            print_diagnostic(faults, FRUITLESS);
            Err(Exit::Device)
        }
        Err(NotAsked::Memory) => Err(give_up(faults, &Fault::Memory)),
    }
}

/// Reports where a sender begins for a server's answer: at this count, unless it expects less.
fn report_answer<E: Sink>(alloc: Global, path: &str, is_less: bool, count: u32, faults: &mut E)
    ensures { (print : Print) × ReportsAnswer is_less path.now count print
        × IsPrint E.Sink print faults.old faults.new }
{
    if is_less {
        report_start(alloc, path, "the server expects less, begins at", 0, faults);
    } else {
        report_start(alloc, path, "goes on at", count, faults);
    }
}

/// Reports that another state is replaced, if there is one.
fn report_other<E: Sink>(alloc: Global, path: &str, is_other: bool, faults: &mut E)
    ensures { (print : Print) × ReportsOther is_other path.now print
        × IsPrint E.Sink print faults.old faults.new }
{
    if is_other {
        report_start(alloc, path, "another state, begins at", 0, faults);
    }
}

const FRUITLESS: &[u8] = b"Fruitless: as many links in a row as are allowed settled nothing\n";
