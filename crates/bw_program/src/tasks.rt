//! The tasks that need few parts of the outside: each is given these alone.
ghost use Rattle.bw_layout.specs.Limits.{IsLimit};
ghost use Rattle.bw_args.specs.declared.Task.TheVariants.{Inspect, InspectFiles, Picture, Rehearse, Repair};
ghost use Rattle.bw_args.specs.declared.Task.TheVariants.{Replay};
ghost use Rattle.bw_args.specs.declared.Task.TheVariants.{Serve as Serving};
ghost use Rattle.bw_program.specs.Requests.{ByTask};

use crate::behavior::Behavior;
use crate::inspections::{inspect_as, inspect_one};
use crate::outside::{Environment, Outside};
use crate::remote::serve_as;
use bw_args::{Inspection, Serve};
use bw_commands::replay::replay;
use bw_console::Exit;
use bw_delivery::rehearse_with_stops_run;
use bw_layout::Limit;
use bw_model::Name;
use bw_picture::draw_file;
use bw_repair::repair_file;
use std::alloc::Global;

/// Runs each line of standard input as an exchange.
pub(crate) fn replay_input<X: Environment>(
    alloc: Global,
    limit: u64,
    fuse: Option<u32>,
    outside: &mut Outside<X>,
) -> Exit
    requires { IsLimit limit }
    ensures { ⟦<Outside<X> as Behavior>⟧.does (ByTask (Replay limit fuse)) result outside.old outside.new }
{
    let Some(limit) = Limit::new(limit) else {
        unreachable!();
    };
    let Outside {
        input,
        out,
        faults,
        ..
    } = outside;
    replay(alloc, limit, fuse, input, out, faults)
}

/// Plays a recorder and a server, by the events on standard input.
pub(crate) fn rehearse_input<X: Environment>(
    alloc: Global,
    name: &Name,
    limit: u64,
    outside: &mut Outside<X>,
) -> Exit
    requires { IsLimit limit }
    ensures { ⟦<Outside<X> as Behavior>⟧.does (ByTask (Rehearse name.now limit))
        result outside.old outside.new }
{
    let Some(limit) = Limit::new(limit) else {
        unreachable!();
    };
    let Outside {
        input,
        out,
        faults,
        ..
    } = outside;
    rehearse_with_stops_run(alloc, name.copy(), limit, input, out, faults)
}

/// Reports what is in the file at a path, or in standard input.
pub(crate) fn inspect_file<X: Environment>(
    alloc: Global,
    file: &String,
    outside: &mut Outside<X>,
) -> Exit
    ensures { ⟦<Outside<X> as Behavior>⟧.does (ByTask (Inspect file.now)) result outside.old outside.new }
{
    let Outside {
        system,
        input,
        out,
        faults,
        ..
    } = outside;
    inspect_one(alloc, system, input, file.as_str(), out, faults)
}

/// Reports what is in several files, or in a way of its own.
pub(crate) fn inspect_each<X: Environment>(
    alloc: Global,
    inspection: &Inspection,
    outside: &mut Outside<X>,
) -> Exit
    ensures { ⟦<Outside<X> as Behavior>⟧.does (ByTask (InspectFiles inspection.now))
        result outside.old outside.new }
{
    let Outside {
        files,
        input,
        out,
        faults,
        ..
    } = outside;
    inspect_as(alloc, inspection, files, input, out, faults)
}

/// Serves as the command line asks for.
pub(crate) fn serve_folder<X: Environment>(
    alloc: Global,
    server: &Serve,
    outside: &mut Outside<X>,
) -> Exit
    requires { IsLimit server.now.limit }
    ensures { ⟦<Outside<X> as Behavior>⟧.does (ByTask (Serving server.now)) result outside.old outside.new }
{
    let Outside {
        network,
        out,
        faults,
        ..
    } = outside;
    serve_as(alloc, server, network, out, faults)
}

/// Draws the waveform of a recording.
pub(crate) fn draw_recording<X: Environment>(
    alloc: Global,
    file: &String,
    outside: &mut Outside<X>,
) -> Exit
    ensures { ⟦<Outside<X> as Behavior>⟧.does (ByTask (Picture file.now)) result outside.old outside.new }
{
    let Outside {
        files,
        out,
        faults,
        ..
    } = outside;
    draw_file(alloc, files, file.as_str(), out, faults)
}

/// Reports which sizes a file lacks, and writes them into it if that is asked for.
pub(crate) fn repair_recording<X: Environment>(
    alloc: Global,
    file: &String,
    write: bool,
    outside: &mut Outside<X>,
) -> Exit
    ensures { ⟦<Outside<X> as Behavior>⟧.does (ByTask (Repair file.now write))
        result outside.old outside.new }
{
    let Outside {
        files,
        out,
        faults,
        ..
    } = outside;
    repair_file(alloc, files, file.as_str(), write, out, faults)
}
