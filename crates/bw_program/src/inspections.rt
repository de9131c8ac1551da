//! The inspections of files and of standard input, as a command line asks for them.
ghost use Rattle.std.specs.Prelude.{◌≡◌, Bool};
ghost use Rattle.bw_console.specs.Outcomes.{HasWritten, Outcome};
ghost use Rattle.bw_console.specs.Prints.{failures_if};
ghost use Rattle.bw_args.specs.InspectedFiles.{is_input};
ghost use Rattle.bw_program.specs.FileCommands.{InspectsFiles, IsInspectedAt, is_input_alone};
ghost use Rattle.bw_program.specs.FileCommands.{style_of, wanted_of};

use bw_args::Inspection;
use bw_commands::{inspect_file, inspect_run};
use bw_console::Exit;
use bw_ports::{RecordingFiles, System};
use bw_report::{Style, Wanted, inspect_files, inspect_input};
use bw_stream::{Sink, Source};
use std::alloc::Global;

/// Reports what is in the file at a path, or for `-` in standard input.
pub(crate) fn inspect_one<S: System, R: Source, W: Sink, E: Sink>(
    alloc: Global,
    system: &mut S,
    input: &mut R,
    path: &str,
    out: &mut W,
    faults: &mut E,
) -> Exit
    ensures { (did : Outcome) × (did.exit ≡ result) × (gives_all : Bool)
        × IsInspectedAt (S.file_at system.old) (R.left input.old) path.now gives_all did
        × (R.failures input.new ≡ failures_if did.reads_all (R.failures input.old))
        × (S.failures system.new ≡ failures_if gives_all (S.failures system.old))
        × HasWritten W.Sink E.Sink did out.old out.new faults.old faults.new }
{
    if is_input(path) {
        inspect_run(alloc, input, out, faults)
    } else {
        inspect_file(alloc, system, path, out, faults)
    }
}

/// Reports what is in the files that the command line names, or in standard input.
pub(crate) fn inspect_as<F: RecordingFiles, R: Source, W: Sink, E: Sink>(
    alloc: Global,
    inspection: &Inspection,
    files: &mut F,
    input: &mut R,
    out: &mut W,
    faults: &mut E,
) -> Exit
    ensures { InspectsFiles F.RecordingFiles R.Source W.Sink E.Sink inspection.now result
        files.old files.new input.old input.new out.old out.new faults.old faults.new }
{
    let wanted = wanted_of(inspection);
    if is_input_alone(inspection) {
        return inspect_input(alloc, input, "-", wanted.style, out, faults);
    }
    inspect_files(
        alloc,
        files,
        inspection.files.as_slice(),
        wanted,
        out,
        faults,
    )
}

/// Whether a path is that of standard input.
fn is_input(path: &str) -> bool
    ensures { result ≡ is_input path.now }
{
    path == "-"
}

/// Whether standard input is the only file.
fn is_input_alone(inspection: &Inspection) -> bool
    ensures { result ≡ is_input_alone inspection.now }
{
    match inspection.files.as_slice() {
        [path] => is_input(path.as_str()),
        _ => false,
    }
}

/// How the files are reported: each below a line with its name, if there are several.
fn wanted_of(inspection: &Inspection) -> Wanted
    ensures { result ≡ wanted_of inspection.now }
{
    Wanted {
        style: style_of(inspection.json, inspection.human),
        named: inspection.files.len() > 1,
        digest: inspection.digest,
    }
}

fn style_of(json: bool, human: bool) -> Style
    ensures { result ≡ style_of json human }
{
    if json {
        Style::Json
    } else if human {
        Style::Human
    } else {
        Style::Plain
    }
}
