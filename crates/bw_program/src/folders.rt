//! The commands on a folder of takes, as a command line asks for them.
ghost use Rattle.std.specs.Prelude.{◌≡◌};
ghost use Rattle.bw_args.specs.declared.Task.TheVariants.{Takes, Verify};
ghost use Rattle.bw_program.specs.Requests.{ByTask};
ghost use Rattle.bw_program.specs.TakesCommands.{form_for};

use crate::behavior::Behavior;
use crate::outside::{Environment, Outside};
use bw_args::{FolderWork, TakesFolder};
use bw_console::Exit;
use bw_ports::{FileKinds, refuse_kind};
use bw_takes::{
    Depth, LineStyle, ReportForm, give_up_locked, show_takes, show_verified, watch_takes,
};
use std::alloc::Global;

/// Reports the takes of the folder that the command line names, once or until the program is stopped,
/// or gives one of them up.
pub(crate) fn work_on_takes<X: Environment>(
    alloc: Global,
    listing: &TakesFolder,
    outside: &mut Outside<X>,
) -> Exit
    ensures { ⟦<Outside<X> as Behavior>⟧.does (ByTask (Takes listing.now)) result
        outside.old outside.new }
{
    let folder = listing.folder.as_str();
    let Outside {
        disk,
        files: locks,
        pause,
        out,
        faults,
        screens,
        ..
    } = outside;
    match &listing.work {
        FolderWork::Report {
            check,
            json,
            digest,
        } => {
            let form = report_form(*check, *json, *digest);
            show_takes(alloc, disk, folder, form, out, faults)
        }
        FolderWork::Watch => watch_takes(alloc, disk, folder, *screens, pause, out, faults),
        FolderWork::GiveUp(name) => give_up_locked(alloc, disk, locks, folder, name, out, faults),
    }
}

/// Compares the takes of a folder with the receipts in a file. A pipe or a device is refused, as their
/// length says nothing of what comes.
pub(crate) fn verify_folder<X: Environment>(
    alloc: Global,
    folder: &String,
    receipts: &String,
    outside: &mut Outside<X>,
) -> Exit
    ensures { ⟦<Outside<X> as Behavior>⟧.does (ByTask (Verify folder.now receipts.now)) result
        outside.old outside.new }
{
    let path = receipts.as_str();
    let kind = outside.files.kind_at(path);
    if kind.is_odd(true) {
        return refuse_kind(alloc, path, kind, true, &mut outside.faults);
    }
    let Outside {
        disk,
        out,
        faults,
        ..
    } = outside;
    show_verified(alloc, disk, folder.as_str(), path, out, faults)
}

/// How takes are reported, where these options are given or not.
fn report_form(check: bool, json: bool, digest: bool) -> ReportForm
    ensures { result ≡ form_for check json digest }
{
    let style = if json {
        LineStyle::Json
    } else {
        LineStyle::Words
    };
    let depth = if check {
        Depth::Samples
    } else {
        Depth::Journals
    };
    ReportForm {
        style,
        depth,
        digest,
    }
}
