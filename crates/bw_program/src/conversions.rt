//! The command that makes a file under another id, as a command line asks for it.
ghost use Rattle.std.specs.Prelude.{◌≡◌};
ghost use Rattle.bw_args.specs.declared.Task.TheVariants.{Convert};
ghost use Rattle.bw_program.specs.ConvertCommands.{form_asked};
ghost use Rattle.bw_program.specs.Requests.{ByTask};

use crate::behavior::Behavior;
use crate::outside::{Environment, Outside};
use bw_args::AskedForm;
use bw_console::Exit;
use bw_repair::{WideForm, convert_file};
use std::alloc::Global;

/// Makes a file of the one at a path, at another.
pub(crate) fn convert_recording<X: Environment>(
    alloc: Global,
    file: &String,
    to: &String,
    form: AskedForm,
    outside: &mut Outside<X>,
) -> Exit
    ensures { ⟦<Outside<X> as Behavior>⟧.does (ByTask (Convert file.now to.now form))
        result outside.old outside.new }
{
    let Outside {
        files,
        disk,
        out,
        faults,
        ..
    } = outside;
    convert_file(
        alloc,
        files,
        disk,
        file.as_str(),
        to.as_str(),
        form_for(form),
        out,
        faults,
    )
}

/// The form that is asked for.
fn form_for(form: AskedForm) -> WideForm
    ensures { result ≡ form_asked form }
{
    match form {
        AskedForm::Rf64 => WideForm::Rf64,
        AskedForm::Bw64 => WideForm::Bw64,
    }
}
