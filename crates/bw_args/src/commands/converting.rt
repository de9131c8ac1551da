//! The command `convert`.
ghost use Rattle.std.specs.Prelude.{◌≡◌, codes, IfOk, OnErr, Some};
ghost use Rattle.clap.specs.Words.{found_of, rows_of};
ghost use Rattle.bw_args.specs.Forms.{RunsFor};
ghost use Rattle.bw_args.specs.Lines.{AsksForPath, Converting, IsLineFor};
ghost use Rattle.bw_args.specs.AskedForms.{one_form};

use super::network::flag_given;
use crate::{AskedForm, BadValue, CommandLine, Task};
use clap::ArgMatches;
use std::alloc::{AllocError, Global};

pub(crate) fn convert_line(
    alloc: Global,
    options: &ArgMatches<'_>,
) -> Result<CommandLine, AllocError>
    ensures ok { IfOk result (IsLineFor (Some (codes "convert", rows_of (found_of options.now)))) }
    ensures err { OnErr result
        (AsksForPath (Some (codes "convert", rows_of (found_of options.now)))) }
{
    // `clap` refuses words without both files.
    let Some(path) = options.get_str("file") else {
        return Ok(CommandLine::BadValue(BadValue::Form));
    };
    let Some(to) = options.get_str("out") else {
        return Ok(CommandLine::BadValue(BadValue::Form));
    };
    match form_given(flag_given(options, "rf64"), flag_given(options, "bw64")) {
        Some(form) => conversion(alloc, path, to, form),
        None => Ok(CommandLine::BadValue(BadValue::Form)),
    }
}

/// The one form that is asked for; none if it is both, or neither.
fn form_given(rf64: bool, bw64: bool) -> Option<AskedForm>
    ensures { result ≡ one_form rf64 bw64 }
{
    if rf64 == bw64 {
        return None;
    }
    Some(if rf64 {
        AskedForm::Rf64
    } else {
        AskedForm::Bw64
    })
}

/// Runs the conversion of the file at a path.
fn conversion(
    alloc: Global,
    path: &str,
    to: &str,
    form: AskedForm,
) -> Result<CommandLine, AllocError>
    ensures { IfOk result (RunsFor (Converting path.now to.now form)) }
{
    let file = String::from_str(alloc, path)?;
    let out = String::from_str(alloc, to)?;
    Ok(CommandLine::Run(Task::Convert { file, out, form }))
}
