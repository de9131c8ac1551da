//! Options as `clap` is given them, by the rows of a table.
ghost use Rattle.std.specs.Prelude.{IfOk, fold, map};
ghost use Rattle.clap.specs.Simple.{App, with_rule};
ghost use Rattle.bw_args.specs.Commands.{IsCommand, IsOption, flag, option, word};
ghost use Rattle.bw_args.specs.Rows.{rule_of_row};

use clap::{Arg, ArgAction, Command};
use std::alloc::{AllocError, Global};

/// How an option is given, with what the help calls its value.
#[derive(Clone, Copy)]
pub(crate) enum Kind {
    /// With a value: `--limit N`.
    Value(&'static str),
    /// The same, and it has to be given.
    Required(&'static str),
    /// The same, and it may be given more than once.
    Repeated(&'static str),
    /// With a value, or alone, which stands for the value named second.
    Optional(&'static str, &'static str),
    /// Without a value.
    Flag,
    /// As a word of its own, which has to be given.
    Word(&'static str),
    /// As such words, at least one.
    Words(&'static str),
    /// As any number of such words, or none.
    AnyWords(&'static str),
}

/// An option of one command: what follows `--`, how it is given, and what the help says.
pub(crate) struct Row {
    pub name: &'static str,
    pub kind: Kind,
    pub help: &'static str,
}

impl Row {
    /// What `clap` is given for the option.
    fn arg<'a>(&self, alloc: Global) -> Arg<'a>
        ensures { IsOption (rule_of_row self.now) result }
    {
        match self.kind {
            Kind::Value(value) => value_option(alloc, self.name, value, self.help),
            Kind::Required(value) => {
                value_option(alloc, self.name, value, self.help).required(true)
            }
            Kind::Repeated(value) => {
                value_option(alloc, self.name, value, self.help).action(ArgAction::Append)
            }
            Kind::Optional(value, missing) => {
                let option = value_option(alloc, self.name, value, self.help);
                option.num_args(0..=1).default_missing_value(missing)
            }
            Kind::Flag => flag_option(alloc, self.name, self.help),
            Kind::Word(value) => word(alloc, self.name, value, self.help),
            Kind::Words(value) => {
                word(alloc, self.name, value, self.help).action(ArgAction::Append)
            }
            Kind::AnyWords(value) => {
                let words = word(alloc, self.name, value, self.help).required(false);
                words.action(ArgAction::Append)
            }
        }
    }
}

/// An option with a value, which the help calls `value`.
fn value_option<'a>(alloc: Global, name: &'a str, value: &'a str, help: &'a str) -> Arg<'a>
    ensures { IsOption (option name.now) result }
{
    Arg::new(alloc, name)
        .long(name)
        .value_name(value)
        .help(help)
}

/// An option without a value.
fn flag_option<'a>(alloc: Global, name: &'a str, help: &'a str) -> Arg<'a>
    ensures { IsOption (flag name.now) result }
{
    Arg::new(alloc, name)
        .long(name)
        .action(ArgAction::SetTrue)
        .help(help)
}

/// A word that has to be given, which the help calls `value`.
fn word<'a>(alloc: Global, name: &'a str, value: &'a str, help: &'a str) -> Arg<'a>
    ensures { IsOption (word name.now) result }
{
    Arg::new(alloc, name)
        .value_name(value)
        .required(true)
        .help(help)
}

/// A command with the options of these rows too, if memory sufficed for all.
pub(crate) fn with_rows<'a>(
    alloc: Global,
    command: Command<'a>,
    rows: &[Row],
) -> Result<Command<'a>, AllocError>
    ensures { (app : App) → IsCommand app command.entry
        → IfOk result (IsCommand (fold with_rule app (map rule_of_row rows.now))) }
{
    let mut command = command;
    for row in rows {
        command = command.arg(row.arg(alloc))?;
    }
    Ok(command)
}
