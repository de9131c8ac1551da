//! The program and its commands, as `clap` sees them.
ghost use Rattle.std.specs.Prelude.{◌≡◌, IfOk};
ghost use Rattle.clap.specs.Simple.{App, new_app, with_subcommand};
ghost use Rattle.clap.specs.Words.{app_of, kind_of};
ghost use Rattle.bw_args.specs.Commands.{IsCommand, command_line, convert_command};
ghost use Rattle.bw_args.specs.Commands.{inspect_command, join_command};
ghost use Rattle.bw_args.specs.Commands.{offline, on_files, on_folders, pack_command};
ghost use Rattle.bw_args.specs.Commands.{picture_command, program, rehearse_command};
ghost use Rattle.bw_args.specs.Commands.{repair_command, replay_command, send_command};
ghost use Rattle.bw_args.specs.Commands.{serve_command, takes_command};

use super::options::{
    CONVERT, INSPECT, JOIN, NAMED, PACK, PICTURE, REHEARSE, REPAIR, REPLAY, SEND, SERVE, TAKES,
};
use super::row::with_rows;
use clap::error::ErrorKind;
use clap::{Command, Error};
use std::alloc::{AllocError, Global};

/// The whole command line.
pub fn bwingest<'a>(alloc: Global) -> Result<Command<'a>, AllocError>
    ensures { IfOk result (λ c. app_of c ≡ command_line) }
{
    let program = with_command(on_folders(alloc), serve(alloc));
    with_command(program, send(alloc))
}

/// The program of `on_files` with the command on a folder of takes.
fn on_folders<'a>(alloc: Global) -> Result<Command<'a>, AllocError>
    ensures { IfOk result (λ c. app_of c ≡ on_folders) }
{
    with_command(on_files(alloc), takes(alloc))
}

/// The program of `offline` with the commands that draw a file, change it in place, make another of it, or
/// join another to it.
fn on_files<'a>(alloc: Global) -> Result<Command<'a>, AllocError>
    ensures { IfOk result (λ c. app_of c ≡ on_files) }
{
    let program = with_command(offline(alloc), picture(alloc));
    let program = with_command(program, repair(alloc));
    let program = with_command(program, convert(alloc));
    with_command(program, join(alloc))
}

/// The program with the commands that use no network.
fn offline<'a>(alloc: Global) -> Result<Command<'a>, AllocError>
    ensures { IfOk result (λ c. app_of c ≡ offline) }
{
    let replays = with_command(program(alloc), replay(alloc));
    let rehearses = with_command(replays, rehearse(alloc));
    let inspects = with_command(rehearses, inspect(alloc));
    with_command(inspects, pack(alloc))
}

/// A program with this command too, if memory sufficed for both. Only here a program is dropped.
fn with_command<'a>(
    program: Result<Command<'a>, AllocError>,
    command: Result<Command<'a>, AllocError>,
) -> Result<Command<'a>, AllocError>
    ensures { (app under : App) → IfOk program.entry (λ p. app_of p ≡ app)
        → IfOk command.entry (IsCommand under)
        → IfOk result (λ c. app_of c ≡ with_subcommand app under.top) }
{
    let program = program?;
    program.subcommand(command?)
}

/// The program without its commands.
fn program<'a>(alloc: Global) -> Result<Command<'a>, AllocError>
    ensures { IfOk result (λ c. app_of c ≡ program) }
{
    Command::new(alloc, "bwingest")
        .version("1.1.0")
        .about("An ingest server for field recordings")
        .subcommand_required(true)
        .bin_name("bwingest")
}

/// The error of `send` with neither a name nor a FILE, as `clap` reports a missing argument.
pub fn name_missing(alloc: Global) -> Result<Error, AllocError>
    ensures { IfOk result (λ e. kind_of e ≡ ErrorKind.MissingRequiredArgument) }
{
    let command = Command::new(alloc, "send").bin_name("bwingest send")?;
    let mut command = with_rows(alloc, command, &NAMED)?;
    command.error(
        ErrorKind::MissingRequiredArgument,
        "the following required arguments were not provided:\n  --name <NAME>",
    )
}

/// A command without options, what it does, and an example.
fn named<'a>(alloc: Global, name: &'a str, about: &'a str, example: &'a str) -> Command<'a>
    ensures { IsCommand (new_app name.now) result }
{
    Command::new(alloc, name).about(about).after_help(example)
}

fn replay<'a>(alloc: Global) -> Result<Command<'a>, AllocError>
    ensures { IfOk result (IsCommand replay_command) }
{
    let command = named(
        alloc,
        "replay",
        "Runs each line of standard input as an exchange, and prints replies and files",
        "Example: bwingest replay --fuse 3 < requests.hex",
    );
    with_rows(alloc, command, &REPLAY)
}

fn rehearse<'a>(alloc: Global) -> Result<Command<'a>, AllocError>
    ensures { IfOk result (IsCommand rehearse_command) }
{
    let command = named(
        alloc,
        "rehearse",
        "Steps through a recorder and a server, event by event, from standard input",
        "Example: bwingest rehearse --name a1 < events.txt",
    );
    with_rows(alloc, command, &REHEARSE)
}

fn inspect<'a>(alloc: Global) -> Result<Command<'a>, AllocError>
    ensures { IfOk result (IsCommand inspect_command) }
{
    let command = named(
        alloc,
        "inspect",
        "Reports what files hold, or the first fault of each and its offset",
        "Examples: bwingest inspect --human take.wav; bwingest inspect --json takes/*.wav",
    );
    with_rows(alloc, command, &INSPECT)
}

fn pack<'a>(alloc: Global) -> Result<Command<'a>, AllocError>
    ensures { IfOk result (IsCommand pack_command) }
{
    let command = named(
        alloc,
        "pack",
        "Prints the requests of a recording, a line of hex each, as send reads them",
        "Example: bwingest pack take.wav --set description='River at dawn' > take.hex",
    );
    with_rows(alloc, command, &PACK)
}

fn picture<'a>(alloc: Global) -> Result<Command<'a>, AllocError>
    ensures { IfOk result (IsCommand picture_command) }
{
    let command = named(
        alloc,
        "picture",
        "Draws the waveform of a recording, with its markers, as an SVG",
        "Example: bwingest picture take.wav > take.svg",
    );
    with_rows(alloc, command, &PICTURE)
}

fn repair<'a>(alloc: Global) -> Result<Command<'a>, AllocError>
    ensures { IfOk result (IsCommand repair_command) }
{
    let command = named(
        alloc,
        "repair",
        "Reports the sizes that a killed writer left out of a file, or writes them",
        "Example: bwingest repair take.wav --write",
    );
    with_rows(alloc, command, &REPAIR)
}

fn convert<'a>(alloc: Global) -> Result<Command<'a>, AllocError>
    ensures { IfOk result (IsCommand convert_command) }
{
    let command = named(
        alloc,
        "convert",
        "Makes a new file with the bytes of a BW64 or RF64 file under the other one's id",
        "Example: bwingest convert --rf64 take.wav take-rf64.wav",
    );
    with_rows(alloc, command, &CONVERT)
}

fn join<'a>(alloc: Global) -> Result<Command<'a>, AllocError>
    ensures { IfOk result (IsCommand join_command) }
{
    let command = named(
        alloc,
        "join",
        "Prints a take with the chunks that --keep-left-out kept after its own",
        "Example: bwingest join take.wav left.wav > whole.wav",
    );
    with_rows(alloc, command, &JOIN)
}

fn takes<'a>(alloc: Global) -> Result<Command<'a>, AllocError>
    ensures { IfOk result (IsCommand takes_command) }
{
    let command = named(
        alloc,
        "takes",
        "Lists the takes in a server's folder, and what is wrong with any of them",
        "Example: bwingest takes --folder takes --check",
    );
    with_rows(alloc, command, &TAKES)
}

fn serve<'a>(alloc: Global) -> Result<Command<'a>, AllocError>
    ensures { IfOk result (IsCommand serve_command) }
{
    let command = named(
        alloc,
        "serve",
        "Receives takes over TCP, and keeps a file of each",
        "Example: bwingest serve --listen 127.0.0.1:4100 --folder takes --until-stopped --recorders 16 --journal",
    );
    with_rows(alloc, command, &SERVE)
}

fn send<'a>(alloc: Global) -> Result<Command<'a>, AllocError>
    ensures { IfOk result (IsCommand send_command) }
{
    let command = named(
        alloc,
        "send",
        "Sends recordings, or the requests on standard input, until each has its verdict",
        "Example: bwingest send --connect 127.0.0.1:4100 takes/*.wav
Example: bwingest send --connect 127.0.0.1:4100 --name a1 --file take.wav
Example: bwingest send --connect 127.0.0.1:4100 --name a1 < requests.hex",
    );
    with_rows(alloc, command, &SEND)
}
