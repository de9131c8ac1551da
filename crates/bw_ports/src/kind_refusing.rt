//! What isn't a file is refused.
ghost use Rattle.std.specs.Prelude.{◌≡◌, IfOk, string_bytes};
ghost use Rattle.bw_console.specs.Prints.{IsPrint, Print};
ghost use Rattle.bw_ports.specs.Kinds.{IsKindReport, odd_line};

use crate::file_kind::FileKind;
use bw_console::print::{give_up, print_diagnostic};
use bw_console::{Exit, Fault};
use bw_stream::Sink;
use std::alloc::{AllocError, Global};

/// Reports that something of this kind is at a path, in place of a file: `PATH is a pipe: use --spool`.
/// Returns `Device`; or `Memory` if memory was refused for the line, which is `out of memory` then.
///
/// # Not specified
/// When memory is refused.
pub fn refuse_kind<E: Sink>(
    alloc: Global,
    path: &str,
    kind: FileKind,
    is_spool: bool,
    faults: &mut E,
) -> Exit
    ensures { (print : Print) × IsKindReport path.now kind is_spool result print
        × IsPrint E.Sink print faults.old faults.new }
{
    let Ok(line) = line_of(alloc, path, kind.words(), kind.hint(is_spool)) else {
        return give_up(faults, &Fault::Memory);
    };
    print_diagnostic(faults, line.as_str().as_bytes());
    Exit::Device
}

fn line_of(alloc: Global, path: &str, words: &str, hint: &str) -> Result<String, AllocError>
    ensures { IfOk result (λ line. string_bytes line ≡ odd_line path.now words.now hint.now) }
{
    format!(in alloc; "{path} is {words}{hint}\n")
}
