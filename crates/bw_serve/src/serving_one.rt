//! One exchange of the command `serve`, and its line.
ghost use Rattle.std.specs.Prelude.{◌≡◌};
ghost use Rattle.bw_serve.specs.ServedOne.{PrintsEnd, ServesTo, exchange_end_line};
ghost use Rattle.bw_serve.specs.ServedOne.{exit_of_end, exit_unreported};

use crate::line::exchange_line;
use arrayvec::ArrayString;
use bw_console::Exit;
use bw_console::print::print;
use bw_exchange::{ExchangeEnd, Turns, end_name, serve_exchange};
use bw_stream::{Sink, Source};
use std::alloc::Global;

/// How an exchange ended, and how the call that served it ends.
#[derive(Clone, Copy)]
pub(crate) struct Ended {
    pub(crate) end: ExchangeEnd,
    pub(crate) exit: Exit,
}

/// Serves one exchange, and prints how it ended: `exchange INDEX END`.
///
/// The call ends as `Done` if it reached the end of its stream, which a bad frame is too; `Device` if
/// it broke off, or the line can't be written; `Memory` if memory was refused, whether or not the line
/// is written. The line itself allocates nothing.
///
/// # Not specified
/// - When memory is refused.
/// - Whether the writer was flushed, and how many bytes the reader counted, as `serve_exchange`
///   says.
pub(crate) fn serve_link<R: Source, W: Sink, T: Turns, O: Sink>(
    alloc: Global,
    server: &mut T,
    reader: &mut R,
    writer: &mut W,
    index: u64,
    out: &mut O,
) -> Ended
    ensures { ServesTo T.answers T.commits R.Source W.Sink O.Sink index result.end result.exit server.old
        server.new reader.old reader.new writer.old writer.new out.old out.new }
{
    let end = serve_exchange(alloc, server, reader, writer);
    let exit = print_exchange(index, end, out);
    Ended { end, exit }
}

/// Prints how an exchange ended, and returns how the call ends.
fn print_exchange<O: Sink>(index: u64, end: ExchangeEnd, out: &mut O) -> Exit
    ensures { PrintsEnd O.Sink index end result out.old out.new }
{
    match print(out, end_line(index, end).as_str().as_bytes()) {
        Ok(()) => exit_reported(end),
        Err(_failed) => exit_unwritten(end),
    }
}

/// The line of an exchange that ended like this.
fn end_line(index: u64, end: ExchangeEnd) -> ArrayString<64>
    ensures { result.bytes ≡ exchange_end_line index end }
{
    exchange_line(index, end_name(end))
}

/// How the call ends if the line is written.
fn exit_reported(end: ExchangeEnd) -> Exit
    ensures { result ≡ exit_of_end end }
{
    match end {
        ExchangeEnd::Bye => Exit::Done,
        ExchangeEnd::EndOfInput => Exit::Done,
        ExchangeEnd::BadFrame(_) => Exit::Done,
        ExchangeEnd::ReadFault => Exit::Device,
        ExchangeEnd::WriteFault => Exit::Device,
        ExchangeEnd::NotKept(_) => Exit::Device,
        ExchangeEnd::TurnLimit => Exit::Device,
        ExchangeEnd::Memory => Exit::Memory,
    }
}

/// How the call ends if the line can't be written.
fn exit_unwritten(end: ExchangeEnd) -> Exit
    ensures { result ≡ exit_unreported end }
{
    match exit_reported(end) {
        Exit::Memory => Exit::Memory,
        _ => Exit::Device,
    }
}
