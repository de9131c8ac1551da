//! The line of a connection that ended.
ghost use Rattle.std.specs.Prelude.{◌≡◌, ◌≤◌, codes, length};
ghost use Rattle.bw_console.specs.Prints.{IsOf, IsPrint, Print};
ghost use Rattle.bw_serve.specs.Lines.{connection_line, name_of_connection_end};
ghost use Rattle.bw_serve.specs.ServedOne.{ended_line};

use arrayvec::ArrayString;
use bw_connections::ConnectionEnd;
use bw_console::print::print_diagnostic;
use bw_exchange::end_name;
use bw_stream::Sink;
use itoa::Buffer;

/// Prints the line of the connection with number `index`, counted by their ends. A failure to write
/// it is ignored.
pub(crate) fn print_end<O: Sink>(index: u64, end: ConnectionEnd, out: &mut O)
    ensures { (print : Print) × IsOf (connection_line index end) print
        × IsPrint O.Sink print out.old out.new }
{
    print_diagnostic(out, end_line(index, end).as_str().as_bytes());
}

fn end_line(index: u64, end: ConnectionEnd) -> ArrayString<64>
    ensures { result.bytes ≡ connection_line index end }
{
    exchange_line(index, name_of(end))
}

/// The line of the exchange with number `index`, whose end is called so.
pub(crate) fn exchange_line(index: u64, name: &str) -> ArrayString<64>
    requires { length name.now ≤ 16 }
    ensures { result.bytes ≡ ended_line index name.now }
{
    let mut digits = Buffer::new();
    let mut line = ArrayString::new();
    line.push_str("exchange ");
    line.push_str(digits.format(index));
    line.push_str(" ");
    line.push_str(name);
    line.push_str("\n");
    line
}

/// The name of a connection's end.
pub(crate) fn name_of(end: ConnectionEnd) -> &'static str
    ensures name { result.now ≡ name_of_connection_end end }
    ensures short { length result.now ≤ 16 }
{
    match end {
        ConnectionEnd::Over(end) => end_name(end),
        ConnectionEnd::Idle => "Idle",
    }
}
