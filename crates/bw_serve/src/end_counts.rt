//! How many connections ended, by cause.
ghost use Rattle.std.specs.Prelude.{◌≡◌};
ghost use Rattle.bw_connections.specs.declared.connection.ConnectionEnd.TheVariants.{Over};
ghost use Rattle.bw_serve.specs.CountedEnds.{end_counts, none_ended, with_end};

use bw_connections::ConnectionEnd;
use bw_exchange::ExchangeEnd;

/// How many connections ended by each cause, as the lines of ends name them. The counts stay at
/// 2^64 - 1.
#[derive(Clone, Copy, Debug, PartialEq, Eq)]
pub struct EndCounts {
    /// The recorder sent `Bye`.
    pub bye: u64,
    /// The input ended after a frame.
    pub end_of_input: u64,
    /// A frame was bad, or was cut off by the input's end.
    pub bad_frame: u64,
    /// Reading failed.
    pub read_fault: u64,
    /// Writing failed.
    pub write_fault: u64,
    /// The server couldn't commit what it had answered.
    pub not_kept: u64,
    /// More than 2^62 bytes came.
    pub turn_limit: u64,
    /// Memory was refused.
    pub memory: u64,
    /// No whole frame came for too long.
    pub idle: u64,
}

impl EndCounts {
    /// No connection has ended.
    pub fn new() -> EndCounts
        ensures { result ≡ none_ended }
    {
        EndCounts {
            bye: 0,
            end_of_input: 0,
            bad_frame: 0,
            read_fault: 0,
            write_fault: 0,
            not_kept: 0,
            turn_limit: 0,
            memory: 0,
            idle: 0,
        }
    }

    /// Counts an end.
    pub fn count(&mut self, end: ConnectionEnd)
        ensures { end_counts self.new ≡ with_end (end_counts self.old) end }
    {
        match end {
            ConnectionEnd::Over(end) => self.count_exchange(end),
            ConnectionEnd::Idle => self.idle = self.idle.saturating_add(1),
        }
    }

    /// Counts the end of an exchange.
    fn count_exchange(&mut self, end: ExchangeEnd)
        ensures { end_counts self.new ≡ with_end (end_counts self.old) (Over end) }
    {
        match end {
            ExchangeEnd::Bye => self.bye = self.bye.saturating_add(1),
            ExchangeEnd::EndOfInput => self.end_of_input = self.end_of_input.saturating_add(1),
            ExchangeEnd::BadFrame(_) => self.bad_frame = self.bad_frame.saturating_add(1),
            ExchangeEnd::ReadFault => self.read_fault = self.read_fault.saturating_add(1),
            ExchangeEnd::WriteFault => self.write_fault = self.write_fault.saturating_add(1),
            ExchangeEnd::NotKept(_) => self.not_kept = self.not_kept.saturating_add(1),
            ExchangeEnd::TurnLimit => self.turn_limit = self.turn_limit.saturating_add(1),
            ExchangeEnd::Memory => self.memory = self.memory.saturating_add(1),
        }
    }
}
