//! Why a command gives up.
ghost use Rattle.std.specs.Prelude.{◌≡◌, ◌≤◌, ◌+◌, [], ◌++◌, length, codes, decimal};
ghost use Rattle.bw_console.specs.Faults.{exit_on, input_fault_text};
ghost use Rattle.bw_console.specs.Text.{as_line};

use crate::exit::Exit;
use arrayvec::ArrayString;
use itoa::Buffer;
use std::alloc::{AllocError, AllocFailed};

/// Why a command gives up. Lines are counted from 1.
#[derive(Debug, PartialEq, Eq, Drop)]
pub enum Fault {
    /// The input has more than 16,777,216 bytes.
    TooLong,
    /// The line with this number isn't hex.
    NotHex(u64),
    /// The line with this number is no event of a rehearsal.
    NotEvent(u64),
    /// The line with this number is no request.
    NotRequest(u64),
    /// The reader failed.
    Unreadable,
    /// The writer failed.
    Unwritable,
    /// Memory was refused.
    Memory,
}

impl Fault {
    /// How the command ends after this fault.
    ///
    /// `Device` for `Unreadable` and `Unwritable`, `Memory` for `Memory`, and `Refused` for the
    /// others.
    pub fn exit(&self) -> Exit
        ensures { result ≡ exit_on self.now }
    {
        match self {
            Fault::TooLong => Exit::Refused,
            Fault::NotHex(_) => Exit::Refused,
            Fault::NotEvent(_) => Exit::Refused,
            Fault::NotRequest(_) => Exit::Refused,
            Fault::Unreadable => Exit::Device,
            Fault::Unwritable => Exit::Device,
            Fault::Memory => Exit::Memory,
        }
    }

    /// The line that reports it, at most 64 bytes, ended by a line feed. It allocates nothing,
    /// since memory may be what is lacking.
    pub fn line(&self) -> ArrayString<64>
        ensures { result.bytes ≡ as_line (input_fault_text self.now) }
    {
        let mut line = ArrayString::new();
        self.put_on(&mut line);
        line.push_str("\n");
        line
    }

    /// Writes its text to an empty line.
    fn put_on(&self, line: &mut ArrayString<64>)
        requires { line.old.bytes ≡ [] }
        ensures text { line.new.bytes ≡ input_fault_text self.now }
        ensures short { length line.new.bytes ≤ 60 }
    {
        match self {
            Fault::TooLong => line.push_str("input too long"),
            Fault::NotHex(number) => put_line_fault(line, *number, ": not hex"),
            Fault::NotEvent(number) => put_line_fault(line, *number, ": not an event"),
            Fault::NotRequest(number) => put_line_fault(line, *number, ": not a request"),
            Fault::Unreadable => line.push_str("the input can't be read"),
            Fault::Unwritable => line.push_str("the output can't be written"),
            Fault::Memory => line.push_str("out of memory"),
        }
    }
}

/// Writes to an empty line what is wrong with the line of this number.
fn put_line_fault(line: &mut ArrayString<64>, number: u64, wrong: &str)
    requires empty { line.old.bytes ≡ [] }
    requires short { length wrong.now ≤ 15 }
    ensures text { line.new.bytes ≡ codes "line " ++ decimal number ++ wrong.now }
    ensures short { length line.new.bytes ≤ 60 }
{
    let mut digits = Buffer::new();
    line.push_str("line ");
    line.push_str(digits.format(number));
    line.push_str(wrong);
}

impl From<AllocError> for Fault {
    ghost use Rattle.bw_console.specs.declared.fault.Fault.TheVariants.{Memory};

    ghost from_gives = { λ _ fault. fault ≡ Memory };

    /// `Memory`.
    fn from(_: AllocError) -> Fault {
        Fault::Memory
    }
}

impl<T: Drop> From<AllocFailed<T>> for Fault {
    ghost use Rattle.bw_console.specs.declared.fault.Fault.TheVariants.{Memory};

    ghost from_gives = { λ _ fault. fault ≡ Memory };

    /// `Memory`.
    fn from(_: AllocFailed<T>) -> Fault {
        Fault::Memory
    }
}
