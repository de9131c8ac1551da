//! What the end of an exchange is called.
ghost use Rattle.std.specs.Prelude.{◌≡◌, ◌≤◌, length};
ghost use Rattle.bw_exchange.specs.EndNames.{name_of_end};

use crate::serving::ExchangeEnd;

/// The name of an exchange's end, at most 10 bytes long.
pub fn end_name(end: ExchangeEnd) -> &'static str
    ensures value { result.now ≡ name_of_end end }
    ensures short { length result.now ≤ 10 }
{
    match end {
        ExchangeEnd::Bye => "Bye",
        ExchangeEnd::EndOfInput => "EndOfInput",
        ExchangeEnd::BadFrame(_) => "BadFrame",
        ExchangeEnd::ReadFault => "ReadFault",
        ExchangeEnd::WriteFault => "WriteFault",
        ExchangeEnd::NotKept(_) => "NotKept",
        ExchangeEnd::TurnLimit => "TurnLimit",
        ExchangeEnd::Memory => "Memory",
    }
}
