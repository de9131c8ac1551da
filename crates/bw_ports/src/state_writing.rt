//! The lines of a state are written.
ghost use Rattle.std.specs.Prelude.{◌≡◌};
ghost use Rattle.bw_console.specs.Text.{as_line};
ghost use Rattle.bw_ports.specs.Counts.{settled_text};

use arrayvec::ArrayString;
use itoa::Buffer;

/// The line that so many requests are settled.
pub fn settled_line(count: u32) -> ArrayString<32>
    ensures { result.bytes ≡ as_line (settled_text count) }
{
    let mut line = ArrayString::new();
    line.push_str("settled ");
    line.push_str(Buffer::new().format(count));
    line.push_str("\n");
    line
}
