//! The lines that keep the markers' places.
ghost use Rattle.std.specs.Prelude.{◌≡◌};
ghost use Rattle.bw_console.specs.Text.{as_line};
ghost use Rattle.bw_live.specs.MarkTexts.{end_text, mark_text};

use crate::answer::MarkFault;
use arrayvec::ArrayString;
use bw_layout::CuePoint;
use itoa::Buffer;

/// The line after which there are no more markers.
pub const END: &[u8] = b"end.\n";

/// The line that keeps what a line became.
pub fn entry_line(placed: &Result<CuePoint, MarkFault>) -> ArrayString<32>
    ensures { result.bytes ≡ as_line (mark_text placed.now) }
{
    let mut line = ArrayString::new();
    match placed {
        Ok(point) => {
            line.push_str(Buffer::new().format(point.frame));
            line.push_str(" ");
            line.push_str(Buffer::new().format(point.id));
        }
        Err(_fault) => line.push_str("skipped"),
    }
    line.push_str(".\n");
    line
}
