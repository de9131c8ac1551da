//! The line of an upload in a log.
ghost use Rattle.std.specs.Prelude.{◌≡◌, IfOk, true};
ghost use Rattle.bw_console.specs.Text.{as_line};
ghost use Rattle.bw_progress.specs.Displays.{AppendsLine};

use crate::screen::Screen;
use bw_console::print::print_diagnostic;
use bw_stream::Sink;
use std::alloc::{AllocError, Global};

/// A writer that gets each line as a line of its own. A failure to write it is ignored; a line for
/// which memory is refused is left out.
#[derive(Drop)]
pub struct LogScreen<E> {
    /// Makes the lines.
    pub alloc: Global,
    /// Takes them.
    pub out: E,
}

impl<E: Sink> Screen for LogScreen<E> {
    ghost is_seen = { λ _. true };

    ghost shows = { λ a line b. AppendsLine E.Sink line a.out b.out };

    ghost clears = { λ a b. b ≡ a };

    fn is_there(&self) -> bool {
        true
    }

    /// Writes it with its end in one piece, so that no other line comes between.
    fn show(&mut self, line: &[u8]) {
        if let Ok(text) = ended_line(self.alloc, line) {
            print_diagnostic(&mut self.out, text.as_slice());
        }
    }

    fn clear(&mut self) {}
}

/// A line with its end.
fn ended_line(alloc: Global, line: &[u8]) -> Result<Vec<u8>, AllocError>
    ensures { IfOk result (λ text. text.items ≡ as_line line.now) }
{
    let mut text = Vec::new(alloc);
    text.extend_from_slice(line)?;
    text.push(b'\n')?;
    Ok(text)
}
