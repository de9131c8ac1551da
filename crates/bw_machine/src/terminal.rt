//! The terminal that the progress of a sender is reported to.
ghost use Rattle.std.specs.Prelude.{◌≡◌, ◌∷◌, ◌++◌, ⊤, IfOk, codes, is_some};

use bw_ports::{ProgressReport, Watch};
use bw_progress::Screen;
use bw_stream::{StdIo, write_all};
use std::alloc::{AllocError, Global};
use std::io::{IsTerminal, Stderr};

/// What is written before a line that is shown in place of another: the cursor goes to the line's
/// start, and the terminal doesn't wrap, so that a line that is too long is cut (ECMA-48, and DEC's
/// for wrapping).
const LINE_START: &[u8] = b"\r\x1b[?7l";

/// What is written after it: what is left of the line before is cleared, and the terminal wraps
/// again.
const LINE_END: &[u8] = b"\x1b[K\x1b[?7h";

/// Clears a line, and leaves the cursor at its start.
const CLEAR_LINE: &[u8] = b"\r\x1b[K";

/// Standard error if it is a terminal, for the progress of a sender. No clause says what a terminal
/// shows.
#[derive(Drop)]
pub struct Terminal {
    alloc: Global,
    screen: Option<StdIo<Stderr>>,
}

impl Terminal {
    /// The terminal of this runtime's process, or none if its standard error leads elsewhere.
    ///
    /// # Not specified
    /// Anything: it has no contract. What a terminal shows is tested on a pseudoterminal.
    pub fn new(rt: &HostRuntime) -> Terminal {
        let faults = rt.stderr();
        let screen = if faults.is_terminal() {
            Some(StdIo::new(faults))
        } else {
            None
        };
        Terminal {
            alloc: rt.alloc(),
            screen,
        }
    }
}

impl Terminal {
    /// Another handle of the same terminal.
    ///
    /// # Not specified
    /// Anything: it has no contract.
    pub fn again(&self, rt: &HostRuntime) -> Terminal {
        Terminal {
            alloc: rt.alloc(),
            screen: match &self.screen {
                Some(_screen) => Some(StdIo::new(rt.stderr())),
                None => None,
            },
        }
    }
}

impl Screen for Terminal {
    ghost use Rattle.bw_machine.specs.SeenMachine.{terminal_is_seen};

    ghost is_seen = { terminal_is_seen };

    ghost shows = { λ _ _ _. ⊤ };

    ghost clears = { λ _ _. ⊤ };

    fn is_there(&self) -> bool {
        self.screen.is_some()
    }

    /// Writes it in one piece, so that no half of it is seen.
    fn show(&mut self, line: &[u8]) {
        let Some(screen) = &mut self.screen else {
            return;
        };
        if let Ok(text) = shown_line(self.alloc, line) {
            // What can't be shown is no reason to stop.
            let _ = write_all(screen, text.as_slice());
        }
    }

    fn clear(&mut self) {
        if let Some(screen) = &mut self.screen {
            let _ = write_all(screen, CLEAR_LINE);
        }
    }
}

/// A line with what is written before and after it on a terminal.
fn shown_line(alloc: Global, line: &[u8]) -> Result<Vec<u8>, AllocError>
    ensures { IfOk result (λ text. text.items
        ≡ 13 ∷ 27 ∷ codes "[?7l" ++ line.now ++ 27 ∷ codes "[K" ++ 27 ∷ codes "[?7h") }
{
    let mut text = Vec::new(alloc);
    text.extend_from_slice(LINE_START)?;
    text.extend_from_slice(line)?;
    text.extend_from_slice(LINE_END)?;
    Ok(text)
}

impl Watch for Terminal {
    fn round<P: ProgressReport>(&mut self, progress: &P) {
        if let Some(screen) = &mut self.screen {
            progress.print_diagnostic(screen);
        }
    }
}
