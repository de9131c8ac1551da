//! Which calls of a server's store failed, as far as its lines say it.
ghost use Rattle.std.specs.Prelude.{◌≡◌, ℕ, List, IfOk, string_bytes};
ghost use Rattle.bw_net.specs.Faults.{store_fault_text, is_line_due, is_fault, start_fault_text};

use std::alloc::{AllocError, Global};
use std::cell::{Cell, RefCell};
use std::io::{self, ErrorKind};
use std::time::{Duration, Instant};

/// The fewest seconds from one line of a failed call to the next.
const BETWEEN_FAULTS: u64 = 60;

/// What is known of failed calls: the line of the first one of a start, and when a server that runs
/// last printed one.
///
/// No clause says what it holds.
#[derive(Drop)]
pub(crate) struct FaultNotes {
    first: RefCell<Option<String>>,
    last: Cell<Option<Instant>>,
}

impl FaultNotes {
    /// None has failed.
    pub(crate) fn new() -> FaultNotes {
        FaultNotes {
            first: RefCell::new(None),
            last: Cell::new(None),
        }
    }

    /// Keeps the line of a failed call of a start, unless one is kept.
    pub(crate) fn keep(&self, alloc: Global, path: &str, error: &io::Error) {
        let Ok(mut first) = self.first.try_borrow_mut() else {
            return;
        };
        if first.is_none() {
            *first = start_fault_line(alloc, path, error).ok();
        }
    }

    /// The line that is kept, which isn't kept any more.
    pub(crate) fn take(&self) -> Option<String> {
        match self.first.try_replace(None) {
            Ok(line) => line,
            Err(_) => None,
        }
    }

    /// Whether a line may be printed.
    pub(crate) fn may_print(&self, rt: &HostRuntime) -> bool {
        match self.last.get() {
            Some(last) => is_line_due(last.elapsed(rt).ok()),
            None => true,
        }
    }

    /// A line was printed.
    pub(crate) fn printed(&self, rt: &HostRuntime) {
        self.last.set(Instant::now(rt).ok());
    }
}

/// Whether an error is a fault, and no answer: that nothing is at a path, or something is, or that a
/// call is to be made again.
pub(crate) fn is_fault(kind: ErrorKind) -> bool
    ensures { result ≡ is_fault kind }
{
    match kind {
        ErrorKind::NotFound => false,
        ErrorKind::AlreadyExists => false,
        ErrorKind::Interrupted => false,
        _ => true,
    }
}

/// Whether a line may be printed so long after the last one; a clock that fails puts none off.
fn is_line_due(passed: Option<Duration>) -> bool
    ensures { result ≡ is_line_due passed }
{
    match passed {
        Some(passed) => passed.as_secs() >= BETWEEN_FAULTS,
        None => true,
    }
}

/// The line of a call that failed while a server runs.
pub(crate) fn fault_line(alloc: Global, path: &str, error: &io::Error) -> Result<String, AllocError>
    ensures { IfOk result (λ line. (reason : List ℕ) ×
        (string_bytes line ≡ store_fault_text path.now reason)) }
{
    let reason = format!(in alloc; "{error}")?;
    fault_line_with(alloc, path, reason.as_str())
}

fn fault_line_with(alloc: Global, path: &str, reason: &str) -> Result<String, AllocError>
    ensures { IfOk result (λ line. string_bytes line ≡ store_fault_text path.now reason.now) }
{
    format!(in alloc; "the store fails: {path}: {reason}\n")
}

/// The line of a call that failed at a start.
pub(crate) fn start_fault_line(
    alloc: Global,
    path: &str,
    error: &io::Error,
) -> Result<String, AllocError>
    ensures { IfOk result (λ line. (reason : List ℕ) ×
        (string_bytes line ≡ start_fault_text path.now reason)) }
{
    let reason = format!(in alloc; "{error}")?;
    start_fault_line_with(alloc, path, reason.as_str())
}

fn start_fault_line_with(alloc: Global, path: &str, reason: &str) -> Result<String, AllocError>
    ensures { IfOk result (λ line. string_bytes line ≡ start_fault_text path.now reason.now) }
{
    format!(in alloc; "{path}: {reason}\n")
}
