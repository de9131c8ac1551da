//! Why recordings aren't sent.
ghost use Rattle.std.specs.Prelude.{◌≡◌, IfOk, List, ℕ, string_bytes};
ghost use Rattle.bw_queue.specs.QueueFaults.{FaultSays, alike_text, bad_naming_text, nameless_text};
ghost use Rattle.bw_queue.specs.QueueFaults.{no_receipt_text};
ghost use Rattle.bw_queue.specs.QueueFaults.{no_recordings_text, unreadable_text};

use std::alloc::{AllocError, Global};

/// Why recordings aren't sent. A line ends with a line feed.
#[derive(Debug, Drop)]
pub enum QueueFault {
    /// The line that says what is wrong with what is asked for.
    Refused(String),
    /// The line that says what can't be read.
    Unread(String),
    /// Memory was refused.
    Memory,
}

impl From<AllocError> for QueueFault {
    ghost use Rattle.std.specs.Prelude.{◌≡◌};
    ghost use Rattle.bw_queue.specs.declared.fault.QueueFault.TheVariants.{Memory};

    ghost from_gives = { λ _ fault. fault ≡ Memory };

    /// `Memory`.
    fn from(_: AllocError) -> QueueFault {
        QueueFault::Memory
    }
}

/// The refusal of this line.
fn refusal(line: Result<String, AllocError>) -> QueueFault
    ensures { (text : List ℕ) → IfOk line (λ written. string_bytes written ≡ text) →
        FaultSays (λ said. said ≡ text) (λ said. ⊥) result }
{
    match line {
        Ok(line) => QueueFault::Refused(line),
        Err(_) => QueueFault::Memory,
    }
}

/// The refusal of a path that makes no name, and has none.
pub(crate) fn nameless(alloc: Global, path: &str) -> QueueFault
    ensures { FaultSays (λ line. line ≡ nameless_text path.now) (λ line. ⊥) result }
{
    refusal(nameless_line(alloc, path))
}

#[tactic(auto, unfolding(crate::specs::QueueFaults::nameless_text))]
fn nameless_line(alloc: Global, path: &str) -> Result<String, AllocError>
    ensures { IfOk result (λ line. string_bytes line ≡ nameless_text path.now) }
{
    format!(in alloc; "{path}: no name: use --names\n")
}

/// The refusal of two recordings that would have one name.
pub(crate) fn alike(alloc: Global, first: &str, second: &str) -> QueueFault
    ensures { FaultSays (λ line. line ≡ alike_text first.now second.now) (λ line. ⊥) result }
{
    refusal(alike_line(alloc, first, second))
}

fn alike_line(alloc: Global, first: &str, second: &str) -> Result<String, AllocError>
    ensures { IfOk result (λ line. string_bytes line ≡ alike_text first.now second.now) }
{
    let line = format!(in alloc; "{first} and {second}: one name for both: use --names\n")?;
    Ok(line)
}

/// The refusal of a folder without recordings.
pub(crate) fn without_recordings(alloc: Global, folder: &str) -> QueueFault
    ensures { FaultSays (λ line. line ≡ no_recordings_text folder.now) (λ line. ⊥) result }
{
    refusal(no_recordings_line(alloc, folder))
}

#[tactic(auto, unfolding(crate::specs::QueueFaults::no_recordings_text))]
fn no_recordings_line(alloc: Global, folder: &str) -> Result<String, AllocError>
    ensures { IfOk result (λ line. string_bytes line ≡ no_recordings_text folder.now) }
{
    format!(in alloc; "{folder}: no recordings\n")
}

/// The refusal of a line of a file of names.
pub(crate) fn bad_naming(alloc: Global, path: &str, number: u64) -> QueueFault
    ensures { FaultSays (λ line. line ≡ bad_naming_text path.now number) (λ line. ⊥) result }
{
    refusal(bad_naming_line(alloc, path, number))
}

fn bad_naming_line(alloc: Global, path: &str, number: u64) -> Result<String, AllocError>
    ensures { IfOk result (λ line. string_bytes line ≡ bad_naming_text path.now number) }
{
    let line = format!(in alloc; "{path} line {number}: not a new path with its name\n")?;
    Ok(line)
}

/// The refusal of a line of a file of receipts.
pub(crate) fn not_a_receipt(alloc: Global, path: &str, number: u64) -> QueueFault
    ensures { FaultSays (λ line. line ≡ no_receipt_text path.now number) (λ line. ⊥) result }
{
    refusal(no_receipt_line(alloc, path, number))
}

fn no_receipt_line(alloc: Global, path: &str, number: u64) -> Result<String, AllocError>
    ensures { IfOk result (λ line. string_bytes line ≡ no_receipt_text path.now number) }
{
    let line = format!(in alloc; "{path} line {number}: not a receipt\n")?;
    Ok(line)
}

/// The fault of a file or a folder that can't be read.
pub(crate) fn unreadable(alloc: Global, path: &str) -> QueueFault
    ensures { FaultSays (λ line. ⊥) (λ line. line ≡ unreadable_text path.now) result }
{
    match unreadable_line(alloc, path) {
        Ok(line) => QueueFault::Unread(line),
        Err(_) => QueueFault::Memory,
    }
}

#[tactic(auto, unfolding(crate::specs::QueueFaults::unreadable_text))]
fn unreadable_line(alloc: Global, path: &str) -> Result<String, AllocError>
    ensures { IfOk result (λ line. string_bytes line ≡ unreadable_text path.now) }
{
    format!(in alloc; "{path} can't be read\n")
}
