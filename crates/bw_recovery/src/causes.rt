//! Why a name can't be resumed, as text.
ghost use Rattle.std.specs.Prelude.{◌≡◌, ◌++◌, IfOk, codes, string_bytes, decimal};
ghost use Rattle.bw_recovery.specs.Causes.{journal_text, file_cause_text, cause_text};

use crate::fault::FileFault;
use crate::finding::NameFault;
use bw_journal::ReplayFault;
use std::alloc::{AllocError, Global};

/// Why a name can't be resumed.
///
/// # Errors
/// `AllocError` if memory was refused.
pub fn cause_of(alloc: Global, fault: &NameFault) -> Result<String, AllocError>
    ensures { IfOk result (λ text. string_bytes text ≡ cause_text fault.now) }
{
    match fault {
        NameFault::Journal(fault) => String::from_str(alloc, journal_cause(*fault)),
        NameFault::OtherLimit(limit) => limit_cause(alloc, *limit),
        NameFault::File(fault) => String::from_str(alloc, file_cause(*fault)),
    }
}

/// The cause of a journal of another limit.
fn limit_cause(alloc: Global, limit: u32) -> Result<String, AllocError>
    ensures { IfOk result (λ text. string_bytes text ≡ codes "OtherLimit, needs --limit " ++ decimal limit) }
{
    format!(in alloc; "OtherLimit, needs --limit {limit}")
}

/// What is wrong with a journal.
pub fn journal_cause(fault: ReplayFault) -> &'static str
    ensures { result.now ≡ journal_text fault }
{
    match fault {
        ReplayFault::NotBegun => "NotBegun",
        ReplayFault::NotAJournal => "NotAJournal",
        ReplayFault::OtherName => "OtherName",
        ReplayFault::OtherLimit => "OtherLimit",
        ReplayFault::OtherVerdict => "OtherVerdict",
        ReplayFault::NotAnEntry => "NotAnEntry",
        ReplayFault::Damaged => "Damaged",
        ReplayFault::Memory => "Memory",
    }
}

/// What is wrong with a file.
pub fn file_cause(fault: FileFault) -> &'static str
    ensures { result.now ≡ file_cause_text fault }
{
    match fault {
        FileFault::Lost => "LostFile",
        FileFault::Changed => "ChangedFile",
    }
}
