//! Why a journal can't be replayed.
ghost use Rattle.std.specs.Prelude.{◌≡◌, ◌≤◌, None};
ghost use Rattle.bw_journal.specs.Faults.{replay_code};

use std::alloc::{AllocError, AllocFailed};
use thiserror::Error;

/// Why a journal can't be replayed: the first that holds.
///
/// No clause says what its text is.
#[derive(Clone, Copy, Debug, PartialEq, Eq, Hash, Error)]
pub enum ReplayFault {
    /// Up to its first zero byte or its end only a prefix of its header is there: the journal has to
    /// be begun again.
    #[error("the journal's header is torn")]
    NotBegun = 1,
    /// There is no header at its start.
    #[error("not a journal")]
    NotAJournal = 2,
    /// Its header is that of another name's journal: the file was renamed.
    #[error("the journal is another name's")]
    OtherName = 3,
    /// Its header has another limit than the server.
    #[error("the journal has another limit")]
    OtherLimit = 4,
    /// An entry's verdict differs from the request's judgement: other rules made it.
    #[error("an entry isn't judged as it says")]
    OtherVerdict = 5,
    /// A line has a right check, but is no entry that this program writes.
    #[error("an entry isn't known")]
    NotAnEntry = 6,
    /// A line isn't what an entry is written as, or its check is wrong. Neither a stop nor a loss of
    /// power leaves such a line.
    #[error("the journal is damaged")]
    Damaged = 7,
    /// Memory was refused.
    #[error("out of memory")]
    Memory = 8,
}

impl ReplayFault {
    /// Its number.
    pub fn code(self) -> u8
        ensures value { result ≡ replay_code self }
        ensures range { result ≤ 8 }
    {
        self as u8
    }
}

impl From<AllocError> for ReplayFault {
    ghost use Rattle.bw_journal.specs.declared.fault.ReplayFault.TheVariants.{Memory};

    ghost from_gives = { λ _ fault. fault ≡ Memory };

    /// `Memory`.
    fn from(_: AllocError) -> ReplayFault {
        ReplayFault::Memory
    }
}

impl<T: Drop> From<AllocFailed<T>> for ReplayFault {
    ghost use Rattle.bw_journal.specs.declared.fault.ReplayFault.TheVariants.{Memory};

    ghost from_gives = { λ _ fault. fault ≡ Memory };

    /// `Memory`.
    fn from(_: AllocFailed<T>) -> ReplayFault {
        ReplayFault::Memory
    }
}
