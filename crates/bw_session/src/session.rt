//! What a server keeps of a name.
ghost use Rattle.std.specs.Prelude.{◌≡◌, ℕ, List, Option, IfOk, length, false, is_some};
ghost use Rattle.bw_model.specs.Book.{Log, no_log};
ghost use Rattle.bw_file.specs.GrowingFiles.{clean_file};
ghost use Rattle.bw_journal.specs.JournalHeaders.{Header, header_bytes, header_len};
ghost use Rattle.bw_journal.specs.Notes.{IsPrefixOf};
ghost use Rattle.bw_session.specs.NameNotes.{IsNoted};
ghost use Rattle.bw_session.specs.DoneNumbers.{KeepsDone};
ghost use Rattle.bw_session.specs.Prefixes.{take_done, FileFollows};
ghost use Rattle.bw_session.specs.Drains.{Fits, HoldsPart, IsAllDone};

use crate::ledger::Ledger;
use crate::numbering::Progress;
use crate::window::Window;
use bw_file::GrowingFile;
use bw_journal::JournalHeader;
use bw_layout::Limit;
use bw_model::Name;
use bw_take::TakeState;
use std::alloc::{AllocError, Global};

/// What a server keeps of a name: of its done numbers, and of the messages that wait.
#[derive(Drop)]
pub(crate) struct Session {
    pub(crate) progress: Progress,
    pub(crate) window: Window,
    ghost fits: { Fits progress.growing progress.state.parts (length progress.ledger.outcomes)
        progress.state.room progress.ledger.room window },
}

impl Session {
    ghost use Rattle.std.specs.Prelude.{None, replicate};
    ghost use Rattle.bw_session.specs.Sessions.{part_of};
    ghost use Rattle.bw_session.specs.ConsecutiveCalls.{new_part};

    /// Creates the session of a name of which nothing has come.
    ///
    /// # Errors
    /// `AllocError` if memory was refused.
    pub(crate) fn new(alloc: Global, name: Name, limit: Limit) -> Result<Session, AllocError>
        ensures name { IfOk result (λ s. s.progress.name ≡ name) }
        ensures growing { IfOk result (λ s. s.progress.growing ≡ clean_file name limit false) }
        ensures part { IfOk result (λ s. part_of s ≡ new_part name limit) }
        ensures holds { IfOk result (λ s. (first : Option (List ℕ)) →
            HoldsPart first no_log s.progress.state.parts s.progress.ledger.outcomes s.window
            s.progress.growing first) }
        ensures noted { IfOk result (λ s. (h : Header) (found : Option (List ℕ)) →
            IsPrefixOf (header_bytes name h) found → IsNoted h name no_log s.progress.noted found) }
    {
        let progress = Progress {
            growing: GrowingFile::new(alloc, name.copy(), limit)?,
            name,
            state: TakeState::new(alloc),
            ledger: Ledger::new(alloc),
            noted: JournalHeader::LEN as u64,
        };
        Session::resume(alloc, progress)
    }

    /// Creates a session of which nothing waits, from what is kept of its done numbers.
    ///
    /// # Errors
    /// `AllocError` if memory was refused.
    pub(crate) fn resume(alloc: Global, progress: Progress) -> Result<Session, AllocError>
        requires { progress.growing.dirty ≡ false }
        ensures progress { IfOk result (λ s. s.progress ≡ progress) }
        ensures window { IfOk result (λ s. s.window ≡ replicate 16 None) }
        ensures holds { IfOk result (λ s. (first : Option (List ℕ)) (log : Log)
            (found : Option (List ℕ)) → IsAllDone log →
            KeepsDone (is_some first) progress.name log progress.state.parts
            progress.ledger.outcomes →
            FileFollows first (take_done first log) progress.growing found →
            HoldsPart first log s.progress.state.parts s.progress.ledger.outcomes s.window
            s.progress.growing found) }
    {
        Ok(Session {
            progress,
            window: Window::new(alloc)?,
        })
    }
}
