//! The session of a name that comes into a server's table with what its journal says.
ghost use Rattle.std.specs.Prelude.{◌≡◌, IfOk};
ghost use Rattle.bw_file.specs.GrowingFiles.{clean_file};
ghost use Rattle.bw_session.specs.ResumedSessions.{ResumesFrom};

use crate::kept_take::KeptTake;
use crate::ledger::Ledger;
use crate::numbering::Progress;
use crate::session::Session;
use bw_file::GrowingFile;
use bw_journal::Replayed;
use bw_layout::Limit;
use bw_model::Name;
use std::alloc::{AllocError, Global};

/// The session of a name of which nothing waits.
pub(crate) fn session_of(alloc: Global, limit: Limit, take: KeptTake) -> Result<Session, AllocError>
    ensures { IfOk result (λ s. ResumesFrom limit take s) }
{
    let KeptTake {
        name,
        replayed,
        made,
    } = take;
    let Replayed {
        state,
        table,
        used,
        ..
    } = replayed;
    let growing = growing_of(alloc, name.copy(), limit, made)?;
    let progress = Progress {
        name,
        growing,
        state,
        ledger: Ledger::resume(table),
        noted: used as u64,
    };
    Session::resume(alloc, progress)
}

/// The file of a take, which is whole if it is made.
fn growing_of(
    alloc: Global,
    name: Name,
    limit: Limit,
    made: bool,
) -> Result<GrowingFile, AllocError>
    ensures { IfOk result
        (λ f. f ≡ clean_file name limit made) }
{
    if made {
        GrowingFile::resume(alloc, name, limit)
    } else {
        GrowingFile::new(alloc, name, limit)
    }
}
