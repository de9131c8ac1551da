//! Laws of servers. Each function's contract is one; nothing runs.
ghost use Rattle.bw_serve.specs.Guards.{GuardedRunsAreRuns};
ghost use Rattle.bw_serve.specs.Names.{NamesStandApart};
ghost use Rattle.bw_serve.specs.Openings.{HeldServersLeave};

use bw_exchange::Turns;
use bw_journal::{Journal, NoJournal};
use bw_store::TakeStore;

/// Over an honest store a new server leaves the files of all that came, in whatever order the turns
/// of its connections came; and the replies and requests of each name follow from its own messages
/// and their failures, except for messages that are turned away for lack of room.
pub fn law_names<S: TakeStore>()
    ensures { NamesStandApart S.TakeStore ⟦<NoJournal as Journal>⟧ }
{
    bw_exchange::laws::law_runs();
    bw_model::law_isolation();
}

/// From each book that a server held over an honest store, what it answers is a run, after which each
/// name that is closed, or of which nothing waits, has its take's file, or what was there first.
pub fn law_held_runs<S: TakeStore, J: Journal>()
    ensures { HeldServersLeave S.TakeStore J.Journal }
{
    bw_session::laws::law_server_runs::<S, J>();
}

/// What a server answered that is given only what its peers may say is a run of that server, without
/// what was turned away: that was answered `TableFull`, or `Next`, with next 0, and its name isn't
/// allowed from some peer. Where all is allowed, all of it is a run.
pub fn law_guarded<T: Turns>()
    ensures { GuardedRunsAreRuns T.answers T.committed }
{}
