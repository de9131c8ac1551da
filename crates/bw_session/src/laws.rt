//! Laws of the definitions on which servers of many names rely.
ghost use Rattle.bw_model.specs.Turn.{IsolatesEachName};
ghost use Rattle.bw_session.specs.Books.{QuietBooksAreInOrder, WaitingNumbersAreInOrder};
ghost use Rattle.bw_session.specs.ServerRuns.{ServersAnswerInRuns};
ghost use Rattle.bw_session.specs.QuietTurns.{SettledTurnsMeetNoFaults};
ghost use Rattle.bw_session.specs.TableChanges.{NamesOutsideMayChange};

use bw_journal::Journal;
use bw_store::TakeStore;

/// Each name's turns are a run of their own: messages of other names change nothing in it.
pub fn law_isolation()
    // Turns refused with TableFull or NoRoom are left out.
    ensures { IsolatesEachName }
{
    bw_model::law_isolation();
}

/// A message whose number is admitted or too far gets the same replies whatever memory and store
/// do, if nothing of its name waits.
#[tactic(auto, using(crate::proofs::SettledForms::settled_turns))]
pub fn law_settled()
    ensures { SettledTurnsMeetNoFaults }
{}

/// The order that `turn` keeps holds of each book in which no number waits, and says of each number
/// that waits: nothing is written to its file before its journal is begun, and its entry is whole only
/// where the file has its request.
pub fn law_order<S: TakeStore, J: Journal>()
    ensures quiet { QuietBooksAreInOrder S.TakeStore J.Journal }
    ensures waiting { WaitingNumbersAreInOrder S.TakeStore J.Journal }
{}

/// What lies under a name that a server doesn't know may change, as when its folder is recovered: the
/// server holds the same book, over a store that began with what lies there now.
pub fn law_outside<S: TakeStore, J: Journal>()
    ensures { NamesOutsideMayChange S.TakeStore J.Journal }
{}

/// What a server answers, one frame after another, is a run from each book that it holds.
pub fn law_server_runs<S: TakeStore, J: Journal>()
    // Each frame has at most 17 replies and one more failure, which DelayedStore needs.
    ensures { ServersAnswerInRuns S.TakeStore J.Journal }
{}
