//! What senders and servers achieve together: laws of the definitions, over one server, and over
//! servers that follow one another; and the command `rehearse`, which runs, event by event, a sender
//! and a server, or servers that stop, between turns or in a chosen call of a disk, and start over what
//! they left.
//! Not stated: whether a server stops in a turn or a start, and in which call of it, since no clause
//! counts the calls of a turn.
#![tactic(auto)]

mod asks;
mod command;
mod event;
mod events;
mod lines;
mod machine;
mod network;
mod rehearsal;
mod server_lives;
mod shown;
mod stopping;
mod takes;
mod text;

ghost use Rattle.bw_delivery.specs.Reruns.{EachRunIsFaithful, RunsHearOneVerdict, SettledRunsAreWhole};
ghost use Rattle.bw_delivery.specs.Deliveries.{ClosedDeliveriesStay, DeliveriesAreTrue};
ghost use Rattle.bw_delivery.specs.Deliveries.{StoredDeliveriesAreWhole};
ghost use Rattle.bw_delivery.specs.FolderDeliveries.{ClosedTakesAreInFolders, FolderDeliveriesAreTrue};
ghost use Rattle.bw_delivery.specs.FolderDeliveries.{StoredFolderDeliveriesAreWhole};
ghost use Rattle.bw_delivery.specs.ExamplesOfDeliveries.{WorkedDeliveryExample};
ghost use Rattle.bw_delivery.specs.ExamplesOfReruns.{KilledRunExample, SecondRunExample, LateReplyExample};

use bw_journal::Journal;
use bw_store::TakeStore;
pub use command::rehearse_with_stops_run;
pub use event::{Lives, StopEvent};
pub use machine::{Folder, Life, Machine};
pub use rehearsal::{Rehearsed, StopsFault, rehearse_stops};
pub use server_lives::{
    examples_of_lives, examples_of_stops, law_folder, law_lives, law_promise_kept,
    law_served_worlds, law_stopped_worlds,
};

/// A sender may be started again, from number 0 or from where it was, any number of times, with the
/// same requests: each run counts only what the server's take has, no two runs have different
/// verdicts on one number, and once one of them has all verdicts, that take is what the requests
/// make.
pub fn law_reruns()
    ensures faithful { EachRunIsFaithful }
    ensures one_verdict { RunsHearOneVerdict }
    ensures whole { SettledRunsAreWhole }
{}

/// A sender's requests reach a server over links that give each end a prefix of what the other end
/// wrote, and nothing else was admitted under its name before. Whoever else sends, under other
/// names: the requests that are done under the sender's name are the first of its own, and each
/// verdict that it hears is on one of these. Once it has heard that each is stored, the server's
/// take is what they make, each applied once in their order; and if one of them is a CLOSE, an
/// honest store has that take's file from then on.
pub fn law_delivered()
    ensures heard { DeliveriesAreTrue }
    ensures whole { StoredDeliveriesAreWhole }
    ensures closed { ClosedDeliveriesStay }
{}

/// The same of a server whose table is a cache of its folder: to a sender it is as if no name had
/// ever left the table, though some of its frames are put off. If one of its requests is a CLOSE,
/// an honest store has that take's file, whether the name is in the table or not, provided the
/// journal is honest too.
pub fn law_delivered_to_folders<S: TakeStore, J: Journal>()
    ensures heard { FolderDeliveriesAreTrue }
    ensures whole { StoredFolderDeliveriesAreWhole }
    ensures closed { ClosedTakesAreInFolders S.TakeStore J.Journal }
{}

/// Worked rows: a run that is killed, the next one, and replies that reach other runs late.
pub fn examples_of_reruns()
    ensures killed { KilledRunExample }
    ensures second { SecondRunExample }
    ensures late { LateReplyExample }
{}

/// A worked row: a sender's two links, of which one is cut, beside another recorder's.
pub fn examples_of_deliveries()
    ensures { WorkedDeliveryExample }
{}
