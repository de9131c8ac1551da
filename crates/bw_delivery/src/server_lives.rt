//! Servers whose table is a cache of their folder follow one another over it: laws of what they
//! leave there, and of what a sender to them counts. Each function's contract is one; nothing runs.
//! They hold with and without `--sync`, since what a killed process wrote stays; of a power cut
//! they say nothing. Each asks that the disks are honest, and no other server or person changes
//! what is under the names.
ghost use Rattle.bw_delivery.specs.ExamplesOfLives.{KilledInATurnExample, SentLifeExample};
ghost use Rattle.bw_kept.specs.KeptTurns.{DiskFails, DisksDiffer};
ghost use Rattle.bw_delivery.specs.Lives.{FaultsStayAlone, LivesLeaveBooks, VerdictsOutliveServers};
ghost use Rattle.bw_delivery.specs.Lives.{NewFoldersAreEmpty};
ghost use Rattle.bw_delivery.specs.ExamplesOfStops.{StoppedTurnExample};
ghost use Rattle.bw_delivery.specs.ServedWorlds.{StartsAreSteps, StopsAreSteps};
ghost use Rattle.bw_delivery.specs.ServedWorlds.{TurnsAreOfWorlds};
ghost use Rattle.bw_delivery.specs.StoppedWorlds.{StoppedWorldsAreFaithful};
ghost use Rattle.bw_delivery.specs.Senders.{SendersCountDone};

use bw_disk::Volume;
use bw_folder::{FolderJournal, FolderStore};
use bw_journal::Journal;
use bw_kept::laws::{law_begins, law_stops};
use bw_store::TakeStore;

/// A server that begins over a folder with an empty table holds the book that lies there. Wherever
/// it is stopped, after whatever frames, of which any calls may have failed, as in a disk that died
/// in one, and whatever its disk has of notes that aren't committed, the first numbers of its book lie
/// there: at least all that were done at its last commit, and at most all and the one that waits of each
/// name. That is what the next one begins with: a kill, a drop of a name and a start are one relation.
pub fn law_folder<D: Volume, E: Volume>()
    ensures life { LivesLeaveBooks ⟦<FolderStore<D> as TakeStore>⟧ ⟦<FolderJournal<E> as Journal>⟧
        (DiskFails D.Disk E.Disk) (DisksDiffer D.Disk E.Disk) }
    // A first start needs no earlier server.
    ensures new { NewFoldersAreEmpty }
    // A name of which something comes to be wrong is left out; all others stay.
    ensures faults { FaultsStayAlone }
{
    law_begins::<FolderStore<D>, FolderJournal<E>>();
    law_stops::<FolderStore<D>, FolderJournal<E>>();
}

/// However many servers follow one another over a folder, each stopped wherever it was: every
/// verdict of a frame that any of them committed, so that its reply might leave, is that of a done
/// number of the last book, and each number that was done at first or at a commit stays so, with its
/// request and its verdict. Each closed take's file is that of the
/// take, byte for byte, and a take that was closed stays what it was.
pub fn law_lives<D: Volume, E: Volume>()
    ensures { VerdictsOutliveServers ⟦<FolderStore<D> as TakeStore>⟧ ⟦<FolderJournal<E> as Journal>⟧
        (DiskFails D.Disk E.Disk) (DisksDiffer D.Disk E.Disk) }
{
    law_begins::<FolderStore<D>, FolderJournal<E>>();
    law_stops::<FolderStore<D>, FolderJournal<E>>();
}

/// A sender, new or with verdicts that earlier servers gave it, sends its requests to such servers,
/// over links that give each end a prefix of what the other wrote. If nothing but its requests was
/// under its name, and no message of its name comes over any other link, it counts only what lies
/// in the last folder: under its name the first of its requests are done, and the take is what they
/// make. Once it has that all are stored, the take is what all of them make; and if one of them is
/// a CLOSE, the folder has that take's file.
pub fn law_promise_kept<D: Volume, E: Volume>()
    ensures { SendersCountDone ⟦<FolderStore<D> as TakeStore>⟧ ⟦<FolderJournal<E> as Journal>⟧
        (DiskFails D.Disk E.Disk) (DisksDiffer D.Disk E.Disk) }
{
    law_begins::<FolderStore<D>, FolderJournal<E>>();
    law_stops::<FolderStore<D>, FolderJournal<E>>();
}

/// Whatever is lost, repeated, reordered or put off between a sender and servers that follow one
/// another over a folder, and whenever a server stops, within a turn too, however often: the sender
/// counts only what the take has, and each verdict that was ever written stays that of a done number.
pub fn law_stopped_worlds()
    ensures { StoppedWorldsAreFaithful }
{}

/// Real servers take the steps of such a world, whichever of their calls fail. The turns of a server that
/// holds the world's book, up to a commit that kept them, are a step of the world; a stop after any turns
/// since then, or within one, is a step too, and what it leaves is what the next server begins with: that
/// is the world's next one.
pub fn law_served_worlds<D: Volume, E: Volume>()
    ensures turns { TurnsAreOfWorlds ⟦<FolderStore<D> as TakeStore>⟧ ⟦<FolderJournal<E> as Journal>⟧
        (DiskFails D.Disk E.Disk) (DisksDiffer D.Disk E.Disk) }
    ensures stops { StopsAreSteps ⟦<FolderStore<D> as TakeStore>⟧ ⟦<FolderJournal<E> as Journal>⟧
        (DiskFails D.Disk E.Disk) (DisksDiffer D.Disk E.Disk) }
    ensures starts { StartsAreSteps ⟦<FolderStore<D> as TakeStore>⟧ ⟦<FolderJournal<E> as Journal>⟧ }
{
    law_begins::<FolderStore<D>, FolderJournal<E>>();
    law_stops::<FolderStore<D>, FolderJournal<E>>();
}

/// Worked rows: two servers, one after another, of which the first is killed while it notes a
/// BLOCK, in the middle of the entry; and answers to frames that came over a sender's links.
pub fn examples_of_lives<D: Volume, E: Volume>()
    ensures killed { KilledInATurnExample }
    ensures sent { SentLifeExample ⟦<FolderStore<D> as TakeStore>⟧ ⟦<FolderJournal<E> as Journal>⟧
        (DiskFails D.Disk E.Disk) (DisksDiffer D.Disk E.Disk) }
{}

/// A worked row: a server that stops in the turn of an OPEN, and the next one.
pub fn examples_of_stops()
    ensures { StoppedTurnExample }
{}
