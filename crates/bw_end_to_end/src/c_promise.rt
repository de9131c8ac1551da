//! That a recorder over the C library is a sender of the promise. Each function's contract is a law; nothing
//! runs.
ghost use Rattle.bw_end_to_end.specs.RecordedFiles.{RecordersHaveFiles};
ghost use Rattle.bw_end_to_end.specs.RecordersSend.{CountedAreStored, RecordersSend, StructsCount};
ghost use Rattle.bw_end_to_end.specs.Servers.{in_kept_folder, in_table};

use bw_disk::Volume;
use bw_folder::{FolderJournal, FolderStore};
use bw_journal::Journal;
use bw_store::TakeStore;

/// A program that makes calls of bw_c with its sender, writes over its links what they put, as often as it
/// likes, and gives `bwi_hear` what the links gave, is a sender of the promise; its struct counts what that
/// sender has. So where it counts as many requests stored as were offered, each has the verdict Stored.
pub fn law_recorders()
    ensures sends { RecordersSend }
    ensures counts { StructsCount }
    ensures stored { CountedAreStored }
{}

/// So the server has the file of its take, in either kind of server, where the promise's other premises hold.
pub fn law_recorded_files<S: TakeStore, J: Journal, V: Volume, N: Volume>()
    ensures in_table { RecordersHaveFiles (in_table S.TakeStore J.Journal) }
    ensures in_folder { RecordersHaveFiles (in_kept_folder V.Disk N.Disk ⟦<FolderStore<V> as TakeStore>⟧
        ⟦<FolderJournal<N> as Journal>⟧) }
{
    crate::promise::<S, J, V, N>();
}
