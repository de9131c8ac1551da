//! The disks of a folder's store and journal, lent to what works on a name's files.
ghost use Rattle.std.specs.Prelude.{◌≡◌, ℕ, List, false};
ghost use Rattle.bw_folder.specs.TakeFolders.{takes_disk, takes_folder};
ghost use Rattle.bw_folder.specs.JournalFolders.{journals_disk, unwritten_in};
ghost use Rattle.bw_folder.specs.PendingNotes.{awaits_in};
ghost use Rattle.bw_folder.specs.FolderDisks.{KeepsStore, KeepsFolderJournal, IsNotedOnDisk};

use crate::folder::FolderStore;
use crate::journal::FolderJournal;
use bw_disk::Volume;

/// Works on the disks of a folder's store and journal.
pub trait DisksVisitor<D: Volume, E: Volume> {
    /// What a visit may make of visitor and disks, in the folder at this path: these are the ones before
    /// it, and then the ones after it.
    ghost visits: { List ℕ → Self → D → E → Self → D → E → Type 0 };

    /// Does it.
    ///
    /// # Not specified
    /// Anything beyond what each implementation says of itself.
    fn visit(&mut self, folder: &str, takes: &mut D, notes: &mut E)
        ensures takes { D.honest takes.new ≡ D.honest takes.old }
        ensures notes { E.honest notes.new ≡ E.honest notes.old }
        ensures visits { visits folder.now self.old takes.old notes.old self.new takes.new notes.new };
}

/// Lends the disks of a store and of a journal to a visitor, with the path of the store's folder, when no
/// notes are pending. That is no call of either.
pub fn lend_disks<D: Volume, E: Volume, V: DisksVisitor<D, E>>(
    store: &mut FolderStore<D>,
    journal: &mut FolderJournal<E>,
    visitor: &mut V,
)
    requires committed { awaits_in (unwritten_in journal.old) ≡ false }
    ensures store { KeepsStore store.old store.new }
    ensures journal { KeepsFolderJournal journal.old journal.new }
    ensures takes { D.honest (takes_disk store.new) ≡ D.honest (takes_disk store.old) }
    ensures notes { E.honest (journals_disk journal.new) ≡ E.honest (journals_disk journal.old) }
    ensures visited { V.visits (takes_folder store.old) visitor.old (takes_disk store.old)
        (journals_disk journal.old) visitor.new (takes_disk store.new) (journals_disk journal.new) }
    ensures noted { IsNotedOnDisk journal.old × IsNotedOnDisk journal.new }
{
    visitor.visit(store.folder.as_str(), &mut store.disk, &mut journal.disk);
}
