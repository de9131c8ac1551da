//! Laws of what is noted in a folder. Each function's contract is one; nothing runs.
ghost use Rattle.bw_folder.specs.FileNotes.{WritesAreNoted};

/// Of an entry the bytes say whether its number wrote to the file of the take: one whose verdict is
/// Stored did, unless it is a MARK.
pub fn law_notes()
    ensures { WritesAreNoted }
{}
