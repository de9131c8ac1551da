//! Files of receipts, to which senders append.
ghost use Rattle.std.specs.Prelude.{◌≡◌, ℕ, List, Option, IfOk, OnOk, OnErr};
ghost use Rattle.bw_ports.specs.ReceiptLines.{AddsLine, AddsLineInPart};
ghost use Rattle.bw_ports.specs.Rewrites.{KeepsOtherPaths};
ghost use Rattle.bw_stream.specs.Moves.{failures_after};

use std::io;

/// Gives what a sender keeps receipts by.
pub trait ReceiptKeeping {
    /// The files of receipts.
    type Receipts: ReceiptFiles + Drop;

    /// The text of receipts at each path, if it is reported, which is empty where there is no file.
    ghost noted_at: { Self → List ℕ → Option (List ℕ) };

    /// The files of receipts.
    ///
    /// # Not specified
    /// Anything beyond what each implementation says of itself.
    fn receipts(&self) -> Self::Receipts
        ensures { Self.Receipts.receipts_at result ≡ noted_at self.now };
}

/// Files of receipts by path, to which several senders may append at once: the text at each path, if
/// it is reported, which is empty where there is no file; and how often a call failed.
pub trait ReceiptFiles {
    /// A file of receipts that is open.
    type File: Drop;

    /// The text at each path, if it is reported.
    ghost receipts_at: { Self → List ℕ → Option (List ℕ) };

    /// The path of an open file.
    ghost path_of: { Self.File → List ℕ };

    /// How many calls failed; the count stays at 2^64 - 1.
    ghost failures: { Self → ℕ };

    /// Opens the file at a path, so that receipts can be appended to it. It is made if it isn't there.
    ///
    /// # Errors
    /// If the system failed, or what is there isn't a file.
    ///
    /// # Not specified
    /// When it fails, and the kind of the error.
    fn begin(&mut self, path: &str) -> io::Result<Self::File>
        ensures count { failures self.new ≡ failures_after result (failures self.old) }
        ensures kept { receipts_at self.new ≡ receipts_at self.old }
        ensures ok { IfOk result (λ file. path_of file ≡ path.now) };

    /// Appends a line to an open file, on a line of its own, and asks that it survive a loss of power.
    ///
    /// # Errors
    /// If the system failed: a part of the line may be there then.
    ///
    /// # Not specified
    /// When it fails, and the kind of the error.
    fn append(&mut self, file: &mut Self::File, line: &[u8]) -> io::Result<()>
        ensures count { failures self.new ≡ failures_after result (failures self.old) }
        ensures stays { path_of file.new ≡ path_of file.old }
        ensures others { KeepsOtherPaths (path_of file.old) (receipts_at self.old) (receipts_at self.new) }
        ensures ok { OnOk result (AddsLine (receipts_at self.old (path_of file.old)) line.now
            (receipts_at self.new (path_of file.old))) }
        ensures err { OnErr result (AddsLineInPart (receipts_at self.old (path_of file.old)) line.now
            (receipts_at self.new (path_of file.old))) };
}
