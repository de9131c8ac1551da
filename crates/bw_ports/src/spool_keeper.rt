//! What a sender asks of the spool that its requests are taken from.
ghost use Rattle.std.specs.Prelude.{ℕ, Bool, List, Option, Result};
ghost use Rattle.std.specs.declared.io.Error.{Error as IoError};

use std::io;

/// Holds a spool for one sender, and keeps what still comes once nothing more is sent of it.
pub trait SpoolKeeper {
    /// What a call of `hold` for this path and line may return, and the state after it.
    ghost holds: { Self → List ℕ → List ℕ → Result (Unit {0}) IoError → Self → Type 0 };

    /// What `is_open` may return.
    ghost opens: { Self → Bool → Type 0 };

    /// What a call of `keep_rest` may return, and the state after it.
    ghost keeps: { Self → Option ℕ → Self → Type 0 };

    /// Holds the spool at a path for the purpose that this line says, until the keeper is dropped or
    /// the process ends. The file is made if it isn't there. It doesn't wait, and appends nothing.
    ///
    /// # Errors
    /// Why the spool isn't used: another sender holds it, it was begun for something else, it is no
    /// file, or the system failed.
    ///
    /// # Not specified
    /// Anything beyond what each implementation says of itself: that no two processes hold a spool
    /// is a premise.
    fn hold(&mut self, path: &str, line: &[u8]) -> io::Result<()>
        ensures received { holds self.old path.now line.now result self.new };

    /// Whether bytes were drawn into the spool, and more may come.
    ///
    /// # Not specified
    /// Anything beyond what each implementation says of itself.
    fn is_open(&self) -> bool
        ensures received { opens self.now result };

    /// Draws into the spool what still comes, until no more does. Returns how many bytes the spool
    /// holds then; None if nothing was ever drawn into it, or it can't be written.
    ///
    /// # Not specified
    /// Anything beyond what each implementation says of itself.
    fn keep_rest(&mut self) -> Option<u64>
        ensures received { keeps self.old result self.new };
}

/// Gives what a sender holds its spool by.
pub trait SpoolKeeping {
    /// Holds spools.
    type Keeper: SpoolKeeper + Drop;

    /// What `keeper` may return.
    ghost lends: { Self → Self.Keeper → Type 0 };

    /// Something that holds a spool.
    ///
    /// # Not specified
    /// Anything beyond what each implementation says of itself.
    fn keeper(&self) -> Self::Keeper
        ensures received { lends self.now result };
}
