//! Files of a server's rules.
ghost use Rattle.std.specs.Prelude.{List, ℕ, Result, Vec};
ghost use Rattle.std.specs.declared.alloc.Global.{Global};
ghost use Rattle.std.specs.declared.io.Error.{Error as IoError};

use std::io;

/// Something that reads a server's files of rules.
pub trait RuleFiles {
    /// A read of the file at this path may give this: its text, or the system's error.
    ghost reads: { Self → List ℕ → Result (Vec ℕ Global) IoError → Type 0 };

    /// Reads the file at a path, which is short: at most 1 MiB.
    ///
    /// # Errors
    /// The system's error if the file can't be read, or is longer.
    ///
    /// # Not specified
    /// Anything beyond what each implementation says of itself.
    fn read_rules(&self, path: &str) -> io::Result<Vec<u8>>
        ensures { reads self.now path.now result };
}
