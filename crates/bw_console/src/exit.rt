//! How a command ends.
ghost use Rattle.std.specs.Prelude.{◌≡◌};
ghost use Rattle.bw_console.specs.Exits.{status_of};

/// How a command ended.
#[derive(Clone, Copy, Debug, PartialEq, Eq, Drop)]
pub enum Exit {
    /// Everything asked for is done and printed.
    Done,
    /// The input was refused.
    Refused,
    /// The command line was refused.
    Usage,
    /// Something could not be read, written or opened.
    Device,
    /// Memory ran out.
    Memory,
}

impl Exit {
    /// The program's exit status, from 0 to 4 in the order of the variants.
    pub fn status(&self) -> u8
        ensures { result ≡ status_of self.now }
    {
        match self {
            Exit::Done => 0,
            Exit::Refused => 1,
            Exit::Usage => 2,
            Exit::Device => 3,
            Exit::Memory => 4,
        }
    }
}
