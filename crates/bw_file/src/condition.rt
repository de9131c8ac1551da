//! How the last call left a growing file.
ghost use Rattle.std.specs.Prelude.{◌≡◌};

/// What the next call finds of a take's file.
#[derive(Clone, Copy)]
pub(crate) enum Condition {
    /// The file of the take, whole.
    Clean,
    /// What a failed call left.
    Dirty,
    /// The file of the take with one more request, whole.
    Ahead,
}

impl Condition {
    ghost use Rattle.bw_file.specs.Conditions.{is_clean, is_ahead};

    /// Whether the file is the take's, whole.
    pub(crate) fn is_clean(self) -> bool
        ensures { result ≡ is_clean self }
    {
        match self {
            Condition::Clean => true,
            Condition::Dirty => false,
            Condition::Ahead => false,
        }
    }

    /// Whether the file has one request more than the take.
    pub(crate) fn is_ahead(self) -> bool
        ensures { result ≡ is_ahead self }
    {
        match self {
            Condition::Ahead => true,
            Condition::Clean | Condition::Dirty => false,
        }
    }
}
