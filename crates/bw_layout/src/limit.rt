//! The form size up to which a file is RIFF.
ghost use Rattle.std.specs.Prelude.{◌≡◌, ◌%◌, ◌≤◌};
ghost use Rattle.std.specs.Option.{SomeIff};
ghost use Rattle.bw_layout.specs.Limits.{IsLimit};

use std::marker::Model;

/// The largest form size of a RIFF file, in bytes: above it a file is BW64.
///
/// Even, from 8,192 to 4,294,967,294.
#[derive(Clone, Copy, Debug, PartialEq, Eq, Hash, PartialOrd, Ord)]
pub struct Limit {
    bytes: u32,
}

impl Model for Limit {
    ghost use Rattle.std.specs.Prelude.{ℕ};
    ghost use Rattle.bw_layout.specs.Limits.{IsLimit};

    ghost Value = { ℕ };

    ghost view = { λ l. l.bytes };

    ghost invariant = { λ l. IsLimit l.bytes };

    ghost inverse = { λ n. record { bytes = n } };
}

impl Limit {
    /// The limit of this many bytes, or None if that isn't a limit.
    ///
    /// A limit is even, and from 8,192 to 4,294,967,294.
    pub fn new(bytes: u64) -> Option<Limit>
        ensures { SomeIff result (IsLimit bytes) bytes }
    {
        if bytes < 8192 || bytes > 4_294_967_294 || bytes % 2 == 1 {
            return None;
        }
        Some(Limit {
            bytes: bytes as u32,
        })
    }

    /// The limit in bytes.
    pub fn bytes(self) -> u64
        ensures value { result ≡ self }
        ensures range { IsLimit result }
    {
        u64::from(self.bytes)
    }
}

/// The largest limit.
impl Default for Limit {
    ghost is_default = { λ l. l ≡ 4294967294 };

    /// The largest limit: 4,294,967,294 bytes.
    fn default() -> Self {
        Limit {
            bytes: 4_294_967_294,
        }
    }
}
