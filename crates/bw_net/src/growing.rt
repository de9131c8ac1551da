//! Files that grow, with a header and without.
ghost use Rattle.std.specs.Prelude.{◌≡◌};

use crate::followed::FollowedFile;
use crate::followed_wave::FollowedWave;
use bw_ports::Followed;
use bw_stream::IoFailed;
use std::fs::File;
use std::io;

/// A file that another program writes, or that standard input is appended to.
#[derive(Drop)]
pub enum GrowingInput<'a> {
    /// All of its bytes from a place on.
    Bytes(FollowedFile<'a, File>),
    /// The samples of a WAVE file.
    Wave(FollowedWave<'a>),
}

impl Followed for GrowingInput<'_> {
    ghost use Rattle.std.specs.Prelude.{None};
    ghost use Rattle.bw_net.specs.SeenFiles.{growing_failures, growing_has_ended};

    ghost to_come = { λ f. None };

    ghost is_complete = { growing_has_ended };

    ghost failures = { growing_failures };

    fn has_ended(&mut self) -> io::Result<bool> {
        match self {
            GrowingInput::Bytes(file) => file.has_ended(),
            GrowingInput::Wave(file) => file.has_ended(),
        }
    }

    fn read_more(&mut self, buf: &mut [u8]) -> Result<usize, IoFailed> {
        match self {
            GrowingInput::Bytes(file) => file.read_more(buf),
            GrowingInput::Wave(file) => file.read_more(buf),
        }
    }
}
