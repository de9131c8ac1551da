//! What is reported of a file.
ghost use Rattle.std.specs.Prelude.{◌≡◌};

use bw_layout::{ChunkId, RawBext, RawCue, RawFmt};
use std::marker::Model;

/// A chunk as it is listed.
#[derive(Clone, Copy, Debug, PartialEq, Eq)]
pub struct ListedChunk {
    pub id: ChunkId,
    /// The place of its head, in bytes from the file's start.
    pub place: u64,
    /// The length of its content in bytes, without the pad byte.
    pub size: u64,
}

impl Model for ListedChunk {
    ghost use Rattle.bw_model.specs.Reading.{Entry};

    ghost Value = { Entry };

    ghost view = { λ c. record { id = c.id; place = c.place; size = c.size } };

    ghost inverse = { λ v. record { id = v.id; place = v.place; size = v.size } };
}

/// The chunks of a file, in their order: 4,096 at most.
#[derive(Debug, Drop)]
pub struct Chunks {
    entries: Vec<ListedChunk>,
}

impl Model for Chunks {
    ghost use Rattle.std.specs.Prelude.{List};
    ghost use Rattle.bw_model.specs.Reading.{Entry};

    ghost Value = { List Entry };

    ghost view = { λ c. c.entries.items };
}

impl Chunks {
    pub(crate) fn new(entries: Vec<ListedChunk>) -> Chunks
        ensures { result ≡ entries.items }
    {
        Chunks { entries }
    }

    /// The chunks, in their order.
    pub fn as_slice(&self) -> &[ListedChunk]
        ensures { result.now ≡ self.now }
    {
        self.entries.as_slice()
    }
}

/// The points of a `cue ` chunk, in their order: 65,536 at most.
#[derive(Debug, Drop)]
pub struct Cues {
    points: Vec<RawCue>,
}

impl Model for Cues {
    ghost use Rattle.std.specs.Prelude.{List};
    ghost use Rattle.bw_model.specs.Report.{RawCue as CueReading};

    ghost Value = { List CueReading };

    ghost view = { λ c. c.points.items };
}

impl Cues {
    pub(crate) fn new(points: Vec<RawCue>) -> Cues
        ensures { result ≡ points.items }
    {
        Cues { points }
    }

    /// The points, in their order.
    pub fn as_slice(&self) -> &[RawCue]
        ensures { result.now ≡ self.now }
    {
        self.points.as_slice()
    }
}

/// A `bext` chunk: its fields, and how long its coding history is (EBU Tech 3285).
#[derive(Debug, Drop)]
pub struct BextChunk {
    pub fields: RawBext,
    /// The coding history's length in bytes.
    pub history_len: u64,
}

/// What a file holds.
#[derive(Debug, Drop)]
pub struct Report {
    /// `RIFF`, `BW64` or `RF64`.
    pub form: ChunkId,
    /// The form's size in bytes: the file's length minus 8, if nothing follows the form.
    pub size: u64,
    pub chunks: Chunks,
    pub fmt: RawFmt,
    /// Where the samples begin, in bytes from the file's start.
    pub data_at: u64,
    /// How many bytes of samples there are.
    pub data_size: u64,
    pub bext: Option<BextChunk>,
    /// Empty if there is no `cue ` chunk.
    pub cues: Cues,
}
