//! The buffer in which headers and `cue ` chunks are built.
ghost use Rattle.std.specs.Prelude.{◌≡◌, ◌≤◌, ◌++◌, [], length, flat_map, IfOk};
ghost use Rattle.bw_model.specs.Limits.{largest, most_markers};
ghost use Rattle.bw_model.specs.Layout.{chunk};
ghost use Rattle.bw_model.specs.File.{cue_chunks};
ghost use Rattle.bw_layout.specs.Headings.{header_of, place_of};

use bw_layout::{CuePoint, Heading, put_cue_chunk};
use std::alloc::{AllocError, Global};
use std::marker::Model;

/// As many bytes as the longest `cue ` chunk has, with 1,024 points; two headers aren't longer.
const CAPACITY: usize = 24_588;

/// The bytes to be written. Their memory is allocated at the start.
#[derive(Drop)]
pub(crate) struct Buffer {
    alloc: Global,
    bytes: Vec<u8>,
}

impl Model for Buffer {
    ghost use Rattle.std.specs.Prelude.{◌≤◌, List, ℕ, vec_capacity};
    ghost use Rattle.bw_model.specs.Limits.{most_markers};
    ghost use Rattle.bw_layout.specs.Cues.{cue_chunk_length};

    ghost Value = { List ℕ };

    ghost view = { λ b. b.bytes.items };

    ghost invariant = { λ b. cue_chunk_length most_markers ≤ vec_capacity b.bytes };
}

impl Buffer {
    pub(crate) fn new(alloc: Global) -> Result<Buffer, AllocError>
        ensures { IfOk result (λ b. b ≡ []) }
    {
        Ok(Buffer {
            alloc,
            bytes: Vec::with_capacity(alloc, CAPACITY)?,
        })
    }

    pub(crate) fn bytes(&self) -> &[u8]
        ensures { result.now ≡ self.now }
    {
        &self.bytes
    }

    /// Builds a header.
    pub(crate) fn build_header(&mut self, heading: &Heading<'_>, data_len: u64, cues: u64)
        requires samples { data_len ≤ largest }
        requires cues { cues ≤ most_markers }
        ensures header { self.new ≡ header_of heading.now data_len cues }
        ensures len { length self.new ≡ place_of heading.now }
    {
        self.bytes.clear();
        heading
            .put(self.alloc, &mut self.bytes, data_len, cues)
            .unwrap();
    }

    /// Builds two headers of the same take, one after the other.
    pub(crate) fn build_headers(&mut self, first: &Heading<'_>, second: &Heading<'_>, data_len: u64)
        requires { data_len ≤ largest }
        ensures { self.new ≡ header_of first.now data_len 0 ++ header_of second.now data_len 0 }
    {
        self.bytes.clear();
        first.put(self.alloc, &mut self.bytes, data_len, 0).unwrap();
        second
            .put(self.alloc, &mut self.bytes, data_len, 0)
            .unwrap();
    }

    /// Builds the `cue ` chunk of these points.
    pub(crate) fn build_cues(&mut self, cues: &[CuePoint])
        requires { length cues.now ≤ most_markers }
        ensures { self.new ≡ flat_map chunk (cue_chunks cues.now) }
    {
        self.bytes.clear();
        put_cue_chunk(self.alloc, &mut self.bytes, cues).unwrap();
    }
}
