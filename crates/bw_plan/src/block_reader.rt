//! The samples of a file, read a block at a time.
ghost use Rattle.std.specs.Prelude.{◌≡◌, ◌+◌, ◌^◌, ◌<◌, ◌≤◌, IsTrue, ◌↔◌, IfOk, IfErr, OnOk, length};
ghost use Rattle.bw_inspect.specs.ReaderCalls.{Consumes};
ghost use Rattle.bw_inspect.specs.Faults.{is_of_bytes};
ghost use Rattle.bw_inspect.specs.Places.{AtPlace};
ghost use Rattle.bw_plan.specs.Progress.{IsNextBlock, IsBlockMissed};

use bw_inspect::{InspectFault, InspectKind, read_at};
use bw_stream::Source;
use std::alloc::{AllocError, Global};
use std::marker::Model;

/// Reads samples into a buffer of one block.
#[derive(Debug, Drop)]
pub(crate) struct BlockReader {
    /// The block that was read last; zero bytes before the first one.
    block: Vec<u8>,
    /// How many bytes a block has.
    size: usize,
    /// The place of the next block, in bytes from the file's start.
    place: u64,
    /// How many bytes of samples there are from there on.
    left: u64,
}

impl Model for BlockReader {
    ghost use Rattle.std.specs.Prelude.{◌≡◌, ◌+◌, ◌^◌, ◌<◌, ◌≤◌, vec_len};
    ghost use Rattle.bw_plan.specs.Progress.{Samples};

    ghost Value = { Samples };

    ghost view = { λ s. record {
      size = s.size;
      block = s.block.items;
      place = s.place;
      left = s.left;
    } };

    ghost invariant = { λ s. (1 ≤ s.size) × (s.place + s.left < 2 ^ 64)
        × (0 < s.left → vec_len s.block ≡ s.size) };
}

impl BlockReader {
    /// A reader of `left` bytes from a place on, in blocks of `size` bytes.
    ///
    /// # Errors
    /// Memory; TooLarge where they would end past 2^64 - 1.
    pub(crate) fn new(
        alloc: Global,
        size: usize,
        place: u64,
        left: u64,
    ) -> Result<BlockReader, InspectFault>
        requires { 1 ≤ size }
        ensures size { IfOk result (λ s. s.size ≡ size) }
        ensures place { IfOk result (λ s. s.place ≡ place) }
        ensures left { IfOk result (λ s. s.left ≡ left) }
        ensures large { IfErr result (λ f. IsTrue (is_of_bytes f.kind) → 2 ^ 64 ≤ place + left) }
    {
        if place.checked_add(left).is_none() {
            return Err(InspectFault {
                kind: InspectKind::TooLarge,
                offset: place,
            });
        }
        let Ok(block) = zeros(alloc, size) else {
            return Err(InspectFault {
                kind: InspectKind::Memory,
                offset: place,
            });
        };
        Ok(BlockReader {
            block,
            size,
            place,
            left,
        })
    }

    /// The block that was read last.
    pub(crate) fn block(&self) -> &[u8]
        ensures { result.now ≡ self.now.block }
    {
        self.block.as_slice()
    }

    /// Whether no sample is left.
    pub(crate) fn is_at_end(&self) -> bool
        ensures { IsTrue result ↔ (self.now.left ≡ 0) }
    {
        self.left == 0
    }

    /// Reads the next block.
    ///
    /// # Errors
    /// Truncated, with the block's place, where the input ends before its end; Read.
    pub(crate) fn read_next<R: Source>(&mut self, reader: &mut R) -> Result<(), InspectFault>
        requires { 0 < self.old.left }
        ensures consumed { Consumes R.Source self.old.size result reader.old reader.new }
        ensures end { self.new.place + self.new.left ≡ self.old.place + self.old.left }
        ensures ok { OnOk result (AtPlace (R.left reader.old) self.old.place (λ b.
            IsNextBlock b self.old self.new (R.left reader.new))) }
        ensures err { IfErr result (λ f. AtPlace (R.left reader.old) self.old.place (λ b.
            IsBlockMissed b self.old f (R.left reader.new))) }
    {
        let place = self.place;
        let len = self.left.min(self.size as u64);
        self.block.truncate(len as usize);
        self.place += len;
        self.left -= len;
        let cut = InspectFault {
            kind: InspectKind::Truncated,
            offset: place,
        };
        read_at(reader, place, self.block.as_mut_slice(), cut)
    }
}

/// So many zero bytes.
///
/// # Errors
/// `AllocError` where memory was refused.
pub(crate) fn zeros(alloc: Global, len: usize) -> Result<Vec<u8>, AllocError>
    ensures { IfOk result (λ v. length v.items ≡ len) }
{
    vec![in alloc; 0; len]
}
