//! Bytes of a stream that are kept, in a block of memory whose size is known.
ghost use Rattle.std.specs.Prelude.{◌≡◌, ◌+◌, ◌≤◌, ◌<◌, [], ◌++◌, length, take, drop, vec_len};
ghost use Rattle.std.specs.Prelude.{vec_capacity, IfOk, IsOk, OnOk, OnErr};

use std::alloc::{AllocError, Global};
use std::marker::Model;
use std::mem;

/// After the whole frames at most this many bytes are left, of a frame that isn't whole.
const LONGEST_REST: usize = 32_809;

/// A larger block isn't kept once its whole frames are taken: of many streams most wait for their
/// next piece, and each of these would keep one.
const LARGEST_KEPT: usize = 65_618;

/// Bytes at the start of a block of memory, which has room for more after them.
///
/// The whole block is written, with zeros after the bytes: no contract says how large a `Vec` that
/// grows may become, but one says it of a `Vec` that was reserved and filled.
#[derive(Drop)]
pub(crate) struct Buffer {
    block: Vec<u8>,
    len: usize,
    /// If the block is too large to be kept, another one for what is left: there may be no memory
    /// for it later.
    spare: Vec<u8>,
}

impl Model for Buffer {
    ghost use Rattle.bw_wire.specs.Held.{Held};

    ghost Value = { Held };

    ghost use Rattle.bw_wire.specs.Blocks.{held_in, IsBuffer};

    ghost view = { held_in };

    ghost invariant = { IsBuffer };
}

impl Buffer {
    ghost use Rattle.bw_wire.specs.Held.{longest_rest, longest_stream, nothing_held, with_bytes};
    ghost use Rattle.bw_wire.specs.Held.{with_room, without_prefix};

    /// No bytes, and no block.
    pub(crate) fn new(alloc: Global) -> Buffer
        ensures { result ≡ nothing_held }
    {
        Buffer {
            block: Vec::new(alloc),
            len: 0,
            spare: Vec::new(alloc),
        }
    }

    /// The bytes.
    pub(crate) fn as_slice(&self) -> &[u8]
        ensures { result.now ≡ self.now.bytes }
    {
        &self.block[..self.len]
    }

    /// How many bytes there are.
    pub(crate) fn len(&self) -> usize
        ensures { result ≡ length self.now.bytes }
    {
        self.len
    }

    /// The bytes from a place on.
    pub(crate) fn bytes_from(&self, start: usize) -> &[u8]
        requires { start ≤ length self.now.bytes }
        ensures { result.now ≡ drop start self.now.bytes }
    {
        &self.as_slice()[start..]
    }

    /// Appends bytes.
    ///
    /// # Errors
    /// `AllocError` if memory was refused: nothing changed.
    pub(crate) fn append(&mut self, bytes: &[u8]) -> Result<(), AllocError>
        requires { length self.old.bytes + length bytes.now ≤ longest_stream }
        ensures ok { OnOk result (self.new ≡ with_bytes self.old bytes.now) }
        ensures err { OnErr result (self.new ≡ self.old) }
        ensures room { length self.old.bytes + length bytes.now ≤ self.old.room → IsOk result }
        ensures empty { length bytes.now ≡ 0 → IsOk result }
    {
        let needed = self.len + bytes.len();
        let room = self.block.len();
        if needed > room {
            self.grow(needed.max(2 * room))?;
        }
        copy_in(&mut self.block, self.len, bytes);
        self.len = needed;
        Ok(())
    }

    /// Makes the block this large.
    fn grow(&mut self, size: usize) -> Result<(), AllocError>
        requires { self.old.room < size }
        ensures ok { OnOk result (self.new ≡ with_room self.old size) }
        ensures err { OnErr result (self.new ≡ self.old) }
    {
        let alloc = *self.block.allocator();
        if size > LARGEST_KEPT && self.spare.is_empty() {
            self.spare = zeros(alloc, LONGEST_REST)?;
        }
        let Ok(mut grown) = zeros(alloc, size) else {
            if self.block.len() <= LARGEST_KEPT {
                let_go(&mut self.spare);
            }
            return Err(AllocError);
        };
        copy_in(&mut grown, 0, &self.block[..self.len]);
        self.block = grown;
        Ok(())
    }

    /// Releases this many bytes at the start, and a block that is too large to be kept.
    pub(crate) fn drop_prefix(&mut self, count: usize)
        requires within { count ≤ length self.old.bytes }
        requires short { length self.old.bytes ≤ count + longest_rest }
        ensures { self.new ≡ without_prefix self.old count }
    {
        if self.block.len() > LARGEST_KEPT {
            copy_in(&mut self.spare, 0, &self.block[count..self.len]);
            mem::swap(&mut self.block, &mut self.spare);
            let_go(&mut self.spare);
            self.len -= count;
            return;
        }
        if count == 0 {
            return;
        }
        self.block.copy_within(count..self.len, 0);
        self.len -= count;
    }

    /// Releases all bytes and the block.
    pub(crate) fn clear(&mut self)
        ensures { self.new ≡ nothing_held }
    {
        let_go(&mut self.block);
        let_go(&mut self.spare);
        self.len = 0;
    }
}

/// A block of so many zeros. It is a value of this function's own while it is filled: through a
/// `&mut` each byte would be stored by itself.
fn zeros(alloc: Global, size: usize) -> Result<Vec<u8>, AllocError>
    ensures len { IfOk result (λ block. vec_len block ≡ size) }
    ensures capacity { IfOk result (λ block. vec_capacity block ≡ size) }
{
    let mut block = Vec::with_capacity(alloc, size)?;
    while block.len() < size {
        block.push_reserved(0);
    }
    Ok(block)
}

/// Releases a block.
fn let_go(block: &mut Vec<u8>)
    ensures items { block.new.items ≡ [] }
    ensures capacity { vec_capacity block.new ≡ 0 }
{
    block.clear();
    block.shrink_to_fit();
}

/// Overwrites as many bytes as are given.
fn copy_in(block: &mut Vec<u8>, start: usize, bytes: &[u8])
    requires { start + length bytes.now ≤ vec_len block.old }
    ensures prefix { take (start + length bytes.now) block.new.items
        ≡ take start block.old.items ++ bytes.now }
    ensures len { vec_len block.new ≡ vec_len block.old }
    ensures capacity { vec_capacity block.new ≡ vec_capacity block.old }
{
    block[start..start + bytes.len()].copy_from_slice(bytes);
}
