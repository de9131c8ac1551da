//! The spool, over a link of which no call waits and a file that bytes are appended to.
ghost use Rattle.std.specs.Prelude.{◌≡◌, ◌≤◌, IfOk, List, ℕ, length, Some, []};
ghost use Rattle.bw_ports.specs.Spools.{Draws, IsSpooled};

use crate::{Link, Received};
use bw_stream::{Sink, write_all};
use std::alloc::{AllocError, Global};

/// The most bytes that are drawn at once: as many as a pipe holds.
const PIECE: usize = 65_536;

/// Whether more comes.
#[derive(Clone, Copy, Debug, PartialEq, Eq)]
pub enum SpoolState {
    /// More may come.
    Open,
    /// All has come, and the file holds it.
    Ended,
    /// The link or the file failed: nothing is drawn any more.
    Failed,
}

/// What was drawn.
#[derive(Clone, Copy, Debug, PartialEq, Eq)]
pub enum Drawn {
    /// Some bytes, which the file holds now.
    Bytes,
    /// None: there are none now.
    Nothing,
    /// None: all has come.
    Ended,
    /// The link or the file failed, now or earlier. The file may hold the first of the bytes that
    /// were drawn last.
    Failed,
}

/// Appends to a file what comes over a link. Nothing is drawn after a failure, so that the file never
/// has a gap.
#[derive(Drop)]
pub struct Spool<L, W> {
    input: L,
    file: W,
    piece: Vec<u8>,
    state: SpoolState,
}

impl<L: Link + Drop, W: Sink + Drop> Spool<L, W> {
    ghost use Rattle.bw_ports.specs.Spools.{spool_state};

    /// A spool that appends to this file what comes over this link from now on.
    ///
    /// # Errors
    /// `AllocError` if memory was refused.
    pub fn new(alloc: Global, input: L, file: W) -> Result<Spool<L, W>, AllocError>
        ensures spooled { IfOk result (λ spool. (base : List ℕ) → L.given input [] →
            W.written file ≡ Some base → IsSpooled L.Link W.Sink base spool) }
        ensures open { IfOk result (λ spool. spool_state spool ≡ SpoolState.Open) }
    {
        let piece = vec![in alloc; 0; PIECE]?;
        Ok(Spool {
            input,
            file,
            piece,
            state: SpoolState::Open,
        })
    }

    /// Whether more comes.
    pub fn state(&self) -> SpoolState
        ensures { result ≡ spool_state self.now }
    {
        self.state
    }

    /// Appends the next bytes that have come, if there are any.
    ///
    /// # Not specified
    /// - When the link or the file fails.
    /// - Which bytes are drawn at once.
    pub fn draw(&mut self) -> Drawn
        // The file holds what it held, then the bytes that came; after a failure a prefix of them.
        ensures spooled { (base : List ℕ) → IsSpooled L.Link W.Sink base self.old →
            IsSpooled L.Link W.Sink base self.new }
        // After a failure, or the link's end, nothing more is drawn.
        ensures drawn { Draws L.Link W.Sink self.old result self.new }
    {
        match self.state {
            SpoolState::Open => self.draw_on(),
            SpoolState::Ended => Drawn::Ended,
            SpoolState::Failed => Drawn::Failed,
        }
    }

    /// The same where more may come.
    fn draw_on(&mut self) -> Drawn
        requires open { self.old.state ≡ SpoolState.Open }
        ensures spooled { (base : List ℕ) → IsSpooled L.Link W.Sink base self.old →
            IsSpooled L.Link W.Sink base self.new }
        ensures drawn { Draws L.Link W.Sink self.old result self.new }
    {
        match self.input.receive(self.piece.as_mut_slice()) {
            Received::Bytes(count) => match write_all(&mut self.file, &self.piece[..count]) {
                Ok(()) => Drawn::Bytes,
                Err(_failed) => {
                    self.state = SpoolState::Failed;
                    Drawn::Failed
                }
            },
            Received::Nothing => Drawn::Nothing,
            Received::Ended => {
                self.state = SpoolState::Ended;
                Drawn::Ended
            }
            Received::Failed => {
                self.state = SpoolState::Failed;
                Drawn::Failed
            }
        }
    }
}
