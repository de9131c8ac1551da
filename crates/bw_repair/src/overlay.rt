//! A file with other bytes in one place.
ghost use Rattle.std.specs.Prelude.{◌≡◌, ◌-◌, ◌≤◌, ℕ, List, Some, option_map, drop, length};
ghost use Rattle.bw_repair.specs.Overlays.{overlaid};

use bw_stream::{IoFailed, Source};

/// A reader some of whose bytes, from one place on, are replaced by others.
#[derive(Drop)]
pub struct Overlay<'a, R> {
    inner: R,
    /// How many bytes are still to come before the place.
    ahead: u64,
    /// The other bytes that are still to come.
    others: &'a [u8],
}

impl<'a, R> Overlay<'a, R> {
    ghost use Rattle.bw_repair.specs.OverlaidReaders.{overlay_reader, overlay_ahead};
    ghost use Rattle.bw_repair.specs.OverlaidReaders.{overlay_others};

    /// A reader at its start with these bytes from a place on, as far as it has any there.
    pub fn new(inner: R, place: u64, others: &'a [u8]) -> Overlay<'a, R>
        ensures inner { overlay_reader result ≡ inner }
        ensures ahead { overlay_ahead result ≡ place }
        ensures others { overlay_others result ≡ others.now }
    {
        Overlay {
            inner,
            ahead: place,
            others,
        }
    }

    /// Puts the other bytes into the next piece, where they belong.
    fn replace_in(&mut self, piece: &mut [u8])
        ensures piece { piece.new ≡ overlaid self.old.ahead self.old.others.now piece.old }
        ensures inner { self.new.inner ≡ self.old.inner }
        ensures ahead { self.new.ahead ≡ self.old.ahead - length piece.old }
        ensures others { self.new.others.now ≡
            drop (length piece.old - self.old.ahead) self.old.others.now }
    {
        let start = self.ahead.min(piece.len() as u64) as usize;
        let count = self.others.len().min(piece.len() - start);
        let (here, later) = self.others.split_at(count);
        piece[start..start + count].copy_from_slice(here);
        self.others = later;
        self.ahead -= start as u64;
    }

    /// Counts so many bytes as passed over.
    fn pass(&mut self, count: u64)
        ensures inner { self.new.inner ≡ self.old.inner }
        ensures ahead { self.new.ahead ≡ self.old.ahead - count }
        ensures others { self.new.others.now ≡ drop (count - self.old.ahead) self.old.others.now }
    {
        let start = self.ahead.min(count);
        let gone = (count - start).min(self.others.len() as u64) as usize;
        self.others = &self.others[gone..];
        self.ahead -= start;
    }
}

impl<R: Source> Source for Overlay<'_, R> {
    ghost use Rattle.bw_repair.specs.OverlaidReaders.{overlay_reader, overlay_ahead};
    ghost use Rattle.bw_repair.specs.OverlaidReaders.{overlay_others};

    ghost left = { λ s. option_map
        (overlaid (overlay_ahead s) (overlay_others s)) (R.left (overlay_reader s)) };

    ghost moved = { λ s. R.moved (overlay_reader s) };

    ghost calls = { λ s. R.calls (overlay_reader s) };

    ghost failures = { λ s. R.failures (overlay_reader s) };

    fn read(&mut self, buf: &mut [u8]) -> Result<usize, IoFailed> {
        let count = self.inner.read(buf)?;
        self.replace_in(&mut buf[..count]);
        Ok(count)
    }

    fn skip(&mut self, most: u64) -> Result<u64, IoFailed> {
        let count = self.inner.skip(most)?;
        self.pass(count);
        Ok(count)
    }
}
