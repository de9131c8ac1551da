//! Sections of a file, one after the other.
ghost use Rattle.std.specs.Prelude.{◌≡◌, ◌≢◌, ◌≤◌, ◌<◌, [], length, IfOk, OnOk, OnErr, Some, None, List, ℕ};
ghost use Rattle.std.specs.Prelude.{true, false, IsTrue};
ghost use Rattle.bw_stream.specs.Moves.{Keeps, Reads};
ghost use Rattle.bw_stream.specs.Readers.{Of};
ghost use Rattle.bw_repair.specs.SectionBytes.{assembled, sections_left};

use crate::left_out::section::Section;
use bw_stream::{IoFailed, Source};

/// What is still to come of a file's sections.
#[derive(Drop)]
pub(crate) struct Sections<'a, R> {
    pub(crate) inner: R,
    /// What is left of the front of the section that is given now.
    pub(crate) front: &'a [u8],
    pub(crate) gap: u64,
    pub(crate) size: u64,
    /// The sections after it.
    pub(crate) rest: &'a [Section],
}

impl<'a, R: Source> Sections<'a, R> {
    /// These sections of a file whose reader is at its start.
    pub(crate) fn new(inner: R, rest: &'a [Section]) -> Sections<'a, R>
        ensures { Of (R.left inner) (λ b.
            sections_left result (R.left result.inner) ≡ Some (assembled rest.now b)) }
    {
        Sections {
            inner,
            front: &[],
            gap: 0,
            size: 0,
            rest,
        }
    }

    /// Reads some of the next bytes, at least one unless there are no more or `buf` is empty.
    ///
    /// # Errors
    /// `IoFailed` if the reader failed, or the file ends before a section does.
    pub(crate) fn read(&mut self, buf: &mut [u8]) -> Result<usize, IoFailed>
        ensures within { IfOk result (λ n. n ≤ length buf.old) }
        ensures ok { IfOk result (λ n.
            Reads (sections_left self.old (R.left self.old.inner)) (length buf.old) n
            buf.new (sections_left self.new (R.left self.new.inner))) }
        ensures err { OnErr result (Keeps (sections_left self.old (R.left self.old.inner))
            (sections_left self.new (R.left self.new.inner))) }
    {
        if !self.find()? {
            return Ok(0);
        }
        if self.front.is_empty() {
            self.read_range(buf)
        } else {
            Ok(self.read_front(buf))
        }
    }

    /// Goes on to the next byte, of this section or of a later one. False if there is none.
    ///
    /// # Errors
    /// `IoFailed` if the reader failed, or the file ends before a section does.
    fn find(&mut self) -> Result<bool, IoFailed>
        ensures kept { Keeps (sections_left self.old (R.left self.old.inner))
            (sections_left self.new (R.left self.new.inner)) }
        ensures there { OnOk result (self.new.gap ≡ 0) }
        ensures more { IfOk result (λ more. IsTrue more → self.new.front.now ≡ [] → 0 < self.new.size) }
        ensures none { IfOk result (λ more. more ≡ false →
            Keeps (sections_left self.new (R.left self.new.inner)) (Some [])) }
    {
        self.reach()?;
        while self.front.is_empty() && self.size == 0 {
            if self.rest.is_empty() {
                return Ok(false);
            }
            self.begin_next();
            self.reach()?;
        }
        Ok(true)
    }

    /// Goes on to the next section, since all of this one was given.
    fn begin_next(&mut self)
        requires more { 0 < length self.old.rest.now }
        requires front { self.old.front.now ≡ [] }
        requires gap { self.old.gap ≡ 0 }
        requires size { self.old.size ≡ 0 }
        ensures kept { Keeps (sections_left self.old (R.left self.old.inner))
            (sections_left self.new (R.left self.new.inner)) }
        ensures fewer { length self.new.rest.now < length self.old.rest.now }
    {
        let rest = self.rest;
        let next = &rest[0];
        self.front = &next.front;
        self.gap = next.gap;
        self.size = next.size;
        self.rest = &rest[1..];
    }

    /// Passes over the bytes before this section's.
    ///
    /// # Errors
    /// `IoFailed` if the reader failed, or the file ends before.
    fn reach(&mut self) -> Result<(), IoFailed>
        ensures kept { Keeps (sections_left self.old (R.left self.old.inner))
            (sections_left self.new (R.left self.new.inner)) }
        ensures there { OnOk result (self.new.gap ≡ 0) }
        ensures rest { self.new.rest.now ≡ self.old.rest.now }
    {
        while self.gap > 0 {
            match self.inner.skip(self.gap) {
                Ok(0) => return Err(IoFailed),
                Ok(count) => self.gap -= count,
                Err(failed) => return Err(failed),
            }
        }
        Ok(())
    }

    /// Reads what is left of the front, or a prefix of it.
    fn read_front(&mut self, buf: &mut [u8]) -> usize
        requires { self.old.front.now ≢ [] }
        ensures within { result ≤ length buf.old }
        ensures ok { Reads (sections_left self.old (R.left self.old.inner)) (length buf.old) result
            buf.new (sections_left self.new (R.left self.new.inner)) }
    {
        let count = self.front.len().min(buf.len());
        let (here, later) = self.front.split_at(count);
        buf[..count].copy_from_slice(here);
        self.front = later;
        count
    }

    /// Reads the next bytes of the file that are this section's.
    ///
    /// # Errors
    /// `IoFailed` if the reader failed, or the file ends before the section does.
    fn read_range(&mut self, buf: &mut [u8]) -> Result<usize, IoFailed>
        requires front { self.old.front.now ≡ [] }
        requires gap { self.old.gap ≡ 0 }
        requires size { 0 < self.old.size }
        ensures within { IfOk result (λ n. n ≤ length buf.old) }
        ensures ok { IfOk result (λ n.
            Reads (sections_left self.old (R.left self.old.inner)) (length buf.old) n
            buf.new (sections_left self.new (R.left self.new.inner))) }
        ensures err { OnErr result (Keeps (sections_left self.old (R.left self.old.inner))
            (sections_left self.new (R.left self.new.inner))) }
    {
        if buf.is_empty() {
            return Ok(0);
        }
        let room = self.size.min(buf.len() as u64) as usize;
        let count = self.inner.read(&mut buf[..room])?;
        if count > 0 {
            self.size -= count as u64;
            return Ok(count);
        }
        if self.size > 1 {
            return Err(IoFailed);
        }
        buf[0] = 0;
        self.size = 0;
        Ok(1)
    }
}
