//! A file as a `Source` that passes over bytes by seeking.
ghost use Rattle.std.specs.Prelude.{◌≡◌, ◌≤◌, None, unwrap_or, length, IfOk, OnOk, OnErr};
ghost use Rattle.std.specs.Io.Seek.{MovesTo};
ghost use Rattle.bw_stream.specs.Moves.{one_more, failures_after, moved_after, Keeps, Reads};
ghost use Rattle.bw_stream.specs.Moves.{SeeksOver, ReadsOn};

use crate::source::{IoFailed, Source};
use crate::std_io::StdIo;
use std::io::{Read, Seek, SeekFrom};

/// A std reader that seeks over the bytes to pass over, as far as its length is known, and reads
/// beyond that.
///
/// It reports no bytes, since no contract says what a reader gives after a seek, or what its
/// position is after a read: what it reads is what the reader itself gives next. Its own place
/// counts the bytes read and passed over, and a seek goes to the place that results.
#[derive(Drop)]
pub struct SeekSource<T> {
    std_io: StdIo<T>,
    place: u64,
    /// 0 if it isn't known.
    len: u64,
    /// What is dropped from a pipe is read into this block: a new one for each piece would have to
    /// be cleared each time.
    piece: [u8; 65_536],
}

impl<T: Drop> SeekSource<T> {
    ghost use Rattle.bw_stream.specs.Shown.{sought_inner, sought_place, sought_len};
    ghost use Rattle.bw_stream.specs.Shown.{sought_reads, sought_failures};

    /// A reader at its start, with `len` bytes; None if the length isn't known, as for a pipe.
    ///
    /// # Not specified
    /// Which bytes it has: it reports none, so nothing that is proved about a file's bytes covers
    /// one that is read through it.
    pub fn new(inner: T, len: Option<u64>) -> SeekSource<T>
        ensures inner { sought_inner result ≡ inner }
        ensures calls { sought_reads result ≡ 0 }
        ensures failures { sought_failures result ≡ 0 }
        ensures place { sought_place result ≡ 0 }
        ensures len { sought_len result ≡ unwrap_or len 0 }
    {
        SeekSource {
            std_io: StdIo::new(inner),
            place: 0,
            len: len.unwrap_or(0),
            piece: [0; 65_536],
        }
    }
}

impl<T: Seek> SeekSource<T> {
    /// Seeks to a place, counted in bytes from the start.
    fn seek_to(&mut self, place: u64) -> Result<(), IoFailed>
        ensures calls { self.new.std_io.calls ≡ one_more self.old.std_io.calls }
        ensures count { self.new.std_io.failures ≡ failures_after result self.old.std_io.failures }
        ensures ok { OnOk result (self.new.place ≡ place) }
        ensures err { OnErr result (self.new.place ≡ self.old.place) }
        ensures seeks { MovesTo (T.stream_position self.old.std_io.inner)
            (T.stream_position self.new.std_io.inner) place result }
    {
        self.std_io.calls = self.std_io.calls.saturating_add(1);
        let Ok(_) = self.std_io.inner.seek(SeekFrom::Start(place)) else {
            self.std_io.failures = self.std_io.failures.saturating_add(1);
            return Err(IoFailed);
        };
        self.place = place;
        Ok(())
    }
}

impl<T: Read + Seek> Source for SeekSource<T> {
    ghost use Rattle.bw_stream.specs.Shown.{sought_inner, sought_place, sought_len};
    ghost use Rattle.bw_stream.specs.Shown.{sought_reads, sought_failures};

    ghost left = { λ s. None };

    ghost moved = { sought_place };

    ghost calls = { sought_reads };

    ghost failures = { sought_failures };

    /// Reads the next bytes of its reader, and moves the place by as many.
    ///
    /// # Errors
    /// `IoFailed` if the reader failed: the place stays.
    ///
    /// # Not specified
    /// - When the reader fails.
    /// - What `buf` holds after an error, and after the bytes that were read.
    fn read(&mut self, buf: &mut [u8]) -> Result<usize, IoFailed>
        ensures calls { sought_reads self.new ≡ one_more (sought_reads self.old) }
        ensures count { sought_failures self.new
            ≡ failures_after result (sought_failures self.old) }
        ensures moved { sought_place self.new ≡ moved_after result (sought_place self.old) }
        ensures within { IfOk result (λ n. n ≤ length buf.old) }
        ensures given { IfOk result (λ n.
            Reads (T.remaining (sought_inner self.old)) (length buf.old) n
            buf.new (T.remaining (sought_inner self.new))) }
        ensures kept { OnErr result
            (Keeps (T.remaining (sought_inner self.old)) (T.remaining (sought_inner self.new))) }
    {
        let count = self.std_io.read(buf)?;
        self.place = self.place.saturating_add(count as u64);
        Ok(count)
    }

    /// Seeks over what is left of the known length, at most `most` bytes, and reads after it.
    ///
    /// # Errors
    /// `IoFailed` if the reader failed: the place stays.
    ///
    /// # Not specified
    /// - When the reader fails, and its position after a read.
    /// - That 0 is returned only at the end.
    fn skip(&mut self, most: u64) -> Result<u64, IoFailed>
        ensures calls { sought_reads self.new ≡ one_more (sought_reads self.old) }
        ensures count { sought_failures self.new
            ≡ failures_after result (sought_failures self.old) }
        ensures moved { sought_place self.new ≡ moved_after result (sought_place self.old) }
        ensures within { IfOk result (λ n. n ≤ most) }
        ensures seeks { SeeksOver (sought_place self.old) (sought_len self.old) most
            (T.stream_position (sought_inner self.old)) (T.stream_position (sought_inner self.new))
            result }
        ensures reads { ReadsOn (sought_place self.old) (sought_len self.old) most
            (T.remaining (sought_inner self.old)) (T.remaining (sought_inner self.new)) result }
    {
        let count = most.min(self.len.saturating_sub(self.place));
        if count > 0 {
            self.seek_to(self.place + count)?;
            return Ok(count);
        }
        let count = self.std_io.read_past(&mut self.piece, most)?;
        self.place = self.place.saturating_add(count);
        Ok(count)
    }
}
