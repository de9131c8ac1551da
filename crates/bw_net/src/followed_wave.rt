//! A WAVE file that another program is still writing.
ghost use Rattle.std.specs.Prelude.{◌≡◌, IfOk, false};

use crate::counting::counted;
use crate::meaning::ended;
use crate::stopwatch::ClockStopwatch;
use bw_live::{FileLook, SampleBound, said_size};
use bw_ports::{Followed, Stopwatch};
use bw_stream::IoFailed;
use std::fs::{self, File};
use std::io::{self, ErrorKind, Read, Seek, SeekFrom};

/// The milliseconds between two looks at a file's header: a program that writes a chunk after its
/// samples has this long to write their size.
const BETWEEN_LOOKS: u64 = 500;

/// The samples of a WAVE file that another program writes, until a file is at a path, or until its
/// header says how many there are. What is to come isn't known: no clause of std says what a file has.
#[derive(Drop)]
pub struct FollowedWave<'a> {
    rt: &'a HostRuntime,
    /// Is at the next sample.
    samples: File,
    /// Is read from its start at each look.
    header: File,
    /// The header at the last look, up to the samples.
    bytes: Vec<u8>,
    /// Where the head of the `data` chunk is.
    place: u64,
    /// The path that exists once the recording has ended, if one says so.
    until: Option<String>,
    bound: SampleBound,
    /// Where the next sample is.
    reached: u64,
    clock: ClockStopwatch<&'a HostRuntime>,
    /// When the header is looked at again, in milliseconds of the clock.
    next_look: u64,
    has_ended: bool,
    failures: u64,
}

impl<'a> FollowedWave<'a> {
    /// The samples of the file at a path, whose `data` chunk has its head at this place.
    pub(crate) fn open(
        rt: &'a HostRuntime,
        path: &str,
        place: u64,
        until: Option<&str>,
    ) -> io::Result<FollowedWave<'a>>
        ensures { IfOk result (λ file. (file.has_ended ≡ false) × (file.failures ≡ 0)) }
    {
        let until = match until {
            Some(until) => Some(String::from_str(rt.alloc(), until)?),
            None => None,
        };
        let first = place.saturating_add(8);
        let room = usize::try_from(first).unwrap_or(usize::MAX);
        let bytes = vec![in rt.alloc(); 0; room]?;
        let mut samples = File::open(rt, path)?;
        let header = File::open(rt, path)?;
        samples.seek(SeekFrom::Start(first))?;
        let bound = SampleBound::new(first, until.is_some());
        Ok(FollowedWave {
            rt,
            samples,
            header,
            bytes,
            place,
            until,
            bound,
            reached: first,
            clock: ClockStopwatch::new(rt),
            next_look: 0,
            has_ended: false,
            failures: 0,
        })
    }

    /// Looks whether the recording has ended, and, once in a while, at the header. Returns whether the
    /// samples are known to be complete.
    ///
    /// # Errors
    /// If the system failed; `InvalidData` if samples were read that are none by the header.
    fn look(&mut self) -> io::Result<bool>
        ensures failures { self.new.failures ≡ self.old.failures }
        ensures ended { self.new.has_ended ≡ self.old.has_ended }
    {
        let has_ended = match &self.until {
            Some(until) => fs::exists(self.rt, until.as_str())?,
            None => false,
        };
        let now = self.clock.look();
        if now >= self.next_look || has_ended {
            self.next_look = now.saturating_add(BETWEEN_LOOKS);
            self.look_at_header(has_ended)?;
        }
        if self.bound.is_last() && self.bound.end() < self.reached {
            let error = "the header says fewer samples than were sent";
            return Err(io::Error::new(ErrorKind::InvalidData, error));
        }
        Ok(self.bound.is_last())
    }

    /// Takes note of what the header says, and then of the file's length.
    ///
    /// # Errors
    /// If the system failed.
    fn look_at_header(&mut self, has_ended: bool) -> io::Result<()>
        ensures failures { self.new.failures ≡ self.old.failures }
        ensures ended { self.new.has_ended ≡ self.old.has_ended }
    {
        self.header.seek(SeekFrom::Start(0))?;
        self.header.read_exact(self.bytes.as_mut_slice())?;
        let size = said_in(self.bytes.as_slice(), self.place);
        let len = self.header.metadata()?.len();
        self.bound.look(FileLook {
            size,
            len,
            has_ended,
        });
        Ok(())
    }
}

/// The size of the samples that these bytes of a header say, if they say one.
fn said_in(bytes: &[u8], place: u64) -> Option<u64> {
    let first = place.checked_add(8)?;
    if (bytes.len() as u64) < first {
        return None;
    }
    said_size(bytes, place)
}

impl Followed for FollowedWave<'_> {
    ghost use Rattle.std.specs.Prelude.{None};
    ghost use Rattle.bw_net.specs.SeenFiles.{wave_failures, wave_has_ended};

    ghost to_come = { λ f. None };

    ghost is_complete = { wave_has_ended };

    ghost failures = { wave_failures };

    fn has_ended(&mut self) -> io::Result<bool> {
        let ended = ended(self.has_ended, self.look());
        if let Ok(is_known) = &ended {
            self.has_ended = *is_known;
        }
        counted(ended, &mut self.failures)
    }

    fn read_more(&mut self, buf: &mut [u8]) -> Result<usize, IoFailed> {
        let known = self.bound.end().saturating_sub(self.reached);
        let room = (buf.len() as u64).min(known) as usize;
        let Ok(count) = self.samples.read(&mut buf[..room]) else {
            self.failures = self.failures.saturating_add(1);
            return Err(IoFailed);
        };
        self.reached = self.reached.saturating_add(count as u64);
        Ok(count)
    }
}
