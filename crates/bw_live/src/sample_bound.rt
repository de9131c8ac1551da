//! Which bytes of a file that is still written are known to be samples.
ghost use Rattle.std.specs.Prelude.{◌≡◌};
ghost use Rattle.bw_live.specs.SampleBounds.{bound_after, bound_at, said_end as end_said};

/// What one look at the file gave.
#[derive(Clone, Copy, Debug, PartialEq, Eq)]
pub struct FileLook {
    /// How many bytes of samples its header says, if it says a size.
    pub size: Option<u64>,
    /// How many bytes the file had, after its header was looked at.
    pub len: u64,
    /// Whether the recording has ended, as was known before.
    pub has_ended: bool,
}

/// Up to where a file's bytes are known to be samples, by the looks at it so far. Before its header
/// says a size, only what an earlier look saw: if a chunk was written after the samples meanwhile, the
/// size was too.
#[derive(Clone, Copy, Debug, PartialEq, Eq)]
pub struct SampleBound {
    /// Where the samples begin.
    first: u64,
    /// Whether only a path says that the recording has ended; else the header does, once it says a size
    /// that the file has reached.
    by_path: bool,
    /// How many bytes the file had at the last look.
    seen: u64,
    /// Where the bytes end that are known to be samples.
    bound: u64,
    /// Whether no more will be.
    is_last: bool,
}

impl SampleBound {
    /// Nothing is known of samples that begin at this place, in bytes from the file's start.
    pub fn new(first: u64, by_path: bool) -> SampleBound
        ensures { result ≡ bound_at first by_path }
    {
        SampleBound {
            first,
            by_path,
            seen: first,
            bound: first,
            is_last: false,
        }
    }

    /// Takes note of one more look.
    pub fn look(&mut self, look: FileLook)
        ensures { self.new ≡ bound_after look self.old }
    {
        let said = said_end(self.first, &look);
        if self.is_last {
            return;
        }
        if look.has_ended || (!self.by_path && said.is_some()) {
            self.bound = said.unwrap_or(look.len).max(self.first);
            self.is_last = true;
        } else {
            self.bound = self.bound.max(said.unwrap_or(self.seen));
        }
        self.seen = look.len;
    }

    /// Where the bytes end that are known to be samples, in bytes from the file's start.
    pub fn end(&self) -> u64
        ensures { result ≡ self.now.bound }
    {
        self.bound
    }

    /// Whether the samples end there.
    pub fn is_last(&self) -> bool
        ensures { result ≡ self.now.is_last }
    {
        self.is_last
    }
}

/// Where the samples end that begin at this place, if the header says it and the file has reached it.
fn said_end(first: u64, look: &FileLook) -> Option<u64>
    ensures { result ≡ end_said first look.now }
{
    let size = look.size?;
    let len = look.len.checked_sub(first)?;
    if size > len {
        return None;
    }
    Some(first + size)
}
