//! Kinds of things at paths.
ghost use Rattle.std.specs.Prelude.{◌≡◌, ℕ, List};
ghost use Rattle.bw_ports.specs.Kinds.{hint_words, is_odd_kind, kind_words};
ghost use Rattle.bw_ports.specs.declared.file_kind.FileKind.{FileKind};

/// What is at a path. Links are followed.
#[derive(Clone, Copy, Debug, PartialEq, Eq)]
pub enum FileKind {
    /// A file, which has a length and can be read again.
    Regular,
    Folder,
    /// A pipe, with a name or without.
    Pipe,
    Socket,
    /// A device, of bytes or of blocks.
    Device,
    /// Nothing, or the system doesn't say what.
    Unknown,
}

impl FileKind {
    /// Whether it is known to be something else than a file. Of a spool, which is opened to be
    /// written, only what the system would open: it names the reason for others itself.
    pub fn is_odd(self, is_spool: bool) -> bool
        ensures { result ≡ is_odd_kind self is_spool }
    {
        match self {
            FileKind::Regular => false,
            FileKind::Unknown => false,
            FileKind::Folder => !is_spool,
            FileKind::Pipe => true,
            FileKind::Socket => !is_spool,
            FileKind::Device => true,
        }
    }

    /// What it is called, with its article.
    pub(crate) fn words(self) -> &'static str
        ensures { result.now ≡ kind_words self }
    {
        match self {
            FileKind::Regular => "a file",
            FileKind::Unknown => "unknown",
            FileKind::Folder => "a directory",
            FileKind::Pipe => "a pipe",
            FileKind::Socket => "a socket",
            FileKind::Device => "a device",
        }
    }

    /// What to do in its place, after the words: samples in a pipe are spooled, unless it is the
    /// spool itself.
    pub(crate) fn hint(self, is_spool: bool) -> &'static str
        ensures { result.now ≡ hint_words self is_spool }
    {
        match self {
            FileKind::Pipe if !is_spool => ": use --spool",
            _ => "",
        }
    }
}

/// Says what kind of thing is at a path.
pub trait FileKinds {
    /// What a call of `kind_at` for this path may return.
    ghost kinds: { Self → List ℕ → FileKind → Type 0 };

    /// What is at a path. It is only looked at: a pipe isn't opened, which would wait for its writer.
    ///
    /// # Not specified
    /// Anything beyond what each implementation says of itself.
    fn kind_at(&self, path: &str) -> FileKind
        ensures { kinds self.now path.now result };
}
