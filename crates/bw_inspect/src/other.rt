//! Other formats of recordings, by the first bytes of a file.
ghost use Rattle.std.specs.Prelude.{◌≡◌};
ghost use Rattle.bw_inspect.specs.OtherFormats.{format_named, is_aiff as names_aiff};

use crate::chunk::is_named;
use bw_layout::ChunkId;
use bw_model::read_id;

/// The first bytes of the GUID `riff`, as a file has it (Sony Wave64).
const WAVE64_START: [u8; 12] = *b"riff\x2e\x91\xcf\x11\xa5\xd6\x28\xdb";

/// A format of recordings that isn't read.
#[derive(Clone, Copy, Debug, PartialEq, Eq, Hash)]
pub enum OtherFormat {
    /// RFC 9639.
    Flac,
    /// AIFF or AIFF-C.
    Aiff,
    /// Sony Wave64.
    Wave64,
}

/// The other format that a file's first bytes name.
pub(crate) fn other_format(start: &[u8; 12]) -> Option<OtherFormat>
    ensures { result ≡ format_named start.now }
{
    if is_named(ChunkId(read_id(start, 0)), *b"fLaC") {
        Some(OtherFormat::Flac)
    } else if is_aiff(start) {
        Some(OtherFormat::Aiff)
    } else if start[..] == WAVE64_START[..] {
        Some(OtherFormat::Wave64)
    } else {
        None
    }
}

/// Whether a file that begins so is an AIFF or AIFF-C file.
fn is_aiff(start: &[u8; 12]) -> bool
    ensures { result ≡ names_aiff start.now }
{
    let kind = ChunkId(read_id(start, 8));
    is_named(ChunkId(read_id(start, 0)), *b"FORM")
        && (is_named(kind, *b"AIFF") || is_named(kind, *b"AIFC"))
}
