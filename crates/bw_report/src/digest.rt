//! The digest of a file's samples.
ghost use Rattle.std.specs.Prelude.{◌≡◌, ◌+◌, ◌^◌, ◌<◌, ◌≤◌, IsTrue, IfOk, IfErr, OnErr};
ghost use Rattle.bw_inspect.specs.Faults.{counted, is_of_bytes};
ghost use Rattle.bw_inspect.specs.Places.{AtPlace};
ghost use Rattle.bw_stream.specs.Moves.{one_more};
ghost use Rattle.bw_stream.specs.Readers.{Of};
ghost use Rattle.bw_report.specs.Digests.{EndsBefore, HasSamples, digest_at};

use bw_inspect::{InspectFault, InspectKind, Report, read_at, skip_at};
use bw_stream::Source;
use sha2::{Digest, Sha256};

/// The SHA-256 of the samples of a reader at its start, where this report says that they are.
///
/// # Errors
/// Read, if the reader failed; also if the samples aren't there: its bytes aren't those that were reported.
pub(crate) fn report_digest<R: Source>(
    reader: &mut R,
    report: &Report,
) -> Result<[u8; 32], InspectFault>
    ensures ok { IfOk result (λ d. Of (R.left reader.old) (λ b.
        d ≡ digest_at b report.now.data_at report.now.data_size)) }
    ensures err { IfErr result (λ f. f.kind ≡ InspectKind.Read) }
    ensures failed { OnErr result (Of (R.left reader.old) (λ b. HasSamples b report.now →
        R.failures reader.new ≡ one_more (R.failures reader.old))) }
{
    if report.data_size > u64::MAX - report.data_at {
        return Err(unreadable(report.data_at));
    }
    match samples_digest(reader, report.data_at, report.data_size) {
        Ok(digest) => Ok(digest),
        Err(fault) => Err(unreadable(fault.offset)),
    }
}

fn unreadable(offset: u64) -> InspectFault
    ensures { result.kind ≡ InspectKind.Read }
{
    InspectFault {
        kind: InspectKind::Read,
        offset,
    }
}

/// The SHA-256 of this many bytes from a place on, of a reader at its start.
///
/// # Errors
/// Truncated, at the place, if the reader's bytes end before; Read, only if the reader failed.
pub(crate) fn samples_digest<R: Source>(
    reader: &mut R,
    place: u64,
    size: u64,
) -> Result<[u8; 32], InspectFault>
    requires { place + size < 2 ^ 64 }
    ensures count { R.failures reader.new ≡ counted result (R.failures reader.old) }
    ensures ok { IfOk result (λ d. Of (R.left reader.old) (λ b. d ≡ digest_at b place size)) }
    ensures err { IfErr result (λ f. Of (R.left reader.old) (λ b. EndsBefore b place size f)) }
{
    let cut = InspectFault {
        kind: InspectKind::Truncated,
        offset: place,
    };
    skip_at(reader, 0, place, cut)?;
    digest_from(reader, place, size, cut)
}

/// The SHA-256 of this many bytes of a reader that is at their place.
///
/// # Errors
/// `cut` if the reader's bytes end before; Read.
fn digest_from<R: Source>(
    reader: &mut R,
    place: u64,
    size: u64,
    cut: InspectFault,
) -> Result<[u8; 32], InspectFault>
    requires room { place + size < 2 ^ 64 }
    requires cut { IsTrue (is_of_bytes cut.kind) }
    ensures count { R.failures reader.new ≡ counted result (R.failures reader.old) }
    ensures ok { IfOk result (λ d. AtPlace (R.left reader.old) place (λ b.
        d ≡ digest_at b place size)) }
    ensures err { IfErr result (λ f. AtPlace (R.left reader.old) place (λ b.
        EndsBefore b place size f)) }
{
    let mut hasher = Sha256::new();
    let mut piece = [0; 65_536];
    let mut done = 0;
    while done < size {
        let count = (size - done).min(65_536) as usize;
        read_at(reader, place + done, &mut piece[..count], cut)?;
        hasher.update(&piece[..count]);
        done += count as u64;
    }
    Ok(hasher.finalize())
}
