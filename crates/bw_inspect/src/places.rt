//! Reading and passing over bytes at a place.
ghost use Rattle.std.specs.Prelude.{◌≡◌, ◌+◌, ◌-◌, ◌^◌, ◌<◌, ◌≤◌, IsTrue, length, drop, Some, IfOk};
ghost use Rattle.std.specs.Prelude.{IfErr, OnOk};
ghost use Rattle.bw_inspect.specs.ReaderCalls.{Consumes};
ghost use Rattle.bw_inspect.specs.Faults.{is_of_bytes};
ghost use Rattle.bw_inspect.specs.Places.{AtPlace, IsGiven, IsPassed, IsMissed};

use crate::fault::{InspectFault, InspectKind, fault_at};
use bw_stream::{IoFailed, Source};

/// Fills a buffer with the bytes from a place on.
///
/// # Errors
/// `cut` if the input ends too early; Read.
pub fn read_at<R: Source>(
    reader: &mut R,
    place: u64,
    buf: &mut [u8],
    cut: InspectFault,
) -> Result<(), InspectFault>
    requires room { place + length buf.old < 2 ^ 64 }
    requires cut { IsTrue (is_of_bytes cut.kind) }
    ensures consumed { Consumes R.Source (length buf.old) result reader.old reader.new }
    ensures ok { OnOk result (AtPlace (R.left reader.old) place (λ b.
        IsGiven b place (length buf.old) buf.new (R.left reader.new))) }
    ensures err { IfErr result (λ f. AtPlace (R.left reader.old) place (λ b.
        IsMissed b place (length buf.old) cut f (R.left reader.new))) }
{
    let mut done = 0;
    while done < buf.len() {
        match reader.read(&mut buf[done..]) {
            Ok(0) => return Err(cut),
            Ok(count) => done += count,
            Err(IoFailed) => return Err(fault_at(InspectKind::Read, place + done as u64)),
        }
    }
    Ok(())
}

/// Passes over this many bytes from a place on.
///
/// # Errors
/// `cut` if the input ends too early; Read.
pub fn skip_at<R: Source>(
    reader: &mut R,
    place: u64,
    count: u64,
    cut: InspectFault,
) -> Result<(), InspectFault>
    requires room { place + count < 2 ^ 64 }
    requires cut { IsTrue (is_of_bytes cut.kind) }
    ensures consumed { Consumes R.Source count result reader.old reader.new }
    ensures ok { OnOk result (AtPlace (R.left reader.old) place (λ b.
        IsPassed b place count (R.left reader.new))) }
    ensures err { IfErr result (λ f. AtPlace (R.left reader.old) place (λ b.
        IsMissed b place count cut f (R.left reader.new))) }
{
    let mut done = 0;
    while done < count {
        match reader.skip(count - done) {
            Ok(0) => return Err(cut),
            Ok(some) => done += some,
            Err(IoFailed) => return Err(fault_at(InspectKind::Read, place + done)),
        }
    }
    Ok(())
}

/// Passes over a pad byte, which may be absent at the input's end.
///
/// # Errors
/// Read.
pub(crate) fn skip_pad<R: Source>(reader: &mut R, place: u64) -> Result<(), InspectFault>
    ensures consumed { Consumes R.Source 1 result reader.old reader.new }
    ensures ok { OnOk result (AtPlace (R.left reader.old) place (λ b.
        R.left reader.new ≡ Some (drop (place + 1) b))) }
    ensures kind { IfErr result (λ f. f ≡ record { kind = InspectKind.Read; offset = place }) }
    ensures err { IfErr result (λ f. AtPlace (R.left reader.old) place (λ b.
        R.left reader.new ≡ Some (drop place b))) }
{
    let Ok(_) = reader.skip(1) else {
        return Err(fault_at(InspectKind::Read, place));
    };
    Ok(())
}
