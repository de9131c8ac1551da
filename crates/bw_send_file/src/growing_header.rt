//! The header of a WAVE file is read while the file is written.
ghost use Rattle.std.specs.Prelude.{◌≡◌, ◌≢◌, ◌+◌, ◌≤◌, ◌⊎◌, ℕ, List, Some, IfOk, IfErr, OnOk, true, length};
ghost use Rattle.bw_live.specs.WaveHeaders.{data_search, most_header};
ghost use Rattle.bw_live.specs.declared.header.DataSearch.TheVariants.{Found};
ghost use Rattle.bw_send_file.specs.GrowingSendings.{IsHeaderIn, IsHeaderWithin, RefusesHeader, RefusesIn};
ghost use Rattle.bw_send_file.specs.GrowingSendings.{is_enough as is_all_read};
ghost use Rattle.bw_recorder.specs.Openings.{is_well_at};
ghost use Rattle.bw_send_file.specs.Samples.{HoldsMore};

use crate::followed_buffer::SampleBuffer;
use bw_inspect::{InspectFault, InspectKind};
use bw_live::{DataSearch, MOST_HEADER, find_data, header_bytes};
use bw_plan::Options;
use bw_ports::Followed;
use bw_recorder::{HeldHeader, NO_MEMORY, OpenFault, header_of, unread};
use bw_stream::IoFailed;
use std::alloc::Global;

/// A header, and where the head of the `data` chunk is, in bytes from the file's start.
#[derive(Drop)]
pub(crate) struct GrowingHeader {
    pub(crate) header: HeldHeader,
    pub(crate) place: u64,
}

/// Reads a file from its start on until its samples begin, or it is complete, or has as many bytes as a
/// header may have.
///
/// # Errors
/// Why its header isn't read: the fault of a file of the bytes that are there; Read.
pub(crate) fn read_header<F: Followed>(
    alloc: Global,
    file: &mut F,
    options: &Options,
) -> Result<GrowingHeader, OpenFault>
    ensures ok { IfOk result (λ h. (xs : List ℕ) → F.to_come file.old ≡ Some xs →
        IsHeaderIn xs options.now h) }
    ensures err { IfErr result (λ e. (xs : List ℕ) → F.to_come file.old ≡ Some xs →
        RefusesHeader xs options.now e) }
    ensures well { IfErr result (λ e. is_well_at e ≡ true) }
{
    let Ok(mut buffer) = SampleBuffer::new(alloc, MOST_HEADER) else {
        return Err(OpenFault::Refused(NO_MEMORY));
    };
    match await_data(file, &mut buffer) {
        Ok(()) => header_in(alloc, buffer.bytes(), options),
        Err(IoFailed) => Err(OpenFault::Refused(unread(InspectFault {
            kind: InspectKind::Read,
            offset: buffer.bytes().len() as u64,
        }))),
    }
}

/// Reads on until the samples begin, the buffer is full, or the file is complete.
///
/// # Errors
/// `IoFailed` if the file failed.
fn await_data<F: Followed>(file: &mut F, buffer: &mut SampleBuffer) -> Result<(), IoFailed>
    requires { buffer.old.size ≡ most_header }
    ensures size { buffer.new.size ≡ most_header }
    ensures read { (xs : List ℕ) → F.to_come file.old ≡ Some xs →
        HoldsMore buffer.old xs buffer.new (F.to_come file.new) }
    ensures ok { OnOk result ((is_all_read buffer.new.held ≡ true) ⊎ (F.is_complete file.new ≡ true)) }
{
    for _look in 0..u64::MAX {
        let Ok(is_complete) = file.has_ended() else {
            return Err(IoFailed);
        };
        buffer.read_on(file)?;
        if is_complete || is_enough(buffer.bytes()) {
            return Ok(());
        }
    }
    Err(IoFailed)
}

/// Whether the first bytes of a file have all of its header, or show that it has none.
fn is_enough(bytes: &[u8]) -> bool
    requires { length bytes.now ≤ most_header }
    ensures { result ≡ is_all_read bytes.now }
{
    if bytes.len() >= MOST_HEADER {
        return true;
    }
    match find_data(bytes) {
        DataSearch::Unwritten => false,
        DataSearch::Found(_place) => true,
        DataSearch::Other => true,
    }
}

/// The header in the first bytes of a file.
///
/// # Errors
/// Why there is none.
fn header_in(alloc: Global, bytes: &[u8], options: &Options) -> Result<GrowingHeader, OpenFault>
    requires { length bytes.now ≤ most_header }
    ensures ok { IfOk result (IsHeaderWithin bytes.now options.now) }
    ensures err { IfErr result (RefusesIn bytes.now options.now) }
    ensures well { IfErr result (λ e. is_well_at e ≡ true) }
{
    match find_data(bytes) {
        DataSearch::Found(place) => header_at(alloc, bytes, place, options),
        DataSearch::Unwritten => Err(refusal(alloc, bytes, options)),
        DataSearch::Other => Err(refusal(alloc, bytes, options)),
    }
}

/// The header in the first bytes of a file, which have the head of the `data` chunk at this place.
///
/// # Errors
/// Why there is none.
fn header_at(
    alloc: Global,
    bytes: &[u8],
    place: u64,
    options: &Options,
) -> Result<GrowingHeader, OpenFault>
    requires short { length bytes.now ≤ most_header }
    requires found { data_search bytes.now ≡ Found place }
    requires after { 12 ≤ place }
    requires there { place + 8 ≤ length bytes.now }
    ensures ok { IfOk result (IsHeaderWithin bytes.now options.now) }
    ensures err { IfErr result (RefusesIn bytes.now options.now) }
    ensures well { IfErr result (λ e. is_well_at e ≡ true) }
{
    let Ok(held) = header_bytes(alloc, bytes, place) else {
        return Err(OpenFault::Refused(NO_MEMORY));
    };
    match header_of(alloc, held.as_slice(), options) {
        Ok(header) => Ok(GrowingHeader { header, place }),
        Err(fault) => Err(fault),
    }
}

/// Why a file of these bytes, which have no `data` chunk, isn't a recording.
fn refusal(alloc: Global, bytes: &[u8], options: &Options) -> OpenFault
    requires { (place : ℕ) → data_search bytes.now ≢ Found place }
    ensures refuses { RefusesIn bytes.now options.now result }
    ensures well { is_well_at result ≡ true }
{
    match header_of(alloc, bytes, options) {
        Ok(_header) => OpenFault::Changed,
        Err(fault) => fault,
    }
}
