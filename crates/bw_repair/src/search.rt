//! Where the samples of a file begin, by the heads of its chunks.
ghost use Rattle.std.specs.Prelude.{◌≡◌, ◌+◌, ◌^◌, ◌<◌, ◌≤◌, ℕ, Some, None, Ok, Err, true, drop, length};
ghost use Rattle.std.specs.Prelude.{IfOk, IfErr, if◌then◌else◌, ◌-◌};
ghost use Rattle.bw_model.specs.Bytes.{first_that_holds, u32_at};
ghost use Rattle.bw_model.specs.Limits.{largest};
ghost use Rattle.bw_model.specs.Reading.{Fault, TooLarge};
ghost use Rattle.bw_stream.specs.Readers.{Of};
ghost use Rattle.bw_inspect.specs.Faults.{bytes_fault, counted, is_failed_read};
ghost use Rattle.bw_inspect.specs.Places.{AtPlace};
ghost use Rattle.bw_repair.specs.DataHeads.{FindsData, LacksData, entry_of_head, is_riff_wave};
ghost use Rattle.bw_repair.specs.Near.{AreNear};
ghost use Rattle.bw_repair.specs.Steps.{IsOneChunkOn, HaltsAt, PassesAt, RefusesChunk, StepsTo, StopsAt};
ghost use Rattle.bw_repair.specs.Steps.{WalksTo};

use bw_inspect::{InspectFault, InspectKind, read_at, skip_at};
use bw_model::{read_id, read_u16, read_u32};
use bw_stream::{IoFailed, Source};

/// The most chunks that are read before the samples.
const MOST_CHUNKS: u32 = 4_096;

/// A file with this many bytes or more after the head of its samples is refused.
const LARGEST: u64 = 1 << 62;

/// What the bytes before a file's samples say, and how many bytes follow them.
#[derive(Clone, Copy, Debug, PartialEq, Eq)]
pub struct DataHead {
    /// Where the head of the `data` chunk is, in bytes from the file's start.
    pub place: u64,
    /// Bytes per frame, as the last `fmt ` chunk before it says; 0 without one.
    pub align: u16,
    /// What the outer header says as the form's size, in bytes.
    pub form: u32,
    /// What the chunk's head says as its size, in bytes.
    pub size: u32,
    /// How many bytes the file has after that head.
    pub rest: u64,
}

/// Where the next head would be, and the block align so far.
#[derive(Clone, Copy)]
pub(crate) struct Reached {
    place: u64,
    align: u16,
}

/// A chunk's head, and where it is.
#[derive(Clone, Copy)]
pub(crate) struct ChunkAt {
    id: [u8; 4],
    place: u64,
    size: u32,
}

/// What is at the next place.
pub(crate) enum Step {
    /// The samples, and their size as the head says it.
    Data(u32),
    /// Another chunk: the place after it.
    On(Reached),
}

/// Finds the head of the `data` chunk in a RIFF file of type WAVE, and counts the bytes after it;
/// `None` where the file doesn't begin as one. The form's size isn't looked at.
///
/// # Errors
/// TooMany, NoData, NoSize, BadFmt, Truncated: of the chunks before the samples; TooLarge for 2^62
/// bytes or more after that head; Read.
pub fn find_data<R: Source>(reader: &mut R) -> Result<Option<DataHead>, InspectFault>
    ensures ok { IfOk result (λ found. Of (R.left reader.old) (λ b. FindsData b found)) }
    ensures err { IfErr result (λ f. Of (R.left reader.old) (λ b.
        (g : Fault) → bytes_fault f ≡ Some g → LacksData b g)) }
    ensures near { IfOk result AreNear }
    ensures count { R.failures reader.new ≡ counted result (R.failures reader.old) }
{
    let Some(form) = read_form(reader)? else {
        return Ok(None);
    };
    let (reached, size) = walk(reader)?;
    let rest = count_rest(reader, reached.place)?;
    Ok(Some(DataHead {
        place: reached.place,
        align: reached.align,
        form,
        size,
        rest,
    }))
}

/// The form's size that the first 12 bytes give, if they are those of a RIFF file of type WAVE.
///
/// # Errors
/// Read.
fn read_form<R: Source>(reader: &mut R) -> Result<Option<u32>, InspectFault>
    ensures ok { IfOk result (λ r. Of (R.left reader.old) (λ b.
        r ≡ (if is_riff_wave b then Some (u32_at b 4) else None))) }
    ensures left { IfOk result (λ r. Of (R.left reader.old) (λ b.
        is_riff_wave b ≡ true → R.left reader.new ≡ Some (drop 12 b))) }
    ensures err { IfErr result (λ f. bytes_fault f ≡ None) }
    ensures count { R.failures reader.new ≡ counted result (R.failures reader.old) }
{
    let mut bytes = [0; 12];
    match read_at(reader, 0, &mut bytes, fault_at(InspectKind::NotWave, 0)) {
        Ok(()) => Ok(form_in(&bytes)),
        Err(fault) => without_form(fault),
    }
}

/// The form's size in the first 12 bytes of a RIFF file of type WAVE.
fn form_in(bytes: &[u8]) -> Option<u32>
    requires { length bytes.now ≡ 12 }
    ensures { result ≡ (if is_riff_wave bytes.now then Some (u32_at bytes.now 4) else None) }
{
    if read_id(bytes, 0) == *b"RIFF" && read_id(bytes, 8) == *b"WAVE" {
        Some(read_u32(bytes, 4))
    } else {
        None
    }
}

/// The answer where reading the first 12 bytes failed: a file that lacks them is no RIFF file.
fn without_form(fault: InspectFault) -> Result<Option<u32>, InspectFault>
    ensures { result ≡ (if is_failed_read fault.kind then Err fault else Ok None) }
{
    match fault.kind {
        InspectKind::Read => Err(fault),
        _ => Ok(None),
    }
}

/// Passes over the chunks up to `data`, from the first one on, and reads the head of `data`:
/// returns where that is, and its size as it says it.
///
/// # Errors
/// TooMany, NoData, NoSize, BadFmt, Truncated, at the chunk that is wrong; Read.
fn walk<R: Source>(reader: &mut R) -> Result<(Reached, u32), InspectFault>
    ensures ok { IfOk result (λ r. AtPlace (R.left reader.old) 12 (λ b.
        12 ≤ length b → WalksTo b r.0.place r.0.align r.1 (R.left reader.new))) }
    ensures near { IfOk result (λ r. r.0.place < 2 ^ 62) }
    ensures following { IfOk result (λ r. 12 ≤ r.0.place) }
    ensures err { IfErr result (λ f. AtPlace (R.left reader.old) 12 (λ b.
        12 ≤ length b → (g : Fault) → bytes_fault f ≡ Some g → HaltsAt b g)) }
    ensures count { R.failures reader.new ≡ counted result (R.failures reader.old) }
{
    let mut reached = Reached {
        place: 12,
        align: 0,
    };
    for _chunk in 0..MOST_CHUNKS {
        match read_chunk(reader, reached)? {
            Step::Data(size) => return Ok((reached, size)),
            Step::On(next) => reached = next,
        }
    }
    Err(fault_at(InspectKind::TooMany, reached.place))
}

/// Reads the head at the next place, and passes over its chunk unless that is `data`.
///
/// # Errors
/// NoData, NoSize, BadFmt, Truncated, at the place; Read.
fn read_chunk<R: Source>(reader: &mut R, reached: Reached) -> Result<Step, InspectFault>
    requires { reached.place < 2 ^ 62 }
    ensures ok { IfOk result (λ s. AtPlace (R.left reader.old) reached.place (λ b.
        StepsTo b reached s (R.left reader.new))) }
    ensures near { IfOk result (λ s. IsOneChunkOn reached s) }
    ensures err { IfErr result (λ f. AtPlace (R.left reader.old) reached.place (λ b.
        StopsAt b reached.place f)) }
    ensures count { R.failures reader.new ≡ counted result (R.failures reader.old) }
{
    let place = reached.place;
    let mut head = [0; 8];
    read_at(
        reader,
        place,
        &mut head,
        fault_at(InspectKind::NoData, place),
    )?;
    let chunk = ChunkAt {
        id: read_id(&head, 0),
        place,
        size: read_u32(&head, 4),
    };
    if chunk.id == *b"data" {
        return Ok(Step::Data(chunk.size));
    }
    let align = pass_chunk(reader, chunk, reached.align)?;
    let place = place + 8 + chunk.size as u64 + (chunk.size % 2) as u64;
    Ok(Step::On(Reached { place, align }))
}

/// Passes over the content of a chunk, and its pad byte. Returns the block align that is known
/// then.
///
/// # Errors
/// NoSize, BadFmt, Truncated; Read.
fn pass_chunk<R: Source>(reader: &mut R, chunk: ChunkAt, align: u16) -> Result<u16, InspectFault>
    requires { chunk.place < 2 ^ 62 }
    ensures ok { IfOk result (λ a. AtPlace (R.left reader.old) (chunk.place + 8) (λ b.
        PassesAt b chunk align a (R.left reader.new))) }
    ensures sized { IfOk result (λ a. chunk.size < 2 ^ 32 - 1) }
    ensures err { IfErr result (λ f. AtPlace (R.left reader.old) (chunk.place + 8) (λ b.
        RefusesChunk b chunk f)) }
    ensures count { R.failures reader.new ≡ counted result (R.failures reader.old) }
{
    if chunk.size == u32::MAX {
        return Err(fault_at(InspectKind::NoSize, chunk.place));
    }
    let cut = fault_at(InspectKind::Truncated, chunk.place);
    let size = chunk.size as u64 + (chunk.size % 2) as u64;
    if chunk.id != *b"fmt " {
        skip_at(reader, chunk.place + 8, size, cut)?;
        return Ok(align);
    }
    if chunk.size < 16 {
        return Err(fault_at(InspectKind::BadFmt, chunk.place));
    }
    let mut fmt = [0; 16];
    read_at(reader, chunk.place + 8, &mut fmt, cut)?;
    skip_at(reader, chunk.place + 24, size - 16, cut)?;
    Ok(read_u16(&fmt, 12))
}

/// How many bytes the reader still has, after the head of `data` at a place.
///
/// # Errors
/// TooLarge for 2^62 bytes or more, at the head; Read.
fn count_rest<R: Source>(reader: &mut R, place: u64) -> Result<u64, InspectFault>
    requires { place < 2 ^ 62 }
    ensures ok { IfOk result (λ n. AtPlace (R.left reader.old) (place + 8) (λ b.
        place + 8 ≤ length b → place + 8 + n ≡ length b)) }
    ensures small { IfOk result (λ n. n < largest) }
    ensures large { IfErr result (λ f. (g : Fault) → bytes_fault f ≡ Some g →
        (g ≡ record { kind = TooLarge; offset = place })
        × AtPlace (R.left reader.old) (place + 8) (λ b.
        place + 8 ≤ length b → place + 8 + largest ≤ length b)) }
    ensures count { R.failures reader.new ≡ counted result (R.failures reader.old) }
{
    let mut count = 0;
    while count < LARGEST {
        match reader.skip(LARGEST - count) {
            Ok(0) => return Ok(count),
            Ok(some) => count += some,
            Err(IoFailed) => return Err(fault_at(InspectKind::Read, place + 8 + count)),
        }
    }
    Err(fault_at(InspectKind::TooLarge, place))
}

/// A fault at a place.
fn fault_at(kind: InspectKind, offset: u64) -> InspectFault
    ensures { result ≡ record { kind = kind; offset = offset } }
{
    InspectFault { kind, offset }
}
