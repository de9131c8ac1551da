//! An input as lines of hex.
ghost use Rattle.std.specs.Prelude.{◌≡◌, ◌≢◌, ℕ, ◌+◌, ◌<◌, ◌≤◌, ◌∷◌, List, All, length, map, Ok};
ghost use Rattle.std.specs.Prelude.{Some, IfOk, IfErr};
ghost use Rattle.std.specs.List.{position_or_len};
ghost use Rattle.std.specs.Io.BufRead.{strip_last};
ghost use Rattle.bw_console.specs.Lines.{lines_of, decoded_from, is_line_end};
ghost use Rattle.bw_console.specs.Input.{asked_by, longest_input, Exchanges};
ghost use Rattle.bw_console.specs.Faults.{IsLineFault, RefusesInput, RefusesLength, is_read};
ghost use Rattle.bw_console.specs.Faults.{line_fault as line_fault_of};
ghost use Rattle.bw_console.specs.Prints.{failures_if};
ghost use Rattle.bw_console.specs.Input.{IsReadAhead};
ghost use Rattle.bw_stream.specs.Readers.{Of};

use crate::fault::Fault;
use bw_stream::Source;
use hex::FromHexError;
use std::alloc::Global;

/// The most bytes of an input.
const LONGEST_INPUT: usize = 16_777_216;

/// The bytes of each exchange of an input, which has one line of hex for each.
///
/// # Errors
/// Those of `all_bytes`, and `NotHex` with the number of the first line that isn't hex.
///
/// # Not specified
/// - When memory is refused.
/// - Of a reader that doesn't report its bytes: that the result is what it gave, and that `TooLong`
///   and `NotHex` are true.
pub fn exchanges<R: Source>(alloc: Global, input: &mut R) -> Result<Vec<Vec<u8>>, Fault>
    ensures within { Of (R.left input.old) (λ xs. IsReadAhead xs (R.left input.new)) }
    // At most 16,777,217 bytes are read.
    ensures most { R.moved input.new ≤ R.moved input.old + (longest_input + 1) }
    ensures count { R.failures input.new ≡ failures_if (is_read result) (R.failures input.old) }
    ensures ok { IfOk result (λ found. Of (R.left input.old) (λ xs.
        asked_by xs ≡ Exchanges (map (λ x. x.items) found.items))) }
    ensures short { IfOk result (λ found. All (λ x. length x.items ≤ longest_input) found.items) }
    ensures err { IfErr result (λ fault. Of (R.left input.old) (λ xs.
        RefusesInput fault (asked_by xs))) }
    ensures own { IfErr result (λ fault. fault ≢ Fault.Unwritable) }
{
    let bytes = all_bytes(alloc, input)?;
    decoded_lines(alloc, bytes.as_slice())
}

/// All bytes of an input.
///
/// # Errors
/// `TooLong` if there are more than 16,777,216; `Unreadable` if the reader failed; `Memory` if
/// memory was refused. At most 16,777,217 bytes were read.
///
/// # Not specified
/// - When memory is refused.
/// - Of a reader that doesn't report its bytes: that the result is what it gave, that `TooLong` is
///   true, and that `NotHex`, `NotEvent` and `NotRequest` don't come.
pub fn all_bytes<R: Source>(alloc: Global, input: &mut R) -> Result<Vec<u8>, Fault>
    ensures reads { Of (R.left input.old) (λ xs. IsReadAhead xs (R.left input.new)) }
    ensures most { R.moved input.new ≤ R.moved input.old + (longest_input + 1) }
    ensures count { R.failures input.new ≡ failures_if (is_read result) (R.failures input.old) }
    ensures within { IfOk result (λ bytes. length bytes.items ≤ longest_input) }
    ensures ok { IfOk result (λ bytes. Of (R.left input.old) (λ xs. bytes.items ≡ xs)) }
    ensures err { IfErr result (λ fault. Of (R.left input.old) (λ xs.
        RefusesInput fault (asked_by xs))) }
    ensures long { IfErr result (λ fault. Of (R.left input.old) (λ xs. RefusesLength fault xs)) }
    ensures own { IfErr result (λ fault. fault ≢ Fault.Unwritable) }
{
    let mut bytes = Vec::new(alloc);
    let mut piece = [0; 65_536];
    while bytes.len() <= LONGEST_INPUT {
        let room = (LONGEST_INPUT + 1 - bytes.len()).min(piece.len());
        let Ok(count) = input.read(&mut piece[..room]) else {
            return Err(Fault::Unreadable);
        };
        if count == 0 {
            return Ok(bytes);
        }
        bytes.extend_from_slice(&piece[..count])?;
    }
    Err(Fault::TooLong)
}

/// The bytes that each line encodes.
fn decoded_lines(alloc: Global, input: &[u8]) -> Result<Vec<Vec<u8>>, Fault>
    requires { length input.now ≤ longest_input }
    ensures ok { IfOk result (λ found.
        decoded_from 1 (lines_of input.now) ≡ Ok (map (λ x. x.items) found.items)) }
    ensures short { IfOk result (λ found. All (λ x. length x.items ≤ longest_input) found.items) }
    ensures err { IfErr result (λ fault. IsLineFault fault (decoded_from 1 (lines_of input.now))) }
{
    let mut found = Vec::new(alloc);
    let mut rest = input;
    let mut number = 1;
    while !rest.is_empty() {
        let (line, others) = first_line(rest);
        match hex::decode(alloc, line) {
            Ok(bytes) => {
                let Ok(()) = found.push(bytes) else {
                    return Err(Fault::Memory);
                };
            }
            Err(error) => return Err(line_fault(error, number)),
        }
        rest = others;
        number += 1;
    }
    Ok(found)
}

/// The fault of the line with this number, whose digits can't be read.
fn line_fault(error: FromHexError, number: u64) -> Fault
    ensures { result ≡ line_fault_of error number }
{
    match error {
        FromHexError::OutOfMemory => Fault::Memory,
        FromHexError::InvalidHexCharacter { .. } => Fault::NotHex(number),
        FromHexError::OddLength => Fault::NotHex(number),
        FromHexError::InvalidStringLength => Fault::NotHex(number),
    }
}

/// The first line of bytes, of which there is at least one, and what follows it.
pub fn first_line(bytes: &[u8]) -> (&[u8], &[u8])
    requires { 0 < length bytes.now }
    ensures lines { lines_of bytes.now ≡ result.0.now ∷ lines_of result.1.now }
    ensures within { length result.0.now ≤ length bytes.now }
    ensures shorter { length result.1.now < length bytes.now }
{
    let end = line_end(bytes);
    if end < bytes.len() {
        (without_return(&bytes[..end]), &bytes[end + 1..])
    } else {
        (bytes, &bytes[end..])
    }
}

/// Where the first line ends: at its line feed, or after all bytes.
fn line_end(bytes: &[u8]) -> usize
    ensures value { result ≡ position_or_len is_line_end bytes.now }
    ensures within { result ≤ length bytes.now }
{
    let mut end = 0;
    while end < bytes.len() && bytes[end] != b'\n' {
        end += 1;
    }
    end
}

/// A line without a carriage return at its end.
fn without_return(line: &[u8]) -> &[u8]
    ensures value { result.now ≡ strip_last 13 line.now }
    ensures within { length result.now ≤ length line.now }
{
    match line {
        [prefix @ .., b'\r'] => prefix,
        _ => line,
    }
}
