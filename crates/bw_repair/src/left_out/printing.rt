//! All bytes of a reader are printed, in pieces.
ghost use Rattle.std.specs.Prelude.{◌≡◌, ◌≤◌, ◌<◌, length, IfErr, IfOk};
ghost use Rattle.bw_repair.specs.JoinedPrints.{PrintsBytes, PrintsAndFlushes, PrintsPiece, StopsPrint};
ghost use Rattle.bw_repair.specs.JoinedPrints.{both_left};

use bw_stream::{Sink, Source, write_all};

/// More bytes than this aren't printed, like the forms that are read.
const MOST: u64 = 1 << 62;

/// Why not all is printed.
pub(crate) enum PrintFault {
    /// A read failed, or there are too many bytes: so many are printed.
    Unread(u64),
    /// The writer failed.
    Unwritable,
}

/// Prints all bytes of a reader, without a flush.
///
/// # Errors
/// `PrintFault`: a prefix of them is printed.
pub(crate) fn print_all<R: Source, W: Sink>(reader: &mut R, out: &mut W) -> Result<(), PrintFault>
    ensures { PrintsBytes W.Sink (R.left reader.old) result out.old out.new }
{
    let mut piece = [0; 65_536];
    let mut place = 0;
    while place <= MOST {
        match print_piece(reader, out, &mut piece, place) {
            Ok(0) => return Ok(()),
            Ok(count) => place += count as u64,
            Err(fault) => return Err(fault),
        }
    }
    Err(PrintFault::Unread(place))
}

/// Prints the next bytes of a reader, as many as one read gives. Returns how many there are, 0 only
/// at the end.
///
/// # Errors
/// `PrintFault`: a prefix of them is printed. So many are printed before.
fn print_piece<R: Source, W: Sink>(
    reader: &mut R,
    out: &mut W,
    piece: &mut [u8],
    place: u64,
) -> Result<usize, PrintFault>
    requires room { 0 < length piece.old }
    ensures ok { IfOk result (λ n.
        PrintsPiece W.Sink (R.left reader.old) n (R.left reader.new) out.old out.new) }
    ensures err { IfErr result (λ f. StopsPrint W.Sink (R.left reader.old) f out.old out.new) }
    ensures within { IfOk result (λ n. n ≤ length piece.old) }
    ensures room { length piece.new ≡ length piece.old }
{
    let Ok(count) = reader.read(piece) else {
        return Err(PrintFault::Unread(place));
    };
    match write_all(out, &piece[..count]) {
        Ok(()) => Ok(count),
        Err(_) => Err(PrintFault::Unwritable),
    }
}

/// Prints all bytes of two readers, and flushes the writer.
///
/// # Errors
/// `PrintFault`: a prefix of them is printed.
pub(crate) fn print_both<R: Source, S: Source, W: Sink>(
    first: &mut R,
    second: &mut S,
    out: &mut W,
) -> Result<(), PrintFault>
    ensures { PrintsAndFlushes W.Sink (both_left (R.left first.old) (S.left second.old)) result
        out.old out.new }
{
    match print_in_turn(first, second, out) {
        Ok(()) => match out.flush() {
            Ok(()) => Ok(()),
            Err(_) => Err(PrintFault::Unwritable),
        },
        Err(PrintFault::Unread(place)) => {
            let _ = out.flush();
            Err(PrintFault::Unread(place))
        }
        Err(PrintFault::Unwritable) => Err(PrintFault::Unwritable),
    }
}

/// The same without a flush.
///
/// # Errors
/// `PrintFault`: a prefix of them is printed.
fn print_in_turn<R: Source, S: Source, W: Sink>(
    first: &mut R,
    second: &mut S,
    out: &mut W,
) -> Result<(), PrintFault>
    ensures { PrintsBytes W.Sink (both_left (R.left first.old) (S.left second.old)) result out.old out.new }
{
    match print_all(first, out) {
        Ok(()) => print_all(second, out),
        Err(fault) => Err(fault),
    }
}
