//! The levels of a file's samples, a column at a time.
ghost use Rattle.std.specs.Prelude.{◌≡◌, ◌+◌, ◌-◌, ◌*◌, ◌/◌, ◌≤◌, ◌<◌, ◌^◌, ℕ, length, drop};
ghost use Rattle.std.specs.Prelude.{slice_index, Some, IfErr, OnOk};
ghost use Rattle.bw_inspect.specs.Places.{AtPlace};
ghost use Rattle.bw_picture.specs.Levels.{bytes_of};
ghost use Rattle.bw_picture.specs.Reads.{LacksBytes, HasWidened};

use crate::channels::widen_all;
use crate::level::SampleWidth;
use bw_inspect::{InspectFault, InspectKind, read_at};
use bw_stream::Source;

/// Reads this many frames of `align` bytes from a place on, through a buffer that holds at least
/// one, and takes their levels.
///
/// # Errors
/// Truncated where the input ends before the last of them does; Read.
pub fn read_frames<R: Source>(
    reader: &mut R,
    place: u64,
    frames: u64,
    width: SampleWidth,
    align: usize,
    buf: &mut [u8],
    lows: &mut [u32],
    highs: &mut [u32],
) -> Result<(), InspectFault>
    requires pairs { length lows.old ≡ length highs.old }
    requires within { length lows.old * bytes_of width ≤ align }
    requires some { (0 < align) × (align ≤ length buf.old) }
    requires near { place + frames * align < 2 ^ 63 }
    // The levels are those of the file's samples, however they are read in pieces.
    ensures ok { OnOk result (AtPlace (R.left reader.old) place (λ b.
        HasWidened b place frames width align lows.old highs.old lows.new highs.new
        (R.left reader.new))) }
    ensures err { IfErr result (λ f. AtPlace (R.left reader.old) place (λ b.
        LacksBytes b place (frames * align) f)) }
{
    let most = buf.len() / align;
    let mut done = 0;
    while done < frames {
        let count = (frames - done).min(most as u64) as usize;
        let piece = &mut buf[..count * align];
        let at = place + done * align as u64;
        read_at(
            reader,
            at,
            piece,
            InspectFault {
                kind: InspectKind::Truncated,
                offset: at,
            },
        )?;
        widen_all(lows, highs, width, piece, count, align);
        done += count as u64;
    }
    Ok(())
}
