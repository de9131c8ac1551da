//! Times by their frames.
ghost use Rattle.std.specs.Prelude.{◌≡◌};
ghost use Rattle.bw_report.specs.Times.{milliseconds};

/// So many frames at this rate in whole milliseconds. `None` for a rate of 0, and where the number
/// needs more than 64 bits.
pub fn milliseconds(frames: u64, rate: u32) -> Option<u64>
    ensures { result ≡ milliseconds frames rate }
{
    let whole = (u128::from(frames) * 1000).checked_div(u128::from(rate))?;
    u64::try_from(whole).ok()
}
