//! How much time has passed, by the clock of the system.
ghost use Rattle.std.specs.Prelude.{◌≡◌};

use bw_ports::Stopwatch;
use std::time::{Clock, Instant};

/// Measures time by the clock of a runtime.
#[derive(Drop)]
pub struct ClockStopwatch<R> {
    rt: R,
    /// None if the clock couldn't be read.
    start: Option<Instant>,
    /// The milliseconds at the last look.
    passed: u64,
}

impl<R: Clock> ClockStopwatch<R> {
    ghost use Rattle.bw_net.specs.SeenFiles.{stopwatch_time};

    /// Starts now.
    ///
    /// # Not specified
    /// How much time passes: no clause of std says it.
    pub fn new(rt: R) -> ClockStopwatch<R>
        ensures { stopwatch_time result ≡ 0 }
    {
        let start = Instant::now(&rt).ok();
        ClockStopwatch {
            rt,
            start,
            passed: 0,
        }
    }
}

impl<R: Clock> Stopwatch for ClockStopwatch<R> {
    ghost use Rattle.bw_net.specs.SeenFiles.{stopwatch_time};

    ghost time = { stopwatch_time };

    fn look(&mut self) -> u64 {
        if let Some(start) = self.start {
            if let Ok(passed) = start.elapsed(&self.rt) {
                let now = u64::try_from(passed.as_millis()).unwrap_or(u64::MAX);
                self.passed = self.passed.max(now);
            }
        }
        self.passed
    }
}
