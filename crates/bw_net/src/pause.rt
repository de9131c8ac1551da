//! Pauses, by the clock of the system.
ghost use Rattle.std.specs.Prelude.{◌≡◌, ⊤};

use crate::spool::SpoolCell;
use bw_ports::Pause;
use std::thread;
use std::time::{Clock, Duration};

/// Waits by the clock of a runtime.
#[derive(Drop)]
pub struct ClockPause<R> {
    rt: R,
}

impl<R> ClockPause<R> {
    ghost use Rattle.bw_net.specs.SeenFiles.{pausing_runtime};

    /// Waits by this runtime's clock.
    ///
    /// # Not specified
    /// That so much time passes: no clause of std says it.
    pub fn new(rt: R) -> ClockPause<R>
        ensures { pausing_runtime result ≡ rt }
    {
        ClockPause { rt }
    }
}

impl<R: Clock + Drop> Pause for ClockPause<R> {
    ghost waits = { λ _ _ _. ⊤ };

    fn pause(&mut self, milliseconds: u32) {
        thread::sleep(&self.rt, Duration::from_millis(u64::from(milliseconds)));
    }
}

/// Waits by the clock of a runtime, and fills the spool meanwhile, if there is one.
#[derive(Drop)]
pub struct SpoolPause<'a> {
    rt: &'a HostRuntime,
    spool: &'a SpoolCell,
}

impl<'a> SpoolPause<'a> {
    /// Waits by this runtime's clock, and fills this spool.
    ///
    /// # Not specified
    /// That so much time passes: no clause of std says it.
    pub fn new(rt: &'a HostRuntime, spool: &'a SpoolCell) -> SpoolPause<'a> {
        SpoolPause { rt, spool }
    }
}

impl Pause for SpoolPause<'_> {
    ghost waits = { λ _ _ _. ⊤ };

    fn pause(&mut self, milliseconds: u32) {
        let span = Duration::from_millis(u64::from(milliseconds));
        self.spool.wait_or_sleep(self.rt, span);
    }
}
