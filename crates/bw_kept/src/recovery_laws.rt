//! What recovery makes of names that a stop left. Nothing runs.
ghost use Rattle.bw_kept.specs.RecoveredLogs.{LeftNamesAreRecovered};

/// A name that a stop left is kept exactly if a number of it is done: its story is that of its log,
/// and journal and file are those of its log. Any other is new, and none is left out.
pub fn law_left_names_recover()
    ensures { LeftNamesAreRecovered }
{}
