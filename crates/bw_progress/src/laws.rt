//! What is proved of the definitions.
ghost use Rattle.bw_progress.specs.CountedFrames.{SettledFramesAreCounted};

/// Of a recording whose end is known, the frames that are counted as done are those of the settled
/// requests of its plan.
pub fn law_counted_frames()
    ensures counted { SettledFramesAreCounted }
{}
