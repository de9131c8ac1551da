//! Laws of the calls: functions that do nothing, whose contracts are the statements.
ghost use Rattle.bw_file.specs.ExamplesOfCalls.{SixCallsExample, EightCallsExample};

/// Worked takes: which calls their files make, and how many.
pub fn examples_of_calls()
    ensures two_frames { SixCallsExample }
    ensures over_limit { EightCallsExample }
{}
