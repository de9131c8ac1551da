//! Worked examples. Each function's contract is one; nothing runs.
ghost use Rattle.bw_operators.specs.ExampleTimes.{TimesExample};

/// Times and their texts.
pub fn law_times()
    ensures { TimesExample }
{}
