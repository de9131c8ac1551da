//! Laws of the defaults.
ghost use Rattle.bw_live.specs.ExamplesOfDefaults.{DefaultsExample, RerunsAgree};

/// The worked defaults of a take are as worked.
pub fn law_default_example()
    ensures { DefaultsExample }
{}

/// The line that a spool is bound to says when its recording was begun: a rerun finds the same moment.
pub fn law_reruns_agree()
    ensures { RerunsAgree }
{}
