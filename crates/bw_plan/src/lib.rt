//! The requests of a recording, as a function of a file's bytes and of options.
//! Not stated: that a report beside `read_history` is that of the file; that a take's own file has
//! the same recording.
#![tactic(auto)]

mod block_reader;
mod cleaning;
mod fault;
mod format;
mod kept;
mod line_of_text;
mod markers;
mod options;
mod outline;
mod pcm;
mod plan;
mod reading;
mod recording;
mod setting;
mod setting_text;
mod unclean;
mod values;
mod warning;

ghost use Rattle.bw_plan.specs.PlanLaws.{PlansHaveTheirCount, PlansMakeTakes, RecordingsAreWhole};
ghost use Rattle.bw_plan.specs.Progress.{RunsGivePlans};
ghost use Rattle.bw_plan.specs.PcmRecordings.{PcmRecordingsAreWhole};
ghost use Rattle.bw_plan.specs.ExamplesOfPlans.{SmallPlanExample, LargeBlockPlanExample, CuePlanExample, ExtensiblePlanExample};
ghost use Rattle.bw_plan.specs.ExamplesOfPlans.{CleanedTextExample};
ghost use Rattle.bw_plan.specs.ExamplesOfPlans.{TextPlanExample, DatePlanExample, TimePlanExample, SettingsPlanExample, RefusedPlanExample};
ghost use Rattle.bw_plan.specs.ExamplesOfPlans.{SettingTextPlanExample, BadSettingPlanExample};
ghost use Rattle.bw_plan.specs.ExamplesOfPlans.{PcmPlanExample, RefusedPcmExample};

pub use fault::{RecordingFault, RecordingKind};
pub use options::{Options, Strictness};
pub use outline::Outline;
pub use pcm::Pcm;
pub use plan::{Plan, given_after};
pub use reading::{read_extension, read_history};
pub use recording::{block_frames, outline_of};
pub use setting::{Setting, SettingRef};
pub use setting_text::read_setting;
pub use unclean::UncleanPart;
pub use values::Values;
pub use warning::{Warning, is_carried, warnings};

/// Whatever the size of the blocks, each request of a recording's plan is stored, and together they
/// make the recording's take. A plan has as many requests as `outline_of` counts. This holds of
/// each recording of a file or of headerless samples, whatever their bytes, if what is set is
/// allowed. What `Plan` gives from its start to its end is the plan.
pub fn law_plan()
    ensures takes { PlansMakeTakes }
    ensures count { PlansHaveTheirCount }
    ensures whole { RecordingsAreWhole }
    ensures pcm { PcmRecordingsAreWhole }
    ensures runs { RunsGivePlans }
{}

/// Worked rows: files, their requests, and what is refused.
pub fn examples_of_plans()
    ensures small { SmallPlanExample }
    ensures large_block { LargeBlockPlanExample }
    ensures cue { CuePlanExample }
    ensures extensible { ExtensiblePlanExample }
    ensures text { TextPlanExample }
    ensures cleaned { CleanedTextExample }
    ensures date { DatePlanExample }
    ensures time { TimePlanExample }
    ensures settings { SettingsPlanExample }
    ensures refused { RefusedPlanExample }
    ensures setting_text { SettingTextPlanExample }
    ensures bad_setting { BadSettingPlanExample }
    ensures pcm { PcmPlanExample }
    ensures refused_pcm { RefusedPcmExample }
{}
