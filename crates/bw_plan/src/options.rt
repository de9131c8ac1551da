//! Options for the recording of a file.
ghost use Rattle.std.specs.Prelude.{◌≡◌};
ghost use Rattle.bw_plan.specs.Strictness.{refuses_losses as are_losses_refused};
ghost use Rattle.bw_plan.specs.Strictness.{refuses_texts as are_texts_refused};

use crate::setting::Setting;
use std::marker::Model;

/// What of a file a recording may not lose.
#[derive(Clone, Copy, Debug, PartialEq, Eq, Hash)]
pub enum Strictness {
    /// Nothing is refused: whatever is lost is reported.
    Lenient,
    /// Texts that would be changed or left out, and cue points that would be left out.
    Texts,
    /// Whatever would be lost.
    Full,
}

/// What is set in place of what a file has, and how its recording is made.
#[derive(Debug, Drop)]
pub struct Options {
    settings: Vec<Setting>,
    strict: Strictness,
    frames: Option<u32>,
}

impl Model for Options {
    ghost use Rattle.bw_plan.specs.Recordings.{Options as OptionsOf};

    ghost Value = { OptionsOf };

    ghost view = { λ o. record {
      settings = o.settings.items;
      strict = o.strict;
      frames = o.frames;
    } };
}

impl Options {
    /// Settings in their order, of which a later one takes the place of an earlier one; what the
    /// recording may not lose; and how many frames a block has, where that is given.
    pub fn new(settings: Vec<Setting>, strict: Strictness, frames: Option<u32>) -> Options
        ensures { result ≡ record { settings = settings.items; strict = strict; frames = frames } }
    {
        Options {
            settings,
            strict,
            frames,
        }
    }

    /// What is set, in its order.
    pub fn settings(&self) -> &[Setting]
        ensures { result.now ≡ self.now.settings }
    {
        self.settings.as_slice()
    }

    /// Whether texts that would be cleaned are refused, and cue points that would be left out.
    pub fn refuses_texts(&self) -> bool
        ensures { result ≡ are_texts_refused self.now.strict }
    {
        match self.strict {
            Strictness::Lenient => false,
            Strictness::Texts => true,
            Strictness::Full => false,
        }
    }

    /// Whether a recording is refused that loses anything of its file, once all of that is known.
    pub fn refuses_losses(&self) -> bool
        ensures { result ≡ are_losses_refused self.now.strict }
    {
        match self.strict {
            Strictness::Lenient => false,
            Strictness::Texts => false,
            Strictness::Full => true,
        }
    }

    /// How many frames a block has, where that is given.
    pub fn frames(&self) -> Option<u32>
        ensures { result ≡ self.now.frames }
    {
        self.frames
    }
}
