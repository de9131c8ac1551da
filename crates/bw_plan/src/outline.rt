//! A recording without its samples.
ghost use Rattle.std.specs.Prelude.{◌≡◌, ◌/◌, List, ℕ, fold, option_map, IfOk, OnOk};
ghost use Rattle.bw_model.specs.Take.{shapes, block_align};
ghost use Rattle.bw_inspect.specs.Reports.{bext_by};
ghost use Rattle.bw_plan.specs.CleanedContents.{values_of};
ghost use Rattle.bw_plan.specs.Notes.{notes_by};
ghost use Rattle.bw_plan.specs.Recordings.{raw_fields, recorded_format, outline as outline_by, with_setting};
ghost use Rattle.bw_plan.specs.Recordings.{no_options};
ghost use Rattle.bw_plan.specs.PcmRecordings.{set_pcm_outline};

use crate::cleaning::{clean_history, to_vec};
use crate::markers::markers;
use crate::setting::{Setting, SettingRef};
use crate::values::Values;
use bw_inspect::{BextChunk, Report};
use bw_layout::{CuePoint, Fmt};
use std::alloc::{AllocError, Global};
use std::marker::Model;

/// What a recording has besides its samples.
#[derive(Debug, Drop)]
pub struct Outline {
    format: Fmt,
    history: Vec<u8>,
    values: Values,
    markers: Vec<CuePoint>,
    samples_len: u64,
}

impl Model for Outline {
    ghost use Rattle.bw_plan.specs.Recordings.{Outline as OutlineOf};

    ghost Value = { OutlineOf };

    ghost view = { λ r. record {
      format = r.format;
      history = r.history.items;
      values = r.values;
      markers = r.markers.items;
      samples_len = r.samples_len;
    } };
}

impl Outline {
    /// The recording that a report gives, if its format is allowed: cleaned, and without
    /// settings.
    ///
    /// # Errors
    /// `AllocError` where memory was refused.
    pub(crate) fn of_report(
        alloc: Global,
        report: &Report,
        format: Fmt,
        history: &[u8],
    ) -> Result<Outline, AllocError>
        requires { format ≡ recorded_format report.now.fmt }
        ensures { IfOk result (λ r. (extension : List ℕ) →
            r ≡ outline_by (notes_by report.now extension history.now)) }
    {
        let frames = report.data_size / u64::from(format.block_align());
        Ok(Outline {
            format,
            history: clean_history(alloc, history)?,
            values: report_values(alloc, &report.bext)?,
            markers: markers(alloc, frames, report.cues.as_slice())?,
            samples_len: report.data_size,
        })
    }

    /// The recording of so many bytes of samples, of which nothing else is known.
    pub(crate) fn of_samples(alloc: Global, format: Fmt, samples_len: u64) -> Outline
        ensures { result ≡ set_pcm_outline no_options format samples_len }
    {
        Outline {
            format,
            history: Vec::new(alloc),
            values: Values::none(alloc),
            markers: Vec::new(alloc),
            samples_len,
        }
    }

    /// The sample format.
    pub fn format(&self) -> Fmt
        ensures { result ≡ self.now.format }
    {
        self.format
    }

    /// The coding history.
    pub fn history(&self) -> &[u8]
        ensures { result.now ≡ self.now.history }
    {
        self.history.as_slice()
    }

    /// The values of the fields of `bext`.
    pub fn values(&self) -> &Values
        ensures { result.now ≡ self.now.values }
    {
        &self.values
    }

    /// Identifier and frame of each cue point.
    pub fn markers(&self) -> &[CuePoint]
        ensures { result.now ≡ self.now.markers }
    {
        self.markers.as_slice()
    }

    /// How many bytes of samples there are.
    pub fn samples_len(&self) -> u64
        ensures { result ≡ self.now.samples_len }
    {
        self.samples_len
    }

    /// How many frames the samples have.
    pub fn frames(&self) -> u64
        ensures { result ≡ self.now.samples_len / block_align self.now.format }
    {
        self.samples_len / u64::from(self.format.block_align())
    }

    /// Puts what is set in place of what the file has, the settings in their order.
    ///
    /// # Errors
    /// `AllocError` where memory was refused.
    pub(crate) fn apply(&mut self, alloc: Global, settings: &[Setting]) -> Result<(), AllocError>
        ensures { OnOk result (self.new ≡ fold with_setting self.old settings.now) }
    {
        for (_i, setting) in settings.iter().enumerate() {
            self.set(alloc, setting)?;
        }
        Ok(())
    }

    fn set(&mut self, alloc: Global, setting: &Setting) -> Result<(), AllocError>
        ensures { OnOk result (self.new ≡ with_setting self.old setting.now) }
    {
        match setting.as_ref() {
            SettingRef::Field { tag, value } => {
                let value = to_vec(alloc, value)?;
                self.values.set(tag, value);
            }
            SettingRef::History { bytes } => self.history = to_vec(alloc, bytes)?,
        }
        Ok(())
    }
}

/// The values of a `bext` chunk's fields, none given where there is no chunk.
///
/// # Errors
/// `AllocError` where memory was refused.
fn report_values(alloc: Global, bext: &Option<BextChunk>) -> Result<Values, AllocError>
    ensures { IfOk result (λ v. v ≡ values_of shapes (raw_fields (option_map bext_by bext.now))) }
{
    match bext {
        Some(chunk) => Values::of_bext(alloc, &chunk.fields),
        None => Ok(Values::none(alloc)),
    }
}
