//! The values of the fields of `bext` (EBU Tech 3285), as messages carry them.
ghost use Rattle.std.specs.Prelude.{◌≡◌, ◌==◌, ◌≤◌, [], IfOk, drop, length, if◌then◌else◌};
ghost use Rattle.bw_model.specs.Take.{shapes};
ghost use Rattle.bw_plan.specs.CleanedContents.{values_of};
ghost use Rattle.bw_plan.specs.Recordings.{bext_fields, value_under, with_value, level_fields, given_count};

use crate::cleaning::{clean_bytes, clean_digits, clean_level, clean_text};
use bw_layout::RawBext;
use std::alloc::{AllocError, Global};
use std::marker::Model;

/// The value of each field, empty where it isn't given: by tag from 1 on Description, Originator,
/// OriginatorReference, OriginationDate, OriginationTime, TimeReference, UMID, LoudnessValue,
/// LoudnessRange, MaxTruePeakLevel, MaxMomentaryLoudness, MaxShortTermLoudness.
#[derive(Debug, Drop)]
pub struct Values {
    description: Vec<u8>,
    originator: Vec<u8>,
    reference: Vec<u8>,
    date: Vec<u8>,
    clock: Vec<u8>,
    time: Vec<u8>,
    umid: Vec<u8>,
    levels: Levels,
}

/// The values of the five levels.
#[derive(Debug, Drop)]
struct Levels {
    value: Vec<u8>,
    range: Vec<u8>,
    peak: Vec<u8>,
    momentary: Vec<u8>,
    short: Vec<u8>,
}

impl Model for Levels {
    ghost use Rattle.std.specs.Prelude.{ℕ, List, [], ◌∷◌};

    ghost Value = { List (List ℕ) };

    ghost view = { λ x.
        x.value.items ∷ x.range.items ∷ x.peak.items ∷ x.momentary.items ∷ x.short.items ∷ [] };
}

impl Model for Values {
    ghost use Rattle.std.specs.Prelude.{ℕ, List, [], ◌∷◌};

    ghost Value = { List (List ℕ) };

    ghost view = { λ v.
        v.description.items ∷ v.originator.items ∷ v.reference.items ∷ v.date.items
        ∷ v.clock.items ∷ v.time.items ∷ v.umid.items ∷ v.levels };
}

impl Values {
    /// No value given.
    pub(crate) fn none(alloc: Global) -> Values
        ensures { result ≡ values_of shapes [] }
    {
        Values {
            description: Vec::new(alloc),
            originator: Vec::new(alloc),
            reference: Vec::new(alloc),
            date: Vec::new(alloc),
            clock: Vec::new(alloc),
            time: Vec::new(alloc),
            umid: Vec::new(alloc),
            levels: Levels::none(alloc),
        }
    }

    /// The values of a chunk's fields, cleaned.
    ///
    /// # Errors
    /// `AllocError` where memory was refused.
    pub(crate) fn of_bext(alloc: Global, bext: &RawBext) -> Result<Values, AllocError>
        ensures { IfOk result (λ v. v ≡ values_of shapes (bext_fields bext.now.0)) }
    {
        Ok(Values {
            description: clean_text(alloc, &bext.description)?,
            originator: clean_text(alloc, &bext.originator)?,
            reference: clean_text(alloc, &bext.originator_reference)?,
            date: clean_digits(alloc, b"dddd-dd-dd", &bext.origination_date)?,
            clock: clean_digits(alloc, b"dd:dd:dd", &bext.origination_time)?,
            time: clean_bytes(alloc, &bext.time_reference.to_le_bytes())?,
            umid: clean_bytes(alloc, &bext.umid)?,
            levels: Levels::of_bext(alloc, bext)?,
        })
    }

    /// The value under a tag; empty where it isn't given, and under a tag that no field has.
    pub fn get(&self, tag: u8) -> &[u8]
        ensures { result.now ≡ value_under self.now tag }
    {
        match tag {
            1 => self.description.as_slice(),
            2 => self.originator.as_slice(),
            3 => self.reference.as_slice(),
            4 => self.date.as_slice(),
            5 => self.clock.as_slice(),
            6 => self.time.as_slice(),
            7 => self.umid.as_slice(),
            8 => self.levels.value.as_slice(),
            9 => self.levels.range.as_slice(),
            10 => self.levels.peak.as_slice(),
            11 => self.levels.momentary.as_slice(),
            12 => self.levels.short.as_slice(),
            _ => &[],
        }
    }

    /// How many fields there are, given or not.
    pub fn len(&self) -> u8
        ensures { result ≡ length self.now }
    {
        let levels = &self.levels;
        7 + levels.len()
    }

    /// How many values are given.
    pub fn count(&self) -> usize
        ensures value { result ≡ given_count self.now }
        ensures few { result ≤ 12 }
    {
        one_if_given(&self.description)
            + one_if_given(&self.originator)
            + one_if_given(&self.reference)
            + one_if_given(&self.date)
            + one_if_given(&self.clock)
            + one_if_given(&self.time)
            + one_if_given(&self.umid)
            + self.levels.count()
    }

    /// Sets the value under a tag; nothing under one that no field has.
    pub(crate) fn set(&mut self, tag: u8, value: Vec<u8>)
        ensures { self.new ≡ with_value self.old tag value.items }
    {
        match tag {
            1 => self.description = value,
            2 => self.originator = value,
            3 => self.reference = value,
            4 => self.date = value,
            5 => self.clock = value,
            6 => self.time = value,
            7 => self.umid = value,
            8 => self.levels.value = value,
            9 => self.levels.range = value,
            10 => self.levels.peak = value,
            11 => self.levels.momentary = value,
            12 => self.levels.short = value,
            _ => {}
        }
    }
}

/// 1 where a value is given, and else 0.
fn one_if_given(value: &Vec<u8>) -> usize
    ensures value { result ≡ (if length value.now.items == 0 then 0 else 1) }
    ensures few { result ≤ 1 }
{
    if value.is_empty() { 0 } else { 1 }
}

impl Levels {
    fn len(&self) -> u8
        ensures value { result ≡ length self.now }
        ensures few { result ≤ 5 }
    {
        // A field is looked at, so that the proof sees all of them.
        let _value = &self.value;
        5
    }

    fn count(&self) -> usize
        ensures value { result ≡ given_count self.now }
        ensures few { result ≤ 5 }
    {
        one_if_given(&self.value)
            + one_if_given(&self.range)
            + one_if_given(&self.peak)
            + one_if_given(&self.momentary)
            + one_if_given(&self.short)
    }

    fn none(alloc: Global) -> Levels
        ensures { result ≡ values_of (drop 7 shapes) [] }
    {
        Levels {
            value: Vec::new(alloc),
            range: Vec::new(alloc),
            peak: Vec::new(alloc),
            momentary: Vec::new(alloc),
            short: Vec::new(alloc),
        }
    }

    /// The five levels of a chunk, which it has from version 2 on.
    ///
    /// # Errors
    /// `AllocError` where memory was refused.
    fn of_bext(alloc: Global, bext: &RawBext) -> Result<Levels, AllocError>
        ensures { IfOk result (λ x. x ≡ values_of (drop 7 shapes) (level_fields bext.now.0)) }
    {
        let Some(loudness) = bext.loudness else {
            return Ok(Levels::none(alloc));
        };
        Ok(Levels {
            value: clean_level(alloc, loudness.value)?,
            range: clean_level(alloc, loudness.range)?,
            peak: clean_level(alloc, loudness.max_true_peak)?,
            momentary: clean_level(alloc, loudness.max_momentary)?,
            short: clean_level(alloc, loudness.max_short_term)?,
        })
    }
}
