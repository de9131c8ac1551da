//! The `bext` chunk (EBU Tech 3285, Broadcast Audio Extension).
ghost use Rattle.std.specs.Prelude.{◌≡◌, ◌+◌, ◌≤◌, ◌++◌, OnOk, OnErr, length, take, drop, vec_len};
ghost use Rattle.std.specs.Prelude.{vec_capacity, if◌then◌else◌};
ghost use Rattle.std.specs.List.{concat};
ghost use Rattle.bw_model.specs.Bytes.{zeros};
ghost use Rattle.bw_model.specs.Limits.{longest_history};
ghost use Rattle.bw_model.specs.Take.{field_fault, with_field, no_fields, AreFields};
ghost use Rattle.bw_model.specs.Layout.{is_version_1, bext_fixed};
ghost use Rattle.bw_layout.specs.AppendedBytes.{Gains, Appends};
ghost use Rattle.bw_layout.specs.Fields.{answer_of};

use crate::field::{FieldError, NOT_GIVEN, set_digits, set_level, set_maybe, set_text, set_whole};
use crate::push::{push_bytes, push_u16};
use std::alloc::{AllocError, Global};
use std::marker::Model;

/// The fields of `bext` that a take can set, by tag from 1 on: Description, Originator,
/// OriginatorReference, OriginationDate, OriginationTime, TimeReference, UMID, LoudnessValue,
/// LoudnessRange, MaxTruePeakLevel, MaxMomentaryLoudness, MaxShortTermLoudness.
#[derive(Debug, Drop)]
pub struct Bext {
    description: [u8; 256],
    originator: [u8; 32],
    reference: [u8; 32],
    date: [u8; 10],
    time: [u8; 8],
    time_reference: [u8; 8],
    umid: [u8; 64],
    loudness_value: [u8; 2],
    loudness_range: [u8; 2],
    max_true_peak: [u8; 2],
    max_momentary: [u8; 2],
    max_short_term: [u8; 2],
}

impl Model for Bext {
    ghost use Rattle.std.specs.Prelude.{ℕ, List, [], ◌∷◌};

    ghost Value = { List (List ℕ) };

    ghost view = { λ b.
        b.description ∷ b.originator ∷ b.reference ∷ b.date ∷ b.time ∷ b.time_reference ∷ b.umid
        ∷ b.loudness_value ∷ b.loudness_range ∷ b.max_true_peak ∷ b.max_momentary
        ∷ b.max_short_term ∷ [] };
}

impl Bext {
    /// No field set.
    pub fn new() -> Bext
        ensures { result ≡ no_fields }
    {
        Bext {
            description: [0; 256],
            originator: [0; 32],
            reference: [0; 32],
            date: [0; 10],
            time: [0; 8],
            time_reference: [0; 8],
            umid: [0; 64],
            loudness_value: NOT_GIVEN,
            loudness_range: NOT_GIVEN,
            max_true_peak: NOT_GIVEN,
            max_momentary: NOT_GIVEN,
            max_short_term: NOT_GIVEN,
        }
    }

    /// An equal set of fields, without allocating memory.
    pub fn copy(&self) -> Bext
        ensures same { result ≡ self.now }
        ensures widths { AreFields result }
    {
        Bext {
            description: self.description,
            originator: self.originator,
            reference: self.reference,
            date: self.date,
            time: self.time,
            time_reference: self.time_reference,
            umid: self.umid,
            loudness_value: self.loudness_value,
            loudness_range: self.loudness_range,
            max_true_peak: self.max_true_peak,
            max_momentary: self.max_momentary,
            max_short_term: self.max_short_term,
        }
    }

    /// Sets a field to a value in the form that it has in the file: a text, the bytes of the UMID,
    /// or a little-endian number (the time reference counts samples since midnight; a loudness is
    /// signed and 100 times the value). An empty value unsets the field, except for the time
    /// reference.
    ///
    /// # Errors
    /// The first that holds of `Tag` (the tag isn't one of 1 to 12), `Length` (the field takes no
    /// value of this length) and `Text` (a byte isn't allowed at its place): nothing changed.
    pub fn set(&mut self, tag: u8, value: &[u8]) -> Result<(), FieldError>
        ensures reported { result ≡ answer_of (field_fault tag value.now) }
        ensures ok { OnOk result (self.new ≡ with_field self.old tag value.now) }
        ensures err { OnErr result (self.new ≡ self.old) }
        ensures widths { AreFields self.new }
    {
        match tag {
            1 => set_text(&mut self.description, value),
            2 => set_text(&mut self.originator, value),
            3 => set_text(&mut self.reference, value),
            4 => set_digits(&mut self.date, b"dddd-dd-dd", value),
            5 => set_digits(&mut self.time, b"dd:dd:dd", value),
            6 => set_whole(&mut self.time_reference, value),
            7 => set_maybe(&mut self.umid, value),
            8 => set_level(&mut self.loudness_value, value),
            9 => set_level(&mut self.loudness_range, value),
            10 => set_level(&mut self.max_true_peak, value),
            11 => set_level(&mut self.max_momentary, value),
            12 => set_level(&mut self.max_short_term, value),
            _ => Err(FieldError::Tag),
        }
    }

    /// The fields as they are, each with the width that its type gives it.
    pub(crate) fn as_wide(&self) -> &Bext
        ensures same { result.now ≡ self.now }
        ensures widths { AreFields result.now }
    {
        // The checker learns the width of an array only where a field is read.
        let _first = &self.description;
        self
    }

    /// Whether no loudness is given, so that the chunk is of version 1.
    fn is_version_1(&self) -> bool
        ensures { result ≡ is_version_1 self.now }
    {
        self.loudness_value == NOT_GIVEN
            && self.loudness_range == NOT_GIVEN
            && self.max_true_peak == NOT_GIVEN
            && self.max_momentary == NOT_GIVEN
            && self.max_short_term == NOT_GIVEN
    }
}

impl Default for Bext {
    ghost is_default = { λ b. b ≡ no_fields };

    /// No field set.
    fn default() -> Self {
        Self::new()
    }
}

/// Appends the content of a `bext` chunk: 602 bytes and the history, which has at most 4,096 bytes.
///
/// # Errors
/// `AllocError` if memory was refused, never if there is room: the bytes are as they were.
///
/// # Not specified
/// When memory is refused, and how much room is made beyond what is needed.
pub fn put_bext(
    _alloc: Global,
    out: &mut Vec<u8>,
    bext: &Bext,
    history: &[u8],
) -> Result<(), AllocError>
    requires { length history.now ≤ longest_history }
    ensures { let bytes = bext_fixed bext.now ++ history.now in
        Appends bytes (602 + length history.now) result out.old out.new }
{
    out.reserve(602 + history.len())?;
    push_bext(out, bext);
    push_bytes(out, history);
    Ok(())
}

#[tactic(auto, using(std::proofs::lemmas::List::append_assoc))]
pub(crate) fn push_bext(out: &mut Vec<u8>, bext: &Bext)
    requires { vec_len out.old + 602 ≤ vec_capacity out.old }
    ensures gains { Gains (bext_fixed bext.now) 602 out.old out.new }
    ensures widths { AreFields bext.now }
{
    push_texts(out, bext);
    push_u16(out, if bext.is_version_1() { 1 } else { 2 });
    push_bytes(out, &bext.umid);
    push_loudness(out, bext);
    push_bytes(out, &[0; 180]);
}

#[tactic(auto, using(std::proofs::lemmas::List::append_assoc))]
fn push_texts(out: &mut Vec<u8>, bext: &Bext)
    requires { vec_len out.old + 346 ≤ vec_capacity out.old }
    ensures { Gains (concat (take 6 bext.now)) 346 out.old out.new }
{
    push_bytes(out, &bext.description);
    push_bytes(out, &bext.originator);
    push_bytes(out, &bext.reference);
    push_bytes(out, &bext.date);
    push_bytes(out, &bext.time);
    push_bytes(out, &bext.time_reference);
}

/// Appends the ten bytes that are reserved in version 1.
#[tactic(auto, using(std::proofs::lemmas::List::append_assoc))]
fn push_loudness(out: &mut Vec<u8>, bext: &Bext)
    requires { vec_len out.old + 10 ≤ vec_capacity out.old }
    ensures { let bytes = (if is_version_1 bext.now then zeros 10 else concat (drop 7 bext.now)) in
        Gains bytes 10 out.old out.new }
{
    if bext.is_version_1() {
        push_bytes(out, &[0; 10]);
    } else {
        push_bytes(out, &bext.loudness_value);
        push_bytes(out, &bext.loudness_range);
        push_bytes(out, &bext.max_true_peak);
        push_bytes(out, &bext.max_momentary);
        push_bytes(out, &bext.max_short_term);
    }
}
