//! The requests that carry a recording, given one after the other.
ghost use Rattle.std.specs.Prelude.{◌≡◌, ℕ, ◌+◌, ◌*◌, ◌^◌, ◌≤◌, List, IsTrue, length, slice_range, Some};
ghost use Rattle.std.specs.Prelude.{◌<◌, ◌⊎◌, drop};
ghost use Rattle.std.specs.Prelude.{[], ◌∷◌, option_map, IfOk, IfErr, OnOk, MatchOption};
ghost use Rattle.bw_stream.specs.Readers.{Of};
ghost use Rattle.bw_model.specs.Take.{block_align, SetField};
ghost use Rattle.bw_model.specs.Requests.{meaning};
ghost use Rattle.bw_inspect.specs.ReaderCalls.{Consumes};
ghost use Rattle.bw_inspect.specs.Faults.{is_of_bytes};
ghost use Rattle.bw_inspect.specs.Places.{AtPlace};
ghost use Rattle.bw_plan.specs.Recordings.{value_under};
ghost use Rattle.bw_plan.specs.Plans.{plan};
ghost use Rattle.bw_plan.specs.Progress.{remaining, next_step_of, after_next, GoesOn, IsBlockMissed};
ghost use Rattle.bw_plan.specs.Progress.{IsSoundPlan, AtFault, fields_after, requests_after, blocks_from};
ghost use Rattle.bw_plan.specs.Progress.{requests_at, marks_from, Samples};
ghost use Rattle.bw_plan.specs.Steps.{stage_of};

use crate::block_reader::BlockReader;
use crate::outline::Outline;
use crate::values::Values;
use bw_inspect::{InspectFault, InspectKind, skip_at};
use bw_model::RequestRef;
use bw_stream::Source;
use std::alloc::Global;
use std::marker::Model;

/// Gives the requests of a recording's plan in their order: OPEN, the fields of `bext` by tag, the
/// samples in blocks, the markers, CLOSE. It holds the recording's outline and one block, and
/// allocates no memory after `new`.
#[derive(Debug, Drop)]
pub struct Plan {
    outline: Outline,
    samples: BlockReader,
    step: Step,
}

/// Which request is the next one.
#[derive(Clone, Copy, Debug)]
enum Step {
    Open,
    /// The field with this tag.
    Field { tag: u8 },
    /// The block that was read last.
    Block,
    /// A marker, and the place of the one after it.
    Mark { id: u32, frame: u32, next: usize },
    Close,
    /// None: all were given.
    End,
    /// None: a block wasn't read.
    Fault { fault: InspectFault },
}

impl Model for Plan {
    ghost use Rattle.bw_plan.specs.Progress.{Progress};
    ghost use Rattle.bw_plan.specs.Steps.{stage_of};

    ghost Value = { Progress };

    ghost view = { λ p. record {
      outline = p.outline;
      samples = p.samples;
      stage = stage_of p.step;
    } };
}

impl Plan {
    /// The plan of a recording whose samples begin at a place of its file, in blocks of so many
    /// frames, at most 32,768 bytes.
    ///
    /// # Errors
    /// Memory; TooLarge where the samples would end past 2^64 - 1.
    ///
    /// # Not specified
    /// When memory is refused.
    pub fn new(
        alloc: Global,
        outline: Outline,
        frames: u32,
        place: u64,
    ) -> Result<Plan, InspectFault>
        requires some { 1 ≤ frames }
        requires fits { frames * block_align outline.format ≤ 32768 }
        ensures place { IfOk result (λ p. p.samples.place ≡ place) }
        ensures end { IfOk result (λ p.
            p.samples.place + p.samples.left ≡ place + outline.samples_len) }
        ensures sound { IfOk result (λ p. IsSoundPlan p.stage) }
        // All its requests are still to be given.
        ensures plan { IfOk result (λ p. (b : List ℕ) →
            let samples = slice_range b place (place + outline.samples_len) in
            outline.samples_len ≡ length samples →
            remaining p b ≡ plan frames (record { outline = outline; samples = samples })) }
        ensures large { IfErr result (λ f. IsTrue (is_of_bytes f.kind) →
            2 ^ 64 ≤ place + outline.samples_len) }
    {
        let size = frames * u32::from(outline.format().block_align());
        let samples = BlockReader::new(alloc, size as usize, place, outline.samples_len())?;
        Ok(Plan {
            outline,
            samples,
            step: Step::Open,
        })
    }

    /// The plan of a recording whose samples begin at a place of its file, as `new` makes it. The
    /// reader has to be at the file's start, and is at that place afterwards.
    ///
    /// # Errors
    /// Memory; TooLarge where the samples would end past 2^64 - 1; Truncated, with the place, where
    /// the input ends before it; Read.
    ///
    /// # Not specified
    /// When memory is refused.
    pub fn begin<R: Source>(
        alloc: Global,
        reader: &mut R,
        outline: Outline,
        frames: u32,
        place: u64,
    ) -> Result<Plan, InspectFault>
        requires some { 1 ≤ frames }
        requires fits { frames * block_align outline.format ≤ 32768 }
        ensures place { IfOk result (λ p. p.samples.place ≡ place) }
        ensures end { IfOk result (λ p.
            p.samples.place + p.samples.left ≡ place + outline.samples_len) }
        ensures sound { IfOk result (λ p. IsSoundPlan p.stage) }
        ensures stands { IfOk result (λ p. Of (R.left reader.old) (λ b.
            R.left reader.new ≡ Some (drop place b))) }
        // All its requests are still to be given.
        ensures plan { IfOk result (λ p. (b : List ℕ) →
            let samples = slice_range b place (place + outline.samples_len) in
            outline.samples_len ≡ length samples →
            remaining p b ≡ plan frames (record { outline = outline; samples = samples })) }
        ensures cut { IfErr result (λ f. IsTrue (is_of_bytes f.kind) →
            Of (R.left reader.old) (λ b. (length b < place) ⊎ (2 ^ 64 ≤ place + outline.samples_len))) }
    {
        let cut = InspectFault {
            kind: InspectKind::Truncated,
            offset: place,
        };
        skip_at(reader, 0, place, cut)?;
        Plan::new(alloc, outline, frames, place)
    }

    /// The next request; None after CLOSE, and after an error.
    pub fn request(&self) -> Option<RequestRef<'_>>
        ensures { (b : List ℕ) → option_map meaning result ≡ next_step_of (remaining self.now b) }
    {
        match self.step {
            Step::Open => {
                let format = self.outline.format();
                Some(RequestRef::OpenTake {
                    rate: format.rate(),
                    channels: format.channels(),
                    bits: format.bits(),
                    history: self.outline.history(),
                })
            }
            Step::Field { tag } => Some(RequestRef::SetField {
                tag,
                value: self.outline.values().get(tag),
            }),
            Step::Block => Some(RequestRef::Block {
                bytes: self.samples.block(),
            }),
            Step::Mark {
                id,
                frame,
                next: _next,
            } => Some(RequestRef::Mark { id, frame }),
            Step::Close => Some(RequestRef::CloseTake {
                frames: self.outline.frames(),
            }),
            Step::End => None,
            Step::Fault { fault: _fault } => None,
        }
    }

    /// Goes on from the request that `request` returns to the one after it. The reader has to be at
    /// the next block, of which at most one is read.
    ///
    /// # Errors
    /// Truncated, with the block's place, where the input ends before its end; Read. From then on
    /// the same error is returned, without a call of the reader.
    pub fn advance<R: Source>(&mut self, reader: &mut R) -> Result<(), InspectFault>
        ensures consumed { IsSoundPlan self.old.stage →
            Consumes R.Source self.old.samples.size result reader.old reader.new }
        ensures ok { OnOk result (AtPlace (R.left reader.old) self.old.samples.place (λ b.
            GoesOn b (after_next (remaining self.old b)) self.new (R.left reader.new))) }
        ensures err { IsSoundPlan self.old.stage → IfErr result (λ f.
            AtPlace (R.left reader.old) self.old.samples.place (λ b.
            IsBlockMissed b self.old.samples f (R.left reader.new))) }
        ensures failed { IfErr result (λ f. self.new.stage ≡ AtFault f) }
        ensures sound { OnOk result (IsSoundPlan self.new.stage) }
        ensures end { self.new.samples.place + self.new.samples.left
            ≡ self.old.samples.place + self.old.samples.left }
        ensures again { (f : InspectFault) → self.old.stage ≡ AtFault f → result ≡ Err f }
    {
        match self.step {
            Step::Open => self.go_past_tag(0, reader),
            Step::Field { tag } => self.go_past_tag(tag, reader),
            Step::Block => self.go_to_block(reader),
            Step::Mark {
                id: _id,
                frame: _frame,
                next,
            } => {
                self.step = mark_step(&self.outline, next);
                Ok(())
            }
            Step::Close => {
                self.step = Step::End;
                Ok(())
            }
            Step::End => Ok(()),
            Step::Fault { fault } => Err(fault),
        }
    }

    /// Goes on to the first field after a tag, or to what follows the fields.
    ///
    /// # Errors
    /// Truncated, Read.
    fn go_past_tag<R: Source>(&mut self, tag: u8, reader: &mut R) -> Result<(), InspectFault>
        ensures consumed { Consumes R.Source self.old.samples.size result reader.old reader.new }
        ensures ok { OnOk result (AtPlace (R.left reader.old) self.old.samples.place (λ b.
            GoesOn b (requests_after self.old.outline self.old.samples b tag) self.new
            (R.left reader.new))) }
        ensures err { IfErr result (λ f.
            AtPlace (R.left reader.old) self.old.samples.place (λ b.
            IsBlockMissed b self.old.samples f (R.left reader.new))) }
        ensures failed { IfErr result (λ f. self.new.stage ≡ AtFault f) }
        ensures sound { OnOk result (IsSoundPlan self.new.stage) }
        ensures end { self.new.samples.place + self.new.samples.left
            ≡ self.old.samples.place + self.old.samples.left }
    {
        match given_after(self.outline.values(), tag) {
            Some(tag) => {
                self.step = Step::Field { tag };
                Ok(())
            }
            None => self.go_to_block(reader),
        }
    }

    /// Reads the next block, or goes on to what follows the blocks.
    ///
    /// # Errors
    /// Truncated, Read.
    fn go_to_block<R: Source>(&mut self, reader: &mut R) -> Result<(), InspectFault>
        ensures consumed { Consumes R.Source self.old.samples.size result reader.old reader.new }
        ensures ok { OnOk result (AtPlace (R.left reader.old) self.old.samples.place (λ b.
            GoesOn b (blocks_from self.old.outline self.old.samples b) self.new
            (R.left reader.new))) }
        ensures err { IfErr result (λ f.
            AtPlace (R.left reader.old) self.old.samples.place (λ b.
            IsBlockMissed b self.old.samples f (R.left reader.new))) }
        ensures failed { IfErr result (λ f. self.new.stage ≡ AtFault f) }
        ensures sound { OnOk result (IsSoundPlan self.new.stage) }
        ensures end { self.new.samples.place + self.new.samples.left
            ≡ self.old.samples.place + self.old.samples.left }
    {
        if self.samples.is_at_end() {
            self.step = mark_step(&self.outline, 0);
            return Ok(());
        }
        match self.samples.read_next(reader) {
            Ok(()) => {
                self.step = Step::Block;
                Ok(())
            }
            Err(fault) => {
                self.step = Step::Fault { fault };
                Err(fault)
            }
        }
    }
}

/// The first tag after this one under which a value is given; None where there is none.
#[tactic(auto, using(crate::proofs::NextFields::not_given, crate::proofs::NextFields::is_given, crate::proofs::NextFields::none_given))]
pub fn given_after(values: &Values, after: u8) -> Option<u8>
    ensures { MatchOption result (fields_after after values.now ≡ [])
        (λ tag. fields_after after values.now
        ≡ SetField tag (value_under values.now tag) ∷ fields_after tag values.now) }
{
    let mut tag = after;
    while tag < values.len() {
        tag += 1;
        if !values.get(tag).is_empty() {
            return Some(tag);
        }
    }
    None
}

/// The step at a marker, or at CLOSE after the last one.
fn mark_step(outline: &Outline, place: usize) -> Step
    ensures requests { (s : Samples) (b : List ℕ) →
        requests_at outline.now s b (stage_of result) ≡ marks_from outline.now place }
    ensures sound { IsSoundPlan (stage_of result) }
{
    match outline.markers().get(place) {
        Some(marker) => Step::Mark {
            id: marker.id,
            frame: marker.frame,
            next: place + 1,
        },
        None => Step::Close,
    }
}
