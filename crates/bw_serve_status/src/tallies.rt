//! What a server was sent and replied, counted.
ghost use Rattle.std.specs.Prelude.{◌≡◌, ◌-◌, IfOk};
ghost use Rattle.bw_model.specs.CountedTurn.{is_delay};
ghost use Rattle.bw_model.specs.Replies.{notice_code, verdict_code};
ghost use Rattle.bw_model.specs.Take.{is_stored};
ghost use Rattle.bw_model.specs.Wire.{Says};
ghost use Rattle.bw_model.specs.Requests.{meaning};
ghost use Rattle.bw_model.specs.VerdictMeanings.{verdict_meaning};
ghost use Rattle.bw_wire.specs.Frames.{message_of};
ghost use Rattle.bw_wire.specs.Notices.{notice_meaning};
ghost use Rattle.bw_wire.specs.Replies.{reply_of};
ghost use Rattle.bw_serve_status.specs.Tallies.{change_by, request_kind, none_tallied};
ghost use Rattle.bw_serve_status.specs.Tallies.{tallied_change, tallied_notice, raised_at};
ghost use Rattle.bw_serve_status.specs.Tallies.{tallied_frame, tallied_reply};

use crate::name_tally::{Change, NAMES, NameTally, count_name};
use bw_model::{Name, RequestRef, Verdict};
use bw_wire::{Message, Notice, Reply};
use std::alloc::{AllocError, Global};
use std::marker::Model;

/// What a server was sent and replied. The counts stay at 2^64 - 1.
#[derive(Drop)]
pub(crate) struct Tallies {
    /// OPEN, BLOCK, MARK, BEXT, CLOSE, ASK.
    kinds: [u64; 6],
    bytes: u64,
    /// By the verdict's code.
    verdicts: [u64; 12],
    /// By the notice's code, from 32 on.
    notices: [u64; 8],
    /// How many changes of names were counted.
    changes: u64,
    /// There is memory for all of them from the start.
    names: Vec<NameTally>,
}

impl Model for Tallies {
    ghost use Rattle.std.specs.Prelude.{◌≤◌, vec_capacity};
    ghost use Rattle.bw_serve_status.specs.Names.{most_name_tallies};
    ghost use Rattle.bw_serve_status.specs.Tallies.{Tally};

    ghost Value = { Tally };

    ghost view = { λ t. record {
      kinds = t.kinds;
      bytes = t.bytes;
      verdicts = t.verdicts;
      notices = t.notices;
      changes = t.changes;
      names = t.names.items;
    } };

    ghost invariant = { λ t. most_name_tallies ≤ vec_capacity t.names };
}

impl Tallies {
    /// No counts.
    ///
    /// # Errors
    /// `AllocError` if memory was refused for those of names.
    pub(crate) fn new(alloc: Global) -> Result<Tallies, AllocError>
        ensures { IfOk result (λ t. t ≡ none_tallied) }
    {
        Ok(Tallies {
            kinds: [0; 6],
            bytes: 0,
            verdicts: [0; 12],
            notices: [0; 8],
            changes: 0,
            names: Vec::with_capacity(alloc, NAMES)?,
        })
    }

    /// Counts a message.
    pub(crate) fn count_message(&mut self, message: &Message<'_>)
        ensures { self.new ≡ tallied_frame self.old (Says (message_of message.now)) }
    {
        raise(&mut self.kinds, request_kind(&message.request()));
        self.bytes = self.bytes.saturating_add(message.body().len() as u64);
    }

    /// Counts an ask.
    pub(crate) fn count_ask(&mut self)
        ensures { self.new ≡ record self.old { kinds = raised_at 5 self.old.kinds } }
    {
        raise(&mut self.kinds, 5);
    }

    /// Counts a reply.
    pub(crate) fn count_reply(&mut self, reply: &Reply)
        ensures { self.new ≡ tallied_reply self.old (reply_of reply.now) }
    {
        match reply {
            Reply::Verdict { name, verdict, .. } => self.count_verdict(name, *verdict),
            Reply::Notice { name, code, .. } => self.count_notice(name, *code),
            Reply::BadFrame { .. } => {}
        }
    }

    fn count_verdict(&mut self, name: &Name, verdict: Verdict)
        ensures { self.new ≡ tallied_change (change_by (is_stored (verdict_meaning verdict))) name.now
            (record self.old {
              verdicts = raised_at (verdict_code (verdict_meaning verdict)) self.old.verdicts;
            }) }
    {
        raise(&mut self.verdicts, usize::from(verdict.code()));
        self.count_change(name, change_by(verdict.is_stored()));
    }

    fn count_notice(&mut self, name: &Name, notice: Notice)
        ensures { self.new ≡ tallied_notice (notice_meaning notice) name.now (record self.old {
          notices = raised_at (notice_code (notice_meaning notice) - 32) self.old.notices;
        }) }
    {
        raise(
            &mut self.notices,
            usize::from(notice.code().saturating_sub(32)),
        );
        if is_delay(notice) {
            self.count_change(name, Change::Delayed);
        }
    }

    /// Counts a change of a name.
    fn count_change(&mut self, name: &Name, change: Change)
        ensures { self.new ≡ tallied_change change name.now self.old }
    {
        self.changes = self.changes.saturating_add(1);
        count_name(&mut self.names, name, change, self.changes);
    }

    /// What is counted of the 256 names that were counted last.
    pub(crate) fn names(&self) -> &[NameTally]
        ensures { result.now ≡ self.now.names }
    {
        self.names.as_slice()
    }

    /// How many bytes messages' bodies had.
    pub(crate) fn bytes(&self) -> u64
        ensures { result ≡ self.now.bytes }
    {
        self.bytes
    }

    /// Messages by their kind, and asks.
    pub(crate) fn kinds(&self) -> &[u64]
        ensures { result.now ≡ self.now.kinds }
    {
        &self.kinds
    }

    /// Verdicts by their codes.
    pub(crate) fn verdicts(&self) -> &[u64]
        ensures { result.now ≡ self.now.verdicts }
    {
        &self.verdicts
    }

    /// Notices by their codes, from 32 on.
    pub(crate) fn notices(&self) -> &[u64]
        ensures { result.now ≡ self.now.notices }
    {
        &self.notices
    }
}

/// Raises the count at a place by one; none, if there is no such place.
fn raise(counts: &mut [u64], place: usize)
    ensures { counts.new ≡ raised_at place counts.old }
{
    if place < counts.len() {
        counts[place] = counts[place].saturating_add(1);
    }
}

/// The place of the count of a request.
fn request_kind(request: &RequestRef<'_>) -> usize
    ensures { result ≡ request_kind (meaning request.now) }
{
    match request {
        RequestRef::OpenTake { .. } => 0,
        RequestRef::Block { .. } => 1,
        RequestRef::Mark { .. } => 2,
        RequestRef::SetField { .. } => 3,
        RequestRef::CloseTake { .. } => 4,
    }
}

/// What a verdict says of its name.
fn change_by(is_stored: bool) -> Change
    ensures { result ≡ change_by is_stored }
{
    if is_stored {
        Change::Stored
    } else {
        Change::Refused
    }
}

/// Whether a notice says that the store failed.
fn is_delay(notice: Notice) -> bool
    ensures { result ≡ is_delay (notice_meaning notice) }
{
    notice == Notice::DelayedStore
}
