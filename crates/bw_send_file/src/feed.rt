//! The requests of a recording's file, one after another.
ghost use Rattle.std.specs.Prelude.{◌≡◌, List, Option, Some, IfOk, IfErr, OnOk};
ghost use Rattle.bw_model.specs.Take.{Request as Message};
ghost use Rattle.bw_model.specs.World.{is_close as is_closing};
ghost use Rattle.bw_model.specs.Requests.{meaning};
ghost use Rattle.bw_ports.specs.declared.recording_files.FileStamp.{FileStamp as StampValue};
ghost use Rattle.bw_send_file.specs.FileFeeds.{AreToCome, FeedState, GivesOfFile, IsLookFault};
ghost use Rattle.bw_send_file.specs.FileFeeds.{RefusesCopy, fault_reading_on};

use crate::fault::FeedFault;
use bw_inspect::{InspectFault, InspectKind};
use bw_model::{Request, RequestRef};
use bw_plan::Plan;
use bw_ports::{FileStamp, Stamped};
use bw_stream::Source;
use bw_upload::{Feed, Given};
use std::alloc::Global;

/// Gives the requests of a recording's file. Before CLOSE it looks at the file again, and gives no
/// CLOSE if its length or its time of change is another one. It holds one block.
#[derive(Drop)]
pub struct PlanFeed<R, S> {
    pub(crate) alloc: Global,
    pub(crate) plan: Plan,
    /// Is at the place of the next block.
    pub(crate) reader: R,
    pub(crate) stamped: S,
    /// The stamp that the file had before it was opened.
    pub(crate) stamp: FileStamp,
}

impl<R: Source + Drop, S: Stamped + Drop> PlanFeed<R, S> {
    ghost use Rattle.bw_send_file.specs.FileFeeds.{IsLookedAt};
    ghost use Rattle.bw_send_file.specs.FileLooks.{LooksAt};
    ghost use Rattle.bw_send_file.specs.PlanFeeds.{feed_stamp};

    /// Gives the requests of a plan whose reader is where the next block is, of a file that
    /// had this stamp before it was opened.
    pub fn new(alloc: Global, plan: Plan, reader: R, stamped: S, stamp: FileStamp) -> PlanFeed<R, S>
        ensures left { (requests : List Message) → AreToCome (R.left reader) plan requests →
            ⟦<PlanFeed<R, S> as Feed>⟧.left result requests }
        ensures looks { (reported : Option StampValue) →
            IsLookedAt reported (S.stamp_of stamped) stamp → LooksAt S.Stamped reported result }
    {
        PlanFeed {
            alloc,
            plan,
            reader,
            stamped,
            stamp,
        }
    }

    /// The stamp that the file had before it was opened.
    pub fn stamp(&self) -> FileStamp
        ensures { result ≡ feed_stamp self.now }
    {
        self.stamp
    }
}

impl<R: Source + Drop, S: Stamped + Drop> Feed for PlanFeed<R, S> {
    ghost use Rattle.bw_send_file.specs.PlanFeeds.{feed_plan, feed_reader, feed_state};

    type Fault = FeedFault;

    ghost left = { λ f requests. AreToCome (R.left (feed_reader f)) (feed_plan f) requests };

    ghost gives = { λ f given g. GivesOfFile
        (feed_state R.left S.stamp_of f) given (feed_state R.left S.stamp_of g) };

    fn next(&mut self) -> Result<Given, FeedFault> {
        let Some(next) = self.plan.request() else {
            return Ok(Given::End);
        };
        let request = copy_of(self.alloc, &next)?;
        if is_close(&request) {
            look_again(&mut self.stamped, &self.stamp)?;
        }
        match self.plan.advance(&mut self.reader) {
            Ok(()) => Ok(Given::Request(request)),
            Err(fault) => Err(reading_on(fault)),
        }
    }
}

/// An owned copy of a request.
///
/// # Errors
/// Unsendable if it doesn't fit in a message; Memory.
fn copy_of(alloc: Global, request: &RequestRef<'_>) -> Result<Request, FeedFault>
    ensures ok { IfOk result (λ r. r ≡ meaning request.now) }
    ensures err { IfErr result (λ f. RefusesCopy (meaning request.now) f) }
{
    if !request.fits() {
        return Err(FeedFault::Unsendable);
    }
    match request.to_request(alloc) {
        Ok(copy) => Ok(copy),
        Err(_) => Err(FeedFault::Memory),
    }
}

/// Whether a request closes the take.
pub fn is_close(request: &Request) -> bool
    ensures { result ≡ is_closing request.now }
{
    match request.as_ref() {
        RequestRef::OpenTake { .. } => false,
        RequestRef::Block { .. } => false,
        RequestRef::Mark { .. } => false,
        RequestRef::SetField { .. } => false,
        RequestRef::CloseTake { .. } => true,
    }
}

/// Looks at a file again.
///
/// # Errors
/// Changed if its stamp isn't the first one; Unstamped if the system can't report it.
fn look_again<S: Stamped>(stamped: &mut S, first: &FileStamp) -> Result<(), FeedFault>
    ensures kept { S.stamp_of stamped.new ≡ S.stamp_of stamped.old }
    ensures ok { OnOk result ((now : StampValue) → S.stamp_of stamped.old ≡ Some now → now ≡ first.now) }
    ensures err { IfErr result (λ f. IsLookFault (S.stamp_of stamped.old) first.now f) }
{
    match stamped.stamp() {
        Ok(now) => same_as(now, *first),
        Err(error) => Err(FeedFault::Unstamped(error)),
    }
}

/// # Errors
/// Changed if the stamps differ.
fn same_as(now: FileStamp, first: FileStamp) -> Result<(), FeedFault>
    ensures ok { OnOk result (now ≡ first) }
    ensures err { IfErr result (λ f. IsLookFault (Some now) first f) }
{
    if now.len == first.len && now.changed == first.changed {
        return Ok(());
    }
    Err(FeedFault::Changed)
}

/// Why a file gives no more requests, where its plan has this fault.
fn reading_on(fault: InspectFault) -> FeedFault
    ensures { result ≡ fault_reading_on fault }
{
    match fault.kind {
        InspectKind::Read => FeedFault::Unread(fault),
        InspectKind::Memory => FeedFault::Memory,
        _ => FeedFault::Changed,
    }
}
