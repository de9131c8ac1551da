//! A link that is kept: what a sender sends over it, piece by piece, and what it receives.
ghost use Rattle.std.specs.Prelude.{◌≡◌, ◌+◌, ◌≤◌, List, [], ◌∷◌, length, vec_len};
ghost use Rattle.std.specs.Prelude.{IfOk, IfErr, OnOk, OnErr};
ghost use Rattle.bw_model.specs.Replies.{Reply as Answer};
ghost use Rattle.bw_model.specs.World.{Sender as Defined};
ghost use Rattle.bw_model.specs.Wire.{Second, last_number};
ghost use Rattle.bw_sender.specs.Senders.{IsSender};
ghost use Rattle.bw_wire.specs.Codecs.{reply_codec};
ghost use Rattle.bw_wire.specs.Held.{longest_piece};
ghost use Rattle.bw_wire.specs.FramerStates.{Nothing, next_of};
ghost use Rattle.bw_sender.specs.declared.send_fault.SendFault.TheVariants.{BadReply};
ghost use Rattle.bw_sender.specs.Batches.{BreaksBatch, WritesMessages, messages, sends_failed};
ghost use Rattle.bw_sender.specs.Hears.{ReportsFault};
ghost use Rattle.bw_sender.specs.SaidMessages.{numbered_from, unsaid_messages, BreaksOffSaying};
ghost use Rattle.bw_sender.specs.LinkReplies.{HearsThese, HearsNext, NotesStop, ShortensIfHeard};
ghost use Rattle.bw_sender.specs.Stops.{first_of};
ghost use Rattle.bw_sender.specs.LinkReplies.{PartsWith};

use crate::hearing::{end_of_input, read_piece};
use crate::send_fault::SendFault;
use crate::sender::Sender;
use crate::sending::{BYE, MOST_PENDING, send_message, write_frame};
use crate::stop::{Stop, stop_by};
use bw_exchange::MOST_READS;
use bw_model::{Name, Request};
use bw_stream::{Sink, Source};
use bw_wire::ReplyFramer;
use std::alloc::{AllocError, Global};

/// The longest piece of replies that is read, in bytes.
pub(crate) const PIECE: usize = 65_536;

/// Where the last piece may begin, in bytes from the link's start, so that none is fed past 2^62.
const LAST_PIECE: u64 = 4_611_686_018_427_322_368;

/// What a piece of a link's bytes brought.
#[derive(Clone, Copy, Debug, PartialEq, Eq)]
pub enum Listened {
    /// Replies, or parts of them; and the first that stops a talk, if there was one.
    Heard(Option<Stop>),
    /// No more will come.
    Ended,
}

/// What was next among the replies that are there.
#[derive(Clone, Copy)]
pub(crate) enum NextReply {
    /// A reply, and how it stops the talk if it does.
    Heard(Option<Stop>),
    /// No whole reply is left.
    NoneLeft,
}

/// A sender's talk with a server over one link.
///
/// It holds a buffer of 65,536 bytes, and at most 46 bytes of a reply that isn't whole yet, in a
/// block of at most 65,618.
#[derive(Drop)]
pub struct Talk {
    pub(crate) framer: ReplyFramer,
    pub(crate) buffer: Vec<u8>,
    /// The first number that wasn't said over this link.
    pub(crate) next: u32,
    ghost long: { vec_len buffer ≡ longest_piece },
}

impl Talk {
    ghost use Rattle.bw_sender.specs.Talks.{HasHeard, Listens, first_unsaid, talk_pending};

    /// A talk in which nothing was said or heard yet.
    ///
    /// # Errors
    /// `AllocError` if memory was refused.
    pub fn new(alloc: Global) -> Result<Talk, AllocError>
        ensures next { IfOk result (λ t. first_unsaid t ≡ 0) }
        ensures heard { IfOk result (λ t. HasHeard [] [] t) }
    {
        Ok(Talk {
            framer: ReplyFramer::new(alloc),
            buffer: Vec::from_elem(alloc, 0u8, PIECE)?,
            next: 0,
        })
    }

    /// Writes the messages that have no verdict and weren't written over this link yet, in the
    /// order of their numbers. Nothing flushes them.
    ///
    /// # Errors
    /// `Write`: a prefix of the frames was written. `Memory`: whole frames of the first messages.
    /// Nothing more can be said over this link.
    ///
    /// # Not specified
    /// When memory is refused, and after how many messages.
    pub fn say<W: Sink>(
        &mut self,
        alloc: Global,
        sender: &Sender,
        writer: &mut W,
    ) -> Result<(), SendFault>
        ensures ok { (s : Defined) → IsSender s sender.now → OnOk result
            (WritesMessages (unsaid_messages s (first_unsaid self.old))
            (W.written writer.old) (W.written writer.new)) }
        ensures next { (s : Defined) → IsSender s sender.now → OnOk result
            (first_unsaid self.new ≡ length s.offered) }
        // At `Write` a beginning of the frames, exactly where the writer fails.
        ensures err { (s : Defined) → IsSender s sender.now → IfErr result (λ fault.
            BreaksOffSaying fault (unsaid_messages s (first_unsaid self.old))
            (W.written writer.old) (W.written writer.new)) }
        ensures why { IfErr result BreaksBatch }
        ensures count { W.failures writer.new ≡ sends_failed result (W.failures writer.old) }
        ensures heard { talk_pending self.new ≡ talk_pending self.old }
    {
        let next = self.next;
        say_from(alloc, sender, next, writer)?;
        self.next = sender.offered();
        Ok(())
    }

    /// Reads the next piece, and has all its whole replies counted.
    ///
    /// # Errors
    /// `Read` if the reader failed; `BadReply` if bytes are no reply's frame, or the input ended
    /// inside one; `Memory` if memory was refused, and the piece is lost; `TurnLimit` if so many
    /// bytes were read that the next piece could end past 2^62. Nothing more can be heard over this
    /// link.
    pub fn listen<R: Source>(
        &mut self,
        sender: &mut Sender,
        reader: &mut R,
    ) -> Result<Listened, SendFault>
        // The first reply that stops the talk (such as Conflict or TableFull) is reported.
        ensures listens { Listens R.Source result self.old self.new sender.old sender.new
            reader.old reader.new }
        ensures said { first_unsaid self.new ≡ first_unsaid self.old }
    {
        if self.framer.fed() > LAST_PIECE {
            return Err(SendFault::TurnLimit);
        }
        if !read_piece(&mut self.framer, reader, self.buffer.as_mut_slice())? {
            return end_of_talk(&self.framer);
        }
        let stop = hear_whole(sender, &mut self.framer)?;
        Ok(Listened::Heard(stop))
    }

    /// Ends the talk: writes `Bye`, and then reads what still comes, which is dropped. If the
    /// writer fails, nothing is read.
    ///
    /// # Not specified
    /// What is read.
    pub fn part<R: Source, W: Sink>(self, reader: &mut R, writer: &mut W)
        ensures { PartsWith W.Sink writer.old writer.new }
    {
        let mut talk = self;
        if let Ok(()) = write_frame(writer, &BYE) {
            read_out(reader, talk.buffer.as_mut_slice());
        }
    }
}

/// Writes the messages from this number on that have no verdict, in the order of their numbers.
///
/// # Errors
/// `Write`: a prefix of their frames was written. `Memory`: whole frames of the first of them.
fn say_from<W: Sink>(
    alloc: Global,
    sender: &Sender,
    next: u32,
    writer: &mut W,
) -> Result<(), SendFault>
    ensures ok { (s : Defined) → IsSender s sender.now → OnOk result
        (WritesMessages (unsaid_messages s next) (W.written writer.old) (W.written writer.new)) }
    ensures err { (s : Defined) → IsSender s sender.now → IfErr result (λ fault.
        BreaksOffSaying fault (unsaid_messages s next)
        (W.written writer.old) (W.written writer.new)) }
    ensures why { IfErr result BreaksBatch }
    ensures count { W.failures writer.new ≡ sends_failed result (W.failures writer.old) }
{
    for place in 0..MOST_PENDING {
        let Some((number, request)) = sender.pending(place) else {
            break;
        };
        say_unless_said(alloc, sender.name(), next, number, request, writer)?;
    }
    Ok(())
}

/// Writes a request's message, unless its number is below `next`.
///
/// # Errors
/// `Write`: a prefix of its frame was written. `Memory`: nothing.
fn say_unless_said<W: Sink>(
    alloc: Global,
    name: &Name,
    next: u32,
    number: u32,
    request: &Request,
    writer: &mut W,
) -> Result<(), SendFault>
    requires number { number ≤ last_number Second }
    ensures ok { OnOk result (WritesMessages
        (messages name.now (numbered_from next ((number, request.now) ∷ [])))
        (W.written writer.old) (W.written writer.new)) }
    ensures err { IfErr result (λ fault. BreaksOffSaying fault
        (messages name.now (numbered_from next ((number, request.now) ∷ [])))
        (W.written writer.old) (W.written writer.new)) }
    ensures why { IfErr result BreaksBatch }
    ensures count { W.failures writer.new ≡ sends_failed result (W.failures writer.old) }
{
    if number < next {
        return Ok(());
    }
    send_message(alloc, name, number, request, writer)
}

/// That no more will come, if the input may end here.
///
/// # Errors
/// `BadReply` if it may not.
fn end_of_talk(framer: &ReplyFramer) -> Result<Listened, SendFault>
    ensures ok { IfOk result (λ listened. listened ≡ Listened.Ended) }
    ensures why { IfErr result (λ fault. fault ≡ BadReply) }
{
    match end_of_input(framer) {
        Ok(()) => Ok(Listened::Ended),
        Err(_fault) => Err(SendFault::BadReply),
    }
}

/// Takes out all whole replies, one by one, and has them counted. Returns the first that stops the
/// talk.
///
/// # Errors
/// `BadReply` if what follows them is no reply.
fn hear_whole(sender: &mut Sender, framer: &mut ReplyFramer) -> Result<Option<Stop>, SendFault>
    ensures hears { (heard : List Answer)
        × HearsThese heard sender.old sender.new framer.old framer.new
        × IfOk result (λ stop. NotesStop stop heard sender.old) }
    ensures none { OnOk result ((next_of reply_codec framer.new).0 ≡ Nothing) }
    ensures bad { OnErr result (ReportsFault framer.new) }
    ensures why { IfErr result (λ fault. fault ≡ BadReply) }
{
    let mut first = None;
    while let NextReply::Heard(stop) = hear_one(sender, framer)? {
        first = earlier(first, stop);
    }
    Ok(first)
}

/// The first of two, if there is one.
fn earlier(first: Option<Stop>, then: Option<Stop>) -> Option<Stop>
    ensures { result ≡ first_of first then }
{
    match first {
        Some(stop) => Some(stop),
        None => then,
    }
}

/// Takes out the next reply, if it is whole, and has it counted. Returns whether it stops the talk.
///
/// # Errors
/// `BadReply` if what is next is no reply.
fn hear_one(sender: &mut Sender, framer: &mut ReplyFramer) -> Result<NextReply, SendFault>
    ensures hears { HearsNext result sender.old sender.new framer.old framer.new }
    ensures some { IfOk result (λ next. ShortensIfHeard next framer.old framer.new) }
    ensures bad { OnErr result (ReportsFault framer.new) }
    ensures why { IfErr result (λ fault. fault ≡ BadReply) }
{
    match framer.next_frame() {
        Ok(None) => Ok(NextReply::NoneLeft),
        Ok(Some(reply)) => {
            let heard = sender.on_reply(&reply);
            Ok(NextReply::Heard(stop_by(heard, &reply)))
        }
        Err(_fault) => Err(SendFault::BadReply),
    }
}

/// Reads to the end of the input, and drops what comes.
fn read_out<R: Source>(reader: &mut R, buffer: &mut [u8]) {
    for _read in 0..MOST_READS {
        match reader.read(buffer) {
            Ok(0) => return,
            Ok(_count) => (),
            Err(_failed) => return,
        }
    }
}
