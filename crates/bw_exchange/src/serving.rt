//! One exchange over a reader and a writer, to its end.
ghost use Rattle.std.specs.Prelude.{◌≡◌, ◌⊎◌, ◌+◌, ◌≤◌, ◌<◌, [], length, true, false, IfErr, OnOk, OnErr};
ghost use Rattle.std.specs.Prelude.{is_some, IsTrue};
ghost use Rattle.bw_model.specs.Wire.{are_bytes};
ghost use Rattle.bw_stream.specs.Moves.{one_more, failures_after, Writes, Begins};
ghost use Rattle.bw_wire.specs.Held.{longest_message_piece, longest_stream};
ghost use Rattle.bw_exchange.specs.declared.serving.ExchangeEnd.TheVariants.{Memory};
ghost use Rattle.bw_exchange.specs.Parts.{wants_piece, end_of, waiting_in, pending_of};
ghost use Rattle.bw_exchange.specs.Bounds.{most_before_answer, most_in_batch, most_waiting};
ghost use Rattle.bw_exchange.specs.Done.{AnswersUpTo, DoesMore, IsIdle};
ghost use Rattle.bw_exchange.specs.WholeExchanges.{most_reads, reads_failed, writes_failed, IsLimited, Serves};
ghost use Rattle.bw_exchange.specs.Commits.{CommitsBatch, CommitsUntil, HasBatches, LosesBatch};
ghost use Rattle.bw_exchange.specs.Pieces.{FeedsNext, StopsReading, WritesAnswers, StopsWriting};

use crate::exchange::{Exchange, FeedError};
use crate::step::StreamEnd;
use crate::turns::{NotKept, Turns};
use bw_stream::{IoFailed, Sink, Source, write_all};
use bw_wire::WireFault;
use std::alloc::Global;

/// The longest piece of messages that is read, in bytes: sixteen of the longest frames, which a sender
/// may have on the way, so that their digests are computed at once and one commit is for all of them.
pub const MESSAGE_PIECE: usize = 524_960;

/// How many frames more than one are answered between two commits, at most.
const MOST_IN_BATCH: usize = 1 << 20;

/// The most reads of an exchange.
pub const MOST_READS: u64 = 1 << 32;

/// How an exchange ended.
#[derive(Clone, Copy, Debug, PartialEq, Eq)]
pub enum ExchangeEnd {
    /// The recorder sent `Bye`.
    Bye,
    /// The input ended after a frame.
    EndOfInput,
    /// A frame was bad, or was cut off by the input's end.
    BadFrame(WireFault),
    /// The reader failed.
    ReadFault,
    /// The writer failed.
    WriteFault,
    /// The server couldn't commit what it had answered.
    NotKept(NotKept),
    /// 2^32 reads were not enough.
    TurnLimit,
    /// Memory was refused.
    Memory,
}

impl From<StreamEnd> for ExchangeEnd {
    ghost use Rattle.bw_exchange.specs.WholeExchanges.{ended_by};

    ghost from_gives = { λ end result. result ≡ ended_by end };

    /// The end of the same name.
    fn from(end: StreamEnd) -> ExchangeEnd {
        match end {
            StreamEnd::Bye => ExchangeEnd::Bye,
            StreamEnd::EndOfInput => ExchangeEnd::EndOfInput,
            StreamEnd::BadFrame(fault) => ExchangeEnd::BadFrame(fault),
        }
    }
}

/// Serves one exchange to its end.
///
/// The frames of a piece are answered, as many as there is room for the replies to, then the server
/// commits them, and only then their replies are written. Bytes after `Bye` or a bad frame are
/// ignored.
///
/// `TurnLimit` is returned only after 2^32 reads, of 2^32 bytes or more.
///
/// At `ReadFault` and `TurnLimit` all whole frames that were read are answered, and their replies
/// written; at `Memory` those before the last piece; at `WriteFault` and `NotKept` at most 65,600
/// bytes of the replies aren't written.
///
/// # Not specified
/// - When memory is refused.
/// - Whether the writer was flushed.
/// - How many bytes the reader counted, except at `TurnLimit`.
pub fn serve_exchange<R: Source, W: Sink, T: Turns>(
    alloc: Global,
    server: &mut T,
    reader: &mut R,
    writer: &mut W,
) -> ExchangeEnd
    // What is written is the replies to these frames; at `WriteFault` and `NotKept` a beginning.
    ensures served { Serves T.answers result server.old server.new
        (R.left reader.old) (R.left reader.new) (W.written writer.old) (W.written writer.new) }
    ensures committed { T.committed server.old → T.committed server.new }
    // Frames are answered in batches, each followed by a commit; only at `NotKept` the last fails.
    ensures batches { CommitsUntil T.answers T.commits result server.old server.new }
    // A read is counted as failed exactly at `ReadFault`, a write at `WriteFault`.
    ensures reads { R.failures reader.new ≡ reads_failed result (R.failures reader.old) }
    ensures writes { W.failures writer.new ≡ writes_failed result (W.failures writer.old) }
    ensures calls { R.calls reader.new ≤ R.calls reader.old + most_reads }
    ensures limit { IsLimited result (R.moved reader.old) (R.moved reader.new)
        (R.calls reader.old) (R.calls reader.new) }
{
    let Ok(mut exchange) = Exchange::new(alloc) else {
        return ExchangeEnd::Memory;
    };
    let Ok(mut buffer) = Vec::from_elem(alloc, 0u8, MESSAGE_PIECE) else {
        return ExchangeEnd::Memory;
    };
    for _read in 0..MOST_READS {
        if let Err(end) = read_piece(&mut exchange, reader, buffer.as_mut_slice()) {
            return end;
        }
        if let Err(end) = answer_held(&mut exchange, server, writer) {
            return end;
        }
        if let Some(end) = exchange.end() {
            return ExchangeEnd::from(end);
        }
    }
    ExchangeEnd::TurnLimit
}

/// Reads the next piece and feeds it, or ends the exchange if the input has ended.
///
/// # Errors
/// `ReadFault` and `Memory`: the exchange is as it was.
fn read_piece<R: Source>(
    exchange: &mut Exchange,
    reader: &mut R,
    buffer: &mut [u8],
) -> Result<(), ExchangeEnd>
    requires wants_read { wants_piece exchange.old ≡ true }
    requires buffer { length buffer.old ≡ longest_message_piece }
    requires room { (pending_of exchange.old).fed + longest_message_piece ≤ longest_stream }
    ensures fed { OnOk result (FeedsNext (R.left reader.old) (R.left reader.new)
        (R.moved reader.old) (R.moved reader.new) exchange.old exchange.new) }
    ensures calls { R.calls reader.new ≡ one_more (R.calls reader.old) }
    ensures count { OnOk result (R.failures reader.new ≡ R.failures reader.old) }
    ensures stops { IfErr result (λ end.
        StopsReading end (R.left reader.old) (R.left reader.new)) }
    ensures failed { IfErr result (λ end.
        R.failures reader.new ≡ reads_failed end (R.failures reader.old)) }
    ensures unchanged { OnErr result (exchange.new ≡ exchange.old) }
{
    let Ok(count) = reader.read(buffer) else {
        return Err(ExchangeEnd::ReadFault);
    };
    if count == 0 {
        exchange.finish();
        return Ok(());
    }
    feed_piece(exchange, &buffer[..count])
}

/// Feeds a piece that isn't too long.
///
/// # Errors
/// `Memory`: the exchange is as it was.
fn feed_piece(exchange: &mut Exchange, piece: &[u8]) -> Result<(), ExchangeEnd>
    requires wants_read { wants_piece exchange.old ≡ true }
    requires short { length piece.now ≤ longest_message_piece }
    requires room { (pending_of exchange.old).fed + longest_message_piece ≤ longest_stream }
    ensures bytes { IsTrue (are_bytes piece.now) }
    ensures fed { OnOk result (DoesMore exchange.old piece.now [] [] exchange.new) }
    ensures end { OnOk result (end_of exchange.new ≡ end_of exchange.old) }
    ensures memory { IfErr result (λ end. end ≡ Memory) }
    ensures unchanged { OnErr result (exchange.new ≡ exchange.old) }
{
    match exchange.feed(piece) {
        Ok(()) => Ok(()),
        Err(FeedError::Memory) => Err(ExchangeEnd::Memory),
        // 2^32 reads of at most 524,960 bytes never exceed 2^62 bytes.
        Err(FeedError::TooLong) => unreachable!(),
    }
}

/// Has all whole frames answered, and writes their replies after each commit: as many frames as
/// there is room for are answered, then the server commits, then all that waits is written.
///
/// # Errors
/// `WriteFault` if the writer failed: only a prefix of what waited was written. `NotKept` if the
/// server could not commit: nothing of what waited is written.
fn answer_held<T: Turns, W: Sink>(
    exchange: &mut Exchange,
    server: &mut T,
    writer: &mut W,
) -> Result<(), ExchangeEnd>
    ensures answers { OnOk result (WritesAnswers T.answers server.old server.new
        (W.written writer.old) (W.written writer.new) exchange.old exchange.new) }
    ensures idle { OnOk result (IsIdle exchange.new) }
    ensures batches { OnOk result (HasBatches T.answers T.commits server.old server.new) }
    ensures until { IfErr result (λ end. CommitsUntil T.answers T.commits end server.old server.new) }
    ensures committed { T.committed server.old → T.committed server.new }
    ensures stops { IfErr result (λ end. StopsWriting T.answers end server.old server.new
        (W.written writer.old) (W.written writer.new) exchange.old) }
    ensures count { OnOk result (W.failures writer.new ≡ W.failures writer.old) }
    ensures failed { IfErr result (λ end.
        W.failures writer.new ≡ writes_failed end (W.failures writer.old)) }
{
    // If the input ended inside a frame, the reply to it waits.
    let Ok(()) = write_waiting(exchange, writer) else {
        return Err(ExchangeEnd::WriteFault);
    };
    while !exchange.is_idle() {
        if let Err(cause) = answer_batch(exchange, server) {
            return Err(ExchangeEnd::NotKept(cause));
        }
        let Ok(()) = write_waiting(exchange, writer) else {
            return Err(ExchangeEnd::WriteFault);
        };
    }
    Ok(())
}

/// Has as many whole frames answered as there is room for, and commits them.
///
/// # Errors
/// `NotKept` if the server could not commit them.
fn answer_batch<T: Turns>(exchange: &mut Exchange, server: &mut T) -> Result<(), NotKept>
    requires room { length (waiting_in exchange.old) ≤ most_before_answer }
    requires open { is_some (end_of exchange.old) ≡ false }
    ensures answers { AnswersUpTo T.answers most_in_batch server.old server.new exchange.old exchange.new }
    ensures batch { OnOk result (CommitsBatch T.answers T.commits server.old server.new) }
    ensures lost { IfErr result (λ cause.
        LosesBatch T.answers T.commits cause server.old server.new) }
    ensures few { length (waiting_in exchange.new) ≤ most_waiting }
    ensures progress { IsIdle exchange.new
        ⊎ (length (pending_of exchange.new).bytes < length (pending_of exchange.old).bytes) }
    ensures committed { T.committed server.old → T.committed server.new }
{
    if !exchange.answer_one(server) {
        return Ok(());
    }
    exchange.answer(server, MOST_IN_BATCH);
    server.commit()
}

/// Writes all that waits.
///
/// # Errors
/// `IoFailed` if the writer failed: a prefix of what waits was written.
fn write_waiting<W: Sink>(exchange: &mut Exchange, writer: &mut W) -> Result<(), IoFailed>
    ensures done { OnOk result (DoesMore exchange.old [] [] (waiting_in exchange.old)
        exchange.new) }
    ensures none { OnOk result (waiting_in exchange.new ≡ []) }
    ensures few { length (waiting_in exchange.old) ≤ most_waiting }
    ensures end { end_of exchange.new ≡ end_of exchange.old }
    ensures wants_read { wants_piece exchange.new ≡ wants_piece exchange.old }
    ensures framer { pending_of exchange.new ≡ pending_of exchange.old }
    ensures ok { OnOk result (Writes (W.written writer.old) (waiting_in exchange.old)
        (W.written writer.new)) }
    ensures err { OnErr result (Begins (W.written writer.old) (waiting_in exchange.old)
        (W.written writer.new)) }
    ensures count { W.failures writer.new ≡ failures_after result (W.failures writer.old) }
{
    let count = exchange.outgoing().len();
    write_all(writer, exchange.outgoing())?;
    exchange.consumed(count);
    Ok(())
}
