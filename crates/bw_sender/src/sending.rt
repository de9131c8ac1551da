//! The recorder's side of one exchange: what is sent, and then what is received.
ghost use Rattle.std.specs.Prelude.{◌≡◌, ◌≤◌, IsTrue, IfErr, OnOk, OnErr};
ghost use Rattle.bw_model.specs.Wire.{Second, last_number, is_frame, body, framed};
ghost use Rattle.bw_model.specs.Stream.{frames_bytes};
ghost use Rattle.bw_model.specs.World.{Sender as Defined};
ghost use Rattle.bw_stream.specs.Moves.{Writes, Begins};
ghost use Rattle.bw_sender.specs.Senders.{IsSender};
ghost use Rattle.bw_wire.specs.EncodedFrames.{said};
ghost use Rattle.bw_sender.specs.declared.send_fault.SendFault.TheVariants.{Write};
ghost use Rattle.bw_sender.specs.Batches.{pending_messages, batch_bytes, BreaksBatch, sends_failed};
ghost use Rattle.bw_sender.specs.Batches.{WritesMessages, WritesBatch, BreaksBytes, BreaksFrame};
ghost use Rattle.bw_sender.specs.Sent.{Exchanges, after_write};

use crate::hearing::hear_replies;
use crate::send_fault::SendFault;
use crate::sender::Sender;
use bw_model::{Name, Request};
use bw_stream::{Sink, Source, write_all};
use bw_wire::encode;
use std::alloc::Global;

/// The most requests without a verdict: as many as a sender's window holds.
pub(crate) const MOST_PENDING: usize = 16;

/// The frame that ends an exchange.
pub(crate) const BYE: [u8; 5] = [1, 0, 0, 0, 9];

/// Writes the messages that have no verdict, in the order of their numbers, and then `Bye`.
///
/// Each frame is written and dropped before the next is made. The writer isn't flushed.
///
/// # Errors
/// `Write`: a prefix of the frames was written. `Memory`: whole frames of the first messages.
///
/// # Not specified
/// - When memory is refused, and after how many messages.
/// - That what was written reaches anyone: the caller must flush the writer.
pub fn send_batch<W: Sink>(alloc: Global, sender: &Sender, writer: &mut W) -> Result<(), SendFault>
    ensures ok { (s : Defined) → IsSender s sender.now → OnOk result
        (WritesBatch s (W.written writer.old) (W.written writer.new)) }
    // At `Write` a beginning of the frames, exactly where the writer fails.
    ensures err { (s : Defined) → IsSender s sender.now → IfErr result (λ fault.
        BreaksBytes fault s (batch_bytes s) (W.written writer.old) (W.written writer.new)) }
    ensures why { IfErr result BreaksBatch }
    ensures count { W.failures writer.new ≡ sends_failed result (W.failures writer.old) }
{
    send_pending(alloc, sender, writer)?;
    write_frame(writer, &BYE)
}

/// Writes the messages that have no verdict, in the order of their numbers.
///
/// # Errors
/// `Write`: a prefix of their frames was written. `Memory`: whole frames of the first of them.
fn send_pending<W: Sink>(alloc: Global, sender: &Sender, writer: &mut W) -> Result<(), SendFault>
    ensures ok { (s : Defined) → IsSender s sender.now → OnOk result
        (WritesMessages (pending_messages s) (W.written writer.old) (W.written writer.new)) }
    ensures err { (s : Defined) → IsSender s sender.now → IfErr result (λ fault.
        BreaksBytes fault s (frames_bytes (pending_messages s)) (W.written writer.old)
        (W.written writer.new)) }
    ensures why { IfErr result BreaksBatch }
    ensures count { W.failures writer.new ≡ sends_failed result (W.failures writer.old) }
{
    for place in 0..MOST_PENDING {
        let Some((number, request)) = sender.pending(place) else {
            break;
        };
        send_message(alloc, sender.name(), number, request, writer)?;
    }
    Ok(())
}

/// Writes a request's message.
///
/// # Errors
/// `Write`: a prefix of its frame was written. `Memory`: nothing.
pub(crate) fn send_message<W: Sink>(
    alloc: Global,
    name: &Name,
    number: u32,
    request: &Request,
    writer: &mut W,
) -> Result<(), SendFault>
    requires number { number ≤ last_number Second }
    ensures ok { OnOk result (Writes (W.written writer.old)
        (framed (body (said name.now number request.now))) (W.written writer.new)) }
    ensures fits { OnOk result (IsTrue (is_frame Second (said name.now number request.now))) }
    ensures err { IfErr result (λ fault. BreaksFrame fault
        (framed (body (said name.now number request.now))) (W.written writer.old)
        (W.written writer.new)) }
    ensures why { IfErr result BreaksBatch }
    ensures count { W.failures writer.new ≡ sends_failed result (W.failures writer.old) }
{
    let Ok(frame) = encode(alloc, name, number, &request.as_ref()) else {
        return Err(SendFault::Memory);
    };
    write_frame(writer, frame.as_slice())
}

/// Writes a whole frame.
///
/// # Errors
/// `Write`: a prefix of it was written.
pub(crate) fn write_frame<W: Sink>(writer: &mut W, frame: &[u8]) -> Result<(), SendFault>
    ensures ok { OnOk result (Writes (W.written writer.old) frame.now (W.written writer.new)) }
    ensures err { OnErr result (Begins (W.written writer.old) frame.now (W.written writer.new)) }
    ensures why { IfErr result (λ fault. fault ≡ Write) }
    ensures count { W.failures writer.new ≡ sends_failed result (W.failures writer.old) }
{
    match write_all(writer, frame) {
        Ok(()) => Ok(()),
        Err(_failed) => Err(SendFault::Write),
    }
}

/// One exchange of a recorder: what has no verdict is sent, and then the replies are received.
///
/// If the writer fails, the replies are still received: what came through before has its verdicts,
/// and over a link that breaks again and again nothing would ever be settled otherwise.
///
/// # Errors
/// Why it broke off. Received replies are counted. `Memory` takes precedence over `Write`; if
/// memory was refused for the batch, nothing is read.
///
/// # Not specified
/// - When memory is refused.
/// - From the result, whether anything was sent or received before: only reader and sender show it.
/// - Whether `Write` hides how receiving ended: `BadReply`, `Read` and `TurnLimit` after a failed
///   write are returned as `Write`.
pub fn send_exchange<R: Source, W: Sink>(
    alloc: Global,
    sender: &mut Sender,
    reader: &mut R,
    writer: &mut W,
) -> Result<(), SendFault>
    ensures { Exchanges R.Source W.Sink result sender.old sender.new reader.old reader.new
        writer.old writer.new }
{
    match send_batch(alloc, sender, writer) {
        Ok(()) => hear_replies(alloc, sender, reader),
        Err(SendFault::Write) => end_after_write(hear_replies(alloc, sender, reader)),
        Err(fault) => Err(fault),
    }
}

/// How an exchange ends whose batch broke off at a write.
fn end_after_write(hearing: Result<(), SendFault>) -> Result<(), SendFault>
    ensures { result ≡ after_write hearing }
{
    match hearing {
        Err(SendFault::Memory) => Err(SendFault::Memory),
        _ => Err(SendFault::Write),
    }
}
