//! The replies of one exchange, received by a sender.
ghost use Rattle.std.specs.Prelude.{◌≡◌, ◌+◌, ◌≤◌, ◌<◌, length, true, false, None, is_some};
ghost use Rattle.std.specs.Prelude.{IsTrue, IfOk, IfErr, OnOk, OnErr, Err};
ghost use Rattle.bw_model.specs.Wire.{are_bytes};
ghost use Rattle.bw_stream.specs.Moves.{one_more};
ghost use Rattle.bw_wire.specs.Codecs.{reply_codec};
ghost use Rattle.bw_wire.specs.Held.{longest_piece, longest_stream};
ghost use Rattle.bw_wire.specs.FramerStates.{Nothing, next_of, with_piece, end_fault};
ghost use Rattle.bw_sender.specs.declared.send_fault.SendFault.TheVariants.{BadReply};
ghost use Rattle.bw_sender.specs.Hears.{Hears, hears_failed, IsHearingLimited, HearsMore};
ghost use Rattle.bw_sender.specs.Hears.{ReportsFault, ReadsReplies, StopsHearing};
ghost use Rattle.bw_exchange.specs.WholeExchanges.{most_reads};

use crate::send_fault::SendFault;
use crate::sender::Sender;
use crate::talk::PIECE;
use bw_exchange::MOST_READS;
use bw_stream::Source;
use bw_wire::ReplyFramer;
use std::alloc::{AllocError, Global};

/// Reads replies to the input's end, and has each counted before the next is taken.
///
/// # Errors
/// `Read` if the reader failed; `BadReply` if bytes are no reply's frame, or the input ended inside
/// one; `TurnLimit` after 2^32 reads, of 2^32 bytes or more; `Memory` if memory was refused. The
/// replies received before are counted.
///
/// # Not specified
/// - When memory is refused.
/// - Where the bad reply is in the stream, and its reason.
/// - How many bytes the reader counted, except at `TurnLimit`.
pub fn hear_replies<R: Source>(
    alloc: Global,
    sender: &mut Sender,
    reader: &mut R,
) -> Result<(), SendFault>
    // At the end all replies are counted; at a fault those before it, in order.
    ensures hears { Hears result sender.old sender.new (R.left reader.old) (R.left reader.new) }
    // A failed read is counted exactly at `Read`.
    ensures reads { R.failures reader.new ≡ hears_failed result (R.failures reader.old) }
    ensures calls { R.calls reader.new ≤ R.calls reader.old + most_reads }
    ensures limit { IsHearingLimited result (R.moved reader.old) (R.moved reader.new)
        (R.calls reader.old) (R.calls reader.new) }
{
    let mut framer = ReplyFramer::new(alloc);
    let Ok(mut buffer) = Vec::from_elem(alloc, 0u8, PIECE) else {
        return Err(SendFault::Memory);
    };
    for _read in 0..MOST_READS {
        if !read_piece(&mut framer, reader, buffer.as_mut_slice())? {
            return end_of_input(&framer);
        }
        hear_held(sender, &mut framer)?;
    }
    Err(SendFault::TurnLimit)
}

/// Reads the next piece and feeds it. Returns whether there was one; if not, the input has ended.
///
/// # Errors
/// `Read` and `Memory`.
pub(crate) fn read_piece<R: Source>(
    framer: &mut ReplyFramer,
    reader: &mut R,
    buffer: &mut [u8],
) -> Result<bool, SendFault>
    requires buffer { length buffer.old ≡ longest_piece }
    requires room { framer.old.fed + longest_piece ≤ longest_stream }
    ensures reads { IfOk result (λ some. ReadsReplies some (R.left reader.old) (R.left reader.new)
        (R.moved reader.old) (R.moved reader.new) framer.old framer.new) }
    ensures calls { R.calls reader.new ≡ one_more (R.calls reader.old) }
    ensures count { OnOk result (R.failures reader.new ≡ R.failures reader.old) }
    ensures stops { IfErr result (λ fault.
        StopsHearing fault (R.left reader.old) (R.left reader.new)) }
    ensures failed { IfErr result (λ fault.
        R.failures reader.new ≡ hears_failed (Err fault) (R.failures reader.old)) }
{
    let Ok(count) = reader.read(buffer) else {
        return Err(SendFault::Read);
    };
    if count == 0 {
        return Ok(false);
    }
    let Ok(()) = feed_piece(framer, &buffer[..count]) else {
        return Err(SendFault::Memory);
    };
    Ok(true)
}

/// Feeds a piece.
///
/// # Errors
/// `AllocError` if memory was refused.
fn feed_piece(framer: &mut ReplyFramer, piece: &[u8]) -> Result<(), AllocError>
    requires room { framer.old.fed + length piece.now ≤ longest_stream }
    ensures bytes { IsTrue (are_bytes piece.now) }
    ensures fed { OnOk result (framer.new ≡ with_piece framer.old piece.now) }
{
    framer.feed(piece)
}

/// Takes out all whole replies, one by one, and has them counted.
///
/// # Errors
/// `BadReply` if what follows them is no reply.
fn hear_held(sender: &mut Sender, framer: &mut ReplyFramer) -> Result<(), SendFault>
    ensures hears { HearsMore sender.old sender.new framer.old framer.new }
    ensures none { OnOk result ((next_of reply_codec framer.new).0 ≡ Nothing) }
    ensures bad { OnErr result (ReportsFault framer.new) }
    ensures why { IfErr result (λ fault. fault ≡ BadReply) }
{
    while hear_next(sender, framer)? {}
    Ok(())
}

/// Takes out the next reply, and has it counted. Returns whether there was one.
///
/// # Errors
/// `BadReply` if what is next is no reply.
fn hear_next(sender: &mut Sender, framer: &mut ReplyFramer) -> Result<bool, SendFault>
    ensures hears { HearsMore sender.old sender.new framer.old framer.new }
    ensures some { IfOk result (λ some. some ≡ true →
        length framer.new.bytes < length framer.old.bytes) }
    ensures none { IfOk result (λ some. some ≡ false →
        (next_of reply_codec framer.new).0 ≡ Nothing) }
    ensures bad { OnErr result (ReportsFault framer.new) }
    ensures why { IfErr result (λ fault. fault ≡ BadReply) }
{
    match framer.next_frame() {
        Ok(None) => Ok(false),
        Ok(Some(reply)) => {
            sender.on_reply(&reply);
            Ok(true)
        }
        Err(_fault) => Err(SendFault::BadReply),
    }
}

/// Whether the input may end here.
///
/// # Errors
/// `BadReply` if it may not.
pub(crate) fn end_of_input(framer: &ReplyFramer) -> Result<(), SendFault>
    ensures ok { OnOk result (end_fault framer.now ≡ None) }
    ensures bad { OnErr result (is_some (end_fault framer.now) ≡ true) }
    ensures why { IfErr result (λ fault. fault ≡ BadReply) }
{
    match framer.end() {
        Ok(()) => Ok(()),
        Err(_fault) => Err(SendFault::BadReply),
    }
}
