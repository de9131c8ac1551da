//! Which number a server expects next under a name.
ghost use Rattle.std.specs.Prelude.{◌≡◌, ◌∷◌, [], IfSome, IfOk, IfErr, length};
ghost use Rattle.bw_exchange.specs.WholeExchanges.{HasGiven};
ghost use Rattle.bw_send_file.specs.Asks.{AnswersAsk, AsksServer, DialsToAsk, GivesReply};
ghost use Rattle.bw_send_file.specs.Asks.{SaysNext, WaitsToAsk, WritesAsk};
ghost use Rattle.bw_send_file.specs.FilesSentOn.{ways};
ghost use Rattle.bw_send_file.specs.declared.asking.NotAsked.TheVariants.{Memory};
ghost use Rattle.bw_wire.specs.Replies.{reply_of};

use bw_model::{Name, read_u32};
use bw_ports::{Dial, Duplex, Pause};
use bw_stream::{Sink, Source, write_all};
use bw_upload::backoff::{backoff, is_spent};
use bw_wire::{Notice, Reply, decode_reply, encode_ask};
use std::alloc::Global;

/// The frame that ends an exchange.
const BYE: [u8; 5] = [1, 0, 0, 0, 9];

/// The longest body of a reply, in bytes.
const LONGEST_REPLY: u32 = 43;

/// Why a server has not said which number it expects.
#[derive(Clone, Copy, Debug, PartialEq, Eq)]
pub enum NotAsked {
    /// As many links in a row as are allowed brought no answer.
    Fruitless,
    /// Memory was refused.
    Memory,
}

/// Asks a server which number it expects next under a name: over a link of its own, and where that
/// brings no answer, over the next one, after the waits that `upload` makes.
///
/// # Errors
/// Fruitless after as many links without an answer as `most`, if it is given; Memory.
///
/// # Not specified
/// When memory is refused, and when a link can't be made.
pub fn ask_server<P: Pause, D: Dial>(
    alloc: Global,
    name: &Name,
    most: Option<u32>,
    pause: &mut P,
    dial: &mut D,
) -> Result<u32, NotAsked>
    // Over each link the ask and a BYE are written, and nothing else.
    ensures { AsksServer P.Pause D.Dial D.Reader.Source D.Writer.Sink name.now most result
        (ways pause.old dial.old) (ways pause.new dial.new) }
{
    for fruitless in 0..u64::MAX {
        if is_spent(most, fruitless) {
            return Err(NotAsked::Fruitless);
        }
        wait_to_ask(fruitless, pause);
        match ask_once(alloc, name, dial)? {
            Some(next) => return Ok(next),
            None => {}
        }
    }
    Err(NotAsked::Fruitless)
}

/// Waits before the next link, unless it is the first.
fn wait_to_ask<P: Pause>(fruitless: u64, pause: &mut P)
    ensures { WaitsToAsk P.Pause fruitless pause.old pause.new }
{
    if fruitless > 0 {
        pause.pause(backoff(fruitless));
    }
}

/// Asks over one link. None if there is no answer.
///
/// # Errors
/// Memory: no link was asked for.
fn ask_once<D: Dial>(alloc: Global, name: &Name, dial: &mut D) -> Result<Option<u32>, NotAsked>
    ensures ok { IfOk result (λ answer. DialsToAsk D.Dial D.Reader.Source D.Writer.Sink name.now
        answer dial.old dial.new) }
    ensures err { IfErr result (λ e. (e ≡ Memory) × (dial.new ≡ dial.old)) }
{
    let Ok(frame) = encode_ask(alloc, name, 0) else {
        return Err(NotAsked::Memory);
    };
    match dial.dial() {
        Ok(link) => Ok(ask_over(alloc, name, frame.as_slice(), link)),
        Err(_fault) => Ok(None),
    }
}

/// Asks over a link, which isn't used any more.
fn ask_over<R: Source + Drop, W: Sink + Drop>(
    alloc: Global,
    name: &Name,
    frame: &[u8],
    link: Duplex<R, W>,
) -> Option<u32>
    ensures answer { IfSome result (λ next. AnswersAsk name.now next (R.left link.reader)) }
    ensures writes { WritesAsk W.Sink frame.now link.writer }
{
    let mut link = link;
    match write_all(&mut link.writer, frame) {
        Ok(()) => {}
        Err(_failed) => return None,
    }
    let reply = read_reply(alloc, &mut link.reader)?;
    let _ = write_all(&mut link.writer, &BYE);
    next_in(name, &reply)
}

/// The number that a reply says is expected next under a name, if it says that.
fn next_in(name: &Name, reply: &Reply) -> Option<u32>
    ensures { IfSome result (λ next. SaysNext name.now next (reply_of reply.now)) }
{
    match reply {
        Reply::Notice {
            name: of,
            number: _number,
            code: Notice::Next,
            next,
        } if *of == *name => Some(*next),
        _ => None,
    }
}

/// The next reply; None if there is none, or it isn't whole, or spells none.
fn read_reply<R: Source>(alloc: Global, reader: &mut R) -> Option<Reply>
    ensures { IfSome result (λ reply. GivesReply (reply_of reply) (R.left reader.old)) }
{
    let head = read_bytes(alloc, reader, 4)?;
    let len = read_u32(head.as_slice(), 0);
    if len > LONGEST_REPLY {
        return None;
    }
    let body = read_bytes(alloc, reader, len)?;
    match decode_reply(body.as_slice()) {
        Ok(reply) => Some(reply),
        Err(_reason) => None,
    }
}

/// The next `count` bytes; None if there are fewer, a read fails, or memory is refused.
fn read_bytes<R: Source>(alloc: Global, reader: &mut R, count: u32) -> Option<Vec<u8>>
    ensures given { IfSome result (λ bytes.
        HasGiven (R.left reader.old) bytes.items (R.left reader.new)) }
    ensures many { IfSome result (λ bytes. length bytes.items ≡ count) }
{
    let mut bytes = Vec::new(alloc);
    for _place in 0..count {
        let byte = read_byte(reader)?;
        if bytes.push(byte).is_err() {
            return None;
        }
    }
    Some(bytes)
}

/// The next byte; None if there is none, or the read fails.
fn read_byte<R: Source>(reader: &mut R) -> Option<u8>
    ensures { IfSome result (λ byte. HasGiven (R.left reader.old) (byte ∷ []) (R.left reader.new)) }
{
    let mut byte = [0u8; 1];
    let Ok(count) = reader.read(&mut byte) else {
        return None;
    };
    if count == 0 {
        return None;
    }
    Some(byte[0])
}
