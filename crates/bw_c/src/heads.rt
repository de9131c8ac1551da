//! The heads of a sender's messages, an ask and the end, each put into the caller's memory.
//!
//! Each call returns how many bytes it put there, or 0, after which nothing changed. After a head come the
//! bytes that its request carries: a history, samples or a value.
ghost use Rattle.std.specs.Prelude.{◌≡◌, ◌≤◌, ◌<◌, ◌↔◌, length, take, drop, IsTrue};
ghost use Rattle.bw_model.specs.Take.{Open, Block, Mark, SetField, Close};
ghost use Rattle.bw_model.specs.Wire.{Second, last_number, Asks, Bye, is_request};
ghost use Rattle.bw_model.specs.Requests.{meaning};
ghost use Rattle.bw_c.specs.Heads.{has_place, CanWrite, WroteHead, CanSpell, WroteFrame};
ghost use Rattle.bw_c.specs.PlainSenders.{sender_name};

use crate::head::{ask_of, bye_of, head_of};
use crate::sender::{BwiSender, NUMBERS, SLOTS, name_bytes};
use arrayvec::ArrayVec;
use bw_model::{Name, RequestRef};

/// Offers an OPEN (Hz, samples per frame, bits per sample, and a coding history of at most 4,096 bytes), and
/// puts its head, of at most 52 bytes, into `out`.
#[unsafe(no_mangle)]
pub extern "C" fn bwi_open_head(
    sender: &mut BwiSender,
    rate: u32,
    channels: u16,
    bits: u16,
    history: &[u8],
    out: &mut [u8],
) -> usize
    ensures wrote { 0 < result → WroteHead sender.old
        (Open (record { rate = rate; channels = channels; bits = bits }) history.now)
        out.old sender.new out.new result }
    ensures some { 0 < result ↔ CanWrite sender.old
        (Open (record { rate = rate; channels = channels; bits = bits }) history.now) (length out.old) }
    ensures none { result ≡ 0 → (sender.new ≡ sender.old) × (out.new ≡ out.old) }
{
    let request = RequestRef::OpenTake {
        rate,
        channels,
        bits,
        history,
    };
    put_head(sender, &request, out)
}

/// Offers a block of 1 to 32,768 bytes of samples, and puts its head, of at most 42 bytes, into `out`.
#[unsafe(no_mangle)]
pub extern "C" fn bwi_block_head(sender: &mut BwiSender, samples: &[u8], out: &mut [u8]) -> usize
    ensures wrote { 0 < result → WroteHead sender.old (Block samples.now) out.old sender.new
        out.new result }
    ensures some { 0 < result ↔ CanWrite sender.old (Block samples.now) (length out.old) }
    ensures none { result ≡ 0 → (sender.new ≡ sender.old) × (out.new ≡ out.old) }
{
    let request = RequestRef::Block { bytes: samples };
    put_head(sender, &request, out)
}

/// Offers a marker (its identifier, and the frame that it marks), and puts its whole frame, of at most 50
/// bytes, into `out`.
#[unsafe(no_mangle)]
pub extern "C" fn bwi_mark(sender: &mut BwiSender, id: u32, frame: u32, out: &mut [u8]) -> usize
    ensures wrote { 0 < result → WroteHead sender.old (Mark id frame) out.old sender.new out.new
        result }
    ensures some { 0 < result ↔ CanWrite sender.old (Mark id frame) (length out.old) }
    ensures none { result ≡ 0 → (sender.new ≡ sender.old) × (out.new ≡ out.old) }
{
    let request = RequestRef::Mark { id, frame };
    put_head(sender, &request, out)
}

/// Offers a field of `bext` with a value of at most 256 bytes, and puts its head, of at most 43 bytes, into
/// `out`.
#[unsafe(no_mangle)]
pub extern "C" fn bwi_field_head(
    sender: &mut BwiSender,
    tag: u8,
    value: &[u8],
    out: &mut [u8],
) -> usize
    ensures wrote { 0 < result → WroteHead sender.old (SetField tag value.now) out.old sender.new
        out.new result }
    ensures some { 0 < result ↔ CanWrite sender.old (SetField tag value.now) (length out.old) }
    ensures none { result ≡ 0 → (sender.new ≡ sender.old) × (out.new ≡ out.old) }
{
    let request = RequestRef::SetField { tag, value };
    put_head(sender, &request, out)
}

/// Offers a CLOSE (how many frames the take has), and puts its whole frame, of at most 50 bytes, into `out`.
#[unsafe(no_mangle)]
pub extern "C" fn bwi_close(sender: &mut BwiSender, frames: u64, out: &mut [u8]) -> usize
    ensures wrote { 0 < result → WroteHead sender.old (Close frames) out.old sender.new out.new
        result }
    ensures some { 0 < result ↔ CanWrite sender.old (Close frames) (length out.old) }
    ensures none { result ≡ 0 → (sender.new ≡ sender.old) × (out.new ≡ out.old) }
{
    let request = RequestRef::CloseTake { frames };
    put_head(sender, &request, out)
}

/// Puts the frame of an ask, of at most 42 bytes, into `out`. Its answer is the notice Next with the least
/// number that the server has no verdict on.
#[unsafe(no_mangle)]
pub extern "C" fn bwi_ask(sender: &BwiSender, out: &mut [u8]) -> usize
    ensures wrote { 0 < result → WroteFrame (Asks (sender_name sender.now) 0) out.old out.new result }
    ensures some { 0 < result ↔ CanSpell (Asks (sender_name sender.now) 0) (length out.old) }
    ensures none { result ≡ 0 → out.new ≡ out.old }
{
    match Name::new(name_bytes(sender)) {
        Some(name) => put(out, &ask_of(&name)),
        None => 0,
    }
}

/// Puts the five bytes of the frame that ends an exchange into `out`.
#[unsafe(no_mangle)]
pub extern "C" fn bwi_bye(out: &mut [u8]) -> usize
    ensures wrote { 0 < result → WroteFrame Bye out.old out.new result }
    ensures some { 0 < result ↔ CanSpell Bye (length out.old) }
    ensures none { result ≡ 0 → out.new ≡ out.old }
{
    put(out, &bye_of())
}

/// Offers a request, and puts its head into `out`.
fn put_head(sender: &mut BwiSender, request: &RequestRef<'_>, out: &mut [u8]) -> usize
    ensures wrote { 0 < result → WroteHead sender.old (meaning request.now) out.old sender.new
        out.new result }
    ensures some { 0 < result ↔ CanWrite sender.old (meaning request.now) (length out.old) }
    ensures none { result ≡ 0 → (sender.new ≡ sender.old) × (out.new ≡ out.old) }
{
    if !may_offer(sender) {
        return 0;
    }
    if !request.fits() {
        return 0;
    }
    match Name::new(name_bytes(sender)) {
        Some(name) => put_named(sender, &name, request, out),
        None => 0,
    }
}

/// The same of a request that fits, where the window isn't full.
fn put_named(sender: &mut BwiSender, name: &Name, request: &RequestRef<'_>, out: &mut [u8]) -> usize
    requires named { name.now ≡ sender_name sender.old }
    requires place { IsTrue (has_place sender.old) }
    requires number { sender.old.offered ≤ last_number Second }
    requires fits { IsTrue (is_request (meaning request.now)) }
    ensures wrote { 0 < result → WroteHead sender.old (meaning request.now) out.old sender.new
        out.new result }
    ensures some { 0 < result ↔ CanWrite sender.old (meaning request.now) (length out.old) }
    ensures none { result ≡ 0 → (sender.new ≡ sender.old) × (out.new ≡ out.old) }
{
    let head = head_of(name, sender.offered, request);
    let len = put(out, &head);
    if len == 0 {
        return 0;
    }
    sender.offered += 1;
    len
}

/// Whether the next number is one, and the window isn't full.
fn may_offer(sender: &BwiSender) -> bool
    ensures value { result ≡ has_place sender.now }
    ensures number { IsTrue result → sender.now.offered ≤ last_number Second }
{
    sender.settled <= sender.offered
        && sender.offered - sender.settled < SLOTS
        && sender.offered < NUMBERS
}

/// Puts a frame or a head, which isn't empty, at the start of `out`, if there is room.
fn put(out: &mut [u8], head: &ArrayVec<u8, 52>) -> usize
    ensures room { length head.now.items ≤ length out.old → (result ≡ length head.now.items)
        × (take result out.new ≡ head.now.items) × (drop result out.new ≡ drop result out.old) }
    ensures full { length out.old < length head.now.items → (result ≡ 0) × (out.new ≡ out.old) }
{
    let bytes = head.as_slice();
    let len = bytes.len();
    if len > out.len() {
        return 0;
    }
    out[..len].copy_from_slice(bytes);
    len
}
