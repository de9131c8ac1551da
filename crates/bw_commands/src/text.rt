//! The text of a run.
ghost use Rattle.std.specs.Prelude.{◌≡◌, ℕ, ◌+◌, ◌*◌, ◌^◌, ◌<◌, ◌≤◌, List, [], ◌∷◌, ◌++◌, length};
ghost use Rattle.std.specs.Prelude.{flat_map, codes, decimal, IsTrue, IfOk, OnOk, Some, slice_get};
ghost use Rattle.std.specs.List.{list_all};
ghost use Rattle.bw_commands.specs.Runs.{ReportedExchange, AllReport};
ghost use Rattle.bw_commands.specs.Text.{reply_line, exchanges_text, file_text, file_text_if};
ghost use Rattle.bw_commands.specs.Text.{files_text};
ghost use Rattle.bw_console.specs.Text.{as_line};
ghost use Rattle.bw_exchange.specs.EndNames.{name_of_end};
ghost use Rattle.bw_model.specs.Exchange.{replies_bytes};
ghost use Rattle.bw_model.specs.Replies.{Reply, is_reply};
ghost use Rattle.bw_model.specs.Wire.{framed};
ghost use Rattle.bw_store.specs.MemoryNames.{names_of, AreNames, memory_content};
ghost use Rattle.hex.specs.Hex.{encode_lower};

use bw_exchange::{ExchangeEnd, end_name};
use bw_model::Name;
use bw_store::MemoryStore;
use std::alloc::{AllocError, Global};

/// The exchanges with their replies, and then the store's files in the order of their names.
pub fn text_of_run(
    alloc: Global,
    replies: &[Vec<u8>],
    ends: &[ExchangeEnd],
    store: &MemoryStore,
) -> Result<Vec<u8>, AllocError>
    ensures text { IfOk result (λ text. (reported : List ReportedExchange) →
        AllReport replies.now ends.now reported → text.items
        ≡ exchanges_text 0 reported
        ++ files_text (memory_content store.now) (names_of store.now)) }
    ensures names { OnOk result (AreNames (names_of store.now) (memory_content store.now)) }
{
    let mut text = Vec::new(alloc);
    put_exchanges(alloc, &mut text, replies, ends)?;
    put_files(alloc, &mut text, store)?;
    Ok(text)
}

/// Adds the exchanges, each with its replies.
fn put_exchanges(
    alloc: Global,
    out: &mut Vec<u8>,
    replies: &[Vec<u8>],
    ends: &[ExchangeEnd],
) -> Result<(), AllocError>
    ensures { OnOk result ((reported : List ReportedExchange) → AllReport replies.now ends.now reported →
        out.new.items ≡ out.old.items ++ exchanges_text 0 reported) }
{
    for (index, end) in ends.iter().enumerate() {
        let Some(frames) = replies.get(index) else {
            return Ok(());
        };
        put_exchange_line(alloc, out, index, *end)?;
        put_replies(alloc, out, frames.as_slice())?;
    }
    Ok(())
}

/// Adds the line that an exchange's replies follow.
fn put_exchange_line(
    alloc: Global,
    out: &mut Vec<u8>,
    index: usize,
    end: ExchangeEnd,
) -> Result<(), AllocError>
    ensures { OnOk result (out.new.items ≡ out.old.items ++
        as_line (codes "exchange " ++ decimal index ++ codes " " ++ name_of_end end)) }
{
    let name = end_name(end);
    let text = format!(in alloc; "exchange {index} {name}\n")?;
    out.extend_from_slice(text.as_bytes())
}

/// Adds a line for each reply whose frame these bytes have.
fn put_replies(alloc: Global, out: &mut Vec<u8>, frames: &[u8]) -> Result<(), AllocError>
    ensures { OnOk result ((replies : List Reply) →
        IsTrue (list_all is_reply replies) → frames.now ≡ replies_bytes replies →
        out.new.items ≡ out.old.items ++ flat_map reply_line replies) }
{
    let mut rest = frames;
    while !rest.is_empty() {
        let (frame, others) = split_frame(rest);
        put_hex_line(alloc, out, "reply ", frame)?;
        rest = others;
    }
    Ok(())
}

/// The first frame, and what follows it. Bytes that are no whole frame are taken as one.
fn split_frame(bytes: &[u8]) -> (&[u8], &[u8])
    requires { 0 < length bytes.now }
    ensures frame { (body more : List ℕ) → length body < 2 ^ 32 → bytes.now ≡ framed body ++ more →
        (result.0.now ≡ framed body) × (result.1.now ≡ more) }
    ensures shorter { length result.1.now < length bytes.now }
{
    if let [a, b, c, d, rest @ ..] = bytes {
        let count = u32::from_le_bytes([*a, *b, *c, *d]) as usize;
        if count <= rest.len() {
            return (&bytes[..4 + count], &bytes[4 + count..]);
        }
    }
    (bytes, &bytes[bytes.len()..])
}

/// Adds the files in the order of their names.
pub(crate) fn put_files(
    alloc: Global,
    out: &mut Vec<u8>,
    store: &MemoryStore,
) -> Result<(), AllocError>
    ensures files { OnOk result (out.new.items ≡ out.old.items
        ++ files_text (memory_content store.now) (names_of store.now)) }
    ensures names { AreNames (names_of store.now) (memory_content store.now) }
{
    for place in 0..store.name_count() {
        put_file_at(alloc, out, store, place)?;
    }
    Ok(())
}

/// Adds the file of the name at a place, if there is one.
fn put_file_at(
    alloc: Global,
    out: &mut Vec<u8>,
    store: &MemoryStore,
    place: usize,
) -> Result<(), AllocError>
    ensures { OnOk result ((name : List ℕ) → slice_get (names_of store.now) place ≡ Some name →
        out.new.items ≡ out.old.items
        ++ file_text_if name (memory_content store.now name)) }
{
    let Some(name) = store.name_at(place) else {
        return Ok(());
    };
    let Some(content) = store.content(name) else {
        return Ok(());
    };
    put_file(alloc, out, name, content)
}

/// Adds a file's name and length, and its bytes in hex.
///
/// # Errors
/// `AllocError` if memory was refused: a prefix may have been added.
#[tactic(auto, using(std::proofs::lemmas::List::append_assoc))]
pub fn put_file(
    alloc: Global,
    out: &mut Vec<u8>,
    name: &Name,
    content: &[u8],
) -> Result<(), AllocError>
    ensures { OnOk result (out.new.items ≡ out.old.items ++ file_text name.now content.now) }
{
    let size = content.len();
    let text = format!(in alloc; " {size}\n")?;
    out.extend_from_slice(b"file ")?;
    out.extend_from_slice(name.as_bytes())?;
    out.extend_from_slice(text.as_bytes())?;
    put_hex_line(alloc, out, "", content)?;
    Ok(())
}

/// Adds words, bytes in hex and the end of the line.
fn put_hex_line(
    alloc: Global,
    out: &mut Vec<u8>,
    words: &str,
    bytes: &[u8],
) -> Result<(), AllocError>
    ensures { OnOk result (out.new.items ≡
        out.old.items ++ as_line (words.now ++ encode_lower bytes.now)) }
{
    let digits = hex::encode(alloc, bytes)?;
    out.extend_from_slice(words.as_bytes())?;
    out.extend_from_slice(digits.as_bytes())?;
    out.push(b'\n')?;
    Ok(())
}
