//! The sender of one of several recordings, as a command line for it alone asks for it.
ghost use Rattle.std.specs.Prelude.{◌≡◌, ◌++◌, IfOk, None, codes, map, option_map, string_bytes};
ghost use Rattle.bw_program.specs.SeveralCommands.{IsSenderOf, state_path, target_parts};

use bw_args::{FileSender, FilesSender, ReceiptTarget, SourceFile};
use bw_model::Name;
use bw_queue::{QueuedRecording, path_within};
use std::alloc::{AllocError, Global};

/// The sender of one of several recordings.
pub(crate) fn sender_of(
    alloc: Global,
    several: &FilesSender,
    recording: &QueuedRecording,
) -> Result<FileSender, AllocError>
    ensures { IfOk result (IsSenderOf several.now recording.now) }
{
    let source = source_of(alloc, several, recording)?;
    let state = state_of(alloc, several, &recording.name)?;
    let receipt = receipt_of(alloc, several)?;
    Ok(FileSender {
        connect: several.connect,
        name: recording.name.copy(),
        source,
        timeout: several.timeout,
        fruitless: several.fruitless,
        log: several.log,
        state,
        receipt,
        rate: several.rate,
    })
}

/// The file of a recording, and what the command line says about each.
fn source_of(
    alloc: Global,
    several: &FilesSender,
    recording: &QueuedRecording,
) -> Result<SourceFile, AllocError>
    ensures path { IfOk result (λ source. string_bytes source.path ≡ string_bytes recording.now.path) }
    ensures settings { IfOk result (λ source. map string_bytes source.settings.items
        ≡ map string_bytes several.now.settings.items) }
    ensures strict { IfOk result (λ source. (source.strict ≡ several.now.strict)
        × (source.strict_texts ≡ several.now.strict_texts)) }
    ensures keeps_none { IfOk result (λ source. source.left_out ≡ None) }
{
    let path = String::from_str(alloc, recording.path.as_str())?;
    let settings = copies_of(alloc, &several.settings)?;
    Ok(SourceFile {
        path,
        settings,
        strict: several.strict,
        strict_texts: several.strict_texts,
        left_out: None,
    })
}

/// The same texts.
fn copies_of(alloc: Global, texts: &[String]) -> Result<Vec<String>, AllocError>
    ensures { IfOk result (λ copies. map string_bytes copies.items ≡ map string_bytes texts.now) }
{
    let mut copies = Vec::new(alloc);
    for text in texts {
        copies.push(String::from_str(alloc, text.as_str())?)?;
    }
    Ok(copies)
}

/// The path of the state of a recording of this name, if the command line asks for states.
fn state_of(alloc: Global, several: &FilesSender, name: &Name) -> Result<Option<String>, AllocError>
    ensures { IfOk result (λ state. option_map string_bytes state
        ≡ option_map (λ folder. state_path (string_bytes folder) name.now) several.now.states) }
{
    let Some(folder) = &several.states else {
        return Ok(None);
    };
    let file = state_name(alloc, name)?;
    let path = path_within(alloc, folder.as_str(), file.as_str())?;
    Ok(Some(path))
}

/// The name of the file of the state of a recording of this name.
fn state_name(alloc: Global, name: &Name) -> Result<String, AllocError>
    ensures { IfOk result (λ file. string_bytes file ≡ name.now ++ codes ".state") }
{
    let Ok(name) = std::str::from_utf8(name.as_bytes()) else {
        return Err(AllocError);
    };
    format!(in alloc; "{name}.state")
}

/// Where the receipt of a recording goes, if the command line asks for receipts.
fn receipt_of(alloc: Global, several: &FilesSender) -> Result<Option<ReceiptTarget>, AllocError>
    ensures { IfOk result (λ receipt. target_parts receipt ≡ target_parts several.now.receipt) }
{
    let Some(target) = &several.receipt else {
        return Ok(None);
    };
    let path = String::from_str(alloc, target.path.as_str())?;
    Ok(Some(ReceiptTarget {
        path,
        json: target.json,
    }))
}
