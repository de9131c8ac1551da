//! The paths of a name's files in a folder.
ghost use Rattle.std.specs.Prelude.{◌≡◌, IfOk, string_bytes};
ghost use Rattle.bw_folder.specs.Folders.{take_path as path_of_take};
ghost use Rattle.bw_folder.specs.Journals.{journal_path as path_of_journal};

use bw_model::Name;
use bw_store::StoreFault;
use std::alloc::Global;

/// The path of a take's file in a folder.
///
/// # Errors
/// `StoreFault` if memory was refused.
#[tactic(auto, unfolding(crate::specs::Folders::take_path))]
pub(crate) fn take_path(alloc: Global, folder: &str, name: &Name) -> Result<String, StoreFault>
    ensures { IfOk result (λ p. string_bytes p ≡ path_of_take folder.now name.now) }
{
    let Ok(text) = std::str::from_utf8(name.as_bytes()) else {
        return Err(StoreFault);
    };
    match format!(in alloc; "{folder}/{text}.wav") {
        Ok(path) => Ok(path),
        Err(_) => Err(StoreFault),
    }
}

/// The path of a name's journal in a folder.
///
/// # Errors
/// `StoreFault` if memory was refused.
#[tactic(auto, unfolding(crate::specs::Journals::journal_path))]
pub(crate) fn journal_path(alloc: Global, folder: &str, name: &Name) -> Result<String, StoreFault>
    ensures { IfOk result (λ p. string_bytes p ≡ path_of_journal folder.now name.now) }
{
    let Ok(text) = std::str::from_utf8(name.as_bytes()) else {
        return Err(StoreFault);
    };
    match format!(in alloc; "{folder}/{text}.journal") {
        Ok(path) => Ok(path),
        Err(_) => Err(StoreFault),
    }
}
