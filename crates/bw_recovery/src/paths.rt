//! The paths of a name's files in a folder.
ghost use Rattle.std.specs.Prelude.{◌≡◌, IfOk, IfErr, string_bytes};
ghost use Rattle.bw_recovery.specs.Paths.{path_with};

use bw_disk::ReadFault;
use bw_model::Name;
use std::alloc::Global;

/// The path of a name's file with this ending in a folder.
///
/// # Errors
/// `Memory` if memory was refused.
#[tactic(auto, unfolding(crate::specs::Paths::path_with))]
pub fn path_in(alloc: Global, folder: &str, name: &Name, ending: &str) -> Result<String, ReadFault>
    ensures path { IfOk result (λ p. string_bytes p ≡ path_with folder.now ending.now name.now) }
    ensures err { IfErr result (λ e. e ≡ ReadFault.Memory) }
{
    let Ok(text) = std::str::from_utf8(name.as_bytes()) else {
        return Err(ReadFault::Memory);
    };
    match format!(in alloc; "{folder}/{text}{ending}") {
        Ok(path) => Ok(path),
        Err(_) => Err(ReadFault::Memory),
    }
}
