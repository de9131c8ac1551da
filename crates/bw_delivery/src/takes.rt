//! The file of a take, as the disk of a machine has it.
ghost use Rattle.std.specs.Prelude.{◌≡◌, IfOk, string_bytes};
ghost use Rattle.std.specs.Option.{option_copied};
ghost use Rattle.bw_folder.specs.Folders.{take_content, take_path as path_of_take};
ghost use Rattle.bw_delivery.specs.Machines.{takes_at, the_folder};

use crate::machine::{FOLDER, Machine};
use bw_model::Name;
use std::alloc::{AllocError, Global};

impl Machine {
    /// The file of a take on the disk of its server, or on the one that was left; None if there is
    /// none.
    ///
    /// # Errors
    /// `AllocError` if memory was refused.
    pub fn take(&self, alloc: Global, name: &Name) -> Result<Option<&[u8]>, AllocError>
        ensures { IfOk result (λ found.
            option_copied found ≡ take_content (takes_at self.now) the_folder name.now) }
    {
        let path = take_path(alloc, name)?;
        match self {
            Machine::Runs(life) => {
                let disk = life.server.server().store().disk().inner();
                Ok(disk.content(path.as_str()))
            }
            Machine::Stopped(folder) => Ok(folder.takes.content(path.as_str())),
        }
    }
}

/// The path of a take's file.
///
/// # Errors
/// `AllocError` if memory was refused.
#[tactic(auto, unfolding(bw_folder::specs::Folders::take_path))]
fn take_path(alloc: Global, name: &Name) -> Result<String, AllocError>
    ensures { IfOk result (λ path. string_bytes path ≡ path_of_take the_folder name.now) }
{
    let Ok(text) = std::str::from_utf8(name.as_bytes()) else {
        return Err(AllocError);
    };
    let path = format!(in alloc; "{FOLDER}/{text}.wav")?;
    Ok(path)
}
