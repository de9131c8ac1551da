//! The name of a take, made of the path of its recording.
ghost use Rattle.std.specs.Prelude.{◌≡◌, ◌++◌, IsTrue, IfOk, OnOk};
ghost use Rattle.std.specs.Option.{SomeIff};
ghost use Rattle.bw_model.specs.Wire.{is_name};
ghost use Rattle.bw_queue.specs.PathNames.{file_part as file_of, byte_in_name, name_made};
ghost use Rattle.bw_queue.specs.PathNames.{name_part, stem_part};

use crate::places::last_place;
use bw_model::Name;
use std::alloc::{AllocError, Global};

/// The name of a take, made of the path of its recording: the file's name without its extension, in small
/// letters, with a hyphen for each character that no name has. None if that isn't a name: it is empty, or
/// has more than 32 bytes.
///
/// # Errors
/// `AllocError` if memory was refused.
///
/// # Not specified
/// When memory is refused.
#[tactic(auto, unfolding(crate::specs::PathNames::name_made))]
pub fn name_of_path(alloc: Global, path: &str) -> Result<Option<Name>, AllocError>
    ensures { IfOk result (λ name.
        SomeIff name (IsTrue (is_name (name_made path.now))) (name_made path.now)) }
{
    let mut name = Vec::new(alloc);
    for byte in stem_of(file_part(path.as_bytes())) {
        put_part(*byte, &mut name)?;
    }
    Ok(Name::new(&name))
}

/// What follows the last slash of a path.
fn file_part(path: &[u8]) -> &[u8]
    ensures { result.now ≡ file_of path.now }
{
    match last_place(path, b'/') {
        Some(place) => &path[place + 1..],
        None => path,
    }
}

/// A file's name without its last dot and what follows that, unless it begins with this dot.
fn stem_of(file: &[u8]) -> &[u8]
    ensures { result.now ≡ stem_part file.now }
{
    match last_place(file, b'.') {
        Some(place) if place > 0 => &file[..place],
        _ => file,
    }
}

/// Appends what a byte of a file's name becomes in a name.
fn put_part(byte: u8, name: &mut Vec<u8>) -> Result<(), AllocError>
    ensures { OnOk result (name.new.items ≡ name.old.items ++ name_part byte) }
{
    if byte >= 128 && byte <= 191 {
        return Ok(());
    }
    name.push(name_byte(byte))?;
    Ok(())
}

/// The byte of a name that stands for a character that begins with this byte.
fn name_byte(byte: u8) -> u8
    ensures { result ≡ byte_in_name byte }
{
    if byte >= b'A' && byte <= b'Z' {
        byte + 32
    } else if byte >= b'a' && byte <= b'z'
        || byte >= b'0' && byte <= b'9'
        || byte == b'-'
        || byte == b'_'
    {
        byte
    } else {
        b'-'
    }
}
