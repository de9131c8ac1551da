//! Files that give takes their names: a line `NAME PATH` for each.
ghost use Rattle.std.specs.Prelude.{◌≡◌, ◌==◌, ◌<◌, ℕ, List, IfOk, MatchBool, MatchOption, IfSome, length};
ghost use Rattle.std.specs.Prelude.{map};
ghost use Rattle.std.specs.List.{position};
ghost use Rattle.bw_queue.specs.Namings.{AreGoodBefore, NamesPath, GivesNone, IsFirstBadNaming, IsGoodLineAt};
ghost use Rattle.bw_queue.specs.Namings.{IsGoodNaming, IsNaming};
ghost use Rattle.bw_queue.specs.Namings.{naming_lines};

use bw_model::Name;
use std::alloc::{AllocError, Global};

/// The lines of a text.
pub(crate) fn lines_of(alloc: Global, text: &[u8]) -> Result<Vec<&[u8]>, AllocError>
    ensures { IfOk result (λ lines. map (λ x. x.now) lines.items ≡ naming_lines text.now) }
{
    text.split(|c| *c == b'\n').collect(alloc)
}

/// The number, counted from 1, of the first of these lines that is neither empty nor gives a name to a path
/// that no line before it names.
pub(crate) fn bad_line(lines: &[&[u8]]) -> Option<u64>
    ensures { MatchOption result
        (AreGoodBefore (length lines.now) (map (λ x. x.now) lines.now))
        (IsFirstBadNaming (map (λ x. x.now) lines.now)) }
{
    for place in 0..lines.len() {
        if !is_good_at(lines, place) {
            return Some(place as u64 + 1);
        }
    }
    None
}

/// Whether the line at a place is good after those before it.
fn is_good_at(lines: &[&[u8]], place: usize) -> bool
    requires { place < length lines.now }
    ensures { MatchBool result (IsGoodLineAt (map (λ x. x.now) lines.now) place)
        (¬ IsGoodLineAt (map (λ x. x.now) lines.now) place) }
{
    is_good_after(&lines[..place], lines[place])
}

/// Whether a line is empty, or gives a name to a path that none of the lines before it names.
fn is_good_after(before: &[&[u8]], line: &[u8]) -> bool
    ensures { MatchBool result (IsGoodNaming (map (λ x. x.now) before.now) line.now)
        (¬ IsGoodNaming (map (λ x. x.now) before.now) line.now) }
{
    if line.is_empty() {
        return true;
    }
    let Some((_name, path)) = naming_of(line) else {
        return false;
    };
    match name_in(before, path) {
        None => true,
        Some(_) => false,
    }
}

/// The name that the first of these lines that names a path gives it.
pub(crate) fn name_in(lines: &[&[u8]], path: &[u8]) -> Option<Name>
    ensures { MatchOption result (GivesNone (map (λ x. x.now) lines.now) path.now)
        (NamesPath (map (λ x. x.now) lines.now) path.now) }
{
    for line in lines {
        if let Some(name) = name_on(line, path) {
            return Some(name);
        }
    }
    None
}

/// The name that a line gives a path, if it does.
fn name_on(line: &[u8], path: &[u8]) -> Option<Name>
    ensures { MatchOption result ((name : List ℕ) → ¬ IsNaming line.now name path.now)
        (λ name. IsNaming line.now name path.now) }
{
    let Some((name, named)) = naming_of(line) else {
        return None;
    };
    if named == path { Some(name) } else { None }
}

/// The name and the path that a line says.
fn naming_of(line: &[u8]) -> Option<(Name, &[u8])>
    ensures { MatchOption result ((name path : List ℕ) → ¬ IsNaming line.now name path)
        (λ naming. IsNaming line.now naming.0 naming.1.now) }
{
    let Some(blank) = first_blank(line) else {
        return None;
    };
    let Some(name) = Name::new(&line[..blank]) else {
        return None;
    };
    let path = &line[blank + 1..];
    if path.is_empty() {
        return None;
    }
    Some((name, path))
}

/// The place of the first blank of a line.
fn first_blank(line: &[u8]) -> Option<usize>
    ensures place { result ≡ position (λ c. c == 32) line.now }
    ensures inside { IfSome result (λ place. place < length line.now) }
{
    line.iter().position(|c| *c == b' ')
}
