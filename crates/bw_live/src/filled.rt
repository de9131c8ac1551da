//! Which fields are filled.
ghost use Rattle.std.specs.Prelude.{◌≡◌, ◌++◌, ℕ, List, IfOk, OnOk, map, string_bytes};
ghost use Rattle.bw_live.specs.BegunSpools.{filled_since};
ghost use Rattle.bw_live.specs.Defaults.{AreDefaultsOf};

use crate::default_texts::{begun_texts, steady_texts};
use bw_ports::Purpose;
use std::alloc::{AllocError, Global};

/// Which fields of OPEN are filled where nothing sets them.
#[derive(Clone, Copy, Debug, PartialEq, Eq)]
pub enum Filled {
    /// None.
    Nothing,
    /// Originator and coding history, which are the same in each run.
    Steady,
    /// These, and those that say when the recording was begun: so many milliseconds after the start of 1970
    /// (UTC).
    Begun(u64),
}

impl Filled {
    /// What is filled of a recording that was begun so many milliseconds after the start of 1970 (UTC):
    /// nothing if no moment is kept.
    pub fn since(began: Option<u64>) -> Filled
        ensures { result ≡ filled_since began }
    {
        match began {
            Some(moment) => Filled::Begun(moment),
            None => Filled::Nothing,
        }
    }
}

/// The settings of a take, as texts `KEY=VALUE`: those that fill its fields, and those that are given after
/// them, so that these have the last word.
///
/// # Errors
/// `AllocError` if memory was refused.
///
/// # Not specified
/// When memory is refused.
pub fn filled_settings(
    alloc: Global,
    filled: Filled,
    take: &Purpose<'_>,
    given: &[String],
) -> Result<Vec<String>, AllocError>
    ensures { IfOk result (λ all. (texts : List (List ℕ)) × AreDefaultsOf filled take.now texts
        × (map string_bytes all.items ≡ texts ++ map string_bytes given.now)) }
{
    let mut settings = defaults_of(alloc, filled, take)?;
    push_copies(alloc, &mut settings, given)?;
    Ok(settings)
}

/// The settings that fill a take's fields.
///
/// # Errors
/// `AllocError` if memory was refused.
fn defaults_of(alloc: Global, filled: Filled, take: &Purpose<'_>) -> Result<Vec<String>, AllocError>
    ensures { IfOk result (λ v. AreDefaultsOf filled take.now (map string_bytes v.items)) }
{
    match filled {
        Filled::Nothing => Ok(Vec::new(alloc)),
        Filled::Steady => steady_texts(alloc, take),
        Filled::Begun(moment) => begun_texts(alloc, moment, take),
    }
}

/// Appends copies of texts.
///
/// # Errors
/// `AllocError` if memory was refused.
fn push_copies(alloc: Global, texts: &mut Vec<String>, given: &[String]) -> Result<(), AllocError>
    ensures { OnOk result (map string_bytes texts.new.items
        ≡ map string_bytes texts.old.items ++ map string_bytes given.now) }
{
    for text in given {
        texts.push(String::from_str(alloc, text.as_str())?)?;
    }
    Ok(())
}
