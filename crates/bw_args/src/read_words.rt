//! The words of a command line as `clap` reads them.
ghost use Rattle.std.specs.Prelude.{◌≡◌, ◌++◌, ◌∷◌, false, List, map, string_bytes, IfOk};
ghost use Rattle.std.specs.Prelude.{OnOk, option_map};
ghost use Rattle.clap.specs.Words.{Text};
ghost use Rattle.bw_args.specs.ReadWords.{as_read, first_joined, joined};

use std::alloc::{AllocError, Global};

/// The words, with a take's name or a server's folder joined to its option, so that it may begin
/// with a hyphen.
pub fn read_words(alloc: Global, words: &[String]) -> Result<Vec<String>, AllocError>
    ensures { IfOk result (λ read.
        map string_bytes read.items ≡ as_read (map string_bytes words.now)) }
{
    let mut read = Vec::new(alloc);
    let Some(program) = words.first() else {
        return Ok(read);
    };
    read.push(String::from_str(alloc, program.as_str())?)?;
    let rest = &words[1..];
    match first_joined(rest) {
        Some(option) => push_joined(alloc, &mut read, option, rest)?,
        None => push_copies(alloc, &mut read, rest)?,
    }
    Ok(read)
}

/// The option whose value is joined to it, in the command that the words begin with, if it has one.
fn first_joined(words: &[String]) -> Option<&'static str>
    ensures { option_map (λ option. option.now) result
        ≡ first_joined (map string_bytes words.now) }
{
    let command = words.first()?.as_str();
    if command == "rehearse" || command == "send" {
        return Some("--name");
    }
    if command == "serve" || command == "takes" {
        return Some("--folder");
    }
    None
}

/// Adds the words unchanged.
fn push_copies(alloc: Global, read: &mut Vec<String>, words: &[String]) -> Result<(), AllocError>
    ensures { OnOk result (map string_bytes read.new.items
        ≡ map string_bytes read.old.items ++ map string_bytes words.now) }
{
    for word in words {
        read.push(String::from_str(alloc, word.as_str())?)?;
    }
    Ok(())
}

/// Adds the words, each such option and the word after it as one.
fn push_joined(
    alloc: Global,
    read: &mut Vec<String>,
    option: &str,
    words: &[String],
) -> Result<(), AllocError>
    ensures { OnOk result (map string_bytes read.new.items
        ≡ map string_bytes read.old.items
        ++ joined option.now false (map string_bytes words.now)) }
{
    let mut waits = false;
    for word in words {
        waits = push_word(alloc, read, option, waits, word.as_str())?;
    }
    if waits {
        read.push(String::from_str(alloc, option)?)?;
    }
    Ok(())
}

/// Adds a word, joined to an option that waits for it, and returns whether one waits now.
fn push_word(
    alloc: Global,
    read: &mut Vec<String>,
    option: &str,
    waits: bool,
    word: &str,
) -> Result<bool, AllocError>
    ensures { IfOk result (λ waits_now. (rest : List Text) →
        map string_bytes read.new.items ++ joined option.now waits_now rest
        ≡ map string_bytes read.old.items ++ joined option.now waits (word.now ∷ rest)) }
{
    if waits {
        let mut joined = String::from_str(alloc, option)?;
        joined.push_str("=")?;
        joined.push_str(word)?;
        read.push(joined)?;
        return Ok(false);
    }
    if word == option {
        return Ok(true);
    }
    read.push(String::from_str(alloc, word)?)?;
    Ok(false)
}
