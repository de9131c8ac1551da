//! The rules that a text says, a line for each.
ghost use Rattle.std.specs.Prelude.{◌≡◌, ◌++◌, IfOk, List, MatchBool, MatchOption, MatchResult, Option, option_to_list};
ghost use Rattle.bw_operators.specs.AllowLists.{AllowRule, AllowedNetwork};
ghost use Rattle.bw_operators.specs.AllowFiles.{IsAllowFault, SayNetworks, SayRule, SayRules, SaysLine, is_blank};
ghost use Rattle.bw_operators.specs.AllowFiles.{is_left_out, rule_lines, rule_words, texts};
ghost use Rattle.bw_operators.specs.declared.allow_file.AllowFault.TheVariants.{Memory};

use crate::network::{Network, network_of};
use crate::rule::{Rule, pattern_of};
use std::alloc::{AllocError, Global};

/// Why a text is no list.
#[derive(Debug, Clone, Copy, PartialEq, Eq)]
pub enum AllowFault {
    /// The line of this number, counted from 1, is the first that says no rule and isn't left out.
    Line(u64),
    /// Memory was refused.
    Memory,
}

impl From<AllocError> for AllowFault {
    ghost from_gives = { λ _ fault. fault ≡ Memory };

    /// `Memory`.
    fn from(_: AllocError) -> AllowFault {
        AllowFault::Memory
    }
}

/// The rules that a text says, in the order of its lines.
pub(crate) fn rules_of(alloc: Global, text: &[u8]) -> Result<Vec<Rule>, AllowFault>
    ensures { MatchResult result (λ rules. SayRules (rule_lines text.now) rules.items)
        (IsAllowFault (rule_lines text.now)) }
{
    let lines = lines_of(alloc, text)?;
    let mut rules = Vec::new(alloc);
    let mut number = 0u64;
    for line in &lines {
        number += 1;
        if !put_rule(alloc, line, &mut rules)? {
            return Err(AllowFault::Line(number));
        }
    }
    Ok(rules)
}

/// Appends the rule that a line says, if it isn't left out. Returns whether it says one or is left out.
fn put_rule(alloc: Global, line: &[u8], rules: &mut Vec<Rule>) -> Result<bool, AllocError>
    ensures { IfOk result (λ good. MatchBool good
        ((said : Option AllowRule) × SaysLine line.now said
        × (rules.new.items ≡ rules.old.items ++ option_to_list said))
        ((said : Option AllowRule) → ¬ SaysLine line.now said)) }
{
    let words = words_of(alloc, line)?;
    if is_left_out(&words) {
        return Ok(true);
    }
    let Some(rule) = rule_of(alloc, &words)? else {
        return Ok(false);
    };
    rules.push(rule)?;
    Ok(true)
}

/// The rule that the words of a line say.
fn rule_of(alloc: Global, words: &[&[u8]]) -> Result<Option<Rule>, AllocError>
    ensures { IfOk result (λ found. MatchOption found
        ((rule : AllowRule) → ¬ SayRule (texts words.now) rule) (SayRule (texts words.now))) }
{
    let Some((first, others)) = words.split_first() else {
        return Ok(None);
    };
    let Some(pattern) = pattern_of(first) else {
        return Ok(None);
    };
    if others.is_empty() {
        return Ok(None);
    }
    let Some(networks) = networks_of(alloc, others)? else {
        return Ok(None);
    };
    Ok(Some(Rule::new(pattern, networks)))
}

/// The networks that words say, if each says one.
fn networks_of(alloc: Global, words: &[&[u8]]) -> Result<Option<Vec<Network>>, AllocError>
    ensures { IfOk result (λ found. MatchOption found
        ((networks : List AllowedNetwork) → ¬ SayNetworks (texts words.now) networks)
        (λ networks. SayNetworks (texts words.now) networks.items)) }
{
    let mut networks = Vec::new(alloc);
    for word in words {
        let Some(network) = network_of(word) else {
            return Ok(None);
        };
        networks.push(network)?;
    }
    Ok(Some(networks))
}

/// Whether a line of these words is left out.
fn is_left_out(words: &[&[u8]]) -> bool
    ensures { result ≡ is_left_out (texts words.now) }
{
    let Some((first, _)) = words.split_first() else {
        return true;
    };
    first.starts_with(b"#")
}

/// The lines of a text.
fn lines_of(alloc: Global, text: &[u8]) -> Result<Vec<&[u8]>, AllocError>
    ensures { IfOk result (λ found. texts found.items ≡ rule_lines text.now) }
{
    text.split(|c| *c == b'\n').collect(alloc)
}

/// The words of a line.
fn words_of(alloc: Global, line: &[u8]) -> Result<Vec<&[u8]>, AllocError>
    ensures { IfOk result (λ found. texts found.items ≡ rule_words line.now) }
{
    line.split(|c| is_blank(*c))
        .filter(|word| !word.is_empty())
        .collect(alloc)
}

/// Whether a byte stands between words.
fn is_blank(c: u8) -> bool
    ensures { result ≡ is_blank c }
{
    c == b' ' || c == b'\t' || c == b'\r'
}
