//! The lines of a server's log as JSON (RFC 8259).
ghost use Rattle.std.specs.Prelude.{◌≡◌, IfOk, Some, string_bytes};
ghost use Rattle.serde_json.specs.Read.{read};
ghost use Rattle.serde_json.specs.View.{view};
ghost use Rattle.serde_json.specs.Written.{compact_text};
ghost use Rattle.bw_operators.specs.LogObjects.{line_data, object_by_words, said_at, object_by_word};

use serde_json::{Value, json};
use std::alloc::{AllocError, Global};

/// A line of a log, without its end, as the text of an object: its `time`, its `message`, and the
/// `peer` or the `take` that it begins with.
///
/// # Errors
/// `AllocError` if memory was refused.
///
/// # Not specified
/// When memory is refused.
pub fn log_object(alloc: Global, time: &str, line: &str) -> Result<String, AllocError>
    ensures text { IfOk result (λ text. string_bytes text ≡ compact_text (line_data time.now line.now)) }
    ensures reads_back { IfOk result (λ text. read (string_bytes text)
        ≡ Some (line_data time.now line.now)) }
{
    let value = line_value(alloc, time, line)?;
    value.to_string(alloc)
}

#[tactic(auto, unfolding(crate::specs::LogObjects::line_data))]
fn line_value(alloc: Global, time: &str, line: &str) -> Result<Value, AllocError>
    ensures { IfOk result (λ v. view v ≡ line_data time.now line.now) }
{
    match line.split_once(' ') {
        Some((first, others)) => value_from(alloc, time, line, first, others),
        None => said_at(alloc, time, line),
    }
}

/// A line that begins with this word.
fn value_from(
    alloc: Global,
    time: &str,
    line: &str,
    first: &str,
    others: &str,
) -> Result<Value, AllocError>
    ensures { IfOk result (λ v. view v ≡ object_by_word time.now line.now first.now others.now) }
{
    match others.split_once(' ') {
        Some((second, rest)) => value_after(alloc, time, line, first, second, rest),
        None => said_at(alloc, time, line),
    }
}

/// A line that begins with these two words.
fn value_after(
    alloc: Global,
    time: &str,
    line: &str,
    first: &str,
    second: &str,
    rest: &str,
) -> Result<Value, AllocError>
    ensures { IfOk result (λ v. view v
        ≡ object_by_words time.now line.now first.now second.now rest.now) }
{
    if first == "peer" {
        return json!(in alloc; {"message": rest, "peer": second, "time": time});
    }
    if first == "take" {
        return json!(in alloc; {"message": rest, "take": second, "time": time});
    }
    said_at(alloc, time, line)
}

fn said_at(alloc: Global, time: &str, line: &str) -> Result<Value, AllocError>
    ensures { IfOk result (λ v. view v ≡ said_at time.now line.now) }
{
    json!(in alloc; {"message": line, "time": time})
}
