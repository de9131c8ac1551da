//! Counts under their names.
ghost use Rattle.std.specs.Prelude.{◌≡◌, ◌++◌, ◌∷◌, [], IfOk, OnOk, map, slice_index_or};
ghost use Rattle.bw_serve.specs.CountedEnds.{end_counts};
ghost use Rattle.bw_serve_status.specs.CountNames.{kind_and_count, message_counts, notice_counts};
ghost use Rattle.bw_serve_status.specs.CountNames.{verdict_counts};

use bw_serve::EndCounts;
use bw_status::Count;
use std::alloc::{AllocError, Global};

/// Messages and asks by their kind.
///
/// # Errors
/// `AllocError` if memory was refused.
#[tactic(auto, using(std::proofs::lemmas::List::append_assoc))]
pub(crate) fn message_counts(alloc: Global, kinds: &[u64]) -> Result<Vec<Count>, AllocError>
    ensures { IfOk result (λ counts. map kind_and_count counts.items ≡ message_counts kinds.now) }
{
    let mut counts = Vec::new(alloc);
    put(&mut counts, "OPEN", kinds, 0)?;
    put(&mut counts, "BLOCK", kinds, 1)?;
    put(&mut counts, "MARK", kinds, 2)?;
    put(&mut counts, "BEXT", kinds, 3)?;
    put(&mut counts, "CLOSE", kinds, 4)?;
    put(&mut counts, "ASK", kinds, 5)?;
    Ok(counts)
}

/// Verdicts by their names.
///
/// # Errors
/// `AllocError` if memory was refused.
#[tactic(auto, using(std::proofs::lemmas::List::append_assoc))]
pub(crate) fn verdict_counts(alloc: Global, verdicts: &[u64]) -> Result<Vec<Count>, AllocError>
    ensures { IfOk result (λ counts. map kind_and_count counts.items ≡ verdict_counts verdicts.now) }
{
    let mut counts = Vec::new(alloc);
    put(&mut counts, "Stored", verdicts, 0)?;
    put(&mut counts, "NameTaken", verdicts, 1)?;
    put(&mut counts, "AlreadyOpen", verdicts, 2)?;
    put(&mut counts, "NotOpen", verdicts, 3)?;
    put(&mut counts, "Closed", verdicts, 4)?;
    put(&mut counts, "BadFormat", verdicts, 5)?;
    put(&mut counts, "BadBlock", verdicts, 6)?;
    put(&mut counts, "BadMarker", verdicts, 7)?;
    put(&mut counts, "DuplicateMarker", verdicts, 8)?;
    put(&mut counts, "TooManyMarkers", verdicts, 9)?;
    put(&mut counts, "BadField", verdicts, 10)?;
    put(&mut counts, "WrongTotal", verdicts, 11)?;
    Ok(counts)
}

/// Notices by their names.
///
/// # Errors
/// `AllocError` if memory was refused.
#[tactic(auto, using(std::proofs::lemmas::List::append_assoc))]
pub(crate) fn notice_counts(alloc: Global, notices: &[u64]) -> Result<Vec<Count>, AllocError>
    ensures { IfOk result (λ counts. map kind_and_count counts.items ≡ notice_counts notices.now) }
{
    let mut counts = Vec::new(alloc);
    put(&mut counts, "Held", notices, 0)?;
    put(&mut counts, "TooFar", notices, 1)?;
    put(&mut counts, "Conflict", notices, 2)?;
    put(&mut counts, "TableFull", notices, 3)?;
    put(&mut counts, "NoRoom", notices, 4)?;
    put(&mut counts, "DelayedStore", notices, 5)?;
    put(&mut counts, "Next", notices, 7)?;
    Ok(counts)
}

/// Connections that ended, by the names of their ends.
///
/// # Errors
/// `AllocError` if memory was refused.
#[tactic(auto, using(std::proofs::lemmas::List::append_assoc))]
pub(crate) fn end_counts(alloc: Global, ends: EndCounts) -> Result<Vec<Count>, AllocError>
    ensures { IfOk result (λ counts. map kind_and_count counts.items ≡ end_counts ends) }
{
    let mut counts = Vec::new(alloc);
    put_count(&mut counts, "Bye", ends.bye)?;
    put_count(&mut counts, "EndOfInput", ends.end_of_input)?;
    put_count(&mut counts, "BadFrame", ends.bad_frame)?;
    put_count(&mut counts, "ReadFault", ends.read_fault)?;
    put_count(&mut counts, "WriteFault", ends.write_fault)?;
    put_count(&mut counts, "NotKept", ends.not_kept)?;
    put_count(&mut counts, "TurnLimit", ends.turn_limit)?;
    put_count(&mut counts, "Memory", ends.memory)?;
    put_count(&mut counts, "Idle", ends.idle)?;
    Ok(counts)
}

/// Appends the count at a place, or 0, under a name.
fn put(
    counts: &mut Vec<Count>,
    kind: &'static str,
    numbers: &[u64],
    place: usize,
) -> Result<(), AllocError>
    ensures { OnOk result (map kind_and_count counts.new.items
        ≡ map kind_and_count counts.old.items ++ (kind.now, slice_index_or numbers.now place 0) ∷ []) }
{
    put_count(counts, kind, numbers.get(place).copied().unwrap_or(0))
}

/// Appends a count under a name.
fn put_count(counts: &mut Vec<Count>, kind: &'static str, count: u64) -> Result<(), AllocError>
    ensures { OnOk result (map kind_and_count counts.new.items
        ≡ map kind_and_count counts.old.items ++ (kind.now, count) ∷ []) }
{
    counts.push(Count { kind, count })?;
    Ok(())
}
