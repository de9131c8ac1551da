//! The text of a sender's outcome.
ghost use Rattle.std.specs.Prelude.{◌≡◌, ◌++◌, flat_map, map, IfOk, OnOk};
ghost use Rattle.bw_model.specs.World.{Sender as Defined};
ghost use Rattle.bw_model.specs.VerdictMeanings.{verdict_meaning};
ghost use Rattle.bw_sender.specs.RefusedNumbers.{refusal_of};
ghost use Rattle.bw_sender.specs.Senders.{IsSender};
ghost use Rattle.bw_upload.specs.SenderText.{counts_lines, name_of_verdict, refused_line};
ghost use Rattle.bw_upload.specs.SenderText.{sender_text};

use bw_model::Verdict;
use bw_sender::Sender;
use std::alloc::{AllocError, Global};

/// How many numbers are settled and stored, and each refused number with its verdict.
pub fn text_of_sender(alloc: Global, sender: &Sender) -> Result<Vec<u8>, AllocError>
    ensures { IfOk result (λ text. (s : Defined) → IsSender s sender.now →
        text.items ≡ sender_text s) }
{
    let mut text = Vec::new(alloc);
    put_counts(alloc, &mut text, sender.settled(), sender.stored())?;
    put_refused(alloc, &mut text, sender.refused())?;
    Ok(text)
}

/// Adds how many numbers are settled and stored.
fn put_counts(alloc: Global, out: &mut Vec<u8>, settled: u32, stored: u32) -> Result<(), AllocError>
    ensures { OnOk result (out.new.items ≡ out.old.items ++ counts_lines settled stored) }
{
    let text = format!(in alloc; "settled {settled}\nstored {stored}\n")?;
    out.extend_from_slice(text.as_bytes())?;
    Ok(())
}

/// Adds a line for each refused number.
fn put_refused(
    alloc: Global,
    out: &mut Vec<u8>,
    refused: &[(u32, Verdict)],
) -> Result<(), AllocError>
    ensures { OnOk result (out.new.items ≡
        out.old.items ++ flat_map refused_line (map refusal_of refused.now)) }
{
    for (number, verdict) in refused {
        put_refusal(alloc, out, *number, *verdict)?;
    }
    Ok(())
}

/// Adds the line of a refused number.
fn put_refusal(
    alloc: Global,
    out: &mut Vec<u8>,
    number: u32,
    verdict: Verdict,
) -> Result<(), AllocError>
    ensures { OnOk result (out.new.items ≡
        out.old.items ++ refused_line (number, verdict_meaning verdict)) }
{
    let name = verdict_name(verdict);
    let text = format!(in alloc; "refused {number} {name}\n")?;
    out.extend_from_slice(text.as_bytes())?;
    Ok(())
}

fn verdict_name(verdict: Verdict) -> &'static str
    ensures { result.now ≡ name_of_verdict (verdict_meaning verdict) }
{
    match verdict {
        Verdict::Stored => "Stored",
        Verdict::NameTaken => "NameTaken",
        Verdict::AlreadyOpen => "AlreadyOpen",
        Verdict::NotOpen => "NotOpen",
        Verdict::Closed => "Closed",
        Verdict::BadFormat => "BadFormat",
        Verdict::BadBlock => "BadBlock",
        Verdict::BadMarker => "BadMarker",
        Verdict::DuplicateMarker => "DuplicateMarker",
        Verdict::TooManyMarkers => "TooManyMarkers",
        Verdict::BadField => "BadField",
        Verdict::WrongTotal => "WrongTotal",
    }
}
