//! A take's row of the page.
ghost use Rattle.std.specs.Prelude.{◌≡◌, ◌++◌, IfOk, OnOk, string_bytes};
ghost use Rattle.bw_status.specs.Rows.{cell_start, clock_cell, counts_cells, first_cells, format_cell};
ghost use Rattle.bw_status.specs.Rows.{number_cell, address_text, row, sound_cell, text_cell};
ghost use Rattle.bw_status.specs.Rows.{times_cells};

use crate::snapshot::{SoundFormat, TakeStatus, take_state_word};
use crate::text::{put_clock, put_escaped, put_number, put_part, put_text};
use std::alloc::{AllocError, Global};
use std::net::SocketAddr;

/// Appends a take's row.
#[tactic(auto, using(std::proofs::lemmas::List::append_assoc))]
pub(crate) fn put_row(alloc: Global, out: &mut Vec<u8>, take: &TakeStatus) -> Result<(), AllocError>
    ensures { OnOk result (out.new.items ≡ out.old.items ++ row take.now) }
{
    let peer = address_text(alloc, &take.peer)?;
    out.extend_from_slice(b"<tr>")?;
    put_first_cells(out, take)?;
    put_times_cells(out, take)?;
    put_counts_cells(out, take)?;
    put_text_cell(out, "Peer", peer.as_str())?;
    out.extend_from_slice(b"</tr>\n")
}

/// Appends what a take is.
#[tactic(auto, using(std::proofs::lemmas::List::append_assoc))]
fn put_first_cells(out: &mut Vec<u8>, take: &TakeStatus) -> Result<(), AllocError>
    ensures { OnOk result (out.new.items ≡ out.old.items ++ first_cells take.now) }
{
    put_text_cell(out, "Take", take.name.as_str())?;
    put_text_cell(out, "State", take_state_word(take.state))?;
    put_format_cell(out, &take.format)
}

/// Appends how long a take is, a cell for its growth, and how long ago it grew.
#[tactic(auto, using(std::proofs::lemmas::List::append_assoc))]
fn put_times_cells(out: &mut Vec<u8>, take: &TakeStatus) -> Result<(), AllocError>
    ensures { OnOk result (out.new.items ≡ out.old.items ++ times_cells take.now) }
{
    put_clock_cell(out, "Recorded", take.ms)?;
    put_text_cell(out, "Growth", "")?;
    put_clock_cell(out, "Quiet", take.quiet_ms)
}

/// Appends a take's counts.
#[tactic(auto, using(std::proofs::lemmas::List::append_assoc))]
fn put_counts_cells(out: &mut Vec<u8>, take: &TakeStatus) -> Result<(), AllocError>
    ensures { OnOk result (out.new.items ≡ out.old.items ++ counts_cells take.now) }
{
    put_number_cell(out, "Next", take.next)?;
    put_number_cell(out, "Held", take.held)?;
    put_number_cell(out, "Refused", take.refused)?;
    put_number_cell(out, "Delayed", take.delayed)
}

/// Appends the start of a cell under this heading.
#[tactic(auto, using(std::proofs::lemmas::List::append_assoc), unfolding(crate::specs::Rows::cell_start))]
fn put_cell_start(out: &mut Vec<u8>, heading: &str) -> Result<(), AllocError>
    ensures { OnOk result (out.new.items ≡ out.old.items ++ cell_start heading.now) }
{
    put_part(out, "<td data-heading=\"", heading)?;
    out.extend_from_slice(b"\">")
}

/// Appends a cell with a text, which is escaped.
#[tactic(auto, using(std::proofs::lemmas::List::append_assoc), unfolding(crate::specs::Rows::text_cell))]
fn put_text_cell(out: &mut Vec<u8>, heading: &str, text: &str) -> Result<(), AllocError>
    ensures { OnOk result (out.new.items ≡ out.old.items ++ text_cell heading.now text.now) }
{
    put_cell_start(out, heading)?;
    put_escaped(out, text)?;
    out.extend_from_slice(b"</td>")
}

/// Appends a cell with a number.
#[tactic(auto, using(std::proofs::lemmas::List::append_assoc), unfolding(crate::specs::Rows::number_cell))]
fn put_number_cell(out: &mut Vec<u8>, heading: &str, number: u64) -> Result<(), AllocError>
    ensures { OnOk result (out.new.items ≡ out.old.items ++ number_cell heading.now number) }
{
    put_cell_start(out, heading)?;
    put_number(out, number)?;
    out.extend_from_slice(b"</td>")
}

/// Appends a cell with milliseconds as a time, or an empty one.
#[tactic(auto, using(std::proofs::lemmas::List::append_assoc))]
fn put_clock_cell(out: &mut Vec<u8>, heading: &str, ms: Option<u64>) -> Result<(), AllocError>
    ensures { OnOk result (out.new.items ≡ out.old.items ++ clock_cell heading.now ms) }
{
    let Some(ms) = ms else {
        return put_text_cell(out, heading, "");
    };
    put_cell_start(out, heading)?;
    put_clock(out, ms)?;
    out.extend_from_slice(b"</td>")
}

/// Appends a cell with a format, or an empty one.
fn put_format_cell(out: &mut Vec<u8>, format: &Option<SoundFormat>) -> Result<(), AllocError>
    ensures { OnOk result (out.new.items ≡ out.old.items ++ format_cell format.now) }
{
    let Some(format) = format else {
        return put_text_cell(out, "Format", "");
    };
    put_sound_cell(
        out,
        u64::from(format.rate),
        u64::from(format.bits),
        u64::from(format.channels),
    )
}

/// Appends a cell with the frames per second, bits per sample and samples per frame.
fn put_sound_cell(out: &mut Vec<u8>, rate: u64, bits: u64, channels: u64) -> Result<(), AllocError>
    ensures { OnOk result (out.new.items ≡ out.old.items ++ sound_cell rate bits channels) }
{
    put_cell_start(out, "Format")?;
    put_number(out, rate)?;
    put_text(out, " Hz, ")?;
    put_number(out, bits)?;
    put_text(out, " bit, ")?;
    put_number(out, channels)?;
    put_text(out, " ch</td>")
}

/// An address as text; nothing for none.
pub(crate) fn address_text(alloc: Global, peer: &Option<SocketAddr>) -> Result<String, AllocError>
    ensures { IfOk result (λ text. string_bytes text ≡ address_text peer.now) }
{
    match peer {
        Some(peer) => format!(in alloc; "{peer}"),
        None => Ok(String::new(alloc)),
    }
}
