//! The page.
ghost use Rattle.std.specs.Prelude.{◌≡◌, ◌++◌, flat_map, OnOk};
ghost use Rattle.bw_status.specs.Pages.{all_counts, count_fact, counts_facts, fact_start, facts};
ghost use Rattle.bw_status.specs.Pages.{left_out_item, page_start, places_fact, status_page};
ghost use Rattle.bw_status.specs.Pages.{server_facts};
ghost use Rattle.bw_status.specs.Rows.{row};

use crate::page_text::{PAGE_COUNTS, PAGE_END, PAGE_FACTS, PAGE_START, PAGE_TAKES};
use crate::row::put_row;
use crate::snapshot::{Count, LeftOutName, Snapshot, TakeStatus, health_text};
use crate::text::{put_clock, put_escaped, put_number, put_text};
use std::alloc::{AllocError, Global};

/// Appends the page.
#[tactic(auto, using(std::proofs::lemmas::List::append_assoc))]
pub(crate) fn put_page(
    alloc: Global,
    out: &mut Vec<u8>,
    snapshot: &Snapshot,
) -> Result<(), AllocError>
    ensures { OnOk result (out.new.items ≡ out.old.items ++ status_page snapshot.now) }
{
    put_start(out, snapshot)?;
    put_text(out, PAGE_TAKES)?;
    put_all_rows(alloc, out, snapshot)?;
    put_text(out, PAGE_COUNTS)?;
    put_all_counts(out, snapshot)?;
    put_text(out, PAGE_END)
}

/// Appends the start of the page: the names that are left out, and what is reported of the server.
#[tactic(auto, using(std::proofs::lemmas::List::append_assoc))]
fn put_start(out: &mut Vec<u8>, snapshot: &Snapshot) -> Result<(), AllocError>
    ensures { OnOk result (out.new.items ≡ out.old.items ++ page_start snapshot.now) }
{
    put_text(out, PAGE_START)?;
    put_all_left_outs(out, snapshot)?;
    put_text(out, PAGE_FACTS)?;
    put_facts(out, snapshot)
}

/// Appends the names that are left out.
fn put_all_left_outs(out: &mut Vec<u8>, snapshot: &Snapshot) -> Result<(), AllocError>
    ensures { OnOk result (out.new.items
        ≡ out.old.items ++ flat_map left_out_item snapshot.now.left_out.items) }
{
    put_left_outs(out, snapshot.left_out.as_slice())
}

fn put_left_outs(out: &mut Vec<u8>, names: &[LeftOutName]) -> Result<(), AllocError>
    ensures { OnOk result (out.new.items ≡ out.old.items ++ flat_map left_out_item names.now) }
{
    for name in names {
        put_left_out(out, name)?;
    }
    Ok(())
}

/// Appends a name that is left out, and why.
#[tactic(auto, using(std::proofs::lemmas::List::append_assoc))]
fn put_left_out(out: &mut Vec<u8>, name: &LeftOutName) -> Result<(), AllocError>
    ensures { OnOk result (out.new.items ≡ out.old.items ++ left_out_item name.now) }
{
    out.extend_from_slice(b"<li>")?;
    put_escaped(out, name.name.as_str())?;
    put_text(out, ": ")?;
    put_escaped(out, name.cause.as_str())?;
    put_text(out, ", left out</li>\n")
}

/// Appends what is reported of the server.
#[tactic(auto, using(std::proofs::lemmas::List::append_assoc))]
fn put_facts(out: &mut Vec<u8>, snapshot: &Snapshot) -> Result<(), AllocError>
    ensures { OnOk result (out.new.items ≡ out.old.items ++ facts snapshot.now) }
{
    put_server_facts(out, snapshot)?;
    put_places(out, snapshot.connections, snapshot.places)?;
    put_count(out, "Ended", snapshot.ended)?;
    put_count(out, "Resumed", snapshot.resumed)?;
    put_count(out, "Bytes", snapshot.bytes)?;
    put_count(out, "Lines left out", snapshot.lines_dropped)
}

/// Appends whether the server is well, and how long it has been running.
#[tactic(auto, using(std::proofs::lemmas::List::append_assoc), unfolding(crate::specs::Pages::server_facts))]
fn put_server_facts(out: &mut Vec<u8>, snapshot: &Snapshot) -> Result<(), AllocError>
    ensures { OnOk result (out.new.items ≡ out.old.items ++ server_facts snapshot.now) }
{
    put_fact_start(out, "Server")?;
    put_escaped(out, health_text(snapshot.health))?;
    out.extend_from_slice(b"</dd></div>\n")?;
    put_fact_start(out, "Up")?;
    put_clock(out, snapshot.uptime_ms)?;
    out.extend_from_slice(b"</dd></div>\n")
}

/// Appends how many of the places have a connection.
#[tactic(auto, using(std::proofs::lemmas::List::append_assoc))]
fn put_places(out: &mut Vec<u8>, connections: u64, places: u64) -> Result<(), AllocError>
    ensures { OnOk result (out.new.items ≡ out.old.items ++ places_fact connections places) }
{
    put_fact_start(out, "Connections")?;
    put_number(out, connections)?;
    put_text(out, " of ")?;
    put_number(out, places)?;
    put_text(out, "</dd></div>\n")
}

/// Appends the start of a fact of this name.
#[tactic(auto, using(std::proofs::lemmas::List::append_assoc), unfolding(crate::specs::Pages::fact_start))]
fn put_fact_start(out: &mut Vec<u8>, name: &str) -> Result<(), AllocError>
    ensures { OnOk result (out.new.items ≡ out.old.items ++ fact_start name.now) }
{
    out.extend_from_slice(b"<div><dt>")?;
    put_escaped(out, name)?;
    out.extend_from_slice(b"</dt><dd>")
}

/// Appends how often something happened.
#[tactic(auto, using(std::proofs::lemmas::List::append_assoc), unfolding(crate::specs::Pages::count_fact))]
fn put_count(out: &mut Vec<u8>, name: &str, count: u64) -> Result<(), AllocError>
    ensures { OnOk result (out.new.items ≡ out.old.items ++ count_fact name.now count) }
{
    put_fact_start(out, name)?;
    put_number(out, count)?;
    out.extend_from_slice(b"</dd></div>\n")
}

/// Appends how many messages came, and what was replied.
#[tactic(auto, using(std::proofs::lemmas::List::append_assoc))]
fn put_all_counts(out: &mut Vec<u8>, snapshot: &Snapshot) -> Result<(), AllocError>
    ensures { OnOk result (out.new.items ≡ out.old.items ++ all_counts snapshot.now) }
{
    put_counts(out, snapshot.messages.as_slice())?;
    put_counts(out, snapshot.verdicts.as_slice())?;
    put_counts(out, snapshot.notices.as_slice())
}

fn put_counts(out: &mut Vec<u8>, counts: &[Count]) -> Result<(), AllocError>
    ensures { OnOk result (out.new.items ≡ out.old.items ++ counts_facts counts.now) }
{
    for count in counts {
        put_count(out, count.kind, count.count)?;
    }
    Ok(())
}

/// Appends a row for each take.
fn put_all_rows(alloc: Global, out: &mut Vec<u8>, snapshot: &Snapshot) -> Result<(), AllocError>
    ensures { OnOk result (out.new.items
        ≡ out.old.items ++ flat_map row snapshot.now.takes.items) }
{
    put_rows(alloc, out, snapshot.takes.as_slice())
}

fn put_rows(alloc: Global, out: &mut Vec<u8>, takes: &[TakeStatus]) -> Result<(), AllocError>
    ensures { OnOk result (out.new.items ≡ out.old.items ++ flat_map row takes.now) }
{
    for take in takes {
        put_row(alloc, out, take)?;
    }
    Ok(())
}
