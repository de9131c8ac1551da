//! A metric: its head, and a line for each value.
ghost use Rattle.std.specs.Prelude.{◌≡◌, ◌++◌, flat_map, OnOk};
ghost use Rattle.bw_status.specs.Metrics.{count_line, family, kind_line, metric, metric_head};

use crate::snapshot::Count;
use crate::text::{put_number, put_part};
use std::alloc::AllocError;

/// Appends what a metric is: its name, its help, and whether it is a gauge or a counter.
#[tactic(auto, using(std::proofs::lemmas::List::append_assoc), unfolding(crate::specs::Metrics::metric_head))]
pub(crate) fn put_head(
    out: &mut Vec<u8>,
    name: &str,
    help: &str,
    kind: &str,
) -> Result<(), AllocError>
    ensures { OnOk result (out.new.items ≡ out.old.items
        ++ metric_head name.now help.now kind.now) }
{
    put_part(out, "# HELP ", name)?;
    put_part(out, " ", help)?;
    put_part(out, "\n# TYPE ", name)?;
    put_part(out, " ", kind)?;
    out.extend_from_slice(b"\n")
}

/// Appends a metric of one value.
#[tactic(auto, using(std::proofs::lemmas::List::append_assoc), unfolding(crate::specs::Metrics::metric))]
pub(crate) fn put_metric(
    out: &mut Vec<u8>,
    name: &str,
    help: &str,
    kind: &str,
    value: u64,
) -> Result<(), AllocError>
    ensures { OnOk result (out.new.items ≡ out.old.items
        ++ metric name.now help.now kind.now value) }
{
    put_head(out, name, help, kind)?;
    put_part(out, name, " ")?;
    put_number(out, value)?;
    out.extend_from_slice(b"\n")
}

/// Appends a counter that has a value for each kind, under this label.
#[tactic(auto, using(std::proofs::lemmas::List::append_assoc), unfolding(crate::specs::Metrics::family))]
pub(crate) fn put_family(
    out: &mut Vec<u8>,
    name: &str,
    help: &str,
    label: &str,
    counts: &[Count],
) -> Result<(), AllocError>
    ensures { OnOk result (out.new.items ≡ out.old.items
        ++ family name.now help.now label.now counts.now) }
{
    put_head(out, name, help, "counter")?;
    put_lines(out, name, label, counts)
}

fn put_lines(out: &mut Vec<u8>, name: &str, label: &str, counts: &[Count]) -> Result<(), AllocError>
    ensures { OnOk result (out.new.items ≡ out.old.items
        ++ flat_map (count_line name.now label.now) counts.now) }
{
    for count in counts {
        put_line(out, name, label, count.kind, count.count)?;
    }
    Ok(())
}

/// Appends the line of a kind.
#[tactic(auto, using(std::proofs::lemmas::List::append_assoc), unfolding(crate::specs::Metrics::kind_line))]
pub(crate) fn put_line(
    out: &mut Vec<u8>,
    name: &str,
    label: &str,
    kind: &str,
    count: u64,
) -> Result<(), AllocError>
    ensures { OnOk result (out.new.items ≡ out.old.items
        ++ kind_line name.now label.now kind.now count) }
{
    put_part(out, name, "{")?;
    put_part(out, label, "=\"")?;
    put_part(out, kind, "\"} ")?;
    put_number(out, count)?;
    out.extend_from_slice(b"\n")
}
