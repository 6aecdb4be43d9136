//! The histories of all lines.

ghost use Rattle.std.specs.Prelude.{◌≡◌, ◌++◌, map, IfOk, OnOk};
ghost use Rattle.eager_report.specs.Orders.{as_aged};
ghost use Rattle.eager_report.specs.Reports.{aged_line, all_histories, histories_text};

use crate::aged::AgedEntry;
use crate::machine::EagerReported;
use crate::order::{line_of, order};
use decimal_text::{put_bytes, put_decimal, put_named};
use dir_report::put_entry;
use line_map::Machine;
use op_model::NoMemory;
use std::alloc::Global;

/// The completed operations of all lines, line by line, those of each line as its history has them.
fn histories<M: EagerReported>(alloc: Global, m: &M) -> Result<Vec<AgedEntry>, NoMemory>
    ensures { IfOk result (λ v. map as_aged v.items ≡ all_histories (M.meaning m.now).sizes (M.meaning m.now).past) }
{
    let mut entries = m.completed(alloc)?;
    order(&m.sizes(), &mut entries)?;
    Ok(entries)
}

fn put_aged(out: &mut Vec<u8>, cfg: &Machine, aged: &AgedEntry) -> Result<(), NoMemory>
    ensures { OnOk result (out.new.items ≡ out.old.items ++ aged_line cfg.now (as_aged aged.now)) }
{
    put_decimal(out, u64::from(line_of(cfg, aged)))?;
    put_bytes(out, b" ")?;
    put_decimal(out, aged.age)?;
    put_bytes(out, b" ")?;
    put_entry(out, &aged.entry)
}

/// Appends the number of entries and a line for each one.
#[tactic(auto, unfolding(crate::specs::Reports::histories_text))]
fn put_entries(out: &mut Vec<u8>, cfg: &Machine, entries: &[AgedEntry]) -> Result<(), NoMemory>
    ensures { OnOk result (out.new.items ≡ out.old.items ++ histories_text cfg.now (map as_aged entries.now)) }
{
    put_named(out, b"history ", entries.len() as u64)?;
    for aged in entries {
        put_aged(out, cfg, aged)?;
    }
    Ok(())
}

/// Appends the histories of all lines.
pub(crate) fn put_histories<M: EagerReported>(
    alloc: Global,
    out: &mut Vec<u8>,
    m: &M,
) -> Result<(), NoMemory>
    ensures { OnOk result (out.new.items ≡ out.old.items ++ histories_text (M.meaning m.now).sizes (all_histories (M.meaning m.now).sizes (M.meaning m.now).past)) }
{
    let entries = histories(alloc, m)?;
    put_entries(out, &m.sizes(), &entries)
}
