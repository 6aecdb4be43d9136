//! What is counted in a run.

ghost use Rattle.std.specs.Prelude.{◌≡◌, ◌++◌, List, map, OnOk};
ghost use Rattle.line_map.specs.Sizes.{Sizes};
ghost use Rattle.op_model.specs.Run.Counts.{Moment, all_counts, counted};
ghost use Rattle.dir_report.specs.Reports.{count_line, count_above, counts_text};

use decimal_text::{put_bytes, put_decimal};
use op_model::{Count, NoMemory};

/// Appends the counts of a run, whose numbers are given in their order: that of all events, and each other one where it is above 0. Where memory is wanting, some of them may have been appended.
pub fn put_counts(out: &mut Vec<u8>, counts: &[u64; 27]) -> Result<(), NoMemory>
    ensures { (sizes : Sizes) (moments : List Moment) → counts.now ≡ map (counted moments) (all_counts sizes) → OnOk result (out.new.items ≡ out.old.items ++ counts_text sizes moments) }
{
    put_bytes(out, b"counts\n")?;
    put_count(out, Count::at(0).name(), counts[0])?;
    for i in 1..Count::ALL.len() as u32 {
        put_above(out, Count::at(i).name(), counts[i as usize])?;
    }
    Ok(())
}

pub(crate) fn put_above(out: &mut Vec<u8>, name: &str, n: u64) -> Result<(), NoMemory>
    ensures { OnOk result (out.new.items ≡ out.old.items ++ count_above name.now n) }
{
    if n == 0 {
        return Ok(());
    }
    put_count(out, name, n)
}

pub(crate) fn put_count(out: &mut Vec<u8>, name: &str, n: u64) -> Result<(), NoMemory>
    ensures { OnOk result (out.new.items ≡ out.old.items ++ count_line name.now n) }
{
    put_bytes(out, name.as_bytes())?;
    put_bytes(out, b" ")?;
    put_decimal(out, n)?;
    put_bytes(out, b"\n")
}
