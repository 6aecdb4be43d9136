//! The whole text of a run.

ghost use Rattle.std.specs.Prelude.{◌≡◌, IfOk};
ghost use Rattle.eager_report.specs.Machines.{report_of};

use crate::histories::put_histories;
use crate::machine::EagerReported;
use decimal_text::put_bytes;
use dir_report::{put_counts, put_lines};
use op_model::NoMemory;
use std::alloc::Global;

/// The text of the machine's run, as bytes: the histories of all lines with their ages, the lines whose header isn't the first one, and the counts. A line that drains prints its wait as `drain:<node>:<acks>`.
#[tactic(auto, unfolding(crate::specs::Reports::report_text))]
pub fn report<M: EagerReported>(alloc: Global, m: &M) -> Result<Vec<u8>, NoMemory>
    ensures { IfOk result (λ text. text.items ≡ report_of (M.meaning m.now)) }
{
    let mut out = Vec::new(alloc);
    put_bytes(&mut out, b"flash eager 1\n")?;
    put_histories(alloc, &mut out, m)?;
    put_lines(alloc, &mut out, b"lines ", m)?;
    put_counts(&mut out, m.counts())?;
    put_bytes(&mut out, b"end\n")?;
    Ok(out)
}
