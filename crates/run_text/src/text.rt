//! A run in threads, and its text.

ghost use Rattle.std.specs.Prelude.{◌≡◌, IfOk};
ghost use Rattle.run_text.specs.Runs.{IsRunOutput};

use commands::journal_output;
use op_model::NoMemory;
use std::alloc::Global;
use std::sync::Wait;
use std::thread::Threads;
use thread_run::{Gate, run_threads};
use trace_text::{Trace, programs};

/// What `run` writes of a trace. Its programs are run in threads, each processor and each controller as a role of its own; the journal of that run is made once more on the machine of one thread, which then completes what is left; and the text is that of all these steps and of the report of their run. It returns only if the threads come to their ends.
pub fn run_text<R: Threads + Wait + Sync, G: Gate + Sync>(
    rt: &R,
    alloc: Global,
    trace: &Trace,
    gate: &G,
) -> Result<Vec<u8>, NoMemory>
    ensures { IfOk result (λ text. IsRunOutput trace.now text.items) }
{
    let cfg = trace.cfg();
    let programs = programs(alloc, trace)?;
    let ran = run_threads(rt, alloc, cfg, programs, gate)?;
    journal_output(alloc, trace, &ran.journal)
}
