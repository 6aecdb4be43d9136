//! The machine of a trace in the eager core, at its start.

ghost use Rattle.std.specs.Prelude.{◌≡◌, [], IfOk};
ghost use Rattle.eager_command.specs.Played.{machine_of};

use eager_machine::EagerMachine;
use op_model::NoMemory;
use std::alloc::Global;
use trace_text::{Trace, programs};

/// The machine of a trace at its start, with its nodes' programs.
pub(crate) fn machine_at_start(alloc: Global, trace: &Trace) -> Result<EagerMachine, NoMemory>
    ensures { IfOk result (λ made. made ≡ machine_of trace.now []) }
{
    let cfg = trace.cfg();
    let programs = programs(alloc, trace)?;
    EagerMachine::start(alloc, cfg, programs)
}
