//! The steps of a trace.

ghost use Rattle.std.specs.Prelude.{◌≡◌, ◌<◌, ◌^◌, length, OnOk, IfErr};
ghost use Rattle.op_model.specs.Run.Machines.{IsRunning};
ghost use Rattle.commands.specs.Steps.{AreStepsOf, HasMade, IsStopped, stopped_at};

use machine_face::{ApplyError, MachineFace};
use op_model::{Cause, Event};

/// Why the steps weren't all made.
#[derive(Clone, Copy, Debug, PartialEq, Eq)]
pub enum ReplayError {
    /// A step isn't enabled, for its first cause. Steps count from 1.
    NotEnabled { step: u64, cause: Cause },
    /// Want of memory.
    Memory,
}

/// How a machine that refuses the step of this number stops the steps.
pub fn stopped(step: u64, error: ApplyError) -> ReplayError
    ensures { result ≡ stopped_at step error }
{
    match error {
        ApplyError::NotEnabled(cause) => ReplayError::NotEnabled { step, cause },
        ApplyError::Memory => ReplayError::Memory,
    }
}

/// Makes steps one after another, up to the first one that isn't enabled.
pub fn replay<M: MachineFace>(m: &mut M, steps: &[Event]) -> Result<(), ReplayError>
    requires within { AreStepsOf (M.meaning m.old) steps.now }
    requires few { length steps.now < 2 ^ 63 }
    ensures ok { OnOk result (HasMade (M.meaning m.old) steps.now (M.meaning m.new)) }
    ensures stopped { IfErr result (IsStopped (M.meaning m.old) steps.now) }
    ensures kept { IsRunning (M.meaning m.new) }
{
    // The machine says here what it keeps.
    let _cfg = m.cfg();
    let mut made = 0;
    for step in steps {
        made += 1;
        match m.apply(*step) {
            Ok(()) => {}
            Err(error) => return Err(stopped(made, error)),
        }
    }
    Ok(())
}
