//! One event, made.

ghost use Rattle.std.specs.Prelude.{◌≡◌, OnOk, OnErr};
ghost use Rattle.op_model.specs.Run.Machines.{IsRunning, IsApplied, IsEnabled, IsEventOf};

use machine_face::{ApplyError, MachineFace};
use op_model::{Event, NoMemory};

/// Makes an event that is enabled. After want of memory nothing has changed.
pub(crate) fn make<M: MachineFace>(m: &mut M, event: Event) -> Result<(), NoMemory>
    requires within { IsEventOf (M.meaning m.old).sizes event }
    requires enabled { IsEnabled (M.meaning m.old) event }
    ensures ok { OnOk result (IsApplied (M.meaning m.old) event (M.meaning m.new)) }
    ensures err { OnErr result (M.meaning m.new ≡ M.meaning m.old) }
    ensures kept { IsRunning (M.meaning m.new) }
{
    match m.apply(event) {
        Ok(()) => Ok(()),
        Err(ApplyError::Memory) => Err(NoMemory),
        Err(ApplyError::NotEnabled(_)) => unreachable!(),
    }
}
