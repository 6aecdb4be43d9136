//! The serial schedule.

ghost use Rattle.std.specs.Prelude.{◌≡◌, ◌≤◌, ◌*◌, ◌+◌, [], length, slice_get, IfSome, OnOk, OnErr};
ghost use Rattle.op_model.specs.Run.Schedules.{current, IsSerial};
ghost use Rattle.op_model.specs.Shares.{Trace};
ghost use Rattle.op_model.specs.Run.Machines.{IsRunning};
ghost use Rattle.op_model.specs.Programs.{IsOrderOf};
ghost use Rattle.schedule.specs.Chosen.{AreOpsIn, AreCompletedTo};
ghost use Rattle.schedule.specs.Made.{IsSerialRun, HasBegunSerial, most_for_one};

use crate::next::advance;
use crate::steps::Steps;
use machine_face::MachineFace;
use op_model::{NoMemory, Op};
use schedule_laws::every_serial;
use std::sync::ledger::Ledger;

/// The place of the first operation of an order that isn't completed, where those before a place are.
fn first_uncompleted<M: MachineFace>(m: &M, order: &[Op], from: usize) -> usize
    requires ops { AreOpsIn (M.meaning m.now).sizes order.now }
    requires within { from ≤ length order.now }
    requires completed { AreCompletedTo order.now from (M.meaning m.now).past.state }
    ensures within { result ≤ length order.now }
    ensures completed { AreCompletedTo order.now result (M.meaning m.now).past.state }
    ensures current { current order.now (M.meaning m.now).past.state ≡ slice_get order.now result }
{
    for at in from..order.len() {
        let op = order[at];
        if m.done_count(op.node) <= op.index {
            return at;
        }
    }
    order.len()
}

/// The operation at a place of an order.
fn op_at(order: &[Op], at: usize) -> Option<Op>
    ensures { result ≡ slice_get order.now at }
{
    order.get(at).copied()
}

/// Makes the serial schedule, from the start on: the operations are completed one after another, in this order. It ends at rest, and the history is the order. After want of memory the machine has made the first events of that schedule.
pub fn serial<M: MachineFace, L: Ledger>(
    m: &mut M,
    order: &[Op],
    steps: &mut Steps<L>,
) -> Result<(), NoMemory>
    requires unused { (M.meaning m.old).events ≡ [] }
    requires ordered { IsOrderOf (M.meaning m.old).programs order.now }
    ensures ok { OnOk result (IsSerialRun order.now (M.meaning m.old) (M.meaning m.new)) }
    ensures trace { (trace : Trace) → trace.sizes ≡ (M.meaning m.old).sizes → trace.ops ≡ order.now → OnOk result (IsSerial (M.meaning m.old).charge trace (M.meaning m.new).events (M.meaning m.new).past) }
    ensures err { OnErr result (HasBegunSerial order.now (M.meaning m.old) (M.meaning m.new)) }
    ensures counted { steps.new ≡ steps.old + length (M.meaning m.new).events }
    ensures within { length (M.meaning m.new).events ≤ most_for_one (M.meaning m.old) * length order.now }
    ensures kept { IsRunning (M.meaning m.new) }
{
    // The machine says here what it keeps, and the law that the schedule ends.
    let _cfg = m.cfg();
    every_serial();
    let mut at = 0;
    loop {
        at = first_uncompleted(m, order, at);
        let op = op_at(order, at);
        if !advance(m, op)? {
            return Ok(());
        }
        steps.tick();
    }
}
