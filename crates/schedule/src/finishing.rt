//! The finishing schedule.

ghost use Rattle.std.specs.Prelude.{◌≡◌, ◌≤◌, ◌+◌, length, IfSome, OnOk, OnErr};
ghost use Rattle.op_model.specs.Run.Machines.{IsRunning};
ghost use Rattle.schedule.specs.Chosen.{AreDoneTo, IsOpIn, first_op, next_op_at};
ghost use Rattle.schedule.specs.Made.{HasFinished, HasBegun, most_to_finish};

use crate::next::advance;
use crate::steps::Steps;
use machine_face::MachineFace;
use op_model::{NoMemory, Op};
use schedule_laws::every_finish;
use std::sync::ledger::Ledger;

/// The least node that has an operation left, where those before a node have none. Past the last one where none has.
fn first_unfinished<M: MachineFace>(m: &M, from: u32) -> u32
    requires within { from ≤ (M.meaning m.now).sizes.nodes }
    requires done { AreDoneTo (M.meaning m.now) from }
    ensures within { result ≤ (M.meaning m.now).sizes.nodes }
    ensures done { AreDoneTo (M.meaning m.now) result }
    ensures first { first_op (M.meaning m.now) ≡ next_op_at (M.meaning m.now) result }
{
    let nodes = m.cfg().nodes();
    for node in from..nodes {
        if m.next_op(node).is_some() {
            return node;
        }
    }
    nodes
}

/// The next operation of a node, or none past the last node.
fn next_op_of<M: MachineFace>(m: &M, node: u32) -> Option<Op>
    requires { node ≤ (M.meaning m.now).sizes.nodes }
    ensures value { result ≡ next_op_at (M.meaning m.now) node }
    ensures within { IfSome result (IsOpIn (M.meaning m.now).sizes) }
{
    if node < m.cfg().nodes() {
        m.next_op(node)
    } else {
        None
    }
}

/// Makes the finishing schedule: what is under way is delivered, and then the operations that are left are completed, node by node. It ends at rest with every program done. After want of memory the machine has made the first events of that schedule.
pub fn finish<M: MachineFace, L: Ledger>(m: &mut M, steps: &mut Steps<L>) -> Result<(), NoMemory>
    ensures ok { OnOk result (HasFinished (M.meaning m.old) (M.meaning m.new)) }
    ensures err { OnErr result (HasBegun (M.meaning m.old) (M.meaning m.new)) }
    ensures counted { steps.new + length (M.meaning m.old).events ≡ steps.old + length (M.meaning m.new).events }
    ensures within { length (M.meaning m.new).events ≤ length (M.meaning m.old).events + most_to_finish (M.meaning m.old) }
    ensures kept { IsRunning (M.meaning m.new) }
{
    // The machine says here what it keeps, and the law that the schedule ends.
    let _cfg = m.cfg();
    every_finish();
    let mut node = 0;
    loop {
        node = first_unfinished(m, node);
        let op = next_op_of(m, node);
        if !advance(m, op)? {
            return Ok(());
        }
        steps.tick();
    }
}
