//! The run of a machine's programs in threads.

ghost use Rattle.std.specs.Prelude.{◌≡◌, ◌<◌, IfOk, length, All};
ghost use Rattle.op_model.specs.Programs.{ArePrograms};
ghost use Rattle.picker.specs.Choices.{IsChoice};
ghost use Rattle.lane_table.specs.Rule.{parts_from};
ghost use Rattle.lane_table.specs.Views.{AreSeatsOf};
ghost use Rattle.thread_run.specs.Closed.{IsDone};
ghost use Rattle.thread_run.specs.Ran.{IsRan};

use crate::ending::{Ran, ended, settled, unlocked};
use crate::gate::Gate;
use crate::roles::play_all;
use crate::start::{boxes_at_start, roles_at_start};
use lane_table::{LaneTable, NodeSeats};
use line_map::Machine;
use node_box::{Named, NodeBox};
use op_model::{NoMemory, Program};
use picker::{Choice, Picker};
use std::alloc::Global;
use std::marker::Brand;
use std::sync::{Mutex, Wait};
use std::thread::Threads;

// The boxes once all roles are over and every program is done.
fn played<
    K: Named + Send + Sync,
    R: Threads + Wait + Sync,
    G: Gate + Sync,
    F: Choice + Sync + Drop,
>(
    rt: &R,
    alloc: Global,
    gate: &G,
    t: &LaneTable,
    boxes: Vec<Mutex<NodeBox<K>>>,
    choice: F,
) -> Result<Vec<NodeBox<K>>, NoMemory>
    requires table { t.now ≡ K.table }
    requires choice { IsChoice (F.can_answer choice) (F.answers choice) }
    requires some { 0 < length boxes.items }
    ensures done { IfOk result (λ all. All (λ b. IsDone b.node) all.items) }
    ensures places { IfOk result (λ all. length all.items ≡ length boxes.items) }
{
    let picker = Picker::new(choice);
    let Ok(roles) = roles_at_start(alloc, t.cfg().nodes()) else {
        return Err(NoMemory);
    };
    if !play_all(rt, gate, t, boxes.as_slice(), &picker, roles.as_slice()) {
        return Err(NoMemory);
    }
    let Ok(boxes) = unlocked(alloc, boxes) else {
        return Err(NoMemory);
    };
    let Ok(roles) = unlocked(alloc, roles) else {
        return Err(NoMemory);
    };
    settled(rt, gate, t, boxes, &picker, roles)
}

// The run at the table that `K` names.
fn run_named<
    K: Named + Send + Sync,
    R: Threads + Wait + Sync,
    G: Gate + Sync,
    F: Choice + Sync + Drop,
>(
    rt: &R,
    alloc: Global,
    gate: &G,
    t: LaneTable,
    seats: NodeSeats,
    programs: Vec<Program>,
    choice: F,
) -> Result<Ran, NoMemory>
    requires table { t ≡ K.table }
    requires told { t.setup.programs ≡ programs.items }
    requires seats { AreSeatsOf t seats }
    requires parts { seats.parts ≡ parts_from t.setup.sizes 0 programs.items }
    requires programs { ArePrograms t.setup.sizes programs.items }
    requires choice { IsChoice (F.can_answer choice) (F.answers choice) }
    ensures { IfOk result (λ ran. IsRan t.setup ran.journal.items ran.nodes.items ran.logs.items) }
{
    let boxes = boxes_at_start::<K>(alloc, &t, seats, programs)?;
    let boxes = played(rt, alloc, gate, &t, boxes, choice)?;
    ended(alloc, t, boxes)
}

// The run whose controllers pick their links by this choice.
fn run_by_choice<R: Threads + Wait + Sync, G: Gate + Sync, F: Choice + Sync + Drop>(
    rt: &R,
    alloc: Global,
    cfg: Machine,
    programs: Vec<Program>,
    gate: &G,
    choice: F,
) -> Result<Ran, NoMemory>
    requires programs { ArePrograms cfg programs.items }
    requires choice { IsChoice (F.can_answer choice) (F.answers choice) }
    ensures { IfOk result (λ ran. IsRan (record { sizes = cfg; programs = programs.items }) ran.journal.items ran.nodes.items ran.logs.items) }
{
    let (t, seats) = LaneTable::new(alloc, cfg, programs.as_slice())?;
    run_named::<Brand, R, G, F>(rt, alloc, gate, t, seats, programs, choice)
}

/// Runs the programs, one a node of the machine, with the processor and the controller of each node as roles of their own. Each role has a thread, or where none can be started for it, its turns in the calling one. Before each turn the gate is called. It returns only if the roles come to their ends.
pub fn run_threads<R: Threads + Wait + Sync, G: Gate + Sync>(
    rt: &R,
    alloc: Global,
    cfg: Machine,
    programs: Vec<Program>,
    gate: &G,
) -> Result<Ran, NoMemory>
    requires { ArePrograms cfg programs.items }
    ensures { IfOk result (λ ran. IsRan (record { sizes = cfg; programs = programs.items }) ran.journal.items ran.nodes.items ran.logs.items) }
{
    run_by_choice(rt, alloc, cfg, programs, gate, |word, n| {
        (word % u64::from(n)) as u32
    })
}
