//! The end: what the locks give back, the last turns, and the boxes taken apart.

ghost use Rattle.std.specs.Prelude.{◌≡◌, ◌<◌, ◌↔◌, IsTrue, IfOk, IfSome, OnOk, length, map, All};
ghost use Rattle.step_journal.specs.Logs.{entries_of};
ghost use Rattle.thread_run.specs.Closed.{IsDone, IsSoundNode, IsClosed, box_node, box_entries, box_seat};
ghost use Rattle.thread_run.specs.Ran.{IsRan};

use crate::gate::Gate;
use crate::player::Player;
use lane_table::{LaneTable, NodeSeat};
use magic_node::MagicNode;
use node_box::{Named, NodeBox, Turn};
use op_model::{Event, NoMemory};
use picker::{Choice, Picker};
use sharer_dir::{LinkedDir, Sharers};
use std::alloc::{AllocError, Global};
use std::sync::{Mutex, Wait};
use step_journal::{Log, merge};

/// What a run in threads answers: its journal, and at each place a node and the log of that node.
#[derive(Drop)]
pub struct Ran {
    pub journal: Vec<Event>,
    pub nodes: Vec<MagicNode<LinkedDir>>,
    pub logs: Vec<Log>,
}

/// What stood under the locks.
pub(crate) fn unlocked<T: Drop>(alloc: Global, locks: Vec<Mutex<T>>) -> Result<Vec<T>, AllocError>
    ensures { IfOk result (λ all. length all.items ≡ length locks.items) }
{
    let mut all = Vec::new(alloc);
    for lock in locks {
        all.push(lock.into_inner())?;
    }
    Ok(all)
}

// Whether the node has completed its program.
fn is_done<K: Named>(node: &NodeBox<K>) -> bool
    ensures { IsTrue result ↔ IsDone node.now.node }
{
    let proc = node.node().proc();
    proc.done_count() == proc.program().len()
}

// Whether each node has completed its program.
fn all_done<K: Named>(boxes: &[NodeBox<K>]) -> bool
    ensures { IsTrue result ↔ All (λ b. IsDone b.node) boxes.now }
{
    boxes.iter().all(|node| is_done(node))
}

// One turn of each role in this thread. False where one lacked memory.
fn last_round<K: Named, G: Gate, F: Choice>(
    gate: &G,
    t: &LaneTable,
    boxes: &mut [NodeBox<K>],
    picker: &Picker<F>,
    roles: &mut [Player],
) -> bool
    requires table { t.now ≡ K.table }
    requires some { 0 < length boxes.old }
{
    for i in 0..roles.len() {
        let role = &mut roles[i];
        role.pass(gate);
        let node = &mut boxes[i % boxes.len()];
        if matches!(role.act(t, node, picker), Turn::Memory) {
            return false;
        }
    }
    true
}

// Plays turns of all roles in this thread until every program is done. False where memory was lacking.
fn settle<K: Named, R: Wait, G: Gate, F: Choice>(
    rt: &R,
    gate: &G,
    t: &LaneTable,
    boxes: &mut [NodeBox<K>],
    picker: &Picker<F>,
    roles: &mut [Player],
) -> bool
    requires table { t.now ≡ K.table }
    requires some { 0 < length boxes.old }
    ensures { IsTrue result → All (λ b. IsDone b.node) boxes.new }
{
    for _ in rt.forever() {
        if all_done(boxes) {
            return true;
        }
        if !last_round(gate, t, boxes, picker, roles) {
            return false;
        }
    }
    unreachable!()
}

/// The boxes, once every program is done. The roles leave nothing to play, but what a lock gives back doesn't tell that.
pub(crate) fn settled<K: Named, R: Wait, G: Gate, F: Choice>(
    rt: &R,
    gate: &G,
    t: &LaneTable,
    mut boxes: Vec<NodeBox<K>>,
    picker: &Picker<F>,
    mut roles: Vec<Player>,
) -> Result<Vec<NodeBox<K>>, NoMemory>
    requires table { t.now ≡ K.table }
    requires some { 0 < length boxes.items }
    ensures done { IfOk result (λ all. All (λ b. IsDone b.node) all.items) }
    ensures places { IfOk result (λ all. length all.items ≡ length boxes.items) }
{
    if settle(
        rt,
        gate,
        t,
        boxes.as_mut_slice(),
        picker,
        roles.as_mut_slice(),
    ) {
        Ok(boxes)
    } else {
        Err(NoMemory)
    }
}

// What boxes are made of, place by place.
#[derive(Drop)]
struct Pieces {
    nodes: Vec<MagicNode<LinkedDir>>,
    logs: Vec<Log>,
    seats: Vec<NodeSeat>,
}

// The node's home and directory say what holds of each.
fn told(node: &MagicNode<LinkedDir>)
    ensures { IsSoundNode node.now }
{
    let home = node.home();
    let _cfg = home.cfg();
    let _lines = home.dir().lines();
}

// The nodes, the logs and the seats of boxes whose programs are done.
fn taken_apart<K: Named>(alloc: Global, boxes: Vec<NodeBox<K>>) -> Result<Pieces, AllocError>
    requires { All (λ b. IsDone b.node) boxes.items }
    ensures nodes { IfOk result (λ r. r.nodes.items ≡ map box_node boxes.items) }
    ensures logs { IfOk result (λ r. entries_of r.logs.items ≡ map box_entries boxes.items) }
    ensures seats { IfOk result (λ r. r.seats.items ≡ map box_seat boxes.items) }
    ensures closed { OnOk result (All (IsClosed K.table) boxes.items) }
{
    let mut nodes = Vec::new(alloc);
    let mut logs = Vec::new(alloc);
    let mut seats = Vec::new(alloc);
    for one in boxes {
        let (node, log, seat) = one.into_parts();
        told(&node);
        nodes.push(node)?;
        logs.push(log)?;
        seats.push(seat)?;
    }
    Ok(Pieces { nodes, logs, seats })
}

/// Ends the table, with the seats of all boxes, and merges their logs.
pub(crate) fn ended<K: Named>(
    alloc: Global,
    t: LaneTable,
    boxes: Vec<NodeBox<K>>,
) -> Result<Ran, NoMemory>
    requires table { t ≡ K.table }
    requires places { length boxes.items ≡ K.table.setup.sizes.nodes }
    requires done { All (λ b. IsDone b.node) boxes.items }
    ensures { IfOk result (λ ran. IsRan K.table.setup ran.journal.items ran.nodes.items ran.logs.items) }
{
    let Ok(pieces) = taken_apart(alloc, boxes) else {
        return Err(NoMemory);
    };
    let Pieces { nodes, logs, seats } = pieces;
    let _tickets = t.finish(seats);
    let journal = merge(alloc, logs.as_slice())?;
    Ok(Ran {
        journal,
        nodes,
        logs,
    })
}
