//! The loops of the roles, each in a thread of its own where one can be started.

ghost use Rattle.std.specs.Prelude.{◌≡◌, ◌<◌, length};

use crate::gate::{Gate, Role};
use crate::player::Player;
use lane_table::LaneTable;
use node_box::{Named, NodeBox, Turn};
use picker::{Choice, Picker};
use std::sync::{Mutex, Wait};
use std::thread;
use std::thread::Threads;

// When the roles are to end. No claim rests on it.
#[derive(Drop)]
struct Signal {
    // How many processors haven't answered yet that their programs are ended.
    processors: usize,
    lacks_memory: bool,
}

impl Signal {
    // Notes what a turn of a role answered, and says whether that role is over: each is after want of memory, a processor once its program is ended, and a controller once all processors are over.
    fn ends(&mut self, role: Role, did: Turn) -> bool {
        match (role, did) {
            (_, Turn::Memory) => self.lacks_memory = true,
            (Role::Processor, Turn::Ended) => {
                self.processors = self.processors.saturating_sub(1);
                return true;
            }
            _ => {}
        }
        self.lacks_memory || (role == Role::Controller && self.processors == 0)
    }
}

// What all roles share beside the table and the boxes.
#[derive(Drop)]
struct Shared<'a, G: Gate, F: Choice> {
    gate: &'a G,
    picker: &'a Picker<F>,
    signal: &'a Mutex<Signal>,
}

// What a role does under the lock of its node.
fn act_locked<K: Named, R: Wait, F: Choice>(
    rt: &R,
    t: &LaneTable,
    node: &Mutex<NodeBox<K>>,
    picker: &Picker<F>,
    player: &mut Player,
) -> Turn
    requires { t.now ≡ K.table }
{
    let mut guard = node.lock(rt);
    let node = &mut *guard;
    player.act(t, node, picker)
}

// One turn of a role: the gate, and then what the role does under the lock of its node. Where that makes no event, it is seen whether the role is over, and other threads may go first.
fn play_turn<K: Named, R: Wait, G: Gate, F: Choice>(
    rt: &R,
    shared: &Shared<'_, G, F>,
    t: &LaneTable,
    node: &Mutex<NodeBox<K>>,
    player: &mut Player,
)
    requires { t.now ≡ K.table }
{
    player.pass(shared.gate);
    let did = act_locked(rt, t, node, shared.picker, player);
    if matches!(did, Turn::Did(_)) {
        return;
    }
    let over = shared.signal.lock(rt).ends(player.role(), did);
    player.set_over(over);
    thread::yield_now();
}

// One turn of a role that isn't over. Says whether it is now.
fn play_once<K: Named, R: Wait, G: Gate, F: Choice>(
    rt: &R,
    shared: &Shared<'_, G, F>,
    t: &LaneTable,
    node: &Mutex<NodeBox<K>>,
    role: &Mutex<Player>,
) -> bool
    requires { t.now ≡ K.table }
{
    let mut guard = role.lock(rt);
    let player = &mut *guard;
    if !player.is_over() {
        play_turn(rt, shared, t, node, player);
    }
    player.is_over()
}

// The turns of a role, until it is over.
fn play<K: Named, R: Wait, G: Gate, F: Choice>(
    rt: &R,
    shared: &Shared<'_, G, F>,
    t: &LaneTable,
    node: &Mutex<NodeBox<K>>,
    role: &Mutex<Player>,
)
    requires { t.now ≡ K.table }
{
    for _ in rt.forever() {
        if play_once(rt, shared, t, node, role) {
            break;
        }
    }
}

// One turn of each role from the one numbered `first` on that isn't over. Says whether all of them are now.
fn play_round<K: Named, R: Wait, G: Gate, F: Choice>(
    rt: &R,
    shared: &Shared<'_, G, F>,
    t: &LaneTable,
    boxes: &[Mutex<NodeBox<K>>],
    roles: &[Mutex<Player>],
    first: usize,
) -> bool
    requires table { t.now ≡ K.table }
    requires some { 0 < length boxes.now }
{
    let mut over = true;
    for i in first..roles.len() {
        let node = &boxes[i % boxes.len()];
        if !play_once(rt, shared, t, node, &roles[i]) {
            over = false;
        }
    }
    over
}

// The roles from the one numbered `first` on, which have no threads: turn by turn in this thread, until all of them are over.
fn play_rest<K: Named, R: Wait, G: Gate, F: Choice>(
    rt: &R,
    shared: &Shared<'_, G, F>,
    t: &LaneTable,
    boxes: &[Mutex<NodeBox<K>>],
    roles: &[Mutex<Player>],
    first: usize,
)
    requires table { t.now ≡ K.table }
    requires some { 0 < length boxes.now }
{
    for _ in rt.forever() {
        if play_round(rt, shared, t, boxes, roles, first) {
            break;
        }
    }
}

// Each role in a thread of its own, and from the first on that gets none in this one.
fn start_all<K: Named + Send + Sync, R: Threads + Wait + Sync, G: Gate + Sync, F: Choice + Sync>(
    rt: &R,
    shared: &Shared<'_, G, F>,
    t: &LaneTable,
    boxes: &[Mutex<NodeBox<K>>],
    roles: &[Mutex<Player>],
)
    requires table { t.now ≡ K.table }
    requires some { 0 < length boxes.now }
{
    thread::scope(
        thread::scope_env(),
        rt,
        |scope|
            requires { (t.now ≡ K.table) × (0 < length boxes.now) }
        {
            for i in 0..roles.len() {
                let role = &roles[i];
                let node = &boxes[i % boxes.len()];
                let started = scope.spawn(
                    move ||
                        requires { t.now ≡ K.table }
                    { play(rt, shared, t, node, role) },
                );
                if started.is_err() {
                    play_rest(rt, shared, t, boxes, roles, i);
                    break;
                }
            }
        },
    );
}

/// Plays all roles until they are over. The role numbered i is one of the node whose box stands at i modulo the number of boxes. False where a turn lacked memory.
pub(crate) fn play_all<
    K: Named + Send + Sync,
    R: Threads + Wait + Sync,
    G: Gate + Sync,
    F: Choice + Sync,
>(
    rt: &R,
    gate: &G,
    t: &LaneTable,
    boxes: &[Mutex<NodeBox<K>>],
    picker: &Picker<F>,
    roles: &[Mutex<Player>],
) -> bool
    requires table { t.now ≡ K.table }
    requires some { 0 < length boxes.now }
{
    let signal = Mutex::new(Signal {
        processors: boxes.len(),
        lacks_memory: false,
    });
    let shared = Shared {
        gate,
        picker,
        signal: &signal,
    };
    start_all(rt, &shared, t, boxes, roles);
    let signal = signal.into_inner();
    !signal.lacks_memory
}
