//! The serial schedule of a machine.

ghost use Rattle.std.specs.Prelude.{◌≡◌, ◌≤◌, ◌<◌, ◌∷◌, ◌++◌, [], length, slice_get, Some, IfSome, IfOk, OnOk, OnErr};
ghost use Rattle.line_map.specs.Sizes.{all_lines};
ghost use Rattle.op_model.specs.Lines.{Copy, state_of};
ghost use Rattle.op_model.specs.Programs.{IsOrderOf, programs_of};
ghost use Rattle.op_model.specs.Run.Machines.{IsEventOf};
ghost use Rattle.op_model.specs.Run.Schedules.{current, eviction_of, other_in_set as other_of_set, processor_event as event_of};
ghost use Rattle.op_model.specs.Shares.{Trace, Unlinked};
ghost use Rattle.schedule.specs.Chosen.{AreCompletedTo, AreOpsIn, IsOpIn};
ghost use Rattle.eager_model.specs.Runs.{Past};
ghost use Rattle.eager_schedule.specs.Promises.{KeepsPromise};
ghost use Rattle.eager_machine.specs.Machines.{IsEnabled, IsNext, run_of};
ghost use Rattle.eager_machine.specs.Schedules.{HasBegunSerial, IsSerialWhole, next_with};

use crate::eager::EagerMachine;
use eager_home::{EagerNode, LocalEvent};
use machine_face::ApplyError;
use op_model::{CopyState, Event, EvictKind, NoMemory, Op};

// How many operations of a node are completed.
fn done_count(m: &EagerMachine, node: u32) -> u32
    requires { node < m.now.sizes.nodes }
    ensures { (past : Past) → run_of m.now ≡ Some past → result ≡ (past.state.share node).place }
{
    m.node(node).proc().done_count()
}

// The place of the first operation of an order that isn't completed, where those before a place are.
fn first_uncompleted(m: &EagerMachine, order: &[Op], from: usize) -> usize
    requires ops { AreOpsIn m.now.sizes order.now }
    requires within { from ≤ length order.now }
    requires completed { (past : Past) → run_of m.now ≡ Some past → AreCompletedTo order.now from past.state }
    ensures within { result ≤ length order.now }
    ensures completed { (past : Past) → run_of m.now ≡ Some past → AreCompletedTo order.now result past.state }
    ensures current { (past : Past) → run_of m.now ≡ Some past → current order.now past.state ≡ slice_get order.now result }
{
    for at in from..order.len() {
        let op = order[at];
        if done_count(m, op.node) <= op.index {
            return at;
        }
    }
    order.len()
}

// The operation at a place of an order.
fn op_at(order: &[Op], at: usize) -> Option<Op>
    ensures { result ≡ slice_get order.now at }
{
    order.get(at).copied()
}

// How a copy leaves a cache: an exclusive one is written back, a shared one leaves with a hint, at its home silently.
fn eviction_kind(copy: CopyState, at_home: bool) -> EvictKind
    ensures { (c : Copy) → state_of c ≡ copy → result ≡ eviction_of at_home c }
{
    match copy {
        CopyState::Exclusive => EvictKind::Wb,
        CopyState::Shared | CopyState::Absent => {
            if at_home {
                EvictKind::Silent
            } else {
                EvictKind::Hint
            }
        }
    }
}

// Another line than this one in its cache set.
fn other_in_set(node: &EagerNode, line: u32) -> Option<u32>
    requires { line < all_lines node.now.sizes }
    ensures value { result ≡ other_of_set node.now.sizes node.now.share line }
    ensures below { IfSome result (λ other. other < all_lines node.now.sizes) }
{
    match node.cache().resident(line) {
        Some(other) if other != line => Some(other),
        _ => None,
    }
}

// What a processor does for its next operation: a hit where one is enabled, else it makes room in the cache set, else an issue.
fn processor_event(m: &EagerMachine, op: Op) -> Event
    requires { IsOpIn m.now.sizes op }
    ensures value { (past : Past) → run_of m.now ≡ Some past → result ≡ event_of Unlinked m.now.sizes (programs_of m.now.programs) past.state op }
    ensures within { IsEventOf m.now.sizes result }
{
    let node = m.node(op.node);
    if node.can_do(LocalEvent::Hit, true).is_ok() {
        return Event::Hit { node: op.node };
    }
    let cfg = m.cfg();
    match other_in_set(node, cfg.line_of(cfg.addr_of(op.word))) {
        Some(other) => Event::Evict {
            node: op.node,
            line: other,
            kind: eviction_kind(node.cache().look(other), op.node == cfg.home_of(other)),
        },
        None => Event::Issue { node: op.node },
    }
}

// The next event, if there is one: a message that is under way goes first, and where there is none the processor of the chosen operation.
fn next_event(m: &mut EagerMachine, chosen: Option<Op>) -> Result<Option<Event>, NoMemory>
    requires { IfSome chosen (IsOpIn m.old.sizes) }
    ensures same { m.new ≡ m.old }
    ensures value { (past : Past) → run_of m.old ≡ Some past → IfOk result (λ event. event ≡ next_with m.old past.state chosen) }
    ensures within { IfOk result (λ event. IfSome event (IsEventOf m.old.sizes)) }
{
    if let Some((src, dst, class)) = m.first_busy()? {
        return Ok(Some(Event::Take {
            src,
            dst,
            class,
            victim: None,
        }));
    }
    match chosen {
        Some(op) => Ok(Some(processor_event(m, op))),
        None => Ok(None),
    }
}

// Makes an event that is enabled. After want of memory nothing has changed.
fn make(m: &mut EagerMachine, event: Event) -> Result<(), NoMemory>
    requires within { IsEventOf m.old.sizes event }
    requires enabled { IsEnabled m.old event }
    ensures sizes { m.new.sizes ≡ m.old.sizes }
    ensures programs { m.new.programs ≡ m.old.programs }
    ensures ok { OnOk result (m.new.events ≡ m.old.events ++ event ∷ []) }
    ensures next { (past : Past) → run_of m.old ≡ Some past → OnOk result (IsNext m.old m.new past event) }
    ensures err { OnErr result (m.new ≡ m.old) }
{
    match m.apply(event) {
        Ok(()) => Ok(()),
        Err(ApplyError::Memory) => Err(NoMemory),
        Err(ApplyError::NotEnabled(_)) => unreachable!(),
    }
}

impl EagerMachine {
    /// Makes the serial schedule, from the start on: the operations are completed one after another, in this order. It ends at rest, with every operation completed, within 2N + 8 events for each. After want of memory the machine has made the first events of that schedule.
    pub fn serial(&mut self, order: &[Op]) -> Result<(), NoMemory>
        requires unused { self.old.events ≡ [] }
        requires ordered { IsOrderOf (programs_of self.old.programs) order.now }
        ensures sizes { self.new.sizes ≡ self.old.sizes }
        ensures programs { self.new.programs ≡ self.old.programs }
        ensures ran { (past : Past) × (run_of self.new ≡ Some past) }
        ensures ok { (trace : Trace) (past : Past) → trace.sizes ≡ self.old.sizes → trace.ops ≡ order.now → run_of self.new ≡ Some past → OnOk result (IsSerialWhole trace self.new.events past) }
        ensures err { (trace : Trace) → trace.sizes ≡ self.old.sizes → trace.ops ≡ order.now → OnErr result (HasBegunSerial trace self.new.events) }
        ensures keeps { (trace : Trace) (past : Past) → trace.sizes ≡ self.old.sizes → trace.ops ≡ order.now → run_of self.new ≡ Some past → KeepsPromise trace past }
    {
        // The machine says here what it keeps.
        let _cfg = self.cfg();
        let mut at = 0;
        loop {
            at = first_uncompleted(self, order, at);
            let Some(event) = next_event(self, op_at(order, at))? else {
                return Ok(());
            };
            make(self, event)?;
        }
    }
}
