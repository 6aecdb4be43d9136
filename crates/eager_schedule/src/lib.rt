//! What a run of the eager core has under way, and that its serial schedule ends.
//!
//! A lane holds a limited number of messages, and a state is at rest exactly where every lane is empty. From rest the serial schedule completes one operation after another, each within 2N + 8 events on a machine of N nodes: at rest no line drains, so the operation is done or answered at once, or forwarded to an owner who has the copy, and what is set going only settles. The functions here do nothing; their contracts are the laws.
#![tactic(auto)]

ghost use Rattle.std.specs.Prelude.{◌≡◌, ◌≤◌, ◌<◌, ◌+◌, ◌*◌, ℕ, List, Some, length};
ghost use Rattle.line_map.specs.Sizes.{AreSizes};
ghost use Rattle.op_model.specs.declared.events.Class.{Class};
ghost use Rattle.op_model.specs.declared.events.Event.{Event};
ghost use Rattle.op_model.specs.declared.operations.Op.{Op};
ghost use Rattle.op_model.specs.Run.Bounds.{lane_bound};
ghost use Rattle.op_model.specs.Run.Rest.{IsAtRest};
ghost use Rattle.op_model.specs.Run.Schedules.{current};
ghost use Rattle.op_model.specs.Run.Weight.{IsClear, IsEmpty};
ghost use Rattle.op_model.specs.Shares.{Trace, State};
ghost use Rattle.node_range.specs.Range.{IsOfMachine};
ghost use Rattle.schedule_laws.specs.Ends.{AreAllDone, IsInOrder};
ghost use Rattle.eager_model.specs.Laws.{CompletesWithin, IsSerial};
ghost use Rattle.eager_model.specs.Runs.{Past, run};
ghost use Rattle.eager_schedule.specs.Courses.{SerialEnd};
ghost use Rattle.eager_schedule.specs.Promises.{KeepsPromise};

/// A lane of requests holds at most P + 1 + E messages and one of replies at most P + 1, where P lines of a home may be pending and E is the gate on evictions.
pub fn every_lane()
    ensures bound { (trace : Trace) (events : List Event) (past : Past) (src dst : ℕ) (class : Class) → 0 < trace.sizes.words → run trace events ≡ Some past → length (past.state.lane src dst class) ≤ lane_bound trace.sizes class }
{}

/// A state of a run is at rest exactly where every lane is empty: a line that drains has an invalidation or its acknowledgement under way. In a run of a trace of its machine it is where the lanes between nodes of the machine are.
pub fn every_rest()
    ensures rests { (trace : Trace) (events : List Event) (past : Past) → 0 < trace.sizes.words → run trace events ≡ Some past → IsEmpty past.state → IsAtRest past.state }
    ensures empty { (state : State) → IsAtRest state → IsEmpty state }
    ensures clear { (trace : Trace) (events : List Event) (past : Past) → IsOfMachine trace → 0 < trace.sizes.words → run trace events ≡ Some past → IsClear trace.sizes past.state → IsAtRest past.state }
{}

/// From rest the serial schedule completes the operation that it has come to within 2N + 8 events, and is at rest again, for a trace of its machine whose operations each have their place as their index.
pub fn every_operation()
    ensures ends { (trace : Trace) (before : List Event) (past : Past) (op : Op) → AreSizes trace.sizes → IsOfMachine trace → IsInOrder trace → run trace before ≡ Some past → IsAtRest past.state → current trace.ops past.state ≡ Some op → CompletesWithin trace (2 * trace.sizes.nodes + 8) past op }
{}

/// The serial schedule ends for a trace of its machine whose operations each have their place as their index: at rest, within 2N + 8 events for each operation, with every program done. It is one list of events, and so each list that is the serial schedule does this.
pub fn every_serial()
    ensures ends { (trace : Trace) → AreSizes trace.sizes → IsOfMachine trace → IsInOrder trace → SerialEnd trace ((2 * trace.sizes.nodes + 8) * length trace.ops) }
    ensures each { (trace : Trace) (events : List Event) (past : Past) → AreSizes trace.sizes → IsOfMachine trace → IsInOrder trace → IsSerial trace events past → AreAllDone trace past.state × IsAtRest past.state × (length events ≤ (2 * trace.sizes.nodes + 8) * length trace.ops) }
    ensures unique { (trace : Trace) (end other : Past) (events more : List Event) → IsSerial trace events end → IsSerial trace more other → events ≡ more }
{}

/// All of this holds of every state that a run of a trace comes to, for a trace of its machine whose operations each have their place as their index; and each of its lines keeps one history.
pub fn every_run()
    ensures keeps { (trace : Trace) (events : List Event) (past : Past) → AreSizes trace.sizes → IsOfMachine trace → IsInOrder trace → run trace events ≡ Some past → KeepsPromise trace past }
{}
