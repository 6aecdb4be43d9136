//! The schedules end: from rest the next operation is completed within a few events, and a schedule is one list of events.
//!
//! A schedule delivers what is under way, in the order of the lanes, and at rest goes on with the operation that it chooses. Delivery ends, since it lowers the weight of the state; and from rest an operation is completed within 2N + 8 events on a machine of N nodes. So the finishing schedule ends from every state of a run, and the serial one from the start. The functions here do nothing; their contracts are the laws, for either charge.
#![tactic(auto)]

ghost use Rattle.std.specs.Prelude.{◌≡◌, ◌≤◌, ℕ, ◌+◌, ◌*◌, List, length, Some};
ghost use Rattle.line_map.specs.Sizes.{Sizes, AreSizes};
ghost use Rattle.op_model.specs.declared.events.Event.{Event};
ghost use Rattle.op_model.specs.declared.operations.Op.{Op};
ghost use Rattle.op_model.specs.Shares.{Trace, program, Charge};
ghost use Rattle.op_model.specs.Events.Step.{Programs};
ghost use Rattle.op_model.specs.Run.Runs.{Past, run};
ghost use Rattle.op_model.specs.Run.Schedules.{all_nodes, finishing_next, first_left, IsFinishing, IsSerial};
ghost use Rattle.op_model.specs.Run.Rest.{IsAtRest};
ghost use Rattle.op_model.specs.Run.History.{AreEntriesOf, history};
ghost use Rattle.op_model.specs.Run.Weight.{weight};
ghost use Rattle.node_range.specs.Range.{IsOfMachine};
ghost use Rattle.schedule_laws.specs.Courses.{left_count, IsCompleted};
ghost use Rattle.schedule_laws.specs.Ends.{IsInOrder, AreAllDone, FinishingRun, SerialRun};

/// From rest the finishing schedule completes the next operation of the least node that has one left, within 2N + 8 events that send at most one Nak, and is at rest again. It ends from every state of a run of a trace of its machine: at rest, with every program done, within the weight of the state and 2N + 8 events for each operation left, and from rest within the latter alone. It is one list of events.
pub fn every_finish()
    ensures operation { (charge : Charge) (trace : Trace) (before : List Event) (past : Past) (op : Op) → AreSizes trace.sizes → IsOfMachine trace → run charge trace before ≡ Some past → IsAtRest past.state → first_left (program trace) past.state (all_nodes trace.sizes) ≡ Some op → IsCompleted (finishing_next charge trace.sizes (program trace)) charge trace.sizes (program trace) past op }
    ensures ends { (charge : Charge) (trace : Trace) (before : List Event) (past : Past) → AreSizes trace.sizes → IsOfMachine trace → run charge trace before ≡ Some past → FinishingRun charge trace past (weight trace.sizes past.state + (2 * trace.sizes.nodes + 8) * left_count trace.sizes (program trace) past.state) }
    ensures rested { (charge : Charge) (trace : Trace) (before : List Event) (past : Past) → AreSizes trace.sizes → IsOfMachine trace → run charge trace before ≡ Some past → IsAtRest past.state → FinishingRun charge trace past ((2 * trace.sizes.nodes + 8) * left_count trace.sizes (program trace) past.state) }
    ensures unique { (charge : Charge) (sizes : Sizes) (programs : Programs) (past end other : Past) (events more : List Event) → IsFinishing charge sizes programs past events end → IsFinishing charge sizes programs past more other → events ≡ more }
{}

/// The serial schedule ends for a trace of its machine whose operations each have their place as their index: at rest, within 2N + 8 events for each operation, with every operation completed and the history the trace's operations in their order. It is one list of events, and so each list that is the serial schedule does this.
pub fn every_serial()
    ensures ends { (charge : Charge) (trace : Trace) → AreSizes trace.sizes → IsOfMachine trace → IsInOrder trace → SerialRun charge trace ((2 * trace.sizes.nodes + 8) * length trace.ops) }
    ensures each { (charge : Charge) (trace : Trace) (events : List Event) (past : Past) → AreSizes trace.sizes → IsOfMachine trace → IsInOrder trace → IsSerial charge trace events past → AreEntriesOf trace.ops (history past) × AreAllDone trace past.state × IsAtRest past.state × (length events ≤ (2 * trace.sizes.nodes + 8) * length trace.ops) }
    ensures unique { (charge : Charge) (trace : Trace) (end other : Past) (events more : List Event) → IsSerial charge trace events end → IsSerial charge trace more other → events ≡ more }
{}
