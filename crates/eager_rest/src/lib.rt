//! The weight of a state of the eager core: each message that is taken weighs more than all that its row sends, so that no more can be taken than the state weighs before none is left.
//!
//! A lane that isn't empty can always be taken from, so that delivery, lane by lane, ends. The weight and the schedule are those of the delayed core. The functions here do nothing; their contracts are the laws.
#![tactic(auto)]

ghost use Rattle.std.specs.Prelude.{◌≡◌, ◌≢◌, ◌<◌, ℕ, List, [], Option, Some, None, Ok};
ghost use Rattle.line_map.specs.Sizes.{Sizes};
ghost use Rattle.op_model.specs.declared.events.Class.{Class};
ghost use Rattle.op_model.specs.declared.events.Event.{Event};
ghost use Rattle.op_model.specs.declared.events.Event.TheVariants.{Take};
ghost use Rattle.op_model.specs.Shares.{Trace, program, State, Unlinked};
ghost use Rattle.op_model.specs.Events.Step.{Programs, after};
ghost use Rattle.op_model.specs.Run.Schedules.{Lane, first_busy, delivery};
ghost use Rattle.op_model.specs.Run.Weight.{weight, IsClear};
ghost use Rattle.node_range.specs.Range.{IsOfMachine};
ghost use Rattle.eager_model.specs.Step.{AgedDone, Ages, effect, without_ages};
ghost use Rattle.eager_model.specs.Runs.{Past, run, run_by};
ghost use Rattle.eager_model.specs.Laws.{EachTakeLowers};
ghost use Rattle.eager_rest.specs.Delivery.{IsDelivered, Delivery};

/// A Take that is done between nodes of the machine lowers the weight. In a run of a trace of its machine every Take that is done does.
pub fn every_take()
    ensures lighter { EachTakeLowers }
    ensures of_machine { (trace : Trace) (events : List Event) (past : Past) (src dst : ℕ) (class : Class) (victim : Option ℕ) (done : AgedDone) → IsOfMachine trace → run trace events ≡ Some past → effect trace.sizes (program trace) past.state past.ages (Take src dst class victim) ≡ Ok done → weight trace.sizes (after past.state (without_ages done)) < weight trace.sizes past.state }
{}

/// Where a lane isn't empty, a Take of it is done, and no line is called in for it.
pub fn every_lane_moves()
    ensures enabled { (sizes : Sizes) (programs : Programs) (state : State) (ages : Ages) (src dst : ℕ) (class : Class) → state.lane src dst class ≢ [] → (done : AgedDone) × (effect sizes programs state ages (Take src dst class None) ≡ Ok done) }
    ensures alone { (sizes : Sizes) (state : State) (lane : Lane) → delivery Unlinked sizes state lane ≡ Take lane.src lane.dst lane.class None }
{}

/// The delivery of the first lane that isn't empty is done and lowers the weight. From every state of a run, delivery ends in at most as many events as the state weighs, with every lane between nodes of the machine empty.
pub fn every_delivery()
    ensures lighter { (trace : Trace) (events : List Event) (past : Past) (lane : Lane) → run trace events ≡ Some past → first_busy trace.sizes past.state ≡ Some lane → (done : AgedDone) × (effect trace.sizes (program trace) past.state past.ages (delivery Unlinked trace.sizes past.state lane) ≡ Ok done) × (weight trace.sizes (after past.state (without_ages done)) < weight trace.sizes past.state) }
    ensures ends { (trace : Trace) (before : List Event) (past : Past) → run trace before ≡ Some past → (whole : Delivery trace past) × IsClear trace.sizes whole.end.state }
    ensures runs { (trace : Trace) (past end : Past) (events : List Event) → IsDelivered trace past events end → run_by trace.sizes (program trace) past events ≡ Some end }
{}
