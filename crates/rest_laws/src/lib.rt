//! The weight of a state, and rest: every run can go on until no message is under way, and then nothing else is.
//!
//! Each message that is taken weighs more than all that its row sends, so the weight of a state bounds how many messages can be taken before none is left. A lane that isn't empty can always be taken from, so that delivery, lane by lane, ends; and where every lane is empty no operation is begun and no line pending. The functions here do nothing; their contracts are the laws, for either charge.
#![tactic(auto)]

ghost use Rattle.std.specs.Prelude.{◌≡◌, ◌≢◌, ◌<◌, ℕ, List, [], Option, Some, None, Ok};
ghost use Rattle.line_map.specs.Sizes.{Sizes};
ghost use Rattle.op_model.specs.declared.events.Class.{Class};
ghost use Rattle.op_model.specs.declared.events.Event.{Event};
ghost use Rattle.op_model.specs.declared.events.Event.TheVariants.{Take};
ghost use Rattle.op_model.specs.Shares.{Trace, program, Charge, State};
ghost use Rattle.op_model.specs.Events.Step.{Done, effect, after};
ghost use Rattle.op_model.specs.Run.Runs.{Past, InEveryRun, run_from};
ghost use Rattle.op_model.specs.Run.Schedules.{Lane, first_busy, delivery};
ghost use Rattle.op_model.specs.Run.Rest.{IsAtRest};
ghost use Rattle.op_model.specs.Run.Weight.{weight, IsClear, IsEmpty};
ghost use Rattle.node_range.specs.Range.{IsOfMachine};
ghost use Rattle.rest_laws.specs.Delivery.{IsDelivered, Delivery};

/// A Take that is done between nodes of the machine lowers the weight. In a run of a trace of its machine every Take that is done does.
pub fn every_take()
    ensures lighter { InEveryRun (λ charge trace _ past. (src dst : ℕ) (class : Class) (victim : Option ℕ) (done : Done) → src < trace.sizes.nodes → dst < trace.sizes.nodes → effect charge trace.sizes (program trace) past.state (Take src dst class victim) ≡ Ok done → weight trace.sizes (after past.state done) < weight trace.sizes past.state) }
    ensures of_machine { InEveryRun (λ charge trace _ past. (src dst : ℕ) (class : Class) (victim : Option ℕ) (done : Done) → IsOfMachine trace → effect charge trace.sizes (program trace) past.state (Take src dst class victim) ≡ Ok done → weight trace.sizes (after past.state done) < weight trace.sizes past.state) }
{}

/// Where a lane isn't empty, a Take of it is done, with a fitting line to call in where one is asked for.
pub fn every_lane_moves()
    ensures enabled { InEveryRun (λ charge trace _ past. (src dst : ℕ) (class : Class) → 0 < trace.sizes.links → past.state.lane src dst class ≢ [] → (victim : Option ℕ) × (done : Done) × (effect charge trace.sizes (program trace) past.state (Take src dst class victim) ≡ Ok done)) }
{}

/// A state of a run is at rest exactly where every lane is empty. In a run of a trace of its machine it is where the lanes between nodes of the machine are.
pub fn every_rest()
    ensures rests { InEveryRun (λ _ _ _ past. IsEmpty past.state → IsAtRest past.state) }
    ensures empty { (state : State) → IsAtRest state → IsEmpty state }
    ensures clear { InEveryRun (λ _ trace _ past. IsOfMachine trace → IsClear trace.sizes past.state → IsAtRest past.state) }
{}

/// The first lane that isn't empty is one between nodes of the machine, and there is one exactly where not all of those are empty.
pub fn every_first_lane()
    ensures busy { (sizes : Sizes) (state : State) (lane : Lane) → first_busy sizes state ≡ Some lane → (lane.src < sizes.nodes) × (lane.dst < sizes.nodes) × (state.lane lane.src lane.dst lane.class ≢ []) }
    ensures some { (sizes : Sizes) (state : State) (src dst : ℕ) (class : Class) → src < sizes.nodes → dst < sizes.nodes → state.lane src dst class ≢ [] → (lane : Lane) × (first_busy sizes state ≡ Some lane) }
    ensures none { (sizes : Sizes) (state : State) → first_busy sizes state ≡ None → IsClear sizes state }
    ensures clear { (sizes : Sizes) (state : State) → IsClear sizes state → first_busy sizes state ≡ None }
{}

/// The delivery of the first lane that isn't empty is done and lowers the weight. From every state of a run, delivery ends in at most as many events as the state weighs, with every lane between nodes of the machine empty; for a trace of its machine it ends at rest.
pub fn every_delivery()
    ensures lighter { InEveryRun (λ charge trace _ past. (lane : Lane) → 0 < trace.sizes.lines → 0 < trace.sizes.links → first_busy trace.sizes past.state ≡ Some lane → (done : Done) × (effect charge trace.sizes (program trace) past.state (delivery charge trace.sizes past.state lane) ≡ Ok done) × (weight trace.sizes (after past.state done) < weight trace.sizes past.state)) }
    ensures ends { InEveryRun (λ charge trace _ past. 0 < trace.sizes.lines → 0 < trace.sizes.links → (whole : Delivery charge trace past) × IsClear trace.sizes whole.end.state) }
    ensures rests { InEveryRun (λ charge trace _ past. IsOfMachine trace → 0 < trace.sizes.lines → 0 < trace.sizes.links → (whole : Delivery charge trace past) × IsAtRest whole.end.state) }
    ensures runs { (charge : Charge) (trace : Trace) (past end : Past) (events : List Event) → IsDelivered charge trace past events end → run_from charge trace past events ≡ Some end }
{}
