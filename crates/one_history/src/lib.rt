//! Every run of the machine is one history: what holds of each line, of the whole machine.
//!
//! A row of the whole machine is that row of its line and leaves every other line as it was, so that what holds of one line holds of each. `IsSound` of `specs/Sound.antt` says it, with program order, legality on one flat memory, and the cache sets. The functions here do nothing; their contracts are the laws, for either charge.
#![tactic(auto)]

ghost use Rattle.std.specs.Prelude.{◌≡◌, ℕ, true, false, List, ◌∷◌, ◌++◌, [], Ok};
ghost use Rattle.line_map.specs.Sizes.{Sizes};
ghost use Rattle.op_model.specs.declared.operations.Op.{Op};
ghost use Rattle.op_model.specs.declared.events.Class.{Class};
ghost use Rattle.op_model.specs.declared.events.Event.{Event};
ghost use Rattle.op_model.specs.declared.events.EvictKind.{EvictKind};
ghost use Rattle.op_model.specs.declared.messages.Msg.{Msg};
ghost use Rattle.op_model.specs.Shares.{Trace, program, Charge, Share, State};
ghost use Rattle.op_model.specs.Events.Node.{EvictLine, NodeOutcome, meets_row, local};
ghost use Rattle.op_model.specs.Events.Step.{Programs, states, then_step};
ghost use Rattle.op_model.specs.Run.Runs.{Past, InEveryRun, run_from, state_of};
ghost use Rattle.op_model.specs.Run.History.{entries_by, IsOneHistory};
ghost use Rattle.one_history.specs.Sound.{IsOrdered, IsCached, IsSound};

/// The completed operations of every run, in the order in which they are served, are one history of one flat memory. What each node has served are the first operations of its program, in order. A cache set never holds two lines, nor another one than a node waits for.
pub fn every_run()
    ensures one { InEveryRun IsOneHistory }
    ensures ordered { InEveryRun (λ _ trace _ past. (node : ℕ) → IsOrdered trace node (past.state.share node) (entries_by node past.served)) }
    ensures cached { InEveryRun (λ _ trace _ past. (node : ℕ) → IsCached trace.sizes (past.state.share node)) }
{}

/// Every state that a run reaches is sound. A cache set holds at most one line, nor another one than its node waits for. What was served is legal on one flat memory. The entries of each node are the first operations of its program, in order, and the one that it has begun stands last where it was served. And each line is good: it is in one phase, and its phase with each node's carrier, eviction and duty spells the messages of its lanes, and says which copies, wants and words there are (`IsGood` of `line_invariant`).
pub fn every_state()
    ensures holds { InEveryRun (λ _ trace _ past. IsSound trace past) }
{}

/// In every run the message at the front of a lane meets a row at its taker.
pub fn every_front()
    ensures meets { InEveryRun (λ _ trace _ past. (src dst : ℕ) (class : Class) (m : Msg) (rest : List Msg) → past.state.lane src dst class ≡ m ∷ rest → meets_row trace.sizes dst (past.state.share dst) src m ≡ true) }
{}

/// An eviction that a node does where the lane has no room for its message, it does in the same way where there is room.
pub fn more_room()
    ensures room { (charge : Charge) (sizes : Sizes) (node : ℕ) (program : List Op) (share : Share) (line : ℕ) (kind : EvictKind) (out : NodeOutcome) → local charge sizes node program share (EvictLine line kind false) ≡ Ok out → local charge sizes node program share (EvictLine line kind true) ≡ Ok out }
{}

/// A run with its history goes through the states of the run without it, and one event more is one step more.
pub fn run_states()
    ensures same { (charge : Charge) (trace : Trace) (past : Past) (events : List Event) → states charge trace.sizes (program trace) past.state events ≡ state_of (run_from charge trace past events) }
    ensures more { (charge : Charge) (sizes : Sizes) (programs : Programs) (state : State) (events : List Event) (event : Event) → states charge sizes programs state (events ++ event ∷ []) ≡ then_step charge sizes programs event (states charge sizes programs state events) }
{}
