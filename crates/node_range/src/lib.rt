//! The nodes of a machine: every run keeps to them.
//!
//! A machine of N nodes has lanes, copies and lists for every number, and the laws that sum over its nodes need that nothing is elsewhere. For a trace whose operations are at its nodes and on its words, no other node ever has a message, a copy or a place in a list. The function here does nothing; its contract is the law, for either charge.
#![tactic(auto)]

ghost use Rattle.std.specs.Prelude.{◌≡◌, ◌≤◌, ◌⊎◌, ℕ, []};
ghost use Rattle.line_map.specs.Sizes.{home_of};
ghost use Rattle.op_model.specs.declared.events.Class.{Class};
ghost use Rattle.op_model.specs.Lines.{Absent};
ghost use Rattle.op_model.specs.Shares.{copy_of, header_of};
ghost use Rattle.op_model.specs.Run.Runs.{InEveryRun};
ghost use Rattle.node_range.specs.Range.{IsOfMachine, IsHeaderIn, AreIn};

/// In every run of a trace of its machine the lanes of a node that the machine doesn't have are empty, and such a node has no copy. Each line lists nodes of the machine and waits for none but them, and each message is of a line of the machine and names a requester of it.
pub fn every_other_lane()
    ensures empty { InEveryRun (λ _ trace _ past. (src dst : ℕ) (class : Class) → IsOfMachine trace → (trace.sizes.nodes ≤ src) ⊎ (trace.sizes.nodes ≤ dst) → past.state.lane src dst class ≡ []) }
    ensures absent { InEveryRun (λ _ trace _ past. (node line : ℕ) → IsOfMachine trace → trace.sizes.nodes ≤ node → copy_of (past.state.share node) line ≡ Absent) }
    ensures headers { InEveryRun (λ _ trace _ past. (line : ℕ) → IsOfMachine trace → IsHeaderIn trace.sizes.nodes (header_of trace.sizes (past.state.share (home_of trace.sizes line)) line)) }
    ensures messages { InEveryRun (λ _ trace _ past. (src dst : ℕ) (class : Class) → IsOfMachine trace → AreIn trace.sizes (past.state.lane src dst class)) }
{}
