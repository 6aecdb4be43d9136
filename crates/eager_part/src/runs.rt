//! What holds after every run of the eager core, told node by node: of each share, and of each message in a lane.

ghost use Rattle.std.specs.Prelude.{◌≡◌, ◌≤◌, ◌⊎◌, ℕ, List, [], Some, length, All};
ghost use Rattle.line_map.specs.Sizes.{AreSizes, home_of};
ghost use Rattle.op_model.specs.declared.events.Class.{Class};
ghost use Rattle.op_model.specs.declared.events.Class.TheVariants.{Request};
ghost use Rattle.op_model.specs.declared.events.Event.{Event};
ghost use Rattle.op_model.specs.Lines.{Absent};
ghost use Rattle.op_model.specs.Messages.{msg_class};
ghost use Rattle.op_model.specs.MessageWords.{IsMsgOf};
ghost use Rattle.op_model.specs.Shares.{Trace, program, copy_of, header_of, pending_lines};
ghost use Rattle.op_model.specs.Events.Step.{departures};
ghost use Rattle.lane_bounds.specs.Ways.{IsOnWay};
ghost use Rattle.node_range.specs.Range.{IsOfMachine, IsHeaderIn, AreIn};
ghost use Rattle.message_range.specs.Fitting.{IsShareOf, IsMsgForOther};
ghost use Rattle.eager_model.specs.Runs.{Past, run};
ghost use Rattle.eager_part.specs.Part.{IsEagerPart};

/// In every run it holds of each node's share.
pub fn every_own_part()
    ensures run { (trace : Trace) (events : List Event) (past : Past) (node : ℕ) → run trace events ≡ Some past → IsEagerPart trace.sizes node (program trace node) (past.state.share node) }
{}

/// In every run each node's place is within its program.
pub fn every_place()
    ensures within { (trace : Trace) (events : List Event) (past : Past) (node : ℕ) → run trace events ≡ Some past → (past.state.share node).place ≤ length (program trace node) }
{}

/// In every run of a trace of its machine the lanes of a node that the machine doesn't have are empty, and such a node has no copy. Each line lists nodes of the machine and waits for none but them, and each message is of a line of the machine and names a requester of it.
pub fn every_other_lane()
    ensures empty { (trace : Trace) (events : List Event) (past : Past) (src dst : ℕ) (class : Class) → IsOfMachine trace → run trace events ≡ Some past → (trace.sizes.nodes ≤ src) ⊎ (trace.sizes.nodes ≤ dst) → past.state.lane src dst class ≡ [] }
    ensures absent { (trace : Trace) (events : List Event) (past : Past) (node line : ℕ) → IsOfMachine trace → run trace events ≡ Some past → trace.sizes.nodes ≤ node → copy_of (past.state.share node) line ≡ Absent }
    ensures headers { (trace : Trace) (events : List Event) (past : Past) (line : ℕ) → IsOfMachine trace → run trace events ≡ Some past → IsHeaderIn trace.sizes.nodes (header_of trace.sizes (past.state.share (home_of trace.sizes line)) line) }
    ensures messages { (trace : Trace) (events : List Event) (past : Past) (src dst : ℕ) (class : Class) → IsOfMachine trace → run trace events ≡ Some past → AreIn trace.sizes (past.state.lane src dst class) }
{}

/// In every run of a trace of its machine each message in a lane is a message of the machine, and each node's share fits the machine. In every run a forward asks its owner for another node.
pub fn every_lane_message()
    ensures messages { (trace : Trace) (events : List Event) (past : Past) (src dst : ℕ) (class : Class) → IsOfMachine trace → AreSizes trace.sizes → run trace events ≡ Some past → All (IsMsgOf trace.sizes) (past.state.lane src dst class) }
    ensures asks { (trace : Trace) (events : List Event) (past : Past) (src dst : ℕ) (class : Class) → run trace events ≡ Some past → All (IsMsgForOther dst) (past.state.lane src dst class) }
    ensures shares { (trace : Trace) (events : List Event) (past : Past) (node : ℕ) → IsOfMachine trace → AreSizes trace.sizes → run trace events ≡ Some past → IsShareOf trace.sizes (past.state.share node) }
{}

/// In every run no home has more pending lines than it may have.
pub fn every_home()
    ensures pending { (trace : Trace) (events : List Event) (past : Past) (n : ℕ) → run trace events ≡ Some past → pending_lines (past.state.share n) ≤ trace.sizes.pending }
{}

/// In every run a lane of requests holds no more writebacks and hints than the gate on evictions lets through, and no node sends to itself.
pub fn every_lane()
    ensures departures { (trace : Trace) (events : List Event) (past : Past) (a b : ℕ) → run trace events ≡ Some past → departures (past.state.lane a b Request) ≤ trace.sizes.evicts }
    ensures own { (trace : Trace) (events : List Event) (past : Past) (n : ℕ) (class : Class) → run trace events ≡ Some past → past.state.lane n n class ≡ [] }
{}

/// In every run each message in a lane is of the lane's class. A request, what an eviction sends and what is due to a home go to the home of their line; a forward and an invalidation come from it.
pub fn every_message()
    ensures class { (trace : Trace) (events : List Event) (past : Past) (a b : ℕ) (class : Class) → run trace events ≡ Some past → All (λ m. msg_class m ≡ class) (past.state.lane a b class) }
    ensures way { (trace : Trace) (events : List Event) (past : Past) (a b : ℕ) (class : Class) → run trace events ≡ Some past → All (IsOnWay trace.sizes a b) (past.state.lane a b class) }
{}
