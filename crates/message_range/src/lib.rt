//! The messages of a machine: every node sends nothing else, in every run.
//!
//! A message of a machine is of a line of it, names a requester among its nodes, and has the words of a whole line where it has words. That is kept node by node: `every_own_send` looks at one share alone and at the message that its node takes, and knows no run. The functions here do nothing; their contracts are the laws, for either charge.
#![tactic(auto)]

ghost use Rattle.std.specs.Prelude.{◌≡◌, ◌≢◌, ◌<◌, ◌≤◌, ℕ, List, Some, Ok, length, All};
ghost use Rattle.line_map.specs.Sizes.{Sizes, AreSizes, home_of};
ghost use Rattle.op_model.specs.declared.events.Class.{Class};
ghost use Rattle.op_model.specs.declared.events.Event.{Event};
ghost use Rattle.op_model.specs.declared.operations.Op.{Op};
ghost use Rattle.op_model.specs.MessageWords.{IsMsgOf};
ghost use Rattle.op_model.specs.Nodes.{count};
ghost use Rattle.op_model.specs.Shares.{Trace, program, Charge, Share, header_of};
ghost use Rattle.op_model.specs.Events.Node.{Input, NodeOutcome, local};
ghost use Rattle.op_model.specs.Run.Runs.{Past, run, start_share};
ghost use Rattle.op_model.specs.OwnPart.{IsOwnPart};
ghost use Rattle.node_range.specs.Range.{IsOfMachine};
ghost use Rattle.message_range.specs.Fitting.{IsShareOf, AreOnWords, IsInputOf, IsInputForOther, IsServedOf, IsSentOf, IsMsgForOther};

/// Whatever a node of a machine does by itself, and with any message of the machine that it takes, its share fits the machine as before. What it serves it serves on the words of a whole line. What it sends are messages of the machine to nodes of the machine, at most as many as there are nodes; and none is to itself, where no forward is taken that asks for the node itself.
pub fn every_own_send()
    ensures kept { (charge : Charge) (sizes : Sizes) (node : ℕ) (program : List Op) (share : Share) (input : Input) (out : NodeOutcome) → AreSizes sizes → node < sizes.nodes → AreOnWords sizes program → IsOwnPart charge sizes node program share → IsShareOf sizes share → IsInputOf sizes input → local charge sizes node program share input ≡ Ok out → IsShareOf sizes out.share }
    ensures sent { (charge : Charge) (sizes : Sizes) (node : ℕ) (program : List Op) (share : Share) (input : Input) (out : NodeOutcome) → AreSizes sizes → node < sizes.nodes → AreOnWords sizes program → IsOwnPart charge sizes node program share → IsShareOf sizes share → IsInputOf sizes input → local charge sizes node program share input ≡ Ok out → All (IsSentOf sizes) out.sends }
    ensures served { (charge : Charge) (sizes : Sizes) (node : ℕ) (program : List Op) (share : Share) (input : Input) (out : NodeOutcome) → AreSizes sizes → node < sizes.nodes → AreOnWords sizes program → IsOwnPart charge sizes node program share → IsShareOf sizes share → IsInputOf sizes input → local charge sizes node program share input ≡ Ok out → IsServedOf sizes out.served }
    ensures few { (charge : Charge) (sizes : Sizes) (node : ℕ) (program : List Op) (share : Share) (input : Input) (out : NodeOutcome) → AreSizes sizes → node < sizes.nodes → AreOnWords sizes program → IsOwnPart charge sizes node program share → IsShareOf sizes share → IsInputOf sizes input → local charge sizes node program share input ≡ Ok out → length out.sends ≤ sizes.nodes }
    ensures elsewhere { (charge : Charge) (sizes : Sizes) (node : ℕ) (program : List Op) (share : Share) (input : Input) (out : NodeOutcome) → AreSizes sizes → node < sizes.nodes → AreOnWords sizes program → IsOwnPart charge sizes node program share → IsShareOf sizes share → IsInputOf sizes input → IsInputForOther node input → local charge sizes node program share input ≡ Ok out → All (λ send. send.0 ≢ node) out.sends }
{}

/// A home lists fewer nodes for a line than the machine has, since it isn't listed itself.
pub fn every_own_list()
    ensures fewer { (charge : Charge) (sizes : Sizes) (node line : ℕ) (program : List Op) (share : Share) → node < sizes.nodes → home_of sizes line ≡ node → IsOwnPart charge sizes node program share → IsShareOf sizes share → count (header_of sizes share line).list < sizes.nodes }
{}

/// A node's place stays within its program, whatever it does.
pub fn every_own_place()
    ensures kept { (charge : Charge) (sizes : Sizes) (node : ℕ) (program : List Op) (share : Share) (input : Input) (out : NodeOutcome) → IsOwnPart charge sizes node program share → share.place ≤ length program → local charge sizes node program share input ≡ Ok out → out.share.place ≤ length program }
{}

/// A node's share at the start keeps what holds of one node's share, and fits the machine.
pub fn every_first_share()
    ensures own { (charge : Charge) (sizes : Sizes) (node : ℕ) (program : List Op) → IsOwnPart charge sizes node program (start_share sizes node) }
    ensures fits { (sizes : Sizes) (node : ℕ) → IsShareOf sizes (start_share sizes node) }
{}

/// In every run of a trace of its machine each message in a lane is a message of the machine, and a forward asks its owner for another node. And each node's share fits the machine.
pub fn every_lane_message()
    ensures messages { (charge : Charge) (trace : Trace) (events : List Event) (past : Past) (src dst : ℕ) (class : Class) → IsOfMachine trace → AreSizes trace.sizes → run charge trace events ≡ Some past → All (IsMsgOf trace.sizes) (past.state.lane src dst class) }
    ensures asks { (charge : Charge) (trace : Trace) (events : List Event) (past : Past) (src dst : ℕ) (class : Class) → IsOfMachine trace → AreSizes trace.sizes → run charge trace events ≡ Some past → All (IsMsgForOther dst) (past.state.lane src dst class) }
    ensures shares { (charge : Charge) (trace : Trace) (events : List Event) (past : Past) (node : ℕ) → IsOfMachine trace → AreSizes trace.sizes → run charge trace events ≡ Some past → IsShareOf trace.sizes (past.state.share node) }
{}
