//! What holds of one node's share alone, whatever the other nodes have.
//!
//! `IsOwnPart` of `op_model` says it: of what the node has begun, of each line at its home, of the home's pending lines and links, and of the cache sets. The functions here do nothing; their contracts are the laws, for either charge.
#![tactic(auto)]

ghost use Rattle.std.specs.Prelude.{◌≡◌, ℕ, List, Some, Ok};
ghost use Rattle.line_map.specs.Sizes.{Sizes};
ghost use Rattle.op_model.specs.declared.operations.Op.{Op};
ghost use Rattle.op_model.specs.declared.events.Event.{Event};
ghost use Rattle.op_model.specs.Shares.{Trace, program, Charge, Share};
ghost use Rattle.op_model.specs.Events.Node.{Input, NodeOutcome, local};
ghost use Rattle.op_model.specs.Run.Runs.{Past, run};
ghost use Rattle.op_model.specs.OwnPart.{IsOwnPart};

/// Whatever a node does by itself, and with any message that it takes, keeps what holds of its share. No fact of another node is asked for, and none of the message: one that meets no row changes nothing.
pub fn every_own_act()
    ensures kept { (charge : Charge) (sizes : Sizes) (node : ℕ) (program : List Op) (share : Share) (input : Input) (out : NodeOutcome) → IsOwnPart charge sizes node program share → local charge sizes node program share input ≡ Ok out → IsOwnPart charge sizes node program out.share }
{}

/// In every run it holds of each node's share.
pub fn every_own_part()
    ensures run { (charge : Charge) (trace : Trace) (events : List Event) (past : Past) (node : ℕ) → run charge trace events ≡ Some past → IsOwnPart charge trace.sizes node (program trace node) (past.state.share node) }
{}
