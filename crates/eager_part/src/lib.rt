//! What holds of one node's share in the eager core, whatever the other nodes have.
//!
//! `IsEagerPart` says it: what `IsOwnPart` says of a share of the delayed core, where lists cost no links, and of a line that drains what is due. The functions here do nothing; their contracts are the laws. What the handlers of an eager node ask for is told from it in `proofs/Needs`.
#![tactic(auto)]

pub mod runs;

ghost use Rattle.std.specs.Prelude.{◌≡◌, ◌≢◌, ◌<◌, ◌≤◌, ℕ, List, Ok, length, All};
ghost use Rattle.line_map.specs.Sizes.{Sizes, AreSizes, home_of};
ghost use Rattle.op_model.specs.declared.operations.Op.{Op};
ghost use Rattle.op_model.specs.Nodes.{count};
ghost use Rattle.op_model.specs.Shares.{Share, header_of};
ghost use Rattle.op_model.specs.Events.Node.{Input, NodeOutcome};
ghost use Rattle.op_model.specs.Run.Runs.{start_share};
ghost use Rattle.message_range.specs.Fitting.{IsShareOf, AreOnWords, IsInputOf, IsInputForOther, IsServedOf, IsSentOf};
ghost use Rattle.eager_model.specs.Node.{local};
ghost use Rattle.eager_part.specs.Part.{IsEagerPart};

/// Whatever a node does by itself, and with any message that it takes, keeps what holds of its share. No fact of another node is asked for, and none of the message: one that meets no row changes nothing.
pub fn every_own_act()
    ensures kept { (sizes : Sizes) (node : ℕ) (program : List Op) (share : Share) (input : Input) (out : NodeOutcome) → IsEagerPart sizes node program share → local sizes node program share input ≡ Ok out → IsEagerPart sizes node program out.share }
{}

/// Whatever a node of a machine does by itself, and with any message of the machine that it takes, its share fits the machine as before. What it serves it serves on the words of a whole line. What it sends are messages of the machine to nodes of the machine, at most as many as there are nodes; and none is to itself, where no forward is taken that asks for the node itself.
pub fn every_own_send()
    ensures kept { (sizes : Sizes) (node : ℕ) (program : List Op) (share : Share) (input : Input) (out : NodeOutcome) → AreSizes sizes → node < sizes.nodes → AreOnWords sizes program → IsEagerPart sizes node program share → IsShareOf sizes share → IsInputOf sizes input → local sizes node program share input ≡ Ok out → IsShareOf sizes out.share }
    ensures sent { (sizes : Sizes) (node : ℕ) (program : List Op) (share : Share) (input : Input) (out : NodeOutcome) → AreSizes sizes → node < sizes.nodes → AreOnWords sizes program → IsEagerPart sizes node program share → IsShareOf sizes share → IsInputOf sizes input → local sizes node program share input ≡ Ok out → All (IsSentOf sizes) out.sends }
    ensures served { (sizes : Sizes) (node : ℕ) (program : List Op) (share : Share) (input : Input) (out : NodeOutcome) → AreSizes sizes → node < sizes.nodes → AreOnWords sizes program → IsEagerPart sizes node program share → IsShareOf sizes share → IsInputOf sizes input → local sizes node program share input ≡ Ok out → IsServedOf sizes out.served }
    ensures few { (sizes : Sizes) (node : ℕ) (program : List Op) (share : Share) (input : Input) (out : NodeOutcome) → AreSizes sizes → node < sizes.nodes → AreOnWords sizes program → IsEagerPart sizes node program share → IsShareOf sizes share → IsInputOf sizes input → local sizes node program share input ≡ Ok out → length out.sends ≤ sizes.nodes }
    ensures elsewhere { (sizes : Sizes) (node : ℕ) (program : List Op) (share : Share) (input : Input) (out : NodeOutcome) → AreSizes sizes → node < sizes.nodes → AreOnWords sizes program → IsEagerPart sizes node program share → IsShareOf sizes share → IsInputOf sizes input → IsInputForOther node input → local sizes node program share input ≡ Ok out → All (λ send. send.0 ≢ node) out.sends }
{}

/// A home lists fewer nodes for a line than the machine has, since it isn't listed itself.
pub fn every_own_list()
    ensures fewer { (sizes : Sizes) (node line : ℕ) (program : List Op) (share : Share) → node < sizes.nodes → home_of sizes line ≡ node → IsEagerPart sizes node program share → IsShareOf sizes share → count (header_of sizes share line).list < sizes.nodes }
{}

/// A node's place stays within its program, whatever it does.
pub fn every_own_place()
    ensures kept { (sizes : Sizes) (node : ℕ) (program : List Op) (share : Share) (input : Input) (out : NodeOutcome) → IsEagerPart sizes node program share → share.place ≤ length program → local sizes node program share input ≡ Ok out → out.share.place ≤ length program }
{}

/// A node's share at the start keeps what holds of one node's share.
pub fn every_first_share()
    ensures own { (sizes : Sizes) (node : ℕ) (program : List Op) → IsEagerPart sizes node program (start_share sizes node) }
{}
