//! What a chart says is so: no arrow lies.
//!
//! The strokes of a run are defined by letters, the messages in lanes with the numbers of the events that sent them. This law speaks of the run alone: there is a stroke for each event, in their order; where an event took a message, its stroke shows that very message, and the event whose number the letter bears came before, at the node where the arrow begins, and sent that message to the node where it ends. The function does nothing; its contract is the law.
#![tactic(auto)]

ghost use Rattle.std.specs.Prelude.{◌≡◌, Some};
ghost use Rattle.op_model.specs.Run.Machines.{MachineRun};
ghost use Rattle.op_model.specs.Run.Runs.{start, run_by};
ghost use Rattle.chart_strokes.specs.Strokes.{strokes_of};
ghost use Rattle.chart_laws.specs.Told.{AreTold};

/// The strokes of every run tell what happened: each one the event of its number, at its node, with the message that it took and the event before it that sent that message.
pub fn every_chart()
    ensures told { (m : MachineRun) → run_by m.charge m.sizes m.programs (start m.sizes) m.events ≡ Some m.past → AreTold m (strokes_of m) }
{}
