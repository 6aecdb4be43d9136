//! The steps of a run: each names nodes and lines of its machine, and is spelled by a line of its own.
//!
//! An event that a run makes is of an operation of the trace, of a copy, of a listed node or of a message, and these are at nodes of the machine and of its lines. So what a run has made can always be written as a section of steps, which is read back; and since it is read back, different steps are written as different lines. The functions here do nothing; their contracts are the laws, the first one for either charge.
#![tactic(auto)]

ghost use Rattle.std.specs.Prelude.{◌≡◌, List, Some};
ghost use Rattle.line_map.specs.Sizes.{Sizes, AreSizes};
ghost use Rattle.op_model.specs.declared.events.Event.{Event};
ghost use Rattle.op_model.specs.Shares.{Trace, Charge};
ghost use Rattle.op_model.specs.Run.Runs.{Past, run};
ghost use Rattle.node_range.specs.Range.{IsOfMachine};
ghost use Rattle.text_lines.specs.Printing.{line_text};
ghost use Rattle.step_journal.specs.Printing.{step_words};
ghost use Rattle.step_journal.specs.Steps.{IsStep, AreSteps};

/// The events of every run of a trace of its machine name nodes of the machine, and lines of it, a line called in for a message included.
pub fn every_step()
    ensures { (charge : Charge) (trace : Trace) (events : List Event) (past : Past) → IsOfMachine trace → AreSizes trace.sizes → run charge trace events ≡ Some past → AreSteps trace.sizes events }
{}

/// Two steps of a machine that have the same line are the same step.
pub fn every_step_line()
    ensures { (sizes : Sizes) (step other : Event) → AreSizes sizes → IsStep sizes step → IsStep sizes other → line_text (step_words step) ≡ line_text (step_words other) → step ≡ other }
{}
