//! The history of every run is good.

ghost use Rattle.std.specs.Prelude.{◌≡◌, List, Some};
ghost use Rattle.op_model.specs.declared.events.Event.{Event};
ghost use Rattle.op_model.specs.Shares.{Trace, program, Charge};
ghost use Rattle.op_model.specs.Run.Runs.{Past, run, InEveryRun};
ghost use Rattle.op_model.specs.Run.History.{history};
ghost use Rattle.trace_text.specs.Traces.{IsTrace, programs_of as program_list};
ghost use Rattle.op_model.specs.Programs.{programs_of};
ghost use Rattle.hist_check.specs.Good.{IsGood};

/// The history of every run of a trace is good: by the operations of each node in the trace, and so by the list of programs that `trace_text::programs` makes of a trace that was read or generated.
pub fn every_history()
    ensures good { InEveryRun (λ _ trace _ past. IsGood (program trace) (history past)) }
    ensures listed { (charge : Charge) (trace : Trace) (events : List Event) (past : Past) → IsTrace trace → run charge trace events ≡ Some past → IsGood (programs_of (program_list trace)) (history past) }
{}
