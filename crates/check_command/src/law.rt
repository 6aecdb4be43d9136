//! An input is read in one way alone.

ghost use Rattle.std.specs.Prelude.{◌≡◌, ℕ, List, Result};
ghost use Rattle.op_model.specs.declared.operations.Entry.{Entry};
ghost use Rattle.op_model.specs.Shares.{Trace};
ghost use Rattle.trace_text.specs.declared.fault.TraceError.{TraceError};
ghost use Rattle.trace_text.specs.declared.fault.TraceError.TheVariants.{Memory};
ghost use Rattle.check_command.specs.declared.refusal.CheckRefusal.{CheckRefusal};
ghost use Rattle.check_command.specs.declared.refusal.CheckRefusal.TheVariants.{Input};
ghost use Rattle.check_command.specs.Checked.{IsReadAs, IsChecked, IsUncheckable};

/// Every input gives one trace with one history, or one fault. So one that has a text is refused for want of memory alone: a history is told to be good exactly where it is.
pub fn every_input()
    ensures one { (bytes : List ℕ) (read other : Result (Trace × List Entry) TraceError) → IsReadAs bytes read → IsReadAs bytes other → read ≡ other }
    ensures exact { (bytes text : List ℕ) (refusal : CheckRefusal) → IsChecked bytes text → IsUncheckable bytes refusal → refusal ≡ Input Memory }
{}
