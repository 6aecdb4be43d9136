//! The text of a run that a journal begins.

ghost use Rattle.std.specs.Prelude.{◌≡◌, ◌≢◌, ◌<◌, ◌^◌, ◌++◌, length, IfOk, OnOk};
ghost use Rattle.op_model.specs.Shares.{Linked};
ghost use Rattle.dir_report.specs.Machines.{report_of};
ghost use Rattle.step_journal.specs.Printing.{journal_text};
ghost use Rattle.commands.specs.Journaled.{Runs, IsCompleted, IsJournalOutput};
ghost use Rattle.commands.specs.Runs.{machine_at_start};
ghost use Rattle.commands.specs.Steps.{HasMade};

use crate::machines::{linked_machine, ring_lanes};
use crate::playable::Playable;
use crate::replaying::{ReplayError, replay};
use decimal_text::put_bytes;
use dir_report::report;
use machine_face::MachineFace;
use one_history::every_run;
use op_model::{Event, NoMemory};
use schedule::{Steps, finish};
use std::alloc::Global;
use std::marker::Brand;
use std::sync::ledger::{Blank, Ledger};
use step_journal::put_journal;
use step_range::every_step;
use trace_text::Trace;

/// Makes the events of a journal, which run.
fn follow<M: MachineFace>(trace: &Trace, m: &mut M, journal: &[Event]) -> Result<(), NoMemory>
    requires fresh { M.meaning m.old ≡ machine_at_start (M.meaning m.old).charge trace.now }
    requires runs { Runs (M.meaning m.old).charge trace.now journal.now }
    requires few { length journal.now < 2 ^ 63 }
    ensures { OnOk result (HasMade (M.meaning m.old) journal.now (M.meaning m.new)) }
{
    // The trace says here what it keeps, and the law what the events of its runs name.
    let _cfg = trace.cfg();
    every_step();
    match replay(m, journal) {
        Ok(()) => Ok(()),
        Err(ReplayError::Memory) => Err(NoMemory),
        Err(ReplayError::NotEnabled { .. }) => unreachable!(),
    }
}

/// Makes the events of a journal, and then those that complete all operations. The count of steps is read by nobody.
fn complete<M: MachineFace, L: Ledger>(
    trace: &Trace,
    m: &mut M,
    journal: &[Event],
    blank: Blank,
) -> Result<(), NoMemory>
    requires fresh { M.meaning m.old ≡ machine_at_start (M.meaning m.old).charge trace.now }
    requires runs { Runs (M.meaning m.old).charge trace.now journal.now }
    requires few { length journal.now < 2 ^ 63 }
    requires name { blank.name ≡ L.name }
    requires parts { blank.parts ≡ L.parts }
    requires some { 0 < blank.parts }
    ensures { OnOk result (IsCompleted (M.meaning m.old).charge trace.now journal.now (M.meaning m.new)) }
{
    let (book, share) = blank.open::<L>();
    let mut steps = Steps::new(book, share);
    follow(trace, m, journal)?;
    finish(m, &mut steps)
}

/// The steps of a machine and the report of its run.
fn steps_and_report<M: Playable>(alloc: Global, trace: &Trace, m: &M) -> Result<Vec<u8>, NoMemory>
    ensures { IfOk result (λ text. text.items ≡ journal_text (M.MachineFace.meaning m.now).events ++ report_of trace.now.version (M.MachineFace.meaning m.now)) }
{
    let mut text = Vec::new(alloc);
    put_journal(&mut text, m.events())?;
    put_bytes(&mut text, &report(alloc, m, trace.version())?)?;
    Ok(text)
}

/// What is written of a run that a journal begins: the steps of the journal, those that complete all operations behind them, and the report of the whole run, on the machine of the trace whose directories are linked lists and whose lanes are rings of words. The journal runs.
pub fn journal_output(alloc: Global, trace: &Trace, journal: &[Event]) -> Result<Vec<u8>, NoMemory>
    requires runs { Runs Linked trace.now journal.now }
    requires few { length journal.now < 2 ^ 63 }
    ensures { IfOk result (λ text. IsJournalOutput trace.now journal.now text.items) }
{
    let lanes = ring_lanes(alloc, trace)?;
    let mut machine = linked_machine(alloc, trace, lanes)?;
    complete_all(trace, &mut machine, journal)?;
    // The trace says here what it keeps; the law of every run, for the clause on one history.
    let _cfg = trace.cfg();
    every_run();
    steps_and_report(alloc, trace, &machine)
}

fn complete_all<M: MachineFace>(trace: &Trace, m: &mut M, journal: &[Event]) -> Result<(), NoMemory>
    requires fresh { M.meaning m.old ≡ machine_at_start (M.meaning m.old).charge trace.now }
    requires runs { Runs (M.meaning m.old).charge trace.now journal.now }
    requires few { length journal.now < 2 ^ 63 }
    ensures { OnOk result (IsCompleted (M.meaning m.old).charge trace.now journal.now (M.meaning m.new)) }
{
    complete::<M, Brand>(trace, m, journal, Blank::new(1))
}
