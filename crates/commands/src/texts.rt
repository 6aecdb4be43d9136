//! The text that a command writes of a trace.

ghost use Rattle.std.specs.Prelude.{◌≡◌, IfOk, IfErr};
ghost use Rattle.op_model.specs.Run.Bounds.{request_bound, reply_bound};
ghost use Rattle.op_model.specs.Shares.{Linked, Unlinked};
ghost use Rattle.lane_queues.specs.LaneStates.{no_messages};
ghost use Rattle.commands.specs.Runs.{machine_at_start, IsPlayed, IsOutput, IsStoppedIn, text_for};

use crate::machines::{bit_machine, linked_machine, ring_lanes};
use crate::playable::Playable;
use crate::playing::make_run;
use crate::replaying::ReplayError;
use command_words::Play;
use dir_report::{report, summary};
use lane_queues::Lanes;
use one_history::every_run;
use op_model::NoMemory;
use std::alloc::Global;
use trace_text::Trace;

/// The text of a machine's run: a summary for a generated trace, else a report.
fn print<M: Playable>(alloc: Global, play: Play, trace: &Trace, m: &M) -> Result<Vec<u8>, NoMemory>
    ensures { IfOk result (λ text. text.items ≡ text_for play trace.now (M.MachineFace.meaning m.now)) }
{
    match play {
        Play::Gen { .. } => summary(alloc, m),
        Play::Serial | Play::Seeded { .. } | Play::Replay => report(alloc, m, trace.version()),
    }
}

/// Runs a trace as a command says, on a machine at its start, and gives the text of the run.
fn output<M: Playable>(
    alloc: Global,
    play: Play,
    trace: &Trace,
    m: &mut M,
) -> Result<Vec<u8>, ReplayError>
    requires fresh { M.MachineFace.meaning m.old ≡ machine_at_start (M.MachineFace.meaning m.old).charge trace.now }
    ensures text { IfOk result (λ text. IsOutput play (M.MachineFace.meaning m.old).charge trace.now text.items) }
    ensures stopped { IfErr result (IsStoppedIn play (M.MachineFace.meaning m.old).charge trace.now) }
{
    // The trace says here what it keeps.
    let _cfg = trace.cfg();
    make_run(play, trace, m)?;
    // The law of every run, for the clause on one history.
    every_run();
    match print(alloc, play, trace, m) {
        Ok(text) => Ok(text),
        Err(_) => Err(ReplayError::Memory),
    }
}

/// What a command writes of a trace: it makes its run on the machine of the trace, whose directories are linked lists and whose lanes are rings of words, and gives the run's report, or for a generated trace its summary. NotEnabled comes for `replay` alone, at the first of the trace's steps that isn't enabled, with its first cause.
pub fn command_text(alloc: Global, play: Play, trace: &Trace) -> Result<Vec<u8>, ReplayError>
    ensures text { IfOk result (λ text. IsOutput play Linked trace.now text.items) }
    ensures stopped { IfErr result (IsStoppedIn play Linked trace.now) }
{
    match ring_lanes(alloc, trace) {
        Ok(lanes) => command_text_over(alloc, play, trace, lanes),
        Err(_) => Err(ReplayError::Memory),
    }
}

/// The same over any lanes, which are empty and have the capacities of the machine's bounds.
pub fn command_text_over<Q: Lanes>(
    alloc: Global,
    play: Play,
    trace: &Trace,
    lanes: Q,
) -> Result<Vec<u8>, ReplayError>
    requires { Q.meaning lanes ≡ no_messages trace.now.sizes (request_bound trace.now.sizes) (reply_bound trace.now.sizes) }
    ensures text { IfOk result (λ text. IsOutput play Linked trace.now text.items) }
    ensures stopped { IfErr result (IsStoppedIn play Linked trace.now) }
{
    match linked_machine(alloc, trace, lanes) {
        Ok(mut machine) => output(alloc, play, trace, &mut machine),
        Err(_) => Err(ReplayError::Memory),
    }
}

/// The same over directories of bit vectors, whose lists cost no links, and rings of words.
pub fn bits_text(alloc: Global, play: Play, trace: &Trace) -> Result<Vec<u8>, ReplayError>
    ensures text { IfOk result (λ text. IsOutput play Unlinked trace.now text.items) }
    ensures stopped { IfErr result (IsStoppedIn play Unlinked trace.now) }
{
    match bit_machine(alloc, trace) {
        Ok(mut machine) => output(alloc, play, trace, &mut machine),
        Err(_) => Err(ReplayError::Memory),
    }
}
