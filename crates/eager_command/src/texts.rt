//! The text that a command writes of a trace by the eager core.

ghost use Rattle.std.specs.Prelude.{◌≡◌, [], IfOk, IfErr};
ghost use Rattle.eager_command.specs.Outputs.{IsEagerOutput, IsEagerStopped};
ghost use Rattle.eager_command.specs.Played.{machine_of};

use crate::machines::machine_at_start;
use crate::playing::make_run;
use command_words::EagerPlay;
use commands::ReplayError;
use eager_machine::EagerMachine;
use eager_schedule::every_run;
use std::alloc::Global;
use trace_text::Trace;

/// Runs a trace as a command says, on its machine at the start, and gives the text of the run.
fn output(
    alloc: Global,
    play: EagerPlay,
    trace: &Trace,
    machine: &mut EagerMachine,
) -> Result<Vec<u8>, ReplayError>
    requires fresh { machine.old ≡ machine_of trace.now [] }
    ensures text { IfOk result (λ text. IsEagerOutput play trace.now text.items) }
    ensures stopped { IfErr result (IsEagerStopped play trace.now) }
{
    // The trace says here what it keeps.
    let _cfg = trace.cfg();
    make_run(play, trace, machine)?;
    // The law of every run, for the clause on what the eager core promises.
    every_run();
    match machine.text(alloc) {
        Ok(text) => Ok(text),
        Err(_) => Err(ReplayError::Memory),
    }
}

/// What a command writes of a run of the eager core: it makes its run on the machine of the trace, whose directories are bit vectors and whose words have ages, and gives the text of that run. NotEnabled comes for `eager replay` alone, at the first of the trace's steps that isn't enabled, with its first cause.
pub fn eager_text(alloc: Global, play: EagerPlay, trace: &Trace) -> Result<Vec<u8>, ReplayError>
    ensures text { IfOk result (λ text. IsEagerOutput play trace.now text.items) }
    ensures stopped { IfErr result (IsEagerStopped play trace.now) }
{
    match machine_at_start(alloc, trace) {
        Ok(mut machine) => output(alloc, play, trace, &mut machine),
        Err(_) => Err(ReplayError::Memory),
    }
}
