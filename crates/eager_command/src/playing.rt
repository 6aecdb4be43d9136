//! The run that a command makes of a trace by the eager core.

ghost use Rattle.std.specs.Prelude.{◌≡◌, [], OnOk, IfErr};
ghost use Rattle.eager_command.specs.Outputs.{IsEagerStopped};
ghost use Rattle.eager_command.specs.Played.{machine_of, IsPlayed};

use command_words::EagerPlay;
use commands::{ReplayError, stopped};
use eager_machine::EagerMachine;
use trace_text::Trace;

fn play_serial(trace: &Trace, machine: &mut EagerMachine) -> Result<(), ReplayError>
    requires fresh { machine.old ≡ machine_of trace.now [] }
    ensures ok { OnOk result (IsPlayed EagerPlay.Serial trace.now machine.new) }
    ensures stopped { IfErr result (IsEagerStopped EagerPlay.Serial trace.now) }
{
    match machine.serial(trace.ops()) {
        Ok(()) => Ok(()),
        Err(_) => Err(ReplayError::Memory),
    }
}

/// Makes the steps of a trace one after another, up to the first one that isn't enabled.
fn play_steps(trace: &Trace, machine: &mut EagerMachine) -> Result<(), ReplayError>
    requires fresh { machine.old ≡ machine_of trace.now [] }
    ensures ok { OnOk result (IsPlayed EagerPlay.Replay trace.now machine.new) }
    ensures stopped { IfErr result (IsEagerStopped EagerPlay.Replay trace.now) }
{
    let steps = trace.steps();
    let mut made = 0;
    for step in steps {
        made += 1;
        match machine.apply(*step) {
            Ok(()) => {}
            Err(error) => return Err(stopped(made, error)),
        }
    }
    Ok(())
}

/// Makes the run of a command.
pub(crate) fn make_run(
    play: EagerPlay,
    trace: &Trace,
    machine: &mut EagerMachine,
) -> Result<(), ReplayError>
    requires fresh { machine.old ≡ machine_of trace.now [] }
    ensures ok { OnOk result (IsPlayed play trace.now machine.new) }
    ensures stopped { IfErr result (IsEagerStopped play trace.now) }
{
    match play {
        EagerPlay::Serial => play_serial(trace, machine),
        EagerPlay::Replay => play_steps(trace, machine),
    }
}
