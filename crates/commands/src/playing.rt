//! The run that a command makes of a trace.

ghost use Rattle.std.specs.Prelude.{◌≡◌, ◌<◌, OnOk, IfErr};
ghost use Rattle.commands.specs.Runs.{machine_at_start, IsPlayed, IsStoppedIn};

use crate::replaying::{ReplayError, replay};
use command_words::Play;
use machine_face::MachineFace;
use op_model::NoMemory;
use schedule::{Steps, seeded_run, serial};
use seeded_laws::every_seeded_run;
use std::marker::Brand;
use std::sync::ledger::{Blank, Ledger};
use trace_text::Trace;

fn play_serial<M: MachineFace, L: Ledger>(
    trace: &Trace,
    m: &mut M,
    steps: &mut Steps<L>,
) -> Result<(), NoMemory>
    requires fresh { M.meaning m.old ≡ machine_at_start (M.meaning m.old).charge trace.now }
    ensures { OnOk result (IsPlayed Play.Serial trace.now (M.meaning m.old).charge (M.meaning m.new)) }
{
    serial(m, trace.ops(), steps)
}

fn play_seeded<M: MachineFace, L: Ledger>(
    seed: u64,
    trace: &Trace,
    m: &mut M,
    steps: &mut Steps<L>,
) -> Result<(), NoMemory>
    requires fresh { M.meaning m.old ≡ machine_at_start (M.meaning m.old).charge trace.now }
    ensures { OnOk result (IsPlayed (Play.Seeded seed) trace.now (M.meaning m.old).charge (M.meaning m.new)) }
{
    // The law of that schedule, for what its run comes to.
    every_seeded_run();
    seeded_run(m, seed, trace.ops().len() as u32, steps)
}

fn play_steps<M: MachineFace>(trace: &Trace, m: &mut M) -> Result<(), ReplayError>
    requires fresh { M.meaning m.old ≡ machine_at_start (M.meaning m.old).charge trace.now }
    ensures ok { OnOk result (IsPlayed Play.Replay trace.now (M.meaning m.old).charge (M.meaning m.new)) }
    ensures stopped { IfErr result (IsStoppedIn Play.Replay (M.meaning m.old).charge trace.now) }
{
    replay(m, trace.steps())
}

/// Makes the run of a command.
pub(crate) fn make_run<M: MachineFace>(
    play: Play,
    trace: &Trace,
    m: &mut M,
) -> Result<(), ReplayError>
    requires fresh { M.meaning m.old ≡ machine_at_start (M.meaning m.old).charge trace.now }
    ensures ok { OnOk result (IsPlayed play trace.now (M.meaning m.old).charge (M.meaning m.new)) }
    ensures stopped { IfErr result (IsStoppedIn play (M.meaning m.old).charge trace.now) }
{
    counted::<M, Brand>(play, trace, m, Blank::new(1))
}

// The same, beside a count of the events that nobody reads.
fn counted<M: MachineFace, L: Ledger>(
    play: Play,
    trace: &Trace,
    m: &mut M,
    blank: Blank,
) -> Result<(), ReplayError>
    requires fresh { M.meaning m.old ≡ machine_at_start (M.meaning m.old).charge trace.now }
    requires name { blank.name ≡ L.name }
    requires parts { blank.parts ≡ L.parts }
    requires some { 0 < blank.parts }
    ensures ok { OnOk result (IsPlayed play trace.now (M.meaning m.old).charge (M.meaning m.new)) }
    ensures stopped { IfErr result (IsStoppedIn play (M.meaning m.old).charge trace.now) }
{
    let (book, share) = blank.open::<L>();
    let mut steps = Steps::new(book, share);
    let made = match play {
        Play::Replay => return play_steps(trace, m),
        Play::Serial | Play::Gen { .. } => play_serial(trace, m, &mut steps),
        Play::Seeded { seed } => play_seeded(seed, trace, m, &mut steps),
    };
    match made {
        Ok(()) => Ok(()),
        Err(_) => Err(ReplayError::Memory),
    }
}
