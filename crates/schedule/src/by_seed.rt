//! The seeded schedule of a command.

ghost use Rattle.std.specs.Prelude.{◌≡◌, ◌+◌, ℕ, [], length, OnOk, OnErr};
ghost use Rattle.node_range.specs.Traces.{IsTraceOf};
ghost use Rattle.op_model.specs.Run.Machines.{IsRunning};
ghost use Rattle.op_model.specs.Shares.{Trace};
ghost use Rattle.picker.specs.Choices.{IsChoice};
ghost use Rattle.seeded_laws.specs.Answers.{chosen_by};
ghost use Rattle.seeded_laws.specs.Command.{IsSeededRun, modulo, word_of};
ghost use Rattle.schedule.specs.Draws.{HasBegunSeeded, IsSeededTo};
ghost use Rattle.schedule.specs.Runs.{HasBegunSeededRun, HasOnlyRun};

use crate::draws::seeded;
use crate::finishing::finish;
use crate::steps::Steps;
use machine_face::MachineFace;
use op_model::NoMemory;
use picker::{Choice, Picker};
use std::sync::ledger::Ledger;

/// Makes the seeded schedule by a choice that answers a word modulo the number of candidates.
fn run_by_choice<M: MachineFace, F: Choice + Drop, L: Ledger>(
    m: &mut M,
    seed: u64,
    choice: F,
    random: u64,
    steps: &mut Steps<L>,
) -> Result<(), NoMemory>
    requires choice { IsChoice (F.can_answer choice) (F.answers choice) }
    requires modulo { (word n place : ℕ) → F.answers choice word n place → place ≡ modulo word n }
    ensures ok { OnOk result (IsSeededTo (chosen_by modulo) (word_of seed) random (M.meaning m.old) (M.meaning m.new)) }
    ensures err { OnErr result (HasBegunSeeded (chosen_by modulo) (word_of seed) random (M.meaning m.old) (M.meaning m.new)) }
    ensures counted { steps.new + length (M.meaning m.old).events ≡ steps.old + length (M.meaning m.new).events }
    ensures kept { IsRunning (M.meaning m.new) }
{
    // The machine says here what it keeps.
    let _cfg = m.cfg();
    let picker = Picker::new(choice);
    seeded(m, seed, &picker, random, steps)?;
    finish(m, steps)
}

/// Makes the seeded schedule of a seed, from the start on, for programs of this many operations: at most 8 drawn events for each operation, each at the place that the next word of the seed's generator has modulo the number of candidates, and then the finishing schedule. It ends at rest with every program done. After want of memory the machine has made the first events of that schedule.
pub fn seeded_run<M: MachineFace, L: Ledger>(
    m: &mut M,
    seed: u64,
    ops: u32,
    steps: &mut Steps<L>,
) -> Result<(), NoMemory>
    requires unused { (M.meaning m.old).events ≡ [] }
    ensures ok { (trace : Trace) → IsTraceOf (M.meaning m.old).sizes (M.meaning m.old).programs trace → length trace.ops ≡ ops → OnOk result (IsSeededRun (M.meaning m.old).charge trace seed (M.meaning m.new).events (M.meaning m.new).past) }
    ensures err { (trace : Trace) → IsTraceOf (M.meaning m.old).sizes (M.meaning m.old).programs trace → length trace.ops ≡ ops → OnErr result (HasBegunSeededRun (M.meaning m.old).charge trace seed (M.meaning m.new).events) }
    ensures only { HasOnlyRun (M.meaning m.old) (M.meaning m.new) }
    ensures counted { steps.new ≡ steps.old + length (M.meaning m.new).events }
    ensures kept { IsRunning (M.meaning m.new) }
{
    // The machine says here what it keeps.
    let _cfg = m.cfg();
    let random = 8 * u64::from(ops);
    run_by_choice(
        m,
        seed,
        |word, n| (word % u64::from(n)) as u32,
        random,
        steps,
    )
}
