//! The chart of the run that a trace's own steps make.

ghost use Rattle.std.specs.Prelude.{◌≡◌, ◌≤◌, ◌+◌, length, IfOk, IfErr, OnOk};
ghost use Rattle.op_model.specs.Shares.{Linked};
ghost use Rattle.run_chart.specs.Charts.{IsChartOf};
ghost use Rattle.commands.specs.Runs.{machine_at_start};
ghost use Rattle.commands.specs.Steps.{AreStepsOf, HasMade, IsStopped};
ghost use Rattle.chart_command.specs.Charted.{IsDrawable, IsChart, IsNoChart, error_of_replay};

use chart_svg::picture;
use commands::{Playable, ReplayError, machine_of, stopped};
use machine_face::MachineFace;
use op_model::{Cause, Event};
use run_chart::{Before, Chart};
use std::alloc::Global;
use trace_text::Trace;

/// The most nodes that a chart shows.
const MOST_NODES: u32 = 16;

/// The most steps that a chart shows.
const MOST_STEPS: u64 = 400;

/// Why there is no chart.
#[derive(Clone, Copy, Debug, PartialEq, Eq)]
pub enum ChartError {
    /// The machine has more than 16 nodes: so many.
    TooManyNodes { count: u32 },
    /// The trace has more than 400 steps: so many.
    TooManySteps { count: u64 },
    /// The machine has no line of this number.
    NoLine { line: u32 },
    /// A step isn't enabled, for its first cause. Steps count from 1.
    NotEnabled { step: u64, cause: Cause },
    /// Want of memory.
    Memory,
}

fn halted(error: ReplayError) -> ChartError
    ensures { result ≡ error_of_replay error }
{
    match error {
        ReplayError::NotEnabled { step, cause } => ChartError::NotEnabled { step, cause },
        ReplayError::Memory => ChartError::Memory,
    }
}

/// Whether a chart can show a trace, or the first cause why not.
fn fit(chosen: Option<u32>, trace: &Trace) -> Result<(), ChartError>
    ensures fits { OnOk result (IsDrawable chosen trace.now) }
    ensures err { IfErr result (λ error. IsNoChart chosen trace.now error) }
{
    let cfg = trace.cfg();
    let nodes = cfg.nodes();
    if nodes > MOST_NODES {
        return Err(ChartError::TooManyNodes { count: nodes });
    }
    let steps = trace.steps().len() as u64;
    if steps > MOST_STEPS {
        return Err(ChartError::TooManySteps { count: steps });
    }
    match chosen {
        Some(line) if line >= cfg.all_lines() => Err(ChartError::NoLine { line }),
        _ => Ok(()),
    }
}

/// Makes steps as `replay` does, and notes each of them in a chart.
fn replay_charted<M: Playable>(
    m: &mut M,
    steps: &[Event],
    chart: &mut Chart,
) -> Result<(), ReplayError>
    requires within { AreStepsOf (M.MachineFace.meaning m.old) steps.now }
    requires few { length steps.now ≤ 400 }
    requires told { IsChartOf (M.MachineFace.meaning m.old) chart.old }
    ensures ok { OnOk result (HasMade (M.MachineFace.meaning m.old) steps.now (M.MachineFace.meaning m.new)) }
    ensures told { OnOk result (IsChartOf (M.MachineFace.meaning m.new) chart.new) }
    ensures more { OnOk result (length chart.new.strokes ≡ length chart.old.strokes + length steps.now) }
    ensures stopped { IfErr result (IsStopped (M.MachineFace.meaning m.old) steps.now) }
{
    // The machine says here what it keeps.
    let _cfg = MachineFace::cfg(m);
    let mut made = 0;
    for step in steps {
        made += 1;
        let before = Before::of(m, *step);
        match m.apply(*step) {
            Ok(()) => {}
            Err(error) => return Err(stopped(made, error)),
        }
        match chart.note(m, *step, before) {
            Ok(()) => {}
            Err(_) => return Err(ReplayError::Memory),
        }
    }
    Ok(())
}

/// Makes all steps of a trace on its machine, and draws them.
fn drawn<M: Playable>(
    alloc: Global,
    chosen: Option<u32>,
    trace: &Trace,
    m: &mut M,
) -> Result<Vec<u8>, ChartError>
    requires fresh { M.MachineFace.meaning m.old ≡ machine_at_start Linked trace.now }
    requires fits { IsDrawable chosen trace.now }
    ensures text { IfOk result (λ text. IsChart chosen trace.now text.items) }
    ensures err { IfErr result (λ error. IsNoChart chosen trace.now error) }
{
    let mut chart = Chart::start(alloc);
    match replay_charted(m, trace.steps(), &mut chart) {
        Ok(()) => {}
        Err(error) => return Err(halted(error)),
    }
    match picture(alloc, trace.cfg().nodes(), chosen, chart.strokes()) {
        Ok(text) => Ok(text),
        Err(_) => Err(ChartError::Memory),
    }
}

/// The chart of a trace: its own steps are made on its machine, with linked lists and rings of words, and the picture is that of their strokes, of all or of those about the chosen line. TooManyNodes comes exactly where the machine has more than 16 nodes; TooManySteps, behind it, exactly where the trace has more than 400 steps; NoLine, behind these, exactly where the machine has no such line. NotEnabled comes last, at the first step that isn't enabled, with its first cause.
pub fn chart_text(alloc: Global, chosen: Option<u32>, trace: &Trace) -> Result<Vec<u8>, ChartError>
    ensures text { IfOk result (λ text. IsChart chosen trace.now text.items) }
    ensures refused { IfErr result (λ error. IsNoChart chosen trace.now error) }
{
    fit(chosen, trace)?;
    match machine_of(alloc, trace) {
        Ok(mut machine) => drawn(alloc, chosen, trace, &mut machine),
        Err(_) => Err(ChartError::Memory),
    }
}
