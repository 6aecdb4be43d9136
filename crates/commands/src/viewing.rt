//! What is shown of the run that a trace's own steps make: the state at one moment, or the headers of one line.

ghost use Rattle.std.specs.Prelude.{◌≡◌, ◌≤◌, ◌<◌, ◌^◌, length, IfOk, IfErr, OnOk};
ghost use Rattle.line_map.specs.Sizes.{all_lines};
ghost use Rattle.op_model.specs.Shares.{Linked};
ghost use Rattle.machine.specs.Driven.{run_made};
ghost use Rattle.time_view.specs.Stories.{story_of};
ghost use Rattle.commands.specs.Runs.{machine_at_start};
ghost use Rattle.commands.specs.Steps.{AreStepsOf, HasMade, IsStopped};
ghost use Rattle.commands.specs.Views.{IsThere, IsView, IsNoView, error_of_replay};

use crate::machines::{linked_machine, ring_lanes};
use crate::playable::Playable;
use crate::replaying::{ReplayError, replay, stopped};
use command_words::View;
use lane_queues::RingLanes;
use machine::Machine1;
use machine_face::MachineFace;
use op_model::{Cause, Event, NoMemory};
use sharer_dir::LinkedDir;
use std::alloc::Global;
use time_view::{Story, state_text};
use trace_text::Trace;

/// Why nothing is shown.
#[derive(Clone, Copy, Debug, PartialEq, Eq)]
pub enum ViewError {
    /// The trace has fewer steps than were asked for: so many.
    TooFar { count: u64 },
    /// The machine has no line of this number.
    NoLine { line: u32 },
    /// A step isn't enabled, for its first cause. Steps count from 1.
    NotEnabled { step: u64, cause: Cause },
    /// Want of memory.
    Memory,
}

fn halted(error: ReplayError) -> ViewError
    ensures { result ≡ error_of_replay error }
{
    match error {
        ReplayError::NotEnabled { step, cause } => ViewError::NotEnabled { step, cause },
        ReplayError::Memory => ViewError::Memory,
    }
}

/// Whether a trace has what is asked for: so many steps, or the line.
fn find(view: View, trace: &Trace) -> Result<(), ViewError>
    ensures there { OnOk result (IsThere view trace.now) }
    ensures err { IfErr result (λ error. IsNoView view trace.now error) }
{
    match view {
        View::At { steps } => {
            let count = trace.steps().len() as u64;
            if steps > count {
                return Err(ViewError::TooFar { count });
            }
        }
        View::Story { line } => {
            if line >= trace.cfg().all_lines() {
                return Err(ViewError::NoLine { line });
            }
        }
    }
    Ok(())
}

/// Makes the first steps of a trace, and gives the text of the state behind them.
fn state_after<M: Playable>(
    alloc: Global,
    steps: u64,
    trace: &Trace,
    m: &mut M,
) -> Result<Vec<u8>, ViewError>
    requires fresh { M.MachineFace.meaning m.old ≡ machine_at_start Linked trace.now }
    requires there { IsThere (View.At steps) trace.now }
    ensures text { IfOk result (λ text. IsView (View.At steps) trace.now text.items) }
    ensures err { IfErr result (λ error. IsNoView (View.At steps) trace.now error) }
{
    match replay(m, &trace.steps()[..steps as usize]) {
        Ok(()) => {}
        Err(error) => return Err(halted(error)),
    }
    match state_text(alloc, m) {
        Ok(text) => Ok(text),
        Err(_) => Err(ViewError::Memory),
    }
}

/// Makes steps as `replay` does, and notes after each of them the header of the story's line. It takes time of each step and of that header alone.
fn replay_noted<M: Playable>(
    m: &mut M,
    steps: &[Event],
    story: &mut Story,
) -> Result<(), ReplayError>
    requires within { AreStepsOf (M.MachineFace.meaning m.old) steps.now }
    requires few { length steps.now < 2 ^ 63 }
    requires line { story.old.line < all_lines (M.MachineFace.meaning m.old).sizes }
    requires told { story.old ≡ story_of (M.MachineFace.meaning m.old) story.old.line }
    ensures ok { OnOk result (HasMade (M.MachineFace.meaning m.old) steps.now (M.MachineFace.meaning m.new)) }
    ensures told { OnOk result (story.new ≡ story_of (M.MachineFace.meaning m.new) story.old.line) }
    ensures stopped { IfErr result (IsStopped (M.MachineFace.meaning m.old) steps.now) }
{
    // The machine says here what it keeps.
    let _cfg = MachineFace::cfg(m);
    let mut made = 0;
    for step in steps {
        made += 1;
        match m.apply(*step) {
            Ok(()) => {}
            Err(error) => return Err(stopped(made, error)),
        }
        match story.note(m) {
            Ok(()) => {}
            Err(_) => return Err(ReplayError::Memory),
        }
    }
    Ok(())
}

/// Makes all steps of a trace, and gives the story of a line.
fn line_story<M: Playable>(
    alloc: Global,
    line: u32,
    trace: &Trace,
    m: &mut M,
) -> Result<Vec<u8>, ViewError>
    requires fresh { M.MachineFace.meaning m.old ≡ machine_at_start Linked trace.now }
    requires there { IsThere (View.Story line) trace.now }
    ensures text { IfOk result (λ text. IsView (View.Story line) trace.now text.items) }
    ensures err { IfErr result (λ error. IsNoView (View.Story line) trace.now error) }
{
    let mut story = match Story::start(alloc, line) {
        Ok(story) => story,
        Err(_) => return Err(ViewError::Memory),
    };
    match replay_noted(m, trace.steps(), &mut story) {
        Ok(()) => {}
        Err(error) => return Err(halted(error)),
    }
    match story.text(alloc) {
        Ok(text) => Ok(text),
        Err(_) => Err(ViewError::Memory),
    }
}

fn show<M: Playable>(
    alloc: Global,
    view: View,
    trace: &Trace,
    m: &mut M,
) -> Result<Vec<u8>, ViewError>
    requires fresh { M.MachineFace.meaning m.old ≡ machine_at_start Linked trace.now }
    requires there { IsThere view trace.now }
    ensures text { IfOk result (λ text. IsView view trace.now text.items) }
    ensures err { IfErr result (λ error. IsNoView view trace.now error) }
{
    match view {
        View::At { steps } => state_after(alloc, steps, trace, m),
        View::Story { line } => line_story(alloc, line, trace, m),
    }
}

/// The machine of a trace at its start, with linked lists and rings of words.
pub fn machine_of(alloc: Global, trace: &Trace) -> Result<Machine1<LinkedDir, RingLanes>, NoMemory>
    ensures { IfOk result (λ made. run_made made ≡ machine_at_start Linked trace.now) }
{
    let lanes = ring_lanes(alloc, trace)?;
    linked_machine(alloc, trace, lanes)
}

/// What is shown of a trace, on its machine with linked lists and rings of words: the state after its first steps, or the story of a line over all of them. TooFar comes exactly where it has fewer steps than are asked for, and NoLine exactly where the machine has no such line. NotEnabled comes behind these, at the first of the steps to be made that isn't enabled, with its first cause.
pub fn view_text(alloc: Global, view: View, trace: &Trace) -> Result<Vec<u8>, ViewError>
    ensures text { IfOk result (λ text. IsView view trace.now text.items) }
    ensures refused { IfErr result (λ error. IsNoView view trace.now error) }
{
    find(view, trace)?;
    match machine_of(alloc, trace) {
        Ok(mut machine) => show(alloc, view, trace, &mut machine),
        Err(_) => Err(ViewError::Memory),
    }
}
