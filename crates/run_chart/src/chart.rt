//! The chart of a run, noted event by event.

ghost use Rattle.std.specs.Prelude.{◌≡◌, ◌<◌, [], if◌then◌else◌, nat_lt, None, OnOk, length, ◌+◌};
ghost use Rattle.op_model.specs.Run.Machines.{MachineRun, IsRunning, IsApplied, IsEventOf};
ghost use Rattle.chart_strokes.specs.Strokes.{operation_entry, strokes_of};
ghost use Rattle.run_chart.specs.Charts.{IsBefore, IsChartOf};

use crate::before::Before;
use crate::entries::{entry_at, entry_behind};
use crate::letters::take;
use crate::posting::post_all;
use chart_strokes::{Letter, Stroke};
use op_model::{Entry, Event, NoMemory};
use std::alloc::Global;
use std::marker::Model;
use time_view::Viewed;

/// The strokes of a run so far and the letters under way, seen as these two lists.
#[derive(Drop)]
pub struct Chart {
    letters: Vec<Letter>,
    strokes: Vec<Stroke>,
}

impl Model for Chart {
    ghost use Rattle.run_chart.specs.Charts.{ChartView};

    ghost Value = { ChartView };

    ghost view = { λ c. record { letters = c.letters.items; strokes = c.strokes.items } };
}

/// The operation that a node has completed since it was at a place, if it has moved on from there.
fn completed<M: Viewed>(m: &M, node: u32, place: u32) -> Option<Entry>
    requires { node < (M.meaning m.now).sizes.nodes }
    ensures { result ≡ (if nat_lt place ((M.meaning m.now).past.state.share node).place then operation_entry node place (M.meaning m.now).past.served else None) }
{
    if place < m.place(node) {
        entry_at(m.served(), node, place)
    } else {
        None
    }
}

impl Chart {
    /// The chart of a run without events. It takes no memory.
    pub fn start(alloc: Global) -> Chart
        ensures none { result.strokes ≡ [] }
        ensures told { (m : MachineRun) → m.events ≡ [] → IsChartOf m result }
    {
        Chart {
            letters: Vec::new(alloc),
            strokes: Vec::new(alloc),
        }
    }

    /// Notes an event that was made just now, of which this was known before it. For each lane from its node it looks through the letters under way, and where the node completes an operation it looks for its entry. After want of memory the chart is of no more use.
    pub fn note<M: Viewed>(&mut self, m: &M, event: Event, before: Before) -> Result<(), NoMemory>
        requires event { IsEventOf (M.meaning m.now).sizes event }
        requires node { before.node < (M.meaning m.now).sizes.nodes }
        ensures more { OnOk result (length self.new.strokes ≡ length self.old.strokes + 1) }

        // What was the chart of a run is then the chart of the run with this event.
        ensures told { (was : MachineRun) → IsRunning was → IsApplied was event (M.meaning m.now) → IsBefore was event before → IsChartOf was self.old → OnOk result (IsChartOf (M.meaning m.now) self.new) }
    {
        let number = self.strokes.len() as u64 + 1;
        let letter = take(&mut self.letters, event);
        post_all(&mut self.letters, m, number, before.node)?;
        let stroke = Stroke {
            number,
            event,
            node: before.node,
            line: before.line,
            letter,
            served: entry_behind(m.served(), before.served),
            completed: completed(m, before.node, before.place),
        };
        let Ok(()) = self.strokes.push(stroke) else {
            return Err(NoMemory);
        };
        Ok(())
    }

    /// The strokes so far, one for each event noted, in their order.
    pub fn strokes(&self) -> &[Stroke]
        ensures value { result.now ≡ self.now.strokes }
        ensures told { (m : MachineRun) → IsChartOf m self.now → result.now ≡ strokes_of m }
    {
        &self.strokes
    }
}
