//! What a report reads of a machine.

ghost use Rattle.std.specs.Prelude.{◌≡◌, ◌<◌, map, IfOk};
ghost use Rattle.op_model.specs.Run.History.{history};
ghost use Rattle.op_model.specs.Run.Counts.{all_counts, counted};
ghost use Rattle.op_model.specs.Run.Machines.{MachineRun, IsRunning};
ghost use Rattle.dir_report.specs.Machines.{IsHome, heads_of, moments_of};

use crate::headed::Headed;
use crate::homes::HomeCounts;
use line_map::Machine;
use op_model::{Entry, NoMemory, Program};
use std::alloc::Global;

/// A machine that has made a run, as far as its report reads it. No call scans lines, lanes or events, but the one that gives the history.
pub trait Reported: Headed {
    /// The machine with the run that it has made.
    ghost meaning: { Self → MachineRun };

    /// The sizes of the machine.
    fn cfg(&self) -> Machine
        ensures value { result ≡ (meaning self.now).sizes }
        ensures kept { IsRunning (meaning self.now) };

    /// The program of a node.
    fn program(&self, node: u32) -> &Program
        requires { node < (meaning self.now).sizes.nodes }
        ensures { result.now ≡ (meaning self.now).programs node };

    /// The completed operations, in the order in which they were served.
    fn history(&self, alloc: Global) -> Result<Vec<Entry>, NoMemory>
        ensures { IfOk result (λ entries. entries.items ≡ history (meaning self.now).past) };

    /// The pending lines and the links of a home.
    fn home_counts(&self, home: u32) -> HomeCounts
        requires { home < (meaning self.now).sizes.nodes }
        ensures { IsHome (meaning self.now) home result };

    /// The numbers of all counts, in their order.
    fn counts(&self) -> &[u64; 27]
        ensures { result.now ≡ map (counted (moments_of (meaning self.now))) (all_counts (meaning self.now).sizes) };

    /// Its headers are those that its run has come to, in delayed mode.
    ghost same: { (m : Self) → Self.heads m ≡ heads_of (meaning m) };
}
