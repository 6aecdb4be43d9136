//! The text of the machine's run.

ghost use Rattle.std.specs.Prelude.{◌≡◌, ◌<◌, ℕ, filter, refl, IfOk, Some};
ghost use Rattle.std.specs.List.{All};
ghost use Rattle.line_map.specs.Sizes.{Sizes};
ghost use Rattle.op_model.specs.Programs.{programs_of};
ghost use Rattle.op_model.specs.Run.History.{is_completed};
ghost use Rattle.op_model.specs.Shares.{Unlinked};
ghost use Rattle.dir_header.specs.HomeSides.{IsHome};
ghost use Rattle.dir_header.specs.Plain.{plain_directory};
ghost use Rattle.eager_model.specs.Runs.{Past};
ghost use Rattle.eager_schedule.specs.Promises.{KeepsPromise};
ghost use Rattle.eager_report.specs.Machines.{heads_of};
ghost use Rattle.eager_report.specs.Reports.{report_text};
ghost use Rattle.eager_machine.specs.Kept.{state_of};
ghost use Rattle.eager_machine.specs.Lanes.{UnderWay};
ghost use Rattle.eager_machine.specs.Machines.{IsMachine, run_of, trace_of};
ghost use Rattle.eager_machine.specs.Seen.{seen_of};

use crate::eager::EagerMachine;
use bitvec_dir::BitDir;
use dir_header::{Header, HomeSide, Sharers};
use dir_report::{Headed, Mode};
use eager_home::EagerNode;
use eager_report::{AgedEntry, EagerReported, report};
use line_map::Machine;
use op_model::{Entry, NoMemory};
use std::alloc::Global;

// Whether an operation is completed: its node's place is above its index.
fn is_done(nodes: &Vec<EagerNode>, entry: &Entry) -> bool
    ensures { (sizes : Sizes) (way : UnderWay) → result ≡ is_completed (state_of sizes nodes.now.items way) entry.now }
{
    match nodes.get(entry.node as usize) {
        Some(node) => entry.index < node.proc().done_count(),
        None => false,
    }
}

// The completed operations among those served, in the same order.
fn completed(
    alloc: Global,
    nodes: &Vec<EagerNode>,
    served: &[AgedEntry],
) -> Result<Vec<AgedEntry>, NoMemory>
    ensures { IfOk result (λ v. (sizes : Sizes) (way : UnderWay) → v.items ≡ filter (λ aged. is_completed (state_of sizes nodes.now.items way) aged.entry) served.now) }
{
    let Ok(mut entries) = Vec::with_capacity(alloc, served.len()) else {
        return Err(NoMemory);
    };
    for aged in served {
        if is_done(nodes, &aged.entry) {
            entries.push_reserved(*aged);
        }
    }
    Ok(entries)
}

impl EagerMachine {
    // The machine, whose run has come to its end.
    fn told(&self) -> Machine
        ensures value { result ≡ self.now.sizes }
        ensures ran { run_of self.now ≡ Some (seen_of self.now).past }
        ensures kept { IsMachine self.now }
    {
        self.cfg()
    }

    // A node, in the state that the run has come to.
    fn node_now(&self, n: u32) -> &EagerNode
        requires { n < self.now.sizes.nodes }
        ensures sizes { result.now.sizes ≡ self.now.sizes }
        ensures number { result.now.number ≡ n }
        ensures share { result.now.share ≡ (seen_of self.now).past.state.share n }
    {
        &self.run.nodes[n as usize]
    }

    // A home, in the state that the run has come to.
    fn home_now(&self, home: u32) -> &HomeSide<BitDir>
        requires { home < self.now.sizes.nodes }
        ensures value { result.now ≡ record { sizes = self.now.sizes; node = home; charge = Unlinked; dir = result.now.dir; headers = ((seen_of self.now).past.state.share home).headers } }
        ensures kept { IsHome (plain_directory result.now.dir) result.now }
    {
        let side = self.node_now(home).home();
        // The home says here what it keeps.
        let _cfg = side.cfg();
        side
    }

    /// The text of the machine's run, as bytes: the histories of all lines with their ages, the lines whose header isn't the first one, and the counts.
    pub fn text(&self, alloc: Global) -> Result<Vec<u8>, NoMemory>
        ensures text { (past : Past) → run_of self.now ≡ Some past → IfOk result (λ text. text.items ≡ report_text self.now.sizes (programs_of self.now.programs) self.now.events past) }
        ensures keeps { (past : Past) → run_of self.now ≡ Some past → KeepsPromise (trace_of self.now) past }
    {
        let _cfg = self.told();
        report(alloc, self)
    }
}

impl Headed for EagerMachine {
    ghost heads = { λ m. heads_of (seen_of m) };

    fn mode(&self) -> Mode {
        Mode::Eager
    }

    fn sizes(&self) -> Machine {
        self.told()
    }

    fn header(&self, g: u32) -> Header {
        let home = self.told().home_of(g);
        self.home_now(home).header(g)
    }

    fn listed_count(&self, g: u32) -> u32 {
        let cfg = self.told();
        self.home_now(cfg.home_of(g)).dir().count(g % cfg.lines())
    }

    fn listed_at(&self, g: u32, i: u32) -> u32 {
        let cfg = self.told();
        self.home_now(cfg.home_of(g)).dir().nth(g % cfg.lines(), i)
    }
}

impl EagerReported for EagerMachine {
    ghost meaning = { seen_of };

    ghost same = { λ m. refl };

    fn completed(&self, alloc: Global) -> Result<Vec<AgedEntry>, NoMemory> {
        completed(alloc, &self.run.nodes, &self.run.journal.served)
    }

    fn counts(&self) -> &[u64; 27] {
        EagerMachine::counts(self)
    }
}
