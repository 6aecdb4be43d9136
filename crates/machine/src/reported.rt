//! What a report reads of the machine.

ghost use Rattle.std.specs.Prelude.{◌≡◌, ◌<◌, refl};
ghost use Rattle.dir_header.specs.HomeSides.{IsHome};
ghost use Rattle.dir_report.specs.Machines.{heads_of};
ghost use Rattle.machine.specs.Driven.{run_made};

use crate::machine::Machine1;
use dir_header::{Header, HomeSide, Sharers};
use dir_report::{Headed, HomeCounts, Mode, Reported};
use lane_queues::Lanes;
use line_map::Machine;
use op_model::{Entry, NoMemory, Program};
use std::alloc::Global;

impl<D: Sharers, Q: Lanes> Machine1<D, Q> {
    /// A home, in the state that the run has come to.
    pub(crate) fn home_now(&self, home: u32) -> &HomeSide<D>
        requires { home < self.now.sizes.nodes }
        ensures value { result.now ≡ record { sizes = self.now.sizes; node = home; charge = self.now.charge; dir = result.now.dir; headers = ((run_made self.now).past.state.share home).headers } }
        ensures kept { IsHome (D.directory result.now.dir) result.now }
    {
        let _cfg = self.told();
        let side = self.node(home).home();
        let _kept = side.cfg();
        side
    }
}

impl<D: Sharers, Q: Lanes> Headed for Machine1<D, Q> {
    ghost heads = { λ m. heads_of (run_made m) };

    fn mode(&self) -> Mode {
        Mode::Delayed
    }

    fn sizes(&self) -> Machine {
        self.told()
    }

    fn header(&self, g: u32) -> Header {
        let home = self.told().home_of(g);
        self.home_now(home).header(g)
    }

    fn listed_count(&self, g: u32) -> u32 {
        let cfg = self.told();
        self.home_now(cfg.home_of(g)).dir().count(g % cfg.lines())
    }

    fn listed_at(&self, g: u32, i: u32) -> u32 {
        let cfg = self.told();
        self.home_now(cfg.home_of(g)).dir().nth(g % cfg.lines(), i)
    }
}

impl<D: Sharers, Q: Lanes> Reported for Machine1<D, Q> {
    ghost meaning = { run_made };

    ghost same = { λ m. refl };

    fn cfg(&self) -> Machine {
        self.told()
    }

    fn program(&self, node: u32) -> &Program {
        Machine1::program(self, node)
    }

    fn history(&self, alloc: Global) -> Result<Vec<Entry>, NoMemory> {
        let _cfg = self.told();
        Machine1::history(self, alloc)
    }

    fn home_counts(&self, home: u32) -> HomeCounts {
        let links = self.told().links();
        let side = self.home_now(home);
        let free = side.dir().free();
        HomeCounts {
            pending: side.pending_count(),
            held: links - free,
            free,
        }
    }

    fn counts(&self) -> &[u64; 27] {
        &self.run.journal.counts
    }
}
