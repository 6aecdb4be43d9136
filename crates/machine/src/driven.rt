//! The machine, as those who drive it see it.

ghost use Rattle.std.specs.Prelude.{◌≡◌, Some};
ghost use Rattle.op_model.specs.Run.Machines.{IsRunning};
ghost use Rattle.machine.specs.Machines.{run_of};
ghost use Rattle.machine.specs.Driven.{run_made};

use crate::machine::Machine1;
use dir_header::{Sharers, Victims};
use lane_queues::Lanes;
use line_map::Machine;
use machine_face::{ApplyError, MachineFace};
use magic_node::MagicNode;
use op_model::{Cause, Class, CopyState, Event, Op};
use std::alloc::Global;

impl<D: Sharers, Q: Lanes> Machine1<D, Q> {
    /// The machine, with what it keeps.
    pub(crate) fn told(&self) -> Machine
        ensures value { result ≡ self.now.sizes }
        ensures ran { run_of self.now ≡ Some (run_made self.now).past }
        ensures kept { IsRunning (run_made self.now) }
    {
        Machine1::cfg(self)
    }

    /// The lanes, in the state that the run has come to.
    pub(crate) fn lanes_now(&self) -> &Q
        ensures sizes { (Q.meaning result.now).sizes ≡ self.now.sizes }
        ensures lane { (Q.meaning result.now).lane ≡ (run_made self.now).past.state.lane }
    {
        let _cfg = self.told();
        self.lanes()
    }
}

impl<D: Sharers, Q: Lanes> MachineFace for Machine1<D, Q> {
    ghost meaning = { run_made };

    fn alloc(&self) -> Global {
        Machine1::alloc(self)
    }

    fn cfg(&self) -> Machine {
        self.told()
    }

    fn apply(&mut self, event: Event) -> Result<(), ApplyError> {
        let _cfg = self.told();
        Machine1::apply(self, event)
    }

    fn enabled(&self, event: &Event) -> Result<(), Cause> {
        let _cfg = self.told();
        Machine1::enabled(self, event)
    }

    fn first_busy(&self) -> Option<(u32, u32, Class)> {
        self.lanes_now().first_busy()
    }

    fn next_busy(&self, src: u32, dst: u32, class: Class) -> Option<(u32, u32, Class)> {
        self.lanes_now().next_busy(src, dst, class)
    }

    fn done_count(&self, node: u32) -> u32 {
        let _cfg = self.told();
        Machine1::done_count(self, node)
    }

    fn next_op(&self, node: u32) -> Option<Op> {
        let _cfg = self.told();
        Machine1::next_op(self, node)
    }

    fn is_outstanding(&self, node: u32) -> bool {
        let _cfg = self.told();
        Machine1::is_outstanding(self, node)
    }

    fn copy_state(&self, node: u32, line: u32) -> CopyState {
        let _cfg = self.told();
        Machine1::copy_state(self, node, line)
    }

    fn other_in_set(&self, node: u32, line: u32) -> Option<u32> {
        let _cfg = self.told();
        Machine1::other_in_set(self, node, line)
    }

    fn least_victim(&self, home: u32) -> Option<u32> {
        let _cfg = self.told();
        Machine1::least_victim(self, home)
    }

    fn victims(&self, home: u32) -> Victims {
        let _cfg = self.told();
        Machine1::victims(self, home)
    }

    fn is_low(&self, home: u32) -> bool {
        let links = self.told().links();
        Machine1::free_links(self, home) < links / 8
    }
}
