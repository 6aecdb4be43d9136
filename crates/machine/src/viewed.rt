//! What the text of the whole state reads of the machine.

ghost use Rattle.std.specs.Prelude.{◌≡◌, ◌<◌};
ghost use Rattle.machine.specs.Driven.{run_made};
ghost use Rattle.op_model.specs.Programs.{programs_of};

use crate::machine::Machine1;
use cpu_cache::{Cache, Proc};
use dir_header::Sharers;
use lane_queues::Lanes;
use line_map::Body;
use op_model::{Class, CopyState, Entry, Msg, Want};
use time_view::Viewed;

impl<D: Sharers, Q: Lanes> Machine1<D, Q> {
    // A node's processor, in the state that the run has come to.
    fn proc_now(&self, node: u32) -> &Proc
        requires { node < self.now.sizes.nodes }
        ensures { result.now ≡ record { program = programs_of self.now.programs node; place = ((run_made self.now).past.state.share node).place; want = ((run_made self.now).past.state.share node).want } }
    {
        let _cfg = self.told();
        self.node(node).proc()
    }

    // A node's cache, in the state that the run has come to.
    fn cache_now(&self, node: u32) -> &Cache
        requires { node < self.now.sizes.nodes }
        ensures { result.now ≡ record { sizes = self.now.sizes; copies = ((run_made self.now).past.state.share node).copies } }
    {
        let _cfg = self.told();
        self.node(node).cache()
    }
}

impl<D: Sharers, Q: Lanes> Viewed for Machine1<D, Q> {
    fn event_count(&self) -> u64 {
        Machine1::event_count(self)
    }

    fn served(&self) -> &[Entry] {
        let _cfg = self.told();
        Machine1::served(self)
    }

    fn place(&self, node: u32) -> u32 {
        self.proc_now(node).done_count()
    }

    fn want(&self, node: u32) -> Option<Want> {
        self.proc_now(node).want()
    }

    fn cached(&self, node: u32, line: u32) -> CopyState {
        self.cache_now(node).look(line)
    }

    fn cached_words(&self, node: u32, line: u32) -> Body {
        self.cache_now(node).body(line)
    }

    fn memory(&self, line: u32) -> Body {
        let home = self.told().home_of(line);
        self.home_now(home).memory(line)
    }

    fn lane_len(&self, src: u32, dst: u32, class: Class) -> u32 {
        self.lanes_now().len(src, dst, class)
    }

    fn lane_at(&self, src: u32, dst: u32, class: Class, i: u32) -> Msg {
        self.lanes_now().at(src, dst, class, i)
    }
}
