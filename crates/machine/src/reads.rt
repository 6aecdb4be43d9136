//! What a schedule reads of the state of the machine, without a scan.

ghost use Rattle.std.specs.Prelude.{◌≡◌, ◌<◌, Some, IfSome, filter, is_some, slice_get};
ghost use Rattle.line_map.specs.Sizes.{all_lines};
ghost use Rattle.op_model.specs.Lines.{state_of};
ghost use Rattle.op_model.specs.Shares.{copy_of};
ghost use Rattle.op_model.specs.Events.Node.{fits_victim};
ghost use Rattle.op_model.specs.Run.Runs.{Past};
ghost use Rattle.op_model.specs.Run.Schedules.{least_victim as least_victim_of, other_in_set as other_of_set};
ghost use Rattle.op_model.specs.Run.Seeded.{free_links as free_links_of, lines_of};
ghost use Rattle.machine.specs.Machines.{run_of};
ghost use Rattle.op_model.specs.Programs.{programs_of};

use crate::machine::Machine1;
use dir_header::{Sharers, Victims};
use lane_queues::Lanes;
use magic_node::MagicNode;
use op_model::{CopyState, Op};

impl<D: Sharers, Q: Lanes> Machine1<D, Q> {
    /// How many operations of a node are done.
    pub fn done_count(&self, n: u32) -> u32
        requires { n < self.now.sizes.nodes }
        ensures { (past : Past) → run_of self.now ≡ Some past → result ≡ (past.state.share n).place }
    {
        self.node(n).proc().done_count()
    }

    /// The next operation of a node, if it has one left.
    pub fn next_op(&self, n: u32) -> Option<Op>
        requires { n < self.now.sizes.nodes }
        ensures { (past : Past) → run_of self.now ≡ Some past → result ≡ slice_get (programs_of self.now.programs n) (past.state.share n).place }
    {
        self.node(n).proc().next_op()
    }

    /// Whether a node has begun an operation that isn't done.
    pub fn is_outstanding(&self, n: u32) -> bool
        requires { n < self.now.sizes.nodes }
        ensures { (past : Past) → run_of self.now ≡ Some past → result ≡ is_some (past.state.share n).want }
    {
        self.node(n).proc().want().is_some()
    }

    /// What a node's cache has of a line.
    pub fn copy_state(&self, n: u32, line: u32) -> CopyState
        requires node { n < self.now.sizes.nodes }
        requires line { line < all_lines self.now.sizes }
        ensures { (past : Past) → run_of self.now ≡ Some past → result ≡ state_of (copy_of (past.state.share n) line) }
    {
        self.node(n).cache().look(line)
    }

    /// Another line than this one in its set of a node's cache.
    pub fn other_in_set(&self, n: u32, line: u32) -> Option<u32>
        requires node { n < self.now.sizes.nodes }
        requires line { line < all_lines self.now.sizes }
        ensures value { (past : Past) → run_of self.now ≡ Some past → result ≡ other_of_set self.now.sizes (past.state.share n) line }
        ensures below { IfSome result (λ other. other < all_lines self.now.sizes) }
    {
        match self.node(n).cache().resident(line) {
            Some(other) if other != line => Some(other),
            _ => None,
        }
    }

    /// The least line of a home that may be called in.
    pub fn least_victim(&self, n: u32) -> Option<u32>
        requires { n < self.now.sizes.nodes }
        ensures { (past : Past) → run_of self.now ≡ Some past → result ≡ least_victim_of self.now.charge self.now.sizes past.state n }
    {
        self.node(n).home().least_victim()
    }

    /// The lines of a home that may be called in, each handed out once, in increasing order. They are those of the machine as it stands at this call.
    pub fn victims(&self, n: u32) -> Victims
        requires { n < self.now.sizes.nodes }
        ensures { (past : Past) → run_of self.now ≡ Some past → result ≡ filter (fits_victim self.now.charge self.now.sizes n (past.state.share n)) (lines_of self.now.sizes n) }
    {
        self.node(n).home().victims()
    }

    /// How many links of a home are free.
    pub fn free_links(&self, n: u32) -> u32
        requires { n < self.now.sizes.nodes }
        ensures { (past : Past) → run_of self.now ≡ Some past → result ≡ free_links_of self.now.charge self.now.sizes (past.state.share n) }
    {
        self.node(n).home().dir().free()
    }
}
