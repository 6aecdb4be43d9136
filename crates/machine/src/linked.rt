//! The linked directories of the machine.

ghost use Rattle.std.specs.Prelude.{◌≡◌, ℕ, ◌<◌, ◌%◌, slice_get, Some};
ghost use Rattle.line_map.specs.Sizes.{home_of};
ghost use Rattle.op_model.specs.Run.Runs.{Past};
ghost use Rattle.op_model.specs.Shares.{header_of};
ghost use Rattle.sharer_dir.specs.Linked.{IsLinkedDir, set_at};
ghost use Rattle.machine.specs.Machines.{run_of};

use crate::machine::Machine1;
use dir_header::Sharers;
use lane_queues::Lanes;
use sharer_dir::LinkedDir;

impl<Q: Lanes> Machine1<LinkedDir, Q> {
    /// The directory of a home. Each of its links is free, or stands in the list of exactly one line; and the list of each line stands for the nodes that its header lists.
    pub fn linked_dir(&self, n: u32) -> &LinkedDir
        requires { n < self.now.sizes.nodes }
        ensures dir { slice_get self.now.dirs n ≡ Some result.now }
        ensures linked { IsLinkedDir result.now }
        ensures lists { (past : Past) (line : ℕ) → run_of self.now ≡ Some past → home_of self.now.sizes line ≡ n → (header_of self.now.sizes (past.state.share n) line).list ≡ set_at result.now (line % self.now.sizes.lines) }
    {
        let dir = self.node(n).home().dir();
        let _lines = dir.lines();
        dir
    }
}
