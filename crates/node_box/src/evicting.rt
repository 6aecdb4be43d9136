//! How a line leaves that stands in the way of the next operation.

ghost use Rattle.std.specs.Prelude.{◌≡◌, ◌≢◌, ◌≤◌, ◌<◌, ◌^◌, ℕ, length, slice_get, is_ok, IfSome, IsNone, Some, true, false, Err};
ghost use Rattle.line_map.specs.Sizes.{line_of as line_of_word};
ghost use Rattle.op_model.specs.Shares.{conflicts};
ghost use Rattle.op_model.specs.declared.operations.Op.{Op as AnOp};
ghost use Rattle.op_model.specs.Events.Node.{HitNext, IssueNext};
ghost use Rattle.op_model.specs.declared.events.Cause.TheVariants.{Conflict};
ghost use Rattle.op_model.specs.Programs.{IsProgramOf};
ghost use Rattle.node_box.specs.Boxes.{IsBox, outcome_at};
ghost use Rattle.node_box.specs.Processing.{leaving as leaving_by, IsInTheWay, Counts, Leaves, MakesWay};

use crate::open_box::OpenBox;
use crate::turns::Turn;
use lane_table::LaneTable;
use magic_node::LocalEvent;
use op_model::{CopyState, EvictKind};

// How a copy leaves. An exclusive copy whose message has no room stays.
fn leaving(at_home: bool, room: bool, state: CopyState) -> Option<EvictKind>
    ensures { result ≡ leaving_by at_home room state }
{
    match state {
        CopyState::Absent => None,
        CopyState::Shared if at_home || !room => Some(EvictKind::Silent),
        CopyState::Shared => Some(EvictKind::Hint),
        CopyState::Exclusive if at_home || room => Some(EvictKind::Wb),
        CopyState::Exclusive => None,
    }
}

impl OpenBox {
    /// Another line, which stands in the set of the next operation's line.
    pub(crate) fn in_the_way(&self) -> Option<u32>
        requires { IsProgramOf self.now.node.sizes self.now.node.number self.now.node.program }
        ensures some { IfSome result (IsInTheWay self.now.node) }
        ensures none { IsNone result → (op : AnOp) → slice_get self.now.node.program self.now.node.share.place ≡ Some op → conflicts self.now.node.sizes self.now.node.share (line_of_word self.now.node.sizes op.word) ≡ false }
    {
        let op = self.node.proc().next_op()?;
        let cache = self.node.cache();
        let cfg = cache.cfg();
        let line = cfg.line_of(cfg.addr_of(op.word));
        let other = cache.resident(line)?;
        if other == line { None } else { Some(other) }
    }

    // Whether a line's message has room. It counts nothing for a line of its own home, which leaves without one.
    fn count_for(&mut self, t: &LaneTable, home: u32) -> bool
        requires kept { IsBox t.now self.old }
        requires home { home < t.now.setup.sizes.nodes }
        ensures kept { IsBox t.now self.new }
        ensures counts { Counts self.old self.new home result }
    {
        if home == self.node.number() {
            return true;
        }
        self.has_room(t, home)
    }

    // The copy of a line that is in the way leaves, if its message has room.
    fn evict(&mut self, t: &LaneTable, line: u32) -> Turn
        requires kept { IsBox t.now self.old }
        requires few { length self.old.log.entries < 2 ^ 48 }
        requires reserved { 1 ≤ self.old.log.room }
        requires line { IsInTheWay self.old.node line }
        ensures kept { IsBox t.now self.new }
        ensures leaves { Leaves result self.old self.new line }
    {
        let cache = self.node.cache();
        let home = cache.cfg().home_of(line);
        let state = cache.look(line);
        let at_home = home == self.node.number();
        let room = self.count_for(t, home);
        let Some(kind) = leaving(at_home, room, state) else {
            return Turn::NoSpace;
        };
        Turn::Did(self.act(t, LocalEvent::Evict { line, kind }, room))
    }

    /// The line that is in the way of the next operation leaves, if its message has room.
    pub(crate) fn make_way(&mut self, t: &LaneTable) -> Turn
        requires kept { IsBox t.now self.old }
        requires few { length self.old.log.entries < 2 ^ 48 }
        requires reserved { 1 ≤ self.old.log.room }
        requires no_hit { is_ok (outcome_at self.old.node HitNext) ≡ false }
        requires conflict { outcome_at self.old.node IssueNext ≡ Err Conflict }
        ensures kept { IsBox t.now self.new }
        ensures way { MakesWay result self.old self.new }
    {
        let Some(line) = self.in_the_way() else {
            unreachable!();
        };
        self.evict(t, line)
    }
}
