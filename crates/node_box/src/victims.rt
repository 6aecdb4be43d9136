//! Which line a node calls in.

ghost use Rattle.std.specs.Prelude.{◌≡◌, ◌≤◌, ◌<◌, ◌^◌, nat_lt, true, ℕ, length, IfSome, IfNone, IsNone, IsOk};
ghost use Rattle.op_model.specs.Shares.{Linked};
ghost use Rattle.op_model.specs.Events.Node.{TakeFrom, meets_row};
ghost use Rattle.op_model.specs.Run.Seeded.{free_links, low_water as low_water_of};
ghost use Rattle.node_box.specs.Boxes.{IsBox, outcome_at};
ghost use Rattle.node_box.specs.Turns.{victim_by, IsDue, Reclaims};

use crate::open_box::OpenBox;
use dir_header::Sharers;
use lane_table::LaneTable;
use magic_node::LocalEvent;
use op_model::Msg;
use reclaim::{by_link, low_water};

impl OpenBox {
    /// The victim of a message that the node takes: the line of a link where the message calls one in, else none. The node then doesn't refuse the message.
    pub(crate) fn victim_for(&self, src: u32, msg: &Msg, link: u32) -> Option<u32>
        requires linked { self.now.node.charge ≡ Linked }
        requires link { link < self.now.node.sizes.links }
        requires from { src < self.now.node.sizes.nodes }
        requires row { meets_row self.now.node.sizes self.now.node.number self.now.node.share src msg.now ≡ true }
        ensures by_link { result ≡ victim_by self.now.node link src msg.now }
        ensures goes { IsOk (outcome_at self.now.node (TakeFrom src msg.now result)) }
    {
        if self.node.can_take(src, msg, None).is_ok() {
            return None;
        }
        let home = self.node.home();
        let _kept = home.cfg();
        by_link(home, link)
    }

    // Whether so few links of the home are free that it calls lines in.
    fn is_low(&self) -> bool
        requires { self.now.node.charge ≡ Linked }
        ensures { result ≡ nat_lt (free_links Linked self.now.node.sizes self.now.node.share) (low_water_of self.now.node.sizes.links) }
    {
        let home = self.node.home();
        home.dir().free() < low_water(home.cfg().links())
    }

    /// Calls the line of a link in, where that is due.
    pub(crate) fn reclaim(&mut self, t: &LaneTable, link: u32) -> Option<u64>
        requires kept { IsBox t.now self.old }
        requires few { length self.old.log.entries < 2 ^ 48 }
        requires reserved { 1 ≤ self.old.log.room }
        requires link { link < self.old.node.sizes.links }
        ensures kept { IsBox t.now self.new }
        ensures none { IfNone result (self.new ≡ self.old) }
        ensures due { IsNone result → (line : ℕ) → IsDue self.old link line → ⊥ }
        ensures some { IfSome result (Reclaims self.old self.new link) }
    {
        if !self.is_low() {
            return None;
        }
        let line = by_link(self.node.home(), link)?;
        let event = LocalEvent::Reclaim { line };
        if self.node.can_do(event, true).is_err() {
            return None;
        }
        Some(self.act(t, event, true))
    }
}
