//! A node looks for a message, and takes the first that it finds.

ghost use Rattle.std.specs.Prelude.{◌≤◌, ◌<◌, ◌*◌, ◌^◌, length, IfSome, IfNone};
ghost use Rattle.node_box.specs.Boxes.{IsBox};
ghost use Rattle.node_box.specs.Logging.{IsLogged};
ghost use Rattle.node_box.specs.Lanes.{AreEmpty};
ghost use Rattle.node_box.specs.Turns.{TakesOne, Controls, IsIdle, IsControllerTurn};

use crate::lanes::lane_at;
use crate::open_box::OpenBox;
use crate::turns::Turn;
use lane_table::LaneTable;

impl OpenBox {
    /// Looks at the incoming lanes at these places, in order, and takes the first message that it finds.
    pub(crate) fn take_between(
        &mut self,
        t: &LaneTable,
        link: u32,
        first: u32,
        end: u32,
    ) -> Option<u64>
        requires kept { IsBox t.now self.old }
        requires few { length self.old.log.entries < 2 ^ 48 }
        requires reserved { 1 ≤ self.old.log.room }
        requires link { link < t.now.setup.sizes.links }
        requires range { first ≤ end }
        requires end { end ≤ t.now.setup.sizes.nodes * 2 }
        ensures kept { IsBox t.now self.new }
        ensures none { IfNone result (AreEmpty self.old self.new first end) }
        ensures some { IfSome result (TakesOne self.old self.new link) }
    {
        for place in first..end {
            let (src, class) = lane_at(place);
            if let Some(msg) = self.look(t, src, class) {
                let victim = self.victim_for(src, &msg, link);
                self.next = place + 1;
                return Some(self.take(t, src, class, &msg, victim));
            }
        }
        None
    }

    /// Looks at all incoming lanes, beginning behind that of the last message taken, and takes the first message that it finds.
    pub(crate) fn take_any(&mut self, t: &LaneTable, link: u32) -> Option<u64>
        requires kept { IsBox t.now self.old }
        requires few { length self.old.log.entries < 2 ^ 48 }
        requires reserved { 1 ≤ self.old.log.room }
        requires link { link < t.now.setup.sizes.links }
        ensures kept { IsBox t.now self.new }
        ensures none { IfNone result (AreEmpty self.old self.new 0 (t.now.setup.sizes.nodes * 2)) }
        ensures some { IfSome result (TakesOne self.old self.new link) }
    {
        let places = self.out.cfg().nodes() * 2;
        let first = if self.next < places { self.next } else { 0 };
        if let Some(ticket) = self.take_between(t, link, first, places) {
            return Some(ticket);
        }
        self.take_between(t, link, 0, first)
    }

    /// One turn of a controller: each outgoing lane is flushed, and then a message is taken, or a line is called in.
    pub(crate) fn control(&mut self, t: &LaneTable, link: u32) -> Option<u64>
        requires kept { IsBox t.now self.old }
        requires few { length self.old.log.entries < 2 ^ 48 }
        requires reserved { 1 ≤ self.old.log.room }
        requires link { link < t.now.setup.sizes.links }
        ensures kept { IsBox t.now self.new }
        ensures did { IfSome result (Controls t.now.setup.sizes.nodes self.old self.new link) }
        ensures idle { IfNone result (IsIdle t.now.setup.sizes.nodes self.old self.new link) }
    {
        self.flush_all(t);
        if let Some(ticket) = self.take_any(t, link) {
            return Some(ticket);
        }
        self.reclaim(t, link)
    }

    /// The same, once there is room in the log.
    pub(crate) fn controller_turn(&mut self, t: &LaneTable, link: u32) -> Turn
        requires kept { IsBox t.now self.old }
        requires few { length self.old.log.entries < 2 ^ 48 }
        requires link { link < t.now.setup.sizes.links }
        ensures kept { IsBox t.now self.new }
        ensures turn { IsControllerTurn t.now.setup.sizes.nodes result self.old self.new link }
        ensures log { IsLogged result self.old self.new }
    {
        if self.log.reserve_one().is_err() {
            return Turn::Memory;
        }
        let Some(ticket) = self.control(t, link) else {
            return Turn::Idle;
        };
        Turn::Did(ticket)
    }
}
