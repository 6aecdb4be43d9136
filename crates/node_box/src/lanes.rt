//! The lanes of a node, one after another.

ghost use Rattle.std.specs.Prelude.{◌≡◌, ◌<◌, ◌*◌, IfSome, IfNone};
ghost use Rattle.lane_table.specs.Calls.{Finds};
ghost use Rattle.lane_table.specs.Steps.{looked_in};
ghost use Rattle.lane_table.specs.Told.{IsFront};
ghost use Rattle.node_box.specs.Boxes.{IsBox};
ghost use Rattle.node_box.specs.Lanes.{AreFlushed, OnlyLooks, lane_place};

use crate::open_box::OpenBox;
use lane_table::LaneTable;
use op_model::{Class, Msg};

// The other node and the class of the lane at a place.
pub(crate) fn lane_at(place: u32) -> (u32, Class)
    ensures { lane_place result.0 result.1 ≡ place }
{
    let class = if place % 2 == 0 {
        Class::Request
    } else {
        Class::Reply
    };
    (place / 2, class)
}

impl OpenBox {
    /// Flushes each outgoing lane, in order.
    pub(crate) fn flush_all(&mut self, t: &LaneTable)
        requires kept { IsBox t.now self.old }
        ensures kept { IsBox t.now self.new }
        ensures lanes { AreFlushed self.old self.new (t.now.setup.sizes.nodes * 2) }
    {
        let places = self.out.cfg().nodes() * 2;
        for place in 0..places {
            let (dst, class) = lane_at(place);
            self.flush_lane(t, dst, class);
        }
    }

    /// The message in the cell of the lane from a node, if there is one.
    pub(crate) fn look(&mut self, t: &LaneTable, src: u32, class: Class) -> Option<Msg>
        requires kept { IsBox t.now self.old }
        requires src { src < t.now.setup.sizes.nodes }
        ensures kept { IsBox t.now self.new }
        ensures only { OnlyLooks self.old self.new }
        ensures none { IfNone result (self.new.seat.part ≡ looked_in self.old.seat.part src class 0) }
        ensures some { IfSome result (Finds self.old.seat.part self.new.seat.part src class) }
        ensures front { IfSome result (IsFront t.now.setup self.new.seat.part src class) }
    {
        self.seat.look(t, src, class)
    }
}
