//! The turn of a processor.

ghost use Rattle.std.specs.Prelude.{◌≡◌, ◌≤◌, ◌<◌, ◌^◌, length, IfSome, IfNone, nat_lt, is_ok, false, Err, if◌then◌else◌};
ghost use Rattle.op_model.specs.Parts.Part.{gate_count};
ghost use Rattle.op_model.specs.Events.Node.{HitNext, IssueNext};
ghost use Rattle.op_model.specs.declared.events.Cause.TheVariants.{Conflict};
ghost use Rattle.node_box.specs.Boxes.{IsBox, outcome_at};
ghost use Rattle.node_box.specs.Logging.{IsLogged};
ghost use Rattle.node_box.specs.Processing.{Processes, IsProcessorTurn, HasReason};
ghost use Rattle.node_box.specs.Gate.{IsCounted, Begins};

use crate::open_box::OpenBox;
use crate::turns::{HeldCause, Turn};
use lane_table::LaneTable;
use magic_node::LocalEvent;
use op_model::{Cause, Class};

// How many messages stand in a cell that isn't empty and are counted by the gate on evictions.
fn counted(departed: bool) -> u32
    ensures { result ≡ (if departed then 1 else 0) }
{
    if departed { 1 } else { 0 }
}

impl OpenBox {
    /// Whether an eviction's message has room in the lane to a node, by what this node knows. It loads the cell's header word, unless the outbox alone is full of such messages.
    pub(crate) fn has_room(&mut self, t: &LaneTable, dst: u32) -> bool
        requires kept { IsBox t.now self.old }
        requires dst { dst < t.now.setup.sizes.nodes }
        ensures kept { IsBox t.now self.new }
        ensures gate { result ≡ nat_lt (gate_count self.new.seat.part dst) self.new.seat.part.sizes.evicts }
        ensures load { IsCounted self.old self.new dst }
    {
        let waiting = self.out.evictions(dst);
        let evicts = self.out.cfg().evicts();
        if waiting >= evicts {
            return false;
        }
        let departed = self.departed[dst as usize];
        if self.seat.space(t, dst, Class::Request) {
            return true;
        }
        waiting + counted(departed) < evicts
    }

    /// Begins the next operation, where nothing holds it back and its set has room. None where another line stands in its set.
    pub(crate) fn begin(&mut self, t: &LaneTable) -> Option<Turn>
        requires kept { IsBox t.now self.old }
        requires few { length self.old.log.entries < 2 ^ 48 }
        requires reserved { 1 ≤ self.old.log.room }
        requires no_hit { is_ok (outcome_at self.old.node HitNext) ≡ false }
        ensures kept { IsBox t.now self.new }
        ensures some { IfSome result (λ turn. Begins turn self.old self.new) }
        ensures none { IfNone result (self.new ≡ self.old) }
        ensures conflict { IfNone result (outcome_at self.old.node IssueNext ≡ Err Conflict) }
    {
        let Err(cause) = self.node.can_do(LocalEvent::Issue, true) else {
            return Some(Turn::Did(self.act(t, LocalEvent::Issue, true)));
        };
        match cause {
            Cause::NoOp => Some(Turn::Ended),
            Cause::Outstanding => Some(Turn::Waiting),
            Cause::HeldPending => Some(Turn::Held(HeldCause::Pending)),
            Cause::HeldBudget => Some(Turn::Held(HeldCause::Budget)),
            Cause::Conflict => None,
            _ => unreachable!(),
        }
    }

    /// One turn of a processor: the next operation is done on the cache's copy, or begun, or a line makes way for it.
    pub(crate) fn process(&mut self, t: &LaneTable) -> Turn
        requires kept { IsBox t.now self.old }
        requires few { length self.old.log.entries < 2 ^ 48 }
        requires reserved { 1 ≤ self.old.log.room }
        ensures kept { IsBox t.now self.new }
        ensures turn { Processes result self.old self.new }
    {
        if self.node.can_do(LocalEvent::Hit, true).is_ok() {
            return Turn::Did(self.act(t, LocalEvent::Hit, true));
        }
        match self.begin(t) {
            Some(turn) => turn,
            None => self.make_way(t),
        }
    }

    /// The same, once there is room in the log.
    pub(crate) fn processor_turn(&mut self, t: &LaneTable) -> Turn
        requires kept { IsBox t.now self.old }
        requires few { length self.old.log.entries < 2 ^ 48 }
        ensures kept { IsBox t.now self.new }
        ensures turn { IsProcessorTurn result self.old self.new }
        ensures log { IsLogged result self.old self.new }
        ensures reason { HasReason result self.old.node }
    {
        if self.log.reserve_one().is_err() {
            return Turn::Memory;
        }
        let _kept = self.node.number();
        self.process(t)
    }
}
