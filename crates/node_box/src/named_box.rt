//! The box of one node.

ghost use Rattle.std.specs.Prelude.{◌≡◌, ◌≤◌, ◌<◌, ◌^◌, ℕ, [], length, IfOk};
ghost use Rattle.op_model.specs.declared.events.Class.{Class as AClass};
ghost use Rattle.op_model.specs.Programs.{IsProgramOf};
ghost use Rattle.op_model.specs.Parts.Part.{taken_from, cleared_from};
ghost use Rattle.lane_table.specs.Views.{IsSeatOf};
ghost use Rattle.node_box.specs.Boxes.{IsBox, node_of};
ghost use Rattle.node_box.specs.Logging.{IsLogged};
ghost use Rattle.node_box.specs.Processing.{IsProcessorTurn, HasReason};
ghost use Rattle.node_box.specs.Turns.{IsControllerTurn};

use crate::named::Named;
use crate::open_box::OpenBox;
use crate::turns::Turn;
use lane_table::{LaneTable, NodeSeat};
use magic_node::MagicNode;
use msg_words::Sends;
use op_model::NoMemory;
use out_space::Outbox;
use sharer_dir::LinkedDir;
use std::alloc::Global;
use std::marker::{Model, PhantomData};
use step_journal::Log;

/// A node with its outbox, its log and its seat at the table that `K` names. Node, outbox and log are always those of the seat's part.
#[derive(Drop)]
pub struct NodeBox<K: Named> {
    open: OpenBox,
    of: PhantomData<K>,
}

impl<K: Named> Model for NodeBox<K> {
    ghost use Rattle.node_box.specs.Boxes.{BoxView, IsBox, box_code};

    ghost Value = { BoxView };

    ghost coded = { box_code };

    ghost view = { λ b. b.open };

    ghost invariant = { λ b. IsBox K.table b.open };
}

impl<K: Named> NodeBox<K> {
    /// The box of a node that has done nothing yet, with its seat.
    pub fn new(
        alloc: Global,
        node: MagicNode<LinkedDir>,
        seat: NodeSeat,
    ) -> Result<NodeBox<K>, NoMemory>
        requires seat { IsSeatOf K.table seat }
        requires node { node ≡ node_of seat.part node.dir }
        requires program { IsProgramOf node.sizes node.number node.program }
        requires unsent { (seat.part.sent ≡ []) × (seat.part.flushed ≡ []) }
        requires unlogged { seat.part.log ≡ [] }
        requires ready { (src : ℕ) (class : AClass) → taken_from seat.part src class ≡ cleared_from seat.part src class }
        ensures { IfOk result (λ made. (made.node ≡ node) × (made.log.entries ≡ []) × (made.seat ≡ seat)) }
    {
        let cfg = node.home().cfg();
        let Ok(departed) = vec![in alloc; false; cfg.nodes() as usize] else {
            return Err(NoMemory);
        };
        let open = OpenBox {
            node,
            out: Outbox::new(alloc, cfg)?,
            departed,
            sends: Sends::new(alloc, cfg.nodes())?,
            log: Log::empty(alloc),
            seat,
            next: 0,
        };
        Ok(NodeBox {
            open,
            of: PhantomData,
        })
    }

    /// The node.
    pub fn node(&self) -> &MagicNode<LinkedDir>
        ensures { result.now ≡ self.now.node }
    {
        &self.open.node
    }

    /// The log.
    pub fn log(&self) -> &Log
        ensures { result.now ≡ self.now.log }
    {
        &self.open.log
    }

    /// Takes the box apart. Node and log are those of the seat's part, and the seat is one of the table.
    pub fn into_parts(self) -> (MagicNode<LinkedDir>, Log, NodeSeat)
        ensures node { result.0 ≡ self.node }
        ensures part { result.0 ≡ node_of self.seat.part self.node.dir }
        ensures log { result.1.entries ≡ self.seat.part.log }
        ensures seat { result.2 ≡ self.seat }
        ensures kept { IsBox K.table self }
    {
        let NodeBox { open, of: _ } = self;
        let OpenBox {
            node,
            out: _,
            departed: _,
            sends: _,
            log,
            seat,
            next: _,
        } = open;
        (node, log, seat)
    }

    /// One turn of the node's processor. The next operation is done on the cache's copy where that serves it. Else another line that stands in its set leaves, and else it is begun. The log grows by the kept allocator.
    pub fn processor_turn(&mut self, t: &LaneTable) -> Turn
        requires table { t.now ≡ K.table }
        requires few { length self.old.log.entries < 2 ^ 48 }
        ensures turn { IsProcessorTurn result self.old self.new }
        ensures log { IsLogged result self.old self.new }
        ensures reason { HasReason result self.old.node }
    {
        self.open.processor_turn(t)
    }

    /// One turn of the node's controller. It gives each message that waits first in an outgoing lane to its cell, where that is empty. Then it takes the first message that it finds, or calls the line of a link in where few links are free. The log grows by the kept allocator.
    pub fn controller_turn(&mut self, t: &LaneTable, link: u32) -> Turn
        requires table { t.now ≡ K.table }
        requires few { length self.old.log.entries < 2 ^ 48 }
        requires link { link < K.table.setup.sizes.links }
        ensures turn { IsControllerTurn K.table.setup.sizes.nodes result self.old self.new link }
        ensures log { IsLogged result self.old self.new }
    {
        self.open.controller_turn(t, link)
    }
}
