//! A box whose parts may for a while not be its seat's part.

ghost use Rattle.std.specs.Prelude.{◌≡◌, ◌≤◌, ◌<◌, ◌^◌, ◌+◌, ℕ, length, IsOk, Some};
ghost use Rattle.op_model.specs.Events.Node.{TakeFrom};
ghost use Rattle.op_model.specs.Parts.Part.{in_note, named};
ghost use Rattle.magic_node.specs.Nodes.{input_of, FitsEvent};
ghost use Rattle.lane_table.specs.Told.{IsFront};
ghost use Rattle.node_box.specs.Boxes.{IsBox, outcome_at};
ghost use Rattle.node_box.specs.Events.{event_of, IsGate, Acts, Takes, FlushesLane};

use crate::outgoing::put_all;
use lane_table::{LaneTable, NodeSeat};
use magic_node::{LocalEvent, MagicNode};
use msg_words::Sends;
use op_model::{Class, Event, Msg, Numbered};
use out_space::Outbox;
use sharer_dir::LinkedDir;
use std::marker::Model;
use step_journal::Log;

/// A node with its outbox, its log and its seat. What its calls need and keep of the seat's part is said by each of them.
#[derive(Drop)]
pub(crate) struct OpenBox {
    pub(crate) node: MagicNode<LinkedDir>,
    pub(crate) out: Outbox,
    // Whether the last request that left the outbox for each node was a write-back or a hint.
    pub(crate) departed: Vec<bool>,
    // What the node sends at the event under way.
    pub(crate) sends: Sends,
    pub(crate) log: Log,
    pub(crate) seat: NodeSeat,
    // The lane at which the next search for a message begins.
    pub(crate) next: u32,
}

impl Model for OpenBox {
    ghost use Rattle.node_box.specs.Boxes.{BoxView, box_code};

    ghost Value = { BoxView };

    ghost coded = { box_code };

    ghost view = { λ b. record { node = b.node; out = b.out; departed = b.departed.items; sends = b.sends; log = b.log; seat = b.seat } };
}

// An event of a node's own, as an event of the machine.
fn named_event(node: u32, event: LocalEvent) -> Event
    ensures { result ≡ event_of node event }
{
    match event {
        LocalEvent::Hit => Event::Hit { node },
        LocalEvent::Issue => Event::Issue { node },
        LocalEvent::Evict { line, kind } => Event::Evict { node, line, kind },
        LocalEvent::Reclaim { line } => Event::Reclaim { line },
    }
}

impl OpenBox {
    /// Makes an event of the node's own, which the node doesn't refuse.
    pub(crate) fn act(&mut self, t: &LaneTable, event: LocalEvent, room: bool) -> u64
        requires kept { IsBox t.now self.old }
        requires few { length self.old.log.entries < 2 ^ 48 }
        requires reserved { 1 ≤ self.old.log.room }
        requires fits { FitsEvent self.old.node.sizes self.old.node.number event }
        requires goes { IsOk (outcome_at self.old.node (input_of event room)) }
        requires gate { IsGate self.old.seat.part event room }
        ensures kept { IsBox t.now self.new }
        ensures acts { Acts self.old self.new event room result }
    {
        let made = named_event(self.node.number(), event);
        let ticket = self.seat.ticket(t, made);
        let Ok(_effect) = self.node.local(event, room, &mut self.sends) else {
            unreachable!();
        };
        put_all(&mut self.out, &mut self.sends);
        self.log.push(Numbered {
            ticket,
            event: made,
        });
        ticket
    }

    /// Takes the message that the seat has found in a lane, where the node doesn't refuse it, and clears its cell.
    pub(crate) fn take(
        &mut self,
        t: &LaneTable,
        src: u32,
        class: Class,
        msg: &Msg,
        victim: Option<u32>,
    ) -> u64
        requires kept { IsBox t.now self.old }
        requires few { length self.old.log.entries < 2 ^ 48 }
        requires reserved { 1 ≤ self.old.log.room }
        requires src { src < t.now.setup.sizes.nodes }
        requires found { named self.old.seat.part.sizes (in_note self.old.seat.part src class) ≡ Some msg.now }
        requires front { IsFront t.now.setup self.old.seat.part src class msg.now }
        requires goes { IsOk (outcome_at self.old.node (TakeFrom src msg.now victim)) }
        ensures kept { IsBox t.now self.new }
        ensures takes { Takes self.old self.new src class msg.now victim result }
    {
        let made = Event::Take {
            src,
            dst: self.node.number(),
            class,
            victim,
        };
        let ticket = self.seat.ticket(t, made);
        let Ok(_effect) = self.node.take(src, msg, victim, &mut self.sends) else {
            unreachable!();
        };
        put_all(&mut self.out, &mut self.sends);
        self.seat.clear(t, src, class);
        self.log.push(Numbered {
            ticket,
            event: made,
        });
        ticket
    }

    /// Gives the first message that waits for a node to the cell of its lane, if there is one and the cell is empty.
    pub(crate) fn flush_lane(&mut self, t: &LaneTable, dst: u32, class: Class)
        requires kept { IsBox t.now self.old }
        requires dst { dst < t.now.setup.sizes.nodes }
        ensures kept { IsBox t.now self.new }
        ensures lane { FlushesLane self.old self.new dst class }
    {
        let within = dst < self.out.cfg().nodes();
        prove!(within);
        let Some(front) = self.out.front(dst, class) else {
            return;
        };
        if self.seat.flush(t, dst, class, &mut self.out) == 0 {
            return;
        }
        match class {
            Class::Request => self.departed[dst as usize] = front.is_departure(),
            Class::Reply => {}
        }
    }
}
