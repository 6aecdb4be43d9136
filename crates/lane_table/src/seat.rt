//! The seat of one node.

ghost use Rattle.std.specs.Prelude.{◌≡◌, ◌==◌, ℕ, ◌+◌, ◌^◌, ◌<◌, ◌≤◌, true, drop, [], ◌∷◌, length, List, IsSome, IfSome, IfNone};
ghost use Rattle.op_model.specs.declared.messages.Msg.{Msg as AMsg};
ghost use Rattle.op_model.specs.MessageWords.{IsMsgOf};
ghost use Rattle.op_model.specs.Shares.{Linked};
ghost use Rattle.op_model.specs.Parts.Part.{taken_from, cleared_from, out_note, notes_empty, logged};
ghost use Rattle.op_model.specs.Parts.OwnStep.{own_step};
ghost use Rattle.lane_table.specs.Steps.{looked_out, looked_in, freed};
ghost use Rattle.lane_table.specs.Views.{IsSeatOf};
ghost use Rattle.lane_table.specs.Told.{unflushed, IsReached, IsOutgoing, IsFront};
ghost use Rattle.lane_table.specs.Calls.{Finds, Flushes, FlushesNone, Gives};
ghost use Rattle.out_space.specs.Boxes.{waiting, with_waiting};

use crate::bodies::{message_of, put_words, read_body};
use crate::law::View;
use crate::steps::{draw_of, load_of, store_of};
use crate::table::LaneTable;
use atomic_table::Seat;
use line_map::Body;
use op_model::{Class, Event, Msg};
use out_space::Outbox;
use std::marker::{Brand, Model};

/// The seat of one node of a table, seen as its table and the node's part. It moves to the thread that plays the node.
#[derive(Drop)]
pub struct NodeSeat {
    pub(crate) seat: Seat<(), View>,
    pub(crate) node: u32,
}

impl Model for NodeSeat {
    ghost use Rattle.std.specs.Prelude.{◌≡◌};
    ghost use Rattle.lane_table.specs.Views.{SeatView, first_of, HasOne};
    ghost use Rattle.lane_table.specs.Codes.{seat_code};

    ghost Value = { SeatView };

    ghost coded = { seat_code };

    ghost view = { λ s. record { id = s.seat.table_id; part = first_of s.seat.me } };

    ghost invariant = { λ s. HasOne s.seat.me × ((first_of s.seat.me).number ≡ s.node) };
}

impl NodeSeat {
    /// Whether the cell is empty for the next message to a node: it loads the cell's header word, and the part notes it.
    pub fn space(&mut self, t: &LaneTable, dst: u32, class: Class) -> bool
        requires seat { IsSeatOf t.now self.old }
        requires dst { dst < t.now.setup.sizes.nodes }
        ensures seat { IsSeatOf t.now self.new }
        ensures part { (word : ℕ) × (result ≡ (word == 0)) × (self.new.part ≡ looked_out self.old.part dst class word) }
        ensures outgoing { IsOutgoing t.now.setup.sizes self.new.part }
    {
        let at = t.header_at(self.node, dst, class);
        let found = load_of::<Brand>(t, &mut self.seat, at, dst, class);
        found == 0
    }

    /// The message in the cell of the lane from a node, if there is one: it loads the cell's header word, and the words behind it where the message brings any. The part notes them. The message is the front of its lane and meets a row.
    pub fn look(&mut self, t: &LaneTable, src: u32, class: Class) -> Option<Msg>
        requires seat { IsSeatOf t.now self.old }
        requires src { src < t.now.setup.sizes.nodes }
        requires cleared { taken_from self.old.part src class ≡ cleared_from self.old.part src class }
        ensures seat { IsSeatOf t.now self.new }
        ensures none { IfNone result (self.new.part ≡ looked_in self.old.part src class 0) }
        ensures some { IfSome result (Finds self.old.part self.new.part src class) }
        ensures front { IfSome result (IsFront t.now.setup self.new.part src class) }
    {
        let at = t.header_at(src, self.node, class);
        let found = load_of::<Brand>(t, &mut self.seat, at, src, class);
        if found == 0 {
            return None;
        }
        let cfg = t.cfg();
        let bare = message_of(&cfg, found, &Body::zeros(cfg.words()))?;
        if bare.body_words().is_none() {
            return Some(bare);
        }
        let body = read_body(t, &mut self.seat, at, src, class);
        message_of(&cfg, found, &body)
    }

    /// Moves the first message of an outbox that waits for a node into the cell of its lane, if there is one and the cell is empty. It answers how many it moved. The outbox holds what the node has sent on the lane and not flushed.
    pub fn flush(&mut self, t: &LaneTable, dst: u32, class: Class, out: &mut Outbox) -> u32
        requires seat { IsSeatOf t.now self.old }
        requires dst { dst < t.now.setup.sizes.nodes }
        requires machine { out.old.sizes ≡ t.now.setup.sizes }
        requires holds { waiting out.old dst class ≡ unflushed self.old.part dst class }
        ensures seat { IsSeatOf t.now self.new }
        ensures count { result ≤ 1 }
        ensures moved { result ≡ 1 → Flushes self.old.part self.new.part dst class × (out.new ≡ with_waiting out.old dst class (drop 1 (waiting out.old dst class))) }
        ensures stayed { result ≡ 0 → FlushesNone self.old.part self.new.part dst class × (out.new ≡ out.old) }
    {
        let Some(m) = out.front(dst, class) else {
            return 0;
        };
        if !self.space(t, dst, class) {
            return 0;
        }
        out.pop(dst, class);
        self.give(t, dst, class, &m);
        1
    }

    // Stores the first message that isn't flushed in an empty cell, its words first and its header word last.
    fn give(&mut self, t: &LaneTable, dst: u32, class: Class, msg: &Msg)
        requires seat { IsSeatOf t.now self.old }
        requires dst { dst < t.now.setup.sizes.nodes }
        requires next { (rest : List AMsg) × (unflushed self.old.part dst class ≡ msg.now ∷ rest) }
        requires message { IsMsgOf t.now.setup.sizes msg.now }
        requires free { notes_empty (out_note self.old.part dst class) ≡ true }
        requires none { (out_note self.old.part dst class).body ≡ [] }
        ensures seat { IsSeatOf t.now self.new }
        ensures part { Gives self.old.part self.new.part dst class }
    {
        let at = t.header_at(self.node, dst, class);
        put_words(t, &mut self.seat, at, dst, class, msg);
        store_of::<Brand>(t, &mut self.seat, at, msg.header_word(), dst, class);
    }

    /// Frees the cell of the lane from a node, after the event of its message.
    pub fn clear(&mut self, t: &LaneTable, src: u32, class: Class)
        requires seat { IsSeatOf t.now self.old }
        requires src { src < t.now.setup.sizes.nodes }
        requires made { taken_from self.old.part src class ≡ cleared_from self.old.part src class + 1 }
        ensures seat { IsSeatOf t.now self.new }
        ensures part { self.new.part ≡ freed self.old.part src class }
    {
        let at = t.header_at(src, self.node, class);
        store_of::<Brand>(t, &mut self.seat, at, 0, src, class);
    }

    /// Makes an event that the part's own step doesn't refuse, and answers its ticket: the event's place in a run after which the node has this share. The entry stands at the end of the part's log.
    pub fn ticket(&mut self, t: &LaneTable, event: Event) -> u64
        requires seat { IsSeatOf t.now self.old }
        requires goes { IsSome (own_step Linked self.old.part event) }
        requires few { length self.old.part.log < 2 ^ 48 }
        ensures seat { IsSeatOf t.now self.new }
        ensures part { IfSome (own_step Linked self.old.part event) (λ after. self.new.part ≡ logged after (record { ticket = result; event = event })) }
        ensures reached { IsReached t.now.setup self.new.part }
        ensures outgoing { IsOutgoing t.now.setup.sizes self.new.part }
    {
        draw_of::<Brand>(t, &mut self.seat, event)
    }
}
