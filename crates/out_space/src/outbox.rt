//! What a node has yet to hand over.

ghost use Rattle.std.specs.Prelude.{◌≡◌, ◌<◌, ◌↔◌, [], ◌∷◌, ◌++◌, drop, length, replicate, slice_get, IfOk, OnOk, OnErr, IsErr, IsNone, IfNone};
ghost use Rattle.op_model.specs.declared.events.Class.TheVariants.{Request};
ghost use Rattle.op_model.specs.Messages.{msg_class};
ghost use Rattle.op_model.specs.Events.Step.{departures};
ghost use Rattle.op_model.specs.Run.Bounds.{lane_bound};
ghost use Rattle.msg_words.specs.QueueState.{empty_queue};
ghost use Rattle.out_space.specs.Boxes.{waiting, with_waiting, empty_box, IsBox};

use crate::bounds::{reply_bound, request_bound};
use line_map::Machine;
use msg_words::MsgQueue;
use op_model::{Class, Full, Msg, NoMemory};
use std::alloc::Global;
use std::marker::Model;

/// The messages of a node that wait, seen as its machine and, for each destination, the list of its requests and the list of its replies. It takes memory only where it is made.
#[derive(Drop)]
pub struct Outbox {
    cfg: Machine,
    requests: Vec<MsgQueue>,
    replies: Vec<MsgQueue>,
}

impl Model for Outbox {
    ghost use Rattle.op_model.specs.Run.Bounds.{request_bound, reply_bound};
    ghost use Rattle.out_space.specs.Queues.{AreQueues, lists_of};
    ghost use Rattle.out_space.specs.Boxes.{BoxState};

    ghost Value = { BoxState };

    ghost view = { λ b. record {
      sizes = b.cfg;
      requests = lists_of b.requests.items;
      replies = lists_of b.replies.items;
    } };

    ghost invariant = { λ b. AreQueues b.cfg.nodes (request_bound b.cfg) b.requests.items × AreQueues b.cfg.nodes (reply_bound b.cfg) b.replies.items };
}

// A queue for each node.
fn queues(alloc: Global, nodes: u32, capacity: u32) -> Result<Vec<MsgQueue>, NoMemory>
    ensures { IfOk result (λ queues. queues.items ≡ replicate nodes (empty_queue capacity)) }
{
    let Ok(mut queues) = Vec::with_capacity(alloc, nodes as usize) else {
        return Err(NoMemory);
    };
    for _ in 0..nodes {
        queues.push_reserved(MsgQueue::new(alloc, capacity)?);
    }
    Ok(queues)
}

impl Outbox {
    /// An empty outbox, with room for as many messages as its lanes may hold.
    pub fn new(alloc: Global, cfg: Machine) -> Result<Outbox, NoMemory>
        ensures { IfOk result (λ outbox. outbox ≡ empty_box cfg) }
    {
        Ok(Outbox {
            cfg,
            requests: queues(alloc, cfg.nodes(), request_bound(&cfg))?,
            replies: queues(alloc, cfg.nodes(), reply_bound(&cfg))?,
        })
    }

    /// The machine.
    pub fn cfg(&self) -> Machine
        ensures value { result ≡ self.now.sizes }
        ensures kept { IsBox self.now }
    {
        self.cfg
    }

    /// Puts a message at the end of its lane to a destination, if that lane isn't full.
    pub fn push(&mut self, dst: u32, msg: Msg) -> Result<(), Full>
        requires { dst < self.old.sizes.nodes }
        ensures full { IsErr result ↔ (length (waiting self.old dst (msg_class msg)) ≡ lane_bound self.old.sizes (msg_class msg)) }
        ensures ok { OnOk result (self.new ≡ with_waiting self.old dst (msg_class msg) (waiting self.old dst (msg_class msg) ++ msg ∷ [])) }
        ensures err { OnErr result (self.new ≡ self.old) }
    {
        match msg.class() {
            Class::Request => self.requests[dst as usize].push(msg),
            Class::Reply => self.replies[dst as usize].push(msg),
        }
    }

    /// The first message that waits for a destination, of one class.
    pub fn front(&self, dst: u32, class: Class) -> Option<Msg>
        requires { dst < self.now.sizes.nodes }
        ensures first { result ≡ slice_get (waiting self.now dst class) 0 }
        ensures empty { IsNone result ↔ (waiting self.now dst class ≡ []) }
    {
        match class {
            Class::Request => self.requests[dst as usize].front(),
            Class::Reply => self.replies[dst as usize].front(),
        }
    }

    /// Takes the first message out that waits for a destination, of one class, if there is one.
    pub fn pop(&mut self, dst: u32, class: Class) -> Option<Msg>
        requires { dst < self.old.sizes.nodes }
        ensures first { result ≡ slice_get (waiting self.old dst class) 0 }
        ensures rest { self.new ≡ with_waiting self.old dst class (drop 1 (waiting self.old dst class)) }
        ensures empty { IsNone result ↔ (waiting self.old dst class ≡ []) }
        ensures nothing { IfNone result (self.new ≡ self.old) }
    {
        match class {
            Class::Request => self.requests[dst as usize].pop(),
            Class::Reply => self.replies[dst as usize].pop(),
        }
    }

    /// How many write-backs and hints wait for a destination.
    pub fn evictions(&self, dst: u32) -> u32
        requires { dst < self.now.sizes.nodes }
        ensures { result ≡ departures (waiting self.now dst Request) }
    {
        self.requests[dst as usize].departures()
    }
}
