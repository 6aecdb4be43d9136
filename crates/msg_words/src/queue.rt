//! One queue of messages, with all its room from the start.

ghost use Rattle.std.specs.Prelude.{◌≡◌, ◌<◌, ◌≤◌, ◌↔◌, ◌∷◌, ◌++◌, [], drop, length, slice_get, Some, IfOk, IsErr, OnOk, OnErr};
ghost use Rattle.op_model.specs.Events.Step.{departures as departures_in};
ghost use Rattle.msg_words.specs.QueueState.{empty_queue};

use op_model::{Full, Msg, NoMemory};
use std::alloc::Global;
use std::collections::VecDeque;
use std::marker::Model;

/// A queue of messages, seen as its capacity and its messages from the front. It takes memory only where it is made.
#[derive(Drop)]
pub struct MsgQueue {
    capacity: u32,
    messages: VecDeque<Msg>,
    // How many of the messages are write-backs and hints.
    departing: u32,
}

impl Model for MsgQueue {
    ghost use Rattle.std.specs.Prelude.{◌≡◌, ◌≤◌, ◌<◌, ◌^◌};
    ghost use Rattle.std.specs.VecDeque.{deque_len, deque_capacity};
    ghost use Rattle.op_model.specs.Events.Step.{departures as departures_in};
    ghost use Rattle.msg_words.specs.QueueState.{QueueState};

    ghost Value = { QueueState };

    ghost view = { λ q. record { capacity = q.capacity; messages = q.messages.items } };

    ghost invariant = { λ q. (deque_len q.messages ≤ q.capacity) × (q.capacity ≤ deque_capacity q.messages) × (q.capacity < 2 ^ 32) × (q.departing ≡ departures_in q.messages.items) };
}

impl MsgQueue {
    /// An empty queue, whose room is reserved here.
    pub fn new(alloc: Global, capacity: u32) -> Result<MsgQueue, NoMemory>
        ensures { IfOk result (λ queue. queue ≡ empty_queue capacity) }
    {
        match VecDeque::with_capacity(alloc, capacity as usize) {
            Ok(messages) => Ok(MsgQueue {
                capacity,
                messages,
                departing: 0,
            }),
            Err(_) => Err(NoMemory),
        }
    }

    /// The first message.
    pub fn front(&self) -> Option<Msg>
        ensures { result ≡ slice_get self.now.messages 0 }
    {
        self.messages.front().copied()
    }

    /// Takes the first message out.
    pub fn pop(&mut self) -> Option<Msg>
        ensures value { result ≡ slice_get self.old.messages 0 }
        ensures rest { self.new ≡ record self.old { messages = drop 1 self.old.messages } }
    {
        let msg = self.messages.pop_front()?;
        if msg.is_departure() {
            self.departing -= 1;
        }
        Some(msg)
    }

    /// Puts a message at the end. Full where the queue holds as many as it may.
    #[tactic(auto, using(crate::proofs::Departures::counting))]
    pub fn push(&mut self, msg: Msg) -> Result<(), Full>
        ensures full { IsErr result ↔ (length self.old.messages ≡ self.old.capacity) }
        ensures ok { OnOk result (self.new ≡ record self.old { messages = self.old.messages ++ msg ∷ [] }) }
        ensures err { OnErr result (self.new ≡ self.old) }
        ensures kept { length self.new.messages ≤ self.new.capacity }
    {
        if self.messages.len() == self.capacity as usize {
            return Err(Full);
        }
        if msg.is_departure() {
            self.departing += 1;
        }
        self.messages.push_back_reserved(msg);
        Ok(())
    }

    /// How many messages the queue holds.
    pub fn len(&self) -> u32
        ensures value { result ≡ length self.now.messages }
        ensures room { result ≤ self.now.capacity }
    {
        self.messages.len() as u32
    }

    /// How many of the messages are write-backs and hints.
    pub fn departures(&self) -> u32
        ensures { result ≡ departures_in self.now.messages }
    {
        self.departing
    }

    /// The message at a place, counted from 0 at the front.
    pub fn at(&self, i: u32) -> Msg
        requires { i < length self.now.messages }
        ensures { slice_get self.now.messages i ≡ Some result }
    {
        self.messages[i as usize]
    }
}
