//! One lane: messages, each with the age of its words.

ghost use Rattle.std.specs.Prelude.{◌≡◌, ◌==◌, ◌∷◌, ◌++◌, [], drop, map, length, slice_get, OnOk, OnErr};
ghost use Rattle.op_model.specs.Events.Step.{departures as departures_in};
ghost use Rattle.eager_machine.specs.Lanes.{msg_of};

use msg_words::Msg;
use op_model::NoMemory;
use std::alloc::Global;
use std::collections::VecDeque;
use std::marker::Model;

/// A message with the age of its words.
#[derive(Clone, Copy)]
pub(crate) struct AgedMsg {
    pub(crate) msg: Msg,
    pub(crate) age: u64,
}

/// A queue of messages with their ages, seen as the list of them from the front. It takes memory where a message comes to its end.
#[derive(Drop)]
pub(crate) struct AgedQueue {
    messages: VecDeque<AgedMsg>,
    // How many of the messages are write-backs and hints.
    departing: u64,
}

impl Model for AgedQueue {
    ghost use Rattle.std.specs.Prelude.{◌≡◌, List, map};
    ghost use Rattle.op_model.specs.Events.Step.{departures as departures_in};
    ghost use Rattle.eager_machine.specs.declared.queue.AgedMsg.{AgedMsg};
    ghost use Rattle.eager_machine.specs.Lanes.{msg_of};

    ghost Value = { List AgedMsg };

    ghost view = { λ q. q.messages.items };

    ghost invariant = { λ q. q.departing ≡ departures_in (map msg_of q.messages.items) };
}

impl AgedQueue {
    /// An empty queue.
    pub(crate) fn new(alloc: Global) -> AgedQueue
        ensures { result ≡ [] }
    {
        AgedQueue {
            messages: VecDeque::new(alloc),
            departing: 0,
        }
    }

    /// The first message.
    pub(crate) fn front(&self) -> Option<AgedMsg>
        ensures { result ≡ slice_get self.now 0 }
    {
        self.messages.front().copied()
    }

    /// The first message leaves, where there is one.
    #[tactic(auto, using(crate::proofs::Departures::counting))]
    pub(crate) fn drop_front(&mut self)
        ensures { self.new ≡ drop 1 self.old }
    {
        let Some(aged) = self.messages.pop_front() else {
            return;
        };
        if aged.msg.is_departure() {
            self.departing -= 1;
        }
    }

    /// A message comes to the end.
    #[tactic(auto, using(crate::proofs::Departures::counting))]
    pub(crate) fn push(&mut self, aged: AgedMsg) -> Result<(), NoMemory>
        ensures ok { OnOk result (self.new ≡ self.old ++ aged ∷ []) }
        ensures err { OnErr result (self.new ≡ self.old) }
    {
        self.messages.reserve(1).map_err(|_| NoMemory)?;
        if aged.msg.is_departure() {
            self.departing += 1;
        }
        self.messages.push_back_reserved(aged);
        Ok(())
    }

    /// How many of the messages are write-backs and hints.
    pub(crate) fn departures(&self) -> u64
        ensures { result ≡ departures_in (map msg_of self.now) }
    {
        self.departing
    }

    /// Whether no message is there.
    pub(crate) fn is_empty(&self) -> bool
        ensures { result ≡ (length self.now == 0) }
    {
        self.messages.is_empty()
    }
}
