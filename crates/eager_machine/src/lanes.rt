//! The lanes between the nodes of a machine, of messages with their ages.

ghost use Rattle.std.specs.Prelude.{◌≡◌, ◌<◌, ◌↔◌, ℕ, ◌∷◌, ◌++◌, [], drop, map, slice_get, IsNone, IfSome, IfOk, OnOk, OnErr};
ghost use Rattle.op_model.specs.declared.events.Class.TheVariants.{Request};
ghost use Rattle.op_model.specs.Events.Step.{departures as departures_in};
ghost use Rattle.op_model.specs.Messages.{msg_class};
ghost use Rattle.op_model.specs.Run.Schedules.{first_busy_in};
ghost use Rattle.machine_face.specs.Reads.{IsLane};
ghost use Rattle.eager_machine.specs.Lanes.{lane_in, messages_of, msg_of, with_lane, IsBetween, IsSilent};

use crate::queue::{AgedMsg, AgedQueue};
use lane_queues::{BusyLanes, lane_count, lane_number};
use line_map::Machine;
use op_model::{Class, NoMemory};
use std::alloc::Global;
use std::marker::Model;

/// The lanes of a machine as one list of queues, with the set of those that hold a message. They take memory as messages come to their ends.
#[derive(Drop)]
pub(crate) struct AgedLanes {
    cfg: Machine,
    queues: Vec<AgedQueue>,
    busy: BusyLanes,
}

impl Model for AgedLanes {
    ghost use Rattle.eager_machine.specs.Lanes.{AgedQueues};
    ghost use Rattle.eager_machine.specs.Marks.{AreMarked};

    ghost Value = { AgedQueues };

    ghost view = { λ l. record { sizes = l.cfg; lists = l.queues.items } };

    ghost invariant = { λ l. AreMarked (record { sizes = l.cfg; lists = l.queues.items }) l.busy };
}

impl AgedLanes {
    /// Empty lanes of this machine.
    pub(crate) fn new(alloc: Global, cfg: Machine) -> Result<AgedLanes, NoMemory>
        ensures sizes { IfOk result (λ lanes. lanes.sizes ≡ cfg) }
        ensures empty { IfOk result (λ lanes. lane_in lanes ≡ (λ src dst class. [])) }
    {
        let count = lane_count(&cfg);
        let Ok(mut queues) = Vec::with_capacity(alloc, count) else {
            return Err(NoMemory);
        };
        for _number in 0..count {
            queues.push_reserved(AgedQueue::new(alloc));
        }
        Ok(AgedLanes {
            cfg,
            queues,
            busy: BusyLanes::new(),
        })
    }

    fn queue(&self, src: u32, dst: u32, class: Class) -> &AgedQueue
        requires from { src < self.now.sizes.nodes }
        requires to { dst < self.now.sizes.nodes }
        ensures { result.now ≡ lane_in self.now src dst class }
    {
        &self.queues[lane_number(&self.cfg, src, dst, class)]
    }

    /// The first message of a lane.
    pub(crate) fn front(&self, src: u32, dst: u32, class: Class) -> Option<AgedMsg>
        requires from { src < self.now.sizes.nodes }
        requires to { dst < self.now.sizes.nodes }
        ensures { result ≡ slice_get (lane_in self.now src dst class) 0 }
    {
        self.queue(src, dst, class).front()
    }

    /// The first message of a lane leaves, where there is one.
    pub(crate) fn drop_front(&mut self, src: u32, dst: u32, class: Class)
        requires from { src < self.old.sizes.nodes }
        requires to { dst < self.old.sizes.nodes }
        ensures sizes { self.new.sizes ≡ self.old.sizes }
        ensures lane { lane_in self.new ≡ with_lane (lane_in self.old) src dst class (drop 1 (lane_in self.old src dst class)) }
    {
        let number = lane_number(&self.cfg, src, dst, class);
        let queue = &mut self.queues[number];
        queue.drop_front();
        let is_left = !queue.is_empty();
        self.busy.put(src, dst, class, is_left);
    }

    /// A message comes to the end of the lane of its class.
    pub(crate) fn push(&mut self, src: u32, dst: u32, aged: AgedMsg) -> Result<(), NoMemory>
        requires from { src < self.old.sizes.nodes }
        requires to { dst < self.old.sizes.nodes }
        ensures sizes { self.new.sizes ≡ self.old.sizes }
        ensures ok { OnOk result (lane_in self.new ≡ with_lane (lane_in self.old) src dst (msg_class aged.msg) (lane_in self.old src dst (msg_class aged.msg) ++ aged ∷ [])) }
        ensures err { OnErr result (lane_in self.new ≡ lane_in self.old) }
    {
        let class = aged.msg.class();
        let number = lane_number(&self.cfg, src, dst, class);
        let queue = &mut self.queues[number];
        queue.push(aged)?;
        self.busy.mark(src, dst, class);
        Ok(())
    }

    /// How many messages of evictions a lane of requests holds: write-backs and hints.
    pub(crate) fn evictions(&self, src: u32, dst: u32) -> u64
        requires from { src < self.now.sizes.nodes }
        requires to { dst < self.now.sizes.nodes }
        ensures { result ≡ departures_in (map msg_of (lane_in self.now src dst Request)) }
    {
        self.queue(src, dst, Class::Request).departures()
    }

    /// The first lane that isn't empty: by sender, then by taker, then requests before replies. None where nothing is under way.
    pub(crate) fn first_busy(&self) -> Option<(u32, u32, Class)>
        ensures first { IsLane result (first_busy_in self.now.sizes (messages_of (lane_in self.now))) }
        ensures within { IfSome result (IsBetween self.now.sizes) }
        ensures none { IsNone result ↔ ((src : ℕ) → IsSilent (lane_in self.now) src) }
    {
        self.busy.first()
    }
}
