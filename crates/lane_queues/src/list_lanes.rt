//! The plain body of lanes: a list of queues.

ghost use Rattle.std.specs.Prelude.{◌≡◌, ◌<◌, ◌≤◌, ◌%◌, ◌==◌, if◌then◌else◌, IfOk};
ghost use Rattle.lane_queues.specs.LaneStates.{AreLanes, capacity_of, no_messages};
ghost use Rattle.lane_queues.specs.FirstBusy.{AnswersFirst, AnswersFirstFrom, behind, busy_in};
ghost use Rattle.lane_queues.specs.Queues.{lane_in, meaning_of, AreQueues};

use crate::numbers::{lane_count, lane_number};
use crate::traits::Lanes;
use line_map::Machine;
use msg_words::MsgQueue;
use op_model::{Class, Full, Msg, NoMemory};
use std::alloc::Global;
use std::marker::Model;

/// The lanes of a machine as one list of queues, in lane order. It takes memory only where it is made.
#[derive(Drop)]
pub struct ListLanes {
    cfg: Machine,
    requests: u32,
    replies: u32,
    queues: Vec<MsgQueue>,
}

impl Model for ListLanes {
    ghost use Rattle.lane_queues.specs.Queues.{Queues, queues_of, AreListed};

    ghost Value = { Queues };

    ghost view = { λ l. queues_of l.cfg l.requests l.replies l.queues.items };

    ghost invariant = { λ l. AreListed l.cfg l.requests l.replies l.queues.items };
}

impl ListLanes {
    /// Empty lanes of this machine, which hold so many messages of each class. All room is reserved here.
    pub fn new(
        alloc: Global,
        cfg: Machine,
        requests: u32,
        replies: u32,
    ) -> Result<ListLanes, NoMemory>
        ensures { IfOk result (λ lanes. meaning_of lanes ≡ no_messages cfg requests replies) }
    {
        let count = lane_count(&cfg);
        let Ok(mut queues) = Vec::with_capacity(alloc, count) else {
            return Err(NoMemory);
        };
        for number in 0..count {
            let capacity = if number % 2 == 0 { requests } else { replies };
            let queue = MsgQueue::new(alloc, capacity)?;
            let Ok(()) = queues.push(queue) else {
                return Err(NoMemory);
            };
        }
        Ok(ListLanes {
            cfg,
            requests,
            replies,
            queues,
        })
    }

    fn queue(&self, src: u32, dst: u32, class: Class) -> &MsgQueue
        requires from { src < self.now.sizes.nodes }
        requires to { dst < self.now.sizes.nodes }
        ensures messages { result.now.messages ≡ lane_in self.now src dst class }
        ensures capacity { result.now.capacity ≡ capacity_of (meaning_of self.now) class }
        ensures kept { AreQueues self.now }
    {
        &self.queues[lane_number(&self.cfg, src, dst, class)]
    }

    // The first lane from one sender that isn't empty.
    fn first_from(&self, src: u32) -> Option<(u32, Class)>
        requires { src < self.now.sizes.nodes }
        ensures { AnswersFirstFrom self.now.sizes.nodes (busy_in (lane_in self.now)) src result }
    {
        for dst in 0..self.cfg.nodes() {
            if self.queue(src, dst, Class::Request).len() > 0 {
                return Some((dst, Class::Request));
            }
            if self.queue(src, dst, Class::Reply).len() > 0 {
                return Some((dst, Class::Reply));
            }
        }
        None
    }

    // The first lane that isn't empty.
    fn first(&self) -> Option<(u32, u32, Class)>
        ensures first { AnswersFirst self.now.sizes.nodes (busy_in (lane_in self.now)) result }
        ensures kept { AreQueues self.now }
    {
        for src in 0..self.cfg.nodes() {
            if let Some((dst, class)) = self.first_from(src) {
                return Some((src, dst, class));
            }
        }
        None
    }

    // The first lane behind one, from the same sender.
    fn next_from(&self, src: u32, dst: u32, class: Class) -> Option<(u32, Class)>
        requires from { src < self.now.sizes.nodes }
        requires to { dst < self.now.sizes.nodes }
        ensures { AnswersFirstFrom self.now.sizes.nodes (behind (record { src = src; dst = dst; class = class }) (busy_in (lane_in self.now))) src result }
    {
        let reply = (dst, Class::Reply);
        if let Class::Request = class
            && self.queue(src, dst, Class::Reply).len() > 0
        {
            return Some(reply);
        }
        let nodes = self.cfg.nodes();
        for taker in dst + 1..nodes {
            if self.queue(src, taker, Class::Request).len() > 0 {
                return Some((taker, Class::Request));
            }
            if self.queue(src, taker, Class::Reply).len() > 0 {
                return Some((taker, Class::Reply));
            }
        }
        None
    }

    // The first lane behind one that isn't empty.
    fn next(&self, src: u32, dst: u32, class: Class) -> Option<(u32, u32, Class)>
        requires from { src < self.now.sizes.nodes }
        requires to { dst < self.now.sizes.nodes }
        ensures { AnswersFirst self.now.sizes.nodes (behind (record { src = src; dst = dst; class = class }) (busy_in (lane_in self.now))) result }
    {
        if let Some((taker, class)) = self.next_from(src, dst, class) {
            return Some((src, taker, class));
        }
        let nodes = self.cfg.nodes();
        for sender in src + 1..nodes {
            if let Some((taker, class)) = self.first_from(sender) {
                return Some((sender, taker, class));
            }
        }
        None
    }
}

impl Lanes for ListLanes {
    ghost meaning = { meaning_of };

    fn front(&self, src: u32, dst: u32, class: Class) -> Option<Msg> {
        self.queue(src, dst, class).front()
    }

    fn drop_front(&mut self, src: u32, dst: u32, class: Class, _departs: bool) {
        let number = lane_number(&self.cfg, src, dst, class);
        let queue = &mut self.queues[number];
        queue.pop();
    }

    fn push(&mut self, src: u32, dst: u32, msg: Msg) -> Result<(), Full> {
        let number = lane_number(&self.cfg, src, dst, msg.class());
        let queue = &mut self.queues[number];
        queue.push(msg)
    }

    fn len(&self, src: u32, dst: u32, class: Class) -> u32 {
        self.queue(src, dst, class).len()
    }

    fn evictions(&self, src: u32, dst: u32) -> u32 {
        self.queue(src, dst, Class::Request).departures()
    }

    fn at(&self, src: u32, dst: u32, class: Class, i: u32) -> Msg {
        self.queue(src, dst, class).at(i)
    }

    fn first_busy(&self) -> Option<(u32, u32, Class)> {
        self.first()
    }

    fn next_busy(&self, src: u32, dst: u32, class: Class) -> Option<(u32, u32, Class)> {
        self.next(src, dst, class)
    }
}
