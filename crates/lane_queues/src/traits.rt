//! What lanes promise.

ghost use Rattle.std.specs.Prelude.{◌≡◌, ◌<◌, ◌↔◌, length, slice_get, Some, IsNone, IsErr, IfSome, OnOk, OnErr};
ghost use Rattle.std.specs.Option.{option_map};
ghost use Rattle.op_model.specs.declared.events.Class.TheVariants.{Request};
ghost use Rattle.op_model.specs.Messages.{msg_class};
ghost use Rattle.op_model.specs.MessageWords.{IsMsgOf};
ghost use Rattle.op_model.specs.Events.Step.{departures};
ghost use Rattle.op_model.specs.Run.Schedules.{first_busy_in, next_busy_in};
ghost use Rattle.lane_queues.specs.LaneStates.{LaneState, AreLanes, AreEmpty, FitsLane, HasFront, capacity_of, popped, pushed};
ghost use Rattle.lane_queues.specs.FirstBusy.{lane_named, IsBusy};

use op_model::{Class, Full, Msg};

/// From each node of a machine to each node there are two lanes, of requests and of replies. Each is a queue of messages of its class, up to a capacity. Nodes are below the machine's number of nodes. No call takes memory.
pub trait Lanes: Drop {
    /// The machine, how many messages a lane of each class may hold, and the messages of each lane, from the front.
    ghost meaning: { Self → LaneState };

    /// The first message of a lane. None where the lane is empty.
    fn front(&self, src: u32, dst: u32, class: Class) -> Option<Msg>
        requires from { src < (meaning self.now).sizes.nodes }
        requires to { dst < (meaning self.now).sizes.nodes }
        ensures value { result ≡ slice_get ((meaning self.now).lane src dst class) 0 }
        ensures fits { IfSome result (FitsLane (meaning self.now).sizes class) }
        ensures kept { AreLanes (meaning self.now) };

    /// Takes the first message out of a lane that isn't empty. It isn't handed out: who saw it says whether it is a write-back or a hint.
    fn drop_front(&mut self, src: u32, dst: u32, class: Class, departs: bool)
        requires from { src < (meaning self.old).sizes.nodes }
        requires to { dst < (meaning self.old).sizes.nodes }
        requires front { HasFront ((meaning self.old).lane src dst class) departs }
        ensures after { meaning self.new ≡ popped (meaning self.old) src dst class }
        ensures kept { AreLanes (meaning self.new) };

    /// Takes the first message out of a lane. None where the lane is empty.
    fn pop(&mut self, src: u32, dst: u32, class: Class) -> Option<Msg>
        requires from { src < (meaning self.old).sizes.nodes }
        requires to { dst < (meaning self.old).sizes.nodes }
        ensures value { result ≡ slice_get ((meaning self.old).lane src dst class) 0 }
        ensures fits { IfSome result (FitsLane (meaning self.old).sizes class) }
        ensures after { meaning self.new ≡ popped (meaning self.old) src dst class }
        ensures kept { AreLanes (meaning self.new) }
    {
        let msg = self.front(src, dst, class)?;
        self.drop_front(src, dst, class, msg.is_departure());
        Some(msg)
    }

    /// Puts a message at the end of the lane of its class. Full where that lane holds as many as it may.
    fn push(&mut self, src: u32, dst: u32, msg: Msg) -> Result<(), Full>
        requires from { src < (meaning self.old).sizes.nodes }
        requires to { dst < (meaning self.old).sizes.nodes }
        requires message { IsMsgOf (meaning self.old).sizes msg }
        ensures full { IsErr result ↔ (length ((meaning self.old).lane src dst (msg_class msg)) ≡ capacity_of (meaning self.old) (msg_class msg)) }
        ensures ok { OnOk result (meaning self.new ≡ pushed (meaning self.old) src dst msg) }
        ensures err { OnErr result (meaning self.new ≡ meaning self.old) }
        ensures kept { AreLanes (meaning self.new) };

    /// How many messages a lane holds.
    fn len(&self, src: u32, dst: u32, class: Class) -> u32
        requires from { src < (meaning self.now).sizes.nodes }
        requires to { dst < (meaning self.now).sizes.nodes }
        ensures value { result ≡ length ((meaning self.now).lane src dst class) }
        ensures kept { AreLanes (meaning self.now) };

    /// How many messages of evictions the lane of requests holds: writebacks and hints.
    fn evictions(&self, src: u32, dst: u32) -> u32
        requires from { src < (meaning self.now).sizes.nodes }
        requires to { dst < (meaning self.now).sizes.nodes }
        ensures value { result ≡ departures ((meaning self.now).lane src dst Request) }
        ensures kept { AreLanes (meaning self.now) };

    /// The message at a place of a lane, counted from 0 at the front.
    fn at(&self, src: u32, dst: u32, class: Class, i: u32) -> Msg
        requires from { src < (meaning self.now).sizes.nodes }
        requires to { dst < (meaning self.now).sizes.nodes }
        requires below { i < length ((meaning self.now).lane src dst class) }
        ensures value { slice_get ((meaning self.now).lane src dst class) i ≡ Some result }
        ensures fits { FitsLane (meaning self.now).sizes class result }
        ensures kept { AreLanes (meaning self.now) };

    /// The first lane that isn't empty, by sender, then by taker, then requests before replies. None where all are empty.
    fn first_busy(&self) -> Option<(u32, u32, Class)>
        ensures value { option_map lane_named result ≡ first_busy_in (meaning self.now).sizes (meaning self.now).lane }
        ensures busy { IfSome result (IsBusy (meaning self.now)) }
        ensures none { IsNone result ↔ AreEmpty (meaning self.now) }
        ensures kept { AreLanes (meaning self.now) };

    /// The first lane behind this one that isn't empty, in the order of `first_busy`. None where all behind it are empty.
    fn next_busy(&self, src: u32, dst: u32, class: Class) -> Option<(u32, u32, Class)>
        requires from { src < (meaning self.now).sizes.nodes }
        requires to { dst < (meaning self.now).sizes.nodes }
        ensures { option_map lane_named result ≡ next_busy_in (meaning self.now).sizes (meaning self.now).lane (record { src = src; dst = dst; class = class }) };
}
