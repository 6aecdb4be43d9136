//! The messages of an event go their ways through the lanes.

ghost use Rattle.std.specs.Prelude.{◌≡◌, ◌<◌, All};
ghost use Rattle.message_range.specs.Fitting.{IsSentOf};
ghost use Rattle.op_model.specs.Run.Machines.{IsEventOf};
ghost use Rattle.machine.specs.Acts.{FitsAll, TakesFront, sent_from, taken_off};

use lane_queues::Lanes;
use msg_words::Sends;
use op_model::Event;

// Takes the first message out of the lane that an event takes from, if it takes one.
fn take_off<Q: Lanes>(lanes: &mut Q, event: Event, departs: bool)
    requires of_machine { IsEventOf (Q.meaning lanes.old).sizes event }
    requires front { TakesFront (Q.meaning lanes.old).lane event departs }
    ensures { Q.meaning lanes.new ≡ record (Q.meaning lanes.old) { lane = taken_off event (Q.meaning lanes.old).lane } }
{
    if let Event::Take {
        src,
        dst,
        class,
        ..
    } = event
    {
        lanes.drop_front(src, dst, class, departs);
    }
}

// Puts the messages of a node into its lanes, each of which has room for them.
fn send_all<Q: Lanes>(lanes: &mut Q, node: u32, sends: &Sends)
    requires node { node < (Q.meaning lanes.old).sizes.nodes }
    requires sent { All (IsSentOf (Q.meaning lanes.old).sizes) sends.now.list }
    requires room { FitsAll (Q.meaning lanes.old) node sends.now.list }
    ensures { Q.meaning lanes.new ≡ record (Q.meaning lanes.old) { lane = sent_from node sends.now.list (Q.meaning lanes.old).lane } }
{
    for i in 0..sends.len() {
        let (dst, msg) = sends.at(i);
        let Ok(()) = lanes.push(node, dst, msg) else {
            unreachable!();
        };
    }
}

/// The message that an event takes leaves its lane, and those that its node sends come to the ends of theirs. `departs` is whether the one that leaves is a write-back or a hint.
pub(crate) fn move_messages<Q: Lanes>(
    lanes: &mut Q,
    event: Event,
    departs: bool,
    node: u32,
    sends: &Sends,
)
    requires of_machine { IsEventOf (Q.meaning lanes.old).sizes event }
    requires front { TakesFront (Q.meaning lanes.old).lane event departs }
    requires node { node < (Q.meaning lanes.old).sizes.nodes }
    requires sent { All (IsSentOf (Q.meaning lanes.old).sizes) sends.now.list }
    requires room { FitsAll (record (Q.meaning lanes.old) { lane = taken_off event (Q.meaning lanes.old).lane }) node sends.now.list }
    ensures { Q.meaning lanes.new ≡ record (Q.meaning lanes.old) { lane = sent_from node sends.now.list (taken_off event (Q.meaning lanes.old).lane) } }
{
    take_off(lanes, event, departs);
    send_all(lanes, node, sends);
}
