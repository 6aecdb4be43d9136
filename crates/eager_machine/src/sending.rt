//! What an event sent goes its way into the lanes.

ghost use Rattle.std.specs.Prelude.{◌≡◌, ◌+◌, ◌<◌, length, OnOk};
ghost use Rattle.op_model.specs.Run.Machines.{IsEventOf};
ghost use Rattle.machine.specs.Kept.{no_sends};
ghost use Rattle.eager_machine.specs.Lanes.{lane_in, taken_off};
ghost use Rattle.eager_machine.specs.Outboxes.{under_way, IsOutbox, IsSameSender};

use crate::lanes::AgedLanes;
use crate::queue::AgedMsg;
use eager_home::age_sent;
use msg_words::Sends;
use op_model::{Event, NoMemory};

/// What the last event sent: its messages, of which so many have gone into their lanes, the node that sent them, and the age of the words that it gave.
#[derive(Drop)]
pub(crate) struct Outbox {
    pub(crate) sends: Sends,
    pub(crate) moved: u32,
    pub(crate) node: u32,
    pub(crate) given: u64,
}

// The next message goes into its lane. Want of memory changes nothing.
fn send_next(lanes: &mut AgedLanes, out: &mut Outbox) -> Result<(), NoMemory>
    requires out { IsOutbox lanes.old.sizes out.old }
    requires young { out.old.given < 18446744073709551615 }
    requires left { out.old.moved < length out.old.sends.list }
    requires small { out.old.moved < 4294967295 }
    ensures sizes { lanes.new.sizes ≡ lanes.old.sizes }
    ensures way { under_way lanes.new out.new ≡ under_way lanes.old out.old }
    ensures out { IsOutbox lanes.old.sizes out.new }
    ensures same { IsSameSender out.old out.new }
    ensures ok { OnOk result (out.new.moved ≡ out.old.moved + 1) }
    ensures list { out.new.sends ≡ out.old.sends }
{
    let (dst, msg) = out.sends.at(out.moved);
    let age = age_sent(out.given, &msg);
    lanes.push(out.node, dst, AgedMsg { msg, age })?;
    out.moved += 1;
    Ok(())
}

/// All messages go into their lanes. Want of memory leaves the last ones where they are.
pub(crate) fn send_all(lanes: &mut AgedLanes, out: &mut Outbox) -> Result<(), NoMemory>
    requires out { IsOutbox lanes.old.sizes out.old }
    requires young { out.old.given < 18446744073709551615 }
    ensures sizes { lanes.new.sizes ≡ lanes.old.sizes }
    ensures way { under_way lanes.new out.new ≡ under_way lanes.old out.old }
    ensures out { IsOutbox lanes.old.sizes out.new }
    ensures same { IsSameSender out.old out.new }
    ensures ok { OnOk result ((lane_in lanes.new ≡ under_way lanes.old out.old) × (out.new.sends ≡ no_sends lanes.old.sizes) × (out.new.moved ≡ 0)) }
{
    while out.moved < out.sends.len() {
        send_next(lanes, out)?;
    }
    out.sends.clear();
    out.moved = 0;
    Ok(())
}

/// Takes the first message out of the lane that an event takes from, if it takes one.
pub(crate) fn take_off(lanes: &mut AgedLanes, event: Event)
    requires of_machine { IsEventOf lanes.old.sizes event }
    ensures sizes { lanes.new.sizes ≡ lanes.old.sizes }
    ensures lanes { lane_in lanes.new ≡ taken_off event (lane_in lanes.old) }
{
    if let Event::Take {
        src,
        dst,
        class,
        ..
    } = event
    {
        lanes.drop_front(src, dst, class);
    }
}
