//! What an event does at its node.

ghost use Rattle.std.specs.Prelude.{◌≡◌, ◌<◌, ◌≤◌, map, true, IfOk, IfErr, OnErr};
ghost use Rattle.line_map.specs.Sizes.{AreSizes};
ghost use Rattle.op_model.specs.MessageWords.{IsMsgOf};
ghost use Rattle.op_model.specs.Events.Node.{TakeFrom};
ghost use Rattle.op_model.specs.Run.Machines.{IsEventOf};
ghost use Rattle.magic_node.specs.Nodes.{FitsEvent, input_of};
ghost use Rattle.machine.specs.Acts.{FillsLine};
ghost use Rattle.machine.specs.Kept.{no_sends};
ghost use Rattle.eager_model.specs.Node.{meets_row};
ghost use Rattle.eager_machine.specs.Acts.{AreFrontsMet, AreSent, IsAct, IsAlone, IsDoneAt, IsRefusedAt, IsRefusedIn};
ghost use Rattle.eager_machine.specs.Kept.{AreNodes, AreYoung, share_in};
ghost use Rattle.eager_machine.specs.Lanes.{lane_in};

use crate::entries::{aged_entry, entry_served};
use crate::lanes::AgedLanes;
use eager_home::{AgedEffect, EagerNode, LocalEvent};
use eager_report::AgedEntry;
use event_tally::{is_marked_load, take_marks};
use line_map::Machine;
use machine::own_entry;
use msg_words::Sends;
use op_model::{Cause, Class, Event, Msg};

/// What an event did: at which node, the age of the words that it gave, whether an operation of that node was done, and the entry of the operation that was served; of the message that it took, by which counts of messages it is counted, and whether it was the Put of a marked load.
#[derive(Clone, Copy)]
pub(crate) struct Act {
    pub(crate) node: u32,
    pub(crate) given: u64,
    pub(crate) done: bool,
    pub(crate) entry: Option<AgedEntry>,
    pub(crate) takes: [bool; 14],
    pub(crate) marked: bool,
}

// A node does an event of its own.
fn do_alone(
    cfg: Machine,
    nodes: &mut Vec<EagerNode>,
    out: &mut Sends,
    node: u32,
    event: LocalEvent,
    room: bool,
) -> Result<AgedEffect, Cause>
    requires nodes { AreNodes cfg nodes.old.items }
    requires young { AreYoung 18446744073709551614 nodes.old.items }
    requires below { node < cfg.nodes }
    requires line { FitsEvent cfg node event }
    requires nothing { out.old ≡ no_sends cfg }
    ensures ok { IfOk result (λ did. IsDoneAt nodes.old.items nodes.new.items node (input_of event room) 0 out.new.list did) }
    ensures sent { IfOk result (λ did. AreSent cfg out.new.list) }
    ensures err { IfErr result (λ cause. IsRefusedAt nodes.old.items node (input_of event room) cause) }
    ensures room { out.new.room ≡ out.old.room }
    ensures same { OnErr result ((nodes.new.items ≡ nodes.old.items) × (out.new ≡ out.old)) }
{
    let node = &mut nodes[node as usize];
    let _kept = node.number();
    node.local(event, room, out)
}

// A node takes a message of this age and does its row.
fn do_take(
    cfg: Machine,
    nodes: &mut Vec<EagerNode>,
    out: &mut Sends,
    src: u32,
    dst: u32,
    msg: &Msg,
    age: u64,
    victim: Option<u32>,
) -> Result<AgedEffect, Cause>
    requires nodes { AreNodes cfg nodes.old.items }
    requires from { src < cfg.nodes }
    requires to { dst < cfg.nodes }
    requires message { IsMsgOf cfg msg.now }
    requires row { meets_row cfg dst (share_in cfg nodes.old.items dst) src msg.now ≡ true }
    requires nothing { out.old ≡ no_sends cfg }
    ensures ok { IfOk result (λ did. IsDoneAt nodes.old.items nodes.new.items dst (TakeFrom src msg.now victim) age out.new.list did) }
    ensures sent { IfOk result (λ did. AreSent cfg out.new.list) }
    ensures words { IfOk result (λ did. FillsLine cfg did.effect.served) }
    ensures err { IfErr result (λ cause. IsRefusedAt nodes.old.items dst (TakeFrom src msg.now victim) cause) }
    ensures room { out.new.room ≡ out.old.room }
    ensures same { OnErr result ((nodes.new.items ≡ nodes.old.items) × (out.new ≡ out.old)) }
{
    told_sizes(cfg);
    let node = &mut nodes[dst as usize];
    let _kept = node.number();
    node.take(src, msg, victim, age, out)
}

// The sizes of a machine say that they are within their limits.
fn told_sizes(cfg: Machine)
    ensures { AreSizes cfg }
{}

// A node's own event, as an event of the machine.
fn act_alone(
    cfg: Machine,
    nodes: &mut Vec<EagerNode>,
    out: &mut Sends,
    node: u32,
    event: LocalEvent,
    room: bool,
) -> Result<Act, Cause>
    requires nodes { AreNodes cfg nodes.old.items }
    requires young { AreYoung 18446744073709551614 nodes.old.items }
    requires below { node < cfg.nodes }
    requires line { FitsEvent cfg node event }
    requires nothing { out.old ≡ no_sends cfg }
    ensures ok { IfOk result (λ act. IsAlone cfg nodes.old.items nodes.new.items node (input_of event room) out.new.list act) }
    ensures err { IfErr result (λ cause. IsRefusedAt nodes.old.items node (input_of event room) cause) }
    ensures room { out.new.room ≡ out.old.room }
    ensures same { OnErr result ((nodes.new.items ≡ nodes.old.items) × (out.new ≡ out.old)) }
{
    let did = do_alone(cfg, nodes, out, node, event, room)?;
    Ok(Act {
        node,
        given: did.given,
        done: did.effect.done.is_some(),
        entry: aged_entry(did.served, own_entry(&did.effect.served)),
        takes: [false; 14],
        marked: false,
    })
}

// The first message of a lane, which its taker handles. It stays in the lane for now.
fn act_on_message(
    cfg: Machine,
    nodes: &mut Vec<EagerNode>,
    lanes: &AgedLanes,
    out: &mut Sends,
    src: u32,
    dst: u32,
    class: Class,
    victim: Option<u32>,
) -> Result<Act, Cause>
    requires nodes { AreNodes cfg nodes.old.items }
    requires lanes { lanes.now.sizes ≡ cfg }
    requires from { src < cfg.nodes }
    requires to { dst < cfg.nodes }
    requires nothing { out.old ≡ no_sends cfg }
    requires fronts { AreFrontsMet cfg nodes.old.items (lane_in lanes.now) }
    ensures ok { IfOk result (λ act. IsAct cfg nodes.old.items nodes.new.items (lane_in lanes.now) (Event.Take src dst class victim) out.new.list act) }
    ensures err { IfErr result (λ cause. IsRefusedIn cfg nodes.old.items (lane_in lanes.now) (Event.Take src dst class victim) cause) }
    ensures room { out.new.room ≡ out.old.room }
    ensures same { OnErr result ((nodes.new.items ≡ nodes.old.items) × (out.new ≡ out.old)) }
{
    let Some(aged) = lanes.front(src, dst, class) else {
        return Err(Cause::LaneEmpty);
    };
    let msg = aged.msg;
    let marked = is_marked_load(&cfg, dst, nodes[dst as usize].proc().want(), &msg);
    let did = do_take(cfg, nodes, out, src, dst, &msg, aged.age, victim)?;
    Ok(Act {
        node: dst,
        given: did.given,
        done: did.effect.done.is_some(),
        entry: aged_entry(
            did.served,
            entry_served(&cfg, nodes, &msg, &did.effect.served),
        ),
        takes: take_marks(&msg),
        marked,
    })
}

/// The node of an event does it. Messages stay where they are for now.
pub(crate) fn do_event(
    cfg: Machine,
    nodes: &mut Vec<EagerNode>,
    lanes: &AgedLanes,
    out: &mut Sends,
    event: Event,
) -> Result<Act, Cause>
    requires nodes { AreNodes cfg nodes.old.items }
    requires young { AreYoung 18446744073709551614 nodes.old.items }
    requires lanes { lanes.now.sizes ≡ cfg }
    requires of_machine { IsEventOf cfg event }
    requires nothing { out.old ≡ no_sends cfg }
    requires fronts { AreFrontsMet cfg nodes.old.items (lane_in lanes.now) }
    ensures ok { IfOk result (λ act. IsAct cfg nodes.old.items nodes.new.items (lane_in lanes.now) event out.new.list act) }
    ensures err { IfErr result (λ cause. IsRefusedIn cfg nodes.old.items (lane_in lanes.now) event cause) }
    ensures room { out.new.room ≡ out.old.room }
    ensures same { OnErr result ((nodes.new.items ≡ nodes.old.items) × (out.new ≡ out.old)) }
{
    match event {
        Event::Hit { node } => act_alone(cfg, nodes, out, node, LocalEvent::Hit, true),
        Event::Issue { node } => act_alone(cfg, nodes, out, node, LocalEvent::Issue, true),
        Event::Evict { node, line, kind } => {
            let room = lanes.evictions(node, cfg.home_of(line)) < u64::from(cfg.evicts());
            act_alone(
                cfg,
                nodes,
                out,
                node,
                LocalEvent::Evict { line, kind },
                room,
            )
        }
        Event::Take {
            src,
            dst,
            class,
            victim,
        } => act_on_message(cfg, nodes, lanes, out, src, dst, class, victim),
        Event::Reclaim { line } => {
            let home = cfg.home_of(line);
            act_alone(cfg, nodes, out, home, LocalEvent::Reclaim { line }, true)
        }
    }
}
