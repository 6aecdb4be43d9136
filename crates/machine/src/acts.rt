//! What an event does at its node.

ghost use Rattle.std.specs.Prelude.{◌≡◌, ◌<◌, map, true, All, IfOk, IfErr, OnErr};
ghost use Rattle.op_model.specs.MessageWords.{IsMsgOf};
ghost use Rattle.op_model.specs.Events.Node.{TakeFrom, meets_row};
ghost use Rattle.machine.specs.Kept.{AreNodes, AreLanesOf, charge_in, no_sends, share_in};
ghost use Rattle.magic_node.specs.Nodes.{FitsEvent, input_of};
ghost use Rattle.op_model.specs.Run.Machines.{IsEventOf};
ghost use Rattle.machine.specs.Faces.{face_of, dir_of};
ghost use Rattle.machine.specs.Acts.{IsDoneAt, IsRefusedAt, IsAlone, IsAct, IsRefusedIn, AreFrontsMet, FillsLine};

use crate::entries::{entry_served, own_entry};
use crate::nodes::{told_dir, told_sizes};
use cpu_cache::Effect;
use dir_header::Sharers;
use event_tally::{is_marked_load, take_marks};
use lane_queues::Lanes;
use line_map::Machine;
use magic_node::{LocalEvent, MagicNode};
use msg_words::Sends;
use op_model::{Cause, Class, Entry, Event, Msg};

/// What an event did: at which node, whether an operation of that node was done, and the entry of the operation that was served; of the message that it took, by which counts of messages it is counted, whether it was a write-back or a hint, and whether it was the Put of a marked load.
#[derive(Clone, Copy)]
pub(crate) struct Act {
    pub(crate) node: u32,
    pub(crate) done: bool,
    pub(crate) entry: Option<Entry>,
    pub(crate) takes: [bool; 14],
    pub(crate) departs: bool,
    pub(crate) marked: bool,
}

// A node does an event of its own.
fn do_alone<D: Sharers>(
    cfg: Machine,
    nodes: &mut Vec<MagicNode<D>>,
    out: &mut Sends,
    node: u32,
    event: LocalEvent,
    room: bool,
) -> Result<Effect, Cause>
    requires nodes { AreNodes cfg (charge_in (map face_of nodes.old.items)) (map face_of nodes.old.items) }
    requires dirs { All D.is_sound (map dir_of nodes.old.items) }
    requires below { node < cfg.nodes }
    requires line { FitsEvent cfg node event }
    requires nothing { out.old ≡ no_sends cfg }
    ensures ok { IfOk result (λ effect. IsDoneAt cfg (map face_of nodes.old.items) (map face_of nodes.new.items) node (input_of event room) out.new.list effect) }
    ensures err { IfErr result (λ cause. IsRefusedAt (map face_of nodes.old.items) node (input_of event room) cause) }
    ensures dirs { All D.is_sound (map dir_of nodes.new.items) }
    ensures room { out.new.room ≡ out.old.room }
    ensures same { OnErr result ((nodes.new.items ≡ nodes.old.items) × (out.new ≡ out.old)) }
{
    let node = &mut nodes[node as usize];
    let _kept = node.number();
    let done = node.local(event, room, out);
    told_dir(node);
    done
}

// A node takes a message and does its row.
fn do_take<D: Sharers>(
    cfg: Machine,
    nodes: &mut Vec<MagicNode<D>>,
    out: &mut Sends,
    src: u32,
    dst: u32,
    msg: &Msg,
    victim: Option<u32>,
) -> Result<Effect, Cause>
    requires nodes { AreNodes cfg (charge_in (map face_of nodes.old.items)) (map face_of nodes.old.items) }
    requires dirs { All D.is_sound (map dir_of nodes.old.items) }
    requires from { src < cfg.nodes }
    requires to { dst < cfg.nodes }
    requires message { IsMsgOf cfg msg.now }
    requires row { meets_row cfg dst (share_in cfg (map face_of nodes.old.items) dst) src msg.now ≡ true }
    requires nothing { out.old ≡ no_sends cfg }
    ensures ok { IfOk result (λ effect. IsDoneAt cfg (map face_of nodes.old.items) (map face_of nodes.new.items) dst (TakeFrom src msg.now victim) out.new.list effect) }
    ensures words { IfOk result (λ effect. FillsLine cfg effect.served) }
    ensures err { IfErr result (λ cause. IsRefusedAt (map face_of nodes.old.items) dst (TakeFrom src msg.now victim) cause) }
    ensures dirs { All D.is_sound (map dir_of nodes.new.items) }
    ensures room { out.new.room ≡ out.old.room }
    ensures same { OnErr result ((nodes.new.items ≡ nodes.old.items) × (out.new ≡ out.old)) }
{
    told_sizes(cfg);
    let node = &mut nodes[dst as usize];
    let _kept = node.number();
    let done = node.take(src, msg, victim, out);
    told_dir(node);
    done
}

// A node's own event, as an event of the machine.
fn act_alone<D: Sharers>(
    cfg: Machine,
    nodes: &mut Vec<MagicNode<D>>,
    out: &mut Sends,
    node: u32,
    event: LocalEvent,
    room: bool,
) -> Result<Act, Cause>
    requires nodes { AreNodes cfg (charge_in (map face_of nodes.old.items)) (map face_of nodes.old.items) }
    requires dirs { All D.is_sound (map dir_of nodes.old.items) }
    requires below { node < cfg.nodes }
    requires line { FitsEvent cfg node event }
    requires nothing { out.old ≡ no_sends cfg }
    ensures ok { IfOk result (λ act. IsAlone cfg (map face_of nodes.old.items) (map face_of nodes.new.items) node (input_of event room) out.new.list act) }
    ensures err { IfErr result (λ cause. IsRefusedAt (map face_of nodes.old.items) node (input_of event room) cause) }
    ensures dirs { All D.is_sound (map dir_of nodes.new.items) }
    ensures room { out.new.room ≡ out.old.room }
    ensures same { OnErr result ((nodes.new.items ≡ nodes.old.items) × (out.new ≡ out.old)) }
{
    let effect = do_alone(cfg, nodes, out, node, event, room)?;
    Ok(Act {
        node,
        done: effect.done.is_some(),
        entry: own_entry(&effect.served),
        takes: [false; 14],
        departs: false,
        marked: false,
    })
}

// The first message of a lane, which its taker handles. It stays in the lane for now.
fn act_on_message<D: Sharers, Q: Lanes>(
    cfg: Machine,
    nodes: &mut Vec<MagicNode<D>>,
    lanes: &Q,
    out: &mut Sends,
    src: u32,
    dst: u32,
    class: Class,
    victim: Option<u32>,
) -> Result<Act, Cause>
    requires nodes { AreNodes cfg (charge_in (map face_of nodes.old.items)) (map face_of nodes.old.items) }
    requires dirs { All D.is_sound (map dir_of nodes.old.items) }
    requires lanes { AreLanesOf cfg (Q.meaning lanes.now) }
    requires from { src < cfg.nodes }
    requires to { dst < cfg.nodes }
    requires nothing { out.old ≡ no_sends cfg }
    requires fronts { AreFrontsMet cfg (map face_of nodes.old.items) (Q.meaning lanes.now).lane }
    ensures ok { IfOk result (λ act. IsAct (charge_in (map face_of nodes.old.items)) cfg (map face_of nodes.old.items) (map face_of nodes.new.items) (Q.meaning lanes.now).lane (Event.Take src dst class victim) out.new.list act) }
    ensures err { IfErr result (λ cause. IsRefusedIn (charge_in (map face_of nodes.old.items)) cfg (map face_of nodes.old.items) (Q.meaning lanes.now).lane (Event.Take src dst class victim) cause) }
    ensures dirs { All D.is_sound (map dir_of nodes.new.items) }
    ensures room { out.new.room ≡ out.old.room }
    ensures same { OnErr result ((nodes.new.items ≡ nodes.old.items) × (out.new ≡ out.old)) }
{
    let Some(msg) = lanes.front(src, dst, class) else {
        return Err(Cause::LaneEmpty);
    };
    let marked = is_marked_load(&cfg, dst, nodes[dst as usize].proc().want(), &msg);
    let effect = do_take(cfg, nodes, out, src, dst, &msg, victim)?;
    Ok(Act {
        node: dst,
        done: effect.done.is_some(),
        entry: entry_served(&cfg, nodes, &msg, &effect.served),
        takes: take_marks(&msg),
        departs: msg.is_departure(),
        marked,
    })
}

/// The node of an event does it. Messages stay where they are for now.
pub(crate) fn do_event<D: Sharers, Q: Lanes>(
    cfg: Machine,
    nodes: &mut Vec<MagicNode<D>>,
    lanes: &Q,
    out: &mut Sends,
    event: Event,
) -> Result<Act, Cause>
    requires nodes { AreNodes cfg (charge_in (map face_of nodes.old.items)) (map face_of nodes.old.items) }
    requires dirs { All D.is_sound (map dir_of nodes.old.items) }
    requires lanes { AreLanesOf cfg (Q.meaning lanes.now) }
    requires of_machine { IsEventOf cfg event }
    requires nothing { out.old ≡ no_sends cfg }
    requires fronts { AreFrontsMet cfg (map face_of nodes.old.items) (Q.meaning lanes.now).lane }
    ensures ok { IfOk result (λ act. IsAct (charge_in (map face_of nodes.old.items)) cfg (map face_of nodes.old.items) (map face_of nodes.new.items) (Q.meaning lanes.now).lane event out.new.list act) }
    ensures err { IfErr result (λ cause. IsRefusedIn (charge_in (map face_of nodes.old.items)) cfg (map face_of nodes.old.items) (Q.meaning lanes.now).lane event cause) }
    ensures dirs { All D.is_sound (map dir_of nodes.new.items) }
    ensures room { out.new.room ≡ out.old.room }
    ensures same { OnErr result ((nodes.new.items ≡ nodes.old.items) × (out.new ≡ out.old)) }
{
    match event {
        Event::Hit { node } => act_alone(cfg, nodes, out, node, LocalEvent::Hit, true),
        Event::Issue { node } => act_alone(cfg, nodes, out, node, LocalEvent::Issue, true),
        Event::Evict { node, line, kind } => {
            let room = lanes.evictions(node, cfg.home_of(line)) < cfg.evicts();
            act_alone(
                cfg,
                nodes,
                out,
                node,
                LocalEvent::Evict { line, kind },
                room,
            )
        }
        Event::Take {
            src,
            dst,
            class,
            victim,
        } => act_on_message(cfg, nodes, lanes, out, src, dst, class, victim),
        Event::Reclaim { line } => {
            let home = cfg.home_of(line);
            act_alone(cfg, nodes, out, home, LocalEvent::Reclaim { line }, true)
        }
    }
}
