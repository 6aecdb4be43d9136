//! Whether an event would be made.

ghost use Rattle.std.specs.Prelude.{◌≡◌, ◌<◌, map, true};
ghost use Rattle.op_model.specs.Events.Node.{TakeFrom, meets_row};
ghost use Rattle.machine.specs.Kept.{AreNodes, AreLanesOf, charge_in, share_in};
ghost use Rattle.magic_node.specs.Nodes.{FitsEvent, input_of};
ghost use Rattle.op_model.specs.Run.Machines.{IsEventOf};
ghost use Rattle.machine.specs.Faces.{face_of};
ghost use Rattle.machine.specs.Acts.{AreFrontsMet, IsPermitIn, permit_at};

use dir_header::Sharers;
use lane_queues::Lanes;
use line_map::Machine;
use magic_node::{LocalEvent, MagicNode};
use op_model::{Cause, Class, Event, Msg};

// Whether a node would do an event of its own.
fn can_do_alone<D: Sharers>(
    cfg: Machine,
    nodes: &Vec<MagicNode<D>>,
    node: u32,
    event: LocalEvent,
    room: bool,
) -> Result<(), Cause>
    requires nodes { AreNodes cfg (charge_in (map face_of nodes.now.items)) (map face_of nodes.now.items) }
    requires below { node < cfg.nodes }
    requires line { FitsEvent cfg node event }
    ensures { result ≡ permit_at (charge_in (map face_of nodes.now.items)) cfg (map face_of nodes.now.items) node (input_of event room) }
{
    nodes[node as usize].can_do(event, room)
}

// Whether a node would take a message.
fn can_take_from<D: Sharers>(
    cfg: Machine,
    nodes: &Vec<MagicNode<D>>,
    src: u32,
    dst: u32,
    msg: &Msg,
    victim: Option<u32>,
) -> Result<(), Cause>
    requires nodes { AreNodes cfg (charge_in (map face_of nodes.now.items)) (map face_of nodes.now.items) }
    requires from { src < cfg.nodes }
    requires to { dst < cfg.nodes }
    requires row { meets_row cfg dst (share_in cfg (map face_of nodes.now.items) dst) src msg.now ≡ true }
    ensures { result ≡ permit_at (charge_in (map face_of nodes.now.items)) cfg (map face_of nodes.now.items) dst (TakeFrom src msg.now victim) }
{
    nodes[dst as usize].can_take(src, msg, victim)
}

// Whether the first message of a lane would be taken.
fn can_take_front<D: Sharers, Q: Lanes>(
    cfg: Machine,
    nodes: &Vec<MagicNode<D>>,
    lanes: &Q,
    src: u32,
    dst: u32,
    class: Class,
    victim: Option<u32>,
) -> Result<(), Cause>
    requires nodes { AreNodes cfg (charge_in (map face_of nodes.now.items)) (map face_of nodes.now.items) }
    requires lanes { AreLanesOf cfg (Q.meaning lanes.now) }
    requires from { src < cfg.nodes }
    requires to { dst < cfg.nodes }
    requires fronts { AreFrontsMet cfg (map face_of nodes.now.items) (Q.meaning lanes.now).lane }
    ensures { IsPermitIn (charge_in (map face_of nodes.now.items)) cfg (map face_of nodes.now.items) (Q.meaning lanes.now).lane (Event.Take src dst class victim) result }
{
    match lanes.front(src, dst, class) {
        Some(msg) => can_take_from(cfg, nodes, src, dst, &msg, victim),
        None => Err(Cause::LaneEmpty),
    }
}

/// Whether an event would be made, or for which cause it would be refused.
pub(crate) fn can_make<D: Sharers, Q: Lanes>(
    cfg: Machine,
    nodes: &Vec<MagicNode<D>>,
    lanes: &Q,
    event: Event,
) -> Result<(), Cause>
    requires nodes { AreNodes cfg (charge_in (map face_of nodes.now.items)) (map face_of nodes.now.items) }
    requires lanes { AreLanesOf cfg (Q.meaning lanes.now) }
    requires of_machine { IsEventOf cfg event }
    requires fronts { AreFrontsMet cfg (map face_of nodes.now.items) (Q.meaning lanes.now).lane }
    ensures { IsPermitIn (charge_in (map face_of nodes.now.items)) cfg (map face_of nodes.now.items) (Q.meaning lanes.now).lane event result }
{
    match event {
        Event::Hit { node } => can_do_alone(cfg, nodes, node, LocalEvent::Hit, true),
        Event::Issue { node } => can_do_alone(cfg, nodes, node, LocalEvent::Issue, true),
        Event::Evict { node, line, kind } => {
            let room = lanes.evictions(node, cfg.home_of(line)) < cfg.evicts();
            can_do_alone(cfg, nodes, node, LocalEvent::Evict { line, kind }, room)
        }
        Event::Take {
            src,
            dst,
            class,
            victim,
        } => can_take_front(cfg, nodes, lanes, src, dst, class, victim),
        Event::Reclaim { line } => {
            let home = cfg.home_of(line);
            can_do_alone(cfg, nodes, home, LocalEvent::Reclaim { line }, true)
        }
    }
}
