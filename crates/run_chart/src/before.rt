//! What is known of an event before it is made.

ghost use Rattle.std.specs.Prelude.{◌≡◌, ◌<◌};
ghost use Rattle.op_model.specs.Run.Counts.{front_of};
ghost use Rattle.op_model.specs.Run.Machines.{IsEventOf};
ghost use Rattle.op_model.specs.Events.Step.{event_node};
ghost use Rattle.chart_strokes.specs.Strokes.{next_op, line_of_op, line_of_message, line_of_event};
ghost use Rattle.run_chart.specs.Charts.{IsBefore};

use line_map::Machine;
use op_model::{Class, Event};
use time_view::Viewed;

/// What is known of an event before it is made: its node, that node's place in its program, the line that it is about, and how many operations were served.
#[derive(Clone, Copy)]
pub struct Before {
    pub node: u32,
    pub place: u32,
    pub line: Option<u32>,
    pub served: usize,
}

impl Before {
    /// What is known of an event of this machine.
    pub fn of<M: Viewed>(m: &M, event: Event) -> Before
        requires { IsEventOf (M.meaning m.now).sizes event }
        ensures known { IsBefore (M.meaning m.now) event result }
        ensures of_machine { result.node < (M.meaning m.now).sizes.nodes }
    {
        let node = node_of(&m.cfg(), event);
        Before {
            node,
            place: m.place(node),
            line: line_of(m, event),
            served: m.served().len(),
        }
    }
}

/// The node at which an event happens.
fn node_of(cfg: &Machine, event: Event) -> u32
    requires { IsEventOf cfg.now event }
    ensures value { result ≡ event_node cfg.now event }
    ensures of_machine { result < cfg.now.nodes }
{
    match event {
        Event::Hit { node } | Event::Issue { node } | Event::Evict { node, .. } => node,
        Event::Take { dst, .. } => dst,
        Event::Reclaim { line } => cfg.home_of(line),
    }
}

/// The line that an event is about.
fn line_of<M: Viewed>(m: &M, event: Event) -> Option<u32>
    requires { IsEventOf (M.meaning m.now).sizes event }
    ensures { result ≡ line_of_event (M.meaning m.now).sizes (M.meaning m.now).programs (M.meaning m.now).past.state event }
{
    match event {
        Event::Hit { node } | Event::Issue { node } => line_of_next(m, node),
        Event::Evict { line, .. } | Event::Reclaim { line } => Some(line),
        Event::Take {
            src,
            dst,
            class,
            ..
        } => line_of_front(m, src, dst, class),
    }
}

/// The line of the operation at a node's place.
fn line_of_next<M: Viewed>(m: &M, node: u32) -> Option<u32>
    requires { node < (M.meaning m.now).sizes.nodes }
    ensures { result ≡ line_of_op (M.meaning m.now).sizes (next_op (M.meaning m.now).programs (M.meaning m.now).past.state node) }
{
    let cfg = m.cfg();
    let place = m.place(node);
    let program = m.program(node);
    if place >= program.len() {
        return None;
    }
    Some(cfg.line_of(cfg.addr_of(program.at(place).word)))
}

/// The line of the message at the front of a lane.
fn line_of_front<M: Viewed>(m: &M, src: u32, dst: u32, class: Class) -> Option<u32>
    requires from { src < (M.meaning m.now).sizes.nodes }
    requires to { dst < (M.meaning m.now).sizes.nodes }
    ensures { result ≡ line_of_message (front_of ((M.meaning m.now).past.state.lane src dst class)) }
{
    if m.lane_len(src, dst, class) == 0 {
        return None;
    }
    Some(m.lane_at(src, dst, class, 0).line())
}
