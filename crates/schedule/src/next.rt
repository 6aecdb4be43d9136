//! One event of a schedule.

ghost use Rattle.std.specs.Prelude.{◌≡◌, ◌<◌, ℕ, Some, IfOk, IfSome, OnOk, OnErr};
ghost use Rattle.op_model.specs.declared.events.Event.{Event as AnEvent};
ghost use Rattle.op_model.specs.Lines.{Copy, state_of};
ghost use Rattle.op_model.specs.Run.Schedules.{delivery, eviction_of, processor_event as event_of};
ghost use Rattle.op_model.specs.Run.Machines.{IsRunning, IsApplied, IsEnabled, IsEventOf};
ghost use Rattle.schedule.specs.Chosen.{IsOpIn};
ghost use Rattle.schedule.specs.Made.{IsAdvanced, next_with};

use crate::making::make;
use machine_face::{ApplyError, MachineFace};
use op_model::{Class, CopyState, Event, EvictKind, NoMemory, Op};
use rest_laws::every_first_lane;

/// How a copy leaves a cache: an exclusive one is written back, a shared one leaves with a hint, at its home silently.
fn eviction_kind(copy: CopyState, at_home: bool) -> EvictKind
    ensures { (c : Copy) → state_of c ≡ copy → result ≡ eviction_of at_home c }
{
    match copy {
        CopyState::Exclusive => EvictKind::Wb,
        CopyState::Shared | CopyState::Absent => {
            if at_home {
                EvictKind::Silent
            } else {
                EvictKind::Hint
            }
        }
    }
}

/// Takes the first message of a lane. Where the machine refuses that, since the message calls a line in, the least line that may be is named.
fn deliver<M: MachineFace>(m: &mut M, src: u32, dst: u32, class: Class) -> Result<(), NoMemory>
    requires from { src < (M.meaning m.old).sizes.nodes }
    requires to { dst < (M.meaning m.old).sizes.nodes }
    requires enabled { IsEnabled (M.meaning m.old) (delivery (M.meaning m.old).charge (M.meaning m.old).sizes (M.meaning m.old).past.state (record { src = src; dst = dst; class = class })) }
    ensures ok { OnOk result (IsApplied (M.meaning m.old) (delivery (M.meaning m.old).charge (M.meaning m.old).sizes (M.meaning m.old).past.state (record { src = src; dst = dst; class = class })) (M.meaning m.new)) }
    ensures err { OnErr result (M.meaning m.new ≡ M.meaning m.old) }
    ensures kept { IsRunning (M.meaning m.new) }
{
    let take = Event::Take {
        src,
        dst,
        class,
        victim: None,
    };
    match m.apply(take) {
        Ok(()) => Ok(()),
        Err(ApplyError::Memory) => Err(NoMemory),
        Err(ApplyError::NotEnabled(_)) => {
            let victim = m.least_victim(dst);
            let named = Event::Take {
                src,
                dst,
                class,
                victim,
            };
            make(m, named)
        }
    }
}

/// What a processor does for its next operation: a hit where one is enabled, else it makes room in the cache set, else an issue.
fn processor_event<M: MachineFace>(m: &M, op: Op) -> Event
    requires { IsOpIn (M.meaning m.now).sizes op }
    ensures value { result ≡ event_of (M.meaning m.now).charge (M.meaning m.now).sizes (M.meaning m.now).programs (M.meaning m.now).past.state op }
    ensures within { IsEventOf (M.meaning m.now).sizes result }
{
    let node = op.node;
    if m.enabled(&Event::Hit { node }).is_ok() {
        return Event::Hit { node };
    }
    let cfg = m.cfg();
    let line = cfg.line_of(cfg.addr_of(op.word));
    match m.other_in_set(node, line) {
        Some(other) => Event::Evict {
            node,
            line: other,
            kind: eviction_kind(m.copy_state(node, other), node == cfg.home_of(other)),
        },
        None => Event::Issue { node },
    }
}

/// Makes the next event, if there is one: a message that is under way goes first, and where there is none the processor of the chosen operation. After want of memory nothing has changed.
pub(crate) fn advance<M: MachineFace>(m: &mut M, chosen: Option<Op>) -> Result<bool, NoMemory>
    requires chosen { IfSome chosen (IsOpIn (M.meaning m.old).sizes) }
    requires enabled { (event : AnEvent) → next_with (M.meaning m.old) chosen ≡ Some event → IsEnabled (M.meaning m.old) event }
    ensures ok { IfOk result (λ made. IsAdvanced (next_with (M.meaning m.old) chosen) (M.meaning m.old) made (M.meaning m.new)) }
    ensures err { OnErr result (M.meaning m.new ≡ M.meaning m.old) }
    ensures kept { IsRunning (M.meaning m.new) }
{
    // The machine says here what it keeps.
    let _cfg = m.cfg();
    match m.first_busy() {
        Some((src, dst, class)) => {
            // A lane that isn't empty is one between nodes of the machine.
            every_first_lane();
            deliver(m, src, dst, class)?;
            Ok(true)
        }
        None => {
            let Some(op) = chosen else {
                return Ok(false);
            };
            let event = processor_event(m, op);
            make(m, event)?;
            Ok(true)
        }
    }
}
