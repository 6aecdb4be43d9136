//! Runs of small machines, worked by hand. All words are at home 0.

ghost use Rattle.std.specs.Prelude.{◌≡◌, IfOk};
ghost use Rattle.op_model.specs.Run.Machines.{IsEventOf};
ghost use Rattle.op_model.specs.Run.Bounds.{request_bound as requests_at_most, reply_bound as replies_at_most};
ghost use Rattle.lane_queues.specs.LaneStates.{no_messages};

mod views;

use crate::{Access, first_dirs, is_of_machine, programs_of};
use Kind::{Load, Store};
use dir_report::put_entry;
use lane_queues::{Lanes, ListLanes, RingLanes};
use line_map::{Machine, OutOfRange};
use machine::Machine1;
use machine_face::ApplyError;
use op_model::{Cause, Count, Event, Kind};
use out_space::{reply_bound, request_bound};
use sharer_dir::LinkedDir;
use std::alloc::Global;
use std::process::Abort;
use std::test::Fail;
use step_journal::read_steps;

/// A run worked by hand.
struct Run {
    title: &'static str,
    /// Nodes, lines, words, links, sets, pending lines and evictions of the machine.
    sizes: [u64; 7],
    ops: &'static [Access],
    /// Steps as in a trace. Behind one that is refused stand `!` and the cause.
    steps: &'static [&'static str],
}

/// A run that ends at rest with all done, its history as in a report, and some of its counts.
struct Row {
    run: Run,
    history: &'static str,
    counts: &'static [(Count, u64)],
}

/// Three nodes with two lines each, one word a line and one link a home.
const SMALL: [u64; 7] = [3, 2, 1, 1, 2, 1, 1];

const ROWS: [Row; 3] = [
    Row {
        run: Run {
            title: "a store is read at its owner",
            sizes: SMALL,
            ops: &[(1, Store, 0, 7), (2, Load, 0, 0)],
            steps: &[
                "t 1 0 q - ! LaneEmpty",
                "h 0 ! NoOp",
                "h 1 ! Miss",
                "r 0 ! NoLinks",
                "i 1",
                "i 1 ! Outstanding",
                "t 1 0 q 0 ! VictimUnasked",
                "t 1 0 q -",
                "t 0 1 r -",
                "e 1 0 hint ! WrongKind",
                "i 2",
                "t 2 0 q -",
                "r 0 ! LinePending",
                "t 0 1 q -",
                "t 1 2 r -",
                "t 1 0 r -",
            ],
        },
        history: "1 0 S 0x0 7\n2 0 L 0x0 7\n",
        counts: &[
            (Count::Events, 8),
            (Count::Issues, 2),
            (Count::TakeFwdGet, 1),
        ],
    },
    Row {
        run: Run {
            title: "a load is served before the store that ends first",
            sizes: SMALL,
            ops: &[(1, Load, 0, 0), (2, Store, 0, 5)],
            steps: &[
                "i 1",
                "t 1 0 q -",
                "i 2",
                "t 2 0 q -",
                "t 0 1 q -",
                "t 1 0 r -",
                "t 0 2 r -",
                "t 0 1 r -",
            ],
        },
        history: "1 0 L 0x0 0\n2 0 S 0x0 5\n",
        counts: &[(Count::Events, 8), (Count::TakeInv, 1), (Count::Marked, 1)],
    },
    Row {
        run: CALLED_IN,
        history: "1 0 L 0x0 0\n2 0 L 0x0 0\n1 1 L 0x8 0\n2 1 L 0x8 0\n",
        counts: &[
            (Count::Events, 19),
            (Count::TakeInv, 2),
            (Count::NakNoLink, 1),
            (Count::Reclaims, 1),
        ],
    },
];

/// The two lines of a home with one link, read by two nodes in turn.
const CALLED_IN: Run = Run {
    title: "a line is called in for its link",
    sizes: SMALL,
    ops: &[
        (1, Load, 0, 0),
        (1, Load, 1, 0),
        (2, Load, 0, 0),
        (2, Load, 1, 0),
    ],
    steps: &[
        "i 1",
        "t 1 0 q -",
        "t 0 1 r -",
        "i 2",
        "t 2 0 q -",
        "t 0 2 r -",
        "i 1",
        "t 1 0 q -",
        "t 0 1 r -",
        "i 2",
        "t 2 0 q - ! VictimMissing",
        "t 2 0 q 1 ! VictimUnfit",
        "t 2 0 q 99 ! VictimUnfit",
        "t 2 0 q 0",
        "t 0 2 r -",
        "t 0 1 q -",
        "t 1 0 r -",
        "t 0 2 q -",
        "t 2 0 r -",
        "i 2",
        "t 2 0 q -",
        "t 0 2 r -",
    ],
};

fn machine_of(run: &Run) -> Result<Machine, OutOfRange> {
    let [nodes, lines, words, links, sets, pending, evicts] = run.sizes;
    Machine::new(nodes, lines, words, links, sets, pending, evicts)
}

fn same_text(rt: &impl Abort, title: &str, what: &str, found: &str, wanted: &str) {
    assert_eq!(rt; found, wanted, "{title}: {what}");
}

fn same_number(rt: &impl Abort, title: &str, what: &str, found: u64, wanted: u64) {
    assert_eq!(rt; found, wanted, "{title}: {what}");
}

/// The event that a step spells. Its victim may be a line that the machine doesn't have.
fn event_of(
    rt: &impl Abort,
    alloc: Global,
    cfg: Machine,
    title: &str,
    text: &str,
) -> Result<Event, Fail>
    ensures { IfOk result (λ event. IsEventOf cfg event) }
{
    let wide = Machine::new(64, 4096, 1, 1, 1, 1, 1)?;
    if let Ok(steps) = read_steps(alloc, &wide, text.as_bytes(), 1)
        && let [event] = steps.as_slice()
        && is_of_machine(cfg, *event)
    {
        return Ok(*event);
    }
    panic!(rt; "{title}: no step: {text}")
}

/// The cause of a refusal, and nothing where there is none.
fn name_of(answer: Result<(), Cause>) -> &'static str {
    match answer {
        Ok(()) => "",
        Err(cause) => cause.name(),
    }
}

/// Makes a step, or sees it refused for its cause; `enabled` says so beforehand.
fn step<Q: Lanes>(
    rt: &impl Abort,
    alloc: Global,
    m: &mut Machine1<LinkedDir, Q>,
    title: &str,
    step: &str,
) -> Result<(), Fail> {
    let (text, refusal) = step.split_once(" ! ").unwrap_or((step, ""));
    let event = event_of(rt, alloc, Machine1::cfg(m), title, text)?;
    let answer = name_of(Machine1::enabled(m, &event));
    same_text(rt, title, step, answer, refusal);
    let made = match Machine1::apply(m, event) {
        Ok(()) => "",
        Err(ApplyError::NotEnabled(cause)) => cause.name(),
        Err(ApplyError::Memory) => "no memory",
    };
    same_text(rt, title, step, made, refusal);
    Ok(())
}

/// The machine of a run after so many of its steps.
fn play<Q: Lanes>(
    rt: &impl Abort,
    alloc: Global,
    cfg: Machine,
    lanes: Q,
    run: &Run,
    count: usize,
) -> Result<Machine1<LinkedDir, Q>, Fail>
    requires { Q.meaning lanes ≡ no_messages cfg (requests_at_most cfg) (replies_at_most cfg) }
{
    let programs = programs_of(alloc, cfg, run.ops)?;
    let mut m = Machine1::start(alloc, cfg, programs, first_dirs(alloc, cfg)?, lanes)?;
    for text in run.steps.iter().take(count) {
        step(rt, alloc, &mut m, run.title, text)?;
    }
    Ok(m)
}

fn history_of<Q: Lanes>(alloc: Global, m: &Machine1<LinkedDir, Q>) -> Result<String, Fail> {
    let mut text = Vec::new(alloc);
    for entry in &Machine1::history(m, alloc)? {
        put_entry(&mut text, entry)?;
    }
    Ok(String::from_utf8(text)?)
}

fn all_counts<Q: Lanes>(m: &Machine1<LinkedDir, Q>) -> [u64; 27] {
    let mut counts = [0; 27];
    for i in 0..27u32 {
        counts[i as usize] = Machine1::count(m, i);
    }
    counts
}

/// All is done and at rest, with the history and the counts of the row.
fn ends_with<Q: Lanes>(
    rt: &impl Abort,
    alloc: Global,
    m: &Machine1<LinkedDir, Q>,
    row: &Row,
) -> Result<(), Fail> {
    let title = row.run.title;
    assert!(rt;
        m.all_done() && m.is_quiet(),
        "{title}: isn't done and at rest"
    );
    let history = history_of(alloc, m)?;
    same_text(rt, title, "history", history.as_str(), row.history);
    for (count, number) in row.counts {
        same_number(
            rt,
            title,
            count.name(),
            Machine1::count(m, count.index()),
            *number,
        );
    }
    Ok(())
}

/// Plays a row to its end over these lanes. The answer is all counts.
fn ends<Q: Lanes>(
    rt: &impl Abort,
    alloc: Global,
    cfg: Machine,
    lanes: Q,
    row: &Row,
) -> Result<[u64; 27], Fail>
    requires { Q.meaning lanes ≡ no_messages cfg (requests_at_most cfg) (replies_at_most cfg) }
{
    let m = play(rt, alloc, cfg, lanes, &row.run, row.run.steps.len())?;
    ends_with(rt, alloc, &m, row)?;
    Ok(all_counts(&m))
}

/// Plays a row over both kinds of lanes, which count alike.
fn ends_alike(rt: &impl Abort, alloc: Global, row: &Row) -> Result<(), Fail> {
    let cfg = machine_of(&row.run)?;
    let rings = RingLanes::new(alloc, cfg, request_bound(&cfg), reply_bound(&cfg))?;
    let rings = ends(rt, alloc, cfg, rings, row)?;
    let lists = ListLanes::new(alloc, cfg, request_bound(&cfg), reply_bound(&cfg))?;
    let lists = ends(rt, alloc, cfg, lists, row)?;
    for i in 0..27u32 {
        let name = Count::at(i).name();
        same_number(
            rt,
            row.run.title,
            name,
            rings[i as usize],
            lists[i as usize],
        );
    }
    Ok(())
}

#[test]
fn rows(rt: HostRuntime) -> Result<(), Fail> {
    for row in &ROWS {
        ends_alike(&rt, rt.alloc(), row)?;
    }
    Ok(())
}
