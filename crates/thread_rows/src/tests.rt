//! Runs in threads. What the answer is, its contract says; here each run comes to its end, with ample memory.

use Kind::{Load, Store};
use Role::{Controller, Processor};
use line_map::Machine;
use machine_rows::{Access, programs_of};
use op_model::{Event, Kind};
use std::alloc::Global;
use std::process::Abort;
use std::sync::{Mutex, Wait};
use std::test::Fail;
use std::thread;
use std::thread::Threads;
use thread_run::{Gate, Ran, Role, run_threads};

/// A role of a node that is held back until another one has been called.
#[derive(Clone, Copy)]
struct Hold {
    role: (u32, Role),
    until: (u32, Role),
}

#[derive(Drop)]
struct Holding<'a, R: Wait> {
    rt: &'a R,
    hold: Option<Hold>,
    is_called: Mutex<bool>,
}

impl<'a, R: Wait> Holding<'a, R> {
    fn wait_for_call(&self) {
        for _ in self.rt.forever() {
            if *self.is_called.lock(self.rt) {
                break;
            }
            thread::yield_now();
        }
    }
}

impl<'a, R: Wait> Gate for Holding<'a, R> {
    fn pass(&self, node: u32, role: Role, _turn: u64, _done: u32) {
        let Some(hold) = self.hold else {
            return;
        };
        if (node, role) == hold.until {
            *self.is_called.lock(self.rt) = true;
        }
        if (node, role) == hold.role {
            self.wait_for_call();
        }
    }
}

fn same(rt: &impl Abort, what: &str, found: u64, wanted: u64) {
    assert_eq!(rt; found, wanted, "{what}");
}

fn entries_of(ran: &Ran) -> u64 {
    let mut entries = 0u64;
    for log in &ran.logs {
        entries = entries.saturating_add(log.len());
    }
    entries
}

/// So many nodes, the journal as long as all logs together, and at least an event for each operation, all of which are done.
fn check(rt: &impl Abort, ran: &Ran, nodes: usize, ops: usize) {
    same(rt, "nodes", ran.nodes.len() as u64, nodes as u64);
    same(rt, "logs", ran.logs.len() as u64, nodes as u64);
    same(rt, "entries", entries_of(ran), ran.journal.len() as u64);
    assert!(rt; ran.journal.len() >= ops);
    let mut done = 0u64;
    for node in &ran.nodes {
        let completed = u64::from(node.proc().done_count());
        let program = u64::from(node.proc().program().len());
        same(rt, "operations done of a program", completed, program);
        done = done.saturating_add(completed);
    }
    same(rt, "operations done", done, ops as u64);
}

fn run<R: Abort + Threads + Wait + Sync>(
    rt: &R,
    alloc: Global,
    cfg: Machine,
    ops: &[Access],
    hold: Option<Hold>,
) -> Result<Ran, Fail> {
    let programs = programs_of(alloc, cfg, ops)?;
    let gate = Holding {
        rt,
        hold,
        is_called: Mutex::new(false),
    };
    let ran = run_threads(rt, alloc, cfg, programs, &gate)?;
    check(rt, &ran, cfg.nodes() as usize, ops.len());
    Ok(ran)
}

/// Two nodes with a line each: words 0 and 1.
const CROSSED: [Access; 6] = [
    (0, Store, 1, 5),
    (0, Load, 1, 0),
    (0, Load, 0, 0),
    (1, Store, 0, 6),
    (1, Load, 0, 0),
    (1, Load, 1, 0),
];

/// In whatever order roles are played one after another, one of these is held back for ever.
const HOLDS: [Option<Hold>; 5] = [
    None,
    Some(Hold {
        role: (0, Processor),
        until: (1, Controller),
    }),
    Some(Hold {
        role: (1, Controller),
        until: (0, Processor),
    }),
    Some(Hold {
        role: (1, Processor),
        until: (0, Controller),
    }),
    Some(Hold {
        role: (0, Controller),
        until: (1, Processor),
    }),
];

#[test]
fn two_nodes(rt: HostRuntime) -> Result<(), Fail> {
    let cfg = Machine::new(2, 1, 1, 2, 1, 1, 1)?;
    for hold in HOLDS {
        run(&rt, rt.alloc(), cfg, &CROSSED, hold)?;
    }
    Ok(())
}

/// Three nodes list themselves for the one line of node 0, whose list holds one link for two of them. There is no second one, so a line is called in for the third.
const SHARED: [Access; 3] = [(1, Load, 0, 0), (2, Load, 0, 0), (3, Load, 0, 0)];

#[test]
fn one_link(rt: HostRuntime) -> Result<(), Fail> {
    let cfg = Machine::new(4, 1, 1, 1, 1, 1, 1)?;
    let ran = run(&rt, rt.alloc(), cfg, &SHARED, None)?;
    assert!(rt;
        ran.journal.iter().any(|event| matches!(
            event,
            Event::Take {
                victim: Some(0),
                ..
            }
        ))
    );
    Ok(())
}

/// Each of 8 nodes adds to one word of each node.
#[test]
fn eight_nodes(rt: HostRuntime) -> Result<(), Fail> {
    let cfg = Machine::new(8, 1, 1, 8, 2, 2, 1)?;
    let mut ops = Vec::new(rt.alloc());
    for i in 0..64u32 {
        ops.push((i / 8, Kind::Add, i % 8, 1))?;
    }
    run(&rt, rt.alloc(), cfg, &ops, None)?;
    Ok(())
}
