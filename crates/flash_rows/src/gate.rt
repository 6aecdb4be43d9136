//! How the tests run the program in threads, behind a gate that they see.

use flash_top::{Gate, MemSink, MemSource, Role, run_main};
use row_calls::Ended;
use std::alloc::Global;
use std::sync::{Mutex, Wait};
use std::test::Fail;
use std::thread::{self, Threads};

/// How often a held role looks again before the row fails.
const TRIES: u32 = 10_000_000;

/// For which turns of the two processors the gate was called: the first turn, and one after a completed operation.
#[derive(Clone, Copy, Drop)]
pub(crate) struct Calls {
    pub(crate) first: [bool; 2],
    pub(crate) completed: [bool; 2],
    pub(crate) gave_up: bool,
}

/// A gate that lets other threads go first at each call. Where a node is to come last, it holds each of two processors before its first turn until the other one is called, and that node until the other one has completed an operation.
#[derive(Drop)]
pub(crate) struct TurnGate<'a, R: Wait> {
    rt: &'a R,
    last: Option<usize>,
    pub(crate) calls: Mutex<Calls>,
}

impl<'a, R: Wait> TurnGate<'a, R> {
    pub(crate) fn new(rt: &'a R, last: Option<usize>) -> TurnGate<'a, R> {
        TurnGate {
            rt,
            last,
            calls: Mutex::new(Calls {
                first: [false; 2],
                completed: [false; 2],
                gave_up: false,
            }),
        }
    }

    /// Notes a turn of a processor, and answers whether it may begin.
    fn may_pass(&self, node: usize, turn: u64, done: u32) -> bool {
        let mut calls = self.calls.lock(self.rt);
        if node < 2 && turn == 0 {
            calls.first[node] = true;
        }
        if node < 2 && done > 0 {
            calls.completed[node] = true;
        }
        let other = usize::from(node == 0);
        calls.first[other] && (self.last != Some(node) || calls.completed[other])
    }
}

impl<'a, R: Wait> Gate for TurnGate<'a, R> {
    fn pass(&self, node: u32, role: Role, turn: u64, done: u32) {
        if self.last.is_none() {
            return thread::yield_now();
        }
        if role != Role::Processor {
            return;
        }
        for _ in 0..TRIES {
            if self.may_pass(node as usize, turn, done) {
                return;
            }
            thread::yield_now();
        }
        self.calls.lock(self.rt).gave_up = true;
    }
}

/// Calls the program with one word over an input, behind a gate.
pub(crate) fn ends_behind<R: Threads + Wait + Sync, G: Gate + Sync>(
    rt: &R,
    alloc: Global,
    word: &str,
    input: &str,
    gate: &G,
) -> Result<Ended, Fail> {
    let mut words = Vec::new(alloc);
    words.push(String::from_str(alloc, word)?)?;
    let mut source = MemSource::new(input.as_bytes().to_vec(alloc)?, 4096, Vec::new(alloc));
    let mut sink = MemSink::new(alloc, 1_000_000, 65536, Vec::new(alloc))?;
    let mut err = MemSink::new(alloc, 256, 256, Vec::new(alloc))?;
    let status = run_main(rt, alloc, &words, &mut source, &mut sink, &mut err, gate);
    Ok(Ended {
        code: status.code(),
        output: sink.bytes().to_vec(alloc)?,
        told: err.bytes().to_vec(alloc)?,
        reads: source.calls(),
    })
}
