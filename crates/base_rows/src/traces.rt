//! A trace that is read, too many steps, and traces that are generated.

use crate::agree::agree;
use op_model::{Kind, Op};
use std::alloc::{AllocError, Global};
use std::test::Fail;
use trace_text::{TraceError, generate, print_trace, programs, read_trace};

/// A trace of version 2 of the greatest sizes, with skipped lines.
const TRACE: &[u8] =
    b"flash 2\r\n\r\nnodes 64\r\nlines 4096\r\nwords 16\r\nlinks 1\r\nsets 1\r\npending 1\r\nevicts 1\r\n0 A 0x0 5\r\n63 L 0x1FFFff8\r\n0 X 0x8 1\r\nend\r\n# test";

const OPS: [Op; 3] = [
    Op {
        node: 0,
        index: 0,
        kind: Kind::Add,
        word: 0,
        value: 5,
    },
    Op {
        node: 63,
        index: 0,
        kind: Kind::Load,
        word: 4_194_303,
        value: 0,
    },
    Op {
        node: 0,
        index: 1,
        kind: Kind::Swap,
        word: 1,
        value: 1,
    },
];

#[test]
fn reads_a_trace(rt: HostRuntime) -> Result<(), Fail> {
    let trace = read_trace(rt.alloc(), TRACE)?;
    assert!(rt; trace.version() == 2);
    assert!(rt; trace.cfg().nodes() == 64);
    agree(&rt, 0, "list of operations", trace.ops(), OPS.as_slice());
    Ok(())
}

#[test]
fn programs_of_a_trace(rt: HostRuntime) -> Result<(), Fail> {
    let trace = read_trace(rt.alloc(), TRACE)?;
    let programs = programs(rt.alloc(), &trace)?;
    assert!(rt; programs.len() == 64);
    assert!(rt; programs[0].len() == 2);
    assert!(rt; programs[1].len() == 0);
    assert!(rt; programs[63].len() == 1);
    Ok(())
}

/// A trace of two nodes, one line each and one word a line, up to its steps.
const BEFORE_STEPS: &[u8] =
    b"flash 1\nnodes 2\nlines 1\nwords 1\nlinks 1\nsets 1\npending 1\nevicts 1\nsteps\n";

fn with_steps(alloc: Global, count: u32) -> Result<Vec<u8>, AllocError> {
    let mut text = BEFORE_STEPS.to_vec(alloc)?;
    for _ in 0..count {
        text.extend_from_slice(b"h 1\n")?;
    }
    text.extend_from_slice(b"end\n")?;
    Ok(text)
}

#[test]
fn counts_steps(rt: HostRuntime) -> Result<(), Fail> {
    let trace = read_trace(rt.alloc(), &with_steps(rt.alloc(), 1_000_000)?)?;
    assert!(rt; trace.steps().len() == 1_000_000);
    match read_trace(rt.alloc(), &with_steps(rt.alloc(), 1_000_001)?) {
        Ok(_) => Err(Fail::new("too many steps are read")),
        Err(error) => {
            agree(&rt, 0, "error", error, TraceError::TooManySteps);
            Ok(())
        }
    }
}

/// A trace is printed as it was written, without skipped lines.
#[test]
fn generates(rt: HostRuntime) -> Result<(), Fail> {
    let want =
        "flash 1\nnodes 8\nlines 1024\nwords 16\nlinks 2048\nsets 256\npending 16\nevicts 4\n6 L 0xda8d0\n3 L 0xc28\n4 L 0x1b8\n7 S 0xfdae0 3612014308\n6 S 0xd5ae8 2343390805\n0 L 0x12bc0\nend\n";
    for _ in 0..2 {
        let trace = generate(rt.alloc(), 6, 1)?;
        let text = print_trace(rt.alloc(), &trace)?;
        agree(&rt, 0, "text", text.as_slice(), want.as_bytes());
    }
    Ok(())
}
