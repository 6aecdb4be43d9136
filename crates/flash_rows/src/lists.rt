//! Lanes as plain lists give the same bytes as rings of words.

use command_words::Play;
use commands::command_text_over;
use lane_queues::ListLanes;
use out_space::{reply_bound, request_bound};
use row_calls::ends;
use std::alloc::Global;
use std::test::Fail;
use trace_text::read_trace;

/// Traces with many messages under way, on four nodes of two lines.
const TRACES: [&str; 3] = [
    "flash 2\nnodes 4\nlines 2\nwords 1\nlinks 2\nsets 1\npending 1\nevicts 1\n1 S 0x0 1\n1 S 0x8 2\n2 L 0x0\n3 L 0x8\n0 S 0x8 4\n2 A 0x0 1\nend\n",
    "flash 2\nnodes 4\nlines 2\nwords 1\nlinks 2\nsets 1\npending 1\nevicts 1\n1 L 0x0\n2 L 0x0\n3 L 0x0\n1 L 0x8\n2 L 0x8\n3 L 0x8\n0 X 0x0 5\n3 L 0x0\nend\n",
    "flash 2\nnodes 4\nlines 2\nwords 1\nlinks 2\nsets 1\npending 1\nevicts 1\n0 S 0x0 3\n0 L 0x8\n1 S 0x0 5\n1 L 0x8\n2 S 0x10 1\n3 S 0x10 2\n0 L 0x10\nend\n",
];

const PLAYS: [(&str, Play); 4] = [
    ("serial", Play::Serial),
    ("seeded 1", Play::Seeded { seed: 1 }),
    ("seeded 2", Play::Seeded { seed: 2 }),
    ("seeded 3", Play::Seeded { seed: 3 }),
];

/// The text of a command over lanes that are lists.
fn over_lists(alloc: Global, play: Play, input: &[u8]) -> Result<Vec<u8>, Fail> {
    let Ok(trace) = read_trace(alloc, input) else {
        return Ok(Vec::new(alloc));
    };
    let cfg = trace.cfg();
    let Ok(lanes) = ListLanes::new(alloc, cfg, request_bound(&cfg), reply_bound(&cfg)) else {
        return Ok(Vec::new(alloc));
    };
    match command_text_over(alloc, play, &trace, lanes) {
        Ok(text) => Ok(text),
        Err(_) => Ok(Vec::new(alloc)),
    }
}

#[test]
fn lists_and_rings(rt: HostRuntime) -> Result<(), Fail> {
    let alloc = rt.alloc();
    for input in TRACES.iter() {
        for (words, play) in PLAYS.iter() {
            let ended = ends(alloc, words, input.as_bytes())?;
            let text = String::from_utf8(over_lists(alloc, *play, input.as_bytes())?)?;
            assert!(rt; ended.is(0, &text, ""), "at {words}");
        }
    }
    Ok(())
}
