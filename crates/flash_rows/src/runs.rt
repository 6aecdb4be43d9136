//! Runs in threads. A journal of a fixed order of roles fails one of the first two rows.

use crate::gate::{TurnGate, ends_behind};
use flash_top::Gate;
use std::alloc::Global;
use std::sync::Wait;
use std::test::Fail;
use std::thread::Threads;
use trace_text::{generate, print_trace};

/// Two nodes that store to a line of their own.
const STORES: &str =
    "flash 1\nnodes 2\nlines 1\nwords 1\nlinks 1\nsets 1\npending 1\nevicts 1\n0 S 0x0 1\n1 S 0x8 3\nend\n";

/// The input, the node that comes last, and whether both processors come to the gate; then the exit code, what is written, and what is told.
const ORDERS: [(&str, usize, bool, u8, &str, &str); 3] = [
    (
        STORES,
        0,
        true,
        0,
        "steps\ni 1\ni 0\nend\nflash report 1\nhistory 2\n1 0 S 0x8 3\n0 0 S 0x0 1\nlines 2\n0 local dirty idle -\n1 local dirty idle -\nhomes 2\n0 pending 0 held 0 free 1\n1 pending 0 held 0 free 1\ncounts\nevents 2\nissues 2\nlocal 2\nend\n",
        "",
    ),
    (
        STORES,
        1,
        true,
        0,
        "steps\ni 0\ni 1\nend\nflash report 1\nhistory 2\n0 0 S 0x0 1\n1 0 S 0x8 3\nlines 2\n0 local dirty idle -\n1 local dirty idle -\nhomes 2\n0 pending 0 held 0 free 1\n1 pending 0 held 0 free 1\ncounts\nevents 2\nissues 2\nlocal 2\nend\n",
        "",
    ),
    (
        "flash 1\nnodes 65\n",
        0,
        false,
        2,
        "",
        "flash: line 2: Range\n",
    ),
];

#[test]
fn orders(rt: HostRuntime) -> Result<(), Fail> {
    for (input, last, is_called, code, output, told) in ORDERS.iter() {
        let gate = TurnGate::new(&rt, Some(*last));
        let ended = ends_behind(&rt, rt.alloc(), "run", input, &gate)?;
        let calls = *gate.calls.lock(&rt);
        assert!(rt; ended.is(*code, output, told), "where node {last} is last");
        assert!(rt; calls.first[0] == *is_called && calls.first[1] == *is_called && !calls.gave_up);
    }
    Ok(())
}

/// Swaps and adds, whose old values depend on the order.
const EXCHANGED: &str =
    "flash 2\nnodes 2\nlines 1\nwords 1\nlinks 1\nsets 1\npending 1\nevicts 1\n0 A 0x0 5\n1 A 0x0 7\n0 X 0x0 1\n1 L 0x0\nend\n";

/// Sixty-three nodes that load a word which its home stores to.
const SHARED: &str = concat!(
    "flash 1\nnodes 64\nlines 1\nwords 1\nlinks 62\nsets 1\npending 1\nevicts 1\n",
    "1 L 0x0\n2 L 0x0\n3 L 0x0\n4 L 0x0\n5 L 0x0\n6 L 0x0\n7 L 0x0\n8 L 0x0\n9 L 0x0\n",
    "10 L 0x0\n11 L 0x0\n12 L 0x0\n13 L 0x0\n14 L 0x0\n15 L 0x0\n16 L 0x0\n17 L 0x0\n18 L 0x0\n",
    "19 L 0x0\n20 L 0x0\n21 L 0x0\n22 L 0x0\n23 L 0x0\n24 L 0x0\n25 L 0x0\n26 L 0x0\n27 L 0x0\n",
    "28 L 0x0\n29 L 0x0\n30 L 0x0\n31 L 0x0\n32 L 0x0\n33 L 0x0\n34 L 0x0\n35 L 0x0\n36 L 0x0\n",
    "37 L 0x0\n38 L 0x0\n39 L 0x0\n40 L 0x0\n41 L 0x0\n42 L 0x0\n43 L 0x0\n44 L 0x0\n45 L 0x0\n",
    "46 L 0x0\n47 L 0x0\n48 L 0x0\n49 L 0x0\n50 L 0x0\n51 L 0x0\n52 L 0x0\n53 L 0x0\n54 L 0x0\n",
    "55 L 0x0\n56 L 0x0\n57 L 0x0\n58 L 0x0\n59 L 0x0\n60 L 0x0\n61 L 0x0\n62 L 0x0\n63 L 0x0\n",
    "0 S 0x0 5\nend\n",
);

/// Runs a trace in threads. The steps of the run, put in the place of the trace's last line, are replayed to the report that was printed, and `check` finds that report's history good, with an entry for each operation.
fn replay<R: Threads + Wait + Sync, G: Gate + Sync>(
    rt: &R,
    alloc: Global,
    input: &str,
    operations: u32,
    gate: &G,
) -> Result<(), Fail> {
    let ran = ends_behind(rt, alloc, "run", input, gate)?;
    let written = String::from_utf8(ran.output)?;
    let Some((steps, report)) = written.split_once("\nend\n") else {
        return Err(Fail::new("the steps have no end"));
    };
    let Some(trace) = input.strip_suffix("end\n") else {
        return Err(Fail::new("the trace has no end"));
    };
    let mut again = format!(in alloc; "{trace}{steps}\nend\n")?;
    let replayed = ends_behind(rt, alloc, "replay", &again, gate)?;
    again.push_str(report)?;
    let judged = ends_behind(rt, alloc, "check", &again, gate)?;
    let good = format!(in alloc; "flash check 1\nentries {operations}\nmissing 0\nend\n")?;
    let is_so = ran.code == 0
        && steps.starts_with("steps\n")
        && replayed.is(0, report, "")
        && judged.is(0, &good, "");
    if is_so {
        Ok(())
    } else {
        Err(Fail::new("the run isn't replayed to its report"))
    }
}

#[test]
fn replays(rt: HostRuntime) -> Result<(), Fail> {
    let alloc = rt.alloc();
    let gate = TurnGate::new(&rt, None);
    let generated = String::from_utf8(print_trace(alloc, &generate(alloc, 1000, 1)?)?)?;
    for (input, operations) in [(generated.as_str(), 1000), (EXCHANGED, 4), (SHARED, 64)] {
        replay(&rt, alloc, input, operations, &gate)?;
    }
    Ok(())
}
