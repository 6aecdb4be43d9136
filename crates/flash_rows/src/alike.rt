//! Inputs for which the same is written, and reports that are judged by the program that printed them.

use row_calls::ends;
use std::test::Fail;

/// A store at node 0 and a load of the same word at node 1, in eleven lines.
const PLAIN: &str =
    "flash 1\nnodes 2\nlines 1\nwords 1\nlinks 1\nsets 1\npending 1\nevicts 1\n0 S 0x0 7\n1 L 0x0\nend\n";

/// The same in lines that end in a return, with an empty line, and a comment behind the end.
const RETURNS: &str =
    "flash 1\r\n\r\nnodes 2\r\nlines 1\r\nwords 1\r\nlinks 1\r\nsets 1\r\npending 1\r\nevicts 1\r\n0 S 0x0 7\r\n1 L 0x0\r\nend\r\n# test";

/// Two loads of the same two words at each of two nodes.
const LOADS: &str =
    "flash 1\nnodes 3\nlines 2\nwords 1\nlinks 1\nsets 2\npending 1\nevicts 1\n1 L 0x0\n2 L 0x0\n1 L 0x8\n2 L 0x8\nend\n";

/// Operations of all four kinds on two of four words, in fourteen lines.
const MIXED: &str =
    "flash 2\nnodes 2\nlines 1\nwords 2\nlinks 1\nsets 1\npending 1\nevicts 1\n0 A 0x0 5\n1 A 0x0 7\n0 X 0x8 1\n1 L 0x8\n0 S 0x0 2\nend\n";

/// The command and two inputs; then how the output for both begins, how many loads of 0 it has, and how often the first is read.
const PAIRS: [(&str, &str, &str, &str, usize, u64); 4] = [
    (
        "serial",
        PLAIN,
        RETURNS,
        "flash report 1\nhistory 2\n",
        0,
        2,
    ),
    (
        "seeded 1",
        LOADS,
        LOADS,
        "flash report 1\nhistory 4\n",
        4,
        2,
    ),
    (
        "seeded 2",
        LOADS,
        LOADS,
        "flash report 1\nhistory 4\n",
        4,
        2,
    ),
    (
        "gen 2000 1",
        "",
        "ignored",
        "flash gen 1\noperations 2000\n",
        0,
        0,
    ),
];

#[test]
fn pairs(rt: HostRuntime) -> Result<(), Fail> {
    let alloc = rt.alloc();
    for (words, input, other, beginning, loads, reads) in PAIRS.iter() {
        let ended = ends(alloc, words, input.as_bytes())?;
        let again = ends(alloc, words, other.as_bytes())?;
        let output = String::from_utf8(ended.output)?;
        let found = output
            .lines()
            .filter(|line| line.contains(" L ") && line.ends_with(" 0"))
            .count();
        assert!(rt;
            output.starts_with(*beginning) && found == *loads,
            "at {words}"
        );
        assert!(rt;
            again.is(0, &output, "") && ended.code == 0 && ended.reads == *reads,
            "at {words}"
        );
    }
    Ok(())
}

/// What the program itself prints for a trace is good, and has an entry for each operation.
const JUDGED: [(&str, &str); 2] = [
    (PLAIN, "flash check 1\nentries 2\nmissing 0\nend\n"),
    (MIXED, "flash check 1\nentries 5\nmissing 0\nend\n"),
];

#[test]
fn own_reports(rt: HostRuntime) -> Result<(), Fail> {
    let alloc = rt.alloc();
    for (trace, judgement) in JUDGED.iter() {
        for words in ["serial", "seeded 1", "seeded 2"].iter() {
            let report = ends(alloc, words, trace.as_bytes())?;
            let mut input = trace.as_bytes().to_vec(alloc)?;
            input.extend_from_slice(&report.output)?;
            let ended = ends(alloc, "check", &input)?;
            assert!(rt; ended.is(0, judgement, ""), "at {words}");
        }
    }
    Ok(())
}
