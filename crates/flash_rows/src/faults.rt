//! Inputs that are cut short, and devices that fail.

use row_calls::{NEVER, call, ends};
use std::test::Fail;

/// A store at home, and a load of it elsewhere, in 88 bytes.
const INPUT: &str =
    "flash 1\nnodes 2\nlines 1\nwords 1\nlinks 1\nsets 1\npending 1\nevicts 1\n0 S 0x0 7\n1 L 0x0\nend\n";

/// Its report, in 197 bytes.
const OUTPUT: &str =
    "flash report 1\nhistory 2\n0 0 S 0x0 7\n1 0 L 0x0 7\nlines 1\n0 local clean idle 1\nhomes 2\n0 pending 0 held 0 free 1\n1 pending 0 held 0 free 1\ncounts\nevents 4\nissues 2\nlocal 1\ntake-get 1\ntake-put 1\nend\n";

/// The least and the greatest number of bytes that the input is cut after, the exit code, and what is told. Every number in the input has one digit, so that no cut leaves another good line.
const CUTS: [(usize, usize, u8, &str); 23] = [
    (0, 0, 2, "flash: line 1: NoEnd\n"),
    (1, 6, 2, "flash: line 1: Shape\n"),
    (7, 8, 2, "flash: line 2: NoEnd\n"),
    (9, 14, 2, "flash: line 2: Shape\n"),
    (15, 16, 2, "flash: line 3: NoEnd\n"),
    (17, 22, 2, "flash: line 3: Shape\n"),
    (23, 24, 2, "flash: line 4: NoEnd\n"),
    (25, 30, 2, "flash: line 4: Shape\n"),
    (31, 32, 2, "flash: line 5: NoEnd\n"),
    (33, 38, 2, "flash: line 5: Shape\n"),
    (39, 40, 2, "flash: line 6: NoEnd\n"),
    (41, 45, 2, "flash: line 6: Shape\n"),
    (46, 47, 2, "flash: line 7: NoEnd\n"),
    (48, 55, 2, "flash: line 7: Shape\n"),
    (56, 57, 2, "flash: line 8: NoEnd\n"),
    (58, 64, 2, "flash: line 8: Shape\n"),
    (65, 66, 2, "flash: line 9: NoEnd\n"),
    (67, 74, 2, "flash: line 9: Shape\n"),
    (75, 76, 2, "flash: line 10: NoEnd\n"),
    (77, 82, 2, "flash: line 10: Shape\n"),
    (83, 84, 2, "flash: line 11: NoEnd\n"),
    (85, 86, 2, "flash: line 11: Shape\n"),
    (87, 88, 0, ""),
];

#[test]
fn cuts(rt: HostRuntime) -> Result<(), Fail> {
    for (first, last, code, told) in CUTS.iter() {
        for count in *first..=*last {
            let input = INPUT.get(..count).unwrap_or("");
            let output = if *code == 0 { OUTPUT } else { "" };
            let ended = ends(rt.alloc(), "serial", input.as_bytes())?;
            assert!(rt; ended.is(*code, output, told), "cut after {count} bytes");
        }
    }
    Ok(())
}

/// The command, and which read, which write and which write of a fault's text fails; then the exit code, how many bytes of the report are written, what is told, and how many reads there were.
const FAULTS: [(&str, [u64; 3], u8, usize, &str, u64); 39] = [
    ("serial", [0, NEVER, NEVER], 3, 0, "flash: read fault\n", 1),
    ("serial", [1, NEVER, NEVER], 3, 0, "flash: read fault\n", 2),
    ("serial", [2, NEVER, NEVER], 3, 0, "flash: read fault\n", 3),
    ("serial", [3, NEVER, NEVER], 3, 0, "flash: read fault\n", 4),
    ("serial", [4, NEVER, NEVER], 3, 0, "flash: read fault\n", 5),
    ("serial", [5, NEVER, NEVER], 3, 0, "flash: read fault\n", 6),
    ("serial", [6, NEVER, NEVER], 3, 0, "flash: read fault\n", 7),
    ("serial", [7, NEVER, NEVER], 3, 0, "flash: read fault\n", 8),
    ("serial", [8, NEVER, NEVER], 3, 0, "flash: read fault\n", 9),
    ("serial", [9, NEVER, NEVER], 3, 0, "flash: read fault\n", 10),
    ("serial", [10, NEVER, NEVER], 0, 197, "", 10),
    (
        "serial",
        [NEVER, 0, NEVER],
        4,
        0,
        "flash: write fault\n",
        10,
    ),
    (
        "serial",
        [NEVER, 1, NEVER],
        4,
        10,
        "flash: write fault\n",
        10,
    ),
    (
        "serial",
        [NEVER, 2, NEVER],
        4,
        20,
        "flash: write fault\n",
        10,
    ),
    (
        "serial",
        [NEVER, 3, NEVER],
        4,
        30,
        "flash: write fault\n",
        10,
    ),
    (
        "serial",
        [NEVER, 4, NEVER],
        4,
        40,
        "flash: write fault\n",
        10,
    ),
    (
        "serial",
        [NEVER, 5, NEVER],
        4,
        50,
        "flash: write fault\n",
        10,
    ),
    (
        "serial",
        [NEVER, 6, NEVER],
        4,
        60,
        "flash: write fault\n",
        10,
    ),
    (
        "serial",
        [NEVER, 7, NEVER],
        4,
        70,
        "flash: write fault\n",
        10,
    ),
    (
        "serial",
        [NEVER, 8, NEVER],
        4,
        80,
        "flash: write fault\n",
        10,
    ),
    (
        "serial",
        [NEVER, 9, NEVER],
        4,
        90,
        "flash: write fault\n",
        10,
    ),
    (
        "serial",
        [NEVER, 10, NEVER],
        4,
        100,
        "flash: write fault\n",
        10,
    ),
    (
        "serial",
        [NEVER, 11, NEVER],
        4,
        110,
        "flash: write fault\n",
        10,
    ),
    (
        "serial",
        [NEVER, 12, NEVER],
        4,
        120,
        "flash: write fault\n",
        10,
    ),
    (
        "serial",
        [NEVER, 13, NEVER],
        4,
        130,
        "flash: write fault\n",
        10,
    ),
    (
        "serial",
        [NEVER, 14, NEVER],
        4,
        140,
        "flash: write fault\n",
        10,
    ),
    (
        "serial",
        [NEVER, 15, NEVER],
        4,
        150,
        "flash: write fault\n",
        10,
    ),
    (
        "serial",
        [NEVER, 16, NEVER],
        4,
        160,
        "flash: write fault\n",
        10,
    ),
    (
        "serial",
        [NEVER, 17, NEVER],
        4,
        170,
        "flash: write fault\n",
        10,
    ),
    (
        "serial",
        [NEVER, 18, NEVER],
        4,
        180,
        "flash: write fault\n",
        10,
    ),
    (
        "serial",
        [NEVER, 19, NEVER],
        4,
        190,
        "flash: write fault\n",
        10,
    ),
    ("serial", [NEVER, 20, NEVER], 0, 197, "", 10),
    ("serial", [0, NEVER, 0], 3, 0, "", 1),
    ("serial", [0, NEVER, 1], 3, 0, "flash: rea", 1),
    ("nothing", [NEVER, NEVER, 0], 1, 0, "", 0),
    ("nothing", [NEVER, NEVER, 1], 1, 0, "flash: usa", 0),
    (
        "nothing",
        [NEVER, NEVER, 2],
        1,
        0,
        "flash: usage: serial",
        0,
    ),
    (
        "nothing",
        [NEVER, NEVER, 3],
        1,
        0,
        "flash: usage: serial, seeded S",
        0,
    ),
    (
        "nothing",
        [NEVER, NEVER, 4],
        1,
        0,
        "flash: usage: serial, seeded S, replay, ",
        0,
    ),
];

#[test]
fn failing_devices(rt: HostRuntime) -> Result<(), Fail> {
    for (words, fails, code, written, told, reads) in FAULTS.iter() {
        let output = OUTPUT.get(..*written).unwrap_or("");
        let ended = call(rt.alloc(), words, INPUT.as_bytes(), 10, fails)?;
        let is_so = ended.is(*code, output, told) && ended.reads == *reads;
        assert!(rt; is_so, "{words}, where {fails:?} fail");
    }
    Ok(())
}
