//! Inputs at the limits of how many operations and how many bytes there may be.

use row_calls::ends;
use std::test::Fail;

/// The first lines of a trace on the smallest machine.
const HEADER: &str = "flash 1\nnodes 2\nlines 1\nwords 1\nlinks 1\nsets 1\npending 1\nevicts 1\n";

/// What an input begins with, what stands in it over and over, how often, and what it ends with; then the exit code, and what is told.
const LIMITS: [(&str, &str, usize, &str, u8, &str); 3] = [
    (HEADER, "0 L 0x0\n", 100_000, "end\n", 0, ""),
    (
        HEADER,
        "0 L 0x0\n",
        100_001,
        "end\n",
        2,
        "flash: more than 100000 operations\n",
    ),
    (
        "#",
        "################################################################",
        262_144,
        "",
        2,
        "flash: more than 16777216 bytes\n",
    ),
];

#[test]
fn limits(rt: HostRuntime) -> Result<(), Fail> {
    let alloc = rt.alloc();
    for (header, piece, times, last, code, told) in LIMITS.iter() {
        let mut input = String::from_str(alloc, header)?;
        input.push_str(&piece.repeat(alloc, *times)?)?;
        input.push_str(last)?;
        let ended = ends(alloc, "serial", input.as_bytes())?;
        assert!(rt;
            ended.code == *code
                && ended.told.as_slice() == told.as_bytes()
                && ended.output.is_empty() == (*code != 0),
            "{times} times"
        );
    }
    Ok(())
}
