//! The limits of a machine's sizes and the address map, on values from the description of the machine.

use crate::agree::agree;
use line_map::{BadAddr, Body, Field, Machine, OutOfRange};
use std::test::Fail;

type Sizes = (u64, u64, u64, u64, u64, u64, u64);

/// Sizes that are one out of range, and the size that is refused.
const REFUSED: [(Sizes, Field, u64); 8] = [
    ((1, 1, 1, 1, 1, 1, 1), Field::Nodes, 1),
    ((65, 0, 1, 1, 1, 1, 1), Field::Nodes, 65),
    ((2, 4097, 1, 1, 1, 1, 1), Field::Lines, 4097),
    ((2, 1, 3, 1, 1, 1, 1), Field::Words, 3),
    ((2, 1, 1, 65536, 1, 1, 1), Field::Links, 65536),
    ((2, 1, 1, 1, 1025, 1, 1), Field::Sets, 1025),
    ((2, 1, 1, 1, 1, 65, 1), Field::Pending, 65),
    ((2, 1, 1, 1, 1, 1, 17), Field::Evicts, 17),
];

fn machine_of(sizes: Sizes) -> Result<Machine, OutOfRange> {
    let (nodes, lines, words, links, sets, pending, evicts) = sizes;
    Machine::new(nodes, lines, words, links, sets, pending, evicts)
}

#[test]
fn sizes(rt: HostRuntime) {
    for (row, (sizes, field, value)) in REFUSED.iter().enumerate() {
        match machine_of(*sizes) {
            Ok(_) => panic!(rt; "row {row}: no size is refused"),
            Err(error) => {
                agree(&rt, row, "field", error.field, *field);
                agree(&rt, row, "value", error.value, *value);
            }
        }
    }
}

#[test]
fn addresses(rt: HostRuntime) -> Result<(), Fail> {
    let Ok(machine) = machine_of((2, 2, 2, 1, 3, 1, 1)) else {
        return Err(Fail::new("refused"));
    };
    assert!(rt; matches!(machine.check_addr(0x14), Err(BadAddr::Unaligned)));
    assert!(rt; matches!(machine.check_addr(0x40), Err(BadAddr::PastEnd)));
    let Ok(last) = machine.check_addr(0x38) else {
        return Err(Fail::new("refused"));
    };
    assert!(rt; last.word() == 7);
    assert!(rt; machine.word_of(last) == 1);
    let line = machine.line_of(last);
    assert!(rt; line == 3);
    assert!(rt; machine.home_of(line) == 1);
    assert!(rt; machine.set_of(line) == 0);
    Ok(())
}

#[test]
fn bodies(rt: HostRuntime) {
    let mut body = Body::zeros(2);
    body.put(1, 9);
    assert!(rt; body.get(0) == 0);
    assert!(rt; body.get(1) == 9);
}
