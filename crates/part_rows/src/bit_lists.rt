//! The list of one line after the calls of the worked row on the pool of links.

ghost use Rattle.std.specs.Prelude.{◌≡◌, length};

use crate::agree::agree;
use crate::calls::{Call, make};
use bitvec_dir::{BitDir, Sharers};
use std::process::Abort;
use std::test::Fail;

// The nodes are handed out in order, and there are no others.
fn hands_out(rt: &impl Abort, row: usize, dir: &BitDir, want: &[u32])
    requires { length dir.now.lists ≡ 1 }
{
    let mut nodes = dir.listed(0);
    for node in want {
        agree(rt, row, "next node", nodes.next(), Some(*node));
    }
    agree(rt, row, "next node", nodes.next(), None);
}

// Each node stands at its place of the list.
fn has_places(rt: &impl Abort, row: usize, dir: &BitDir, want: &[u32])
    requires { length dir.now.lists ≡ 1 }
{
    assert!(rt; dir.count(0) as usize == want.len(), "row {row}: the count");
    for (i, node) in want.iter().enumerate() {
        agree(rt, row, "node at a place", dir.nth(0, i as u32), *node);
    }
}

// These nodes alone are listed, and none of the others would need a link.
fn contains(rt: &impl Abort, row: usize, dir: &BitDir, want: &[u32])
    requires lines { length dir.now.lists ≡ 1 }
    requires nodes { dir.now.nodes ≡ 64 }
{
    for node in 0..64 {
        agree(
            rt,
            row,
            "listed",
            dir.contains(0, node),
            want.contains(&node),
        );
        agree(rt, row, "needs a link", dir.needs_link(0, node), false);
    }
}

fn shows(rt: &impl Abort, row: usize, dir: &BitDir, want: &[u32])
    requires lines { length dir.now.lists ≡ 1 }
    requires nodes { dir.now.nodes ≡ 64 }
{
    hands_out(rt, row, dir, want);
    has_places(rt, row, dir, want);
    contains(rt, row, dir, want);
    agree(rt, row, "held", dir.holds(0), 0);
    agree(rt, row, "free", dir.free(), 4);
}

/// Each call, with the nodes that are listed after it.
const ROWS: [(Call, &[u32]); 18] = [
    (Call::Add(1, true), &[1]),
    (Call::Add(2, true), &[1, 2]),
    (Call::Add(3, true), &[1, 2, 3]),
    (Call::Add(4, true), &[1, 2, 3, 4]),
    (Call::Add(3, true), &[1, 2, 3, 4]),
    (Call::Remove(1, true), &[2, 3, 4]),
    (Call::Remove(3, true), &[2, 4]),
    (Call::Remove(2, true), &[4]),
    (Call::Remove(2, false), &[4]),
    (Call::Add(7, true), &[4, 7]),
    (Call::Add(8, true), &[4, 7, 8]),
    (Call::Add(9, true), &[4, 7, 8, 9]),
    (Call::Add(10, true), &[4, 7, 8, 9, 10]),
    // Here linked lists of four links have no room.
    (Call::Add(11, true), &[4, 7, 8, 9, 10, 11]),
    (Call::ClearTo(5), &[5]),
    (Call::Clear, &[]),
    (Call::Add(63, true), &[63]),
    (Call::Add(0, true), &[0, 63]),
];

#[test]
fn lists_are_bits(rt: HostRuntime) -> Result<(), Fail> {
    let mut dir = BitDir::new(rt.alloc(), 1, 64, 4)?;
    shows(&rt, 0, &dir, &[]);
    for (row, (call, listed)) in ROWS.iter().enumerate() {
        make(&rt, row, &mut dir, *call);
        shows(&rt, row, &dir, listed);
    }
    Ok(())
}
