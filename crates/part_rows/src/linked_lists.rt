//! A directory of one line and four links, one call after another.

ghost use Rattle.std.specs.Prelude.{◌≡◌, length};

use crate::agree::agree;
use crate::calls::{Call, make};
use op_model::NoMemory;
use sharer_dir::{LinkedDir, Sharers};
use std::alloc::Global;
use std::process::Abort;
use std::test::Fail;

fn reads(rt: &impl Abort, row: usize, text: Vec<u8>, wanted: &[u8]) {
    agree(rt, row, "text", text.as_slice(), wanted);
}

fn shows(
    rt: &impl Abort,
    alloc: Global,
    row: usize,
    dir: &LinkedDir,
    list: &[u8],
    free: &[u8],
) -> Result<(), NoMemory>
    requires { length dir.now.sets ≡ 1 }
{
    reads(rt, row, dir.line_text(alloc, 0)?, list);
    reads(rt, row, dir.free_text(alloc)?, free);
    Ok(())
}

/// Each call, with the list and the free links after it.
const ROWS: [(Call, &[u8], &[u8]); 16] = [
    (Call::Add(1, true), b"0 head 1 links", b"free 0 1 2 3"),
    (Call::Add(2, true), b"0 head 1 links 0:2", b"free 1 2 3"),
    (Call::Add(3, true), b"0 head 1 links 1:3 0:2", b"free 2 3"),
    (Call::Add(4, true), b"0 head 1 links 2:4 1:3 0:2", b"free 3"),
    (Call::Add(3, true), b"0 head 1 links 2:4 1:3 0:2", b"free 3"),
    (
        Call::Remove(1, true),
        b"0 head 4 links 1:3 0:2",
        b"free 2 3",
    ),
    (Call::Remove(3, true), b"0 head 4 links 0:2", b"free 1 2 3"),
    (Call::Remove(2, true), b"0 head 4 links", b"free 0 1 2 3"),
    (Call::Remove(2, false), b"0 head 4 links", b"free 0 1 2 3"),
    (Call::Add(7, true), b"0 head 4 links 0:7", b"free 1 2 3"),
    (Call::Add(8, true), b"0 head 4 links 1:8 0:7", b"free 2 3"),
    (Call::Add(9, true), b"0 head 4 links 2:9 1:8 0:7", b"free 3"),
    (
        Call::Add(10, true),
        b"0 head 4 links 3:10 2:9 1:8 0:7",
        b"free",
    ),
    (
        Call::Add(11, false),
        b"0 head 4 links 3:10 2:9 1:8 0:7",
        b"free",
    ),
    (Call::ClearTo(5), b"0 head 5 links", b"free 0 1 2 3"),
    (Call::Clear, b"0 head - links", b"free 0 1 2 3"),
];

#[test]
fn lists_are_linked(rt: HostRuntime) -> Result<(), Fail> {
    let mut dir = LinkedDir::new(rt.alloc(), 1, 4)?;
    assert!(rt; dir.lines() == 1);
    shows(&rt, rt.alloc(), 0, &dir, b"0 head - links", b"free 0 1 2 3")?;
    for (row, (call, list, free)) in ROWS.iter().enumerate() {
        make(&rt, row, &mut dir, *call);
        shows(&rt, rt.alloc(), row, &dir, list, free)?;
    }
    Ok(())
}
