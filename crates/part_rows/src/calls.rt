//! Calls that change the list of one line.

ghost use Rattle.std.specs.Prelude.{◌≡◌, ◌≤◌, ◌<◌, length};

use crate::agree::agree;
use dir_header::Sharers;
use std::process::Abort;

#[derive(Clone, Copy)]
pub(crate) enum Call {
    /// Answers whether there was room.
    Add(u32, bool),
    /// Answers whether the node was listed.
    Remove(u32, bool),
    ClearTo(u32),
    Clear,
}

/// Makes the call of a row on the only line of a directory.
pub(crate) fn make<D: Sharers>(rt: &impl Abort, row: usize, dir: &mut D, call: Call)
    requires line { length (D.directory dir.old).lists ≡ 1 }
    requires nodes { (D.directory dir.old).nodes ≡ 64 }
    ensures line { length (D.directory dir.new).lists ≡ 1 }
    ensures nodes { (D.directory dir.new).nodes ≡ 64 }
{
    match call {
        Call::Add(node, room) => {
            assert!(rt; node < 64);
            agree(rt, row, "room", dir.add(0, node).is_ok(), room);
        }
        Call::Remove(node, was) => {
            assert!(rt; node < 64);
            agree(rt, row, "listed", dir.remove(0, node), was);
        }
        Call::ClearTo(node) => {
            assert!(rt; node < 64);
            dir.clear_to(0, Some(node));
        }
        Call::Clear => dir.clear_to(0, None),
    }
    agree(rt, row, "lines", dir.lines(), 1);
}
