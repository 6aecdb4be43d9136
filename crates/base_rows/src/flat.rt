//! Entries on a flat memory, refused ones included.

use op_model::{Entry, Flat, Kind, is_legal};
use std::test::Fail;

/// Histories, and whether each is legal.
const HISTORIES: [(&str, &[Entry], bool); 4] = [
    (
        "a load of nothing",
        &[Entry {
            node: 0,
            index: 0,
            kind: Kind::Load,
            word: 3,
            value: 5,
            old: 0,
        }],
        false,
    ),
    (
        "a load of what was stored",
        &[
            Entry {
                node: 0,
                index: 0,
                kind: Kind::Store,
                word: 3,
                value: 5,
                old: 0,
            },
            Entry {
                node: 0,
                index: 0,
                kind: Kind::Load,
                word: 3,
                value: 5,
                old: 0,
            },
        ],
        true,
    ),
    (
        "sums and an exchange",
        &[
            Entry {
                node: 0,
                index: 0,
                kind: Kind::Add,
                word: 0,
                value: 5,
                old: 0,
            },
            Entry {
                node: 0,
                index: 0,
                kind: Kind::Add,
                word: 0,
                value: 7,
                old: 5,
            },
            Entry {
                node: 0,
                index: 0,
                kind: Kind::Swap,
                word: 0,
                value: 1,
                old: 12,
            },
            Entry {
                node: 0,
                index: 0,
                kind: Kind::Load,
                word: 0,
                value: 1,
                old: 0,
            },
        ],
        true,
    ),
    (
        "a sum that wraps",
        &[
            Entry {
                node: 0,
                index: 0,
                kind: Kind::Store,
                word: 0,
                value: 18446744073709551615,
                old: 0,
            },
            Entry {
                node: 0,
                index: 0,
                kind: Kind::Add,
                word: 0,
                value: 1,
                old: 18446744073709551615,
            },
            Entry {
                node: 0,
                index: 0,
                kind: Kind::Load,
                word: 0,
                value: 0,
                old: 0,
            },
        ],
        true,
    ),
];

#[test]
fn histories(rt: HostRuntime) -> Result<(), Fail> {
    for (title, entries, legal) in &HISTORIES {
        assert!(rt; is_legal(rt.alloc(), entries)? == *legal, "{title}");
    }
    Ok(())
}

/// An exchange whose old value is wrong, and a load of what it left.
const REFUSED: Entry = Entry {
    node: 0,
    index: 0,
    kind: Kind::Swap,
    word: 2,
    value: 9,
    old: 4,
};

const DONE: Entry = Entry {
    node: 0,
    index: 0,
    kind: Kind::Load,
    word: 2,
    value: 9,
    old: 0,
};

#[test]
fn refused_entry_is_done(rt: HostRuntime) -> Result<(), Fail> {
    let mut flat = Flat::empty(rt.alloc());
    assert!(rt; !flat.apply(&REFUSED)?);
    assert!(rt; flat.apply(&DONE)?);
    Ok(())
}
