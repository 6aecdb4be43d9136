//! The array of links, and walks along it.

ghost use Rattle.std.specs.Prelude.{◌≡◌, ◌+◌, ◌<◌, length, slice_index, ◌^◌, IfSome, IfOk, IsNone, ◌↔◌, false, map};
ghost use Rattle.std.specs.List.{range_with_len};
ghost use Rattle.link_store.specs.Entries.{Ends, IsLink, chain_from, IsFound, first_entry, first_start};
ghost use Rattle.link_store.specs.Pools.{links_of, has_node};

use std::alloc::{AllocError, Global};

/// Where a link leads.
#[derive(Clone, Copy)]
pub(crate) enum Next {
    Link(u32),
    /// The end of the free list.
    End,
    /// The header of the line with this number.
    Header(u32),
}

/// A link: its node, and where it leads.
#[derive(Clone, Copy)]
pub(crate) struct Entry {
    pub(crate) node: u32,
    pub(crate) next: Next,
}

/// Where a list of links begins, and how many it has.
#[derive(Clone, Copy)]
pub(crate) struct Start {
    pub(crate) first: Next,
    pub(crate) len: u32,
}

impl Start {
    /// Puts a link in front of the list, with this node. The entry is the link's.
    pub(crate) fn put_front(&mut self, link: u32, entry: &mut Entry, node: u32)
        requires { self.old.len + 1 < 2 ^ 32 }
        ensures entry { entry.new ≡ record { node = node; next = self.old.first } }
        ensures start { self.new ≡ record { first = Next.Link link; len = self.old.len + 1 } }
    {
        *entry = Entry {
            node,
            next: self.first,
        };
        self.first = Next::Link(link);
        self.len += 1;
    }
}

/// A link in a list, and the link before it where there is one.
#[derive(Clone, Copy)]
pub(crate) struct Found {
    pub(crate) before: Option<u32>,
    pub(crate) link: u32,
}

impl Next {
    fn link(self) -> u32
        requires { IsLink self }
        ensures { self ≡ Next.Link result }
    {
        match self {
            Next::Link(link) => link,
            Next::End | Next::Header(_) => unreachable!(),
        }
    }
}

/// The entries of so many links, all free, in the order of their numbers.
pub(crate) fn first_entries(alloc: Global, count: u32) -> Result<Vec<Entry>, AllocError>
    ensures { IfOk result (λ entries. entries.items ≡ map (first_entry count) (range_with_len 0 count)) }
{
    (0..count)
        .map(|link| Entry {
            node: 0,
            next: if link + 1 < count {
                Next::Link(link + 1)
            } else {
                Next::End
            },
        })
        .collect(alloc)
}

/// The starts of so many lines without links.
pub(crate) fn first_starts(alloc: Global, lines: u32) -> Result<Vec<Start>, AllocError>
    ensures { IfOk result (λ starts. starts.items ≡ map first_start (range_with_len 0 lines)) }
{
    (0..lines)
        .map(|m| Start {
            first: Next::Header(m),
            len: 0,
        })
        .collect(alloc)
}

/// The link at a place of a list, counted from 0.
pub(crate) fn link_at(entries: &[Entry], start: Start, i: u32) -> u32
    requires ends { Ends entries.now start }
    requires place { i < start.len }
    ensures below { result < length entries.now }
    ensures value { result ≡ slice_index (links_of (chain_from entries.now start)) i }
{
    let mut at = start.first;
    for _ in 0..i {
        at = entries[at.link() as usize].next;
    }
    at.link()
}

/// The first link of a list with a node, and the link before it.
pub(crate) fn find(entries: &[Entry], start: Start, node: u32) -> Option<Found>
    requires { Ends entries.now start }
    ensures none { IsNone result ↔ (has_node (chain_from entries.now start) node ≡ false) }
    ensures found { IfSome result (IsFound (chain_from entries.now start) node) }
{
    let mut before = None;
    let mut at = start.first;
    while let Next::Link(link) = at {
        let entry = entries[link as usize];
        if entry.node == node {
            return Some(Found { before, link });
        }
        before = Some(link);
        at = entry.next;
    }
    None
}
