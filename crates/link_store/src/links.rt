//! The pool of links.

ghost use Rattle.std.specs.Prelude.{◌≡◌, ℕ, ◌<◌, ◌↔◌, [], length, slice_index, slice_get, Contains, IsErr, IsNone, IfOk, IfSome, OnErr, MatchResult};
ghost use Rattle.link_store.specs.Pools.{IsPartition, IsLinkOf, chain_of, links_of, nodes_of, has_node, first_pool, after_put, first_node, after_pop, link_with, after_unlink};

use crate::entries::{Entry, Next, Start, find, first_entries, first_starts, link_at};
use op_model::NoMemory;
use std::alloc::Global;
use std::marker::Model;

/// No link is free.
#[derive(Clone, Copy, Debug, PartialEq, Eq)]
pub struct NoneFree;

/// The links of one node, seen as the chain of each line, a list of links with their nodes, and the list of free links. Each link stands in one of these. Only `new` takes memory.
#[derive(Drop)]
pub struct Links {
    entries: Vec<Entry>,
    lines: Vec<Start>,
    free: Start,
}

impl Model for Links {
    ghost use Rattle.link_store.specs.Pools.{Pool};

    ghost Value = { Pool };

    ghost use Rattle.link_store.specs.Entries.{pool_in, IsPool};

    ghost view = { λ links. pool_in links.entries.items links.lines.items links.free };

    ghost invariant = { λ links. IsPool links.entries.items links.lines.items links.free };
}

impl Links {
    /// A pool of so many links, all free, in the order of their numbers, for so many lines.
    pub fn new(alloc: Global, lines: u32, count: u32) -> Result<Links, NoMemory>
        ensures value { IfOk result (λ links. links ≡ first_pool lines count) }
        ensures partition { IfOk result IsPartition }
    {
        let Ok(entries) = first_entries(alloc, count) else {
            return Err(NoMemory);
        };
        let Ok(lines) = first_starts(alloc, lines) else {
            return Err(NoMemory);
        };
        let first = if count > 0 { Next::Link(0) } else { Next::End };
        Ok(Links {
            entries,
            lines,
            free: Start { first, len: count },
        })
    }

    /// Puts the first free link in front of a line's chain, with this node, and answers the link.
    pub fn put_front(&mut self, m: u32, node: u32) -> Result<u32, NoneFree>
        requires { m < length self.old.chains }
        ensures value { MatchResult result (λ link. slice_get self.old.free 0 ≡ Some link) (λ _. self.old.free ≡ []) }
        ensures after { self.new ≡ after_put self.old m node self.old.free }
        ensures partition { IsPartition self.new }
    {
        let Next::Link(link) = self.free.first else {
            return Err(NoneFree);
        };
        self.free = Start {
            first: self.entries[link as usize].next,
            len: self.free.len - 1,
        };
        let taken = &mut self.entries[link as usize];
        self.lines[m as usize].put_front(link, taken, node);
        Ok(link)
    }

    /// Takes the first link out of a line's chain, and answers its node.
    pub fn pop_front(&mut self, m: u32) -> Option<u32>
        requires { m < length self.old.chains }
        ensures value { result ≡ first_node (chain_of self.old m) }
        ensures after { self.new ≡ after_pop self.old m (chain_of self.old m) }
        ensures partition { IsPartition self.new }
    {
        let start = self.lines[m as usize];
        let Next::Link(link) = start.first else {
            return None;
        };
        let entry = self.entries[link as usize];
        self.lines[m as usize] = Start {
            first: entry.next,
            len: start.len - 1,
        };
        let taken = &mut self.entries[link as usize];
        self.free.put_front(link, taken, entry.node);
        Some(entry.node)
    }

    /// Takes the first link with this node out of a line's chain, and answers whether there was one.
    pub fn unlink(&mut self, m: u32, node: u32) -> bool
        requires { m < length self.old.chains }
        ensures value { result ≡ has_node (chain_of self.old m) node }
        ensures after { self.new ≡ after_unlink self.old m node (link_with (chain_of self.old m) node) }
        ensures partition { IsPartition self.new }
    {
        let start = self.lines[m as usize];
        let Some(found) = find(&self.entries, start, node) else {
            return false;
        };
        let next = self.entries[found.link as usize].next;
        let first = match found.before {
            None => next,
            Some(before) => {
                self.entries[before as usize].next = next;
                start.first
            }
        };
        self.lines[m as usize] = Start {
            first,
            len: start.len - 1,
        };
        let taken = &mut self.entries[found.link as usize];
        self.free.put_front(found.link, taken, node);
        true
    }

    /// The line in whose chain a link stands, found by walking from the link to a header; none where the link is free.
    pub fn home_line(&self, link: u32) -> Option<u32>
        requires { link < self.now.count }
        ensures line { (m : ℕ) → (result ≡ Some m) ↔ IsLinkOf self.now link m }
        ensures free { IsNone result ↔ Contains self.now.free link }
    {
        let mut at = Next::Link(link);
        while let Next::Link(next) = at {
            at = self.entries[next as usize].next;
        }
        match at {
            Next::Header(m) => Some(m),
            Next::Link(_) | Next::End => None,
        }
    }

    /// How many links a line's chain has.
    pub fn len(&self, m: u32) -> u32
        requires { m < length self.now.chains }
        ensures value { result ≡ length (chain_of self.now m) }
        ensures partition { IsPartition self.now }
    {
        self.lines[m as usize].len
    }

    /// The link at a place of a line's chain, counted from 0.
    pub fn link_at(&self, m: u32, i: u32) -> u32
        requires line { m < length self.now.chains }
        requires place { i < length (chain_of self.now m) }
        ensures { result ≡ slice_index (links_of (chain_of self.now m)) i }
    {
        link_at(&self.entries, self.lines[m as usize], i)
    }

    /// The node at a place of a line's chain, counted from 0.
    pub fn node_at(&self, m: u32, i: u32) -> u32
        requires line { m < length self.now.chains }
        requires place { i < length (chain_of self.now m) }
        ensures { result ≡ slice_index (nodes_of (chain_of self.now m)) i }
    {
        let link = link_at(&self.entries, self.lines[m as usize], i);
        self.entries[link as usize].node
    }

    /// How many links are free.
    pub fn free_count(&self) -> u32
        ensures value { result ≡ length self.now.free }
        ensures partition { IsPartition self.now }
    {
        self.free.len
    }

    /// The link at a place of the free list, counted from 0.
    pub fn free_at(&self, i: u32) -> u32
        requires { i < length self.now.free }
        ensures { result ≡ slice_index self.now.free i }
    {
        link_at(&self.entries, self.free, i)
    }
}
