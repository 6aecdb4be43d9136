//! The directory whose lists are linked.

ghost use Rattle.std.specs.Prelude.{◌≡◌, ℕ, false, ◌<◌, ◌↔◌, ◌⊎◌, length, slice_index, IfOk, IfSome, IsErr, IsNone, IsTrue, OnOk, OnErr, Contains};
ghost use Rattle.op_model.specs.Nodes.{listed, enlist, unlist};
ghost use Rattle.link_store.specs.Pools.{IsLinkOf, IsPartition, chain_of};
ghost use Rattle.dir_header.specs.Sharers.{with_list, list_at, only_this, needs_link as needs_link_in, free_in, held_by, IsDirectory, Linked, Unlinked};
ghost use Rattle.sharer_dir.specs.Texts.{list_text, free_list_text};
ghost use Rattle.sharer_dir.specs.Linked.{IsLinkedDir, linked_directory, first_linked, after_add, after_remove, after_clear, emptied, head_at, line_with};

use crate::text::{put_free, put_list};
use dir_header::{Listed, NoRoom, PlainDir, Sharers};
use line_map::MOST_NODES;
use link_store::Links;
use op_model::NoMemory;
use std::alloc::Global;
use std::marker::Model;

/// A directory of nodes below 64 whose lists cost links. The first node of a list stands in the line's record as its head, each other one in a link of one pool; beside them stands the set of each list, in which a node is looked up. It is seen as the heads, the pool and these sets. Only `new` takes memory.
#[derive(Drop)]
pub struct LinkedDir {
    heads: Vec<Option<u32>>,
    links: Links,
    sets: PlainDir,
}

impl Model for LinkedDir {
    ghost use Rattle.sharer_dir.specs.Linked.{LinkedView, linked_code};

    ghost Value = { LinkedView };

    ghost coded = { linked_code };

    ghost use Rattle.sharer_dir.specs.Kept.{linked_view, IsKept};

    ghost view = { λ d. linked_view d.heads.items d.links d.sets };

    ghost invariant = { λ d. IsKept d.heads.items d.links d.sets };
}

impl LinkedDir {
    /// A directory of so many lines, all of whose lists are empty, with so many links, all free in the order of their numbers.
    pub fn new(alloc: Global, lines: u32, links: u32) -> Result<LinkedDir, NoMemory>
        ensures value { IfOk result (λ dir. dir ≡ first_linked lines links) }
        ensures kept { IfOk result IsLinkedDir }
    {
        let Ok(heads) = vec![in alloc; None; lines as usize] else {
            return Err(NoMemory);
        };
        Ok(LinkedDir {
            heads,
            links: Links::new(alloc, lines, links)?,
            sets: PlainDir::new(alloc, lines, MOST_NODES as u32, links)?,
        })
    }

    /// The line's number, the head of its list and each link with its node, from the first one on, as in `0 head 1 links 2:4 1:3`. An empty list has the head `-`. There is no line's end.
    pub fn line_text(&self, alloc: Global, m: u32) -> Result<Vec<u8>, NoMemory>
        requires { m < length self.now.sets }
        ensures { IfOk result (λ text. text.items ≡ list_text m (head_at self.now m) (chain_of self.now.pool m)) }
    {
        let mut out = Vec::new(alloc);
        put_list(&mut out, &self.links, m, self.heads[m as usize])?;
        Ok(out)
    }

    /// The free links in their order, as in `free 3 0`. There is no line's end.
    pub fn free_text(&self, alloc: Global) -> Result<Vec<u8>, NoMemory>
        ensures { IfOk result (λ text. text.items ≡ free_list_text self.now.pool.free) }
    {
        let mut out = Vec::new(alloc);
        put_free(&mut out, &self.links)?;
        Ok(out)
    }
}

// The links of a line become free one by one, from the first one on.
fn free_chain(links: &mut Links, m: u32)
    requires { m < length links.old.chains }
    ensures after { links.new ≡ emptied (chain_of links.old m) links.old m }
    ensures partition { IsPartition links.new }
{
    while links.pop_front(m).is_some() {}
}

impl Sharers for LinkedDir {
    ghost directory = { linked_directory };

    ghost link_line = { line_with };

    ghost is_sound = { IsLinkedDir };

    fn lines(&self) -> u32
        ensures value { result ≡ length self.now.sets }
        ensures kept { IsDirectory (linked_directory self.now) }
        ensures sound { IsLinkedDir self.now }
    {
        self.sets.lines()
    }

    fn contains(&self, m: u32, node: u32) -> bool {
        self.sets.contains(m, node)
    }

    fn count(&self, m: u32) -> u32 {
        self.sets.count(m)
    }

    fn nth(&self, m: u32, i: u32) -> u32 {
        self.sets.nth(m, i)
    }

    fn listed(&self, m: u32) -> Listed {
        self.sets.listed(m)
    }

    fn holds(&self, m: u32) -> u32 {
        self.links.len(m)
    }

    fn free(&self) -> u32 {
        self.links.free_count()
    }

    fn needs_link(&self, m: u32, node: u32) -> bool {
        self.heads[m as usize].is_some() && !self.sets.contains(m, node)
    }

    fn add(&mut self, m: u32, node: u32) -> Result<(), NoRoom>
        requires line { m < length self.old.sets }
        requires bound { node < 64 }
        ensures room { IsErr result ↔ (IsTrue (needs_link_in (linked_directory self.old) m node) × (free_in (linked_directory self.old) ≡ 0)) }
        ensures ok { OnOk result (linked_directory self.new ≡ with_list (linked_directory self.old) m (enlist (list_at (linked_directory self.old) m) node)) }
        ensures err { OnErr result (self.new ≡ self.old) }
        ensures links { self.new ≡ after_add self.old m node }
        ensures kept { IsLinkedDir self.new }
    {
        if self.sets.contains(m, node) {
            return Ok(());
        }
        if self.heads[m as usize].is_none() {
            self.heads[m as usize] = Some(node);
        } else if self.links.put_front(m, node).is_err() {
            return Err(NoRoom);
        }
        self.sets.add(m, node)
    }

    fn remove(&mut self, m: u32, node: u32) -> bool
        requires line { m < length self.old.sets }
        requires bound { node < 64 }
        ensures was { result ≡ listed (list_at (linked_directory self.old) m) node }
        ensures after { linked_directory self.new ≡ with_list (linked_directory self.old) m (unlist (list_at (linked_directory self.old) m) node) }
        ensures unchanged { result ≡ false → self.new ≡ self.old }
        ensures links { self.new ≡ after_remove self.old m node }
        ensures kept { IsLinkedDir self.new }
    {
        if !self.sets.contains(m, node) {
            return false;
        }
        if self.heads[m as usize] == Some(node) {
            self.heads[m as usize] = self.links.pop_front(m);
        } else {
            self.links.unlink(m, node);
        }
        self.sets.remove(m, node)
    }

    fn clear_to(&mut self, m: u32, only: Option<u32>)
        requires line { m < length self.old.sets }
        requires bound { IfSome only (λ node. node < 64) }
        ensures after { linked_directory self.new ≡ with_list (linked_directory self.old) m (only_this only) }
        ensures links { self.new ≡ after_clear self.old m only }
        ensures kept { IsLinkedDir self.new }
    {
        free_chain(&mut self.links, m);
        self.heads[m as usize] = only;
        self.sets.clear_to(m, only);
    }

    fn line_of_link(&self, link: u32) -> Option<u32>
        requires { link < self.now.pool.count }
        ensures found { result ≡ line_with self.now link }
        ensures holds { IfSome result (λ m. (m < length self.now.sets) × (0 < held_by Linked (list_at (linked_directory self.now) m))) }
        ensures free { IsNone result → (0 < free_in (linked_directory self.now)) ⊎ (Linked ≡ Unlinked) }
        ensures line { (m : ℕ) → (result ≡ Some m) ↔ IsLinkOf self.now.pool link m }
        ensures unused { IsNone result ↔ Contains self.now.pool.free link }
    {
        self.links.home_line(link)
    }
}
