//! A directory whose lists cost no links.

ghost use Rattle.std.specs.Prelude.{◌≡◌, ◌≤◌, None, IfOk, replicate};
ghost use Rattle.op_model.specs.Nodes.{none};
ghost use Rattle.dir_header.specs.Plain.{plain_directory};
ghost use Rattle.dir_header.specs.Sharers.{IsDirectory};

use crate::listed::Listed;
use crate::sharers::{NoRoom, Sharers};
use crate::words;
use op_model::NoMemory;
use std::alloc::Global;
use std::marker::Model;

/// A directory that keeps the list of each line as the bits of a word. Its lists hold no links: all links stay free.
#[derive(Drop)]
pub struct PlainDir {
    lists: Vec<u64>,
    nodes: u32,
    links: u32,
}

impl Model for PlainDir {
    ghost use Rattle.dir_header.specs.Plain.{PlainView, plain_view, IsPlain};
    ghost use Rattle.dir_header.specs.Codes.{plain_code};

    ghost Value = { PlainView };

    ghost coded = { plain_code };

    ghost view = { λ d. plain_view d.lists.items d.links d.nodes };

    ghost invariant = { λ d. IsPlain d.lists.items d.links d.nodes };
}

impl PlainDir {
    /// A directory of so many lines, all of whose lists are empty, for the nodes below `nodes`, at most 64.
    pub fn new(alloc: Global, lines: u32, nodes: u32, links: u32) -> Result<PlainDir, NoMemory>
        requires { nodes ≤ 64 }
        ensures { IfOk result (λ dir. dir ≡ record { lists = replicate lines none; links = links; nodes = nodes }) }
    {
        let Ok(lists) = vec![in alloc; 0; lines as usize] else {
            return Err(NoMemory);
        };
        Ok(PlainDir {
            lists,
            nodes,
            links,
        })
    }
}

impl Sharers for PlainDir {
    ghost directory = { plain_directory };

    ghost link_line = { λ dir link. None };

    ghost is_sound = { λ dir. IsDirectory (plain_directory dir) };

    fn lines(&self) -> u32 {
        self.lists.len() as u32
    }

    fn contains(&self, m: u32, node: u32) -> bool {
        words::has(self.lists[m as usize], node)
    }

    fn count(&self, m: u32) -> u32 {
        words::count(self.lists[m as usize])
    }

    fn nth(&self, m: u32, i: u32) -> u32 {
        words::nth(self.lists[m as usize], i)
    }

    fn listed(&self, m: u32) -> Listed {
        Listed::new(self.lists[m as usize])
    }

    fn holds(&self, _m: u32) -> u32 {
        0
    }

    fn free(&self) -> u32 {
        self.links
    }

    fn needs_link(&self, _m: u32, _node: u32) -> bool {
        false
    }

    fn add(&mut self, m: u32, node: u32) -> Result<(), NoRoom> {
        self.lists[m as usize] = words::with(self.lists[m as usize], node);
        Ok(())
    }

    fn remove(&mut self, m: u32, node: u32) -> bool {
        let list = self.lists[m as usize];
        if !words::has(list, node) {
            return false;
        }
        self.lists[m as usize] = words::without(list, node);
        true
    }

    fn clear_to(&mut self, m: u32, only: Option<u32>) {
        self.lists[m as usize] = 0;
        if let Some(node) = only {
            self.lists[m as usize] = words::with(0, node);
        }
    }

    fn line_of_link(&self, _link: u32) -> Option<u32> {
        None
    }
}
