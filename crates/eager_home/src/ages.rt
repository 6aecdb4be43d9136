//! The ages that a node keeps.

ghost use Rattle.std.specs.Prelude.{◌≡◌, ◌<◌, length, replicate, slice_index, slice_set, IfOk};

use op_model::NoMemory;
use std::alloc::Global;
use std::marker::Model;

/// The ages of what a node has of one line: of its copy, and of the words in memory.
#[derive(Clone, Copy)]
pub(crate) struct AgePair {
    pub(crate) copy: u64,
    pub(crate) memory: u64,
}

/// An age for the copy in each set of a cache, and one for the words in memory of each line of a home. It takes memory only where it is made.
#[derive(Drop)]
pub(crate) struct NodeAges {
    copies: Vec<u64>,
    memory: Vec<u64>,
}

impl Model for NodeAges {
    ghost use Rattle.eager_home.specs.Ages.{AgeLists};

    ghost Value = { AgeLists };

    ghost view = { λ a. record { copies = a.copies.items; memory = a.memory.items } };
}

impl NodeAges {
    /// The ages at the start.
    pub(crate) fn new(alloc: Global, sets: u32, lines: u32) -> Result<NodeAges, NoMemory>
        ensures { IfOk result (λ ages. ages ≡ record { copies = replicate sets 0; memory = replicate lines 0 }) }
    {
        let Ok(copies) = vec![in alloc; 0; sets as usize] else {
            return Err(NoMemory);
        };
        let Ok(memory) = vec![in alloc; 0; lines as usize] else {
            return Err(NoMemory);
        };
        Ok(NodeAges { copies, memory })
    }

    /// The age of the copy in a set.
    pub(crate) fn copy(&self, set: u32) -> u64
        requires { set < length self.now.copies }
        ensures { result ≡ slice_index self.now.copies set }
    {
        self.copies[set as usize]
    }

    /// The age of the words in memory of a line.
    pub(crate) fn memory(&self, m: u32) -> u64
        requires { m < length self.now.memory }
        ensures { result ≡ slice_index self.now.memory m }
    {
        self.memory[m as usize]
    }

    /// The copy in a set has this age.
    pub(crate) fn set_copy(&mut self, set: u32, age: u64)
        requires { set < length self.old.copies }
        ensures { self.new ≡ record self.old { copies = slice_set self.old.copies set age } }
    {
        self.copies[set as usize] = age;
    }

    /// The words in memory of a line have this age.
    pub(crate) fn set_memory(&mut self, m: u32, age: u64)
        requires { m < length self.old.memory }
        ensures { self.new ≡ record self.old { memory = slice_set self.old.memory m age } }
    {
        self.memory[m as usize] = age;
    }
}
