//! The directory whose lists are bits.

ghost use Rattle.std.specs.Prelude.{◌≡◌, ◌≤◌, ◌<◌, ◌↔◌, None, IfOk, IsOk, IsErr, IsTrue, OnOk, OnErr, length};
ghost use Rattle.line_map.specs.Sizes.{Sizes};
ghost use Rattle.op_model.specs.Nodes.{enlist};
ghost use Rattle.dir_header.specs.HomeSides.{IsFresh};
ghost use Rattle.dir_header.specs.Plain.{plain_directory};
ghost use Rattle.dir_header.specs.Sharers.{free_in, list_at, needs_link as needs_link_in, with_list};
ghost use Rattle.bitvec_dir.specs.Bits.{IsBitDir, first_bits};

use dir_header::{Listed, NoRoom, PlainDir, Sharers};
use op_model::NoMemory;
use std::alloc::Global;
use std::marker::Model;

/// A directory of nodes below 64 whose lists cost no links: the list of a line is a word, in which the bit of each listed node is set. The words are those of a plain directory, and it is seen as that is, as the sets that they stand for. Only `new` takes memory.
#[derive(Drop)]
pub struct BitDir {
    sets: PlainDir,
}

impl Model for BitDir {
    ghost use Rattle.std.specs.Prelude.{◌≤◌};
    ghost use Rattle.dir_header.specs.Plain.{PlainView};
    ghost use Rattle.dir_header.specs.Codes.{plain_code};

    ghost Value = { PlainView };

    ghost coded = { plain_code };

    ghost view = { λ d. d.sets };

    ghost invariant = { λ d. d.sets.nodes ≤ 64 };
}

impl BitDir {
    /// A directory of so many lines, all of whose lists are empty, for the nodes below `nodes`, at most 64. `links` is the machine's number of links, all of which stay free.
    pub fn new(alloc: Global, lines: u32, nodes: u32, links: u32) -> Result<BitDir, NoMemory>
        requires { nodes ≤ 64 }
        ensures value { IfOk result (λ dir. dir ≡ first_bits lines nodes links) }
        ensures kept { IfOk result IsBitDir }
        ensures fresh { IfOk result (λ dir. (sizes : Sizes) → sizes.lines ≡ lines → sizes.nodes ≤ nodes → sizes.links ≡ links → IsFresh sizes (plain_directory dir)) }
    {
        Ok(BitDir {
            sets: PlainDir::new(alloc, lines, nodes, links)?,
        })
    }
}

impl Sharers for BitDir {
    ghost directory = { plain_directory };

    ghost link_line = { λ dir link. None };

    ghost is_sound = { IsBitDir };

    fn lines(&self) -> u32 {
        self.sets.lines()
    }

    fn contains(&self, m: u32, node: u32) -> bool {
        self.sets.contains(m, node)
    }

    fn count(&self, m: u32) -> u32 {
        self.sets.count(m)
    }

    fn nth(&self, m: u32, i: u32) -> u32 {
        self.sets.nth(m, i)
    }

    fn listed(&self, m: u32) -> Listed {
        self.sets.listed(m)
    }

    fn holds(&self, m: u32) -> u32 {
        self.sets.holds(m)
    }

    fn free(&self) -> u32
        ensures value { result ≡ free_in (plain_directory self.now) }
        ensures links { result ≡ self.now.links }
    {
        self.sets.free()
    }

    fn needs_link(&self, m: u32, node: u32) -> bool {
        self.sets.needs_link(m, node)
    }

    fn add(&mut self, m: u32, node: u32) -> Result<(), NoRoom>
        requires line { m < length self.old.lists }
        requires bound { node < self.old.nodes }
        ensures room { IsErr result ↔ (IsTrue (needs_link_in (plain_directory self.old) m node) × (free_in (plain_directory self.old) ≡ 0)) }
        ensures ok { OnOk result (plain_directory self.new ≡ with_list (plain_directory self.old) m (enlist (list_at (plain_directory self.old) m) node)) }
        ensures err { OnErr result (self.new ≡ self.old) }
        ensures always { IsOk result }
    {
        self.sets.add(m, node)
    }

    fn remove(&mut self, m: u32, node: u32) -> bool {
        self.sets.remove(m, node)
    }

    fn clear_to(&mut self, m: u32, only: Option<u32>) {
        self.sets.clear_to(m, only);
    }

    fn line_of_link(&self, link: u32) -> Option<u32> {
        self.sets.line_of_link(link)
    }
}
