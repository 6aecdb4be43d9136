//! What a machine begins with: the programs of its nodes, made of operations, and empty linked directories.

ghost use Rattle.std.specs.Prelude.{◌≡◌, ◌<◌, [], map, replicate, true, IfOk};
ghost use Rattle.line_map.specs.Sizes.{all_words};
ghost use Rattle.op_model.specs.Programs.{ArePrograms};
ghost use Rattle.op_model.specs.Run.Machines.{IsEventOf};
ghost use Rattle.sharer_dir.specs.Linked.{first_linked, linked_directory};
ghost use Rattle.machine.specs.Starts.{AreFresh};

use line_map::Machine;
use op_model::{Event, Kind, NoMemory, Op, Program};
use sharer_dir::LinkedDir;
use std::alloc::Global;
use std::test::Fail;

/// A node, what it does, the number of a word, and an operand.
pub type Access = (u32, Kind, u32, u64);

fn empty_programs(alloc: Global, nodes: u32) -> Result<Vec<Program>, NoMemory>
    ensures { IfOk result (λ programs. programs.items ≡ replicate nodes []) }
{
    let mut programs = Vec::new(alloc);
    for _ in 0..nodes {
        programs.push(Program::empty(alloc)).map_err(|_| NoMemory)?;
    }
    Ok(programs)
}

/// An empty program for each node.
fn first_programs(alloc: Global, cfg: Machine) -> Result<Vec<Program>, NoMemory>
    ensures { IfOk result (λ programs. ArePrograms cfg programs.items) }
{
    empty_programs(alloc, cfg.nodes())
}

/// Puts an operation at the end of its node's program. A program holds at most 4294967295; one more is left out.
fn put_op(
    programs: &mut Vec<Program>,
    cfg: Machine,
    node: u32,
    kind: Kind,
    word: u32,
    value: u64,
) -> Result<(), NoMemory>
    requires programs { ArePrograms cfg programs.old.items }
    requires node { node < cfg.nodes }
    requires word { word < all_words cfg }
    ensures { ArePrograms cfg programs.new.items }
{
    let program = &mut programs[node as usize];
    let index = program.len();
    if index == u32::MAX {
        return Ok(());
    }
    program.push(Op {
        node,
        index,
        kind,
        word,
        value,
    })
}

/// The program of each node: its operations in this order. Each is at a node and on a word of the machine.
pub fn programs_of(alloc: Global, cfg: Machine, ops: &[Access]) -> Result<Vec<Program>, Fail>
    ensures { IfOk result (λ programs. ArePrograms cfg programs.items) }
{
    let mut programs = first_programs(alloc, cfg)?;
    for (node, kind, word, value) in ops {
        if *node >= cfg.nodes() || *word >= cfg.all_words() {
            return Err(Fail::new("an operation that the machine can't do"));
        }
        put_op(&mut programs, cfg, *node, *kind, *word, *value)?;
    }
    Ok(programs)
}

fn empty_dirs(alloc: Global, cfg: Machine) -> Result<Vec<LinkedDir>, NoMemory>
    ensures { IfOk result (λ dirs. dirs.items ≡ replicate cfg.nodes (first_linked cfg.lines cfg.links)) }
{
    let mut dirs = Vec::new(alloc);
    for _ in 0..cfg.nodes() {
        let dir = LinkedDir::new(alloc, cfg.lines(), cfg.links())?;
        dirs.push(dir).map_err(|_| NoMemory)?;
    }
    Ok(dirs)
}

/// A linked directory for each node, in which all lists are empty.
pub fn first_dirs(alloc: Global, cfg: Machine) -> Result<Vec<LinkedDir>, NoMemory>
    ensures { IfOk result (λ dirs. AreFresh cfg (map linked_directory dirs.items)) }
{
    let _limits = cfg.nodes();
    empty_dirs(alloc, cfg)
}

/// Whether the nodes and lines that an event names are of the machine.
pub fn is_of_machine(cfg: Machine, event: Event) -> bool
    ensures { result ≡ true → IsEventOf cfg event }
{
    match event {
        Event::Hit { node } | Event::Issue { node } => node < cfg.nodes(),
        Event::Evict { node, line, .. } => node < cfg.nodes() && line < cfg.all_lines(),
        Event::Take { src, dst, .. } => src < cfg.nodes() && dst < cfg.nodes(),
        Event::Reclaim { line } => line < cfg.all_lines(),
    }
}
