//! The nodes at the start.

ghost use Rattle.std.specs.Prelude.{◌≡◌, ◌≤◌, map, length, sum_by, All, IfOk};
ghost use Rattle.line_map.specs.Sizes.{AreSizes};
ghost use Rattle.op_model.specs.Programs.{ArePrograms};
ghost use Rattle.machine.specs.Faces.{face_of, dir_of};
ghost use Rattle.machine.specs.Starts.{AreFresh, AreNew};

use dir_header::Sharers;
use line_map::Machine;
use magic_node::MagicNode;
use op_model::{NoMemory, Program};
use std::alloc::Global;

/// How many operations programs have, of at most 64 nodes.
pub(crate) fn count_ops(programs: &[Program]) -> u64
    requires { length programs.now ≤ 64 }
    ensures { result ≡ sum_by length programs.now }
{
    let mut count = 0;
    for program in programs {
        count += u64::from(program.len());
    }
    count
}

/// The sizes of a machine say that they are within their limits.
pub(crate) fn told_sizes(cfg: Machine)
    ensures { AreSizes cfg }
{}

/// The directory of a node says what holds of each one of its kind.
pub(crate) fn told_dir<D: Sharers>(node: &MagicNode<D>)
    ensures { D.is_sound node.now.dir }
{
    let _lines = node.home().dir().lines();
}

/// A node for each program, in the same order, with the directory at the same place.
pub(crate) fn new_nodes<D: Sharers>(
    alloc: Global,
    cfg: Machine,
    programs: Vec<Program>,
    dirs: Vec<D>,
) -> Result<Vec<MagicNode<D>>, NoMemory>
    requires programs { ArePrograms cfg programs.items }
    requires dirs { AreFresh cfg (map D.directory dirs.items) }
    ensures faces { IfOk result (λ nodes. AreNew cfg programs.items (map D.directory dirs.items) (map face_of nodes.items)) }
    ensures dirs { IfOk result (λ nodes. map dir_of nodes.items ≡ dirs.items) }
    ensures sound { IfOk result (λ nodes. All D.is_sound (map dir_of nodes.items)) }
{
    let Ok(mut nodes) = Vec::with_capacity(alloc, cfg.nodes() as usize) else {
        return Err(NoMemory);
    };
    let mut dirs = dirs.into_iter();
    for program in programs {
        let Some(dir) = dirs.next() else {
            unreachable!();
        };
        let node = MagicNode::new(alloc, cfg, nodes.len() as u32, program, dir)?;
        told_dir(&node);
        nodes.push_reserved(node);
    }
    Ok(nodes)
}
