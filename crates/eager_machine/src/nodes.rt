//! The nodes at the start.

ghost use Rattle.std.specs.Prelude.{IfOk};
ghost use Rattle.op_model.specs.Programs.{ArePrograms};
ghost use Rattle.eager_machine.specs.Starts.{AreNew};

use eager_home::EagerNode;
use line_map::Machine;
use op_model::{NoMemory, Program};
use std::alloc::Global;

/// A node for each program, in the same order.
pub(crate) fn new_nodes(
    alloc: Global,
    cfg: Machine,
    programs: Vec<Program>,
) -> Result<Vec<EagerNode>, NoMemory>
    requires { ArePrograms cfg programs.items }
    ensures { IfOk result (λ nodes. AreNew cfg programs.items nodes.items) }
{
    let Ok(mut nodes) = Vec::with_capacity(alloc, cfg.nodes() as usize) else {
        return Err(NoMemory);
    };
    for program in programs {
        let node = EagerNode::new(alloc, cfg, nodes.len() as u32, program)?;
        nodes.push_reserved(node);
    }
    Ok(nodes)
}
