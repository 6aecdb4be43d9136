//! The boxes and the roles at the start.

ghost use Rattle.std.specs.Prelude.{◌≡◌, ◌<◌, ◌≤◌, length, IfOk};
ghost use Rattle.line_map.specs.Sizes.{AreSizes};
ghost use Rattle.op_model.specs.Parts.Part.{part_at_start};
ghost use Rattle.op_model.specs.Programs.{ArePrograms, IsProgramOf};
ghost use Rattle.lane_table.specs.Rule.{parts_from};
ghost use Rattle.lane_table.specs.Views.{AreSeatsOf, IsSeatOf};

use crate::gate::Role;
use crate::player::Player;
use lane_table::{LaneTable, NodeSeat, NodeSeats};
use line_map::Machine;
use magic_node::MagicNode;
use node_box::{Named, NodeBox};
use op_model::{NoMemory, Program};
use sharer_dir::LinkedDir;
use std::alloc::{AllocError, Global};
use std::sync::Mutex;

// The box of a node that has done nothing.
fn new_box<K: Named>(
    alloc: Global,
    cfg: Machine,
    number: u32,
    program: Program,
    seat: NodeSeat,
) -> Result<NodeBox<K>, NoMemory>
    requires sized { AreSizes cfg }
    requires numbered { number < cfg.nodes }
    requires program { IsProgramOf cfg number program }
    requires seat { IsSeatOf K.table seat }
    requires part { seat.part ≡ part_at_start cfg number program }
{
    let dir = LinkedDir::new(alloc, cfg.lines(), cfg.links())?;
    let node = MagicNode::new(alloc, cfg, number, program, dir)?;
    NodeBox::new(alloc, node, seat)
}

/// A box for each node, in the order of their numbers, each under a lock of its own.
pub(crate) fn boxes_at_start<K: Named>(
    alloc: Global,
    t: &LaneTable,
    mut seats: NodeSeats,
    programs: Vec<Program>,
) -> Result<Vec<Mutex<NodeBox<K>>>, NoMemory>
    requires table { t.now ≡ K.table }
    requires told { t.now.setup.programs ≡ programs.items }
    requires seats { AreSeatsOf t.now seats }
    requires parts { seats.parts ≡ parts_from t.now.setup.sizes 0 programs.items }
    requires programs { ArePrograms t.now.setup.sizes programs.items }
    ensures { IfOk result (λ boxes. length boxes.items ≡ t.now.setup.sizes.nodes) }
{
    let cfg = t.cfg();
    let mut boxes = Vec::new(alloc);
    let mut number: u32 = 0;
    for program in programs {
        let Some(seat) = seats.next(t) else {
            unreachable!()
        };
        let node = new_box::<K>(alloc, cfg, number, program, seat)?;
        boxes.push(Mutex::new(node)).map_err(|_| NoMemory)?;
        number += 1;
    }
    Ok(boxes)
}

// Adds this role of each node, in the order of their numbers.
fn add_roles(roles: &mut Vec<Mutex<Player>>, nodes: u32, role: Role) -> Result<(), AllocError> {
    for node in 0..nodes {
        roles.push(Mutex::new(Player::new(node, role)))?;
    }
    Ok(())
}

/// All roles before their first turns: the processors in the order of the nodes, and then the controllers.
pub(crate) fn roles_at_start(alloc: Global, nodes: u32) -> Result<Vec<Mutex<Player>>, AllocError> {
    let mut roles = Vec::new(alloc);
    add_roles(&mut roles, nodes, Role::Processor)?;
    add_roles(&mut roles, nodes, Role::Controller)?;
    Ok(roles)
}
