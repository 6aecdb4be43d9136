//! The nodes that a home lists for a line.

ghost use Rattle.std.specs.Prelude.{◌≡◌, ◌+◌, ◌<◌, ◌≤◌, length};
ghost use Rattle.line_map.specs.Sizes.{home_of};
ghost use Rattle.op_model.specs.Nodes.{count};
ghost use Rattle.op_model.specs.Lines.{nobody_listed, owner as owner_of, to_listed};
ghost use Rattle.op_model.specs.Tables.Home.{no_other as no_other_in};
ghost use Rattle.op_model.specs.Events.Node.{messages};
ghost use Rattle.dir_header.specs.HomeSides.{header_at};
ghost use Rattle.node_share.specs.Parts.{sent};

use dir_header::{HomeSide, Sharers};
use msg_words::{Msg, Sends};

/// The first node of the list of a line, which is its owner where one node is listed.
pub fn owner<D: Sharers>(home: &HomeSide<D>, line: u32) -> u32
    requires line { home_of home.now.sizes line ≡ home.now.node }
    requires listed { 0 < count (header_at home.now line).list }
    ensures { result ≡ owner_of (header_at home.now line) }
{
    let m = line % home.cfg().lines();
    home.dir().nth(m, 0)
}

/// Sends an Inv to each listed node of a line, in increasing order.
pub fn send_invs<D: Sharers>(home: &HomeSide<D>, line: u32, out: &mut Sends)
    requires line { home_of home.now.sizes line ≡ home.now.node }
    requires room { length out.old.list + home.now.sizes.nodes ≤ out.old.room }
    ensures { out.new ≡ sent out.old (messages line (to_listed (header_at home.now line).list)) }
{
    let m = line % home.cfg().lines();
    let mut left = home.dir().listed(m);
    while let Some(node) = left.next() {
        out.push(node, Msg::Inv { line });
    }
}

/// Whether no node but this one is listed for a line.
pub fn no_other<D: Sharers>(home: &HomeSide<D>, node: u32, line: u32) -> bool
    requires line { home_of home.now.sizes line ≡ home.now.node }
    requires node { node < home.now.sizes.nodes }
    ensures { result ≡ no_other_in node (header_at home.now line).list }
{
    let m = line % home.cfg().lines();
    let dir = home.dir();
    let count = dir.count(m);
    if dir.contains(m, node) {
        count == 1
    } else {
        count == 0
    }
}

/// Whether nobody is listed for a line.
pub fn nobody<D: Sharers>(home: &HomeSide<D>, line: u32) -> bool
    requires { home_of home.now.sizes line ≡ home.now.node }
    ensures { result ≡ nobody_listed (header_at home.now line).list }
{
    let m = line % home.cfg().lines();
    home.dir().count(m) == 0
}
