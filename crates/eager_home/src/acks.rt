//! An acknowledgement at the home of a line that drains.

ghost use Rattle.std.specs.Prelude.{◌≡◌, ◌<◌, true, None, ℕ, IfSome};
ghost use Rattle.line_map.specs.Sizes.{home_of};
ghost use Rattle.op_model.specs.Nodes.{Nodes, listed, only};
ghost use Rattle.op_model.specs.Lines.{Header as LineHeader};
ghost use Rattle.op_model.specs.Shares.{Copies};
ghost use Rattle.op_model.specs.Tables.Remote.{is_invalidate};
ghost use Rattle.eager_model.specs.Rows.{on_inv_ack as inv_ack_row, drained_list};
ghost use Rattle.cpu_cache.specs.Processors.{ProcView};
ghost use Rattle.dir_header.specs.HomeSides.{fields, header_at};
ghost use Rattle.node_share.specs.Parts.{share_of, row_at, AreCopies};

use dir_header::{Grantee, Header, HomeSide, Sharers, Wait};

/// InvAck while a line drains: the sender is listed no more. The last acknowledgement ends the wait, and where another node than the home still owns the line, that node alone is listed.
pub fn on_inv_ack<D: Sharers>(home: &mut HomeSide<D>, src: u32, line: u32)
    requires line { home_of home.old.sizes line ≡ home.old.node }
    requires src { src < home.old.sizes.nodes }
    requires waits { is_invalidate (header_at home.old line).wait ≡ true }
    requires listed { listed (header_at home.old line).list src ≡ true }
    requires grantee { (node : ℕ) → (header_at home.old line).wait ≡ Wait.Invalidate (Grantee.Node node) → node < home.old.sizes.nodes }
    ensures share { (proc : ProcView) (copies : Copies) → AreCopies copies → share_of proc copies home.new.headers ≡ (row_at home.old.sizes home.old.node (share_of proc copies home.old.headers) line (inv_ack_row home.old.node src)).share }
    ensures kept { home.new ≡ record home.old { dir = home.new.dir; headers = home.new.headers } }
{
    let header = home.header(line);
    home.unlist(line, src);
    if header.acks > 1 {
        return;
    }
    home.end_pending(line);
    if let Some(owner) = owner_left(home.node(), header) {
        home.list_only(line, Some(owner));
    }
}

// The node that owns a line which has drained, where that isn't the home.
fn owner_left(home: u32, header: Header) -> Option<u32>
    ensures some { IfSome result (λ owner. header.wait ≡ Wait.Invalidate (Grantee.Node owner)) }
    ensures list { (of : LineHeader) (list : Nodes) → fields of ≡ header → IfSome result (λ owner. drained_list home of list ≡ only owner) }
    ensures none { (of : LineHeader) (list : Nodes) → fields of ≡ header → result ≡ None → drained_list home of list ≡ list }
{
    let Wait::Invalidate(Grantee::Node(owner)) = header.wait else {
        return None;
    };
    if header.dirty && owner != home {
        return Some(owner);
    }
    None
}
