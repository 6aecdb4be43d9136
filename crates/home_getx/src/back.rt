//! Messages by which an owner gives a line or its words back.

ghost use Rattle.std.specs.Prelude.{◌≡◌, ◌<◌, false, true, length};
ghost use Rattle.line_map.specs.Sizes.{home_of};
ghost use Rattle.op_model.specs.Lines.{is_pending};
ghost use Rattle.op_model.specs.Tables.Home.{on_wb as wb_row, on_shwb as shwb_row, on_fack as fack_row, on_nakc as nakc_row, requester_of};
ghost use Rattle.op_model.specs.Shares.{Copies};
ghost use Rattle.cpu_cache.specs.Processors.{ProcView};
ghost use Rattle.dir_header.specs.HomeSides.{header_at};
ghost use Rattle.node_share.specs.Parts.{share_of, row_at, AreCopies};

use dir_header::{HomeSide, Sharers};
use line_map::Body;
use node_share::{is_idle, requester};

/// Wb: memory takes the words. Only an idle line forgets its owner here.
pub fn on_wb<D: Sharers>(home: &mut HomeSide<D>, line: u32, body: &Body)
    requires line { home_of home.old.sizes line ≡ home.old.node }
    requires width { length body.now ≡ home.old.sizes.words }
    ensures share { (proc : ProcView) (copies : Copies) → AreCopies copies → share_of proc copies home.new.headers ≡ (row_at home.old.sizes home.old.node (share_of proc copies home.old.headers) line (wb_row body.now)).share }
    ensures kept { home.new ≡ record home.old { dir = home.new.dir; headers = home.new.headers } }
{
    let idle = is_idle(home.header(line));
    home.put_memory(line, body);
    home.set_dirty(line, false);
    if idle {
        home.list_only(line, None);
    }
}

/// ShWb: the owner has shared its copy, and memory takes the words. The list stays.
pub fn on_shwb<D: Sharers>(home: &mut HomeSide<D>, line: u32, body: &Body)
    requires line { home_of home.old.sizes line ≡ home.old.node }
    requires pending { is_pending (header_at home.old line) ≡ true }
    requires acks { (header_at home.old line).acks ≡ 0 }
    requires width { length body.now ≡ home.old.sizes.words }
    ensures share { (proc : ProcView) (copies : Copies) → AreCopies copies → share_of proc copies home.new.headers ≡ (row_at home.old.sizes home.old.node (share_of proc copies home.old.headers) line (shwb_row body.now)).share }
    ensures kept { home.new ≡ record home.old { dir = home.new.dir; headers = home.new.headers } }
{
    home.put_memory(line, body);
    home.set_dirty(line, false);
    home.end_pending(line);
}

/// FAck: the owner has handed its copy on. Where the line is clean, the new owner has given it back already.
pub fn on_fack<D: Sharers>(home: &mut HomeSide<D>, line: u32)
    requires line { home_of home.old.sizes line ≡ home.old.node }
    requires pending { is_pending (header_at home.old line) ≡ true }
    requires acks { (header_at home.old line).acks ≡ 0 }
    requires requester { requester_of (header_at home.old line).wait < home.old.sizes.nodes }
    ensures share { (proc : ProcView) (copies : Copies) → AreCopies copies → share_of proc copies home.new.headers ≡ (row_at home.old.sizes home.old.node (share_of proc copies home.old.headers) line fack_row).share }
    ensures kept { home.new ≡ record home.old { dir = home.new.dir; headers = home.new.headers } }
{
    let header = home.header(line);
    let owner = requester(header);
    home.end_pending(line);
    if header.dirty {
        home.list_only(line, Some(owner));
    } else {
        home.list_only(line, None);
    }
}

/// Nakc: the owner had no copy any more. The requester isn't listed any longer, and where the line is clean nobody is.
pub fn on_nakc<D: Sharers>(home: &mut HomeSide<D>, line: u32)
    requires line { home_of home.old.sizes line ≡ home.old.node }
    requires pending { is_pending (header_at home.old line) ≡ true }
    requires acks { (header_at home.old line).acks ≡ 0 }
    requires requester { requester_of (header_at home.old line).wait < home.old.sizes.nodes }
    ensures share { (proc : ProcView) (copies : Copies) → AreCopies copies → share_of proc copies home.new.headers ≡ (row_at home.old.sizes home.old.node (share_of proc copies home.old.headers) line nakc_row).share }
    ensures kept { home.new ≡ record home.old { dir = home.new.dir; headers = home.new.headers } }
{
    let header = home.header(line);
    let owner = requester(header);
    home.end_pending(line);
    if header.dirty {
        home.unlist(line, owner);
    } else {
        home.list_only(line, None);
    }
}
