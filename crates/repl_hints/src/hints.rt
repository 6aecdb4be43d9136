//! A hint at the home of its line.

ghost use Rattle.std.specs.Prelude.{◌≡◌, ◌<◌};
ghost use Rattle.line_map.specs.Sizes.{home_of};
ghost use Rattle.op_model.specs.Tables.Home.{on_rpl as rpl_row};
ghost use Rattle.op_model.specs.Shares.{Copies};
ghost use Rattle.cpu_cache.specs.Processors.{ProcView};
ghost use Rattle.node_share.specs.Parts.{share_of, row_at, AreCopies};

use dir_header::{HomeSide, Sharers};
use node_share::is_idle;

/// Rpl: the sender is listed no more, where the line is idle and clean.
pub fn on_rpl<D: Sharers>(home: &mut HomeSide<D>, src: u32, line: u32)
    requires line { home_of home.old.sizes line ≡ home.old.node }
    requires src { src < home.old.sizes.nodes }
    ensures share { (proc : ProcView) (copies : Copies) → AreCopies copies → share_of proc copies home.new.headers ≡ (row_at home.old.sizes home.old.node (share_of proc copies home.old.headers) line (rpl_row src)).share }
    ensures kept { home.new ≡ record home.old { dir = home.new.dir; headers = home.new.headers } }
{
    // The home keeps what it holds: only the last line changes it.
    let _kept = home.cfg();
    let header = home.header(line);
    if !is_idle(header) {
        return;
    }
    if header.dirty {
        return;
    }
    home.unlist(line, src);
}
