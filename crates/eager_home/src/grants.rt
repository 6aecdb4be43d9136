//! A GetX at the home of its line.

ghost use Rattle.std.specs.Prelude.{◌≡◌, ◌+◌, ◌<◌, true};
ghost use Rattle.line_map.specs.Sizes.{all_lines, home_of};
ghost use Rattle.op_model.specs.Lines.{is_idle as is_idle_wait};
ghost use Rattle.op_model.specs.Shares.{copy_in};
ghost use Rattle.eager_model.specs.Rows.{asks_shared as asks_shared_row, give_and_drain as give_and_drain_row, on_getx as getx_row};
ghost use Rattle.cpu_cache.specs.Processors.{ProcView};
ghost use Rattle.dir_header.specs.HomeSides.{header_at, room_in};
ghost use Rattle.node_share.specs.Parts.{share_of, DoesRow, HasRoom, IsOwnCopy};

use cpu_cache::Cache;
use dir_header::{Grantee, HomeSide, Sharers, Wait};
use home_getx::on_getx as on_delayed_getx;
use msg_words::{Msg, Sends};
use node_share::{is_full, is_idle, no_other, send_invs};

/// GetX: of a clean line that other nodes share the sender has the words at once, and the line drains; else the row is that of the delayed core.
pub fn on_getx<D: Sharers>(
    home: &mut HomeSide<D>,
    cache: &mut Cache,
    src: u32,
    line: u32,
    out: &mut Sends,
)
    requires same { cache.old.sizes ≡ home.old.sizes }
    requires below { line < all_lines home.old.sizes }
    requires line { home_of home.old.sizes line ≡ home.old.node }
    requires src { src < home.old.sizes.nodes }
    requires own { is_idle_wait (header_at home.old line).wait ≡ true → IsOwnCopy home.old.node (copy_in cache.old.copies line) (header_at home.old line) }
    requires room { HasRoom out.old (home.old.sizes.nodes + 1) }
    ensures row { (proc : ProcView) → DoesRow home.old.sizes home.old.node (share_of proc cache.old.copies home.old.headers) (share_of proc cache.new.copies home.new.headers) out.old out.new line (getx_row (room_in home.old) src) }
    ensures home { home.new ≡ record home.old { dir = home.new.dir; headers = home.new.headers } }
    ensures cache { cache.new.sizes ≡ cache.old.sizes }
{
    if asks_shared(home, src, line) {
        give_and_drain(home, cache, src, line, out);
    } else {
        on_delayed_getx(home, cache, src, line, out);
    }
}

// Whether a GetX asks for a clean line that other nodes share, where one more line may be pending.
fn asks_shared<D: Sharers>(home: &HomeSide<D>, src: u32, line: u32) -> bool
    requires line { home_of home.now.sizes line ≡ home.now.node }
    requires src { src < home.now.sizes.nodes }
    ensures { result ≡ asks_shared_row (room_in home.now) src (header_at home.now line) }
{
    let header = home.header(line);
    if !is_idle(header) || header.dirty {
        return false;
    }
    !no_other(home, src, line) && !is_full(home)
}

// Memory's words go to the sender, who owns the line then, and each other listed node is called.
fn give_and_drain<D: Sharers>(
    home: &mut HomeSide<D>,
    cache: &mut Cache,
    src: u32,
    line: u32,
    out: &mut Sends,
)
    requires same { cache.old.sizes ≡ home.old.sizes }
    requires below { line < all_lines home.old.sizes }
    requires line { home_of home.old.sizes line ≡ home.old.node }
    requires src { src < home.old.sizes.nodes }
    requires asks { asks_shared_row (room_in home.old) src (header_at home.old line) ≡ true }
    requires room { HasRoom out.old (home.old.sizes.nodes + 1) }
    ensures row { (proc : ProcView) → DoesRow home.old.sizes home.old.node (share_of proc cache.old.copies home.old.headers) (share_of proc cache.new.copies home.new.headers) out.old out.new line (give_and_drain_row src) }
    ensures home { home.new ≡ record home.old { dir = home.new.dir; headers = home.new.headers } }
    ensures cache { cache.new.sizes ≡ cache.old.sizes }
{
    let body = home.memory(line);
    let _ = home.make_pending(line, Wait::Invalidate(Grantee::Node(src)));
    home.unlist(line, src);
    home.set_local(line, false);
    cache.drop_line(line);
    home.set_dirty(line, true);
    out.push(src, Msg::PutX { line, body });
    send_invs(home, line, out);
}
