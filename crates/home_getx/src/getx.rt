//! A GetX at the home of its line.

ghost use Rattle.std.specs.Prelude.{◌≡◌, ◌+◌, ◌<◌, true, false, if◌then◌else◌};
ghost use Rattle.line_map.specs.Sizes.{all_lines, home_of};
ghost use Rattle.op_model.specs.Nodes.{count};
ghost use Rattle.op_model.specs.Lines.{is_exclusive, is_idle as is_idle_wait};
ghost use Rattle.op_model.specs.Tables.Home.{on_getx as getx_row, give_home_copy as give_home_copy_row, give_memory as give_memory_row, forward_getx, invalidate_for, refuse as refusal};
ghost use Rattle.op_model.specs.Shares.{copy_in};
ghost use Rattle.cpu_cache.specs.Processors.{ProcView};
ghost use Rattle.dir_header.specs.HomeSides.{header_at, room_in};
ghost use Rattle.node_share.specs.Parts.{share_of, DoesRow, HasRoom, IsOwnCopy};

use cpu_cache::Cache;
use dir_header::{Grantee, HomeSide, Sharers, Wait};
use msg_words::{Msg, NakCause, Sends};
use node_share::{is_idle, no_other, owner, refuse, send_invs};
use op_model::Full;

/// GetX: the sender gets the line, or it waits for the owner or for the acknowledgements of all other listed nodes, or it is refused.
pub fn on_getx<D: Sharers>(
    home: &mut HomeSide<D>,
    cache: &mut Cache,
    src: u32,
    line: u32,
    out: &mut Sends,
)
    requires same { cache.old.sizes ≡ home.old.sizes }
    requires below { line < all_lines home.old.sizes }
    requires line { home_of home.old.sizes line ≡ home.old.node }
    requires src { src < home.old.sizes.nodes }
    requires own { is_idle_wait (header_at home.old line).wait ≡ true → IsOwnCopy home.old.node (copy_in cache.old.copies line) (header_at home.old line) }
    requires room { HasRoom out.old (home.old.sizes.nodes + 1) }
    ensures row { (proc : ProcView) → DoesRow home.old.sizes home.old.node (share_of proc cache.old.copies home.old.headers) (share_of proc cache.new.copies home.new.headers) out.old out.new line (getx_row (room_in home.old) src) }
    ensures home { home.new ≡ record home.old { dir = home.new.dir; headers = home.new.headers } }
    ensures cache { cache.new.sizes ≡ cache.old.sizes }
{
    let header = home.header(line);
    if !is_idle(header) {
        refuse(home, cache, src, line, NakCause::Pending, out);
    } else if header.dirty {
        if header.local {
            give_home_copy(home, cache, src, line, out);
        } else {
            forward(home, cache, src, line, out);
        }
    } else if no_other(home, src, line) {
        give_memory(home, cache, src, line, out);
    } else {
        invalidate(home, cache, src, line, out);
    }
}

// The words of the home's exclusive copy go to the sender, who is the owner.
fn give_home_copy<D: Sharers>(
    home: &mut HomeSide<D>,
    cache: &mut Cache,
    src: u32,
    line: u32,
    out: &mut Sends,
)
    requires same { cache.old.sizes ≡ home.old.sizes }
    requires below { line < all_lines home.old.sizes }
    requires line { home_of home.old.sizes line ≡ home.old.node }
    requires src { src < home.old.sizes.nodes }
    requires idle { is_idle_wait (header_at home.old line).wait ≡ true }
    requires exclusive { is_exclusive (copy_in cache.old.copies line) ≡ true }
    requires room { HasRoom out.old 1 }
    ensures row { (proc : ProcView) → DoesRow home.old.sizes home.old.node (share_of proc cache.old.copies home.old.headers) (share_of proc cache.new.copies home.new.headers) out.old out.new line (give_home_copy_row src) }
    ensures home { home.new ≡ record home.old { dir = home.new.dir; headers = home.new.headers } }
    ensures cache { cache.new.sizes ≡ cache.old.sizes }
{
    let body = cache.body(line);
    cache.drop_line(line);
    home.set_local(line, false);
    home.list_only(line, Some(src));
    out.push(src, Msg::PutX { line, body });
}

// Memory's words go to the sender, who is the owner.
fn give_memory<D: Sharers>(
    home: &mut HomeSide<D>,
    cache: &mut Cache,
    src: u32,
    line: u32,
    out: &mut Sends,
)
    requires same { cache.old.sizes ≡ home.old.sizes }
    requires below { line < all_lines home.old.sizes }
    requires line { home_of home.old.sizes line ≡ home.old.node }
    requires src { src < home.old.sizes.nodes }
    requires idle { is_idle_wait (header_at home.old line).wait ≡ true }
    requires room { HasRoom out.old 1 }
    ensures row { (proc : ProcView) → DoesRow home.old.sizes home.old.node (share_of proc cache.old.copies home.old.headers) (share_of proc cache.new.copies home.new.headers) out.old out.new line (give_memory_row src) }
    ensures home { home.new ≡ record home.old { dir = home.new.dir; headers = home.new.headers } }
    ensures cache { cache.new.sizes ≡ cache.old.sizes }
{
    let body = home.memory(line);
    cache.drop_line(line);
    home.set_local(line, false);
    home.set_dirty(line, true);
    home.list_only(line, Some(src));
    out.push(src, Msg::PutX { line, body });
}

// The owner is to hand the line to the sender, where one more line may be pending.
fn forward<D: Sharers>(home: &mut HomeSide<D>, cache: &Cache, src: u32, line: u32, out: &mut Sends)
    requires line { home_of home.old.sizes line ≡ home.old.node }
    requires idle { is_idle_wait (header_at home.old line).wait ≡ true }
    requires acks { (header_at home.old line).acks ≡ 0 }
    requires listed { 0 < count (header_at home.old line).list }
    requires room { HasRoom out.old 1 }
    ensures row { (proc : ProcView) → DoesRow home.old.sizes home.old.node (share_of proc cache.now.copies home.old.headers) (share_of proc cache.now.copies home.new.headers) out.old out.new line (λ share. if (room_in home.old).full then refusal src NakCause.Budget share else forward_getx src share) }
    ensures home { home.new ≡ record home.old { dir = home.new.dir; headers = home.new.headers } }
{
    let _kept = cache.cfg();
    let owner = owner(home, line);
    match home.make_pending(line, Wait::ForwardGetX(src)) {
        Ok(()) => out.push(owner, Msg::FwdGetX { line, req: src }),
        Err(Full) => refuse(home, cache, src, line, NakCause::Budget, out),
    }
}

// The sender waits for the acknowledgements of all other listed nodes, where one more line may be pending.
fn invalidate<D: Sharers>(
    home: &mut HomeSide<D>,
    cache: &mut Cache,
    src: u32,
    line: u32,
    out: &mut Sends,
)
    requires same { cache.old.sizes ≡ home.old.sizes }
    requires below { line < all_lines home.old.sizes }
    requires line { home_of home.old.sizes line ≡ home.old.node }
    requires src { src < home.old.sizes.nodes }
    requires idle { is_idle_wait (header_at home.old line).wait ≡ true }
    requires room { HasRoom out.old (home.old.sizes.nodes + 1) }
    ensures row { (proc : ProcView) → DoesRow home.old.sizes home.old.node (share_of proc cache.old.copies home.old.headers) (share_of proc cache.new.copies home.new.headers) out.old out.new line (λ share. if (room_in home.old).full then refusal src NakCause.Budget share else invalidate_for src share) }
    ensures home { home.new ≡ record home.old { dir = home.new.dir; headers = home.new.headers } }
    ensures cache { cache.new.sizes ≡ cache.old.sizes }
{
    match home.make_pending(line, Wait::Invalidate(Grantee::Node(src))) {
        Ok(()) => {
            home.unlist(line, src);
            home.set_local(line, false);
            cache.drop_line(line);
            send_invs(home, line, out);
        }
        Err(Full) => refuse(home, cache, src, line, NakCause::Budget, out),
    }
}
