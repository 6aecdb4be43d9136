//! Rows of a Get that isn't refused for want of a link.

ghost use Rattle.std.specs.Prelude.{◌≡◌, ◌<◌, true, false, if◌then◌else◌};
ghost use Rattle.line_map.specs.Sizes.{all_lines, home_of};
ghost use Rattle.op_model.specs.Nodes.{count};
ghost use Rattle.op_model.specs.Lines.{is_exclusive, is_idle as is_idle_wait, words_of};
ghost use Rattle.op_model.specs.Tables.Home.{share_home_copy as share_home_copy_row, share_memory as share_memory_row, forward_get, refuse as refusal, lacks_link};
ghost use Rattle.op_model.specs.Shares.{copy_in};
ghost use Rattle.cpu_cache.specs.Effects.{load_by};
ghost use Rattle.cpu_cache.specs.Processors.{ProcView};
ghost use Rattle.dir_header.specs.HomeSides.{header_at, room_in};
ghost use Rattle.node_share.specs.Parts.{share_of, DoesRow, HasRoom};

use cpu_cache::{Cache, Effect, Served};
use dir_header::{HomeSide, Sharers, Wait};
use msg_words::{Msg, NakCause, Sends};
use node_share::{is_full, owner, refuse};

/// The words of the home's exclusive copy go to memory and to the sender, who is listed.
pub(crate) fn share_home_copy<D: Sharers>(
    home: &mut HomeSide<D>,
    cache: &mut Cache,
    src: u32,
    line: u32,
    out: &mut Sends,
) -> Effect
    requires same { cache.old.sizes ≡ home.old.sizes }
    requires below { line < all_lines home.old.sizes }
    requires line { home_of home.old.sizes line ≡ home.old.node }
    requires src { src < home.old.sizes.nodes }
    requires idle { is_idle_wait (header_at home.old line).wait ≡ true }
    requires link { lacks_link (room_in home.old) src (header_at home.old line) ≡ false }
    requires exclusive { is_exclusive (copy_in cache.old.copies line) ≡ true }
    requires room { HasRoom out.old 1 }
    ensures row { (proc : ProcView) → DoesRow home.old.sizes home.old.node (share_of proc cache.old.copies home.old.headers) (share_of proc cache.new.copies home.new.headers) out.old out.new line (share_home_copy_row src) }
    ensures effect { result ≡ load_by src (words_of (copy_in cache.old.copies line)) }
    ensures home { home.new ≡ record home.old { dir = home.new.dir; headers = home.new.headers } }
    ensures cache { cache.new.sizes ≡ cache.old.sizes }
{
    // A link is there.
    let _ = home.list(line, src);
    let body = cache.body(line);
    cache.downgrade(line);
    home.put_memory(line, &body);
    home.set_dirty(line, false);
    out.push(src, Msg::Put { line, body });
    Effect {
        served: Served::LoadBy { node: src, body },
        done: None,
    }
}

/// Memory's words go to the sender, who is listed.
pub(crate) fn share_memory<D: Sharers>(
    home: &mut HomeSide<D>,
    cache: &Cache,
    src: u32,
    line: u32,
    out: &mut Sends,
) -> Effect
    requires line { home_of home.old.sizes line ≡ home.old.node }
    requires src { src < home.old.sizes.nodes }
    requires idle { is_idle_wait (header_at home.old line).wait ≡ true }
    requires link { lacks_link (room_in home.old) src (header_at home.old line) ≡ false }
    requires room { HasRoom out.old 1 }
    ensures row { (proc : ProcView) → DoesRow home.old.sizes home.old.node (share_of proc cache.now.copies home.old.headers) (share_of proc cache.now.copies home.new.headers) out.old out.new line (share_memory_row src) }
    ensures effect { result ≡ load_by src (header_at home.old line).memory }
    ensures home { home.new ≡ record home.old { dir = home.new.dir; headers = home.new.headers } }
{
    let _kept = cache.cfg();
    let body = home.memory(line);
    // A link is there.
    let _ = home.list(line, src);
    out.push(src, Msg::Put { line, body });
    Effect {
        served: Served::LoadBy { node: src, body },
        done: None,
    }
}

/// The owner is to share the line with the sender, who is listed now, so that no link is wanted later. Answers false where no more line may be pending.
pub(crate) fn forward<D: Sharers>(
    home: &mut HomeSide<D>,
    cache: &Cache,
    src: u32,
    line: u32,
    out: &mut Sends,
) -> bool
    requires line { home_of home.old.sizes line ≡ home.old.node }
    requires src { src < home.old.sizes.nodes }
    requires idle { is_idle_wait (header_at home.old line).wait ≡ true }
    requires acks { (header_at home.old line).acks ≡ 0 }
    requires link { lacks_link (room_in home.old) src (header_at home.old line) ≡ false }
    requires listed { 0 < count (header_at home.old line).list }
    requires room { HasRoom out.old 1 }
    ensures row { (proc : ProcView) → DoesRow home.old.sizes home.old.node (share_of proc cache.now.copies home.old.headers) (share_of proc cache.now.copies home.new.headers) out.old out.new line (λ share. if (room_in home.old).full then refusal src NakCause.Budget share else forward_get src share) }
    ensures full { (if result then false else true) ≡ (room_in home.old).full }
    ensures home { home.new ≡ record home.old { dir = home.new.dir; headers = home.new.headers } }
{
    if is_full(home) {
        refuse(home, cache, src, line, NakCause::Budget, out);
        return false;
    }
    let _kept = (cache.cfg(), home.cfg());
    let owner = owner(home, line);
    // A link is there, and a place in the budget.
    let _ = home.list(line, src);
    let _ = home.make_pending(line, Wait::ForwardGet(src));
    out.push(owner, Msg::FwdGet { line, req: src });
    true
}
