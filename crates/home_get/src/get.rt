//! A Get at the home of its line.

ghost use Rattle.std.specs.Prelude.{◌≡◌, ◌+◌, ◌<◌, true, []};
ghost use Rattle.line_map.specs.Sizes.{all_lines, home_of};
ghost use Rattle.op_model.specs.Lines.{is_idle as is_idle_wait};
ghost use Rattle.op_model.specs.Shares.{line_share, copy_in};
ghost use Rattle.op_model.specs.Tables.Home.{on_get as get_row, lacks_link as lacks_link_in};
ghost use Rattle.cpu_cache.specs.Effects.{effect_of};
ghost use Rattle.cpu_cache.specs.Processors.{ProcView};
ghost use Rattle.dir_header.specs.HomeSides.{header_at, room_in};
ghost use Rattle.node_share.specs.Parts.{share_of, row_at, DoesRow, HasRoom, IsOwnCopy};
ghost use Rattle.home_get.specs.Answers.{get_answer};

use crate::links::lacks_link;
use crate::rows::{forward, share_home_copy, share_memory};
use cpu_cache::{Cache, Effect};
use dir_header::{HomeSide, Sharers};
use msg_words::{NakCause, Sends};
use node_share::{is_full, is_idle, no_effect, refuse};

/// How a home answers a Get: with the words, with a forward to the owner, or with a refusal, after which a line may have to be called in for its links.
#[derive(Clone, Copy)]
pub enum GetOut {
    Put,
    Forwarded,
    Nak(NakCause),
    NakAndReclaim,
}

/// Get: the sender shares the line, or it waits for the owner, or it is refused. Behind NakAndReclaim the caller calls a line in.
pub fn on_get<D: Sharers>(
    home: &mut HomeSide<D>,
    cache: &mut Cache,
    src: u32,
    line: u32,
    out: &mut Sends,
) -> (GetOut, Effect)
    requires same { cache.old.sizes ≡ home.old.sizes }
    requires below { line < all_lines home.old.sizes }
    requires line { home_of home.old.sizes line ≡ home.old.node }
    requires src { src < home.old.sizes.nodes }
    requires own { is_idle_wait (header_at home.old line).wait ≡ true → IsOwnCopy home.old.node (copy_in cache.old.copies line) (header_at home.old line) }
    requires room { HasRoom out.old 1 }
    ensures row { (proc : ProcView) → DoesRow home.old.sizes home.old.node (share_of proc cache.old.copies home.old.headers) (share_of proc cache.new.copies home.new.headers) out.old out.new line (get_row (room_in home.old) src) }
    ensures answer { (proc : ProcView) → result.0 ≡ get_answer (room_in home.old) src (line_share home.old.sizes (share_of proc cache.old.copies home.old.headers) line) }
    ensures effect { (proc : ProcView) → result.1 ≡ effect_of home.old.node proc.program proc.place [] (row_at home.old.sizes home.old.node (share_of proc cache.old.copies home.old.headers) line (get_row (room_in home.old) src)) }
    ensures home { home.new ≡ record home.old { dir = home.new.dir; headers = home.new.headers } }
    ensures cache { cache.new.sizes ≡ cache.old.sizes }
{
    let header = home.header(line);
    if !is_idle(header) {
        refuse(home, cache, src, line, NakCause::Pending, out);
        return (GetOut::Nak(NakCause::Pending), no_effect());
    }
    if lacks_link(home, src, line) {
        return (want_link(home, cache, src, line, out), no_effect());
    }
    if header.dirty {
        if header.local {
            return (GetOut::Put, share_home_copy(home, cache, src, line, out));
        }
        if forward(home, cache, src, line, out) {
            return (GetOut::Forwarded, no_effect());
        }
        return (GetOut::Nak(NakCause::Budget), no_effect());
    }
    (GetOut::Put, share_memory(home, cache, src, line, out))
}

// A link is needed and none is free: the Get is refused.
fn want_link<D: Sharers>(
    home: &HomeSide<D>,
    cache: &Cache,
    src: u32,
    line: u32,
    out: &mut Sends,
) -> GetOut
    requires line { home_of home.now.sizes line ≡ home.now.node }
    requires idle { is_idle_wait (header_at home.now line).wait ≡ true }
    requires lacks { lacks_link_in (room_in home.now) src (header_at home.now line) ≡ true }
    requires room { HasRoom out.old 1 }
    ensures row { (proc : ProcView) → DoesRow home.now.sizes home.now.node (share_of proc cache.now.copies home.now.headers) (share_of proc cache.now.copies home.now.headers) out.old out.new line (get_row (room_in home.now) src) }
    ensures answer { (proc : ProcView) → result ≡ get_answer (room_in home.now) src (line_share home.now.sizes (share_of proc cache.now.copies home.now.headers) line) }
{
    if home.pending_holds() {
        refuse(home, cache, src, line, NakCause::NoLink, out);
        return GetOut::Nak(NakCause::NoLink);
    }
    if is_full(home) {
        refuse(home, cache, src, line, NakCause::Budget, out);
        return GetOut::Nak(NakCause::Budget);
    }
    refuse(home, cache, src, line, NakCause::NoLink, out);
    GetOut::NakAndReclaim
}
