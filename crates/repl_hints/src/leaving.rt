//! A copy leaves its cache.

ghost use Rattle.std.specs.Prelude.{◌≡◌, ◌≢◌, ◌<◌, ◌==◌, ℕ, true, false, if◌then◌else◌, OnOk, OnErr, IfErr, Err};
ghost use Rattle.line_map.specs.Sizes.{all_lines, home_of};
ghost use Rattle.op_model.specs.Lines.{Copy, is_exclusive, is_empty};
ghost use Rattle.op_model.specs.Events.Node.{evict_line, permit, departs as departs_kind, is_silent as is_silent_kind};
ghost use Rattle.op_model.specs.Tables.Processor.{fits as fits_kind, leave_home as leave_home_row, leave_remote as leave_remote_row};
ghost use Rattle.op_model.specs.Shares.{copy_in, Headers};
ghost use Rattle.cpu_cache.specs.Processors.{ProcView};
ghost use Rattle.node_share.specs.Parts.{share_of, row_at, Did, DoesRow, HasRoom};

use cpu_cache::Cache;
use dir_header::{HomeSide, Sharers};
use msg_words::{Msg, Sends};
use node_share::{has_exclusive, has_none};
use op_model::{Cause, EvictKind};

/// Whether a copy can leave the cache in this way, or the first cause why not: there is no copy, the kind doesn't fit it, or a message is to be sent whose lane has no room.
pub fn can_evict(
    node: u32,
    cache: &Cache,
    line: u32,
    kind: EvictKind,
    room: bool,
) -> Result<(), Cause>
    requires { line < all_lines cache.now.sizes }
    ensures { (proc : ProcView) (headers : Headers) → result ≡ permit (evict_line cache.now.sizes node (share_of proc cache.now.copies headers) line kind room) }
{
    if has_none(cache, line) {
        return Err(Cause::NoCopy);
    }
    let at_home = node == cache.cfg().home_of(line);
    if !fits(at_home, kind, has_exclusive(cache, line)) {
        return Err(Cause::WrongKind);
    }
    if !departs(at_home, kind) {
        return Ok(());
    }
    if !room {
        return Err(Cause::LaneGate);
    }
    Ok(())
}

/// A copy leaves the cache: written back, with a hint to the home, or silently. It is refused where there is no copy, where the kind doesn't fit it, and where a message is to be sent whose lane has no room.
pub fn evict<D: Sharers>(
    node: u32,
    cache: &mut Cache,
    home: &mut HomeSide<D>,
    line: u32,
    kind: EvictKind,
    room: bool,
    out: &mut Sends,
) -> Result<(), Cause>
    requires same { cache.old.sizes ≡ home.old.sizes }
    requires node { home.old.node ≡ node }
    requires below { line < all_lines home.old.sizes }
    requires space { HasRoom out.old 1 }
    ensures done { OnOk result ((proc : ProcView) → Did (evict_line home.old.sizes node (share_of proc cache.old.copies home.old.headers) line kind room) (share_of proc cache.new.copies home.new.headers) out.old out.new) }
    ensures refused { IfErr result (λ cause. (proc : ProcView) → evict_line home.old.sizes node (share_of proc cache.old.copies home.old.headers) line kind room ≡ Err cause) }
    ensures home { home.new ≡ record home.old { dir = home.new.dir; headers = home.new.headers } }
    ensures cache { cache.new.sizes ≡ cache.old.sizes }
    ensures err_home { OnErr result (home.new ≡ home.old) }
    ensures err_cache { OnErr result (cache.new ≡ cache.old) }
    ensures err_out { OnErr result (out.new ≡ out.old) }
{
    can_evict(node, cache, line, kind, room)?;
    let at = cache.cfg().home_of(line);
    if node == at {
        leave_home(cache, home, line);
        return Ok(());
    }
    if is_silent(kind) {
        cache.drop_line(line);
        return Ok(());
    }
    leave_with(at, cache, line, kind, out);
    Ok(())
}

fn is_silent(kind: EvictKind) -> bool
    ensures { result ≡ is_silent_kind kind }
{
    matches!(kind, EvictKind::Silent)
}

// Whether an eviction sends a message.
fn departs(at_home: bool, kind: EvictKind) -> bool
    ensures { result ≡ departs_kind at_home kind }
{
    !(at_home || is_silent(kind))
}

// Whether this kind of eviction fits a copy.
fn fits(at_home: bool, kind: EvictKind, exclusive: bool) -> bool
    ensures { (copy : Copy) → is_empty copy ≡ false → is_exclusive copy ≡ exclusive → result ≡ fits_kind at_home kind copy }
{
    match kind {
        EvictKind::Wb => exclusive,
        EvictKind::Hint => !(exclusive || at_home),
        EvictKind::Silent => !exclusive,
    }
}

// A copy leaves the home's cache, and memory takes the words of an exclusive one.
fn leave_home<D: Sharers>(cache: &mut Cache, home: &mut HomeSide<D>, line: u32)
    requires same { cache.old.sizes ≡ home.old.sizes }
    requires below { line < all_lines home.old.sizes }
    requires line { home_of home.old.sizes line ≡ home.old.node }
    requires held { is_empty (copy_in cache.old.copies line) ≡ false }
    ensures share { (proc : ProcView) → share_of proc cache.new.copies home.new.headers ≡ (row_at home.old.sizes home.old.node (share_of proc cache.old.copies home.old.headers) line (λ share. leave_home_row share.copy share)).share }
    ensures home { home.new ≡ record home.old { dir = home.new.dir; headers = home.new.headers } }
    ensures cache { cache.new.sizes ≡ cache.old.sizes }
{
    if has_exclusive(cache, line) {
        let body = cache.body(line);
        cache.drop_line(line);
        home.set_local(line, false);
        home.set_dirty(line, false);
        home.put_memory(line, &body);
    } else {
        cache.drop_line(line);
        home.set_local(line, false);
    }
}

// A copy leaves another cache, with a message to the home: its words where it is exclusive, and else a hint.
fn leave_with(at: u32, cache: &mut Cache, line: u32, kind: EvictKind, out: &mut Sends)
    requires below { line < all_lines cache.old.sizes }
    requires held { is_empty (copy_in cache.old.copies line) ≡ false }
    requires loud { is_silent_kind kind ≡ false }
    requires space { HasRoom out.old 1 }
    ensures row { (proc : ProcView) (headers : Headers) (node : ℕ) → home_of cache.old.sizes line ≢ node → DoesRow cache.old.sizes node (share_of proc cache.old.copies headers) (share_of proc cache.new.copies headers) out.old out.new line (leave_remote_row at kind) }
    ensures cache { cache.new.sizes ≡ cache.old.sizes }
{
    match kind {
        EvictKind::Wb => {
            let body = cache.body(line);
            cache.drop_line(line);
            out.push(at, Msg::Wb { line, body });
        }
        EvictKind::Hint => {
            cache.drop_line(line);
            out.push(at, Msg::Rpl { line });
        }
        EvictKind::Silent => unreachable!(),
    }
}
