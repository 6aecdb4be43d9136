//! Answers to a node's own request.

ghost use Rattle.std.specs.Prelude.{◌≡◌, ◌<◌, ◌==◌, true, length, IsSome};
ghost use Rattle.line_map.specs.Sizes.{all_lines, home_of};
ghost use Rattle.op_model.specs.Lines.{is_pending};
ghost use Rattle.op_model.specs.Shares.{want_on, is_set_empty};
ghost use Rattle.op_model.specs.Tables.Remote.{on_put as put_row, on_putx as putx_row, waits_load, waits_write};
ghost use Rattle.op_model.specs.Programs.{IsProgramOf};
ghost use Rattle.cpu_cache.specs.Effects.{effect_of};
ghost use Rattle.dir_header.specs.HomeSides.{header_at};
ghost use Rattle.node_share.specs.Parts.{share_of, row_at};

use cpu_cache::{Cache, Effect, Proc, Served};
use dir_header::{HomeSide, Sharers};
use line_map::Body;
use node_share::{finish_on, load_on};

/// Put: the load is done. Elsewhere than at the home its words are cached unless it is marked; the home takes them into memory too.
pub fn on_put<D: Sharers>(
    node: u32,
    proc: &mut Proc,
    cache: &mut Cache,
    home: &mut HomeSide<D>,
    line: u32,
    body: &Body,
) -> Effect
    requires same { cache.old.sizes ≡ home.old.sizes }
    requires node { home.old.node ≡ node }
    requires below { line < all_lines home.old.sizes }
    requires width { length body.now ≡ home.old.sizes.words }
    requires waits { waits_load (want_on home.old.sizes proc.old.want line) ≡ true }
    requires alone { is_set_empty home.old.sizes (share_of proc.old cache.old.copies home.old.headers) line ≡ true }
    requires pending { home_of home.old.sizes line ≡ node → is_pending (header_at home.old line) ≡ true }
    requires acks { home_of home.old.sizes line ≡ node → (header_at home.old line).acks ≡ 0 }
    requires program { IsProgramOf home.old.sizes node proc.old.program }
    ensures share { share_of proc.new cache.new.copies home.new.headers ≡ (row_at home.old.sizes node (share_of proc.old cache.old.copies home.old.headers) line (put_row (node == home_of home.old.sizes line) body.now)).share }
    ensures effect { result ≡ effect_of node proc.old.program proc.old.place body.now (row_at home.old.sizes node (share_of proc.old cache.old.copies home.old.headers) line (put_row (node == home_of home.old.sizes line) body.now)) }
    ensures home { home.new ≡ record home.old { dir = home.new.dir; headers = home.new.headers } }
    ensures cache { cache.new.sizes ≡ cache.old.sizes }
    ensures proc { proc.new.program ≡ proc.old.program }
{
    let cfg = cache.cfg();
    let want = proc.want().unwrap();
    let effect = Effect {
        served: Served::Nothing,
        done: Some(load_on(cfg, &want.op, body)),
    };
    proc.finish();
    if cfg.home_of(line) == node {
        cache.fill_s(line, *body);
        home.put_memory(line, body);
        home.set_dirty(line, false);
        home.set_local(line, true);
        home.end_pending(line);
        return effect;
    }
    if want.marked {
        return effect;
    }
    cache.fill_s(line, *body);
    effect
}

/// PutX: the write is done on the words. The home owns the line then, and nobody is listed.
pub fn on_putx<D: Sharers>(
    node: u32,
    proc: &mut Proc,
    cache: &mut Cache,
    home: &mut HomeSide<D>,
    line: u32,
    body: &Body,
) -> Effect
    requires same { cache.old.sizes ≡ home.old.sizes }
    requires node { home.old.node ≡ node }
    requires below { line < all_lines home.old.sizes }
    requires width { length body.now ≡ home.old.sizes.words }
    requires waits { waits_write (want_on home.old.sizes proc.old.want line) ≡ true }
    requires alone { is_set_empty home.old.sizes (share_of proc.old cache.old.copies home.old.headers) line ≡ true }
    requires pending { home_of home.old.sizes line ≡ node → is_pending (header_at home.old line) ≡ true }
    requires acks { home_of home.old.sizes line ≡ node → (header_at home.old line).acks ≡ 0 }
    requires program { IsProgramOf home.old.sizes node proc.old.program }
    ensures share { share_of proc.new cache.new.copies home.new.headers ≡ (row_at home.old.sizes node (share_of proc.old cache.old.copies home.old.headers) line (putx_row (node == home_of home.old.sizes line) body.now)).share }
    ensures effect { result ≡ effect_of node proc.old.program proc.old.place body.now (row_at home.old.sizes node (share_of proc.old cache.old.copies home.old.headers) line (putx_row (node == home_of home.old.sizes line) body.now)) }
    ensures home { home.new ≡ record home.old { dir = home.new.dir; headers = home.new.headers } }
    ensures cache { cache.new.sizes ≡ cache.old.sizes }
    ensures proc { proc.new.program ≡ proc.old.program }
{
    let cfg = cache.cfg();
    let op = proc.want().unwrap().op;
    let effect = finish_on(proc, cache, &op, *body);
    if cfg.home_of(line) == node {
        home.set_dirty(line, true);
        home.set_local(line, true);
        home.end_pending(line);
        home.list_only(line, None);
        return effect;
    }
    effect
}

/// Nak: the operation may be begun again.
pub fn on_nak(proc: &mut Proc)
    requires { IsSome proc.old.want }
    ensures { proc.new ≡ record proc.old { want = None } }
{
    proc.refuse();
}
