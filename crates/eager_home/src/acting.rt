//! What a node does by itself, over its parts and without ages.

ghost use Rattle.std.specs.Prelude.{◌≡◌, ◌+◌, ◌<◌, [], Err, OnErr, IfOk, IfErr};
ghost use Rattle.line_map.specs.Sizes.{all_lines};
ghost use Rattle.op_model.specs.Events.Node.{HitNext, EvictLine, permit};
ghost use Rattle.op_model.specs.Shares.{Unlinked};
ghost use Rattle.cpu_cache.specs.Processors.{ProcView};
ghost use Rattle.msg_words.specs.SendList.{SendList};
ghost use Rattle.node_share.specs.Parts.{HasRoom};
ghost use Rattle.node_share.specs.Effects.{Acts};
ghost use Rattle.magic_node.specs.Nodes.{node_share as share_in, input_of, FitsEvent};
ghost use Rattle.eager_model.specs.Node.{local};
ghost use Rattle.eager_home.specs.Nodes.{IsEagerNode};

use crate::writes::{can_issue, issue};
use cpu_cache::{Cache, Effect, Proc};
use dir_header::{HomeSide, Sharers};
use magic_node::LocalEvent;
use msg_words::Sends;
use node_share::no_effect;
use op_model::{Cause, EvictKind};
use pi_handlers::{can_hit, hit};
use repl_hints::{can_evict, evict};

/// Whether an event of a node by itself is done, or the first cause why not. No list holds a link, so no line is called in for one.
pub(crate) fn can_act<D: Sharers>(
    number: u32,
    proc: &Proc,
    cache: &Cache,
    home: &HomeSide<D>,
    event: LocalEvent,
    room: bool,
) -> Result<(), Cause>
    requires node { IsEagerNode number proc.now cache.now home.now }
    requires fits { FitsEvent home.now.sizes number event }
    ensures { result ≡ permit (local home.now.sizes number proc.now.program (share_in proc.now cache.now home.now) (input_of event room)) }
{
    match event {
        LocalEvent::Hit => can_hit(proc, cache),
        LocalEvent::Issue => can_issue(number, proc, cache, home),
        LocalEvent::Evict { line, kind } => can_evict(number, cache, line, kind, room),
        LocalEvent::Reclaim { .. } => Err(Cause::NoLinks),
    }
}

/// An event of a node by itself: what the definition of its act says, or its first cause.
pub(crate) fn act<D: Sharers>(
    number: u32,
    proc: &mut Proc,
    cache: &mut Cache,
    home: &mut HomeSide<D>,
    event: LocalEvent,
    room: bool,
    out: &mut Sends,
) -> Result<Effect, Cause>
    requires node { IsEagerNode number proc.old cache.old home.old }
    requires fits { FitsEvent home.old.sizes number event }
    requires space { HasRoom out.old (home.old.sizes.nodes + 1) }
    ensures done { IfOk result (λ effect. Acts number proc.old.program proc.old.place [] (local home.old.sizes number proc.old.program (share_in proc.old cache.old home.old) (input_of event room)) (share_in proc.new cache.new home.new) out.old out.new effect) }
    ensures refused { IfErr result (λ cause. local home.old.sizes number proc.old.program (share_in proc.old cache.old home.old) (input_of event room) ≡ Err cause) }
    ensures home { home.new ≡ record home.old { dir = home.new.dir; headers = home.new.headers } }
    ensures err_home { OnErr result (home.new ≡ home.old) }
    ensures cache { cache.new.sizes ≡ cache.old.sizes }
    ensures err_cache { OnErr result (cache.new ≡ cache.old) }
    ensures proc { proc.new.program ≡ proc.old.program }
    ensures err_proc { OnErr result (proc.new ≡ proc.old) }
    ensures err_out { OnErr result (out.new ≡ out.old) }
{
    match event {
        LocalEvent::Hit => hit_here(number, proc, cache, home),
        LocalEvent::Issue => issue(number, proc, cache, home, out),
        LocalEvent::Evict { line, kind } => leave(number, cache, home, line, kind, room, out),
        LocalEvent::Reclaim { .. } => Err(Cause::NoLinks),
    }
}

// A hit, beside the node's home.
fn hit_here<D: Sharers>(
    number: u32,
    proc: &mut Proc,
    cache: &mut Cache,
    home: &HomeSide<D>,
) -> Result<Effect, Cause>
    requires { IsEagerNode number proc.old cache.old home.now }
    ensures done { IfOk result (λ effect. (out : SendList) → Acts number proc.old.program proc.old.place [] (local home.now.sizes number proc.old.program (share_in proc.old cache.old home.now) HitNext) (share_in proc.new cache.new home.now) out out effect) }
    ensures refused { IfErr result (λ cause. local home.now.sizes number proc.old.program (share_in proc.old cache.old home.now) HitNext ≡ Err cause) }
    ensures cache { cache.new.sizes ≡ cache.old.sizes }
    ensures err_cache { OnErr result (cache.new ≡ cache.old) }
    ensures proc { proc.new.program ≡ proc.old.program }
    ensures err_proc { OnErr result (proc.new ≡ proc.old) }
{
    let _kept = home.cfg();
    hit(proc, cache)
}

// A copy leaves the cache.
fn leave<D: Sharers>(
    number: u32,
    cache: &mut Cache,
    home: &mut HomeSide<D>,
    line: u32,
    kind: EvictKind,
    room: bool,
    out: &mut Sends,
) -> Result<Effect, Cause>
    requires same { cache.old.sizes ≡ home.old.sizes }
    requires node { home.old.node ≡ number }
    requires below { line < all_lines home.old.sizes }
    requires space { HasRoom out.old 1 }
    ensures done { IfOk result (λ effect. (proc : ProcView) → Acts number proc.program proc.place [] (local home.old.sizes number proc.program (share_in proc cache.old home.old) (EvictLine line kind room)) (share_in proc cache.new home.new) out.old out.new effect) }
    ensures refused { IfErr result (λ cause. (proc : ProcView) → local home.old.sizes number proc.program (share_in proc cache.old home.old) (EvictLine line kind room) ≡ Err cause) }
    ensures home { home.new ≡ record home.old { dir = home.new.dir; headers = home.new.headers } }
    ensures err_home { OnErr result (home.new ≡ home.old) }
    ensures cache { cache.new.sizes ≡ cache.old.sizes }
    ensures err_cache { OnErr result (cache.new ≡ cache.old) }
    ensures err_out { OnErr result (out.new ≡ out.old) }
{
    match evict(number, cache, home, line, kind, room, out) {
        Ok(()) => Ok(no_effect()),
        Err(cause) => Err(cause),
    }
}
