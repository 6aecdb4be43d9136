//! Forwards of a home to the owner of a line.

ghost use Rattle.std.specs.Prelude.{◌≡◌, ◌≢◌, ◌<◌, ◌==◌, [], ◌∷◌, if◌then◌else◌};
ghost use Rattle.line_map.specs.Sizes.{all_lines, home_of};
ghost use Rattle.op_model.specs.declared.messages.Msg.TheVariants as msg;
ghost use Rattle.op_model.specs.Tables.Remote.{on_fwd_get as fwd_get_row, on_fwd_getx as fwd_getx_row};
ghost use Rattle.op_model.specs.Shares.{Headers};
ghost use Rattle.cpu_cache.specs.Effects.{effect_of};
ghost use Rattle.cpu_cache.specs.Processors.{ProcView};
ghost use Rattle.node_share.specs.Parts.{share_of, row_at, sent, DoesRow, HasRoom};

use cpu_cache::{Cache, Effect, Served};
use line_map::Machine;
use msg_words::{Msg, NakCause, Sends};
use node_share::{has_exclusive, no_effect};

/// FwdGet: the copy is shared with the requester.
pub fn on_fwd_get(
    cfg: &Machine,
    node: u32,
    cache: &mut Cache,
    line: u32,
    req: u32,
    out: &mut Sends,
) -> Effect
    requires same { cache.old.sizes ≡ cfg.now }
    requires below { line < all_lines cfg.now }
    requires away { home_of cfg.now line ≢ node }
    requires room { HasRoom out.old 2 }
    ensures row { (proc : ProcView) (headers : Headers) → DoesRow cfg.now node (share_of proc cache.old.copies headers) (share_of proc cache.new.copies headers) out.old out.new line (fwd_get_row (home_of cfg.now line) req) }
    ensures effect { (proc : ProcView) (headers : Headers) → result ≡ effect_of node proc.program proc.place [] (row_at cfg.now node (share_of proc cache.old.copies headers) line (fwd_get_row (home_of cfg.now line) req)) }
    ensures kept { cache.new.sizes ≡ cache.old.sizes }
{
    let home = cfg.home_of(line);
    if !has_exclusive(cache, line) {
        tell_gone(home, line, req, out);
        return no_effect();
    }
    let body = cache.body(line);
    cache.downgrade(line);
    answer(
        home,
        req,
        Msg::Put { line, body },
        Msg::ShWb { line, body },
        out,
    );
    Effect {
        served: Served::LoadBy { node: req, body },
        done: None,
    }
}

/// FwdGetX: the copy is handed to the requester.
pub fn on_fwd_getx(
    cfg: &Machine,
    node: u32,
    cache: &mut Cache,
    line: u32,
    req: u32,
    out: &mut Sends,
) -> Effect
    requires same { cache.old.sizes ≡ cfg.now }
    requires below { line < all_lines cfg.now }
    requires away { home_of cfg.now line ≢ node }
    requires room { HasRoom out.old 2 }
    ensures row { (proc : ProcView) (headers : Headers) → DoesRow cfg.now node (share_of proc cache.old.copies headers) (share_of proc cache.new.copies headers) out.old out.new line (fwd_getx_row (home_of cfg.now line) req) }
    ensures effect { (proc : ProcView) (headers : Headers) → result ≡ effect_of node proc.program proc.place [] (row_at cfg.now node (share_of proc cache.old.copies headers) line (fwd_getx_row (home_of cfg.now line) req)) }
    ensures kept { cache.new.sizes ≡ cache.old.sizes }
{
    let home = cfg.home_of(line);
    if !has_exclusive(cache, line) {
        tell_gone(home, line, req, out);
        return no_effect();
    }
    let body = cache.body(line);
    cache.drop_line(line);
    answer(home, req, Msg::PutX { line, body }, Msg::FAck { line }, out);
    no_effect()
}

// The copy is gone already. The requester is told, and then the home.
fn tell_gone(home: u32, line: u32, req: u32, out: &mut Sends)
    requires { HasRoom out.old 2 }
    ensures { out.new ≡ sent out.old ((req, msg.Nak line NakCause.Gone) ∷ (home, msg.Nakc line) ∷ []) }
{
    out.push(
        req,
        Msg::Nak {
            line,
            cause: NakCause::Gone,
        },
    );
    out.push(home, Msg::Nakc { line });
}

// The requester is answered, and the home is told where it isn't the requester.
fn answer(home: u32, req: u32, words: Msg, report: Msg, out: &mut Sends)
    requires { HasRoom out.old 2 }
    ensures { out.new ≡ sent out.old (if req == home then (home, words) ∷ [] else (req, words) ∷ (home, report) ∷ []) }
{
    if req == home {
        out.push(home, words);
    } else {
        out.push(req, words);
        out.push(home, report);
    }
}
