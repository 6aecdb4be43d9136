//! What a node does with a message, over its parts.

ghost use Rattle.std.specs.Prelude.{◌≡◌, ◌+◌, ◌<◌, true, false, Err, OnErr, IfOk, IfErr};
ghost use Rattle.line_map.specs.Sizes.{home_of};
ghost use Rattle.op_model.specs.Messages.{msg_line, msg_content};
ghost use Rattle.op_model.specs.MessageWords.{IsMsgOf, words_behind};
ghost use Rattle.op_model.specs.Events.Node.{asks_victim, fits_victim, meets_row, TakeFrom, local, permit};
ghost use Rattle.op_model.specs.Tables.Remote.{row_of};
ghost use Rattle.op_model.specs.Shares.{Copies};
ghost use Rattle.cpu_cache.specs.Effects.{effect_of};
ghost use Rattle.dir_header.specs.HomeSides.{room_in};
ghost use Rattle.cpu_cache.specs.Processors.{ProcView};
ghost use Rattle.node_share.specs.Parts.{row_at, share_of, DoesRow, HasRoom};
ghost use Rattle.node_share.specs.Effects.{Acts};
ghost use Rattle.magic_node.specs.Nodes.{node_share as share_in, is_for_home, IsMagicNode};

use cpu_cache::{Cache, Effect, Proc};
use dir_header::{HomeSide, Sharers};
use home_get::{on_get, wants_victim};
use home_getx::{on_fack, on_getx, on_inv_ack, on_nakc, on_shwb, on_wb};
use msg_words::{Msg, Sends};
use node_share::{is_idle, no_effect};
use op_model::Cause;
use reclaim::{begin, holds_link};
use remote_handlers::{on_fwd_get, on_fwd_getx, on_inv, on_nak, on_put, on_putx};
use repl_hints::on_rpl;

/// The row that a message meets. Behind a Get that is refused for want of a link no line is called in yet.
pub(crate) fn handle<D: Sharers>(
    number: u32,
    proc: &mut Proc,
    cache: &mut Cache,
    home: &mut HomeSide<D>,
    src: u32,
    msg: &Msg,
    out: &mut Sends,
) -> Effect
    requires node { IsMagicNode number proc.old cache.old home.old }
    requires src { src < home.old.sizes.nodes }
    requires msg { IsMsgOf home.old.sizes msg.now }
    requires met { meets_row home.old.sizes number (share_in proc.old cache.old home.old) src msg.now ≡ true }
    requires room { HasRoom out.old (home.old.sizes.nodes + 1) }
    ensures row { DoesRow home.old.sizes number (share_in proc.old cache.old home.old) (share_in proc.new cache.new home.new) out.old out.new (msg_line msg.now) (row_of number (home_of home.old.sizes (msg_line msg.now)) src (room_in home.old) (msg_content msg.now)) }
    ensures effect { result ≡ effect_of number proc.old.program proc.old.place (words_behind (msg_content msg.now)) (row_at home.old.sizes number (share_in proc.old cache.old home.old) (msg_line msg.now) (row_of number (home_of home.old.sizes (msg_line msg.now)) src (room_in home.old) (msg_content msg.now))) }
    ensures home { home.new ≡ record home.old { dir = home.new.dir; headers = home.new.headers } }
    ensures cache { cache.new.sizes ≡ cache.old.sizes }
    ensures proc { proc.new.program ≡ proc.old.program }
{
    let _cached = cache.cfg();
    let _kept = home.cfg();
    let effect = no_effect();
    match *msg {
        Msg::Get { line } => on_get(home, cache, src, line, out).1,
        Msg::GetX { line } => {
            on_getx(home, cache, src, line, out);
            effect
        }
        Msg::Wb { line, body } => {
            on_wb(home, line, &body);
            effect
        }
        Msg::Rpl { line } => {
            on_rpl(home, src, line);
            effect
        }
        Msg::InvAck { line } => on_inv_ack(home, proc, cache, src, line, out),
        Msg::ShWb { line, body } => {
            on_shwb(home, line, &body);
            effect
        }
        Msg::FAck { line } => {
            on_fack(home, line);
            effect
        }
        Msg::Nakc { line } => {
            on_nakc(home, line);
            effect
        }
        _ => handle_away(number, proc, cache, home, src, msg, out),
    }
}

// The row that a forward, an invalidation or an answer meets.
fn handle_away<D: Sharers>(
    number: u32,
    proc: &mut Proc,
    cache: &mut Cache,
    home: &mut HomeSide<D>,
    src: u32,
    msg: &Msg,
    out: &mut Sends,
) -> Effect
    requires node { IsMagicNode number proc.old cache.old home.old }
    requires src { src < home.old.sizes.nodes }
    requires msg { IsMsgOf home.old.sizes msg.now }
    requires met { meets_row home.old.sizes number (share_in proc.old cache.old home.old) src msg.now ≡ true }
    requires apart { is_for_home (msg_content msg.now) ≡ false }
    requires room { HasRoom out.old (home.old.sizes.nodes + 1) }
    ensures row { DoesRow home.old.sizes number (share_in proc.old cache.old home.old) (share_in proc.new cache.new home.new) out.old out.new (msg_line msg.now) (row_of number (home_of home.old.sizes (msg_line msg.now)) src (room_in home.old) (msg_content msg.now)) }
    ensures effect { result ≡ effect_of number proc.old.program proc.old.place (words_behind (msg_content msg.now)) (row_at home.old.sizes number (share_in proc.old cache.old home.old) (msg_line msg.now) (row_of number (home_of home.old.sizes (msg_line msg.now)) src (room_in home.old) (msg_content msg.now))) }
    ensures home { home.new ≡ record home.old { dir = home.new.dir; headers = home.new.headers } }
    ensures cache { cache.new.sizes ≡ cache.old.sizes }
    ensures proc { proc.new.program ≡ proc.old.program }
{
    let cfg = cache.cfg();
    let _kept = home.cfg();
    let effect = no_effect();
    match *msg {
        Msg::FwdGet { line, req } => on_fwd_get(&cfg, number, cache, line, req, out),
        Msg::FwdGetX { line, req } => on_fwd_getx(&cfg, number, cache, line, req, out),
        Msg::Inv { line } => {
            on_inv(&cfg, proc, cache, line, out);
            effect
        }
        Msg::Put { line, body } => on_put(number, proc, cache, home, line, &body),
        Msg::PutX { line, body } => on_putx(number, proc, cache, home, line, &body),
        Msg::Nak { .. } => {
            on_nak(proc);
            effect
        }
        _ => unreachable!(),
    }
}

/// Whether a message calls a line in: a Get that is refused for want of a link.
fn asks<D: Sharers>(
    number: u32,
    proc: &Proc,
    cache: &Cache,
    home: &HomeSide<D>,
    src: u32,
    msg: &Msg,
) -> bool
    requires node { IsMagicNode number proc.now cache.now home.now }
    requires src { src < home.now.sizes.nodes }
    requires met { meets_row home.now.sizes number (share_in proc.now cache.now home.now) src msg.now ≡ true }
    ensures { result ≡ asks_victim home.now.charge home.now.sizes number (share_in proc.now cache.now home.now) src msg.now }
{
    match *msg {
        Msg::Get { line } => wants_victim(home, src, line),
        _ => false,
    }
}

/// Whether a line can be called in for its links.
fn fits<D: Sharers>(number: u32, home: &HomeSide<D>, line: u32) -> bool
    requires node { home.now.node ≡ number }
    requires numbered { number < home.now.sizes.nodes }
    ensures { (proc : ProcView) (copies : Copies) → result ≡ fits_victim home.now.charge home.now.sizes number (share_of proc copies home.now.headers) line }
{
    let cfg = home.cfg();
    let _some = cfg.lines();
    if line >= cfg.all_lines() {
        return false;
    }
    if cfg.home_of(line) != number {
        return false;
    }
    if !holds_link(home, line) {
        return false;
    }
    is_idle(home.header(line))
}

/// Whether a message's act is done, or the first cause why not: a line is to be called in and none is given, or one is given and none is to be, or this one doesn't fit.
pub(crate) fn can_take_on<D: Sharers>(
    number: u32,
    proc: &Proc,
    cache: &Cache,
    home: &HomeSide<D>,
    src: u32,
    msg: &Msg,
    victim: Option<u32>,
) -> Result<(), Cause>
    requires node { IsMagicNode number proc.now cache.now home.now }
    requires src { src < home.now.sizes.nodes }
    requires met { meets_row home.now.sizes number (share_in proc.now cache.now home.now) src msg.now ≡ true }
    ensures { result ≡ permit (local home.now.charge home.now.sizes number proc.now.program (share_in proc.now cache.now home.now) (TakeFrom src msg.now victim)) }
{
    let asked = asks(number, proc, cache, home, src, msg);
    let Some(line) = victim else {
        if asked {
            return Err(Cause::VictimMissing);
        }
        return Ok(());
    };
    if !asked {
        return Err(Cause::VictimUnasked);
    }
    if !fits(number, home, line) {
        return Err(Cause::VictimUnfit);
    }
    Ok(())
}

/// What the definition of a message's act says, or its first cause.
pub(crate) fn take_on<D: Sharers>(
    number: u32,
    proc: &mut Proc,
    cache: &mut Cache,
    home: &mut HomeSide<D>,
    src: u32,
    msg: &Msg,
    victim: Option<u32>,
    out: &mut Sends,
) -> Result<Effect, Cause>
    requires node { IsMagicNode number proc.old cache.old home.old }
    requires src { src < home.old.sizes.nodes }
    requires msg { IsMsgOf home.old.sizes msg.now }
    requires met { meets_row home.old.sizes number (share_in proc.old cache.old home.old) src msg.now ≡ true }
    requires space { HasRoom out.old (home.old.sizes.nodes + 1) }
    ensures done { IfOk result (λ effect. Acts number proc.old.program proc.old.place (words_behind (msg_content msg.now)) (local home.old.charge home.old.sizes number proc.old.program (share_in proc.old cache.old home.old) (TakeFrom src msg.now victim)) (share_in proc.new cache.new home.new) out.old out.new effect) }
    ensures refused { IfErr result (λ cause. local home.old.charge home.old.sizes number proc.old.program (share_in proc.old cache.old home.old) (TakeFrom src msg.now victim) ≡ Err cause) }
    ensures home { home.new ≡ record home.old { dir = home.new.dir; headers = home.new.headers } }
    ensures err_home { OnErr result (home.new ≡ home.old) }
    ensures cache { cache.new.sizes ≡ cache.old.sizes }
    ensures err_cache { OnErr result (cache.new ≡ cache.old) }
    ensures proc { proc.new.program ≡ proc.old.program }
    ensures err_proc { OnErr result (proc.new ≡ proc.old) }
    ensures err_out { OnErr result (out.new ≡ out.old) }
{
    can_take_on(number, proc, cache, home, src, msg, victim)?;
    let _seen = home.cfg();
    let effect = handle(number, proc, cache, home, src, msg, out);
    let _kept = cache.cfg();
    let Some(line) = victim else {
        return Ok(effect);
    };
    let _ = begin(home, line, out);
    Ok(effect)
}
