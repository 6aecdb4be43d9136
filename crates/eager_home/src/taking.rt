//! What a node does with a message, over its parts and without ages.

ghost use Rattle.std.specs.Prelude.{◌≡◌, ◌+◌, ◌<◌, true, false};
ghost use Rattle.op_model.specs.Messages.{msg_content};
ghost use Rattle.op_model.specs.MessageWords.{IsMsgOf};
ghost use Rattle.dir_header.specs.HomeSides.{room_in};
ghost use Rattle.node_share.specs.Parts.{HasRoom};
ghost use Rattle.magic_node.specs.Nodes.{node_share as share_in, is_for_home};
ghost use Rattle.eager_model.specs.Node.{meets_row};
ghost use Rattle.eager_home.specs.Nodes.{told_of, is_for_list, DoesMessage, IsEagerNode};

use crate::acks::on_inv_ack;
use crate::grants::on_getx;
use cpu_cache::{Cache, Effect, Proc};
use dir_header::{HomeSide, Sharers};
use home_get::on_get;
use home_getx::{on_fack, on_nakc, on_shwb, on_wb};
use msg_words::{Msg, Sends};
use node_share::no_effect;
use remote_handlers::{on_fwd_get, on_fwd_getx, on_inv, on_nak, on_put, on_putx};
use repl_hints::on_rpl;

/// The row that a message meets.
pub(crate) fn handle<D: Sharers>(
    number: u32,
    proc: &mut Proc,
    cache: &mut Cache,
    home: &mut HomeSide<D>,
    src: u32,
    msg: &Msg,
    out: &mut Sends,
) -> Effect
    requires node { IsEagerNode number proc.old cache.old home.old }
    requires src { src < home.old.sizes.nodes }
    requires msg { IsMsgOf home.old.sizes msg.now }
    requires met { meets_row home.old.sizes number (share_in proc.old cache.old home.old) src msg.now ≡ true }
    requires room { HasRoom out.old (home.old.sizes.nodes + 1) }
    ensures row { DoesMessage home.old.sizes number src (room_in home.old) msg.now (share_in proc.old cache.old home.old) (share_in proc.new cache.new home.new) out.old out.new }
    ensures effect { result ≡ told_of home.old.sizes number src (room_in home.old) msg.now proc.old.program (share_in proc.old cache.old home.old) }
    ensures home { home.new ≡ record home.old { dir = home.new.dir; headers = home.new.headers } }
    ensures cache { cache.new.sizes ≡ cache.old.sizes }
    ensures proc { proc.new.program ≡ proc.old.program }
{
    let _cached = cache.cfg();
    let _kept = home.cfg();
    let effect = no_effect();
    match *msg {
        Msg::Get { line } => on_get(home, cache, src, line, out).1,
        Msg::GetX { line } => {
            on_getx(home, cache, src, line, out);
            effect
        }
        Msg::InvAck { line } => {
            on_inv_ack(home, src, line);
            effect
        }
        Msg::Wb { line, body } => {
            on_wb(home, line, &body);
            effect
        }
        Msg::Rpl { line } => {
            on_rpl(home, src, line);
            effect
        }
        _ => handle_report(number, proc, cache, home, src, msg, out),
    }
}

// The row that an owner's report, a forward, an invalidation or an answer meets.
fn handle_report<D: Sharers>(
    number: u32,
    proc: &mut Proc,
    cache: &mut Cache,
    home: &mut HomeSide<D>,
    src: u32,
    msg: &Msg,
    out: &mut Sends,
) -> Effect
    requires node { IsEagerNode number proc.old cache.old home.old }
    requires src { src < home.old.sizes.nodes }
    requires msg { IsMsgOf home.old.sizes msg.now }
    requires met { meets_row home.old.sizes number (share_in proc.old cache.old home.old) src msg.now ≡ true }
    requires apart { is_for_list (msg_content msg.now) ≡ false }
    requires room { HasRoom out.old (home.old.sizes.nodes + 1) }
    ensures row { DoesMessage home.old.sizes number src (room_in home.old) msg.now (share_in proc.old cache.old home.old) (share_in proc.new cache.new home.new) out.old out.new }
    ensures effect { result ≡ told_of home.old.sizes number src (room_in home.old) msg.now proc.old.program (share_in proc.old cache.old home.old) }
    ensures home { home.new ≡ record home.old { dir = home.new.dir; headers = home.new.headers } }
    ensures cache { cache.new.sizes ≡ cache.old.sizes }
    ensures proc { proc.new.program ≡ proc.old.program }
{
    let _cached = cache.cfg();
    let _kept = home.cfg();
    let effect = no_effect();
    match *msg {
        Msg::ShWb { line, body } => {
            on_shwb(home, line, &body);
            effect
        }
        Msg::FAck { line } => {
            on_fack(home, line);
            effect
        }
        Msg::Nakc { line } => {
            on_nakc(home, line);
            effect
        }
        _ => handle_away(number, proc, cache, home, src, msg, out),
    }
}

// The row that a forward, an invalidation or an answer meets.
fn handle_away<D: Sharers>(
    number: u32,
    proc: &mut Proc,
    cache: &mut Cache,
    home: &mut HomeSide<D>,
    src: u32,
    msg: &Msg,
    out: &mut Sends,
) -> Effect
    requires node { IsEagerNode number proc.old cache.old home.old }
    requires src { src < home.old.sizes.nodes }
    requires msg { IsMsgOf home.old.sizes msg.now }
    requires met { meets_row home.old.sizes number (share_in proc.old cache.old home.old) src msg.now ≡ true }
    requires apart { is_for_home (msg_content msg.now) ≡ false }
    requires room { HasRoom out.old (home.old.sizes.nodes + 1) }
    ensures row { DoesMessage home.old.sizes number src (room_in home.old) msg.now (share_in proc.old cache.old home.old) (share_in proc.new cache.new home.new) out.old out.new }
    ensures effect { result ≡ told_of home.old.sizes number src (room_in home.old) msg.now proc.old.program (share_in proc.old cache.old home.old) }
    ensures home { home.new ≡ record home.old { dir = home.new.dir; headers = home.new.headers } }
    ensures cache { cache.new.sizes ≡ cache.old.sizes }
    ensures proc { proc.new.program ≡ proc.old.program }
{
    let cfg = cache.cfg();
    let _kept = home.cfg();
    let effect = no_effect();
    match *msg {
        Msg::FwdGet { line, req } => on_fwd_get(&cfg, number, cache, line, req, out),
        Msg::FwdGetX { line, req } => on_fwd_getx(&cfg, number, cache, line, req, out),
        Msg::Inv { line } => {
            on_inv(&cfg, proc, cache, line, out);
            effect
        }
        Msg::Put { line, body } => on_put(number, proc, cache, home, line, &body),
        Msg::PutX { line, body } => on_putx(number, proc, cache, home, line, &body),
        Msg::Nak { .. } => {
            on_nak(proc);
            effect
        }
        _ => unreachable!(),
    }
}
