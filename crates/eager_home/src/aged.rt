//! What a node does, over its parts and with their ages.

ghost use Rattle.std.specs.Prelude.{◌≡◌, ◌+◌, ◌<◌, ◌==◌, Bool, ℕ, [], true, List, Err, OnErr, IfOk, IfErr};
ghost use Rattle.line_map.specs.Sizes.{all_lines, home_of, AreSizes, Sizes};
ghost use Rattle.op_model.specs.declared.messages.Msg.{Msg as AMsg};
ghost use Rattle.op_model.specs.declared.operations.Op.{Op as AnOp};
ghost use Rattle.op_model.specs.Lines.{LineShare, Outcome};
ghost use Rattle.op_model.specs.Messages.{msg_content};
ghost use Rattle.op_model.specs.MessageWords.{IsMsgOf, words_behind};
ghost use Rattle.op_model.specs.Programs.{IsProgramOf};
ghost use Rattle.op_model.specs.Shares.{Share, copy_in};
ghost use Rattle.op_model.specs.Events.Node.{permit, TakeFrom};
ghost use Rattle.cpu_cache.specs.Processors.{next_of};
ghost use Rattle.node_share.specs.Parts.{HasRoom};
ghost use Rattle.magic_node.specs.Nodes.{node_share as share_in, input_of, FitsEvent};
ghost use Rattle.eager_model.specs.Node.{local, meets_row};
ghost use Rattle.eager_home.specs.Nodes.{IsEagerNode};
ghost use Rattle.eager_home.specs.Ages.{ages_of, as_ages, line_next, AreAgeLists};
ghost use Rattle.eager_home.specs.Aged.{ages_after, ages_before, line_named as line_named_by, AgedActs, AreWithin};

use crate::acting::act;
use crate::ages::{AgePair, NodeAges};
use crate::aging::{AgedEffect, age_given, begun, keep, left, line_ages, served_age, taken};
use crate::taking::handle;
use cpu_cache::{Cache, Proc};
use dir_header::{HomeSide, Sharers};
use magic_node::LocalEvent;
use msg_words::{Msg, Sends};
use node_share::line_of;
use op_model::Cause;

/// An event of a node by itself: what the definition of its act says, with the ages, or its first cause.
pub(crate) fn act_aged<D: Sharers>(
    number: u32,
    proc: &mut Proc,
    cache: &mut Cache,
    home: &mut HomeSide<D>,
    ages: &mut NodeAges,
    event: LocalEvent,
    room: bool,
    out: &mut Sends,
) -> Result<AgedEffect, Cause>
    requires node { IsEagerNode number proc.old cache.old home.old }
    requires lists { AreAgeLists home.old.sizes ages.old }
    requires young { AreWithin 18446744073709551614 (ages_of home.old.sizes number cache.old.copies ages.old) }
    requires fits { FitsEvent home.old.sizes number event }
    requires space { HasRoom out.old (home.old.sizes.nodes + 1) }
    ensures done { IfOk result (λ did. AgedActs home.old.sizes number proc.old.program [] (share_in proc.old cache.old home.old) (ages_of home.old.sizes number cache.old.copies ages.old) (input_of event room) 0 (share_in proc.new cache.new home.new) (ages_of home.old.sizes number cache.new.copies ages.new) out.old out.new did) }
    ensures refused { IfErr result (λ cause. local home.old.sizes number proc.old.program (share_in proc.old cache.old home.old) (input_of event room) ≡ Err cause) }
    ensures home { home.new ≡ record home.old { dir = home.new.dir; headers = home.new.headers } }
    ensures err_home { OnErr result (home.new ≡ home.old) }
    ensures cache { cache.new.sizes ≡ cache.old.sizes }
    ensures err_cache { OnErr result (cache.new ≡ cache.old) }
    ensures proc { proc.new.program ≡ proc.old.program }
    ensures err_proc { OnErr result (proc.new ≡ proc.old) }
    ensures lists { AreAgeLists home.old.sizes ages.new }
    ensures err_ages { OnErr result (ages.new ≡ ages.old) }
    ensures err_out { OnErr result (out.new ≡ out.old) }
{
    let line = line_named(number, proc, home, event);
    let before = line_ages(cache, home, ages, line);
    let given = age_given(home, line, before);
    let settled = settle(cache, home, event, line, before);
    let effect = act(number, proc, cache, home, event, room, out)?;
    let after = fill(cache, event, line, effect.done.is_some(), settled);
    let copy = keep(cache, home, ages, line, after);
    Ok(AgedEffect {
        effect,
        given,
        served: served_age(given, copy, &effect.served),
    })
}

// The line of an event of a node by itself.
fn line_named<D: Sharers>(number: u32, proc: &Proc, home: &HomeSide<D>, event: LocalEvent) -> u32
    requires numbered { number < home.now.sizes.nodes }
    requires sizes { AreSizes home.now.sizes }
    requires program { IsProgramOf home.now.sizes number proc.now.program }
    requires fits { FitsEvent home.now.sizes number event }
    ensures value { (room : Bool) → result ≡ line_named_by home.now.sizes proc.now.program proc.now.place (input_of event room) }
    ensures below { result < all_lines home.now.sizes }
{
    match event {
        LocalEvent::Hit | LocalEvent::Issue => next_line(number, proc, home),
        LocalEvent::Evict { line, .. } | LocalEvent::Reclaim { line } => line,
    }
}

// The line of the next operation, and 0 where there is none.
fn next_line<D: Sharers>(number: u32, proc: &Proc, home: &HomeSide<D>) -> u32
    requires numbered { number < home.now.sizes.nodes }
    requires sizes { AreSizes home.now.sizes }
    requires program { IsProgramOf home.now.sizes number proc.now.program }
    ensures value { result ≡ line_next home.now.sizes (next_of proc.now) }
    ensures below { result < all_lines home.now.sizes }
{
    match proc.next_op() {
        Some(op) => line_of(home.cfg(), &op),
        None => 0,
    }
}

// The ages of a line before an event, where its copy may be about to leave.
fn settle<D: Sharers>(
    cache: &Cache,
    home: &HomeSide<D>,
    event: LocalEvent,
    line: u32,
    ages: AgePair,
) -> AgePair
    requires same { cache.now.sizes ≡ home.now.sizes }
    requires below { line < all_lines home.now.sizes }
    ensures { (share : LineShare) → share.copy ≡ copy_in cache.now.copies line → as_ages result ≡ ages_before event (home.now.node == home_of home.now.sizes line) share (as_ages ages) }
{
    match event {
        LocalEvent::Evict { .. } => left(cache, home, line, ages),
        _ => ages,
    }
}

// The ages of a line after an event, where its copy may have been filled from memory.
fn fill(cache: &Cache, event: LocalEvent, line: u32, done: bool, ages: AgePair) -> AgePair
    requires below { line < all_lines cache.now.sizes }
    requires young { ages.memory < 18446744073709551615 }
    ensures { (row : Outcome) → row.share.copy ≡ copy_in cache.now.copies line → (event ≡ LocalEvent.Issue → row.done ≡ done) → as_ages result ≡ ages_after event row (as_ages ages) }
{
    match event {
        LocalEvent::Issue => begun(cache, line, done, ages),
        _ => ages,
    }
}

/// Whether a message's act is done, or the first cause why not: no line is ever called in for a link.
pub(crate) fn can_take_on(victim: Option<u32>) -> Result<(), Cause>
    ensures { (sizes : Sizes) (number : ℕ) (program : List AnOp) (share : Share) (src : ℕ) (msg : AMsg) → result ≡ permit (local sizes number program share (TakeFrom src msg victim)) }
{
    if victim.is_some() {
        return Err(Cause::VictimUnasked);
    }
    Ok(())
}

/// What the definition of a message's act says, with the ages, or its first cause. The message has this age.
pub(crate) fn take_aged<D: Sharers>(
    number: u32,
    proc: &mut Proc,
    cache: &mut Cache,
    home: &mut HomeSide<D>,
    ages: &mut NodeAges,
    src: u32,
    msg: &Msg,
    victim: Option<u32>,
    age: u64,
    out: &mut Sends,
) -> Result<AgedEffect, Cause>
    requires node { IsEagerNode number proc.old cache.old home.old }
    requires lists { AreAgeLists home.old.sizes ages.old }
    requires src { src < home.old.sizes.nodes }
    requires msg { IsMsgOf home.old.sizes msg.now }
    requires met { meets_row home.old.sizes number (share_in proc.old cache.old home.old) src msg.now ≡ true }
    requires space { HasRoom out.old (home.old.sizes.nodes + 1) }
    ensures done { IfOk result (λ did. AgedActs home.old.sizes number proc.old.program (words_behind (msg_content msg.now)) (share_in proc.old cache.old home.old) (ages_of home.old.sizes number cache.old.copies ages.old) (TakeFrom src msg.now victim) age (share_in proc.new cache.new home.new) (ages_of home.old.sizes number cache.new.copies ages.new) out.old out.new did) }
    ensures refused { IfErr result (λ cause. local home.old.sizes number proc.old.program (share_in proc.old cache.old home.old) (TakeFrom src msg.now victim) ≡ Err cause) }
    ensures home { home.new ≡ record home.old { dir = home.new.dir; headers = home.new.headers } }
    ensures err_home { OnErr result (home.new ≡ home.old) }
    ensures cache { cache.new.sizes ≡ cache.old.sizes }
    ensures err_cache { OnErr result (cache.new ≡ cache.old) }
    ensures proc { proc.new.program ≡ proc.old.program }
    ensures err_proc { OnErr result (proc.new ≡ proc.old) }
    ensures lists { AreAgeLists home.old.sizes ages.new }
    ensures err_ages { OnErr result (ages.new ≡ ages.old) }
    ensures err_out { OnErr result (out.new ≡ out.old) }
{
    can_take_on(victim)?;
    let line = msg.line();
    let before = line_ages(cache, home, ages, line);
    let given = age_given(home, line, before);
    let after = taken(home, msg, age, before);
    let effect = handle(number, proc, cache, home, src, msg, out);
    let copy = keep(cache, home, ages, line, after);
    Ok(AgedEffect {
        effect,
        given,
        served: served_age(given, copy, &effect.served),
    })
}
