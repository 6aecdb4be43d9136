//! A node.

ghost use Rattle.std.specs.Prelude.{◌≡◌, ◌≢◌, ◌+◌, ◌<◌, [], true, Err, IfOk, IfErr, OnErr};
ghost use Rattle.line_map.specs.Sizes.{AreSizes};
ghost use Rattle.op_model.specs.Events.Node.{local as local_of, meets_row, permit, TakeFrom};
ghost use Rattle.op_model.specs.Messages.{msg_content};
ghost use Rattle.op_model.specs.MessageWords.{IsMsgOf, words_behind};
ghost use Rattle.op_model.specs.OwnPart.{IsOwnPart};
ghost use Rattle.op_model.specs.Run.Runs.{start_share};
ghost use Rattle.op_model.specs.Programs.{IsProgramOf};
ghost use Rattle.dir_header.specs.HomeSides.{IsFresh};
ghost use Rattle.node_share.specs.Parts.{HasRoom};
ghost use Rattle.node_share.specs.Effects.{Acts};
ghost use Rattle.message_range.specs.Fitting.{IsMsgForOther, IsSentOf, IsShareOf};
ghost use Rattle.magic_node.specs.Nodes.{input_of, FitsEvent, HasSent};

use crate::acting::{act, can_act};
use crate::acts::LocalEvent;
use crate::taking::{can_take_on, take_on};
use cpu_cache::{Cache, Effect, Proc};
use dir_header::{HomeSide, Sharers};
use line_map::Machine;
use msg_words::{Msg, Sends};
use op_model::{Cause, NoMemory, Program};
use std::alloc::Global;
use std::marker::Model;

/// A node, seen as its machine, its number, its program, whether its lists cost links, its share of the state, and its directory. It keeps what holds of each node's share.
#[derive(Drop)]
pub struct MagicNode<D: Sharers> {
    number: u32,
    proc: Proc,
    cache: Cache,
    home: HomeSide<D>,
}

impl<D: Sharers> Model for MagicNode<D> {
    ghost use Rattle.magic_node.specs.Nodes.{MagicView, magic_view, IsMagicNode};
    ghost use Rattle.magic_node.specs.Codes.{magic_code};

    ghost Value = { MagicView D };

    ghost coded = { magic_code D.code };

    ghost view = { λ n. magic_view n.number n.proc n.cache n.home };

    ghost invariant = { λ n. IsMagicNode n.number n.proc n.cache n.home };
}

impl<D: Sharers> MagicNode<D> {
    /// The node at the start: it has done nothing, it has no copies, its memory is zeros, and nobody is listed.
    pub fn new(
        alloc: Global,
        cfg: Machine,
        node: u32,
        program: Program,
        dir: D,
    ) -> Result<MagicNode<D>, NoMemory>
        requires numbered { node < cfg.nodes }
        requires program { IsProgramOf cfg node program }
        requires fresh { IsFresh cfg (D.directory dir) }
        ensures { IfOk result (λ made. made ≡ record { sizes = cfg; number = node; program = program; charge = (D.directory dir).charge; share = start_share cfg node; dir = dir }) }
    {
        within_limits(cfg);
        let home = HomeSide::new(alloc, cfg, node, dir)?;
        let cache = Cache::new(alloc, cfg)?;
        Ok(MagicNode {
            number: node,
            proc: Proc::new(program),
            cache,
            home,
        })
    }

    /// Whether an event of this node by itself would be done, or the first cause for which it would be refused. `room` is as for `local`.
    pub fn can_do(&self, event: LocalEvent, room: bool) -> Result<(), Cause>
        requires { FitsEvent self.now.sizes self.now.number event }
        ensures { result ≡ permit (local_of self.now.charge self.now.sizes self.now.number self.now.program self.now.share (input_of event room)) }
    {
        can_act(
            self.number,
            &self.proc,
            &self.cache,
            &self.home,
            event,
            room,
        )
    }

    /// An event of this node by itself: what the definition of its act says, or the first cause for which it is refused. `room` says whether the lane to an evicted line's home has room for its message. What is put into `out` are messages of the machine to other nodes of it.
    pub fn local(&mut self, event: LocalEvent, room: bool, out: &mut Sends) -> Result<Effect, Cause>
        requires fits { FitsEvent self.old.sizes self.old.number event }
        requires space { HasRoom out.old (self.old.sizes.nodes + 1) }
        ensures done { IfOk result (λ effect. Acts self.old.number self.old.program self.old.share.place [] (local_of self.old.charge self.old.sizes self.old.number self.old.program self.old.share (input_of event room)) self.new.share out.old out.new effect) }
        ensures refused { IfErr result (λ cause. local_of self.old.charge self.old.sizes self.old.number self.old.program self.old.share (input_of event room) ≡ Err cause) }
        ensures kept { self.new ≡ record self.old { share = self.new.share; dir = self.new.dir } }
        ensures err { OnErr result (self.new ≡ self.old) }
        ensures err_out { OnErr result (out.new ≡ out.old) }
        ensures sent { IfOk result (λ effect. HasSent (IsSentOf self.old.sizes) out.old out.new) }
        ensures elsewhere { IfOk result (λ effect. HasSent (λ send. send.0 ≢ self.old.number) out.old out.new) }
    {
        act(
            self.number,
            &mut self.proc,
            &mut self.cache,
            &mut self.home,
            event,
            room,
            out,
        )
    }

    /// Whether a message would be taken, or the first cause for which it would be refused. `victim` is as for `take`.
    pub fn can_take(&self, src: u32, msg: &Msg, victim: Option<u32>) -> Result<(), Cause>
        requires src { src < self.now.sizes.nodes }
        requires met { meets_row self.now.sizes self.now.number self.now.share src msg.now ≡ true }
        ensures { result ≡ permit (local_of self.now.charge self.now.sizes self.now.number self.now.program self.now.share (TakeFrom src msg.now victim)) }
    {
        can_take_on(
            self.number,
            &self.proc,
            &self.cache,
            &self.home,
            src,
            msg,
            victim,
        )
    }

    /// A message from another node, which meets a row: what the definition of its act says, or the first cause for which it is refused. Where it is a Get that is refused for want of a link, `victim` is the line that is called in, and only there. What is put into `out` are messages of the machine to nodes of it, and to other ones where the message is no forward that asks for this node.
    pub fn take(
        &mut self,
        src: u32,
        msg: &Msg,
        victim: Option<u32>,
        out: &mut Sends,
    ) -> Result<Effect, Cause>
        requires src { src < self.old.sizes.nodes }
        requires msg { IsMsgOf self.old.sizes msg.now }
        requires met { meets_row self.old.sizes self.old.number self.old.share src msg.now ≡ true }
        requires space { HasRoom out.old (self.old.sizes.nodes + 1) }
        ensures done { IfOk result (λ effect. Acts self.old.number self.old.program self.old.share.place (words_behind (msg_content msg.now)) (local_of self.old.charge self.old.sizes self.old.number self.old.program self.old.share (TakeFrom src msg.now victim)) self.new.share out.old out.new effect) }
        ensures refused { IfErr result (λ cause. local_of self.old.charge self.old.sizes self.old.number self.old.program self.old.share (TakeFrom src msg.now victim) ≡ Err cause) }
        ensures kept { self.new ≡ record self.old { share = self.new.share; dir = self.new.dir } }
        ensures err { OnErr result (self.new ≡ self.old) }
        ensures err_out { OnErr result (out.new ≡ out.old) }
        ensures sent { IfOk result (λ effect. HasSent (IsSentOf self.old.sizes) out.old out.new) }
        ensures elsewhere { IsMsgForOther self.old.number msg.now → IfOk result (λ effect. HasSent (λ send. send.0 ≢ self.old.number) out.old out.new) }
    {
        take_on(
            self.number,
            &mut self.proc,
            &mut self.cache,
            &mut self.home,
            src,
            msg,
            victim,
            out,
        )
    }

    /// The node's number. What holds of each node's share holds of this one's.
    pub fn number(&self) -> u32
        ensures value { result ≡ self.now.number }
        ensures kept { IsOwnPart self.now.charge self.now.sizes self.now.number self.now.program self.now.share }
        ensures fits { IsShareOf self.now.sizes self.now.share }
    {
        self.number
    }

    /// The node's processor.
    pub fn proc(&self) -> &Proc
        ensures { result.now ≡ record { program = self.now.program; place = self.now.share.place; want = self.now.share.want } }
    {
        &self.proc
    }

    /// The node's cache.
    pub fn cache(&self) -> &Cache
        ensures { result.now ≡ record { sizes = self.now.sizes; copies = self.now.share.copies } }
    {
        &self.cache
    }

    /// The node's home.
    pub fn home(&self) -> &HomeSide<D>
        ensures { result.now ≡ record { sizes = self.now.sizes; node = self.now.number; charge = self.now.charge; dir = self.now.dir; headers = self.now.share.headers } }
    {
        &self.home
    }
}

// A law, which does nothing: the sizes of a machine are within their limits.
fn within_limits(cfg: Machine)
    ensures { AreSizes cfg }
{}
