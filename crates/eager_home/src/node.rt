//! A node of the eager core.

ghost use Rattle.std.specs.Prelude.{◌≡◌, ◌≢◌, ◌+◌, ◌<◌, ◌≤◌, ℕ, [], true, replicate, Err, IfOk, IfErr, OnErr};
ghost use Rattle.line_map.specs.Sizes.{AreSizes};
ghost use Rattle.op_model.specs.declared.messages.Msg.{Msg as AMsg};
ghost use Rattle.op_model.specs.Events.Node.{permit, TakeFrom};
ghost use Rattle.op_model.specs.Messages.{msg_content};
ghost use Rattle.op_model.specs.MessageWords.{IsMsgOf, words_behind};
ghost use Rattle.op_model.specs.Run.Runs.{start_share};
ghost use Rattle.op_model.specs.Shares.{Unlinked};
ghost use Rattle.op_model.specs.Programs.{IsProgramOf};
ghost use Rattle.node_share.specs.Parts.{HasRoom};
ghost use Rattle.message_range.specs.Fitting.{IsMsgForOther, IsSentOf, IsShareOf};
ghost use Rattle.magic_node.specs.Nodes.{input_of, FitsEvent, HasSent};
ghost use Rattle.eager_model.specs.Node.{local as local_of, meets_row};
ghost use Rattle.eager_part.specs.Part.{IsEagerPart};
ghost use Rattle.eager_home.specs.Aged.{AgedActs, AreWithin};
ghost use Rattle.eager_home.specs.Views.{ages_in, RiseWithin};

use crate::acting::can_act;
use crate::aged::{act_aged, can_take_on, take_aged};
use crate::ages::NodeAges;
use crate::aging::AgedEffect;
use bitvec_dir::BitDir;
use cpu_cache::{Cache, Proc};
use dir_header::HomeSide;
use line_map::Machine;
use magic_node::LocalEvent;
use msg_words::{Msg, Sends};
use op_model::{Cause, NoMemory, Program};
use std::alloc::Global;
use std::marker::Model;

/// A node of the eager core, whose lists cost no links. It is seen as its machine, its number, its program, its share of the state, and the ages of its words: one for the copy in each set of its cache, and one for the words in memory of each line of its home. It keeps what holds of each node's share.
#[derive(Drop)]
pub struct EagerNode {
    number: u32,
    proc: Proc,
    cache: Cache,
    home: HomeSide<BitDir>,
    ages: NodeAges,
}

impl Model for EagerNode {
    ghost use Rattle.eager_home.specs.Views.{EagerView, eager_view, eager_code, IsAgedNode};

    ghost Value = { EagerView };

    ghost coded = { eager_code };

    ghost view = { λ n. eager_view n.number n.proc n.cache n.home n.ages };

    ghost invariant = { λ n. IsAgedNode n.number n.proc n.cache n.home n.ages };
}

impl EagerNode {
    /// The node at the start: it has done nothing, it has no copies, its memory is zeros, nobody is listed, and all ages are 0.
    pub fn new(
        alloc: Global,
        cfg: Machine,
        node: u32,
        program: Program,
    ) -> Result<EagerNode, NoMemory>
        requires numbered { node < cfg.nodes }
        requires program { IsProgramOf cfg node program }
        ensures { IfOk result (λ made. made ≡ record { sizes = cfg; number = node; program = program; share = start_share cfg node; copy_ages = replicate cfg.sets 0; memory_ages = replicate cfg.lines 0 }) }
    {
        within_limits(cfg);
        let dir = BitDir::new(alloc, cfg.lines(), cfg.nodes(), cfg.links())?;
        let home = HomeSide::new(alloc, cfg, node, dir)?;
        let cache = Cache::new(alloc, cfg)?;
        let ages = NodeAges::new(alloc, cfg.sets(), cfg.lines())?;
        Ok(EagerNode {
            number: node,
            proc: Proc::new(program),
            cache,
            home,
            ages,
        })
    }

    /// Whether an event of this node by itself would be done, or the first cause for which it would be refused. `room` is as for `local`.
    pub fn can_do(&self, event: LocalEvent, room: bool) -> Result<(), Cause>
        requires { FitsEvent self.now.sizes self.now.number event }
        ensures { result ≡ permit (local_of self.now.sizes self.now.number self.now.program self.now.share (input_of event room)) }
    {
        can_act(
            self.number,
            &self.proc,
            &self.cache,
            &self.home,
            event,
            room,
        )
    }

    /// An event of this node by itself: what the definition of its act says, with the ages, or the first cause for which it is refused. `room` says whether the lane to an evicted line's home has room for its message. What is put into `out` are messages of the machine to other nodes of it. No age rises by more than 1.
    pub fn local(
        &mut self,
        event: LocalEvent,
        room: bool,
        out: &mut Sends,
    ) -> Result<AgedEffect, Cause>
        requires fits { FitsEvent self.old.sizes self.old.number event }
        requires young { AreWithin 18446744073709551614 (ages_in self.old) }
        requires space { HasRoom out.old (self.old.sizes.nodes + 1) }
        ensures done { IfOk result (λ did. AgedActs self.old.sizes self.old.number self.old.program [] self.old.share (ages_in self.old) (input_of event room) 0 self.new.share (ages_in self.new) out.old out.new did) }
        ensures refused { IfErr result (λ cause. local_of self.old.sizes self.old.number self.old.program self.old.share (input_of event room) ≡ Err cause) }
        ensures kept { self.new ≡ record self.old { share = self.new.share; copy_ages = self.new.copy_ages; memory_ages = self.new.memory_ages } }
        ensures err { OnErr result (self.new ≡ self.old) }
        ensures err_out { OnErr result (out.new ≡ out.old) }
        ensures sent { IfOk result (λ did. HasSent (IsSentOf self.old.sizes) out.old out.new) }
        ensures elsewhere { IfOk result (λ did. HasSent (λ send. send.0 ≢ self.old.number) out.old out.new) }
        ensures within { IfOk result (λ did. (bound : ℕ) → AreWithin bound (ages_in self.old) → RiseWithin bound (bound + 1) (ages_in self.new) did) }
    {
        act_aged(
            self.number,
            &mut self.proc,
            &mut self.cache,
            &mut self.home,
            &mut self.ages,
            event,
            room,
            out,
        )
    }

    /// Whether a message that meets a row would be taken, or the cause for which it would be refused: no victim is ever asked for.
    pub fn can_take(&self, victim: Option<u32>) -> Result<(), Cause>
        ensures { (src : ℕ) (msg : AMsg) → result ≡ permit (local_of self.now.sizes self.now.number self.now.program self.now.share (TakeFrom src msg victim)) }
    {
        can_take_on(victim)
    }

    /// A message of this age from another node, which meets a row: what the definition of its act says, with the ages, or the cause for which it is refused. What is put into `out` are messages of the machine to nodes of it, and to other ones where the message is no forward that asks for this node. No age rises above that of the message and those of the node.
    pub fn take(
        &mut self,
        src: u32,
        msg: &Msg,
        victim: Option<u32>,
        age: u64,
        out: &mut Sends,
    ) -> Result<AgedEffect, Cause>
        requires src { src < self.old.sizes.nodes }
        requires msg { IsMsgOf self.old.sizes msg.now }
        requires met { meets_row self.old.sizes self.old.number self.old.share src msg.now ≡ true }
        requires space { HasRoom out.old (self.old.sizes.nodes + 1) }
        ensures done { IfOk result (λ did. AgedActs self.old.sizes self.old.number self.old.program (words_behind (msg_content msg.now)) self.old.share (ages_in self.old) (TakeFrom src msg.now victim) age self.new.share (ages_in self.new) out.old out.new did) }
        ensures refused { IfErr result (λ cause. local_of self.old.sizes self.old.number self.old.program self.old.share (TakeFrom src msg.now victim) ≡ Err cause) }
        ensures kept { self.new ≡ record self.old { share = self.new.share; copy_ages = self.new.copy_ages; memory_ages = self.new.memory_ages } }
        ensures err { OnErr result (self.new ≡ self.old) }
        ensures err_out { OnErr result (out.new ≡ out.old) }
        ensures sent { IfOk result (λ did. HasSent (IsSentOf self.old.sizes) out.old out.new) }
        ensures elsewhere { IsMsgForOther self.old.number msg.now → IfOk result (λ did. HasSent (λ send. send.0 ≢ self.old.number) out.old out.new) }
        ensures within { IfOk result (λ did. (bound : ℕ) → AreWithin bound (ages_in self.old) → age ≤ bound → RiseWithin bound bound (ages_in self.new) did) }
    {
        take_aged(
            self.number,
            &mut self.proc,
            &mut self.cache,
            &mut self.home,
            &mut self.ages,
            src,
            msg,
            victim,
            age,
            out,
        )
    }

    /// The node's number. What holds of each node's share holds of this one's.
    pub fn number(&self) -> u32
        ensures value { result ≡ self.now.number }
        ensures kept { IsEagerPart self.now.sizes self.now.number self.now.program self.now.share }
        ensures fits { IsShareOf self.now.sizes self.now.share }
    {
        self.number
    }

    /// The node's processor.
    pub fn proc(&self) -> &Proc
        ensures { result.now ≡ record { program = self.now.program; place = self.now.share.place; want = self.now.share.want } }
    {
        &self.proc
    }

    /// The node's cache.
    pub fn cache(&self) -> &Cache
        ensures { result.now ≡ record { sizes = self.now.sizes; copies = self.now.share.copies } }
    {
        &self.cache
    }

    /// The node's home.
    pub fn home(&self) -> &HomeSide<BitDir>
        ensures sizes { result.now.sizes ≡ self.now.sizes }
        ensures node { result.now.node ≡ self.now.number }
        ensures charge { result.now.charge ≡ Unlinked }
        ensures headers { result.now.headers ≡ self.now.share.headers }
    {
        &self.home
    }
}

// A law, which does nothing: the sizes of a machine are within their limits.
fn within_limits(cfg: Machine)
    ensures { AreSizes cfg }
{}
