//! The home's part of a node.

ghost use Rattle.std.specs.Prelude.{◌≡◌, ◌↔◌, ◌&&◌, ◌<◌, ◌%◌, ◌*◌, false, true, length, slice_get, filter, IfOk, OnOk, OnErr, IsErr, IfSome};
ghost use Rattle.std.specs.List.{find};
ghost use Rattle.line_map.specs.Sizes.{home_of};
ghost use Rattle.op_model.specs.Nodes.{enlist, listed, unlist as unlist_of};
ghost use Rattle.op_model.specs.Lines.{is_idle, is_pending};
ghost use Rattle.op_model.specs.declared.state.Wait.TheVariants.{Idle};
ghost use Rattle.op_model.specs.Tables.Home.{lacks_link};
ghost use Rattle.op_model.specs.Run.Runs.{start_share};
ghost use Rattle.op_model.specs.Tables.Remote.{is_invalidate};
ghost use Rattle.op_model.specs.Run.Seeded.{lines_of};
ghost use Rattle.dir_header.specs.Sharers.{is_linked, only_this, with_list, list_at};
ghost use Rattle.dir_header.specs.HomeSides.{IsFresh, IsHome, fields, header_at, is_victim, made_pending, pending_in, relisted, room_in, unlisted, with_header};

use crate::budget::Budget;
use crate::header::{Header, acks_due, acks_left, standing_by};
use crate::holders::Holders;
use crate::sharers::{NoRoom, Sharers};
use crate::victim_list::Victims;
use line_map::{Body, Machine};
use op_model::{Full, NoMemory, Wait};
use std::alloc::Global;
use std::marker::Model;

/// The home's part of a node: the headers of its lines, their words in memory, the directory, and the budget of pending lines.
#[derive(Drop)]
pub struct HomeSide<D: Sharers> {
    cfg: Machine,
    node: u32,
    headers: Vec<Header>,
    memory: Vec<Body>,
    dir: D,
    budget: Budget,
    holders: Holders,
}

impl<D: Sharers> Model for HomeSide<D> {
    ghost use Rattle.dir_header.specs.HomeSides.{HomeView};
    ghost use Rattle.dir_header.specs.Codes.{home_code};

    ghost Value = { HomeView D };

    ghost coded = { home_code D.code };

    ghost use Rattle.dir_header.specs.HomeParts.{home_view, IsHomeSide};

    ghost view = { λ h. home_view (D.directory h.dir) h.cfg h.node h.headers.items h.memory.items h.dir };

    ghost invariant = { λ h. IsHomeSide (D.directory h.dir) h.cfg h.node h.headers.items h.memory.items h.dir h.budget h.holders };
}

impl<D: Sharers> HomeSide<D> {
    /// The part at the start: no line is local, dirty, pending or listed, and memory is zeros. The directory has the machine's lines and links, its bound is above each node, and every list of it is empty.
    pub fn new(alloc: Global, cfg: Machine, node: u32, dir: D) -> Result<HomeSide<D>, NoMemory>
        requires numbered { node < cfg.nodes }
        requires fresh { IsFresh cfg (D.directory dir) }
        ensures { IfOk result (λ home. home ≡ record { sizes = cfg; node = node; charge = (D.directory dir).charge; dir = dir; headers = (start_share cfg node).headers }) }
    {
        prove!(node < cfg.nodes());
        let lines = cfg.lines() as usize;
        let Ok(headers) = vec![in alloc; Header::FIRST; lines] else {
            return Err(NoMemory);
        };
        let zeros = Body::zeros(cfg.words());
        let Ok(memory) = vec![in alloc; zeros; lines] else {
            return Err(NoMemory);
        };
        Ok(HomeSide {
            cfg,
            node,
            headers,
            memory,
            dir,
            budget: Budget::new(cfg.pending()),
            holders: Holders::new(),
        })
    }

    /// The machine.
    pub fn cfg(&self) -> Machine
        ensures value { result ≡ self.now.sizes }
        ensures kept { IsHome (D.directory self.now.dir) self.now }
    {
        self.cfg
    }

    /// The number of the node.
    pub fn node(&self) -> u32
        ensures { result ≡ self.now.node }
    {
        self.node
    }

    /// The header of a line of this home.
    pub fn header(&self, g: u32) -> Header
        requires { home_of self.now.sizes g ≡ self.now.node }
        ensures { result ≡ fields (header_at self.now g) }
    {
        self.headers[self.place(g) as usize]
    }

    /// The words in memory of a line of this home.
    pub fn memory(&self, g: u32) -> Body
        requires { home_of self.now.sizes g ≡ self.now.node }
        ensures value { result ≡ (header_at self.now g).memory }
        ensures width { length result ≡ self.now.sizes.words }
    {
        self.memory[self.place(g) as usize]
    }

    /// The directory.
    pub fn dir(&self) -> &D
        ensures { result.now ≡ self.now.dir }
    {
        &self.dir
    }

    /// How many lines are pending.
    pub fn pending_count(&self) -> u32
        ensures { result ≡ pending_in self.now }
    {
        self.budget.used()
    }

    /// Whether a pending line holds a link.
    pub fn pending_holds(&self) -> bool
        ensures { result ≡ (is_linked self.now.charge && (room_in self.now).link_pending) }
    {
        self.holders.pending() > 0
    }

    /// The least line that holds a link and isn't pending.
    pub fn least_victim(&self) -> Option<u32>
        ensures { result ≡ find (is_victim self.now) (lines_of self.now.sizes self.now.node) }
    {
        let m = self.holders.least()?;
        Some(self.node * self.cfg.lines() + m)
    }

    /// The lines that hold a link and aren't pending, each handed out once, in increasing order. A call takes the same time for every home.
    pub fn victims(&self) -> Victims
        ensures { result ≡ filter (is_victim self.now) (lines_of self.now.sizes self.now.node) }
    {
        Victims::new(self.holders.victims(), self.node * self.cfg.lines())
    }

    /// The line at a place, counted from 0, among all that hold a link and aren't pending, in increasing order. The lines before it are passed one by one: to go through all of them take `victims`.
    pub fn victim_at(&self, i: u32) -> Option<u32>
        ensures { result ≡ slice_get (filter (is_victim self.now) (lines_of self.now.sizes self.now.node)) i }
    {
        let mut victims = self.victims();
        for _ in 0..i {
            victims.next()?;
        }
        victims.next()
    }

    /// Sets whether the home's own cache may hold a line.
    pub fn set_local(&mut self, g: u32, on: bool)
        requires { home_of self.old.sizes g ≡ self.old.node }
        ensures { self.new ≡ with_header self.old g (record (header_at self.old g) { local = on }) }
    {
        let m = self.place(g);
        self.headers[m as usize].local = on;
    }

    /// Sets whether memory isn't current.
    pub fn set_dirty(&mut self, g: u32, on: bool)
        requires { home_of self.old.sizes g ≡ self.old.node }
        ensures { self.new ≡ with_header self.old g (record (header_at self.old g) { dirty = on }) }
    {
        let m = self.place(g);
        self.headers[m as usize].dirty = on;
    }

    /// Puts a line's words into memory.
    pub fn put_memory(&mut self, g: u32, body: &Body)
        requires line { home_of self.old.sizes g ≡ self.old.node }
        requires width { length body.now ≡ self.old.sizes.words }
        ensures { self.new ≡ with_header self.old g (record (header_at self.old g) { memory = body.now }) }
    {
        let m = self.place(g);
        self.memory[m as usize] = *body;
    }

    /// Lists a node for a line whose acknowledgements aren't waited for. It is refused where a link is needed and none is free.
    pub fn list(&mut self, g: u32, node: u32) -> Result<(), NoRoom>
        requires line { home_of self.old.sizes g ≡ self.old.node }
        requires node { node < self.old.sizes.nodes }
        requires calm { is_invalidate (header_at self.old g).wait ≡ false }
        ensures room { IsErr result ↔ (lacks_link (room_in self.old) node (header_at self.old g) ≡ true) }
        ensures ok { OnOk result (self.new ≡ relisted self.old self.new.dir g (enlist (header_at self.old g).list node)) }
        ensures dir { OnOk result (D.directory self.new.dir ≡ with_list (D.directory self.old.dir) (g % self.old.sizes.lines) (enlist (header_at self.old g).list node)) }
        ensures err { OnErr result (self.new ≡ self.old) }
    {
        let m = self.place(g);
        let wait = self.headers[m as usize].wait;
        let before = standing_by(wait, self.dir.holds(m));
        self.dir.add(m, node)?;
        let after = standing_by(wait, self.dir.holds(m));
        self.holders.change(m, before, after);
        Ok(())
    }

    /// The list of a line whose acknowledgements aren't waited for becomes that of this node alone, or empty.
    pub fn list_only(&mut self, g: u32, only: Option<u32>)
        requires line { home_of self.old.sizes g ≡ self.old.node }
        requires node { IfSome only (λ node. node < self.old.sizes.nodes) }
        requires calm { is_invalidate (header_at self.old g).wait ≡ false }
        ensures home { self.new ≡ relisted self.old self.new.dir g (only_this only) }
        ensures dir { D.directory self.new.dir ≡ with_list (D.directory self.old.dir) (g % self.old.sizes.lines) (only_this only) }
    {
        let m = self.place(g);
        let wait = self.headers[m as usize].wait;
        let before = standing_by(wait, self.dir.holds(m));
        self.dir.clear_to(m, only);
        let after = standing_by(wait, self.dir.holds(m));
        self.holders.change(m, before, after);
    }

    /// Takes a node off a line's list, and answers whether it was listed. Where it wasn't, nothing changes. Where acknowledgements are waited for, that of a listed node is then due no more.
    pub fn unlist(&mut self, g: u32, node: u32) -> bool
        requires line { home_of self.old.sizes g ≡ self.old.node }
        requires node { node < self.old.sizes.nodes }
        ensures was { result ≡ listed (header_at self.old g).list node }
        ensures home { self.new ≡ record (with_header self.old g (unlisted (header_at self.old g) node)) { dir = self.new.dir } }
        ensures dir { D.directory self.new.dir ≡ with_list (D.directory self.old.dir) (g % self.old.sizes.lines) (unlist_of (header_at self.old g).list node) }
        ensures unchanged { result ≡ false → self.new ≡ self.old }
    {
        let m = self.place(g);
        if !self.dir.contains(m, node) {
            return false;
        }
        let wait = self.headers[m as usize].wait;
        let before = standing_by(wait, self.dir.holds(m));
        let was = self.dir.remove(m, node);
        let acks = self.headers[m as usize].acks;
        self.headers[m as usize].acks = acks_left(wait, acks, was);
        let after = standing_by(wait, self.dir.holds(m));
        self.holders.change(m, before, after);
        was
    }

    /// An idle line begins to wait. It takes a place in the budget, and where acknowledgements are waited for, one of each listed node is due. It is refused where the budget is used up.
    pub fn make_pending(&mut self, g: u32, wait: Wait) -> Result<(), Full>
        requires line { home_of self.old.sizes g ≡ self.old.node }
        requires idle { is_pending (header_at self.old g) ≡ false }
        requires waits { is_idle wait ≡ false }
        ensures full { IsErr result ↔ ((room_in self.old).full ≡ true) }
        ensures ok { OnOk result (self.new ≡ with_header self.old g (made_pending (header_at self.old g) wait)) }
        ensures err { OnErr result (self.new ≡ self.old) }
    {
        let m = self.place(g);
        self.budget.hold()?;
        let header = self.headers[m as usize];
        self.headers[m as usize] = Header {
            wait,
            acks: acks_due(wait, self.dir.count(m)),
            ..header
        };
        let links = self.dir.holds(m);
        let before = standing_by(header.wait, links);
        self.holders.change(m, before, standing_by(wait, links));
        Ok(())
    }

    /// A pending line of which no acknowledgement is due becomes idle, and gives its place in the budget back.
    pub fn end_pending(&mut self, g: u32)
        requires line { home_of self.old.sizes g ≡ self.old.node }
        requires pending { is_pending (header_at self.old g) ≡ true }
        requires acks { (header_at self.old g).acks ≡ 0 }
        ensures { self.new ≡ with_header self.old g (record (header_at self.old g) { wait = Idle }) }
    {
        let m = self.place(g);
        let links = self.dir.holds(m);
        let before = standing_by(self.headers[m as usize].wait, links);
        self.headers[m as usize].wait = Wait::Idle;
        self.budget.give_back();
        self.holders
            .change(m, before, standing_by(Wait::Idle, links));
    }

    // Where a line of this home stands.
    fn place(&self, g: u32) -> u32
        requires { home_of self.now.sizes g ≡ self.now.node }
        ensures value { result ≡ g % self.now.sizes.lines }
        ensures small { result < 4096 }
    {
        g - self.node * self.cfg.lines()
    }
}
