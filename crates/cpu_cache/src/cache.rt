//! The cache of a node.

ghost use Rattle.std.specs.Prelude.{◌≡◌, ◌≢◌, ◌<◌, ◌↔◌, true, false, IsNone, IfSome, IfOk, IsSomeAnd, IsTrue, length, slice_index, slice_set};
ghost use Rattle.std.specs.FinMap as fin;
ghost use Rattle.line_map.specs.Sizes.{all_lines, all_words, line_of, place_of, set_of};
ghost use Rattle.op_model.specs.Lines.{Absent, Shared as SharedCopy, Exclusive as ExclusiveCopy, state_of, words_of};
ghost use Rattle.op_model.specs.Operations.{is_load, entry_of, after_op};
ghost use Rattle.op_model.specs.Shares.{copy_in};
ghost use Rattle.cpu_cache.specs.Caches.{is_set_free, is_set_taken, IsDirectMapped, IsResident, with_copy};
ghost use Rattle.cpu_cache.specs.Slots.{IsSlotOf, PutsSlot, FitsSet};

use line_map::{Addr, Body, Machine};
use op_model::{CopyState, Entry, NoMemory, Op, old_at, written};
use std::alloc::Global;
use std::marker::Model;

#[derive(Clone, Copy)]
enum Slot {
    Empty,
    Shared { line: u32, body: Body },
    Exclusive { line: u32, body: Body },
}

/// A direct-mapped cache, seen as its machine and the copies that it holds. It takes memory only where it is made.
#[derive(Drop)]
pub struct Cache {
    cfg: Machine,
    slots: Vec<Slot>,
}

impl Model for Cache {
    ghost use Rattle.cpu_cache.specs.Caches.{CacheView, cache_code};

    ghost Value = { CacheView };

    ghost coded = { cache_code };

    ghost use Rattle.cpu_cache.specs.Slots.{copies_in, AreSlots};

    ghost view = { λ c. record { sizes = c.cfg; copies = copies_in c.slots.items } };

    ghost invariant = { λ c. AreSlots c.cfg c.slots.items };
}

impl Cache {
    /// An empty cache of this machine.
    pub fn new(alloc: Global, cfg: Machine) -> Result<Cache, NoMemory>
        ensures { IfOk result (λ cache. cache ≡ record { sizes = cfg; copies = fin.empty }) }
    {
        let Ok(slots) = vec![in alloc; Slot::Empty; cfg.sets() as usize] else {
            return Err(NoMemory);
        };
        Ok(Cache { cfg, slots })
    }

    /// The machine.
    pub fn cfg(&self) -> Machine
        ensures value { result ≡ self.now.sizes }
        ensures kept { IsDirectMapped self.now }
    {
        self.cfg
    }

    fn slot(&self, g: u32) -> &Slot
        requires { g < all_lines self.now.sizes }
        ensures of_set { IsSlotOf self.now g result.now }
        ensures kept { IsDirectMapped self.now }
    {
        &self.slots[self.cfg.set_of(g) as usize]
    }

    fn put_slot(&mut self, g: u32, slot: Slot)
        requires below { g < all_lines self.old.sizes }
        requires fits { FitsSet self.old.sizes (set_of self.old.sizes g) slot }
        ensures puts { PutsSlot self.old self.new g slot }
        ensures kept { IsDirectMapped self.old }
    {
        let set = self.cfg.set_of(g) as usize;
        self.slots[set] = slot;
    }

    /// What the cache has of a line.
    pub fn look(&self, g: u32) -> CopyState
        requires { g < all_lines self.now.sizes }
        ensures value { result ≡ state_of (copy_in self.now.copies g) }
        ensures kept { IsDirectMapped self.now }
    {
        match self.slot(g) {
            Slot::Shared { line, .. } if *line == g => CopyState::Shared,
            Slot::Exclusive { line, .. } if *line == g => CopyState::Exclusive,
            _ => CopyState::Absent,
        }
    }

    /// The line that stands in the set of a line.
    pub fn resident(&self, g: u32) -> Option<u32>
        requires { g < all_lines self.now.sizes }
        ensures free { IsNone result ↔ IsTrue (is_set_free self.now g) }
        ensures taken { IsTrue (is_set_taken self.now g) ↔ IsSomeAnd result (λ line. line ≢ g) }
        ensures line { IfSome result (IsResident self.now g) }
    {
        match self.slot(g) {
            Slot::Empty => None,
            Slot::Shared { line, .. } | Slot::Exclusive { line, .. } => Some(*line),
        }
    }

    /// The words of the copy of a line that has one.
    pub fn body(&self, g: u32) -> Body
        requires below { g < all_lines self.now.sizes }
        requires copied { state_of (copy_in self.now.copies g) ≢ CopyState.Absent }
        ensures value { result ≡ words_of (copy_in self.now.copies g) }
        ensures width { length result ≡ self.now.sizes.words }
    {
        match self.slot(g) {
            Slot::Empty => unreachable!(),
            Slot::Shared { body, .. } | Slot::Exclusive { body, .. } => *body,
        }
    }

    /// Puts a shared copy into a set that is free.
    pub fn fill_s(&mut self, g: u32, body: Body)
        requires below { g < all_lines self.old.sizes }
        requires free { is_set_free self.old g ≡ true }
        requires width { length body ≡ self.old.sizes.words }
        ensures { self.new ≡ with_copy self.old g (SharedCopy body) }
    {
        self.put_slot(g, Slot::Shared { line: g, body });
    }

    /// Puts an exclusive copy into a set that is free.
    pub fn fill_e(&mut self, g: u32, body: Body)
        requires below { g < all_lines self.old.sizes }
        requires free { is_set_free self.old g ≡ true }
        requires width { length body ≡ self.old.sizes.words }
        ensures { self.new ≡ with_copy self.old g (ExclusiveCopy body) }
    {
        self.put_slot(g, Slot::Exclusive { line: g, body });
    }

    /// The copy of a line goes, if it has one.
    pub fn drop_line(&mut self, g: u32)
        requires { g < all_lines self.old.sizes }
        ensures dropped { self.new ≡ with_copy self.old g Absent }
        ensures nothing { state_of (copy_in self.old.copies g) ≡ CopyState.Absent → self.new ≡ self.old }
    {
        match self.look(g) {
            CopyState::Absent => {}
            CopyState::Shared | CopyState::Exclusive => self.put_slot(g, Slot::Empty),
        }
    }

    /// An exclusive copy becomes a shared one, with the same words.
    pub fn downgrade(&mut self, g: u32)
        requires below { g < all_lines self.old.sizes }
        requires exclusive { state_of (copy_in self.old.copies g) ≡ CopyState.Exclusive }
        ensures { self.new ≡ with_copy self.old g (SharedCopy (words_of (copy_in self.old.copies g))) }
    {
        let body = self.body(g);
        self.put_slot(g, Slot::Shared { line: g, body });
    }

    /// The word at an address whose line has a copy.
    pub fn load_word(&self, a: Addr) -> u64
        requires below { a < all_words self.now.sizes }
        requires copied { state_of (copy_in self.now.copies (line_of self.now.sizes a)) ≢ CopyState.Absent }
        ensures { result ≡ slice_index (words_of (copy_in self.now.copies (line_of self.now.sizes a))) (place_of self.now.sizes a) }
    {
        self.body(self.cfg.line_of(a)).get(self.cfg.word_of(a))
    }

    /// Puts a word at an address whose line has an exclusive copy.
    pub fn store_word(&mut self, a: Addr, value: u64)
        requires below { a < all_words self.old.sizes }
        requires exclusive { state_of (copy_in self.old.copies (line_of self.old.sizes a)) ≡ CopyState.Exclusive }
        ensures { let line = line_of self.old.sizes a in self.new ≡ with_copy self.old line (ExclusiveCopy (slice_set (words_of (copy_in self.old.copies line)) (place_of self.old.sizes a) value)) }
    {
        let g = self.cfg.line_of(a);
        let mut body = self.body(g);
        body.put(self.cfg.word_of(a), value);
        self.put_slot(g, Slot::Exclusive { line: g, body });
    }

    /// Does a write on the exclusive copy of its line, and answers its entry. The address is that of the operation's word.
    pub fn perform(&mut self, a: Addr, op: &Op) -> Entry
        requires below { a < all_words self.old.sizes }
        requires same { a ≡ op.now.word }
        requires write { is_load op.now.kind ≡ false }
        requires exclusive { state_of (copy_in self.old.copies (line_of self.old.sizes a)) ≡ CopyState.Exclusive }
        ensures entry { result ≡ entry_of op.now.node op.now.index op.now (words_of (copy_in self.old.copies (line_of self.old.sizes a))) }
        ensures done { let line = line_of self.old.sizes a in self.new ≡ with_copy self.old line (ExclusiveCopy (after_op op.now (words_of (copy_in self.old.copies line)))) }
    {
        let g = self.cfg.line_of(a);
        let place = self.cfg.word_of(a);
        let mut body = self.body(g);
        let before = body.get(place);
        body.put(place, written(op.kind, before, op.value));
        self.put_slot(g, Slot::Exclusive { line: g, body });
        Entry {
            node: op.node,
            index: op.index,
            kind: op.kind,
            word: op.word,
            value: op.value,
            old: old_at(op.kind, before),
        }
    }
}
