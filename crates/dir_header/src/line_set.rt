//! A set of lines in which the least one is found without a scan.

ghost use Rattle.std.specs.Prelude.{◌≡◌, ◌<◌, [], ◌∷◌, IfSome, MatchOption};
ghost use Rattle.op_model.specs.Nodes.{none, enlist, unlist, in_order};

use crate::words;
use std::marker::Model;

/// A set of line numbers below 4096, seen as a finite set of numbers. A bit of `words` stands for a line, and a bit of `some` for a word that isn't 0.
#[derive(Drop)]
pub(crate) struct LineSet {
    words: [u64; 64],
    some: u64,
}

impl Model for LineSet {
    ghost use Rattle.op_model.specs.Nodes.{Nodes};
    ghost use Rattle.dir_header.specs.Codes.{nodes_code};
    ghost use Rattle.dir_header.specs.WordSets.{lines_of, AreMarked};

    ghost Value = { Nodes };

    ghost coded = { nodes_code };

    ghost view = { λ s. lines_of s.words };

    ghost invariant = { λ s. AreMarked s.words s.some };
}

impl LineSet {
    /// The empty set.
    pub(crate) fn new() -> LineSet
        ensures { result ≡ none }
    {
        LineSet {
            words: [0; 64],
            some: 0,
        }
    }

    /// Puts a line in.
    pub(crate) fn insert(&mut self, m: u32)
        requires { m < 4096 }
        ensures { self.new ≡ enlist self.old m }
    {
        let place = (m / 64) as usize;
        self.words[place] = words::with(self.words[place], m % 64);
        self.some = words::with(self.some, m / 64);
    }

    /// Takes a line out.
    pub(crate) fn remove(&mut self, m: u32)
        requires { m < 4096 }
        ensures { self.new ≡ unlist self.old m }
    {
        let place = (m / 64) as usize;
        let left = words::without(self.words[place], m % 64);
        self.words[place] = left;
        if left == 0 {
            self.some = words::without(self.some, m / 64);
        }
    }

    /// The least line of the set.
    pub(crate) fn least(&self) -> Option<u32>
        ensures first { MatchOption result (in_order self.now ≡ []) (λ m. in_order self.now ≡ m ∷ in_order (unlist self.now m)) }
        ensures below { IfSome result (λ m. m < 4096) }
    {
        if self.some == 0 {
            return None;
        }
        let place = words::least(self.some);
        Some(64 * place + words::least(self.words[place as usize]))
    }

    /// The same set again. A call takes the time of copying 520 bytes.
    pub(crate) fn copied(&self) -> LineSet
        ensures { result ≡ self.now }
    {
        LineSet {
            words: self.words,
            some: self.some,
        }
    }
}
