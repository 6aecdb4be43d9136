//! The sizes of a machine, each within its limits, and its address map.

ghost use Rattle.std.specs.Prelude.{◌≡◌, ◌*◌, ◌<◌, ◌≤◌, Result, true};
ghost use Rattle.line_map.specs.Sizes.{Sizes, AreSizes, sizes_of, in_limits, all_lines, all_words, limited as limited_of, word_at, line_of as line_of_word, place_of, home_of as home_of_line, set_of as set_of_line};

use crate::address::{Addr, BadAddr};
use crate::divisor::Divisor;
use std::marker::Model;

/// The most nodes that a machine has.
pub const MOST_NODES: usize = 64;

/// The sizes of a machine, in the order in which they are given.
#[derive(Clone, Copy, Debug, PartialEq, Eq)]
pub enum Field {
    Nodes,
    Lines,
    Words,
    Links,
    Sets,
    Pending,
    Evicts,
}

/// The first field that is outside its limits, and the value given for it.
#[derive(Clone, Copy, Debug)]
pub struct OutOfRange {
    pub field: Field,
    pub value: u64,
}

/// A machine: its seven sizes, each within its limits. Memory is divided among the nodes, and starts as zeros.
///
/// | Size | Least | Greatest |
/// |---|---|---|
/// | nodes | 2 | 64 |
/// | lines of memory a node | 1 | 4096 |
/// | words a line, of 64 bits each | 1, 2, 4, 8 or 16 | |
/// | links a node | 1 | 65535 |
/// | sets of each cache | 1 | 1024 |
/// | pending lines a home | 1 | 64 |
/// | eviction messages a lane | 1 | 16 |
#[derive(Clone, Copy)]
pub struct Machine {
    nodes: u32,
    lines: Divisor,
    words: Divisor,
    links: u32,
    sets: Divisor,
    pending: u32,
    evicts: u32,
}

impl Model for Machine {
    ghost Value = { Sizes };

    ghost view = { λ m. record {
      nodes = m.nodes;
      lines = m.lines;
      words = m.words;
      links = m.links;
      sets = m.sets;
      pending = m.pending;
      evicts = m.evicts;
    } };

    ghost invariant = { λ m. AreSizes (record {
      nodes = m.nodes;
      lines = m.lines;
      words = m.words;
      links = m.links;
      sets = m.sets;
      pending = m.pending;
      evicts = m.evicts;
    }) };

    ghost inverse = { λ s. record {
      nodes = s.nodes;
      lines = s.lines;
      words = s.words;
      links = s.links;
      sets = s.sets;
      pending = s.pending;
      evicts = s.evicts;
    } };
}

/// Whether a value is within the limits of the size.
pub fn fits(field: Field, value: u64) -> bool
    ensures { result ≡ in_limits field value }
{
    match field {
        Field::Nodes => 2 <= value && value <= MOST_NODES as u64,
        Field::Lines => 1 <= value && value <= 4096,
        Field::Words => value == 1 || value == 2 || value == 4 || value == 8 || value == 16,
        Field::Links => 1 <= value && value <= 65535,
        Field::Sets => 1 <= value && value <= 1024,
        Field::Pending => 1 <= value && value <= 64,
        Field::Evicts => 1 <= value && value <= 16,
    }
}

fn limited(field: Field, value: u64) -> Result<u32, OutOfRange>
    ensures { result ≡ limited_of field value }
{
    if fits(field, value) {
        Ok(value as u32)
    } else {
        Err(OutOfRange { field, value })
    }
}

// A size that lines or words are divided by.
fn divisor(field: Field, value: u64) -> Result<Divisor, OutOfRange>
    requires { in_limits field value ≡ true → (1 ≤ value) × (value ≤ 4096) }
    ensures { result ≡ limited_of field value }
{
    Ok(Divisor::new(limited(field, value)?))
}

impl Machine {
    /// The machine of these sizes. The error names the first one, in the order of the parameters, that is outside its limits.
    #[tactic(auto, unfolding(crate::specs::Sizes::sizes_of))]
    pub fn new(
        nodes: u64,
        lines: u64,
        words: u64,
        links: u64,
        sets: u64,
        pending: u64,
        evicts: u64,
    ) -> Result<Machine, OutOfRange>
        ensures { result ≡ sizes_of nodes lines words links sets pending evicts }
    {
        Ok(Machine {
            nodes: limited(Field::Nodes, nodes)?,
            lines: divisor(Field::Lines, lines)?,
            words: divisor(Field::Words, words)?,
            links: limited(Field::Links, links)?,
            sets: divisor(Field::Sets, sets)?,
            pending: limited(Field::Pending, pending)?,
            evicts: limited(Field::Evicts, evicts)?,
        })
    }

    /// How many nodes the machine has.
    pub fn nodes(&self) -> u32
        ensures value { result ≡ self.now.nodes }
        ensures small { (2 ≤ result) × (result ≤ 64) }
    {
        self.nodes
    }

    /// How many lines the memory of each node has.
    pub fn lines(&self) -> u32
        ensures value { result ≡ self.now.lines }
        ensures small { (1 ≤ result) × (result ≤ 4096) }
    {
        self.lines.value()
    }

    /// How many words a line has.
    pub fn words(&self) -> u32
        ensures value { result ≡ self.now.words }
        ensures small { (1 ≤ result) × (result ≤ 16) }
    {
        self.words.value()
    }

    /// How many links each node has.
    pub fn links(&self) -> u32
        ensures value { result ≡ self.now.links }
        ensures small { (1 ≤ result) × (result ≤ 65535) }
    {
        self.links
    }

    /// How many sets each cache has.
    pub fn sets(&self) -> u32
        ensures value { result ≡ self.now.sets }
        ensures small { (1 ≤ result) × (result ≤ 1024) }
    {
        self.sets.value()
    }

    /// How many lines of one home may be pending.
    pub fn pending(&self) -> u32
        ensures value { result ≡ self.now.pending }
        ensures small { (1 ≤ result) × (result ≤ 64) }
    {
        self.pending
    }

    /// How many eviction messages a lane may hold.
    pub fn evicts(&self) -> u32
        ensures value { result ≡ self.now.evicts }
        ensures small { (1 ≤ result) × (result ≤ 16) }
    {
        self.evicts
    }

    /// How many lines all memory has.
    pub fn all_lines(&self) -> u32
        ensures value { result ≡ all_lines self.now }
        ensures small { result ≤ 262144 }
    {
        self.nodes() * self.lines()
    }

    /// How many words all memory has.
    pub fn all_words(&self) -> u32
        ensures value { result ≡ all_words self.now }
        ensures small { result ≤ 4194304 }
    {
        self.nodes() * self.lines() * self.words()
    }

    /// The address of the word at a byte address. It is refused as Unaligned where the byte address isn't a multiple of 8, else as PastEnd where no word stands there.
    pub fn check_addr(&self, byte: u64) -> Result<Addr, BadAddr>
        ensures { result ≡ word_at self.now byte }
    {
        if byte % 8 != 0 {
            return Err(BadAddr::Unaligned);
        }
        let word = byte / 8;
        if word >= u64::from(self.all_words()) {
            return Err(BadAddr::PastEnd);
        }
        Ok(Addr::of(word as u32))
    }

    /// The address of the word with this number.
    pub fn addr_of(&self, word: u32) -> Addr
        requires { word < all_words self.now }
        ensures { result ≡ word }
    {
        Addr::of(word)
    }

    /// The line of an address.
    pub fn line_of(&self, a: Addr) -> u32
        requires { a < all_words self.now }
        ensures value { result ≡ line_of_word self.now a }
        ensures below { result < all_lines self.now }
    {
        self.words.quotient(a.word())
    }

    /// The place of an address in its line.
    pub fn word_of(&self, a: Addr) -> u32
        requires { a < all_words self.now }
        ensures value { result ≡ place_of self.now a }
        ensures below { result < self.now.words }
    {
        self.words.remainder(a.word())
    }

    /// The node whose memory holds a line.
    pub fn home_of(&self, g: u32) -> u32
        requires { g < all_lines self.now }
        ensures value { result ≡ home_of_line self.now g }
        ensures below { result < self.now.nodes }
    {
        self.lines.quotient(g)
    }

    /// The set of each cache that a line goes into.
    pub fn set_of(&self, g: u32) -> u32
        requires { g < all_lines self.now }
        ensures value { result ≡ set_of_line self.now g }
        ensures below { result < self.now.sets }
    {
        self.sets.remainder(g)
    }
}
