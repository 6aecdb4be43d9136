//! The words of one line.

ghost use Rattle.std.specs.Prelude.{◌≡◌, ◌≤◌, ◌<◌, length, slice_index, slice_set, replicate};

use std::marker::Model;

/// The words of one line, seen as the list of them: 1 to 16 words of 64 bits. It takes no memory of its own.
#[derive(Clone, Copy)]
pub struct Body {
    words: [u64; 16],
    count: u32,
}

impl Model for Body {
    ghost use Rattle.std.specs.Prelude.{◌≡◌, ◌≤◌, ℕ, List, length, take};
    ghost use Rattle.std.proofs.Common.{ap, sym, ◌∙◌};
    ghost use Rattle.line_map.specs.Words.{padded, length-take-room};

    ghost Value = { List ℕ };

    ghost view = { λ b. take b.count b.words };

    ghost invariant = { λ b. (1 ≤ b.count) × (b.count ≤ 16) × (length b.words ≡ 16) × (b.words ≡ padded (take b.count b.words) b.count) };

    ghost inverse = { λ ws. record { words = padded ws (length ws); count = length ws } };

    ghost inverse_ok = { λ b h. let n = length-take-room b.count b.words h.1 h.2 in λ k. record { words = (ap (padded (take b.count b.words)) n ∙ sym h.3) k; count = n k } };
}

impl Body {
    /// A line of zeros. A line has 1 to 16 words.
    pub fn zeros(words: u32) -> Body
        requires some { 1 ≤ words }
        requires room { words ≤ 16 }
        ensures { result ≡ replicate words 0 }
    {
        Body {
            words: [0; 16],
            count: words,
        }
    }

    /// The word at a place of the line, counted from 0.
    pub fn get(&self, i: u32) -> u64
        requires { i < length self.now }
        ensures { result ≡ slice_index self.now i }
    {
        self.words[i as usize]
    }

    /// Puts a word at a place of the line.
    pub fn put(&mut self, i: u32, value: u64)
        requires { i < length self.old }
        ensures { self.new ≡ slice_set self.old i value }
    {
        self.words[i as usize] = value;
    }
}
