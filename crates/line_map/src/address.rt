//! Addresses of words.

use std::marker::Model;

/// Why a byte address is refused.
#[derive(Clone, Copy, Debug, PartialEq, Eq)]
pub enum BadAddr {
    Unaligned,
    PastEnd,
}

/// The address of a word, seen as the word's number.
#[derive(Clone, Copy)]
pub struct Addr {
    word: u32,
}

impl Model for Addr {
    ghost use Rattle.std.specs.Prelude.{ℕ};

    ghost Value = { ℕ };

    ghost view = { λ a. a.word };

    ghost inverse = { λ word. record { word = word } };
}

impl Addr {
    ghost use Rattle.std.specs.Prelude.{◌≡◌};

    pub(crate) fn of(word: u32) -> Addr
        ensures { result ≡ word }
    {
        Addr { word }
    }

    /// The word's number.
    pub fn word(&self) -> u32
        ensures { result ≡ self.now }
    {
        self.word
    }
}
