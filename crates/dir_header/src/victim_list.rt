//! The lines of a home that may be called in, one after the other.

ghost use Rattle.std.specs.Prelude.{◌≡◌, ◌≤◌, [], ◌∷◌, MatchOption};
ghost use Rattle.dir_header.specs.WordSets.{numbered_from};

use crate::line_set::LineSet;
use std::marker::Model;

/// The lines of a home that may be called in and haven't been handed out yet. It is seen as the numbers of these lines in increasing order. It is a copy: what becomes of the home later doesn't change it.
#[derive(Drop)]
pub struct Victims {
    left: LineSet,
    first: u32,
}

impl Model for Victims {
    ghost use Rattle.std.specs.Prelude.{ℕ, ◌≤◌, List};
    ghost use Rattle.dir_header.specs.Codes.{listed_code};
    ghost use Rattle.dir_header.specs.WordSets.{numbered_from};

    ghost Value = { List ℕ };

    ghost coded = { listed_code };

    ghost view = { λ v. numbered_from v.first v.left };

    ghost invariant = { λ v. v.first ≤ 262144 };
}

impl Victims {
    /// The lines of a set, where line 0 of the set has this number.
    pub(crate) fn new(left: LineSet, first: u32) -> Victims
        requires { first ≤ 262144 }
        ensures { result ≡ numbered_from first left }
    {
        Victims { left, first }
    }

    /// The next line, and none where all have been handed out. A call takes the same time for every list.
    pub fn next(&mut self) -> Option<u32>
        ensures { MatchOption result (self.old ≡ []) (λ line. self.old ≡ line ∷ self.new) }
    {
        let m = self.left.least()?;
        self.left.remove(m);
        Some(self.first + m)
    }
}
