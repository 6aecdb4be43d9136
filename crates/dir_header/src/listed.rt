//! The nodes of a list, one after the other.

ghost use Rattle.std.specs.Prelude.{◌≡◌, [], ◌∷◌, MatchOption};
ghost use Rattle.op_model.specs.Nodes.{in_order};
ghost use Rattle.dir_header.specs.WordSets.{members};

use crate::words;
use std::marker::Model;

/// The nodes of a list that haven't been handed out yet. It is seen as these nodes in increasing order.
#[derive(Drop)]
pub struct Listed {
    left: u64,
}

impl Model for Listed {
    ghost use Rattle.std.specs.Prelude.{ℕ, List};
    ghost use Rattle.dir_header.specs.Codes.{listed_code};
    ghost use Rattle.op_model.specs.Nodes.{in_order};
    ghost use Rattle.dir_header.specs.WordSets.{members};

    ghost Value = { List ℕ };

    ghost coded = { listed_code };

    ghost view = { λ l. in_order (members l.left) };
}

impl Listed {
    /// The nodes whose bits are set in a word.
    pub fn new(word: u64) -> Listed
        ensures { result ≡ in_order (members word) }
    {
        Listed { left: word }
    }

    /// The next node, and none where all have been handed out. A call takes the same time for every list.
    pub fn next(&mut self) -> Option<u32>
        ensures { MatchOption result (self.old ≡ []) (λ node. self.old ≡ node ∷ self.new) }
    {
        if self.left == 0 {
            return None;
        }
        let node = words::least(self.left);
        self.left = words::without(self.left, node);
        Some(node)
    }
}
