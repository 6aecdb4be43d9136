//! The lines of a home that hold links.

ghost use Rattle.std.specs.Prelude.{◌≡◌, ◌≤◌, ◌<◌, slice_get, IfSome};
ghost use Rattle.op_model.specs.Nodes.{none, in_order};
ghost use Rattle.dir_header.specs.Standings.{counted, moved};

use crate::header::Standing;
use crate::line_set::LineSet;
use std::marker::Model;

/// The idle lines whose lists hold a link, and how many pending lines hold one.
#[derive(Drop)]
pub(crate) struct Holders {
    victims: LineSet,
    pending: u32,
}

impl Model for Holders {
    ghost use Rattle.dir_header.specs.Standings.{HoldersView};
    ghost use Rattle.dir_header.specs.Codes.{holders_code};

    ghost Value = { HoldersView };

    ghost coded = { holders_code };

    ghost view = { λ h. record { victims = h.victims; pending = h.pending } };
}

impl Holders {
    /// No line holds a link.
    pub(crate) fn new() -> Holders
        ensures { result ≡ record { victims = none; pending = 0 } }
    {
        Holders {
            victims: LineSet::new(),
            pending: 0,
        }
    }

    /// A line that stood so stands otherwise.
    pub(crate) fn change(&mut self, m: u32, before: Standing, after: Standing)
        requires line { m < 4096 }
        requires was { counted before ≤ self.old.pending }
        requires room { self.old.pending < 4096 }
        ensures { self.new ≡ moved self.old m before after }
    {
        if before == Standing::Pending {
            self.pending -= 1;
        }
        if after == Standing::Pending {
            self.pending += 1;
        }
        if after == Standing::Victim {
            self.victims.insert(m);
        } else {
            self.victims.remove(m);
        }
    }

    /// How many pending lines hold a link.
    pub(crate) fn pending(&self) -> u32
        ensures { result ≡ self.now.pending }
    {
        self.pending
    }

    /// The least idle line that holds a link.
    pub(crate) fn least(&self) -> Option<u32>
        ensures value { result ≡ slice_get (in_order self.now.victims) 0 }
        ensures below { IfSome result (λ m. m < 4096) }
    {
        self.victims.least()
    }

    /// The idle lines that hold a link.
    pub(crate) fn victims(&self) -> LineSet
        ensures { result ≡ self.now.victims }
    {
        self.victims.copied()
    }
}
