//! The budget of a home's pending lines.

ghost use Rattle.std.specs.Prelude.{◌≡◌, ◌+◌, ◌-◌, ◌<◌, ◌≤◌, ◌↔◌, IsErr, OnOk, OnErr};

use op_model::Full;
use std::marker::Model;

/// How many places are used, at most `limit`.
#[derive(Clone, Copy)]
pub struct Budget {
    used: u32,
    limit: u32,
}

impl Model for Budget {
    ghost use Rattle.std.specs.Prelude.{◌≤◌};
    ghost use Rattle.dir_header.specs.Budgets.{BudgetView};

    ghost Value = { BudgetView };

    ghost view = { λ b. record { used = b.used; limit = b.limit } };

    ghost invariant = { λ b. b.used ≤ b.limit };

    ghost inverse = { λ b. record { used = b.used; limit = b.limit } };
}

impl Budget {
    /// A budget of which nothing is used.
    pub fn new(limit: u32) -> Budget
        ensures { result ≡ record { used = 0; limit = limit } }
    {
        Budget { used: 0, limit }
    }

    /// How many places are used.
    pub fn used(&self) -> u32
        ensures value { result ≡ self.now.used }
        ensures kept { self.now.used ≤ self.now.limit }
    {
        self.used
    }

    /// Takes a place.
    pub fn hold(&mut self) -> Result<(), Full>
        ensures full { IsErr result ↔ (self.old.used ≡ self.old.limit) }
        ensures ok { OnOk result (self.new ≡ record self.old { used = self.old.used + 1 }) }
        ensures err { OnErr result (self.new ≡ self.old) }
    {
        if self.used == self.limit {
            return Err(Full);
        }
        self.used += 1;
        Ok(())
    }

    /// Gives a place back.
    pub fn give_back(&mut self)
        requires { 0 < self.old.used }
        ensures { self.new ≡ record self.old { used = self.old.used - 1 } }
    {
        self.used -= 1;
    }
}
