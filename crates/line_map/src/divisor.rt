//! Division by a size of the machine, as a multiplication.

ghost use Rattle.std.specs.Prelude.{◌≡◌, ◌<◌, ◌≤◌, ◌/◌, ◌%◌, ◌^◌};

use std::marker::Model;

/// A divisor of 1 to 4096, seen as its value. Numbers below 2^22 are divided by it with a multiplication and a shift, which take a fraction of the time of a division.
#[derive(Clone, Copy)]
pub struct Divisor {
    value: u32,
    factor: u64,
}

impl Model for Divisor {
    ghost use Rattle.std.specs.Prelude.{◌≡◌, ◌≤◌, ℕ};
    ghost use Rattle.std.proofs.Common.{sym};
    ghost use Rattle.line_map.specs.Factors.{factor_of};

    ghost Value = { ℕ };

    ghost view = { λ d. d.value };

    ghost invariant = { λ d. (1 ≤ d.value) × (d.value ≤ 4096) × (d.factor ≡ factor_of d.value) };

    ghost inverse = { λ v. record { value = v; factor = factor_of v } };

    ghost inverse_ok = { λ d h. λ k. record { value = d.value; factor = sym h.2 k } };
}

impl Divisor {
    /// The divisor of this value.
    pub fn new(value: u32) -> Divisor
        requires some { 1 ≤ value }
        requires few { value ≤ 4096 }
        ensures { result ≡ value }
    {
        Divisor {
            value,
            factor: (1 << 40) / u64::from(value) + 1,
        }
    }

    /// Its value.
    pub fn value(&self) -> u32
        ensures { result ≡ self.now }
    {
        self.value
    }

    /// How often it goes into a number.
    pub fn quotient(&self, n: u32) -> u32
        requires { n < 2 ^ 22 }
        ensures { result ≡ n / self.now }
    {
        (u64::from(n) * self.factor >> 40) as u32
    }

    /// What it leaves of a number.
    pub fn remainder(&self, n: u32) -> u32
        requires { n < 2 ^ 22 }
        ensures { result ≡ n % self.now }
    {
        n - self.quotient(n) * self.value
    }
}
