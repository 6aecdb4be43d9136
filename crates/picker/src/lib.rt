//! A choice among things, made by a closure that is kept beside the fact that its answer is always one of them.
#![tactic(auto)]

ghost use Rattle.std.specs.Prelude.{◌≡◌, ◌<◌, ℕ};
ghost use Rattle.picker.specs.Choices.{IsChoice};

use std::marker::Model;

/// A closure that answers a number for a draw and a number of things. Every `Fn(u64, u32) -> u32` is one.
pub trait Choice {
    // The `pre` of the closure: whether it may be called so.
    ghost can_answer: { Self → ℕ → ℕ → Type 0 };

    // The `post` of the closure: whether a call may answer this.
    ghost answers: { Self → ℕ → ℕ → ℕ → Type 0 };

    /// Calls the closure.
    fn answer(&self, draw: u64, n: u32) -> u32
        requires { can_answer self.now draw n }
        ensures { answers self.now draw n result };
}

impl<F: Fn(u64, u32) -> u32> Choice for F {
    ghost can_answer = { F.pre };

    ghost answers = { F.post };

    fn answer(&self, draw: u64, n: u32) -> u32 {
        self(draw, n)
    }
}

/// A closure whose answer is below `n` for every draw and every `n` above 0. Contracts see it as the closure.
/// A function that makes or holds one is generic in `F: Choice`, and its caller hands it the closure.
#[derive(Drop)]
pub struct Picker<F: Choice> {
    choice: F,
}

impl<F: Choice> Model for Picker<F> {
    ghost Value = { F };

    ghost view = { λ p. p.choice };

    ghost invariant = { λ p. IsChoice (F.can_answer p.choice) (F.answers p.choice) };
}

impl<F: Choice> Picker<F> {
    /// Keeps a closure to pick by.
    pub fn new(f: F) -> Picker<F>
        requires { IsChoice (F.can_answer f) (F.answers f) }
        ensures { result ≡ f }
    {
        Picker { choice: f }
    }

    /// The closure's choice of one of `n` things, numbered from 0, for this draw.
    pub fn pick(&self, draw: u64, n: u32) -> u32
        requires { 0 < n }
        ensures chosen { F.answers self.now draw n result }
        ensures below { result < n }
    {
        self.choice.answer(draw, n)
    }
}
