//! The processor of a node.

ghost use Rattle.std.specs.Prelude.{◌≡◌, ◌<◌, ◌≤◌, suc, true, length, IsSome, IfSome};
ghost use Rattle.cpu_cache.specs.Processors.{ProcView, next_of, wanting, is_load_wanted};
ghost use Rattle.op_model.specs.Lines.{marked_load};

use op_model::{Op, Program, Want};
use std::marker::Model;

/// A processor, seen as its program, its place in it, and the operation that it has begun and not done, which is the one at the place.
#[derive(Drop)]
pub struct Proc {
    program: Program,
    place: u32,
    want: Option<Want>,
}

impl Model for Proc {
    ghost use Rattle.cpu_cache.specs.Processors.{ProcView, IsProc};

    ghost Value = { ProcView };

    ghost view = { λ p. record { program = p.program; place = p.place; want = p.want } };

    ghost invariant = { λ p. IsProc (record { program = p.program; place = p.place; want = p.want }) };
}

impl Proc {
    /// A processor that has begun nothing.
    pub fn new(program: Program) -> Proc
        ensures { result ≡ record { program = program; place = 0; want = None } }
    {
        Proc {
            program,
            place: 0,
            want: None,
        }
    }

    /// The operation at the place, if the program has one left.
    pub fn next_op(&self) -> Option<Op>
        ensures { result ≡ next_of self.now }
    {
        if self.place < self.program.len() {
            Some(self.program.at(self.place))
        } else {
            None
        }
    }

    /// The operation that is begun and not done.
    pub fn want(&self) -> Option<Want>
        ensures value { result ≡ self.now.want }
        ensures next { IfSome result (λ want. next_of self.now ≡ Some want.op) }
    {
        self.want
    }

    /// How many operations are done: the place.
    pub fn done_count(&self) -> u32
        ensures value { result ≡ self.now.place }
        ensures within { result ≤ length self.now.program }
    {
        self.place
    }

    /// The program.
    pub fn program(&self) -> &Program
        ensures { result.now ≡ self.now.program }
    {
        &self.program
    }

    /// Begins the operation at the place.
    pub fn begin(&mut self)
        requires left { self.old.place < length self.old.program }
        requires free { self.old.want ≡ None }
        ensures { self.new ≡ record self.old { want = wanting (next_of self.old) } }
    {
        self.want = Some(Want {
            op: self.program.at(self.place),
            marked: false,
        });
    }

    /// Marks the load that is begun: its line was invalidated meanwhile.
    pub fn mark(&mut self)
        requires { is_load_wanted self.old.want ≡ true }
        ensures { self.new ≡ record self.old { want = marked_load self.old.want } }
    {
        if let Some(want) = self.want {
            self.want = Some(Want {
                op: want.op,
                marked: true,
            });
        }
    }

    /// Gives up what is begun, which stays the next operation.
    pub fn refuse(&mut self)
        requires { IsSome self.old.want }
        ensures { self.new ≡ record self.old { want = None } }
    {
        self.want = None;
    }

    /// The operation at the place is done.
    pub fn finish(&mut self)
        requires { self.old.place < length self.old.program }
        ensures { self.new ≡ record self.old { place = suc self.old.place; want = None } }
    {
        prove!(self.place < self.program.len());
        self.want = None;
        self.place += 1;
    }
}
