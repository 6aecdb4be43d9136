//! All nodes of the eager core with the lanes between them, and the events that they have made.

ghost use Rattle.std.specs.Prelude.{◌≡◌, ◌<◌, ◌↔◌, ℕ, ◌∷◌, ◌++◌, [], length, IsTrue, IfSome, IfOk, IfErr, OnOk, OnErr, Some};
ghost use Rattle.op_model.specs.declared.events.Class.{Class};
ghost use Rattle.op_model.specs.Programs.{ArePrograms};
ghost use Rattle.op_model.specs.Run.Machines.{IsEventOf};
ghost use Rattle.op_model.specs.Run.Rest.{IsAtRest};
ghost use Rattle.op_model.specs.Run.Schedules.{first_busy as first_busy_of};
ghost use Rattle.machine_face.specs.Reads.{IsLane};
ghost use Rattle.eager_model.specs.Runs.{Past};
ghost use Rattle.eager_schedule.specs.Promises.{KeepsPromise};
ghost use Rattle.eager_machine.specs.Lanes.{IsBetween};
ghost use Rattle.eager_machine.specs.Machines.{IsMachine, IsNext, IsNodeIn, IsRefusedFor, run_of, trace_of};

use crate::journal::Journal;
use crate::lanes::AgedLanes;
use crate::nodes::new_nodes;
use crate::run::EagerRun;
use crate::sending::Outbox;
use eager_home::EagerNode;
use line_map::Machine;
use machine_face::ApplyError;
use msg_words::Sends;
use op_model::{Class, Event, NoMemory, Program};
use std::alloc::Global;
use std::marker::Model;

/// A machine of the eager core whose nodes have made a list of events.
#[derive(Drop)]
pub struct EagerMachine {
    pub(crate) run: EagerRun,
}

impl Model for EagerMachine {
    ghost use Rattle.eager_machine.specs.Kept.{programs_in};
    ghost use Rattle.eager_machine.specs.Machines.{EagerMachineView};
    ghost use Rattle.eager_machine.specs.Runs.{IsRunKept};

    ghost Value = { EagerMachineView };

    ghost view = { λ m. record { sizes = m.run.cfg; programs = programs_in m.run.nodes.items; events = m.run.journal.events.items } };

    ghost invariant = { λ m. IsRunKept m.run.cfg m.run.nodes.items m.run.lanes m.run.out m.run.journal };
}

impl EagerMachine {
    /// The machine at the start, with a program for each node. Its memory is zeros, its caches and its lanes are empty, and all ages are 0.
    pub fn start(
        alloc: Global,
        cfg: Machine,
        programs: Vec<Program>,
    ) -> Result<EagerMachine, NoMemory>
        requires { ArePrograms cfg programs.items }
        ensures { IfOk result (λ made. made ≡ record { sizes = cfg; programs = programs.items; events = [] }) }
    {
        let sends = Sends::new(alloc, cfg.nodes())?;
        let lanes = AgedLanes::new(alloc, cfg)?;
        let nodes = new_nodes(alloc, cfg, programs)?;
        Ok(EagerMachine {
            run: EagerRun {
                cfg,
                nodes,
                lanes,
                out: Outbox {
                    sends,
                    moved: 0,
                    node: 0,
                    given: 0,
                },
                journal: Journal {
                    events: Vec::new(alloc),
                    served: Vec::new(alloc),
                    counts: [0; 27],
                },
            },
        })
    }

    /// Makes an event, which is then the last one of the run. It is refused for its first cause, where it has one. A refusal, and want of memory, change nothing. After each call the machine keeps its promise: every line keeps one history, lanes are within their bounds, every Take lowers the weight, and from rest the serial schedule completes its operation within 2N + 8 events.
    pub fn apply(&mut self, event: Event) -> Result<(), ApplyError>
        requires { IsEventOf self.old.sizes event }
        ensures sizes { self.new.sizes ≡ self.old.sizes }
        ensures programs { self.new.programs ≡ self.old.programs }
        ensures ran { (past : Past) × (run_of self.new ≡ Some past) }
        ensures ok { OnOk result (self.new.events ≡ self.old.events ++ event ∷ []) }
        ensures err { OnErr result (self.new ≡ self.old) }
        ensures next { (past : Past) → run_of self.old ≡ Some past → OnOk result (IsNext self.old self.new past event) }
        ensures cause { (past : Past) → run_of self.old ≡ Some past → IfErr result (IsRefusedFor self.old past event) }
        ensures keeps { (past : Past) → run_of self.new ≡ Some past → KeepsPromise (trace_of self.new) past }
    {
        self.run.apply(event)
    }

    /// The machine.
    pub fn cfg(&self) -> Machine
        ensures value { result ≡ self.now.sizes }
        ensures kept { IsMachine self.now }
    {
        self.run.cfg
    }

    /// How many events were made.
    pub fn event_count(&self) -> u64
        ensures { result ≡ length self.now.events }
    {
        self.run.journal.events.len() as u64
    }

    /// All events, in the order in which they were made.
    pub fn events(&self) -> &[Event]
        ensures { result.now ≡ self.now.events }
    {
        &self.run.journal.events
    }

    /// Whether no message is under way, and so the machine is at rest.
    pub fn is_quiet(&self) -> bool
        ensures empty { (past : Past) → run_of self.now ≡ Some past → IsTrue result ↔ ((src dst : ℕ) (class : Class) → past.state.lane src dst class ≡ []) }
        ensures rests { (past : Past) → run_of self.now ≡ Some past → IsTrue result ↔ IsAtRest past.state }
    {
        self.run.out.moved == self.run.out.sends.len() && self.run.lanes.first_busy().is_none()
    }

    /// The first lane that isn't empty: by sender, then by taker, then requests before replies. None where no message is under way. What the last event sent goes into its lanes first, which takes memory and changes nothing that is seen.
    pub(crate) fn first_busy(&mut self) -> Result<Option<(u32, u32, Class)>, NoMemory>
        ensures same { self.new ≡ self.old }
        ensures first { (past : Past) → run_of self.old ≡ Some past → IfOk result (λ lane. IsLane lane (first_busy_of self.old.sizes past.state)) }
        ensures within { IfOk result (λ lane. IfSome lane (IsBetween self.old.sizes)) }
    {
        self.run.settle()?;
        Ok(self.run.lanes.first_busy())
    }

    /// A node, in the state that the run has come to.
    pub(crate) fn node(&self, n: u32) -> &EagerNode
        requires { n < self.now.sizes.nodes }
        ensures sizes { result.now.sizes ≡ self.now.sizes }
        ensures node { (past : Past) → run_of self.now ≡ Some past → IsNodeIn self.now past.state n result.now }
    {
        &self.run.nodes[n as usize]
    }
}
