//! All nodes of the machine with the lanes between them, and the events that they have made.

ghost use Rattle.std.specs.Prelude.{◌≡◌, ◌≢◌, ◌<◌, ◌↔◌, ℕ, ◌∷◌, ◌++◌, [], map, length, slice_get, All, IsTrue, IfOk, IfErr, OnOk, OnErr, Option, Some, Ok};
ghost use Rattle.op_model.specs.declared.events.Class.{Class};
ghost use Rattle.op_model.specs.Events.Step.{Done};
ghost use Rattle.op_model.specs.Run.Bounds.{request_bound, reply_bound};
ghost use Rattle.op_model.specs.Run.Counts.{Count, all_counts, counted, moments};
ghost use Rattle.op_model.specs.Run.History.{history as history_of, IsOneHistory};
ghost use Rattle.op_model.specs.Run.Rest.{IsAtRest};
ghost use Rattle.op_model.specs.Run.Runs.{Past, start as start_of};
ghost use Rattle.lane_queues.specs.LaneStates.{no_messages};
ghost use Rattle.machine.specs.Machines.{AreAllDone, IsMachine, IsNext, IsRefusedFor, effect_in, run_of, trace_of};
ghost use Rattle.dir_header.specs.HomeSides.{IsHome};
ghost use Rattle.machine.specs.Starts.{AreFresh, charge_of};
ghost use Rattle.op_model.specs.Programs.{ArePrograms, programs_of};
ghost use Rattle.op_model.specs.Run.Machines.{IsEventOf};
ghost use Rattle.machine.specs.Faces.{home_side, face_of, dir_of};
ghost use Rattle.op_model.specs.Events.Node.{permit};
ghost use Rattle.machine.specs.Views.{IsNodeOf, IsLanesOf};

use crate::enabled::can_make;
use crate::entries::completed;
use crate::journal::Journal;
use crate::nodes::{count_ops, new_nodes};
use crate::run::Run;
use dir_header::Sharers;
use lane_queues::Lanes;
use line_map::Machine;
use machine_face::ApplyError;
use magic_node::MagicNode;
use msg_words::Sends;
use op_model::{Cause, Entry, Event, NoMemory, Program};
use std::alloc::Global;
use std::marker::Model;

/// A machine whose nodes have made a list of events.
#[derive(Drop)]
pub struct Machine1<D: Sharers, Q: Lanes> {
    pub(crate) run: Run<D, Q>,
}

impl<D: Sharers, Q: Lanes> Model for Machine1<D, Q> {
    ghost use Rattle.std.specs.Prelude.{map, All};
    ghost use Rattle.machine.specs.Machines.{MachineView};

    ghost Value = { MachineView D };

    ghost use Rattle.machine.specs.Faces.{face_of, dir_of};
    ghost use Rattle.machine.specs.Views.{view_by};
    ghost use Rattle.machine.specs.Journals.{IsKeptWith};

    ghost view = { λ m. view_by m.run.cfg (map face_of m.run.nodes.items) m.run.journal.events.items (map dir_of m.run.nodes.items) };

    ghost invariant = { λ m. IsKeptWith m.run.cfg (map face_of m.run.nodes.items) (Q.meaning m.run.lanes) m.run.journal m.run.out × All D.is_sound (map dir_of m.run.nodes.items) };
}

impl<D: Sharers, Q: Lanes> Machine1<D, Q> {
    /// The machine at the start, with a program and an empty directory for each node, all directories of one charge, and empty lanes. Its memory is zeros and its caches are empty.
    pub fn start(
        alloc: Global,
        cfg: Machine,
        programs: Vec<Program>,
        dirs: Vec<D>,
        lanes: Q,
    ) -> Result<Machine1<D, Q>, NoMemory>
        requires programs { ArePrograms cfg programs.items }
        requires dirs { AreFresh cfg (map D.directory dirs.items) }
        requires lanes { Q.meaning lanes ≡ no_messages cfg (request_bound cfg) (reply_bound cfg) }
        ensures { IfOk result (λ made. made ≡ record { sizes = cfg; programs = programs.items; charge = charge_of (map D.directory dirs.items); events = []; dirs = dirs.items }) }
    {
        let out = Sends::new(alloc, cfg.nodes())?;
        let left = count_ops(&programs);
        let nodes = new_nodes(alloc, cfg, programs, dirs)?;
        Ok(Machine1 {
            run: Run {
                cfg,
                nodes,
                lanes,
                journal: Journal {
                    events: Vec::new(alloc),
                    served: Vec::new(alloc),
                    counts: [0; 27],
                    left,
                },
                out,
                alloc,
            },
        })
    }

    /// Makes an event, which is then the last one of the run. It is refused for its first cause, where it has one. A refusal, and want of memory, change nothing. After each call the directory of each home is as all of its kind: with linked lists, each link is free, or in the list of exactly one line.
    pub fn apply(&mut self, event: Event) -> Result<(), ApplyError>
        requires { IsEventOf self.old.sizes event }
        ensures sizes { self.new.sizes ≡ self.old.sizes }
        ensures programs { self.new.programs ≡ self.old.programs }
        ensures charge { self.new.charge ≡ self.old.charge }
        ensures ran { (past : Past) × (run_of self.new ≡ Some past) }
        ensures ok { OnOk result (self.new.events ≡ self.old.events ++ event ∷ []) }
        ensures err { OnErr result (self.new ≡ self.old) }
        ensures dirs { All D.is_sound self.new.dirs }
        ensures next { (past : Past) → run_of self.old ≡ Some past → OnOk result (IsNext self.old self.new past event) }
        ensures cause { (past : Past) → run_of self.old ≡ Some past → IfErr result (IsRefusedFor self.old past.state event) }
    {
        self.run.apply(event)
    }

    /// Whether an event would be made, or for which cause it would be refused first. A message under way can always be taken, with a line to call in where one is asked for.
    pub fn enabled(&self, event: &Event) -> Result<(), Cause>
        requires { IsEventOf self.now.sizes event.now }
        ensures moves { (past : Past) (src dst : ℕ) (class : Class) → run_of self.now ≡ Some past → past.state.lane src dst class ≢ [] → (victim : Option ℕ) × (done : Done) × (effect_in self.now past.state (Event.Take src dst class victim) ≡ Ok done) }
        ensures answer { (past : Past) → run_of self.now ≡ Some past → result ≡ permit (effect_in self.now past.state event.now) }
    {
        can_make(self.run.cfg, &self.run.nodes, &self.run.lanes, *event)
    }

    /// The machine.
    pub fn cfg(&self) -> Machine
        ensures value { result ≡ self.now.sizes }
        ensures kept { IsMachine self.now }
    {
        self.run.cfg
    }

    /// The allocator that the machine grows by.
    pub fn alloc(&self) -> Global {
        self.run.alloc
    }

    /// How many events were made.
    pub fn event_count(&self) -> u64
        ensures { result ≡ length self.now.events }
    {
        self.run.journal.events.len() as u64
    }

    /// The event at a place, counted from 0.
    pub fn event_at(&self, i: u64) -> Event
        requires { i < length self.now.events }
        ensures { slice_get self.now.events i ≡ Some result }
    {
        self.run.journal.events[i as usize]
    }

    /// All events, in the order in which they were made.
    pub fn events(&self) -> &[Event]
        ensures { result.now ≡ self.now.events }
    {
        &self.run.journal.events
    }

    /// Whether the machine is at rest: no message is under way, no operation is begun, and no line is pending.
    pub fn is_quiet(&self) -> bool
        ensures { (past : Past) → run_of self.now ≡ Some past → IsTrue result ↔ IsAtRest past.state }
    {
        self.run.lanes.first_busy().is_none()
    }

    /// Whether every program is done.
    pub fn all_done(&self) -> bool
        ensures { (past : Past) → run_of self.now ≡ Some past → IsTrue result ↔ AreAllDone self.now past.state }
    {
        self.run.journal.left == 0
    }

    /// A node. Its directory stands for the lists of its lines in the state of the run.
    pub fn node(&self, n: u32) -> &MagicNode<D>
        requires { n < self.now.sizes.nodes }
        ensures node { (past : Past) → run_of self.now ≡ Some past → IsNodeOf self.now past.state n (face_of result.now) }
        ensures sizes { result.now.sizes ≡ self.now.sizes }
        ensures dir { slice_get self.now.dirs n ≡ Some result.now.dir }
        ensures home { IsHome (D.directory result.now.dir) (home_side (face_of result.now) result.now.dir) }
    {
        let node = &self.run.nodes[n as usize];
        // The home says here what it keeps.
        let _cfg = node.home().cfg();
        node
    }

    /// The lanes.
    pub fn lanes(&self) -> &Q
        ensures { (past : Past) → run_of self.now ≡ Some past → IsLanesOf self.now past.state (Q.meaning result.now) }
    {
        &self.run.lanes
    }

    /// The program of a node.
    pub fn program(&self, n: u32) -> &Program
        requires { n < self.now.sizes.nodes }
        ensures { result.now ≡ programs_of self.now.programs n }
    {
        self.run.nodes[n as usize].proc().program()
    }

    /// The entries of the operations that were served, in their order, completed or not.
    pub fn served(&self) -> &[Entry]
        ensures { (past : Past) → run_of self.now ≡ Some past → result.now ≡ past.served }
    {
        self.run.journal.served.as_slice()
    }

    /// The completed operations, in the order of the events that served them: one history of one flat memory.
    pub fn history(&self, alloc: Global) -> Result<Vec<Entry>, NoMemory>
        ensures history { IfOk result (λ entries. (past : Past) → run_of self.now ≡ Some past → entries.items ≡ history_of past) }
        ensures ran { (past : Past) × (run_of self.now ≡ Some past) }
        ensures one { (past : Past) → run_of self.now ≡ Some past → IsOneHistory self.now.charge (trace_of self.now) self.now.events past }
    {
        completed(alloc, &self.run.nodes, self.run.journal.served.as_slice())
    }

    /// A count of the run, by its place among all counts.
    pub fn count(&self, i: u32) -> u64
        requires { i < 27 }
        ensures { (c : Count) → slice_get (all_counts self.now.sizes) i ≡ Some c → result ≡ counted (moments self.now.charge self.now.sizes (programs_of self.now.programs) (start_of self.now.sizes).state self.now.events) c }
    {
        self.run.journal.counts[i as usize]
    }
}
