//! What a machine promises.

ghost use Rattle.std.specs.Prelude.{◌≡◌, ◌<◌, is_some, nat_lt, slice_get, IfOk, IfErr, IfSome, OnOk, OnErr};
ghost use Rattle.line_map.specs.Sizes.{all_lines};
ghost use Rattle.op_model.specs.Lines.{state_of};
ghost use Rattle.op_model.specs.Shares.{copy_of};
ghost use Rattle.op_model.specs.Run.Schedules.{first_busy as first_busy_of, least_victim as least_victim_of, other_in_set as other_of_set};
ghost use Rattle.op_model.specs.Run.Seeded.{free_links, low_water};
ghost use Rattle.op_model.specs.Run.Machines.{MachineRun, IsRunning, effect_on, IsApplied, IsEnabled, IsEventOf};
ghost use Rattle.machine_face.specs.Runs.{IsRefused};
ghost use Rattle.machine_face.specs.Reads.{IsLane, victims as victims_of, next_busy as next_busy_of};

use crate::refusal::ApplyError;
use dir_header::Victims;
use line_map::Machine;
use op_model::{Cause, Class, CopyState, Event, Op};
use std::alloc::Global;

/// A machine that makes events and stores them. A call on its state costs no scan of lines, of lanes or of programs.
pub trait MachineFace {
    /// The machine with the run that it has made.
    ghost meaning: { Self → MachineRun };

    /// The allocator that the machine grows by.
    fn alloc(&self) -> Global;

    /// The sizes of the machine.
    fn cfg(&self) -> Machine
        ensures value { result ≡ (meaning self.now).sizes }
        ensures kept { IsRunning (meaning self.now) };

    /// Makes an event and stores it. Refused, with the first cause, where it isn't enabled.
    fn apply(&mut self, event: Event) -> Result<(), ApplyError>
        requires { IsEventOf (meaning self.old).sizes event }
        ensures ok { OnOk result (IsApplied (meaning self.old) event (meaning self.new)) }
        ensures refused { IfErr result (IsRefused (meaning self.old) event) }
        ensures err { OnErr result (meaning self.new ≡ meaning self.old) }
        ensures kept { IsRunning (meaning self.new) };

    /// Whether an event is enabled, or the first cause for which it isn't.
    fn enabled(&self, event: &Event) -> Result<(), Cause>
        requires { IsEventOf (meaning self.now).sizes event.now }
        ensures ok { OnOk result (IsEnabled (meaning self.now) event.now) }
        ensures err { IfErr result (λ cause. effect_on (meaning self.now) event.now ≡ Err cause) };

    /// The first lane that isn't empty, by sender, then by taker, then requests before replies. None where all are empty.
    fn first_busy(&self) -> Option<(u32, u32, Class)>
        ensures { IsLane result (first_busy_of (meaning self.now).sizes (meaning self.now).past.state) };

    /// The first lane behind this one that isn't empty.
    fn next_busy(&self, src: u32, dst: u32, class: Class) -> Option<(u32, u32, Class)>
        requires from { src < (meaning self.now).sizes.nodes }
        requires to { dst < (meaning self.now).sizes.nodes }
        ensures { IsLane result (next_busy_of (meaning self.now).sizes (meaning self.now).past.state (record { src = src; dst = dst; class = class })) };

    /// The place of a node in its program: how many of its operations are completed.
    fn done_count(&self, node: u32) -> u32
        requires { node < (meaning self.now).sizes.nodes }
        ensures { result ≡ ((meaning self.now).past.state.share node).place };

    /// The operation at a node's place.
    fn next_op(&self, node: u32) -> Option<Op>
        requires { node < (meaning self.now).sizes.nodes }
        ensures { result ≡ slice_get ((meaning self.now).programs node) ((meaning self.now).past.state.share node).place };

    /// Whether a node has begun an operation that isn't done.
    fn is_outstanding(&self, node: u32) -> bool
        requires { node < (meaning self.now).sizes.nodes }
        ensures { result ≡ is_some ((meaning self.now).past.state.share node).want };

    /// What a node's cache has of a line.
    fn copy_state(&self, node: u32, line: u32) -> CopyState
        requires node { node < (meaning self.now).sizes.nodes }
        requires line { line < all_lines (meaning self.now).sizes }
        ensures { result ≡ state_of (copy_of ((meaning self.now).past.state.share node) line) };

    /// Another line than this one in its cache set.
    fn other_in_set(&self, node: u32, line: u32) -> Option<u32>
        requires node { node < (meaning self.now).sizes.nodes }
        requires line { line < all_lines (meaning self.now).sizes }
        ensures value { result ≡ other_of_set (meaning self.now).sizes ((meaning self.now).past.state.share node) line }
        ensures below { IfSome result (λ other. other < all_lines (meaning self.now).sizes) };

    /// The least line of a home that may be called in.
    fn least_victim(&self, home: u32) -> Option<u32>
        requires { home < (meaning self.now).sizes.nodes }
        ensures { result ≡ least_victim_of (meaning self.now).charge (meaning self.now).sizes (meaning self.now).past.state home };

    /// The lines of a home that may be called in, each handed out once, in increasing order. They are those of the machine as it stands at this call.
    fn victims(&self, home: u32) -> Victims
        requires { home < (meaning self.now).sizes.nodes }
        ensures { result ≡ victims_of (meaning self.now) home };

    /// Whether the free links of a home are below its low water: an eighth of its links.
    fn is_low(&self, home: u32) -> bool
        requires { home < (meaning self.now).sizes.nodes }
        ensures { result ≡ nat_lt (free_links (meaning self.now).charge (meaning self.now).sizes ((meaning self.now).past.state.share home)) (low_water (meaning self.now).sizes.links) };
}
