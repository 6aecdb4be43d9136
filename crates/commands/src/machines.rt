//! The machine of a trace, at its start.

ghost use Rattle.std.specs.Prelude.{◌≡◌, map, replicate, IfOk};
ghost use Rattle.op_model.specs.Shares.{Linked, Unlinked};
ghost use Rattle.op_model.specs.Run.Bounds.{request_bound as requests_at_most, reply_bound as replies_at_most};
ghost use Rattle.bitvec_dir.specs.Bits.{first_bits};
ghost use Rattle.lane_queues.specs.LaneStates.{no_messages};
ghost use Rattle.lane_queues.specs.Queues.{meaning_of};
ghost use Rattle.machine.specs.Driven.{run_made};
ghost use Rattle.machine.specs.Starts.{AreFresh, charge_of};
ghost use Rattle.sharer_dir.specs.Linked.{first_linked};
ghost use Rattle.commands.specs.Runs.{machine_at_start};

use bitvec_dir::BitDir;
use dir_header::Sharers;
use lane_queues::{Lanes, RingLanes};
use line_map::Machine;
use machine::Machine1;
use op_model::NoMemory;
use out_space::{reply_bound, request_bound};
use sharer_dir::LinkedDir;
use std::alloc::Global;
use trace_text::{Trace, programs};

/// An empty directory of linked lists for each node.
fn linked_dirs(alloc: Global, cfg: Machine) -> Result<Vec<LinkedDir>, NoMemory>
    ensures { IfOk result (λ dirs. dirs.items ≡ replicate cfg.nodes (first_linked cfg.lines cfg.links)) }
{
    let mut dirs = Vec::new(alloc);
    for _ in 0..cfg.nodes() {
        let dir = LinkedDir::new(alloc, cfg.lines(), cfg.links())?;
        dirs.push(dir).map_err(|_| NoMemory)?;
    }
    Ok(dirs)
}

/// An empty directory of bit vectors for each node.
fn bit_dirs(alloc: Global, cfg: Machine) -> Result<Vec<BitDir>, NoMemory>
    ensures { IfOk result (λ dirs. dirs.items ≡ replicate cfg.nodes (first_bits cfg.lines cfg.nodes cfg.links)) }
{
    let mut dirs = Vec::new(alloc);
    for _ in 0..cfg.nodes() {
        let dir = BitDir::new(alloc, cfg.lines(), cfg.nodes(), cfg.links())?;
        dirs.push(dir).map_err(|_| NoMemory)?;
    }
    Ok(dirs)
}

/// The machine of a trace at its start, over these directories, which are empty, and these lanes.
fn machine_over<D: Sharers, Q: Lanes>(
    alloc: Global,
    trace: &Trace,
    dirs: Vec<D>,
    lanes: Q,
) -> Result<Machine1<D, Q>, NoMemory>
    requires dirs { AreFresh trace.now.sizes (map D.directory dirs.items) }
    requires lanes { Q.meaning lanes ≡ no_messages trace.now.sizes (requests_at_most trace.now.sizes) (replies_at_most trace.now.sizes) }
    ensures { IfOk result (λ made. run_made made ≡ machine_at_start (charge_of (map D.directory dirs.items)) trace.now) }
{
    let cfg = trace.cfg();
    let programs = programs(alloc, trace)?;
    Machine1::start(alloc, cfg, programs, dirs, lanes)
}

/// The machine of a trace at its start, over directories of linked lists and these lanes.
pub(crate) fn linked_machine<Q: Lanes>(
    alloc: Global,
    trace: &Trace,
    lanes: Q,
) -> Result<Machine1<LinkedDir, Q>, NoMemory>
    requires { Q.meaning lanes ≡ no_messages trace.now.sizes (requests_at_most trace.now.sizes) (replies_at_most trace.now.sizes) }
    ensures { IfOk result (λ made. run_made made ≡ machine_at_start Linked trace.now) }
{
    let cfg = trace.cfg();
    machine_over(alloc, trace, linked_dirs(alloc, cfg)?, lanes)
}

/// The machine of a trace at its start, over directories of bit vectors and rings of words.
pub(crate) fn bit_machine(
    alloc: Global,
    trace: &Trace,
) -> Result<Machine1<BitDir, RingLanes>, NoMemory>
    ensures { IfOk result (λ made. run_made made ≡ machine_at_start Unlinked trace.now) }
{
    let cfg = trace.cfg();
    let lanes = ring_lanes(alloc, trace)?;
    machine_over(alloc, trace, bit_dirs(alloc, cfg)?, lanes)
}

/// Empty lanes of the machine of a trace, as rings of words with room for as many messages as there can be.
pub(crate) fn ring_lanes(alloc: Global, trace: &Trace) -> Result<RingLanes, NoMemory>
    ensures { IfOk result (λ lanes. meaning_of lanes ≡ no_messages trace.now.sizes (requests_at_most trace.now.sizes) (replies_at_most trace.now.sizes)) }
{
    let cfg = trace.cfg();
    RingLanes::new(alloc, cfg, request_bound(&cfg), reply_bound(&cfg))
}
