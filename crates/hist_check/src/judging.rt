//! Whether a history is good: told by the programs and one flat memory, without any protocol.

ghost use Rattle.std.specs.Prelude.{◌≡◌, ◌<◌, ◌≤◌, ◌↔◌, ℕ, length, get_or, slice_get, IfOk, IfErr, IfNone, IsTrue, MatchOption};
ghost use Rattle.op_model.specs.Run.History.{IsEntryOf};
ghost use Rattle.op_model.specs.Programs.{programs_of};
ghost use Rattle.hist_check.specs.Good.{IsKnown, IsGood, all_missing};
ghost use Rattle.hist_check.specs.Bad.{HasPlace, HasPlaceCause, NamesEntry, RefusesBad};
ghost use Rattle.hist_check.specs.Counts.{missing_by};

use crate::fault::{CheckError, EntryCause};
use line_map::{MOST_NODES, Machine};
use op_model::{Entry, Flat, Kind, Op, Program};
use std::alloc::Global;

/// The operation that an entry names, where there is one.
fn named_op(programs: &[Program], entry: &Entry) -> Option<Op>
    ensures { MatchOption result (¬ IsKnown (programs_of programs.now entry.now.node) entry.now) (λ op. (entry.now.node < length programs.now) × (entry.now.index < 4294967295) × (slice_get (programs_of programs.now entry.now.node) entry.now.index ≡ Some op)) }
{
    let node = entry.node as usize;
    if node < programs.len() {
        let program = &programs[node];
        if entry.index < program.len() {
            return Some(program.at(entry.index));
        }
    }
    None
}

/// Whether an entry is of this operation. Only a load may have another value.
fn is_entry_of(op: &Op, entry: &Entry) -> bool
    ensures { IsTrue result ↔ IsEntryOf entry.now.index op.now entry.now }
{
    if entry.kind != op.kind || entry.word != op.word {
        return false;
    }
    op.kind == Kind::Load || entry.value == op.value
}

/// What is wrong with an entry's place, where each node has so many entries before it.
fn place_cause(programs: &[Program], counts: &[u32], entry: &Entry) -> Option<EntryCause>
    requires { length programs.now ≤ length counts.now }
    ensures cause { MatchOption result (HasPlace (programs_of programs.now entry.now.node) (get_or counts.now entry.now.node 0) entry.now) (λ cause. HasPlaceCause (programs_of programs.now entry.now.node) (get_or counts.now entry.now.node 0) entry.now cause) }
    ensures small { IfNone result ((entry.now.node < length programs.now) × (entry.now.index < 4294967295)) }
{
    let Some(op) = named_op(programs, entry) else {
        return Some(EntryCause::Foreign);
    };
    if entry.index != counts[entry.node as usize] {
        return Some(EntryCause::Order);
    }
    if !is_entry_of(&op, entry) {
        return Some(EntryCause::Differs);
    }
    None
}

/// The operations without an entry, where each node has so many entries.
fn missing(programs: &[Program], nodes: u32, counts: &[u32]) -> u64
    requires few { nodes ≤ 64 }
    requires all { length programs.now ≡ nodes }
    requires wide { nodes ≤ length counts.now }
    requires within { (node : ℕ) → node < nodes → get_or counts.now node 0 ≤ length (programs_of programs.now node) }
    ensures { result ≡ missing_by (programs_of programs.now) (λ node. get_or counts.now node 0) nodes }
{
    let mut missing: u64 = 0;
    for node in 0..nodes as usize {
        missing += u64::from(programs[node].len() - counts[node]);
    }
    missing
}

/// Judges a history of a machine by the programs of its nodes, one a node, in the order of the nodes. It goes over the entries once.
///
/// A history is good where it is legal on one flat memory that starts as zeros, and the entries of each node are the first operations of its program, in order, each with its own kind, word and, where it is a write, operand. Of a good one the answer is how many operations have no entry.
///
/// Any other history is refused for its first bad entry, counted from 1, with the first of these causes: Foreign, where its node's program has no operation of its index, or the machine no such node; Order, where its index isn't the number of its node's entries before it; Differs, where it isn't of that operation; Value, where it isn't legal behind the entries before it.
pub fn check_history(
    alloc: Global,
    programs: &[Program],
    cfg: &Machine,
    h: &[Entry],
) -> Result<u64, CheckError>
    requires { length programs.now ≡ cfg.now.nodes }
    ensures good { IfOk result (λ _. IsGood (programs_of programs.now) h.now) }
    ensures missing { IfOk result (λ m. m ≡ all_missing (programs_of programs.now) cfg.now.nodes h.now) }
    ensures bad { IfErr result (NamesEntry (programs_of programs.now) h.now) }
    ensures refused { IfErr result (RefusesBad (programs_of programs.now) h.now) }
{
    let nodes = cfg.nodes();
    let mut flat = Flat::empty(alloc);
    let mut counts = [0u32; MOST_NODES];
    for (i, entry) in h.iter().enumerate() {
        let number = i as u64 + 1;
        if let Some(cause) = place_cause(programs, &counts, entry) {
            return Err(CheckError::Bad {
                entry: number,
                cause,
            });
        }
        if !flat.apply(entry)? {
            return Err(CheckError::Bad {
                entry: number,
                cause: EntryCause::Value,
            });
        }
        counts[entry.node as usize] += 1;
    }
    Ok(missing(programs, nodes, &counts))
}
