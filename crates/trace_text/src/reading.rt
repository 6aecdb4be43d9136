//! A trace, read line by line.

ghost use Rattle.std.specs.Prelude.{◌≡◌, [], Ok, IfOk, IfErr, IsErr, MatchResult, true};
ghost use Rattle.line_map.specs.Sizes.{in_limits};
ghost use Rattle.text_lines.specs.Lines.{lines_of, kept};
ghost use Rattle.text_lines.specs.Words.{line_of};
ghost use Rattle.trace_text.specs.Reading.{Gives, of_line, next_of, version_of, header_of, sizes_lines, ops_from, of_steps as by_steps, steps_of, nothing_more, trace_in, trace_of};
ghost use Rattle.trace_text.specs.Traces.{IsWithinLimits};
ghost use Rattle.trace_text.specs.Places.{NamesLine};
ghost use Rattle.trace_text.specs.Spelling.{IsSpelled};

use crate::fault::{TraceCause, TraceError};
use crate::forms::{header, operation, version};
use crate::trace::Trace;
use line_map::{Field, MOST_NODES, Machine};
use op_model::{Event, Op};
use std::alloc::Global;
use step_journal::{StepError, Stop, read_section};
use text_lines::{Line, Lines};

/// The greatest number of operations that are read.
pub const MOST_OPS: usize = 100_000;

/// The next line, which has to come.
fn next<'a>(lines: &mut Lines<'a>) -> Result<Line<'a>, TraceError>
    ensures { Gives (λ l. (line_of l, lines.new)) result (next_of lines.old) }
{
    match lines.next() {
        Ok(line) => Ok(line),
        Err(end) => Err(TraceError::Bad {
            line: end,
            cause: TraceCause::NoEnd,
        }),
    }
}

/// A line's value, or the line's fault.
fn at<T: Drop>(number: u64, value: Result<T, TraceCause>) -> Result<T, TraceError>
    ensures same { MatchResult value (λ x. result ≡ Ok x) (λ _. IsErr result) }
    ensures gives { Gives (λ x. x) result (of_line number value) }
{
    match value {
        Ok(value) => Ok(value),
        Err(cause) => Err(TraceError::Bad {
            line: number,
            cause,
        }),
    }
}

#[tactic(auto, unfolding(crate::specs::Reading::version_of))]
fn read_version(lines: &mut Lines<'_>) -> Result<u32, TraceError>
    ensures { Gives (λ n. (n, lines.new)) result (version_of lines.old) }
{
    let line = next(lines)?;
    at(line.number, version(line.text))
}

#[tactic(auto, unfolding(crate::specs::Reading::header_of))]
fn header_value(field: Field, name: &[u8], lines: &mut Lines<'_>) -> Result<u64, TraceError>
    ensures value { Gives (λ n. (n, lines.new)) result (header_of field name.now lines.old) }
    ensures good { IfOk result (λ n. in_limits field n ≡ true) }
{
    let line = next(lines)?;
    at(line.number, header(field, name, line.text))
}

#[tactic(auto, unfolding(crate::specs::Reading::sizes_lines))]
fn read_machine(lines: &mut Lines<'_>) -> Result<Machine, TraceError>
    ensures { Gives (λ m. (m, lines.new)) result (sizes_lines lines.old) }
{
    let nodes = header_value(Field::Nodes, b"nodes", lines)?;
    let per_node = header_value(Field::Lines, b"lines", lines)?;
    let words = header_value(Field::Words, b"words", lines)?;
    let links = header_value(Field::Links, b"links", lines)?;
    let sets = header_value(Field::Sets, b"sets", lines)?;
    let pending = header_value(Field::Pending, b"pending", lines)?;
    let evicts = header_value(Field::Evicts, b"evicts", lines)?;
    match Machine::new(nodes, per_node, words, links, sets, pending, evicts) {
        Ok(machine) => Ok(machine),
        Err(_) => unreachable!(),
    }
}

/// After the end only skipped lines come.
fn read_nothing(lines: &mut Lines<'_>) -> Result<(), TraceError>
    ensures { Gives (λ x. x) result (nothing_more lines.old) }
{
    match lines.next() {
        Ok(line) => Err(TraceError::Bad {
            line: line.number,
            cause: TraceCause::After,
        }),
        Err(_) => Ok(()),
    }
}

/// The operations up to the line that ends them, and whether steps follow.
fn read_ops(
    alloc: Global,
    machine: &Machine,
    version: u32,
    lines: &mut Lines<'_>,
) -> Result<(Vec<Op>, bool), TraceError>
    ensures { Gives (λ x. ((x.0.items, x.1), lines.new)) result (ops_from machine.now version [] lines.old.lines lines.old.end) }
{
    let mut ops: Vec<Op> = Vec::new(alloc);
    let mut counts = [0u32; MOST_NODES];
    loop {
        let line = next(lines)?;
        if line.text == b"end".as_slice() {
            return Ok((ops, false));
        }
        if line.text == b"steps".as_slice() {
            return Ok((ops, true));
        }
        let access = at(line.number, operation(machine, version, line.text))?;
        if ops.len() >= MOST_OPS {
            return Err(TraceError::TooManyOps);
        }
        let node = access.node as usize;
        let index = counts[node];
        ops.push(Op {
            node: access.node,
            index,
            kind: access.kind,
            word: access.word,
            value: access.value,
        })?;
        counts[node] = index + 1;
    }
}

/// What a section of steps gives, or its fault.
fn of_steps<T: Drop>(value: Result<T, StepError>) -> Result<T, TraceError>
    ensures { result ≡ by_steps value }
{
    match value {
        Ok(value) => Ok(value),
        Err(StepError::Bad { line, cause }) => Err(TraceError::Bad {
            line,
            cause: TraceCause::from(cause),
        }),
        Err(StepError::TooMany) => Err(TraceError::TooManySteps),
        Err(StepError::Memory) => Err(TraceError::Memory),
    }
}

/// The steps up to the line `end`, where they follow.
fn read_steps(
    alloc: Global,
    machine: &Machine,
    follow: bool,
    lines: &mut Lines<'_>,
) -> Result<Vec<Event>, TraceError>
    ensures { Gives (λ v. (v.items, lines.new)) result (steps_of machine.now follow lines.old) }
{
    if !follow {
        return Ok(Vec::new(alloc));
    }
    let (steps, stop) = of_steps(read_section(alloc, machine, lines))?;
    match stop {
        Stop::End(_) => Ok(steps),
        Stop::Input(line) => Err(TraceError::Bad {
            line,
            cause: TraceCause::NoEnd,
        }),
    }
}

#[tactic(auto, unfolding(crate::specs::Reading::trace_in))]
fn read_all(alloc: Global, lines: &mut Lines<'_>) -> Result<Trace, TraceError>
    ensures { Gives (λ t. t) result (trace_in lines.old) }
{
    let version = read_version(lines)?;
    let machine = read_machine(lines)?;
    let (ops, follow) = read_ops(alloc, &machine, version, lines)?;
    let steps = read_steps(alloc, &machine, follow, lines)?;
    read_nothing(lines)?;
    Ok(Trace::of(version, machine, ops, steps))
}

/// The trace that the bytes spell, or its first bad line with the first cause of that line.
pub fn read_trace(alloc: Global, bytes: &[u8]) -> Result<Trace, TraceError>
    ensures value { Gives (λ t. t) result (trace_of bytes.now) }
    ensures limits { IfOk result IsWithinLimits }
    ensures spelled { IfOk result (λ t. IsSpelled (kept 1 (lines_of bytes.now)) t) }
    ensures named { IfErr result (NamesLine bytes.now) }
{
    read_all(alloc, &mut Lines::of(bytes, 1))
}
