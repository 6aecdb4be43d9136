//! The history of a report, read line by line.

ghost use Rattle.std.specs.Prelude.{◌≡◌, ◌+◌, ◌<◌, ◌^◌, ◌⊎◌, [], Ok, IfOk, IfErr, IsErr, MatchResult, length};
ghost use Rattle.text_lines.specs.Lines.{lines_of, kept};
ghost use Rattle.text_lines.specs.Words.{line_of};
ghost use Rattle.hist_check.specs.Spelling.{IsSpelled};
ghost use Rattle.hist_check.specs.Reading.{Gives, of_line, next_of, behind_end, head_of, report_front, entries_from, entries_in, report_history};
ghost use Rattle.hist_check.specs.Places.{NamesLine};

use crate::fault::EntriesError;
use crate::forms::{entry, report};
use line_map::Machine;
use op_model::Entry;
use std::alloc::Global;
use text_lines::{Line, Lines};
use trace_text::{TraceCause, named};

/// The next line, which has to come.
fn next<'a>(lines: &mut Lines<'a>) -> Result<Line<'a>, EntriesError>
    ensures { Gives (λ l. (line_of l, lines.new)) result (next_of lines.old) }
{
    match lines.next() {
        Ok(line) => Ok(line),
        Err(end) => Err(EntriesError::Bad {
            line: end,
            cause: TraceCause::NoEnd,
        }),
    }
}

/// A line's value, or the line's fault.
fn at<T: Drop>(number: u64, value: Result<T, TraceCause>) -> Result<T, EntriesError>
    ensures same { MatchResult value (λ x. result ≡ Ok x) (λ _. IsErr result) }
    ensures gives { Gives (λ x. x) result (of_line number value) }
{
    match value {
        Ok(value) => Ok(value),
        Err(cause) => Err(EntriesError::Bad {
            line: number,
            cause,
        }),
    }
}

/// Passes over all lines up to the next line `end`.
fn pass_end(lines: &mut Lines<'_>) -> Result<(), EntriesError>
    ensures { Gives (λ _. lines.new) result (behind_end lines.old.lines lines.old.end) }
{
    loop {
        let line = next(lines)?;
        if line.text == b"end".as_slice() {
            return Ok(());
        }
    }
}

/// The first line, behind a section of steps where there is one.
#[tactic(auto, unfolding(crate::specs::Reading::head_of))]
fn head<'a>(lines: &mut Lines<'a>) -> Result<Line<'a>, EntriesError>
    ensures { Gives (λ l. (line_of l, lines.new)) result (head_of lines.old) }
{
    let line = next(lines)?;
    if line.text != b"steps".as_slice() {
        return Ok(line);
    }
    pass_end(lines)?;
    next(lines)
}

/// The lines before the entries, and how many entries follow.
#[tactic(auto, unfolding(crate::specs::Reading::report_front))]
fn front(version: u32, lines: &mut Lines<'_>) -> Result<u64, EntriesError>
    ensures { Gives (λ n. (n, lines.new)) result (report_front version lines.old) }
{
    let first = head(lines)?;
    at(first.number, report(version, first.text))?;
    let line = next(lines)?;
    at(line.number, named(b"history", line.text))
}

/// So many entries, one a line.
fn entries(
    alloc: Global,
    machine: &Machine,
    version: u32,
    wanted: u64,
    lines: &mut Lines<'_>,
) -> Result<Vec<Entry>, EntriesError>
    ensures { Gives (λ v. v.items) result (entries_from machine.now version [] wanted lines.old) }
{
    let mut entries: Vec<Entry> = Vec::new(alloc);
    for _ in 0..wanted {
        let line = next(lines)?;
        entries.push(at(line.number, entry(machine, version, line.text))?)?;
    }
    Ok(entries)
}

/// The lines before the entries, and the entries.
#[tactic(auto, unfolding(crate::specs::Reading::entries_in))]
fn read_all(
    alloc: Global,
    machine: &Machine,
    version: u32,
    lines: &mut Lines<'_>,
) -> Result<Vec<Entry>, EntriesError>
    ensures { Gives (λ v. v.items) result (entries_in machine.now version lines.old) }
{
    let wanted = front(version, lines)?;
    entries(alloc, machine, version, wanted, lines)
}

/// Reads the history of a report of this version, from a text whose first line has this number: perhaps the line `steps` with all lines up to the next line `end`, as a journal is printed; then the lines `flash report <version>` and `history <number of entries>`, and one line for each entry. What comes behind them isn't looked at.
///
/// An entry is `<node> <index> L|S <address> <value>`, or in version 2 also `<node> <index> X|A <address> <value> <old value>`. Its address is one of this machine; whether the machine has its node isn't asked here.
///
/// A text that isn't so is refused for its first bad line with the first cause of that line: Shape for a line of another form, Number for a number of 2^64 or more and for a node or an index of 2^32 or more, Version for a report of another version, Unaligned and PastEnd for an address, and NoEnd for the line after the last where one more has to come.
pub fn read_entries(
    alloc: Global,
    cfg: &Machine,
    version: u32,
    text: &[u8],
    first_line: u64,
) -> Result<Vec<Entry>, EntriesError>
    requires version { (version ≡ 1) ⊎ (version ≡ 2) }
    requires lines { first_line + length text.now < 2 ^ 64 }
    ensures value { Gives (λ v. v.items) result (report_history cfg.now version first_line text.now) }
    ensures spelled { IfOk result (λ v. IsSpelled cfg.now version (kept first_line (lines_of text.now)) v.items) }
    ensures named { IfErr result (NamesLine first_line text.now) }
{
    read_all(alloc, cfg, version, &mut Lines::of(text, first_line))
}
