//! The input is read, its history is judged, and the judgement is printed.

ghost use Rattle.std.specs.Prelude.{◌≡◌, Ok, IfOk, IfErr};
ghost use Rattle.op_model.specs.Shares.{program};
ghost use Rattle.hist_check.specs.Good.{IsGood, all_missing};
ghost use Rattle.hist_check.specs.Bad.{NamesEntry, RefusesBad};
ghost use Rattle.check_command.specs.Checked.{fault_of as fault_of_entries, IsReadAs, IsFault, checked_text, IsChecked, IsUncheckable};

use crate::refusal::CheckRefusal;
use decimal_text::{put_bytes, put_named};
use hist_check::{CheckError, EntriesError, check_history, cut_trace, read_entries};
use op_model::{Entry, NoMemory};
use std::alloc::Global;
use trace_text::{Trace, TraceError, programs, read_trace};

fn fault_of(error: EntriesError) -> TraceError
    ensures { result ≡ fault_of_entries error }
{
    match error {
        EntriesError::Bad { line, cause } => TraceError::Bad { line, cause },
        EntriesError::Memory => TraceError::Memory,
    }
}

/// The trace of an input, and the history that is printed behind it.
fn read_input(alloc: Global, bytes: &[u8]) -> Result<(Trace, Vec<Entry>), TraceError>
    ensures read { IfOk result (λ read. IsReadAs bytes.now (Ok (read.0, read.1.items))) }
    ensures fault { IfErr result (IsFault bytes.now) }
{
    let cut = cut_trace(bytes);
    let trace = read_trace(alloc, cut.trace)?;
    let machine = trace.cfg();
    match read_entries(alloc, &machine, trace.version(), cut.rest, cut.next) {
        Ok(entries) => Ok((trace, entries)),
        Err(error) => Err(fault_of(error)),
    }
}

/// How many operations of a trace have no entry in a good history. A history that isn't good is refused.
fn judge(alloc: Global, trace: &Trace, entries: &[Entry]) -> Result<u64, CheckError>
    ensures good { IfOk result (λ _. IsGood (program trace.now) entries.now) }
    ensures missing { IfOk result (λ missing. missing ≡ all_missing (program trace.now) trace.now.sizes.nodes entries.now) }
    ensures bad { IfErr result (NamesEntry (program trace.now) entries.now) }
    ensures refused { IfErr result (RefusesBad (program trace.now) entries.now) }
{
    let machine = trace.cfg();
    let programs = programs(alloc, trace)?;
    check_history(alloc, &programs, &machine, entries)
}

fn print(alloc: Global, entries: u64, missing: u64) -> Result<Vec<u8>, NoMemory>
    ensures { IfOk result (λ text. text.items ≡ checked_text entries missing) }
{
    let mut text = Vec::new(alloc);
    put_bytes(&mut text, b"flash check 1\n")?;
    put_named(&mut text, b"entries ", entries)?;
    put_named(&mut text, b"missing ", missing)?;
    put_bytes(&mut text, b"end\n")?;
    Ok(text)
}

/// Judges a printed history by the trace before it, without any protocol, and gives the text of a good one: how many entries it has, and how many operations of the trace have no entry.
///
/// The trace ends with the first line `end` of the input. Behind it come the lines that a command printed for it: perhaps the line `steps` with all lines up to the next line `end`, then the first line of the report, which has to have the trace's version, the line `history <number of entries>` and a line for each entry. What comes behind them is passed over.
///
/// A fault of the trace comes first, then one of the lines behind it, by the number of its line in the whole input and with the first cause of that line; and then the first bad entry of the history with its first cause. The time is linear in the bytes, and they aren't copied.
pub fn check_text(alloc: Global, bytes: &[u8]) -> Result<Vec<u8>, CheckRefusal>
    ensures checked { IfOk result (λ text. IsChecked bytes.now text.items) }
    ensures refused { IfErr result (IsUncheckable bytes.now) }
{
    let (trace, entries) = read_input(alloc, bytes)?;
    let missing = judge(alloc, &trace, &entries)?;
    let text = print(alloc, entries.len() as u64, missing)?;
    Ok(text)
}
