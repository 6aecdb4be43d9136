//! The top call of charts.

ghost use Rattle.std.specs.Prelude.{◌≡◌, ◌≤◌, ◌⊎◌, map, string_bytes, IfOk, IfErr};
ghost use Rattle.std.specs.Io.KnownBytes.{Appends};
ghost use Rattle.byte_io.specs.Faults.{raised};
ghost use Rattle.byte_io.specs.Moves.{AppendsPart};
ghost use Rattle.text_lines.specs.Numbers.{decimal_word};
ghost use Rattle.chart_top.specs.Faults.{chart_fault_text};
ghost use Rattle.chart_top.specs.Served.{chosen_in, chosen_of, ChartsText, HasNoChart, IsCharted, IsRightChart, status_of_chart};

use crate::status::ChartStatus;
use crate::tell::tell_chart;
use byte_io::{Sink, Source, write_all};
use chart_command::{ChartError, chart_text};
use flash_top::{Status, read_in};
use std::alloc::Global;
use text_lines::decimal;

/// The choice of the line that a word names, if it names one.
fn one_line(word: &str) -> Option<Option<u32>>
    ensures { result ≡ chosen_in (decimal_word word.now) }
{
    let line = decimal(word.as_bytes()).ok()?;
    if line > u64::from(u32::MAX) {
        return None;
    }
    let line = line as u32;
    Some(Some(line))
}

/// The line that words choose, or none of them. None where they choose nothing so.
fn chosen(words: &[String]) -> Option<Option<u32>>
    ensures { result ≡ chosen_of (map string_bytes words.now) }
{
    match words {
        [] => Some(None),
        [word] => one_line(word),
        _ => None,
    }
}

fn uncharted(error: ChartError) -> ChartStatus
    ensures { result ≡ status_of_chart error }
{
    match error {
        ChartError::TooManyNodes { count } => ChartStatus::TooManyNodes { count },
        ChartError::TooManySteps { count } => ChartStatus::TooManyShown { count },
        ChartError::NoLine { line } => ChartStatus::Plain(Status::NoLine { line }),
        ChartError::NotEnabled { step, cause } => {
            ChartStatus::Plain(Status::NotEnabled { step, cause })
        }
        ChartError::Memory => ChartStatus::Plain(Status::Memory),
    }
}

/// The chart of the trace that a source has, which is read to its end.
fn charted<S: Source>(
    alloc: Global,
    chosen: Option<u32>,
    source: &mut S,
) -> Result<Vec<u8>, ChartStatus>
    ensures ok { IfOk result (λ text. ChartsText chosen
        (record {
          left_before = S.left source.old;
          left_after = S.left source.new;
          faults_before = S.faults source.old;
          faults_after = S.faults source.new;
        })
        text.items) }
    ensures err { IfErr result (λ status. HasNoChart status chosen
        (record {
          left_before = S.left source.old;
          left_after = S.left source.new;
          faults_before = S.faults source.old;
          faults_after = S.faults source.new;
        })) }
    ensures faults { S.faults source.old ≤ S.faults source.new }
{
    let trace = match read_in(alloc, source) {
        Ok(trace) => trace,
        Err(status) => return Err(ChartStatus::Plain(status)),
    };
    match chart_text(alloc, chosen, &trace) {
        Ok(text) => Ok(text),
        Err(error) => Err(uncharted(error)),
    }
}

/// Writes the chart of a source's trace.
fn serve_chart<S: Source, K: Sink>(
    alloc: Global,
    chosen: Option<u32>,
    source: &mut S,
    sink: &mut K,
) -> ChartStatus
    ensures served { IsCharted result chosen
        (record {
          left_before = S.left source.old;
          left_after = S.left source.new;
          faults_before = S.faults source.old;
          faults_after = S.faults source.new;
        })
        (record {
          written_before = K.written sink.old;
          written_after = K.written sink.new;
          faults_before = K.faults sink.old;
          faults_after = K.faults sink.new;
        }) }
    ensures source_faults { S.faults source.old ≤ S.faults source.new }
    ensures sink_faults { K.faults sink.old ≤ K.faults sink.new }
{
    let text = match charted(alloc, chosen, source) {
        Ok(text) => text,
        Err(status) => return status,
    };
    match write_all(sink, &text) {
        Ok(()) => ChartStatus::Plain(Status::Done),
        Err(_) => ChartStatus::Plain(Status::WriteFault),
    }
}

/// The program that draws: `words` are its words without the program's name, nothing or the number of a line. It reads a trace from the source, to its end, makes the trace's own steps and writes the picture of that run to the sink, of all its events or of those about the line. On every status but Done the status's text goes to `err`; where a write to it fails the rest of the text is left out, and the status stays.
pub fn chart_main<S: Source, K: Sink, F: Sink>(
    alloc: Global,
    words: &[String],
    source: &mut S,
    sink: &mut K,
    err: &mut F,
) -> ChartStatus
    ensures right { IsRightChart result (map string_bytes words.now)
        (record {
          left_before = S.left source.old;
          left_after = S.left source.new;
          faults_before = S.faults source.old;
          faults_after = S.faults source.new;
        })
        (record {
          written_before = K.written sink.old;
          written_after = K.written sink.new;
          faults_before = K.faults sink.old;
          faults_after = K.faults sink.new;
        }) }
    ensures source_faults { S.faults source.old ≤ S.faults source.new }
    ensures sink_faults { K.faults sink.old ≤ K.faults sink.new }
    ensures told { ((F.faults err.new ≡ F.faults err.old) × Appends (F.written err.old) (F.written err.new) (chart_fault_text result))
        ⊎ ((F.faults err.new ≡ raised (F.faults err.old)) × AppendsPart (F.written err.old) (F.written err.new) (chart_fault_text result)) }
    ensures err_faults { F.faults err.old ≤ F.faults err.new }
{
    let status = match chosen(words) {
        Some(chosen) => serve_chart(alloc, chosen, source, sink),
        None => ChartStatus::Usage,
    };
    let _ = tell_chart(err, status);
    status
}
