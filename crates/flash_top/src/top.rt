//! The top call.

ghost use Rattle.std.specs.Prelude.{◌≡◌, ◌≤◌, ◌⊎◌, codes, map, string_bytes, Ok, IfOk, IfErr};
ghost use Rattle.std.specs.Str.{bytes_eq};
ghost use Rattle.std.specs.Io.KnownBytes.{Appends};
ghost use Rattle.byte_io.specs.Faults.{raised};
ghost use Rattle.byte_io.specs.Moves.{AppendsPart};
ghost use Rattle.flash_top.specs.Faults.{fault_text};
ghost use Rattle.trace_text.specs.Reading.{trace_of};
ghost use Rattle.check_command.specs.Checked.{IsChecked};
ghost use Rattle.commands.specs.Runs.{IsOutput, IsStoppedIn};
ghost use Rattle.flash_top.specs.Served.{Reads, IsInput, IsNoInput, IsNoTrace, IsUnreadable, PlaysText, charge_of, IsUnplayed, PlaysEagerText, IsEagerUnplayed, ShowsText, IsUnshown, IsUnchecked, IsTextOf, HasNoText, IsServed, IsRight, RunsText, IsRunServed, is_run as is_run_of, IsRightWithThreads, status_of_stop, status_of_refusal, status_of_replay, status_of_view, status_of_check};

use crate::status::Status;
use crate::telling::tell;
use byte_io::{ReadStop, Sink, Source, read_all, write_all};
use check_command::{CheckRefusal, check_text};
use command_words::{Command, EagerPlay, Lists, Play, View};
use commands::{ReplayError, ViewError, bits_text, command_text, view_text};
use eager_command::eager_text;
use run_text::{Gate, run_text};
use std::alloc::Global;
use std::sync::Wait;
use std::thread::Threads;
use trace_text::{Trace, TraceError, generate, read_trace};

fn stopped(stop: ReadStop) -> Status
    ensures { result ≡ status_of_stop stop }
{
    match stop {
        ReadStop::Fault => Status::ReadFault,
        ReadStop::TooLong => Status::TooLong,
        ReadStop::Memory => Status::Memory,
    }
}

fn refused(error: TraceError) -> Status
    ensures { result ≡ status_of_refusal error }
{
    match error {
        TraceError::Bad { line, cause } => Status::BadTrace { line, cause },
        TraceError::TooManyOps => Status::TooManyOps,
        TraceError::TooManySteps => Status::TooManySteps,
        TraceError::Memory => Status::Memory,
    }
}

fn halted(error: ReplayError) -> Status
    ensures { result ≡ status_of_replay error }
{
    match error {
        ReplayError::NotEnabled { step, cause } => Status::NotEnabled { step, cause },
        ReplayError::Memory => Status::Memory,
    }
}

fn unseen(error: ViewError) -> Status
    ensures { result ≡ status_of_view error }
{
    match error {
        ViewError::TooFar { count } => Status::TooFar { count },
        ViewError::NoLine { line } => Status::NoLine { line },
        ViewError::NotEnabled { step, cause } => Status::NotEnabled { step, cause },
        ViewError::Memory => Status::Memory,
    }
}

fn unchecked(refusal: CheckRefusal) -> Status
    ensures { result ≡ status_of_check refusal }
{
    match refusal {
        CheckRefusal::Input(error) => refused(error),
        CheckRefusal::IllegalHistory { entry, cause } => Status::IllegalHistory { entry, cause },
    }
}

/// The trace that a source has, which is read to its end.
pub fn read_in<S: Source>(alloc: Global, source: &mut S) -> Result<Trace, Status>
    ensures ok { IfOk result (λ trace. Reads
        (record {
          left_before = S.left source.old;
          left_after = S.left source.new;
          faults_before = S.faults source.old;
          faults_after = S.faults source.new;
        })
        (λ bytes. trace_of bytes ≡ Ok trace)) }
    ensures err { IfErr result (λ status. IsUnreadable IsNoTrace status
        (record {
          left_before = S.left source.old;
          left_after = S.left source.new;
          faults_before = S.faults source.old;
          faults_after = S.faults source.new;
        })) }
    ensures faults { S.faults source.old ≤ S.faults source.new }
{
    let bytes = match read_all(alloc, source) {
        Ok(bytes) => bytes,
        Err(stop) => return Err(stopped(stop)),
    };
    match read_trace(alloc, &bytes) {
        Ok(trace) => Ok(trace),
        Err(error) => Err(refused(error)),
    }
}

/// The trace that a command plays.
fn input<S: Source>(alloc: Global, play: Play, source: &mut S) -> Result<Trace, Status>
    ensures ok { IfOk result (λ trace. IsInput play
        (record {
          left_before = S.left source.old;
          left_after = S.left source.new;
          faults_before = S.faults source.old;
          faults_after = S.faults source.new;
        })
        trace) }
    ensures err { IfErr result (λ status. IsNoInput status play
        (record {
          left_before = S.left source.old;
          left_after = S.left source.new;
          faults_before = S.faults source.old;
          faults_after = S.faults source.new;
        })) }
    ensures faults { S.faults source.old ≤ S.faults source.new }
{
    match play {
        Play::Gen { count, seed } => match generate(alloc, count, seed) {
            Ok(trace) => Ok(trace),
            Err(_) => Err(Status::Memory),
        },
        Play::Serial | Play::Seeded { .. } | Play::Replay => read_in(alloc, source),
    }
}

/// The text of the run that a command makes of a trace, over lists of one kind.
fn text_over(alloc: Global, play: Play, lists: Lists, trace: &Trace) -> Result<Vec<u8>, ReplayError>
    ensures text { IfOk result (λ text. IsOutput play (charge_of lists) trace.now text.items) }
    ensures stopped { IfErr result (IsStoppedIn play (charge_of lists) trace.now) }
{
    match lists {
        Lists::Linked => command_text(alloc, play, trace),
        Lists::Bits => bits_text(alloc, play, trace),
    }
}

/// The text of the run that a command makes of its trace.
fn played<S: Source>(
    alloc: Global,
    play: Play,
    lists: Lists,
    source: &mut S,
) -> Result<Vec<u8>, Status>
    ensures ok { IfOk result (λ text. PlaysText play lists
        (record {
          left_before = S.left source.old;
          left_after = S.left source.new;
          faults_before = S.faults source.old;
          faults_after = S.faults source.new;
        })
        text.items) }
    ensures err { IfErr result (λ status. IsUnplayed status play lists
        (record {
          left_before = S.left source.old;
          left_after = S.left source.new;
          faults_before = S.faults source.old;
          faults_after = S.faults source.new;
        })) }
    ensures faults { S.faults source.old ≤ S.faults source.new }
{
    let trace = input(alloc, play, source)?;
    match text_over(alloc, play, lists, &trace) {
        Ok(text) => Ok(text),
        Err(error) => Err(halted(error)),
    }
}

/// The text of the eager core's run of the trace that a source has, which is read to its end.
fn eager<S: Source>(alloc: Global, play: EagerPlay, source: &mut S) -> Result<Vec<u8>, Status>
    ensures ok { IfOk result (λ text. PlaysEagerText play
        (record {
          left_before = S.left source.old;
          left_after = S.left source.new;
          faults_before = S.faults source.old;
          faults_after = S.faults source.new;
        })
        text.items) }
    ensures err { IfErr result (λ status. IsEagerUnplayed status play
        (record {
          left_before = S.left source.old;
          left_after = S.left source.new;
          faults_before = S.faults source.old;
          faults_after = S.faults source.new;
        })) }
    ensures faults { S.faults source.old ≤ S.faults source.new }
{
    let trace = read_in(alloc, source)?;
    match eager_text(alloc, play, &trace) {
        Ok(text) => Ok(text),
        Err(error) => Err(halted(error)),
    }
}

/// The text of what is shown of the trace that a source has, which is read to its end.
fn shown<S: Source>(alloc: Global, view: View, source: &mut S) -> Result<Vec<u8>, Status>
    ensures ok { IfOk result (λ text. ShowsText view
        (record {
          left_before = S.left source.old;
          left_after = S.left source.new;
          faults_before = S.faults source.old;
          faults_after = S.faults source.new;
        })
        text.items) }
    ensures err { IfErr result (λ status. IsUnshown status view
        (record {
          left_before = S.left source.old;
          left_after = S.left source.new;
          faults_before = S.faults source.old;
          faults_after = S.faults source.new;
        })) }
    ensures faults { S.faults source.old ≤ S.faults source.new }
{
    let trace = read_in(alloc, source)?;
    match view_text(alloc, view, &trace) {
        Ok(text) => Ok(text),
        Err(error) => Err(unseen(error)),
    }
}

/// The text of the judgement on the history that a source has, which is read to its end.
fn checked<S: Source>(alloc: Global, source: &mut S) -> Result<Vec<u8>, Status>
    ensures ok { IfOk result (λ text. Reads
        (record {
          left_before = S.left source.old;
          left_after = S.left source.new;
          faults_before = S.faults source.old;
          faults_after = S.faults source.new;
        })
        (λ bytes. IsChecked bytes text.items)) }
    ensures err { IfErr result (λ status. IsUnchecked status
        (record {
          left_before = S.left source.old;
          left_after = S.left source.new;
          faults_before = S.faults source.old;
          faults_after = S.faults source.new;
        })) }
    ensures faults { S.faults source.old ≤ S.faults source.new }
{
    let bytes = match read_all(alloc, source) {
        Ok(bytes) => bytes,
        Err(stop) => return Err(stopped(stop)),
    };
    match check_text(alloc, &bytes) {
        Ok(text) => Ok(text),
        Err(refusal) => Err(unchecked(refusal)),
    }
}

/// The text that a command writes.
fn text_of<S: Source>(alloc: Global, command: Command, source: &mut S) -> Result<Vec<u8>, Status>
    ensures ok { IfOk result (λ text. IsTextOf command
        (record {
          left_before = S.left source.old;
          left_after = S.left source.new;
          faults_before = S.faults source.old;
          faults_after = S.faults source.new;
        })
        text.items) }
    ensures err { IfErr result (λ status. HasNoText status command
        (record {
          left_before = S.left source.old;
          left_after = S.left source.new;
          faults_before = S.faults source.old;
          faults_after = S.faults source.new;
        })) }
    ensures faults { S.faults source.old ≤ S.faults source.new }
{
    match command {
        Command::Play(play, lists) => played(alloc, play, lists, source),
        Command::Eager(play) => eager(alloc, play, source),
        Command::View(view) => shown(alloc, view, source),
        Command::Check => checked(alloc, source),
    }
}

/// Does a command: writes its text.
fn serve<S: Source, K: Sink>(
    alloc: Global,
    command: Command,
    source: &mut S,
    sink: &mut K,
) -> Status
    ensures served { IsServed result command
        (record {
          left_before = S.left source.old;
          left_after = S.left source.new;
          faults_before = S.faults source.old;
          faults_after = S.faults source.new;
        })
        (record {
          written_before = K.written sink.old;
          written_after = K.written sink.new;
          faults_before = K.faults sink.old;
          faults_after = K.faults sink.new;
        }) }
    ensures source_faults { S.faults source.old ≤ S.faults source.new }
    ensures sink_faults { K.faults sink.old ≤ K.faults sink.new }
{
    let text = match text_of(alloc, command, source) {
        Ok(text) => text,
        Err(status) => return status,
    };
    match write_all(sink, &text) {
        Ok(()) => Status::Done,
        Err(_) => Status::WriteFault,
    }
}

/// The program: `words` are its words without the program's name, and name a command. `serial`, `seeded S` and `replay` read a trace from the source, to its end, run it and write the report of the run to the sink; `gen K S` generates a trace, runs it and writes its summary; `bits serial` and `bits replay` do as `serial` and `replay` over bit vectors in the place of linked lists; `eager serial` and `eager replay` read a trace, run it by the eager core and write the text of that run; `at T` reads a trace, makes its first T steps and writes the whole state behind them; `story G` reads a trace, makes all its steps and writes every header that line G has had; `check` reads a trace and the report behind it, and writes how many entries its history has, where it is good. On every status but Done the status's text goes to `err`; where a write to it fails the rest of the text is left out, and the status stays.
pub fn plain_main<S: Source, K: Sink, F: Sink>(
    alloc: Global,
    words: &[String],
    source: &mut S,
    sink: &mut K,
    err: &mut F,
) -> Status
    ensures right { IsRight result (map string_bytes words.now)
        (record {
          left_before = S.left source.old;
          left_after = S.left source.new;
          faults_before = S.faults source.old;
          faults_after = S.faults source.new;
        })
        (record {
          written_before = K.written sink.old;
          written_after = K.written sink.new;
          faults_before = K.faults sink.old;
          faults_after = K.faults sink.new;
        }) }
    ensures source_faults { S.faults source.old ≤ S.faults source.new }
    ensures sink_faults { K.faults sink.old ≤ K.faults sink.new }
    ensures told { ((F.faults err.new ≡ F.faults err.old) × Appends (F.written err.old) (F.written err.new) (fault_text result))
        ⊎ ((F.faults err.new ≡ raised (F.faults err.old)) × AppendsPart (F.written err.old) (F.written err.new) (fault_text result)) }
    ensures err_faults { F.faults err.old ≤ F.faults err.new }
{
    let status = match Command::of_words(words) {
        Some(command) => serve(alloc, command, source, sink),
        None => Status::Usage,
    };
    let _ = tell(err, status);
    status
}

/// The text of the run in threads of the trace that a source has, which is read to its end.
fn threaded<R: Threads + Wait + Sync, S: Source, G: Gate + Sync>(
    rt: &R,
    alloc: Global,
    source: &mut S,
    gate: &G,
) -> Result<Vec<u8>, Status>
    ensures ok { IfOk result (λ text. RunsText
        (record {
          left_before = S.left source.old;
          left_after = S.left source.new;
          faults_before = S.faults source.old;
          faults_after = S.faults source.new;
        })
        text.items) }
    ensures err { IfErr result (λ status. IsUnreadable IsNoTrace status
        (record {
          left_before = S.left source.old;
          left_after = S.left source.new;
          faults_before = S.faults source.old;
          faults_after = S.faults source.new;
        })) }
    ensures faults { S.faults source.old ≤ S.faults source.new }
{
    let trace = read_in(alloc, source)?;
    match run_text(rt, alloc, &trace, gate) {
        Ok(text) => Ok(text),
        Err(_) => Err(Status::Memory),
    }
}

/// Runs in threads, and writes the text of that run.
fn serve_threads<R: Threads + Wait + Sync, S: Source, K: Sink, G: Gate + Sync>(
    rt: &R,
    alloc: Global,
    source: &mut S,
    sink: &mut K,
    gate: &G,
) -> Status
    ensures served { IsRunServed result
        (record {
          left_before = S.left source.old;
          left_after = S.left source.new;
          faults_before = S.faults source.old;
          faults_after = S.faults source.new;
        })
        (record {
          written_before = K.written sink.old;
          written_after = K.written sink.new;
          faults_before = K.faults sink.old;
          faults_after = K.faults sink.new;
        }) }
    ensures source_faults { S.faults source.old ≤ S.faults source.new }
    ensures sink_faults { K.faults sink.old ≤ K.faults sink.new }
{
    let report = match threaded(rt, alloc, source, gate) {
        Ok(report) => report,
        Err(status) => return status,
    };
    match write_all(sink, &report) {
        Ok(()) => Status::Done,
        Err(_) => Status::WriteFault,
    }
}

fn names_run(word: &str) -> bool
    ensures { result ≡ bytes_eq word.now (codes "run") }
{
    matches!(word, "run")
}

fn is_run(words: &[String]) -> bool
    ensures { result ≡ is_run_of (map string_bytes words.now) }
{
    match words {
        [word] => names_run(word),
        _ => false,
    }
}

/// The program with threads. Where its one word is `run`, it reads a trace from the source, to its end, runs its programs with each processor and each controller as a role of its own, in a thread where one can be started, and writes the steps that were made and the report of their run to the sink. The gate is called before each turn of each role. All other words are `plain_main`'s, which takes `run` for no form of a command. It may wait, and its promise holds if it returns.
pub fn run_main<R: Threads + Wait + Sync, S: Source, K: Sink, F: Sink, G: Gate + Sync>(
    rt: &R,
    alloc: Global,
    words: &[String],
    source: &mut S,
    sink: &mut K,
    err: &mut F,
    gate: &G,
) -> Status
    ensures right { IsRightWithThreads result (map string_bytes words.now)
        (record {
          left_before = S.left source.old;
          left_after = S.left source.new;
          faults_before = S.faults source.old;
          faults_after = S.faults source.new;
        })
        (record {
          written_before = K.written sink.old;
          written_after = K.written sink.new;
          faults_before = K.faults sink.old;
          faults_after = K.faults sink.new;
        }) }
    ensures source_faults { S.faults source.old ≤ S.faults source.new }
    ensures sink_faults { K.faults sink.old ≤ K.faults sink.new }
    ensures told { ((F.faults err.new ≡ F.faults err.old) × Appends (F.written err.old) (F.written err.new) (fault_text result))
        ⊎ ((F.faults err.new ≡ raised (F.faults err.old)) × AppendsPart (F.written err.old) (F.written err.new) (fault_text result)) }
    ensures err_faults { F.faults err.old ≤ F.faults err.new }
{
    if !is_run(words) {
        return plain_main(alloc, words, source, sink, err);
    }
    let ended = serve_threads(rt, alloc, source, sink, gate);
    let _ = tell(err, ended);
    ended
}
