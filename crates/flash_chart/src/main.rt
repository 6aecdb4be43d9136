//! The program `flash_chart`, which draws runs.
#![tactic(auto)]

use chart_top::{StdSink, StdSource, chart_main};
use std::alloc::{AllocError, Global};
use std::env::{self, Args};
use std::io::{self, ErrorKind};
use std::process::ExitCode;

/// The exit code where the words can't be had for want of memory.
const NO_MEMORY: u8 = 5;

/// The exit code where the system refuses the words for another cause. No status has it.
const NO_WORDS: u8 = 10;

fn refused(error: &io::Error) -> ExitCode {
    if error.kind() == ErrorKind::OutOfMemory {
        ExitCode::from(NO_MEMORY)
    } else {
        ExitCode::from(NO_WORDS)
    }
}

/// The program's words, without the program's name.
fn words_of(alloc: Global, args: Args) -> Result<Vec<String>, AllocError> {
    args.skip(1).collect(alloc)
}

fn main(rt: HostRuntime) -> ExitCode {
    let args = match env::args(&rt) {
        Ok(args) => args,
        Err(error) => return refused(&error),
    };
    let Ok(words) = words_of(rt.alloc(), args) else {
        return ExitCode::from(NO_MEMORY);
    };
    let mut source = StdSource::new(rt.stdin());
    let mut sink = StdSink::new(rt.stdout());
    let mut err = StdSink::new(rt.stderr());
    let status = chart_main(rt.alloc(), &words, &mut source, &mut sink, &mut err);
    ExitCode::from(status.code())
}
