//! Calls of the program over inputs and outputs in memory.

ghost use Rattle.std.specs.Prelude.{◌<◌};

use flash_top::{MemSink, MemSource, plain_main};
use std::alloc::Global;
use std::test::Fail;

/// How a call ended, and what it wrote.
#[derive(Drop)]
pub struct Ended {
    pub code: u8,
    pub output: Vec<u8>,
    pub told: Vec<u8>,
    pub reads: u64,
}

impl Ended {
    /// Whether a call ended with this exit code, and wrote and told just this.
    pub fn is(&self, code: u8, output: &str, told: &str) -> bool {
        self.code == code
            && self.output.as_slice() == output.as_bytes()
            && self.told.as_slice() == told.as_bytes()
    }
}

/// The number of a call that no row comes to.
pub const NEVER: u64 = u64::MAX;

/// Room for the longest output of a row.
const ROOM: usize = 4_000_000;

/// Calls the program over an input, where one read, one write and one write of a fault's text fail, each counted from 0, and at most so many bytes move at once. Words are parted by single spaces.
pub fn call(
    alloc: Global,
    words: &str,
    input: &[u8],
    piece: usize,
    fails: &[u64; 3],
) -> Result<Ended, Fail>
    requires { 0 < piece }
{
    let [read, write, tell] = *fails;
    let mut all = Vec::new(alloc);
    if !words.is_empty() {
        for word in words.split(' ') {
            all.push(String::from_str(alloc, word)?)?;
        }
    }
    let mut source = MemSource::new(input.to_vec(alloc)?, piece, vec![in alloc; read]?);
    let mut sink = MemSink::new(alloc, ROOM, piece, vec![in alloc; write]?)?;
    let mut err = MemSink::new(alloc, 256, piece, vec![in alloc; tell]?)?;
    let status = plain_main(alloc, &all, &mut source, &mut sink, &mut err);
    Ok(Ended {
        code: status.code(),
        output: sink.bytes().to_vec(alloc)?,
        told: err.bytes().to_vec(alloc)?,
        reads: source.calls(),
    })
}

/// Calls the program over an input, where nothing fails.
pub fn ends(alloc: Global, words: &str, input: &[u8]) -> Result<Ended, Fail> {
    call(alloc, words, input, 4096, &[NEVER; 3])
}
