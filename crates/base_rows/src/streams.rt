//! Reading and writing whole, over tables of pieces, rooms and calls that fail, and over std's readers and writers.

ghost use Rattle.std.specs.Prelude.{◌<◌};

use crate::agree::agree;
use byte_io::{
    Failed, MOST_BYTES, MemSink, MemSource, ReadStop, Sink, Source, StdSink, StdSource, read_all,
    write_all, write_pieces,
};
use std::alloc::{AllocError, Global};
use std::io::{self, Error, ErrorKind, Read, Write};
use std::process::Abort;
use std::test::Fail;

const TEXT: &[u8] = b"abcdefghijklmnopqrstuvwxy";

/// A source of `TEXT`, and what reading it whole is to give.
struct ReadRow {
    piece: usize,
    failing: &'static [u64],
    stop: Option<ReadStop>,
    left: usize,
    calls: u64,
    faults: u64,
}

const READS: [ReadRow; 7] = [
    ReadRow {
        piece: 1,
        failing: &[],
        stop: None,
        left: 0,
        calls: 26,
        faults: 0,
    },
    ReadRow {
        piece: 10,
        failing: &[],
        stop: None,
        left: 0,
        calls: 4,
        faults: 0,
    },
    ReadRow {
        piece: 9999,
        failing: &[],
        stop: None,
        left: 0,
        calls: 2,
        faults: 0,
    },
    ReadRow {
        piece: 10,
        failing: &[0],
        stop: Some(ReadStop::Fault),
        left: 25,
        calls: 1,
        faults: 1,
    },
    ReadRow {
        piece: 10,
        failing: &[7, 2],
        stop: Some(ReadStop::Fault),
        left: 5,
        calls: 3,
        faults: 1,
    },
    ReadRow {
        piece: 10,
        failing: &[3],
        stop: Some(ReadStop::Fault),
        left: 0,
        calls: 4,
        faults: 1,
    },
    ReadRow {
        piece: 10,
        failing: &[4],
        stop: None,
        left: 0,
        calls: 4,
        faults: 0,
    },
];

fn source_of(alloc: Global, row: &ReadRow) -> Result<MemSource, AllocError>
    requires { 0 < row.now.piece }
{
    let bytes = TEXT.to_vec(alloc)?;
    let failing = row.failing.to_vec(alloc)?;
    Ok(MemSource::new(bytes, row.piece, failing))
}

// Why reading the whole source stops, if it does.
fn stop_of(
    rt: &impl Abort,
    alloc: Global,
    number: usize,
    source: &mut MemSource,
) -> Option<ReadStop> {
    match read_all(alloc, source) {
        Ok(bytes) => {
            agree(rt, number, "text", bytes.as_slice(), TEXT);
            None
        }
        Err(stop) => Some(stop),
    }
}

#[test]
fn reads_whole(rt: HostRuntime) -> Result<(), Fail> {
    for (number, row) in READS.iter().enumerate() {
        assert!(rt; row.piece > 0);
        let mut source = source_of(rt.alloc(), row)?;
        let stop = stop_of(&rt, rt.alloc(), number, &mut source);
        agree(&rt, number, "stop", stop, row.stop);
        agree(&rt, number, "bytes left", source.left().len(), row.left);
        agree(&rt, number, "calls", source.calls(), row.calls);
        agree(&rt, number, "faults", source.faults(), row.faults);
    }
    Ok(())
}

/// A source that failed goes on where it was.
#[test]
fn reads_on_after_a_fault(rt: HostRuntime) -> Result<(), Fail> {
    let mut source = MemSource::new(TEXT.to_vec(rt.alloc())?, 10, [1].to_vec(rt.alloc())?);
    let first = read_all(rt.alloc(), &mut source);
    assert!(rt; matches!(first, Err(ReadStop::Fault)));
    let rest = read_all(rt.alloc(), &mut source)?;
    agree(&rt, 0, "rest", rest.as_slice(), b"klmnopqrstuvwxy");
    Ok(())
}

/// So many bytes, how many are read or why reading stops, and how many are left.
const LENGTHS: [(usize, Result<usize, ReadStop>, usize); 2] = [
    (MOST_BYTES, Ok(16_777_216), 0),
    (MOST_BYTES + 3, Err(ReadStop::TooLong), 2),
];

fn length_read(alloc: Global, source: &mut MemSource) -> Result<usize, ReadStop> {
    Ok(read_all(alloc, source)?.len())
}

#[test]
fn stops_where_the_bytes_are_too_many(rt: HostRuntime) -> Result<(), Fail> {
    for (number, (count, read, left)) in LENGTHS.iter().enumerate() {
        let bytes = vec![in rt.alloc(); 35u8; *count]?;
        let mut source = MemSource::new(bytes, 1_000_000, Vec::new(rt.alloc()));
        let found = length_read(rt.alloc(), &mut source);
        agree(&rt, number, "length", found, *read);
        agree(&rt, number, "bytes left", source.left().len(), *left);
    }
    Ok(())
}

/// A sink, and what writing `TEXT` to it is to give.
struct WriteRow {
    room: usize,
    piece: usize,
    failing: &'static [u64],
    result: Result<(), Failed>,
    written: &'static [u8],
    calls: u64,
    faults: u64,
}

const WRITES: [WriteRow; 6] = [
    WriteRow {
        room: 25,
        piece: 10,
        failing: &[],
        result: Ok(()),
        written: TEXT,
        calls: 3,
        faults: 0,
    },
    WriteRow {
        room: 99,
        piece: 1,
        failing: &[25],
        result: Ok(()),
        written: TEXT,
        calls: 25,
        faults: 0,
    },
    WriteRow {
        room: 99,
        piece: 10,
        failing: &[2],
        result: Err(Failed),
        written: b"abcdefghijklmnopqrst",
        calls: 3,
        faults: 1,
    },
    WriteRow {
        room: 24,
        piece: 10,
        failing: &[],
        result: Err(Failed),
        written: b"abcdefghijklmnopqrstuvwx",
        calls: 4,
        faults: 1,
    },
    WriteRow {
        room: 99,
        piece: 99,
        failing: &[1, 0],
        result: Err(Failed),
        written: b"",
        calls: 1,
        faults: 1,
    },
    WriteRow {
        room: 0,
        piece: 10,
        failing: &[],
        result: Err(Failed),
        written: b"",
        calls: 1,
        faults: 1,
    },
];

const IN_PIECES: [WriteRow; 4] = [
    WriteRow {
        room: 25,
        piece: 10,
        failing: &[],
        result: Ok(()),
        written: TEXT,
        calls: 4,
        faults: 0,
    },
    WriteRow {
        room: 99,
        piece: 99,
        failing: &[2],
        result: Ok(()),
        written: TEXT,
        calls: 2,
        faults: 0,
    },
    WriteRow {
        room: 99,
        piece: 10,
        failing: &[2],
        result: Err(Failed),
        written: b"abcdefghijkl",
        calls: 3,
        faults: 1,
    },
    WriteRow {
        room: 13,
        piece: 10,
        failing: &[],
        result: Err(Failed),
        written: b"abcdefghijklm",
        calls: 4,
        faults: 1,
    },
];

fn sink_of(alloc: Global, row: &WriteRow) -> Result<MemSink, Fail>
    requires { 0 < row.now.piece }
{
    let failing = row.failing.to_vec(alloc)?;
    Ok(MemSink::new(alloc, row.room, row.piece, failing)?)
}

// What the sink has come to, and how the writing ended.
fn wrote(
    rt: &impl Abort,
    number: usize,
    row: &WriteRow,
    sink: &MemSink,
    ended: Result<(), Failed>,
) {
    agree(rt, number, "result", ended, row.result);
    agree(rt, number, "text", sink.bytes(), row.written);
    agree(rt, number, "calls", sink.calls(), row.calls);
    agree(rt, number, "faults", sink.faults(), row.faults);
}

#[test]
fn writes_whole(rt: HostRuntime) -> Result<(), Fail> {
    for (number, row) in WRITES.iter().enumerate() {
        assert!(rt; row.piece > 0);
        let mut sink = sink_of(rt.alloc(), row)?;
        let result = write_all(&mut sink, TEXT);
        wrote(&rt, number, row, &sink, result);
    }
    Ok(())
}

const PIECES: [&[u8]; 4] = [b"abcdefghijkl", b"", b"mnopqrstuvwxy", b""];

#[test]
fn writes_pieces(rt: HostRuntime) -> Result<(), Fail> {
    for (number, row) in IN_PIECES.iter().enumerate() {
        assert!(rt; row.piece > 0);
        let mut sink = sink_of(rt.alloc(), row)?;
        let result = write_pieces(&mut sink, &PIECES);
        wrote(&rt, number, row, &sink, result);
    }
    Ok(())
}

/// Nothing finds room where there is none.
#[test]
fn writes_nothing(rt: HostRuntime) -> Result<(), Fail> {
    let mut sink = MemSink::new(rt.alloc(), 0, 1, Vec::new(rt.alloc()))?;
    agree(&rt, 0, "write", sink.write(b""), Ok(0));
    agree(&rt, 0, "result", write_all(&mut sink, b""), Ok(()));
    assert!(rt; sink.calls() == 1);
    assert!(rt; sink.faults() == 0);
    Ok(())
}

/// A reader that fails, and a writer that takes nothing or fails.
#[derive(Drop)]
enum Faulty {
    Broken,
    Stuck,
}

impl Read for Faulty {
    fn read(&mut self, _buf: &mut [u8]) -> io::Result<usize> {
        Err(Error::from(ErrorKind::BrokenPipe))
    }
}

impl Write for Faulty {
    fn write(&mut self, _buf: &[u8]) -> io::Result<usize> {
        match self {
            Faulty::Broken => Err(Error::from(ErrorKind::BrokenPipe)),
            Faulty::Stuck => Ok(0),
        }
    }

    fn flush(&mut self) -> io::Result<()> {
        Ok(())
    }
}

#[test]
fn reads_a_slice(rt: HostRuntime) -> Result<(), Fail> {
    let mut source = StdSource::new(TEXT);
    let bytes = read_all(rt.alloc(), &mut source)?;
    agree(&rt, 0, "text", bytes.as_slice(), TEXT);
    let mut end = [0u8; 4];
    agree(&rt, 0, "read at the end", source.read(&mut end), Ok(0));
    Ok(())
}

#[test]
fn writes_to_a_vector(rt: HostRuntime) {
    let mut held: Vec<u8> = Vec::new(rt.alloc());
    let result = write_pieces(&mut StdSink::new(&mut held), &[TEXT, b"", TEXT]);
    agree(&rt, 0, "result", result, Ok(()));
    let twice = b"abcdefghijklmnopqrstuvwxyabcdefghijklmnopqrstuvwxy";
    agree(&rt, 0, "text", held.as_slice(), twice);
}

#[test]
fn reads_where_reading_fails(rt: HostRuntime) {
    let stop = read_all(rt.alloc(), &mut StdSource::new(Faulty::Broken));
    assert!(rt; matches!(stop, Err(ReadStop::Fault)));
}

#[test]
fn writes_where_writing_fails(rt: HostRuntime) {
    let result = write_all(&mut StdSink::new(Faulty::Broken), TEXT);
    agree(&rt, 0, "result", result, Err(Failed));
}

#[test]
fn writes_where_nothing_is_taken(rt: HostRuntime) {
    let some = write_all(&mut StdSink::new(Faulty::Stuck), TEXT);
    agree(&rt, 0, "result", some, Err(Failed));
    let none = write_all(&mut StdSink::new(Faulty::Stuck), b"");
    agree(&rt, 1, "result", none, Ok(()));
    agree(
        &rt,
        2,
        "write",
        StdSink::new(Faulty::Stuck).write(b""),
        Ok(0),
    );
}
